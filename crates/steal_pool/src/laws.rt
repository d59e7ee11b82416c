//! The laws of a pool's deques, each as the contract of a function that does nothing.
ghost use Rattle.steal_pool.specs.Laws.{EachDequeKeepsItsTasks, ViewsTellPlaces};

/// States that the rule of a deque is itself a fact that its steps carry on. Of a deque that was found empty it tells that each task was
/// taken. A law: it computes nothing.
pub fn each_deque_keeps_its_tasks()
    ensures { EachDequeKeepsItsTasks }
{}

/// States that what is noted of the view of one place's pass says nothing of another's: the two views differ. A law: it computes nothing.
pub fn views_tell_places()
    ensures { ViewsTellPlaces }
{}
