//! A pool of workers that steal (Blumofe and Leiserson, 1999): tasks by number, from deques that are first in, first out.
//!
//! Definitions: `specs/Places.antt`, `specs/Rule.antt`, `specs/Rounds.antt`.
//! Contract: `run`, `members`, `Member::take`, `views_tell_places`, `each_deque_keeps_its_tasks`
//! - `run` gives at place i only what is right for task i.
//! - `members` puts each task on one deque.
//! - If `take` gives None, the deque of each place was found empty during the call.
//!
//! | Tested | In |
//! |---|---|
//! | a waiting worker is robbed; each of 100 tasks is done once by 1, 3 and 64 workers | test_calls |
#![tactic(auto)]

mod answers;
mod deques;
mod job;
mod laws;
mod member;
mod pool;
mod rule;
mod start;
mod unmarked;
mod victim;
mod view;

pub use job::{Gate, Job, Open};
pub use laws::{each_deque_keeps_its_tasks, views_tell_places};
pub use member::Member;
pub use pool::run;
pub use rule::{Fact, Note};
pub use start::members;
pub use unmarked::Unmarked;
pub use view::View;
