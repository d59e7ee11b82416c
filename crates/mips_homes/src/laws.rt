//! The laws of runs over homes, each as the contract of a function that does nothing.
ghost use Rattle.mips_homes.specs.Laws.{EachHomedRunIsTheRun};
ghost use Rattle.mips_homes.specs.Forgetting.{EachChoiceNeverForgets};

/// States that a program over homes that serve it does what the program does. A law: it computes nothing.
pub fn each_homed_run_is_the_run()
    ensures { EachHomedRunIsTheRun }
{}

/// States that over homes in callee-saved registers and in slots, as `homes` gives them, the end of a block forgets nothing. A law: it
/// computes nothing.
pub fn each_choice_never_forgets()
    ensures { EachChoiceNeverForgets }
{}
