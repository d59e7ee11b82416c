//! The laws of RTL, each as the contract of a function that does nothing.
ghost use Rattle.rtl.specs.Laws.{ComputesAsC, RunsGoOnFromWhereTheyAre, ValuesAreWords};
ghost use Rattle.rtl.specs.Numbers.{LimitsAreTheseNumbers};

/// States that constants and first values mean words, so all that a program computes and keeps is words. A law: it computes nothing.
pub fn values_are_words()
    ensures { ValuesAreWords }
{}

/// States that runs compose, and one that ended or failed stays so. A law: it computes nothing.
pub fn runs_go_on_from_where_they_are()
    ensures { RunsGoOnFromWhereTheyAre }
{}

/// States that where C gives an operation on two words a value, an operator here has it as its result. A law: it computes nothing.
pub fn operators_compute_as_c()
    ensures { ComputesAsC }
{}

/// States that each limit is the number that specs/Numbers.antt tells, so a change of one is a change there. A law: it computes nothing.
pub fn limits_are_these_numbers()
    ensures { LimitsAreTheseNumbers }
{}
