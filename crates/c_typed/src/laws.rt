//! The laws of typed programs, each as the contract of a function that does nothing.
ghost use Rattle.c_typed.specs.Laws.{ElementsFitTheirWidths, RunsGoOnFromWhereTheyAre, ValuesAreWords};
ghost use Rattle.c_typed.specs.Numbers.{LimitsAreTheseNumbers};

/// States that constants mean words, so all that a typed program computes and keeps is words. A law: it computes nothing.
pub fn values_are_words()
    ensures { ValuesAreWords }
{}

/// States that the elements of a global fit its width. So an element of an array of bytes is read as a number from 0 to 255. A law: it
/// computes nothing.
pub fn elements_fit_their_widths()
    ensures { ElementsFitTheirWidths }
{}

/// States that runs compose, and one that ended or failed stays so. A law: it computes nothing.
pub fn runs_go_on_from_where_they_are()
    ensures { RunsGoOnFromWhereTheyAre }
{}

/// States that each limit is the number that specs/Numbers.antt tells, so a change of one is a change there. A law: it computes nothing.
pub fn limits_are_these_numbers()
    ensures { LimitsAreTheseNumbers }
{}
