//! The laws of selection, each as the contract of a function that does nothing.
ghost use Rattle.mips_select.specs.Functions.{EachListOfFunctionsIsOwned};
ghost use Rattle.mips_select.specs.Laws.{EachUnitKeepsRuns, EachUnitIsCounted};
ghost use Rattle.mips_select.specs.Numbers.{LimitsAreTheseNumbers};
ghost use Rattle.mips_select.specs.SplitLaws.{EachSplitUnitComesTo, EachSplitUnitIsWell, EachSplitUnitRuns};

/// States that the unit of every program over chosen homes, whose frames fit, keeps its runs. A law: it computes nothing.
pub fn each_unit_keeps_runs()
    ensures { EachUnitKeepsRuns }
{}

/// States that the unit of every program has no more blocks than are counted on it, whatever its homes are. A law: it computes nothing.
pub fn each_unit_is_counted()
    ensures { EachUnitIsCounted }
{}

/// States that the pieces of a unit do what the unit does.
pub fn each_split_unit_runs()
    ensures { EachSplitUnitRuns }
{}

/// States that what every run of a unit comes to, every run of its pieces comes to.
pub fn each_split_unit_comes_to()
    ensures { EachSplitUnitComesTo }
{}

/// States that pieces are short, and a unit of them is as well linked and owned as the unit that was cut.
pub fn each_split_unit_is_well()
    ensures { EachSplitUnitIsWell }
{}

/// States that functions one after another, with branches that stay inside them, are linked and owned.
pub fn each_list_of_functions_is_owned()
    ensures { EachListOfFunctionsIsOwned }
{}

/// States that each limit is the number that specs/Numbers.antt tells, so a change of one is a change there. A law: it computes nothing.
pub fn limits_are_these_numbers()
    ensures { LimitsAreTheseNumbers }
{}
