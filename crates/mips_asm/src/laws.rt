//! The laws of layouts, each as the contract of a function that does nothing.
ghost use Rattle.mips_asm.specs.Fetching.{WordsRunAsInstructions};
ghost use Rattle.mips_asm.specs.Functions.{EachLayoutFits};
ghost use Rattle.mips_asm.specs.LayoutRuns.{EachLayoutRuns, EachLayoutTellsCallsApart, EachPlainLayoutRuns};
ghost use Rattle.mips_asm.specs.Numbers.{LimitsAreTheseNumbers};

/// States that if each instruction's fields are in their ranges, the words of instructions run as the instructions.
pub fn words_run_as_instructions()
    ensures { WordsRunAsInstructions }
{}

/// States that laid out orders have their fields in their ranges, also the 16 bits of each branch.
pub fn each_layout_fits()
    ensures { EachLayoutFits }
{}

/// States that wherever a unit isn't stuck, the words of its orders come to the same, 513 items a word at most.
pub fn each_layout_runs()
    ensures { EachLayoutRuns }
{}

/// States that plain orders keep every instruction in place: one item a word at most.
pub fn each_plain_layout_runs()
    ensures { EachPlainLayoutRuns }
{}

/// States that the links of a layout are words, and no two calls have one.
pub fn each_layout_tells_calls_apart()
    ensures { EachLayoutTellsCallsApart }
{}

/// States that each limit is the number that specs/Numbers.antt tells, so a change of one is a change there. A law: it computes nothing.
pub fn limits_are_these_numbers()
    ensures { LimitsAreTheseNumbers }
{}
