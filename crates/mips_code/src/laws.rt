//! The law of the machine's rules, as the contract of a function that does nothing.
ghost use Rattle.mips_code.specs.Machines.{EachRuleIsLeast};

/// States that a stuck machine tells the least rule that is broken.
pub fn each_rule_is_least()
    ensures { EachRuleIsLeast }
{}
