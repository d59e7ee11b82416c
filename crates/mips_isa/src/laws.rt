//! Laws of the definitions.

ghost use Rattle.mips_isa.specs.Laws.{EachBrokenRuleIsLeast, LoadsPassStores, ReadsAndWritesAreTouched, SafeActionsKeepTheirRules};
ghost use Rattle.mips_isa.specs.Laws.{StoresCommute, StuckActionsBreakARule};

/// States that an action is safe exactly if it breaks no rule on divisions (M4) or addresses (M5, M6).
pub fn safe_actions_keep_their_rules()
    ensures { SafeActionsKeepTheirRules }
{}

/// States that an action is stuck exactly if it breaks a rule.
pub fn stuck_actions_break_a_rule()
    ensures { StuckActionsBreakARule }
{}

/// States that the rule that an action is stuck by is the least that it breaks.
pub fn each_broken_rule_is_least()
    ensures { EachBrokenRuleIsLeast }
{}

/// States that an action touches what it writes and what it reads.
pub fn reads_and_writes_are_touched()
    ensures { ReadsAndWritesAreTouched }
{}

/// States that a load passes a store that shares no byte with it.
pub fn loads_pass_stores()
    ensures { LoadsPassStores }
{}

/// States that two stores that share no byte may be exchanged.
pub fn stores_commute()
    ensures { StoresCommute }
{}
