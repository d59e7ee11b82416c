//! The instructions of MIPS I in use, their text, and what they do (Kane, MIPS RISC Architecture).
//!
//! Definitions: `specs/Actions.antt`, `specs/Rules.antt`, `specs/Steps.antt`, `specs/MemoryMap.antt`.
//! Contract: `Plain::action`, `safe_actions_keep_their_rules`, `stuck_actions_break_a_rule`, `each_broken_rule_is_least`,
//! `loads_pass_stores`, `stores_commute`, `addresses_are_the_memory_map`
//! - `Plain::action` is exactly the table of 31 instructions.
//! - Their texts, reads and writes are exact.
//! - An action is stuck exactly if it breaks one of M1 to M9.
//! - Accesses that share no byte don't meet.
#![tactic(auto)]

mod action;
mod control;
mod digits;
mod inst;
mod laws;
mod memory_map;
mod reg;
mod rule;
mod targets;
mod text;

pub use action::{
    Action, Operand, product_high, product_low, quotient_operator, remainder_operator,
};
pub use digits::{ByteDigits, WordDigits};
pub use inst::{
    AluOp, Control, HiLo, ImmOp, Inst, JumpOp, LogicOp, PairTest, Plain, ShiftOp, ZeroTest,
};
pub use laws::{
    each_broken_rule_is_least, loads_pass_stores, reads_and_writes_are_touched,
    safe_actions_keep_their_rules, stores_commute, stuck_actions_break_a_rule,
};
pub use memory_map::{CODE_BASE, DATA_BASE, STACK_BASE, STACK_END, addresses_are_the_memory_map};
pub use reg::{Amount, JumpTarget, NonzeroReg, Reg};
pub use rule::Rule;
pub use targets::{branch_target, jump_target};
pub use text::{ListedControl, Mnemonic};
