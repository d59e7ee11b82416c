//! Registers, HI, LO and memory, and what one action does to them.
ghost use Rattle.std.specs.Prelude.{◌≡◌, true, IfOk, IfSome, is_some, None, false};
ghost use Rattle.words.specs.Operators.{op_value};
ghost use Rattle.mips_isa.specs.States.{read, put};
ghost use Rattle.mips_isa.specs.Actions.{operand, address, is_safe, state_after};
ghost use Rattle.mips_isa.specs.Flows.{shown_state, pending_of, state_with_pending};
ghost use Rattle.counterexample.specs.Views.{state_of, pending_in};

use crate::memory::Memory;
use mips_isa::{
    Action, NonzeroReg, Operand, Reg, product_high, product_low, quotient_operator,
    remainder_operator,
};
use std::alloc::AllocError;
use words::Operator;

/// What a word loads.
#[derive(Clone, Copy)]
pub enum Load {
    Nothing,
    Loaded { register: NonzeroReg, word: u32 },
}

/// The registers, HI, LO and the memory.
#[derive(Drop)]
pub struct Registers {
    pub regs: [u32; 32],
    pub hi: u32,
    pub lo: u32,
    pub memory: Memory,
}

/// Returns the value of an operator, 0 where it has none.
#[tactic(auto, unfolding(words::specs::Operators::op_value))]
fn value(op: Operator, a: u32, b: u32) -> u32
    ensures { result ≡ op_value op a b }
{
    match op.value(a, b) {
        Some(word) => word,
        None => 0,
    }
}

impl Registers {
    /// Returns what a register holds.
    pub fn read(&self, r: Reg) -> u32
        ensures { result ≡ read 0 (state_of self.now).regs r }
    {
        let index = r.index() as usize;
        if index == 0 { 0 } else { self.regs[index] }
    }

    /// Writes a register; register 0 loses the word.
    pub fn put(&mut self, r: Reg, word: u32)
        ensures state { state_of self.new ≡ record (state_of self.old) { regs = put (state_of self.old).regs r word } }
        ensures filling { self.new.memory.filling ≡ self.old.memory.filling }
    {
        let index = r.index() as usize;
        if index != 0 {
            self.regs[index] = word;
        }
    }

    fn operand(&self, o: Operand) -> u32
        ensures { result ≡ operand (state_of self.now) o }
    {
        match o {
            Operand::Held(r) => self.read(r),
            Operand::Fixed(word) => word,
        }
    }

    /// Returns the address of a load or a store.
    #[tactic(auto, unfolding(words::specs::Operators::op_value))]
    pub(crate) fn address(&self, base: Reg, offset: u32) -> u32
        ensures { result ≡ address (state_of self.now) base offset }
    {
        self.read(base).wrapping_add(offset)
    }

    /// Does an action, and gives what it loads; None if it isn't safe.
    pub fn perform(&mut self, action: Action) -> Result<Option<Load>, AllocError>
        ensures safe { IfOk result (λ r. is_some r ≡ is_safe action (state_of self.old)) }
        ensures state { IfOk result (λ r. IfSome r (λ load. state_of self.new ≡ shown_state action (state_of self.old))) }
        ensures load { IfOk result (λ r. IfSome r (λ load. pending_in load ≡ pending_of action (state_of self.old))) }
        ensures stays { IfOk result (λ r. r ≡ None → state_of self.new ≡ state_of self.old) }
        ensures filling { self.new.memory.filling ≡ self.old.memory.filling }
    {
        match action {
            Action::Computes { d, op, a, b } => {
                let word = value(op, self.read(a), self.operand(b));
                self.put(d, word);
            }
            Action::Sets { d, word } => self.put(d, word),
            Action::Loads {
                width,
                d,
                base,
                offset,
            } => {
                let Some(word) = self.memory.load(width, self.address(base, offset)) else {
                    return Ok(None);
                };
                return Ok(Some(Load::Loaded { register: d, word }));
            }
            Action::Stores {
                width,
                r,
                base,
                offset,
            } => {
                let (at, word) = (self.address(base, offset), self.read(r));
                if !self.memory.store(width, at, word)? {
                    return Ok(None);
                }
            }
            Action::Multiplies { sign, a, b } => {
                let (a, b) = (self.read(a), self.read(b));
                self.hi = value(product_high(sign), a, b);
                self.lo = value(product_low(sign), a, b);
            }
            Action::Divides { sign, a, b } => {
                let (a, b) = (self.read(a), self.read(b));
                if !sign.has_quotient(a, b) {
                    return Ok(None);
                }
                self.hi = value(remainder_operator(sign), a, b);
                self.lo = value(quotient_operator(sign), a, b);
            }
            Action::MovesHigh { d } => self.put(d, self.hi),
            Action::MovesLow { d } => self.put(d, self.lo),
        }
        Ok(Some(Load::Nothing))
    }

    /// Shows what was loaded.
    pub fn settle(&mut self, load: Load)
        ensures state { state_of self.new ≡ state_with_pending (pending_in load) (state_of self.old) }
        ensures filling { self.new.memory.filling ≡ self.old.memory.filling }
    {
        match load {
            Load::Nothing => {}
            Load::Loaded { register, word } => self.put(register.reg(), word),
        }
    }

    /// Does an action, a load showing at once; false if it isn't safe.
    pub fn act(&mut self, action: Action) -> Result<bool, AllocError>
        ensures safe { IfOk result (λ b. b ≡ is_safe action (state_of self.old)) }
        ensures state { IfOk result (λ b. b ≡ true → state_of self.new ≡ state_after action (state_of self.old)) }
        ensures stays { IfOk result (λ b. b ≡ false → state_of self.new ≡ state_of self.old) }
        ensures filling { self.new.memory.filling ≡ self.old.memory.filling }
    {
        let Some(load) = self.perform(action)? else {
            return Ok(false);
        };
        self.settle(load);
        Ok(true)
    }
}
