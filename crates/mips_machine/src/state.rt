//! What actions do to registers, HI, LO and memory, and the load under way.
ghost use Rattle.std.specs.Prelude.{◌≡◌, ◌≤◌, None, true, length, slice_index, IfOk, IfErr};
ghost use Rattle.words.specs.Operators.{op_value, has_quotient};
ghost use Rattle.mips_isa.specs.MemoryMap.{stack_end};
ghost use Rattle.mips_isa.specs.Starting.{start_state};
ghost use Rattle.mips_isa.specs.States.{read, put, is_aligned, is_open, load_at, store_at};
ghost use Rattle.mips_isa.specs.declared.action.Action.TheVariants.{Computes};
ghost use Rattle.mips_isa.specs.Actions.{operand, address};
ghost use Rattle.mips_isa.specs.Flows.{shown_state, pending_of, state_with_pending};
ghost use Rattle.mips_machine.specs.Rules.{address_rule_of, place_rule_of, rule_told};
ghost use Rattle.mips_machine.specs.Views.{state_of, pending_in};

use crate::memory::memory_of;
use crate::registers::Registers;
use mips_isa::{
    Action, NonzeroReg, Operand, Reg, Rule, STACK_END, product_high, product_low,
    quotient_operator, remainder_operator,
};
use std::alloc::{AllocError, Global};
use words::{Operator, Width};

/// What the last word loaded, which doesn't show yet.
#[derive(Clone, Copy)]
pub enum Load {
    Nothing,
    Loaded { register: NonzeroReg, word: u32 },
}

impl Load {
    ghost use Rattle.std.specs.Prelude.{◌≡◌, false};
    ghost use Rattle.mips_machine.specs.declared.state.Load.TheVariants.{Nothing};

    /// Reports whether a word is under way.
    #[inline(always)]
    pub(crate) fn is_some(&self) -> bool
        ensures { result ≡ false → self.now ≡ Nothing }
    {
        match *self {
            Load::Nothing => false,
            Load::Loaded { .. } => true,
        }
    }
}

/// Returns the value of an operator, 0 where it has none.
#[inline(always)]
#[tactic(auto, unfolding(words::specs::Operators::op_value))]
fn value(op: Operator, a: u32, b: u32) -> u32
    ensures { result ≡ op_value op a b }
{
    match op.value(a, b) {
        Some(word) => word,
        None => 0,
    }
}

/// Reports whether a word or a byte may stand at the address.
#[inline(always)]
fn is_aligned(width: Width, a: u32) -> bool
    ensures { result ≡ is_aligned width a }
{
    match width {
        Width::Word => a % 4 == 0,
        Width::Byte => true,
    }
}

impl Registers {
    /// Returns what a register holds.
    #[inline(always)]
    pub fn read(&self, r: Reg) -> u32
        ensures { result ≡ read 0 (state_of self.now).regs r }
    {
        self.regs[r.index() as usize]
    }

    /// Writes a register; register 0 loses the word.
    #[inline(always)]
    pub fn put(&mut self, r: Reg, word: u32)
        ensures { state_of self.new ≡ record (state_of self.old) { regs = put (state_of self.old).regs r word } }
    {
        let index = r.index() as usize;
        if index != 0 {
            self.regs[index] = word;
        }
    }

    #[inline(always)]
    fn operand(&self, o: Operand) -> u32
        ensures { result ≡ operand (state_of self.now) o }
    {
        match o {
            Operand::Held(r) => self.read(r),
            Operand::Fixed(word) => word,
        }
    }

    /// Returns the address of a load or a store.
    #[inline(always)]
    #[tactic(auto, unfolding(words::specs::Operators::op_value))]
    pub fn address(&self, base: Reg, offset: u32) -> u32
        ensures { result ≡ address (state_of self.now) base offset }
    {
        self.read(base).wrapping_add(offset)
    }

    /// Returns the rule that forbids to read or write at an address.
    #[inline(always)]
    fn address_broken(&self, width: Width, a: u32) -> Option<Rule>
        ensures rule { result ≡ address_rule_of width a (state_of self.now) }
        ensures open { result ≡ None → is_open width (state_of self.now).mapped a ≡ true }
    {
        if !is_aligned(width, a) {
            return Some(Rule::M5);
        }
        if !self.memory.is_mapped(a) {
            return Some(Rule::M6);
        }
        None
    }

    /// Returns the word or the byte at an address.
    #[inline(always)]
    pub(crate) fn load(&self, width: Width, a: u32) -> Result<u32, Rule>
        ensures rule { address_rule_of width a (state_of self.now) ≡ rule_told result }
        ensures word { IfOk result (λ w. w ≡ load_at width (state_of self.now).mapped (state_of self.now).memory a) }
    {
        match self.address_broken(width, a) {
            Some(rule) => Err(rule),
            None => Ok(self.memory.load(width, a)),
        }
    }

    /// Writes the word or its low byte at an address.
    #[inline(always)]
    pub(crate) fn store(&mut self, width: Width, a: u32, word: u32) -> Result<(), Rule>
        ensures rule { address_rule_of width a (state_of self.old) ≡ rule_told result }
        ensures state { IfOk result (λ u. state_of self.new
            ≡ record (state_of self.old) { memory = store_at width (state_of self.old).mapped (state_of self.old).memory a word }) }
        ensures err { IfErr result (λ r. state_of self.new ≡ state_of self.old) }
    {
        match self.address_broken(width, a) {
            Some(rule) => Err(rule),
            None => {
                self.memory.store(width, a, word);
                Ok(())
            }
        }
    }

    /// Writes the value of an operator to a register.
    #[inline(always)]
    pub(crate) fn compute(&mut self, d: Reg, op: Operator, a: Reg, b: Operand)
        ensures { state_of self.new ≡ shown_state (Computes d op a b) (state_of self.old) }
    {
        let word = value(op, self.read(a), self.operand(b));
        self.put(d, word);
    }

    /// Does an action, and gives what it loads. Where it breaks one of the rules on divisions and addresses, it isn't done and
    /// the least such rule is told.
    #[inline(always)]
    pub fn perform(&mut self, action: Action) -> Result<Load, Rule>
        ensures rule { place_rule_of action (state_of self.old) ≡ rule_told result }
        ensures state { IfOk result (λ load. state_of self.new ≡ shown_state action (state_of self.old)) }
        ensures load { IfOk result (λ load. pending_in load ≡ pending_of action (state_of self.old)) }
        ensures err { IfErr result (λ r. state_of self.new ≡ state_of self.old) }
    {
        match action {
            Action::Computes { d, op, a, b } => self.compute(d, op, a, b),
            Action::Sets { d, word } => self.put(d, word),
            Action::Loads {
                width,
                d: register,
                base,
                offset,
            } => {
                let word = self.load(width, self.address(base, offset))?;
                return Ok(Load::Loaded { register, word });
            }
            Action::Stores {
                width,
                r,
                base,
                offset,
            } => {
                let at = self.address(base, offset);
                let word = self.read(r);
                self.store(width, at, word)?;
            }
            Action::Multiplies { sign, a, b } => {
                let (a, b) = (self.read(a), self.read(b));
                self.hi = value(product_high(sign), a, b);
                self.lo = value(product_low(sign), a, b);
            }
            Action::Divides { sign, a, b } => {
                let (a, b) = (self.read(a), self.read(b));
                if !sign.has_quotient(a, b) {
                    return Err(Rule::M4);
                }
                self.hi = value(remainder_operator(sign), a, b);
                self.lo = value(quotient_operator(sign), a, b);
            }
            Action::MovesHigh { d } => self.put(d, self.hi),
            Action::MovesLow { d } => self.put(d, self.lo),
        }
        Ok(Load::Nothing)
    }

    /// Shows what was loaded.
    pub fn settle(&mut self, load: Load)
        ensures { state_of self.new ≡ state_with_pending (pending_in load) (state_of self.old) }
    {
        match load {
            Load::Nothing => {}
            Load::Loaded { register, word } => self.put(register.reg(), word),
        }
    }
}

/// Returns the registers at the start: register 29 is the end of the stack, the others are 0.
fn first_registers() -> [u32; 32]
    ensures { slice_index result ≡ put (λ r. 0) 29 stack_end }
{
    let mut regs = [0; 32];
    regs[29] = STACK_END;
    regs
}

impl Registers {
    /// Returns the state in which a program with these bytes of data starts.
    pub fn first(alloc: Global, bytes: &[u8]) -> Result<Registers, AllocError>
        requires { length bytes.now ≤ 1048576 }
        ensures { IfOk result (λ r. state_of r ≡ start_state bytes.now) }
    {
        let memory = memory_of(alloc, bytes)?;
        Ok(Registers {
            regs: first_registers(),
            hi: 0,
            lo: 0,
            memory,
        })
    }
}
