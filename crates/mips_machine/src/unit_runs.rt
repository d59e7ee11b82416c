//! The run of a unit's blocks, item by item: an item is one instruction or one exit, and a load shows at once.
ghost use Rattle.std.specs.Prelude.{◌≡◌, ◌∷◌, true, false, IfOk, slice_get};
ghost use Rattle.runs.specs.Runs.{outcome_of};
ghost use Rattle.mips_isa.specs.Starting.{start_state};
ghost use Rattle.mips_isa.specs.Actions.{is_safe, state_after};
ghost use Rattle.mblock.specs.UnitRuns.{Next, item, unit_run, return_block_of, outcome_at_block, outcome_at_return, outcome_of_departure};
ghost use Rattle.mblock.specs.declared.exit.Exit.TheVariants.{Out};
ghost use Rattle.mblock.specs.BlockMeaning.{exit_effect};
ghost use Rattle.mips_machine.specs.Views.{state_of};
ghost use Rattle.mips_machine.specs.UnitViews.{link_of, ends_or, comes_to};

use crate::registers::Registers;
use mblock::{Block, BlockNumber, Exit, Unit};
use mips_isa::{Action, Plain, Reg};
use runs::{End, Ran};
use std::alloc::{AllocError, Global};

/// Blocks under way: the number of the one that runs, what is left of its instructions, the registers with memory, and the output.
#[derive(Drop)]
pub(crate) struct Running<'u> {
    pub(crate) blocks: &'u [Block],
    pub(crate) number: u32,
    pub(crate) rest: &'u [Plain],
    pub(crate) registers: Registers,
    pub(crate) output: Vec<u32>,
}

/// Does an action, a load showing at once; false if it isn't safe.
fn act(registers: &mut Registers, action: Action) -> bool
    ensures safe { result ≡ is_safe action (state_of registers.old) }
    ensures state { result ≡ true → state_of registers.new ≡ state_after action (state_of registers.old) }
{
    match registers.perform(action) {
        Ok(load) => {
            registers.settle(load);
            true
        }
        Err(_) => false,
    }
}

/// Returns where the call with this link goes on.
fn return_block(blocks: &[Block], word: u32) -> Option<BlockNumber>
    ensures { result ≡ return_block_of link_of word 0 blocks.now }
{
    for (k, block) in blocks.iter().enumerate() {
        if k % 0x1_0000_0000 == word as usize
            && let Exit::Call { function: _, next } = block.exit()
        {
            return Some(next);
        }
    }
    None
}

impl<'u> Running<'u> {
    /// Goes on at the start of a block, if it is there.
    fn go_to(&mut self, number: u32) -> Option<End>
        ensures goes { (next : Next) → outcome_at_block number (slice_get self.old.blocks.now number) next (state_of self.old.registers)
            self.old.output.items ≡ ends_or result next self.new }
        ensures blocks { self.new.blocks ≡ self.old.blocks }
    {
        match self.blocks.get(number as usize) {
            Some(block) => {
                self.number = number;
                self.rest = block.insts();
                None
            }
            None => Some(End::Wrong),
        }
    }

    /// Goes on after the call with this link, if there is one.
    fn go_back(&mut self, word: u32) -> Option<End>
        ensures goes { (next : Next) → outcome_at_return self.old.blocks.now (return_block_of link_of word 0 self.old.blocks.now) next
            (state_of self.old.registers) self.old.output.items ≡ ends_or result next self.new }
        ensures blocks { self.new.blocks ≡ self.old.blocks }
    {
        match return_block(self.blocks, word) {
            Some(next) => self.go_to(next.number()),
            None => Some(End::Wrong),
        }
    }

    /// Runs the first of the instructions that are left.
    fn perform(&mut self, inst: Plain, rest: &'u [Plain]) -> Option<End>
        requires { self.old.rest.now ≡ inst ∷ rest.now }
        ensures item { (next : Next) → item self.old.blocks.now link_of next self.old.number self.old.rest.now (state_of self.old.registers)
            self.old.output.items ≡ ends_or result next self.new }
        ensures blocks { self.new.blocks ≡ self.old.blocks }
    {
        if act(&mut self.registers, inst.action()) {
            self.rest = rest;
            None
        } else {
            Some(End::Wrong)
        }
    }

    /// Prints a word, and goes on.
    fn print(&mut self, next: BlockNumber) -> Result<Option<End>, AllocError>
        ensures goes { IfOk result (λ e. (next' : Next) → outcome_of_departure self.old.blocks.now link_of
            (exit_effect (Out next) (state_of self.old.registers) (link_of self.old.number)).goes next'
            (exit_effect (Out next) (state_of self.old.registers) (link_of self.old.number)).state self.old.output.items
            ≡ ends_or e next' self.new) }
        ensures blocks { self.new.blocks ≡ self.old.blocks }
    {
        let word = self.registers.read(Reg::ARGUMENT);
        self.output.push(word)?;
        self.registers.put(Reg::RESULT, 1);
        Ok(self.go_to(next.number()))
    }

    /// Leaves the block.
    fn leave(&mut self, exit: Exit) -> Result<Option<End>, AllocError>
        ensures goes { IfOk result (λ e. (next : Next) → outcome_of_departure self.old.blocks.now link_of
            (exit_effect exit (state_of self.old.registers) (link_of self.old.number)).goes next
            (exit_effect exit (state_of self.old.registers) (link_of self.old.number)).state self.old.output.items ≡ ends_or e next self.new) }
        ensures blocks { self.new.blocks ≡ self.old.blocks }
    {
        match exit {
            Exit::Goto(to) => Ok(self.go_to(to.number())),
            Exit::BranchPair {
                test,
                rs,
                rt,
                then,
                other,
            } => {
                if test.passes(self.registers.read(rs), self.registers.read(rt)) {
                    Ok(self.go_to(then.number()))
                } else {
                    Ok(self.go_to(other.number()))
                }
            }
            Exit::BranchZero {
                test,
                rs,
                then,
                other,
            } => {
                if test.passes(self.registers.read(rs)) {
                    Ok(self.go_to(then.number()))
                } else {
                    Ok(self.go_to(other.number()))
                }
            }
            Exit::Call { function, next: _ } => {
                self.registers.put(Reg::LINK, self.number);
                Ok(self.go_to(function.number()))
            }
            Exit::Return => {
                let word = self.registers.read(Reg::LINK);
                Ok(self.go_back(word))
            }
            Exit::Out(next) => self.print(next),
            Exit::Halt => Ok(Some(End::Done(self.registers.read(Reg::ARGUMENT)))),
        }
    }

    /// Runs one item.
    fn step(&mut self) -> Result<Option<End>, AllocError>
        ensures item { IfOk result (λ e. (next : Next) → item self.old.blocks.now link_of next self.old.number self.old.rest.now
            (state_of self.old.registers) self.old.output.items ≡ ends_or e next self.new) }
        ensures blocks { self.new.blocks ≡ self.old.blocks }
    {
        if let Some((inst, rest)) = self.rest.split_first() {
            return Ok(self.perform(*inst, rest));
        }
        match self.blocks.get(self.number as usize) {
            Some(block) => self.leave(block.exit()),
            None => Ok(Some(End::Wrong)),
        }
    }
}

/// Runs so many items more.
fn finish(mut running: Running<'_>, steps: u64) -> Result<Ran, AllocError>
    ensures { IfOk result (λ r. outcome_of r ≡ comes_to steps running.entry) }
{
    for _ in 0..steps {
        let ended = running.step()?;
        if let Some(end) = ended {
            return Ok(Ran {
                end,
                output: running.output,
            });
        }
    }
    Ok(Ran {
        end: End::More,
        output: running.output,
    })
}

/// Returns what so many items of a unit's blocks come to, from the state in which a program with its data starts. A call's link is the
/// number of its block. `Err` only if memory runs out.
pub fn run_unit(alloc: Global, unit: &Unit, steps: u64) -> Result<Ran, AllocError>
    ensures { IfOk result (λ r. outcome_of r ≡ unit_run unit.now.blocks link_of (start_state unit.now.globals) steps) }
{
    let registers = Registers::first(alloc, unit.globals())?;
    let mut running = Running {
        blocks: unit.blocks(),
        number: 0,
        rest: &[],
        registers,
        output: Vec::new(alloc),
    };
    if let Some(end) = running.go_to(0) {
        return Ok(Ran {
            end,
            output: running.output,
        });
    }
    finish(running, steps)
}
