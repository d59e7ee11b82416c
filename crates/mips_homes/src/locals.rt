//! Which pseudo-registers are local to blocks.

ghost use Rattle.std.specs.Prelude.{◌≡◌, ◌<◌, ◌||◌, ◌∷◌, [], ℕ, not, if◌then◌else◌, IfOk, OnOk};
ghost use Rattle.mips_homes.specs.HomedRun.{is_in};
ghost use Rattle.mips_homes.specs.Locals.{inst_reads, inst_writes, exit_reads, block_reads_first, goes_to, some_go_to, is_local};
ghost use Rattle.mips_homes.specs.Walks.{sight_at, is_read_first, IsUpTo, Sees};

use crate::counts::make_room;
use rtl::{RBlock, RExit, RInst, Register};
use std::alloc::{AllocError, Global};

/// What a walk over blocks has seen of a pseudo-register. It is whether a block read it before it wrote it, and the number of the last
/// block that wrote it, from 1 on.
#[derive(Clone, Copy)]
pub(crate) struct Sight {
    pub read_first: bool,
    pub written_in: usize,
}

// Of one that doesn't occur.
const NOTHING: Sight = Sight {
    read_first: false,
    written_in: 0,
};

/// Reports whether an exit goes to a block.
fn exit_goes_to(exit: &RExit, b: u32) -> bool
    ensures { result ≡ is_in (goes_to exit.now) b }
{
    match exit {
        RExit::Goto(t) => b == *t,
        RExit::Branch(_, t, e) => b == *t || b == *e,
        RExit::Call(_, _, _, next) => b == *next,
        RExit::Return(_) => false,
        RExit::Out(_, next) => b == *next,
    }
}

/// Reports whether an exit of these blocks goes to block b.
fn some_go_to(blocks: &[RBlock], b: u32) -> bool
    ensures { result ≡ some_go_to blocks.now b }
{
    blocks.iter().any(|block| exit_goes_to(&block.exit, b))
}

/// Records that block k reads x.
fn see_read(sights: &mut Vec<Sight>, k: usize, x: Register) -> Result<(), AllocError>
    ensures { OnOk result (Sees k sights.old.items sights.new.items (x ∷ []) []) }
{
    make_room(sights, x, NOTHING)?;
    if sights[x as usize].written_in != k {
        sights[x as usize].read_first = true;
    }
    Ok(())
}

/// Records that block k writes x.
fn see_write(sights: &mut Vec<Sight>, k: usize, x: Register) -> Result<(), AllocError>
    ensures { OnOk result (Sees k sights.old.items sights.new.items [] (x ∷ [])) }
{
    make_room(sights, x, NOTHING)?;
    sights[x as usize].written_in = k;
    Ok(())
}

/// Records that block k reads all of these.
fn see_all(sights: &mut Vec<Sight>, k: usize, xs: &[Register]) -> Result<(), AllocError>
    ensures { OnOk result (Sees k sights.old.items sights.new.items xs.now []) }
{
    for x in xs {
        see_read(sights, k, *x)?;
    }
    Ok(())
}

/// Records that block k reads some and then writes one.
fn see_operation(
    sights: &mut Vec<Sight>,
    k: usize,
    d: Register,
    xs: &[Register],
) -> Result<(), AllocError>
    ensures { OnOk result (Sees k sights.old.items sights.new.items xs.now (d ∷ [])) }
{
    see_all(sights, k, xs)?;
    see_write(sights, k, d)
}

/// Records what an instruction of block k reads and writes.
fn see_inst(sights: &mut Vec<Sight>, k: usize, inst: &RInst) -> Result<(), AllocError>
    ensures { OnOk result (Sees k sights.old.items sights.new.items (inst_reads inst.now) (inst_writes inst.now)) }
{
    match inst {
        RInst::Const(d, _) => see_write(sights, k, *d),
        RInst::Move(d, a) => see_operation(sights, k, *d, &[*a]),
        RInst::Bin(_, d, a, b) => see_operation(sights, k, *d, &[*a, *b]),
        RInst::Load(d, _, i) => see_operation(sights, k, *d, &[*i]),
        RInst::Store(_, i, a) => see_all(sights, k, &[*i, *a]),
    }
}

/// Records what the exit of block k reads and writes.
fn see_exit(sights: &mut Vec<Sight>, k: usize, exit: &RExit) -> Result<(), AllocError>
    ensures { OnOk result (Sees k sights.old.items sights.new.items (exit_reads exit.now) []) }
{
    match exit {
        RExit::Goto(_) => see_all(sights, k, &[]),
        RExit::Branch(c, _, _) => see_read(sights, k, *c),
        RExit::Call(_, xs, _, _) => see_all(sights, k, xs.as_slice()),
        RExit::Return(None) => see_all(sights, k, &[]),
        RExit::Return(Some(x)) => see_read(sights, k, *x),
        RExit::Out(x, _) => see_read(sights, k, *x),
    }
}

/// Records what is seen of block k, which none before has reached.
fn see_block(sights: &mut Vec<Sight>, k: usize, block: &RBlock) -> Result<(), AllocError>
    requires { (x : ℕ) → (sight_at sights.now.items x).written_in < k }
    ensures first { OnOk result ((x : ℕ)
        → is_read_first sights.new.items x ≡ (is_read_first sights.old.items x || block_reads_first block.now x)) }
    ensures late { OnOk result (IsUpTo k sights.new.items) }
{
    for inst in block.insts.as_slice() {
        see_inst(sights, k, inst)?;
    }
    see_exit(sights, k, &block.exit)
}

/// Returns the first block that counts: block 0 only if an exit goes there.
fn first_block(blocks: &[RBlock]) -> usize
    ensures { result ≡ (if some_go_to blocks.now 0 then 0 else 1) }
{
    if some_go_to(blocks, 0) { 0 } else { 1 }
}

/// Returns what a walk over blocks sees: those that are read first nowhere are local. An Err means out of memory.
pub(crate) fn sights(alloc: Global, blocks: &[RBlock]) -> Result<Vec<Sight>, AllocError>
    ensures { IfOk result (λ sights. (x : ℕ) → not (is_read_first sights.items x) ≡ is_local blocks.now x) }
{
    let mut sights = Vec::new(alloc);
    for i in first_block(blocks)..blocks.len() {
        see_block(&mut sights, i + 1, &blocks[i])?;
    }
    Ok(sights)
}

/// Reports whether a pseudo-register is local, by what was seen.
pub(crate) fn is_local(sights: &[Sight], x: usize) -> bool
    ensures { result ≡ not (is_read_first sights.now x) }
{
    !sights.get(x).is_some_and(|sight| sight.read_first)
}
