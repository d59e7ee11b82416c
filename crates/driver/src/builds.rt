//! Builds: of each block in its own order, or in one that a scheduler proposes whom nobody trusts.
ghost use Rattle.std.specs.Prelude.{◌≡◌, ◌+◌, ◌≤◌, ℕ, List, Some, IfOk, IfErr};
ghost use Rattle.c_types.specs.Shape.{program_of};
ghost use Rattle.c_types.specs.Typed.{SpellsTyped};
ghost use Rattle.mblock.specs.declared.limits.TheConstants.{BLOCK_INSTS};
ghost use Rattle.sched_phase.specs.Phases.{IsPhase, IsWholePhase};
ghost use Rattle.term_table.specs.Passes.{InRange};
ghost use Rattle.driver.specs.Builds.{IsPlain, IsScheduledBuild};
ghost use Rattle.driver.specs.BuildFaults.{IsBeforeAssembly, IsBeforeSelection, IsBuildFault};
ghost use Rattle.driver.specs.BuildTexts.{build_fault_text};
ghost use Rattle.driver.specs.Follows.{FollowsText};
ghost use Rattle.driver.specs.Halves.{IsTooLongAs, IsTooLongPlain, IsUnitOf, IsUnwritten, IsWritten};
ghost use Rattle.driver.specs.OneBuild.{OneBuild};
ghost use Rattle.driver.specs.SourceFaults.{IsSourceFault};
ghost use Rattle.driver.specs.Stages.{IsLowered, IsRtlOf};

use c_front::read;
use c_tree::Program;
use c_types::{Typed, check};
use image::{Counts, write_image};
use list_scheduler::Reorder;
use mblock::Unit;
use messages::SourceFault;
use mips_asm::{AsmFault, assemble};
use mips_select::{SelectFault, select};
use rtl::Rtl;
use rtl_lower::{LowerFault, lower};
use sched_phase::{PhaseOpts, Scheduled, schedule_all, schedule_one, schedule_plain};
use std::alloc::{AllocError, Global};
use std::error::Error;
use std::fmt;
use std::sync::Wait;
use std::thread::Threads;
use steal_pool::Gate;

/// Which limit a program exceeds that has no fault.
#[derive(Clone, Copy, Debug, PartialEq, Eq)]
pub enum Limit {
    /// A function would have more than 8,000 pseudo-registers, or the program more than 1,048,575 blocks of them.
    Lowering,
    /// A frame would have more than 32,000 bytes, the frames of all calls more than 16,777,216, or the program more than
    /// 1,048,576 blocks.
    Selection,
    /// A function would have more than 32,000 words of code, or the program more than 1,048,576.
    Assembly,
}

/// Why a text has no image.
#[derive(Clone, Copy, Debug)]
pub enum BuildFault {
    /// The text spells no program, or a declaration or a use of a name is wrong (faults 1 to 20, and 30).
    Source(SourceFault),
    /// 20: the program exceeds a limit.
    Limit(Limit),
    /// 30: memory was refused.
    NoMemory,
}

impl fmt::Display for BuildFault {
    ghost output = { λ e. Some (build_fault_text e) };

    fn fmt<W: fmt::Write>(&self, f: &mut fmt::Formatter<W>) -> fmt::Result {
        match self {
            BuildFault::Source(fault) => write!(f, "{fault}"),
            BuildFault::Limit(_) => f.write_str("fault 20 Limit"),
            BuildFault::NoMemory => f.write_str("fault 30 NoMemory"),
        }
    }
}

impl Error for BuildFault {}

impl From<SourceFault> for BuildFault {
    ghost use Rattle.driver.specs.declared.builds.BuildFault.TheVariants.{Source};

    ghost from_gives = { λ fault e. e ≡ Source fault };

    fn from(fault: SourceFault) -> BuildFault {
        BuildFault::Source(fault)
    }
}

impl From<AllocError> for BuildFault {
    ghost use Rattle.driver.specs.declared.builds.BuildFault.TheVariants.{NoMemory};

    ghost from_gives = { λ _ e. e ≡ NoMemory };

    fn from(_refused: AllocError) -> BuildFault {
        BuildFault::NoMemory
    }
}

/// An image's bytes, how many blocks of it had which verdict, and how many there are.
#[derive(Drop)]
pub struct Built {
    pub image: Vec<u8>,
    pub report: Counts,
    pub blocks: usize,
}

/// Returns the program that the text spells, and its typed form.
pub(crate) fn front_of(alloc: Global, text: &[u8]) -> Result<(Program, Typed), SourceFault>
    ensures typed { IfOk result (λ both. SpellsTyped text.now (program_of both.1)) }
    ensures fault { IfErr result (IsSourceFault text.now) }
{
    let program = read(alloc, text).map_err(SourceFault::Front)?;
    let typed = check(alloc, &program).map_err(SourceFault::Types)?;
    Ok((program, typed))
}

/// Returns the typed program that the text spells.
pub(crate) fn typed_of(alloc: Global, text: &[u8]) -> Result<Typed, SourceFault>
    ensures typed { IfOk result (λ t. SpellsTyped text.now (program_of t)) }
    ensures fault { IfErr result (IsSourceFault text.now) }
{
    let (_, typed) = front_of(alloc, text)?;
    Ok(typed)
}

/// Returns the RTL of a program, whatever text spells it. It is what lowering gives, with a copy of each short block that a block goes to.
pub(crate) fn rtl_of_typed(alloc: Global, typed: &Typed) -> Result<Rtl, BuildFault>
    ensures rtl { IfOk result (IsLowered (program_of typed.now)) }
    ensures fault { IfErr result (λ f. (text : List ℕ) (depth : ℕ) → SpellsTyped text (program_of typed.now) → IsBuildFault text depth f) }
    ensures stage { IfErr result IsBeforeSelection }
{
    let lowered = match lower(alloc, typed) {
        Ok(rtl) => rtl,
        Err(LowerFault::Limit) => return Err(BuildFault::Limit(Limit::Lowering)),
        Err(LowerFault::NoMemory) => return Err(BuildFault::NoMemory),
    };
    let rtl = lowered.with_tails(alloc)?;
    Ok(rtl)
}

/// Returns the RTL of the program that the text spells.
pub(crate) fn rtl_of(alloc: Global, text: &[u8]) -> Result<Rtl, BuildFault>
    ensures spelled { IfOk result (IsRtlOf text.now) }
    ensures fault { IfErr result (IsBuildFault text.now 1) }
    ensures stage { IfErr result IsBeforeSelection }
{
    let typed = typed_of(alloc, text)?;
    rtl_of_typed(alloc, &typed)
}

/// Returns the unit of a program, whatever text spells it.
pub(crate) fn unit_of_typed(alloc: Global, typed: &Typed, depth: u32) -> Result<Unit, BuildFault>
    requires { 1 ≤ depth }
    ensures unit { IfOk result (λ u. (text : List ℕ) → SpellsTyped text (program_of typed.now) → IsUnitOf text depth u) }
    ensures fault { IfErr result (λ f. (text : List ℕ) → SpellsTyped text (program_of typed.now) → IsBuildFault text depth f) }
    ensures stage { IfErr result IsBeforeAssembly }
{
    let rtl = match rtl_of_typed(alloc, typed) {
        Ok(rtl) => rtl,
        Err(fault) => return Err(fault),
    };
    match select(alloc, &rtl, depth) {
        Ok(unit) => Ok(unit),
        Err(SelectFault::Limit) => Err(BuildFault::Limit(Limit::Selection)),
        Err(SelectFault::NoMemory) => Err(BuildFault::NoMemory),
    }
}

/// Returns the unit of the program that the text spells: its blocks, before they are put in order.
pub fn unit_of(alloc: Global, text: &[u8], depth: u32) -> Result<Unit, BuildFault>
    requires { 1 ≤ depth }
    ensures unit { IfOk result (IsUnitOf text.now depth) }
    ensures fault { IfErr result (IsBuildFault text.now depth) }
    ensures stage { IfErr result IsBeforeAssembly }
{
    let typed = typed_of(alloc, text)?;
    unit_of_typed(alloc, &typed, depth)
}

/// Writes the bytes of a scheduled unit's image, with its counts.
pub(crate) fn write(alloc: Global, scheduled: &Scheduled<'_>) -> Result<Built, BuildFault>
    ensures written { IfOk result (IsWritten scheduled.now) }
    ensures fault { IfErr result (IsUnwritten scheduled.now) }
{
    let report = scheduled.report();
    let image = match assemble(alloc, scheduled) {
        Ok(image) => image,
        Err(AsmFault::Limit) => return Err(BuildFault::Limit(Limit::Assembly)),
        Err(AsmFault::NoMemory) => return Err(BuildFault::NoMemory),
    };
    Ok(Built {
        image: write_image(alloc, &image)?,
        report,
        blocks: scheduled.count(),
    })
}

/// Returns the image of the program that the text spells, every block in its plain order. It descends into the text: run it on a thread
/// with a large stack where the text may be hostile.
pub fn build_plain(alloc: Global, text: &[u8], depth: u32) -> Result<Built, BuildFault>
    requires { 1 ≤ depth }
    ensures follows { IfOk result (λ b. FollowsText text.now depth 1 b.image.items) }
    ensures scheduled { IfOk result (IsScheduledBuild IsPlain) }
    ensures fault { IfErr result (IsBuildFault text.now depth) }
    ensures too_long { IfErr result (IsTooLongPlain text.now depth) }
{
    let unit = unit_of(alloc, text, depth)?;
    let scheduled = schedule_plain(alloc, &unit)?;
    write(alloc, &scheduled)
}

/// How a program is built: how many of its calls may be active at once, main counted, and how its blocks are put in order.
#[derive(Clone, Copy, Debug)]
pub struct BuildOpts {
    pub depth: u32,
    pub phase: PhaseOpts,
}

/// Returns the phase of a command line.
pub(crate) fn phase_of(workers: u32, nodes: u32, heads: u32) -> PhaseOpts
    requires { InRange workers nodes heads }
    ensures workers { result.workers ≡ workers }
    ensures nodes { result.nodes ≡ nodes }
    ensures heads { result.heads ≡ heads }
{
    match PhaseOpts::new(workers as u64, nodes as u64, heads as u64) {
        Some(phase) => phase,
        None => unreachable!(),
    }
}

/// A thread takes as long to start as so many blocks take to be checked.
const BLOCKS_FOR_A_THREAD: usize = 64;

/// Returns how many of these workers are worth starting for so many blocks.
pub(crate) fn workers_for(blocks: usize, workers: u32) -> u32
    ensures most { result ≤ workers }
    ensures some { 1 ≤ workers → 1 ≤ result }
{
    let threads = blocks / BLOCKS_FOR_A_THREAD;
    match u32::try_from(threads) {
        Ok(threads) if threads < workers => threads + 1,
        _ => workers,
    }
}

/// Returns the image of the program that the text spells. Each block has the order that the scheduler proposes, where it means the block,
/// else its own. The phase's workers do the blocks at once, over one table, in whatever schedule of threads. The gate is told of each block
/// before its work. Descends into the text as `build_plain` does.
pub fn build<T: Threads + Wait + Sync, R: Reorder + Sync, G: Gate + Sync>(
    rt: &T,
    alloc: Global,
    text: &[u8],
    options: &BuildOpts,
    reorder: &R,
    gate: &G,
) -> Result<Built, BuildFault>
    requires { 1 ≤ options.now.depth }
    ensures follows { IfOk result (λ b. FollowsText text.now options.now.depth (BLOCK_INSTS + 1) b.image.items) }
    ensures scheduled { IfOk result (IsScheduledBuild (IsPhase (R.proposes reorder.now))) }
    ensures fault { IfErr result (IsBuildFault text.now options.now.depth) }
    ensures too_long { IfErr result (IsTooLongAs (IsPhase (R.proposes reorder.now)) text.now options.now.depth) }
{
    let unit = unit_of(alloc, text, options.depth)?;
    let scheduled = schedule_all(rt, alloc, &unit, options.phase, reorder, gate)?;
    write(alloc, &scheduled)
}

/// Returns the same by one worker without threads; no block is missed.
pub fn build_one<R: Reorder>(
    alloc: Global,
    text: &[u8],
    options: &BuildOpts,
    reorder: &R,
) -> Result<Built, BuildFault>
    requires { 1 ≤ options.now.depth }
    ensures follows { IfOk result (λ b. FollowsText text.now options.now.depth (BLOCK_INSTS + 1) b.image.items) }
    ensures scheduled { IfOk result (IsScheduledBuild (IsWholePhase (R.proposes reorder.now))) }
    ensures fault { IfErr result (IsBuildFault text.now options.now.depth) }
    ensures too_long { IfErr result (IsTooLongAs (IsWholePhase (R.proposes reorder.now)) text.now options.now.depth) }
{
    let unit = unit_of(alloc, text, options.depth)?;
    let scheduled = schedule_one(alloc, &unit, options.phase, reorder)?;
    write(alloc, &scheduled)
}

/// States that builds of one unit that decided each block make the same image, by any number of workers. The scheduler may propose one
/// order for a block. A law: it computes nothing.
pub fn one_build<R: Reorder>(reorder: &R)
    ensures { OneBuild (R.proposes reorder.now) }
{
    let _ = reorder;
}
