//! The export that builds.

ghost use Rattle.std.specs.Prelude.{◌≡◌, ◌≢◌, ◌≤◌, ◌++◌, IfErr, IfOk};
ghost use Rattle.driver.specs.BuildCommand.{built_text, factor_of};
ghost use Rattle.driver.specs.BuildFaults.{IsBuildFault};
ghost use Rattle.driver.specs.Follows.{FollowsText};
ghost use Rattle.mcc_web.specs.Answers.{IsScheduledAs, KeepsRefused, SaysBuildFault, SaysImage};
ghost use Rattle.mcc_web.specs.declared.told.TheConstants.{REFUSED};

use crate::told::{Told, put, refuse};
use driver::{BuildFault, BuildOpts, Built, build_one, build_plain, print_built, tell_build};
use list_scheduler::{FilledOrder, ListOrder};
use sched_phase::PhaseOpts;
use std::alloc::Global;
use std::io;
use term_table::{MAX_HEADS, MAX_NODES};

/// Texts up to so many bytes have the table that the program has by default, longer ones the largest.
const SHORT: usize = 65536;

/// Returns one worker, whose table has room for the terms of a text of this length.
pub(crate) fn phase_for(length: usize) -> PhaseOpts {
    let (nodes, heads) = if length <= SHORT {
        (65536, 1024)
    } else {
        (MAX_NODES, MAX_HEADS)
    };
    match PhaseOpts::new(1, nodes, heads) {
        Some(phase) => phase,
        None => unreachable!(),
    }
}

fn build_image(alloc: Global, text: &[u8], plain: bool, depth: u32) -> Result<Built, BuildFault>
    requires { 1 ≤ depth }
    ensures follows { IfOk result (λ b. FollowsText text.now depth (factor_of plain) b.image.items) }
    ensures scheduled { IfOk result (IsScheduledAs plain) }
    ensures fault { IfErr result (IsBuildFault text.now depth) }
{
    if plain {
        build_plain(alloc, text, depth)
    } else {
        let phase = phase_for(text.len());
        build_one(
            alloc,
            text,
            &BuildOpts { depth, phase },
            &FilledOrder(ListOrder),
        )
    }
}

/// Gives the host the line of a build, and the bytes of its image.
fn print_image(alloc: Global, plain: bool, built: &Built) -> io::Result<Vec<u8>>
    ensures { IfOk result (λ v. v.items ≡ built_text plain built.now ++ built.now.image.items) }
{
    let mut printed = Vec::new(alloc);
    print_built(&mut printed, plain, built)?;
    printed.extend_from_slice(built.image.as_slice())?;
    Ok(printed)
}

/// Gives the host the fault of a build; the status is 1, unless memory was refused.
pub(crate) fn give_build_fault(
    alloc: Global,
    text: &[u8],
    depth: u32,
    fault: BuildFault,
    out: &mut [u8],
    status: &mut u8,
) -> usize
    requires { IsBuildFault text.now depth fault }
    ensures ends { status.new ≢ 1 → status.new ≡ REFUSED }
    ensures faulty { status.new ≡ 1 → SaysBuildFault text.now depth result out.old out.new }
    ensures refused { KeepsRefused status.new result out.old out.new }
{
    let _ = depth;
    let mut told = Told::new(alloc);
    *status = tell_build(alloc, &mut told, "program.c", text, fault);
    told.give(out, status)
}

/// The image of the C program that the text spells. First comes the line that `mcc build program.c IMAGE` prints, or `mcc build --plain`,
/// and after it the bytes of IMAGE, or the fault. Its status comes too.
#[unsafe(no_mangle)]
pub extern "C" fn mcc_web_build(
    alloc: Global,
    text: &[u8],
    plain: bool,
    depth: u32,
    out: &mut [u8],
    status: &mut u8,
) -> usize
    ensures wrong_words { status.new ≡ 2 → depth ≡ 0 }
    ensures no_depth { depth ≡ 0 → (status.new ≡ 2) × (result ≡ 0) × (out.new ≡ out.old) }
    ensures answered { status.new ≢ 1 → status.new ≢ 2 → status.new ≢ REFUSED
        → (status.new ≡ 0) × SaysImage text.now depth plain result out.old out.new }
    ensures faulty { status.new ≡ 1 → SaysBuildFault text.now depth result out.old out.new }
    ensures refused { KeepsRefused status.new result out.old out.new }
{
    if depth == 0 {
        *status = 2;
        return 0;
    }
    match build_image(alloc, text, plain, depth) {
        Ok(built) => match print_image(alloc, plain, &built) {
            Ok(printed) => {
                *status = 0;
                put(out, printed.as_slice())
            }
            Err(_) => refuse(status),
        },
        Err(fault) => give_build_fault(alloc, text, depth, fault, out, status),
    }
}
