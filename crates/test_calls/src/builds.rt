//! Builds of C programs with schedulers that propose wrong orders, and a thousand builds of one process.
use driver::{BuildOpts, Built, build, build_one, run_image};
use list_scheduler::{FilledOrder, Hostile, ListOrder, Reorder};
use mips_code::Ending;
use sched_phase::PhaseOpts;
use std::alloc::Global;
use std::sync::Wait;
use std::thread::Threads;
use steal_pool::Open;

/// A C program, and the word that it writes.
type Program = (&'static str, u32);

/// A loop over the elements of an array.
const LOOP: Program = (
    "int a[3];int main(void){int i=0;a[0]=5;a[1]=6;a[2]=7;while(i<3&&a[i])i=i+1;out(i);}",
    3,
);

/// Calls, 256 of which are active at once.
const CALLS: Program = (
    "int f(int n){int r;if(n==1)return 1;r=f(n-1);return r+1;}int main(void){int r=f(255);out(r);}",
    255,
);

/// Loads and stores of words and bytes, products and divisions. gcc's build prints the word.
const ARRAYS: Program = (
    "unsigned a[8];unsigned char b[8];int main(void){int i;unsigned s=0;for(i=0;i<8;i=i+1){a[i]=i*i+3;b[i]=a[i]*37;}for(i=0;i<8;i=i+1)s=s*31+a[7-i]/(b[i]%5+1);out(s);return 0;}",
    1_965_273_128,
);

#[rattlefmt::skip]
const KINDS: &[Hostile] = &[
    Hostile::Drop, Hostile::Double, Hostile::Swap, Hostile::Foreign, Hostile::Rename, Hostile::Exit, Hostile::Slot, Hostile::Silent,
];

/// Returns the build of a text by so many workers, each of which may link so many terms.
fn built<T: Threads + Wait + Sync, R: Reorder + Sync>(
    threads: &T,
    alloc: Global,
    text: &str,
    workers: u64,
    nodes: u64,
    reorder: &R,
) -> Option<Built> {
    let phase = PhaseOpts::new(workers, nodes, 1024)?;
    let options = BuildOpts { depth: 256, phase };
    build(threads, alloc, text.as_bytes(), &options, reorder, &Open).ok()
}

/// Reports whether two builds have one image and one report.
fn is_equal(one: &Built, other: &Built) -> bool {
    one.image.as_slice() == other.image.as_slice() && one.report == other.report
}

/// Reports whether two workers and one worker without threads make one image, which writes the program's word and then ends with 0.
fn runs<T: Threads + Wait + Sync, R: Reorder + Sync>(
    threads: &T,
    alloc: Global,
    (text, word): Program,
    reorder: &R,
) -> Option<bool> {
    let phase = PhaseOpts::new(1, 65_536, 1024)?;
    let options = BuildOpts { depth: 256, phase };
    let one = build_one(alloc, text.as_bytes(), &options, reorder).ok()?;
    let two = built(threads, alloc, text, 2, 65_536, reorder)?;
    let ran = run_image(alloc, two.image.as_slice(), 100_000_000).ok()?;
    let is_right = ran.end == Ending::Halt(0) && ran.output.as_slice() == [word].as_slice();
    Some(is_right && is_equal(&one, &two))
}

#[test]
fn images_by_hostile_schedulers_run_as_their_source(rt: HostRuntime) {
    for kind in KINDS {
        for &program in [LOOP, CALLS, ARRAYS].as_slice() {
            let runs = runs(&rt, rt.alloc(), program, kind);
            assert!(rt; runs == Some(true), "{kind:?}, {}", program.0);
        }
    }
}

/// Returns how many of so many builds by four workers make the image of the first.
fn equal_builds<T: Threads + Wait + Sync>(threads: &T, alloc: Global, count: u32) -> Option<u32> {
    let scheduler = FilledOrder(ListOrder);
    let first = built(threads, alloc, LOOP.0, 4, 1024, &scheduler)?;
    let mut equal: u32 = 0;
    for _ in 0..count {
        if is_equal(&first, &built(threads, alloc, LOOP.0, 4, 1024, &scheduler)?) {
            equal = equal.wrapping_add(1);
        }
    }
    Some(equal)
}

#[test]
fn a_thousand_builds_give_one_image(rt: HostRuntime) {
    assert!(rt; equal_builds(&rt, rt.alloc(), 999) == Some(999));
}
