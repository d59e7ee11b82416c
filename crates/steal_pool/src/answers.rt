//! The answers of tasks, each at the place of its number.
ghost use Rattle.std.specs.Prelude.{◌≡◌, ◌≤◌, All, None, vec_len};
ghost use Rattle.steal_pool.specs.Places.{EachPlace};

use crate::job::Job;
use std::alloc::Global;

/// Puts each answer at its place, if there is one.
pub(crate) fn put_done<J: Job>(job: &J, all: &mut Vec<Option<J::Out>>, done: Vec<(usize, J::Out)>)
    requires right { All (λ d. J.right job.now d.0 d.1) done.items }
    requires so_far { EachPlace (J.right job.now) all.old.items }
    ensures len { vec_len all.new ≡ vec_len all.old }
    ensures right { EachPlace (J.right job.now) all.new.items }
{
    for (i, out) in done {
        if i < all.len() {
            all[i] = Some(out);
        }
    }
}

/// Returns empty places, fewer than n if memory runs out.
pub(crate) fn nones<O: Drop>(alloc: Global, n: usize) -> Vec<Option<O>>
    ensures len { vec_len result ≤ n }
    ensures none { All (λ x. x ≡ None) result.items }
{
    let mut all = Vec::new(alloc);
    // room for all, if it may be had at once
    let _ = all.reserve(n);
    for _ in 0..n {
        if all.push(None).is_err() {
            break;
        }
    }
    all
}
