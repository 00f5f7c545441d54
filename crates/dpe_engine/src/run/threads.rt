//! Which work goes to threads of its own. What is decided about threads is decided here.
ghost use Rattle.std.specs.Prelude.{◌<◌, ◌≤◌, ℕ, length, slice_index_or};
ghost use Rattle.std.specs.Fork.{AcceptsAt, ChangesAt};

use reorder_buffer::Buffer;
use std::thread::{Threads, join};

// A group with as many pairs goes to threads: to start them takes as long as to process some 14,000 pairs.
const WIDE: usize = 16_384;

// A run that fills a buffer of as many pairs has its first group in threads whatever the group's size: what they cost is
// little beside such a run.
const NARROW: usize = 32;

/// The number of threads for the group of one size, of a run that has had so many rounds.
pub(crate) fn threads_for_group(workers: u32, rounds: u64, full: &Buffer, size: u32) -> usize
    requires { 1 ≤ workers }
    ensures { 1 ≤ result }
{
    let opens_long_run = rounds == 0 && full.is_full() && full.len() >= NARROW;
    if opens_long_run || full.count(size) >= WIDE {
        workers as usize
    } else {
        1
    }
}

/// Whether the next buffer is filled beside the work on the full one. One worker would only wait for the thread to start.
pub(crate) fn fills_beside(workers: u32) -> bool {
    workers > 1
}

/// Calls both, side by side or one after the other.
pub(crate) fn both<R: Threads, A: Send, B, F: FnOnce() -> A + Send, H: FnOnce() -> B>(
    rt: &R,
    beside: bool,
    first: F,
    second: H,
) -> (A, B)
    requires first { F.pre first }
    requires second { H.pre second }
    ensures first { F.post first result.0 }
    ensures second { H.post second result.1 }
{
    if beside {
        return join(rt, first, second);
    }
    let one = first();
    let other = second();
    (one, other)
}

fn at_one<T, F: Fn(usize, &mut T)>(f: &F, i: usize, it: &mut T)
    requires { AcceptsAt F.Fn f.now i it.old }
    ensures { ChangesAt F.Fn f.now i it.old it.new }
{
    f(i, it);
}

/// Calls f(i, &mut s[i]) at each place, one after the other, in the calling thread.
pub(crate) fn in_turn<T, F: Fn(usize, &mut T)>(s: &mut [T], f: &F)
    requires { (k : ℕ) (d : T) → k < length s.old → AcceptsAt F.Fn f.now k (slice_index_or s.old k d) }
    ensures { (k : ℕ) (d : T) → k < length s.old → ChangesAt F.Fn f.now k (slice_index_or s.old k d) (slice_index_or s.new k d) }
{
    'places: for k in 0..s.len() {
        at_one(f, k, &mut s[k]);
    }
}
