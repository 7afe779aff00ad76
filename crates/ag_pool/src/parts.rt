//! Slots that are acted on part by part, each part in a thread of its own.

ghost use Rattle.std.specs.Prelude.{ℕ, ◌+◌, ◌<◌, ◌≤◌, ◌^◌, length, All};
ghost use Rattle.ag_pool.specs.Acts.{PartActed};

use crate::Work;
use std::thread::{Threads, join_mut};

/// Acts on slots, of which the first has the number `first`, one after the other.
fn act_in_turn<W: Work>(work: &W, first: usize, slots: &mut [W::Slot])
    requires few { first + length slots.old ≤ 2 ^ 32 }
    requires ready { All (W.ready work.now) slots.old }
    ensures acted { PartActed (W.after work.now) first slots.old slots.new }
    ensures kept { All (W.ready work.now) slots.new }
{
    for k in 0..slots.len() {
        work.act((first + k) as u32, &mut slots[k]);
    }
}

/// Acts on slots, of which the first has the number `first`: on `size` of them in a thread of its own, and so on with the
/// others, the last part in this thread. So this thread starts all the others, one directly after the other.
#[cycle(parts)]
pub fn act_in_parts<X: Threads + Sync, W: Work>(
    rt: &X,
    work: &W,
    first: usize,
    size: usize,
    slots: &mut [W::Slot],
)
    requires some { 0 < size }
    requires few { first + length slots.old ≤ 2 ^ 32 }
    requires ready { All (W.ready work.now) slots.old }
    ensures acted { PartActed (W.after work.now) first slots.old slots.new }
    ensures kept { All (W.ready work.now) slots.new }
{
    if slots.len() <= size {
        act_in_turn(work, first, slots);
        return;
    }
    let (part, rest) = slots.split_at_mut(size);
    act_on_both(rt, work, first, part, first + size, size, rest);
}

/// Acts on a part in a thread of its own, and on the rest beside it.
#[cycle(parts)]
fn act_on_both<X: Threads + Sync, W: Work>(
    rt: &X,
    work: &W,
    first: usize,
    part: &mut [W::Slot],
    next: usize,
    size: usize,
    rest: &mut [W::Slot],
)
    requires some { 0 < size }
    requires few_in_part { first + length part.old ≤ 2 ^ 32 }
    requires few_in_rest { next + length rest.old ≤ 2 ^ 32 }
    requires part_ready { All (W.ready work.now) part.old }
    requires rest_ready { All (W.ready work.now) rest.old }
    ensures part_acted { PartActed (W.after work.now) first part.old part.new }
    ensures part_kept { All (W.ready work.now) part.new }
    ensures rest_acted { PartActed (W.after work.now) next rest.old rest.new }
    ensures rest_kept { All (W.ready work.now) rest.new }
{
    let mut there = ||
        requires { (first + length part.now ≤ 2 ^ 32) × All (W.ready work.now) part.now }
        ensures { PartActed (W.after work.entry.now) first part.entry.now part.exit.now
            × All (W.ready work.entry.now) part.exit.now }
    { act_in_turn(work, first, part) };
    let mut here = ||
        requires { (0 < size) × (next + length rest.now ≤ 2 ^ 32)
            × All (W.ready work.now) rest.now }
        ensures { PartActed (W.after work.entry.now) next rest.entry.now rest.exit.now
            × All (W.ready work.entry.now) rest.exit.now }
    { act_in_parts(rt, work, next, size, rest) };
    join_mut(rt, &mut there, &mut here);
}
