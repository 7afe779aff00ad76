//! How many pairs of functions have a function as their sum.

ghost use Rattle.std.specs.Prelude.{ℕ, ◌≡◌, ◌+◌, ◌<◌, ◌≤◌, suc, IsTrue, ◌↔◌};
ghost use Rattle.counting_theory.specs.Votes.{pairs};
ghost use Rattle.order_domain.specs.Domain.{IsOrderDomain};
ghost use Rattle.order_domain.specs.Values.{sum_or_count};
ghost use Rattle.order_bound.specs.Checking.{AreBeyond, AreRowsBeyond};

use order_domain::OrderDomain;

// Whether functions i and j have a sum, and it is function r or one before it.
fn is_within<D: OrderDomain>(dom: &D, i: u32, j: u32, r: u32) -> bool
    requires left { i < (D.domain dom.now).count }
    requires right { j < (D.domain dom.now).count }
    requires sum { r < (D.domain dom.now).count }
    ensures { IsTrue result ↔ (sum_or_count (D.domain dom.now) i j ≤ r) }
{
    match dom.sum(i, j) {
        Some(sum) => sum <= r,
        None => false,
    }
}

// How many of the first functions have a sum with function i that is function r or one before it. From `end` on none has.
fn end_of_row<D: OrderDomain>(dom: &D, i: u32, end: u32, r: u32) -> u32
    requires row { i < (D.domain dom.now).count }
    requires sum { r < (D.domain dom.now).count }
    requires end { end ≤ (D.domain dom.now).count }
    requires beyond { AreBeyond (D.domain dom.now) r i end }
    ensures within { result ≤ end }
    ensures beyond { AreBeyond (D.domain dom.now) r i result }
    ensures last { (j : ℕ) → result ≡ suc j → sum_or_count (D.domain dom.now) i j ≤ r }
{
    for j in (0..end).rev() {
        if is_within(dom, i, j, r) {
            return j + 1;
        }
    }
    0
}

/// How many pairs of functions have function r as their sum. A function has one partner at most, and partners fall as
/// functions rise: the pairs stand on a staircase, and the walk goes down its steps.
pub fn pairs_of<D: OrderDomain>(dom: &D, r: u32) -> u32
    requires { r < (D.domain dom.now).count }
    ensures { result ≡ pairs (D.domain dom.now).count (sum_or_count (D.domain dom.now)) r }
{
    dom.bits();
    let functions = dom.count();
    let mut end = r + 1;
    let mut count = 0;
    for i in 0..functions {
        end = end_of_row(dom, i, end, r);
        if end == 0 {
            return count;
        }
        if dom.sum(i, end - 1) == Some(r) {
            count += 1;
        }
    }
    count
}
