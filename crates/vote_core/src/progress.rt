//! How far a vote has come, and how it begins.

ghost use Rattle.std.specs.Prelude.{ℕ, ◌≡◌, ◌+◌, ◌*◌, ◌<◌, ◌≤◌, ◌^◌, [], IfOk, All, length, IsTrue, ◌↔◌, true, false};
ghost use Rattle.order_theory.specs.Basis.{IsWord};
ghost use Rattle.order_theory.specs.Codes.{marked, IsBound};
ghost use Rattle.product_classes.specs.Table.{AreClassesOf, HasColumns};
ghost use Rattle.product_classes.specs.Values.{AreValues, IsZeroBefore};
ghost use Rattle.vote_core.specs.Polls.{CanPursue, Pursues};
ghost use Rattle.vote_core.specs.Progress.{poll_of, IsProgress};
ghost use Rattle.vote_matrix.specs.Elimination.{IsEmpty};

use crate::ledger::VoteLine;
use crate::room::{Scratch, new_scratch};
use eval_basis::{Checked, EvalBasis};
use gf_field::Field;
use product_classes::Classes;
use std::alloc::{AllocError, Global};
use vote_matrix::GrowingRows;

/// How far a poll has come, with its room.
#[derive(Drop)]
pub struct Progress {
    pub bits: u32,
    pub modulus: u32,
    pub n: u32,
    pub marks: Vec<bool>,
    pub t: u32,
    /// The working list.
    pub list: Vec<u8>,
    /// The value of each class of equal products.
    pub values: Vec<u8>,
    pub matrix: GrowingRows,
    pub scratch: Scratch,
    /// The member that is voted on next, or n.
    pub member: u32,
    /// The row that is settled next, or n.
    pub row: u32,
    /// Room for a line of each member, of which the first `told` are the ledger.
    pub lines: Vec<VoteLine>,
    pub told: usize,
}

/// A progress for the members that are not checked, with room for so many values of classes.
pub fn new_progress<F: Field>(
    alloc: Global,
    basis: &EvalBasis<F>,
    room: usize,
    checked: &Checked,
    t: u32,
) -> Result<Progress, AllocError>
    requires marks { length checked.now ≡ basis.now.n }
    requires some_free { (k : ℕ) × (k < basis.now.n) × (marked checked.now k ≡ false) }
    requires radius { IsBound basis.now checked.now (2 * t + 1) }
    ensures kept { IfOk result IsProgress }
    ensures voter { IfOk result (λ p. (poll_of p).voter ≡ record {
      bits = basis.now.bits;
      modulus = basis.now.modulus;
      n = basis.now.n;
      marks = checked.now;
      t = t;
      ledger = [];
    }) }
    ensures room { IfOk result (λ p. length p.values.items ≡ room) }
{
    let n = basis.n();
    let size = n as usize;
    let mut marks = Vec::with_capacity(alloc, size)?;
    for k in 0..n {
        marks.push(checked.holds(k))?;
    }
    let none = VoteLine {
        label: 0,
        pairs: 0,
        right: 0,
        wrong: 0,
    };
    Ok(Progress {
        bits: basis.bits(),
        modulus: basis.modulus(),
        n,
        marks,
        t,
        list: vec![in alloc; 0; size]?,
        values: vec![in alloc; 0; room]?,
        matrix: GrowingRows::new(alloc, basis.bits(), basis.modulus(), n, t + 1)?,
        scratch: new_scratch(alloc, size, 1usize << basis.bits())?,
        member: n,
        row: 0,
        lines: vec![in alloc; none; size]?,
        told: 0,
    })
}

/// The first member from `from` on that is not checked, or the number of members.
pub fn first_free(marks: &[bool], from: u32) -> u32
    requires few { length marks.now ≤ 1024 }
    requires from { from ≤ length marks.now }
    ensures within { result ≤ length marks.now }
    ensures later { from ≤ result }
    ensures free { result < length marks.now → marked marks.now result ≡ false }
    ensures between { (m : ℕ) → from ≤ m → m < result → marked marks.now m ≡ true }
{
    let n = marks.len() as u32;
    for k in from..n {
        if !marks[k as usize] {
            return k;
        }
    }
    n
}

/// Begins anew with a list that was received: nothing is settled, no line is told, and the first member that is not checked
/// comes next.
fn begin(list: &[u8], progress: &mut Progress)
    requires kept { IsProgress progress.old }
    requires long { length list.now ≡ progress.old.n }
    requires few { progress.old.n ≤ 1024 }
    ensures kept { IsProgress progress.new }
    ensures list { progress.new.list.items ≡ list.now }
    ensures empty { IsEmpty progress.old.bits progress.old.modulus progress.old.n
        progress.old.matrix.most progress.new.matrix }
    ensures rest { progress.new ≡ record progress.old {
      list = progress.new.list;
      matrix = progress.new.matrix;
      member = progress.new.member;
      row = 0;
      told = 0;
    } }
    ensures within { progress.new.member ≤ progress.old.n }
    ensures free { progress.new.member < progress.old.n
        → marked progress.old.marks.items progress.new.member ≡ false }
    ensures checked { (m : ℕ) → m < progress.new.member
        → marked progress.old.marks.items m ≡ true }
{
    progress.list.copy_from_slice(list);
    progress.matrix.clear();
    progress.member = first_free(&progress.marks, 0);
    progress.row = 0;
    progress.told = 0;
}

/// Whether the first symbols of a list are 0.
fn is_zero_before(first: usize, list: &[u8]) -> bool
    requires { first ≤ length list.now }
    ensures { IsTrue result ↔ IsZeroBefore first list.now }
{
    for p in 0..first {
        if list[p] != 0 {
            return false;
        }
    }
    true
}

/// Writes the values of the classes with sums below `limit`, by the columns of the classes where the list is 0 before them.
fn write_values<F: Field>(
    basis: &EvalBasis<F>,
    classes: &Classes,
    list: &[u8],
    limit: u32,
    row: &mut [u8],
    values: &mut [u8],
)
    requires classes { AreClassesOf basis.now classes.now }
    requires columns { HasColumns basis.now classes.now }
    requires word { IsWord basis.now.bits basis.now.n list.now }
    requires limit { limit ≤ basis.now.count }
    requires row { length row.old ≡ basis.now.n }
    requires room { classes.now.size ≤ length values.old }
    requires symbols { All (λ x. x < 2 ^ basis.now.bits) values.old }
    ensures symbols { All (λ x. x < 2 ^ basis.now.bits) values.new }
    ensures values { AreValues basis.now classes.now list.now values.new limit }
{
    let mut from = 0;
    if is_zero_before(classes.first() as usize, list) {
        classes.write_values(basis, list, values);
        from = classes.limit();
    }
    classes.write_sums(basis, list, from, limit, row, values);
}

/// Starts with a list that was received.
pub fn start<F: Field>(
    basis: &EvalBasis<F>,
    classes: &Classes,
    list: &[u8],
    progress: &mut Progress,
)
    requires kept { IsProgress progress.old }
    requires can { CanPursue basis.now classes.now (poll_of progress.old) }
    requires columns { HasColumns basis.now classes.now }
    requires word { IsWord basis.now.bits basis.now.n list.now }
    ensures kept { IsProgress progress.new }
    ensures pursues { Pursues basis.now classes.now (poll_of progress.old).voter list.now
        (poll_of progress.new) }
    ensures room { length progress.new.values.items ≡ length progress.old.values.items }
{
    // For its facts: the basis is sound.
    basis.n();
    begin(list, progress);
    let limit = basis.rank_at(progress.member);
    write_values(
        basis,
        classes,
        list,
        limit,
        &mut progress.scratch.row,
        &mut progress.values,
    );
}
