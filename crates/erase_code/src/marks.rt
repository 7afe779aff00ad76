//! Marks of lost positions, a byte each: 0 for a position that is kept, and 1 for one that is lost.

ghost use Rattle.std.specs.Prelude.{◌≡◌, ℕ, ◌<◌, ◌≤◌, ◌^◌, All, length, slice_index, IfOk, MatchOption};
ghost use Rattle.erase_code.specs.Marks.{IsBadMark, lost_by, positions_of};

use std::alloc::{AllocError, Global};

/// The first mark that is neither 0 nor 1.
pub fn first_bad_mark(marks: &[u8]) -> Option<u32>
    requires { length marks.now < 2 ^ 32 }
    ensures { MatchOption result (All (λ m. m ≤ 1) marks.now) (IsBadMark marks.now) }
{
    for p in 0..marks.len() {
        if marks[p] > 1 {
            return Some(p as u32);
        }
    }
    None
}

/// Which positions are lost: those whose mark is 1.
#[tactic(auto, using(crate::proofs::Marking::marking))]
pub fn lost_of(alloc: Global, marks: &[u8]) -> Result<Vec<bool>, AllocError>
    ensures { IfOk result (λ lost. lost.items ≡ lost_by marks.now) }
{
    let mut lost = Vec::new(alloc);
    for mark in marks {
        lost.push(*mark == 1)?;
    }
    Ok(lost)
}

/// The lost positions, rising.
#[tactic(auto, using(crate::proofs::Marking::marking))]
pub fn positions(alloc: Global, lost: &[bool]) -> Result<Vec<u32>, AllocError>
    requires { length lost.now < 2 ^ 32 }
    ensures positions { IfOk result (λ v. v.items ≡ positions_of lost.now) }
    ensures within { IfOk result (λ v. (i : ℕ) → i < length v.items →
        slice_index v.items i < length lost.now) }
    ensures few { IfOk result (λ v. length v.items ≤ length lost.now) }
{
    let mut positions = Vec::new(alloc);
    for p in 0..lost.len() {
        if lost[p] {
            positions.push(p as u32)?;
        }
    }
    Ok(positions)
}
