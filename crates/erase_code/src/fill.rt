//! Lost symbols are filled in.

ghost use Rattle.std.specs.Prelude.{◌≡◌, ◌≢◌, ℕ, ◌+◌, ◌<◌, ◌≤◌, ◌↔◌, List, length, slice_index, IfOk, OnErr, Ok};
ghost use Rattle.gf_linear.specs.Matrix.{entry};
ghost use Rattle.block_code.specs.Compiled.{checks_in, IsMade};
ghost use Rattle.erase_code.specs.Filling.{lost_count, Fits, IsOnlyFit, IsLeastDifference, HasNoFit, IsAnswer};

use crate::equations::equations;
use crate::kept::{are_kept_symbols, keep, lost_places};
use crate::solutions::{Solutions, solve_reduced};
use block_code::Code;
use gf_field::Field;
use gf_linear::{Matrix, echelon};
use std::alloc::{AllocError, Global};

/// What the bytes at the positions that are not lost say of a codeword.
#[derive(Clone, Copy, PartialEq, Eq, Debug)]
pub enum FillSays {
    /// One codeword has them. So many positions were lost.
    Filled { count: u32 },
    /// Several have them. This is the least position at which two of them differ.
    Ambiguous { place: u32 },
    /// None has them.
    NoCodeword,
}

// The word becomes the kept symbols, with the right sides of the reduced equations at the lost places.
fn write_filled(reduced: &Matrix, places: &[u32], kept: &[u8], out: &mut [u8])
    requires same { length out.old ≡ length kept.now }
    requires wide { reduced.now.cols ≡ length places.now + 1 }
    requires few { length places.now ≤ 1024 }
    requires high { length places.now ≤ length reduced.now.rows }
    requires within { (t : ℕ) → t < length places.now →
        slice_index places.now t < length kept.now }
    requires falling { (t u : ℕ) → t < u → u < length places.now →
        slice_index places.now u < slice_index places.now t }
    ensures length { length out.new ≡ length kept.now }
    ensures filled { (t : ℕ) → t < length places.now →
        slice_index out.new (slice_index places.now t)
        ≡ entry reduced.now t (length places.now) }
    ensures others { (p : ℕ) → p < length kept.now →
        ((t : ℕ) → t < length places.now → slice_index places.now t ≢ p) →
        slice_index out.new p ≡ slice_index kept.now p }
{
    out.copy_from_slice(kept);
    for t in 0..places.len() {
        out[places[t] as usize] = reduced.row(t as u32)[places.len()];
    }
}

/// Fills in the lost positions of a word: those that `lost` marks. Filled: exactly one codeword equals the word at all other
/// positions; `out` becomes it. Ambiguous: several do. NoCodeword: none does; so it is where a byte that is kept is no
/// symbol. Where the answer is not Filled, `out` stays as it was.
///
/// With fewer lost positions than the order bound the answer is never Ambiguous, and a codeword is found again. For e lost
/// positions of n it takes about e² + n steps for each check.
pub fn fill_lost<F: Field>(
    alloc: Global,
    code: &Code<F>,
    word: &[u8],
    lost: &[bool],
    out: &mut [u8],
) -> Result<FillSays, AllocError>
    requires received { length word.now ≡ code.now.basis.n }
    requires marks { length lost.now ≡ code.now.basis.n }
    requires room { length out.old ≡ code.now.basis.n }
    ensures answer { IfOk result
        (λ s. IsAnswer (checks_in code.now) word.now lost.now out.old s out.new) }
    ensures filled { IfOk result (λ s. (s ≡ FillSays.Filled (lost_count lost.now))
        ↔ ((x : List ℕ) × IsOnlyFit (checks_in code.now) word.now lost.now x)) }
    ensures ambiguous { IfOk result (λ s. (place : ℕ) → (s ≡ FillSays.Ambiguous place)
        ↔ IsLeastDifference (checks_in code.now) word.now lost.now place) }
    ensures nothing { IfOk result (λ s. (s ≡ FillSays.NoCodeword)
        ↔ HasNoFit (checks_in code.now) word.now lost.now) }
    ensures few_lost { lost_count lost.now < code.now.bound →
        (place : ℕ) → result ≢ Ok (FillSays.Ambiguous place) }
    ensures found { lost_count lost.now < code.now.bound →
        (x : List ℕ) → Fits (checks_in code.now) word.now lost.now x →
        IfOk result (λ s. (s ≡ FillSays.Filled (lost_count lost.now)) × (out.new ≡ x)) }
    ensures no_memory { OnErr result (out.new ≡ out.old) }
    ensures made { IsMade code.now }
{
    code.n();
    if !are_kept_symbols(code.bits(), word, lost) {
        return Ok(FillSays::NoCodeword);
    }
    let places = lost_places(alloc, lost)?;
    let mut kept = vec![in alloc; 0u8; word.len()]?;
    keep(code.bits(), word, lost, &mut kept);
    let rows = equations(alloc, code, &places, &kept)?;
    let reduced = echelon(alloc, code.field(), &rows)?;
    Ok(match solve_reduced(&reduced) {
        Solutions::Nothing => FillSays::NoCodeword,
        Solutions::Many { column } => FillSays::Ambiguous {
            place: places[column as usize],
        },
        Solutions::One => {
            write_filled(&reduced, &places, &kept, out);
            FillSays::Filled {
                count: places.len() as u32,
            }
        }
    })
}
