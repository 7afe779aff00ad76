//! What is kept of a word, and the positions that are lost.

ghost use Rattle.std.specs.Prelude.{◌≡◌, ℕ, ◌+◌, ◌<◌, ◌≤◌, ◌^◌, ◌↔◌, false, length, slice_index, IfOk, IsTrue};
ghost use Rattle.erase_code.specs.Filling.{is_lost};
ghost use Rattle.erase_code.specs.Equations.{falling, IsKeptPart};

use std::alloc::{AllocError, Global};

/// Whether each byte that is kept is below 2^bits.
pub fn are_kept_symbols(bits: u32, word: &[u8], lost: &[bool]) -> bool
    requires bits { bits ≤ 8 }
    requires same { length lost.now ≡ length word.now }
    ensures { IsTrue result ↔ ((p : ℕ) → p < length word.now →
        is_lost lost.now p ≡ false → slice_index word.now p < 2 ^ bits) }
{
    let size = 1u32 << bits;
    for p in 0..word.len() {
        if is_high(size, word[p], lost[p]) {
            return false;
        }
    }
    true
}

// Whether a byte is kept that is not below the size.
fn is_high(size: u32, byte: u8, lost: bool) -> bool
    ensures { IsTrue result ↔ ((lost ≡ false) × (size ≤ byte)) }
{
    if lost {
        return false;
    }
    size <= u32::from(byte)
}

/// Writes the bytes that are kept, and 0 at the lost positions.
pub fn keep(bits: u32, word: &[u8], lost: &[bool], kept: &mut [u8])
    requires marks { length lost.now ≡ length word.now }
    requires room { length kept.old ≡ length word.now }
    requires symbols { (p : ℕ) → p < length word.now →
        is_lost lost.now p ≡ false → slice_index word.now p < 2 ^ bits }
    ensures { IsKeptPart bits (length word.now) word.now lost.now kept.new }
{
    for p in 0..kept.len() {
        kept[p] = if lost[p] { 0 } else { word[p] };
    }
}

/// The lost positions, falling.
pub fn lost_places(alloc: Global, lost: &[bool]) -> Result<Vec<u32>, AllocError>
    requires few { length lost.now ≤ 1024 }
    ensures places { IfOk result (λ v. v.items ≡ falling lost.now (length lost.now)) }
{
    let mut places = Vec::new(alloc);
    for p in (0..lost.len()).rev() {
        if lost[p] {
            places.push(p as u32)?;
        }
    }
    Ok(places)
}
