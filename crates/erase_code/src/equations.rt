//! The equations that the symbols at the lost positions have to meet.

ghost use Rattle.std.specs.Prelude.{◌≡◌, ℕ, ◌+◌, ◌<◌, ◌≤◌, ◌^◌, All, length, slice_index, IfOk};
ghost use Rattle.gf_theory.specs.Field.{gf_mul};
ghost use Rattle.linear_theory.specs.Linear.{dot as dot_of};
ghost use Rattle.block_code.specs.Compiled.{checks_in};
ghost use Rattle.erase_code.specs.Equations.{AreEquations};

use block_code::Code;
use gf_field::Field;
use gf_linear::{Matrix, dot};
use std::alloc::{AllocError, Global};

// The row becomes the entries of a vector at these places, followed by its product with the kept symbols.
fn write_equation<F: Field>(f: &F, vector: &[u8], places: &[u32], kept: &[u8], row: &mut [u8])
    requires wide { length row.old ≡ length places.now + 1 }
    requires within { (j : ℕ) → j < length places.now →
        slice_index places.now j < length vector.now }
    requires same { length kept.now ≡ length vector.now }
    requires vector_symbols { All (λ a. a < 2 ^ F.bits_of f.now) vector.now }
    requires kept_symbols { All (λ a. a < 2 ^ F.bits_of f.now) kept.now }
    ensures left { (j : ℕ) → j < length places.now →
        slice_index row.new j ≡ slice_index vector.now (slice_index places.now j) }
    ensures right { slice_index row.new (length places.now)
        ≡ dot_of (gf_mul (F.bits_of f.now) (F.modulus_of f.now)) (length vector.now)
        (slice_index vector.now) (slice_index kept.now) }
    ensures symbols { All (λ a. a < 2 ^ F.bits_of f.now) row.new }
{
    for j in 0..places.len() {
        row[j] = vector[places[j] as usize];
    }
    row[places.len()] = dot(f, vector, kept);
}

/// The equations of a code for the symbols at these places, beside kept symbols at the others.
pub fn equations<F: Field>(
    alloc: Global,
    code: &Code<F>,
    places: &[u32],
    kept: &[u8],
) -> Result<Matrix, AllocError>
    requires few { length places.now ≤ code.now.basis.n }
    requires within { (j : ℕ) → j < length places.now →
        slice_index places.now j < code.now.basis.n }
    requires same { length kept.now ≡ code.now.basis.n }
    requires symbols { All (λ a. a < 2 ^ code.now.basis.bits) kept.now }
    ensures { IfOk result (AreEquations (checks_in code.now) places.now kept.now) }
{
    let n = code.n();
    let count = code.checked().size();
    let mut rows = Matrix::new(alloc, count, places.len() as u32 + 1)?;
    let mut row = vec![in alloc; 0u8; places.len() + 1]?;
    let mut next = 0;
    for k in 0..n {
        if code.checked().holds(k) {
            write_equation(code.field(), code.basis().vector(k), places, kept, &mut row);
            rows.set_row(next, &row);
            next += 1;
        }
    }
    Ok(rows)
}
