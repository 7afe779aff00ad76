//! The tables of reduced rows and of factors, and what settling further entries of one row does to them.

ghost use Rattle.std.specs.Prelude.{◌≡◌, ℕ, ◌+◌, ◌*◌, ◌<◌, ◌≤◌, ◌^◌, ◌≢◌, All, IfSome, length, slice_index, bit_xor};
ghost use Rattle.gf_theory.specs.Field.{gf_mul};
ghost use Rattle.vote_matrix.specs.Lines.{AllAbove, AreLeads, IsLeft, line_kept};
ghost use Rattle.vote_matrix.specs.Slots.{slots};

use crate::lines::{Rest, add_part, extend_line, settle_line, write_at};
use gf_field::Field;

/// Goes on with the reduced row number `own` of row i: its next entries, from column `from` on.
pub fn extend_row<F: Field>(
    f: &F,
    stride: usize,
    most: usize,
    i: usize,
    from: usize,
    values: &[u8],
    span: usize,
    factors: &[u8],
    own: usize,
    reduced: &mut [u8],
)
    requires here { from + length values.now ≤ stride }
    requires small { stride ≤ 2048 }
    requires most { most ≤ 1024 }
    requires span { span ≤ own }
    requires own { own < most }
    requires row { i < 1024 }
    requires factors_fit { i * most + most ≤ length factors.now }
    requires reduced_fit { length reduced.old ≡ most * stride }
    requires values { All (λ x. x < 2 ^ F.bits_of f.now) values.now }
    requires factors { All (λ x. x < 2 ^ F.bits_of f.now) factors.now }
    requires reduced { All (λ x. x < 2 ^ F.bits_of f.now) reduced.old }
    ensures long { length reduced.new ≡ length reduced.old }
    ensures symbols { All (λ x. x < 2 ^ F.bits_of f.now) reduced.new }
    ensures settled { (c : ℕ) → c < length values.now
        → slice_index reduced.new (own * stride + (from + c)) ≡ bit_xor (slice_index values.now c)
        (line_kept (gf_mul (F.bits_of f.now) (F.modulus_of f.now)) stride span
        (λ t. slice_index factors.now (i * most + t)) reduced.old (from + c)) }
    ensures before { (p : ℕ) → p < own * stride + from
        → slice_index reduced.new p ≡ slice_index reduced.old p }
    ensures after { (p : ℕ) → own * stride + (from + length values.now) ≤ p
        → slice_index reduced.new p ≡ slice_index reduced.old p }
{
    let (above, below) = reduced.split_at_mut(own * stride);
    let factors = &factors[i * most..i * most + span];
    extend_line(f, stride, below, from, values, factors, above);
}

/// Settles the next entries of row i, which has no pivot, from column `from` on, in the first free place of the reduced rows,
/// which is number `count`. Answers what is left there.
pub fn settle_free<F: Field>(
    f: &F,
    stride: usize,
    most: usize,
    i: usize,
    from: usize,
    values: &[u8],
    span: usize,
    numbers: &[Option<u32>],
    inverses: &[u8],
    count: usize,
    reduced: &mut [u8],
    factors: &mut [u8],
) -> Rest
    requires inside { from + length values.now ≤ length numbers.now }
    requires wide { length numbers.now ≤ stride }
    requires small { stride ≤ 2048 }
    requires most { most ≤ 1024 }
    requires row { i < 1024 }
    requires span { span ≤ count }
    requires count { count < most }
    requires inverses_fit { length inverses.now ≡ most }
    requires factors_fit { i * most + most ≤ length factors.old }
    requires reduced_fit { length reduced.old ≡ most * stride }
    requires values { All (λ x. x < 2 ^ F.bits_of f.now) values.now }
    requires inverses { All (λ x. x < 2 ^ F.bits_of f.now) inverses.now }
    requires factors { All (λ x. x < 2 ^ F.bits_of f.now) factors.old }
    requires reduced { All (λ x. x < 2 ^ F.bits_of f.now) reduced.old }
    requires numbers { All (λ o. IfSome o (λ x. x < length numbers.now)) numbers.now }
    requires leads { AreLeads (gf_mul (F.bits_of f.now) (F.modulus_of f.now)) (length numbers.now)
        stride count (slots (length numbers.now) numbers.now) inverses.now reduced.old }
    ensures reduced_long { length reduced.new ≡ length reduced.old }
    ensures factors_long { length factors.new ≡ length factors.old }
    ensures reduced_symbols { All (λ x. x < 2 ^ F.bits_of f.now) reduced.new }
    ensures factors_symbols { All (λ x. x < 2 ^ F.bits_of f.now) factors.new }
    ensures few { result.span ≤ count }
    ensures left { IsLeft (length numbers.now) from (from + length values.now)
        (slots (length numbers.now) numbers.now) (λ j. slice_index reduced.new (count * stride + j))
        result.column }
    ensures kept { (j : ℕ) → j < from
        → line_kept (gf_mul (F.bits_of f.now) (F.modulus_of f.now)) stride result.span
        (λ t. slice_index factors.new (i * most + t)) reduced.old j
        ≡ line_kept (gf_mul (F.bits_of f.now) (F.modulus_of f.now)) stride span
        (λ t. slice_index factors.old (i * most + t)) reduced.old j }
    ensures settled { (c : ℕ) → c < length values.now
        → slice_index reduced.new (count * stride + (from + c)) ≡ bit_xor (slice_index values.now c)
        (line_kept (gf_mul (F.bits_of f.now) (F.modulus_of f.now)) stride result.span
        (λ t. slice_index factors.new (i * most + t)) reduced.old (from + c)) }
    ensures rows { (rows : ℕ → ℕ) → ((c : ℕ) → from ≤ c → c < from + length values.now
        → slice_index (slots (length numbers.now) numbers.now) c < length numbers.now
        → rows (slice_index (slots (length numbers.now) numbers.now) c) < i)
        → AllAbove rows i span (λ t. slice_index factors.old (i * most + t))
        → AllAbove rows i result.span (λ t. slice_index factors.new (i * most + t)) }
    ensures stay { (p : ℕ) → p < count * stride
        → slice_index reduced.new p ≡ slice_index reduced.old p }
    ensures before { (p : ℕ) → p < i * most
        → slice_index factors.new p ≡ slice_index factors.old p }
    ensures after { (p : ℕ) → i * most + most ≤ p
        → slice_index factors.new p ≡ slice_index factors.old p }
{
    let (above, below) = reduced.split_at_mut(count * stride);
    let own = &mut factors[i * most..i * most + most];
    let inverses = &inverses[..count];
    settle_line(
        f, stride, below, from, values, numbers, inverses, above, own, span,
    )
}

/// What row i keeps in column j: the entries of the first reduced rows there, each times the factor that the row has for it.
pub fn kept_entry<F: Field>(
    f: &F,
    stride: usize,
    most: usize,
    i: usize,
    j: usize,
    span: usize,
    factors: &[u8],
    reduced: &[u8],
) -> u8
    requires column { j < stride }
    requires small { stride ≤ 2048 }
    requires most { most ≤ 1024 }
    requires span { span ≤ most }
    requires row { i < 1024 }
    requires factors_fit { i * most + most ≤ length factors.now }
    requires reduced_fit { length reduced.now ≡ most * stride }
    requires factors { All (λ x. x < 2 ^ F.bits_of f.now) factors.now }
    requires reduced { All (λ x. x < 2 ^ F.bits_of f.now) reduced.now }
    ensures sum { result ≡ line_kept (gf_mul (F.bits_of f.now) (F.modulus_of f.now)) stride span
        (λ t. slice_index factors.now (i * most + t)) reduced.now j }
    ensures symbol { result < 2 ^ F.bits_of f.now }
{
    let factors = &factors[i * most..i * most + span];
    let mut sum = 0;
    for t in 0..span {
        sum = f.add(sum, f.mul(factors[t], reduced[t * stride + j]));
    }
    sum
}

/// Adds to a list its entry `number` times the factors of row q.
pub fn add_factors<F: Field>(
    f: &F,
    most: usize,
    q: usize,
    span: usize,
    factors: &[u8],
    number: usize,
    out: &mut [u8],
)
    requires most { most ≤ 1024 }
    requires row { q < 1024 }
    requires span { span ≤ number }
    requires number { number < most }
    requires out_fit { length out.old ≡ most }
    requires factors_fit { q * most + most ≤ length factors.now }
    requires factors { All (λ x. x < 2 ^ F.bits_of f.now) factors.now }
    requires out { All (λ x. x < 2 ^ F.bits_of f.now) out.old }
    ensures long { length out.new ≡ length out.old }
    ensures symbols { All (λ x. x < 2 ^ F.bits_of f.now) out.new }
    ensures more { (u : ℕ) → u < span → slice_index out.new u ≡ bit_xor (slice_index out.old u)
        (gf_mul (F.bits_of f.now) (F.modulus_of f.now) (slice_index out.old number)
        (slice_index factors.now (q * most + u))) }
    ensures rest { (u : ℕ) → span ≤ u → slice_index out.new u ≡ slice_index out.old u }
{
    let factor = out[number];
    add_part(f, out, 0, span, factor, factors, q * most);
}

/// Writes the first factors of row i to a list, and 0 after them.
pub fn copy_factors(most: usize, i: usize, span: usize, factors: &[u8], out: &mut [u8])
    requires most { most ≤ 1024 }
    requires row { i < 1024 }
    requires span { span ≤ most }
    requires out_fit { length out.old ≡ most }
    requires factors_fit { i * most + most ≤ length factors.now }
    ensures long { length out.new ≡ length out.old }
    ensures symbols { (size : ℕ) → 0 < size → All (λ x. x < size) factors.now
        → All (λ x. x < size) out.new }
    ensures first { (t : ℕ) → t < span
        → slice_index out.new t ≡ slice_index factors.now (i * most + t) }
    ensures zeros { (t : ℕ) → span ≤ t → slice_index out.new t ≡ 0 }
{
    out.fill(0);
    write_at(out, 0, &factors[i * most..i * most + span]);
}
