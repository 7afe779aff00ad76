//! Operations on the lines of a table: contiguous parts of a list of symbols.

ghost use Rattle.std.specs.Prelude.{◌≡◌, ◌≢◌, ℕ, ◌+◌, ◌*◌, ◌<◌, ◌≤◌, ◌^◌, All, IfSome, IfNone, length, slice_index, bit_xor};
ghost use Rattle.field_theory.specs.Sums.{xor_sum};
ghost use Rattle.gf_theory.specs.Field.{gf_mul};
ghost use Rattle.vote_matrix.specs.Lines.{AllAbove, AreLeads, IsLeft, line_kept};
ghost use Rattle.vote_matrix.specs.Slots.{slots, IsSlot};

use gf_field::Field;
use gf_linear::add_scaled;

/// Adds `c` times the symbols of `src` from `from` on to those of `dst` from `at` on, so many.
pub fn add_part<F: Field>(
    f: &F,
    dst: &mut [u8],
    at: usize,
    len: usize,
    c: u8,
    src: &[u8],
    from: usize,
)
    requires here { at + len ≤ length dst.old }
    requires there { from + len ≤ length src.now }
    requires factor { c < 2 ^ F.bits_of f.now }
    requires target { All (λ x. x < 2 ^ F.bits_of f.now) dst.old }
    requires source { All (λ x. x < 2 ^ F.bits_of f.now) src.now }
    ensures long { length dst.new ≡ length dst.old }
    ensures symbols { All (λ x. x < 2 ^ F.bits_of f.now) dst.new }
    ensures added { (j : ℕ) → j < len → slice_index dst.new (at + j)
        ≡ bit_xor (slice_index dst.old (at + j))
        (gf_mul (F.bits_of f.now) (F.modulus_of f.now) c (slice_index src.now (from + j))) }
    ensures before { (p : ℕ) → p < at → slice_index dst.new p ≡ slice_index dst.old p }
    ensures after { (p : ℕ) → at + len ≤ p → slice_index dst.new p ≡ slice_index dst.old p }
{
    add_scaled(f, &mut dst[at..at + len], c, &src[from..from + len]);
}

/// Adds to `len` places of a line, from `at` on, each row above times its factor.
pub fn add_rows<F: Field>(
    f: &F,
    stride: usize,
    line: &mut [u8],
    at: usize,
    len: usize,
    factors: &[u8],
    above: &[u8],
)
    requires here { at + len ≤ stride }
    requires small { stride ≤ 2048 }
    requires line { stride ≤ length line.old }
    requires rows { length factors.now * stride ≤ length above.now }
    requires few { length factors.now ≤ 1024 }
    requires line_symbols { All (λ x. x < 2 ^ F.bits_of f.now) line.old }
    requires factors { All (λ x. x < 2 ^ F.bits_of f.now) factors.now }
    requires above { All (λ x. x < 2 ^ F.bits_of f.now) above.now }
    ensures long { length line.new ≡ length line.old }
    ensures symbols { All (λ x. x < 2 ^ F.bits_of f.now) line.new }
    ensures added { (j : ℕ) → at ≤ j → j < at + len → slice_index line.new j
        ≡ bit_xor (slice_index line.old j)
        (line_kept (gf_mul (F.bits_of f.now) (F.modulus_of f.now)) stride
        (length factors.now) (slice_index factors.now) above.now j) }
    ensures before { (p : ℕ) → p < at → slice_index line.new p ≡ slice_index line.old p }
    ensures after { (p : ℕ) → at + len ≤ p → slice_index line.new p ≡ slice_index line.old p }
{
    for t in 0..factors.len() {
        add_part(f, line, at, len, factors[t], above, t * stride + at);
    }
}

/// Clears a column of a line by the row above that has its pivot there, as far as column `to`. Answers the factor.
fn clear_column<F: Field>(
    f: &F,
    stride: usize,
    line: &mut [u8],
    column: usize,
    to: usize,
    inverse: u8,
    above: &[u8],
    number: usize,
) -> u8
    requires column { column < to }
    requires to { to ≤ stride }
    requires small { stride ≤ 2048 }
    requires line { stride ≤ length line.old }
    requires row { number * stride + stride ≤ length above.now }
    requires few { number < 1024 }
    requires line_symbols { All (λ x. x < 2 ^ F.bits_of f.now) line.old }
    requires inverse { inverse < 2 ^ F.bits_of f.now }
    requires above { All (λ x. x < 2 ^ F.bits_of f.now) above.now }
    requires zeros { (j : ℕ) → j < column → slice_index above.now (number * stride + j) ≡ 0 }
    requires lead { gf_mul (F.bits_of f.now) (F.modulus_of f.now)
        (slice_index above.now (number * stride + column)) inverse ≡ 1 }
    ensures factor { result < 2 ^ F.bits_of f.now }
    ensures long { length line.new ≡ length line.old }
    ensures symbols { All (λ x. x < 2 ^ F.bits_of f.now) line.new }
    ensures added { (j : ℕ) → j < to → slice_index line.new j
        ≡ bit_xor (slice_index line.old j) (gf_mul (F.bits_of f.now) (F.modulus_of f.now) result
        (slice_index above.now (number * stride + j))) }
    ensures zero { slice_index line.new column ≡ 0 }
{
    let factor = f.mul(line[column], inverse);
    let from = column / 16 * 16;
    let len = ((to + 15) / 16 * 16).min(stride) - from;
    add_part(f, line, from, len, factor, above, number * stride + from);
    factor
}

/// Adds the factor of a row to those of a line, which are 0 from the span on. Answers the new span.
fn note_factor<F: Field>(f: &F, own: &mut [u8], span: usize, number: usize, factor: u8) -> usize
    requires span { span ≤ length own.old }
    requires number { number < length own.old }
    requires own { All (λ x. x < 2 ^ F.bits_of f.now) own.old }
    requires factor { factor < 2 ^ F.bits_of f.now }
    ensures long { length own.new ≡ length own.old }
    ensures symbols { All (λ x. x < 2 ^ F.bits_of f.now) own.new }
    ensures least { span ≤ result }
    ensures most { result ≤ span + (number + 1) }
    ensures here { number < result }
    ensures only { span < result → result ≡ number + 1 }
    ensures others { (t : ℕ) → t < span → t ≢ number
        → slice_index own.new t ≡ slice_index own.old t }
    ensures gap { (t : ℕ) → span ≤ t → t < number → slice_index own.new t ≡ 0 }
    ensures old { number < span
        → slice_index own.new number ≡ bit_xor (slice_index own.old number) factor }
    ensures fresh { span ≤ number → slice_index own.new number ≡ factor }
{
    if number < span {
        own[number] = f.add(own[number], factor);
        return span;
    }
    own[span..number].fill(0);
    own[number] = factor;
    number + 1
}

/// What is left of a line that was reduced.
#[derive(Clone, Copy)]
pub struct Rest {
    /// How many of the first factors of the line may differ from 0.
    pub span: usize,
    /// The first column where the line differs from 0.
    pub column: Option<u32>,
}

/// The number of the pivot of a column.
pub fn number_at(numbers: &[Option<u32>], column: usize) -> Option<u32>
    requires column { column < length numbers.now }
    requires numbers { All (λ o. IfSome o (λ x. x < length numbers.now)) numbers.now }
    ensures { IsSlot (length numbers.now)
        (slice_index (slots (length numbers.now) numbers.now) column) result }
{
    numbers[column]
}

/// Clears a column of a line by the row above that has its pivot there, as far as column `to`, and notes the factor.
/// Answers the new span.
fn reduce_by<F: Field>(
    f: &F,
    stride: usize,
    line: &mut [u8],
    column: usize,
    to: usize,
    inverse: u8,
    above: &[u8],
    own: &mut [u8],
    span: usize,
    number: usize,
) -> usize
    requires column { column < to }
    requires to { to ≤ stride }
    requires small { stride ≤ 2048 }
    requires line { stride ≤ length line.old }
    requires row { number * stride + stride ≤ length above.now }
    requires number { number < length own.old }
    requires most { length own.old ≤ 1024 }
    requires span { span ≤ length own.old }
    requires line_symbols { All (λ x. x < 2 ^ F.bits_of f.now) line.old }
    requires inverse { inverse < 2 ^ F.bits_of f.now }
    requires above { All (λ x. x < 2 ^ F.bits_of f.now) above.now }
    requires own { All (λ x. x < 2 ^ F.bits_of f.now) own.old }
    requires zeros { (j : ℕ) → j < column → slice_index above.now (number * stride + j) ≡ 0 }
    requires lead { gf_mul (F.bits_of f.now) (F.modulus_of f.now)
        (slice_index above.now (number * stride + column)) inverse ≡ 1 }
    ensures long { length line.new ≡ length line.old }
    ensures symbols { All (λ x. x < 2 ^ F.bits_of f.now) line.new }
    ensures own_long { length own.new ≡ length own.old }
    ensures own_symbols { All (λ x. x < 2 ^ F.bits_of f.now) own.new }
    ensures few { (k : ℕ) → span ≤ k → number < k → result ≤ k }
    ensures zero { slice_index line.new column ≡ 0 }
    ensures before { (j : ℕ) → j < column → slice_index line.new j ≡ slice_index line.old j }
    ensures same { (j : ℕ) → j < to →
        bit_xor (slice_index line.new j) (line_kept (gf_mul (F.bits_of f.now) (F.modulus_of f.now))
        stride result (slice_index own.new) above.now j)
        ≡ bit_xor (slice_index line.old j)
        (line_kept (gf_mul (F.bits_of f.now) (F.modulus_of f.now))
        stride span (slice_index own.old) above.now j) }
    ensures rows { (rows : ℕ → ℕ) → (i : ℕ) → rows number < i
        → AllAbove rows i span (slice_index own.old)
        → AllAbove rows i result (slice_index own.new) }
{
    let factor = clear_column(f, stride, line, column, to, inverse, above, number);
    note_factor(f, own, span, number, factor)
}

/// Reduces a line from column `from` to column `to` by the rows above, as far as the first column that none of them clears.
/// The line is 0 before `from`.
pub fn reduce_line<F: Field>(
    f: &F,
    stride: usize,
    line: &mut [u8],
    from: usize,
    to: usize,
    numbers: &[Option<u32>],
    inverses: &[u8],
    above: &[u8],
    own: &mut [u8],
    span: usize,
) -> Rest
    requires order { from ≤ to }
    requires inside { to ≤ length numbers.now }
    requires to { to ≤ stride }
    requires small { stride ≤ 2048 }
    requires line { stride ≤ length line.old }
    requires rows { length inverses.now * stride ≡ length above.now }
    requires few { length inverses.now ≤ length own.old }
    requires most { length own.old ≤ 1024 }
    requires span { span ≤ length inverses.now }
    requires line_symbols { All (λ x. x < 2 ^ F.bits_of f.now) line.old }
    requires inverses { All (λ x. x < 2 ^ F.bits_of f.now) inverses.now }
    requires above { All (λ x. x < 2 ^ F.bits_of f.now) above.now }
    requires own { All (λ x. x < 2 ^ F.bits_of f.now) own.old }
    requires numbers { All (λ o. IfSome o (λ x. x < length numbers.now)) numbers.now }
    requires leads { AreLeads (gf_mul (F.bits_of f.now) (F.modulus_of f.now)) (length numbers.now)
        stride (length inverses.now) (slots (length numbers.now) numbers.now)
        inverses.now above.now }
    requires zeros { (j : ℕ) → j < from → slice_index line.old j ≡ 0 }
    ensures long { length line.new ≡ length line.old }
    ensures symbols { All (λ x. x < 2 ^ F.bits_of f.now) line.new }
    ensures own_long { length own.new ≡ length own.old }
    ensures own_symbols { All (λ x. x < 2 ^ F.bits_of f.now) own.new }
    ensures few { result.span ≤ length inverses.now }
    ensures left { IsLeft (length numbers.now) from to
        (slots (length numbers.now) numbers.now) (slice_index line.new) result.column }
    ensures same { (j : ℕ) → j < to →
        bit_xor (slice_index line.new j) (line_kept (gf_mul (F.bits_of f.now) (F.modulus_of f.now))
        stride result.span (slice_index own.new) above.now j)
        ≡ bit_xor (slice_index line.old j)
        (line_kept (gf_mul (F.bits_of f.now) (F.modulus_of f.now))
        stride span (slice_index own.old) above.now j) }
    ensures rows { (rows : ℕ → ℕ) → (i : ℕ) → ((c : ℕ) → from ≤ c → c < to
        → slice_index (slots (length numbers.now) numbers.now) c < length numbers.now
        → rows (slice_index (slots (length numbers.now) numbers.now) c) < i)
        → AllAbove rows i span (slice_index own.old)
        → AllAbove rows i result.span (slice_index own.new) }
{
    let mut span = span;
    for column in from..to {
        if line[column] != 0 {
            let Some(number) = number_at(numbers, column) else {
                return Rest {
                    span,
                    column: Some(column as u32),
                };
            };
            let number = number as usize;
            let inverse = inverses[number];
            span = reduce_by(
                f, stride, line, column, to, inverse, above, own, span, number,
            );
        }
    }
    Rest { span, column: None }
}

/// Makes a line 0 before a place.
fn clear_before(line: &mut [u8], at: usize)
    requires { at ≤ length line.old }
    ensures long { length line.new ≡ length line.old }
    ensures zeros { (p : ℕ) → p < at → slice_index line.new p ≡ 0 }
    ensures symbols { (size : ℕ) → 0 < size → All (λ x. x < size) line.old
        → All (λ x. x < size) line.new }
{
    line[..at].fill(0);
}

/// Writes values to a line, from a place on.
pub fn write_at(line: &mut [u8], at: usize, values: &[u8])
    requires { at + length values.now ≤ length line.old }
    ensures long { length line.new ≡ length line.old }
    ensures written { (c : ℕ) → c < length values.now
        → slice_index line.new (at + c) ≡ slice_index values.now c }
    ensures before { (p : ℕ) → p < at → slice_index line.new p ≡ slice_index line.old p }
    ensures after { (p : ℕ) → at + length values.now ≤ p
        → slice_index line.new p ≡ slice_index line.old p }
    ensures symbols { (size : ℕ) → All (λ x. x < size) values.now → All (λ x. x < size) line.old
        → All (λ x. x < size) line.new }
{
    line[at..at + values.len()].copy_from_slice(values);
}

/// Settles the next entries of a line, from column `from` on, and reduces it. The line is 0 before that. Answers what is left.
pub fn settle_line<F: Field>(
    f: &F,
    stride: usize,
    line: &mut [u8],
    from: usize,
    values: &[u8],
    numbers: &[Option<u32>],
    inverses: &[u8],
    above: &[u8],
    own: &mut [u8],
    span: usize,
) -> Rest
    requires inside { from + length values.now ≤ length numbers.now }
    requires to { from + length values.now ≤ stride }
    requires small { stride ≤ 2048 }
    requires line { stride ≤ length line.old }
    requires rows { length inverses.now * stride ≡ length above.now }
    requires few { length inverses.now ≤ length own.old }
    requires most { length own.old ≤ 1024 }
    requires span { span ≤ length inverses.now }
    requires values { All (λ x. x < 2 ^ F.bits_of f.now) values.now }
    requires line_symbols { All (λ x. x < 2 ^ F.bits_of f.now) line.old }
    requires inverses { All (λ x. x < 2 ^ F.bits_of f.now) inverses.now }
    requires above { All (λ x. x < 2 ^ F.bits_of f.now) above.now }
    requires own { All (λ x. x < 2 ^ F.bits_of f.now) own.old }
    requires numbers { All (λ o. IfSome o (λ x. x < length numbers.now)) numbers.now }
    requires leads { AreLeads (gf_mul (F.bits_of f.now) (F.modulus_of f.now)) (length numbers.now)
        stride (length inverses.now) (slots (length numbers.now) numbers.now)
        inverses.now above.now }
    ensures long { length line.new ≡ length line.old }
    ensures symbols { All (λ x. x < 2 ^ F.bits_of f.now) line.new }
    ensures own_long { length own.new ≡ length own.old }
    ensures own_symbols { All (λ x. x < 2 ^ F.bits_of f.now) own.new }
    ensures few { result.span ≤ length inverses.now }
    ensures left { IsLeft (length numbers.now) from (from + length values.now)
        (slots (length numbers.now) numbers.now) (slice_index line.new) result.column }
    ensures kept { (j : ℕ) → j < from
        → line_kept (gf_mul (F.bits_of f.now) (F.modulus_of f.now)) stride result.span
        (slice_index own.new) above.now j
        ≡ line_kept (gf_mul (F.bits_of f.now) (F.modulus_of f.now)) stride span
        (slice_index own.old) above.now j }
    ensures settled { (c : ℕ) → c < length values.now → slice_index line.new (from + c)
        ≡ bit_xor (slice_index values.now c)
        (line_kept (gf_mul (F.bits_of f.now) (F.modulus_of f.now)) stride result.span
        (slice_index own.new) above.now (from + c)) }
    ensures rows { (rows : ℕ → ℕ) → (i : ℕ) → ((c : ℕ) → from ≤ c → c < from + length values.now
        → slice_index (slots (length numbers.now) numbers.now) c < length numbers.now
        → rows (slice_index (slots (length numbers.now) numbers.now) c) < i)
        → AllAbove rows i span (slice_index own.old)
        → AllAbove rows i result.span (slice_index own.new) }
{
    let to = from + values.len();
    clear_before(line, from);
    write_at(line, from, values);
    add_rows(f, stride, line, from, values.len(), &own[..span], above);
    reduce_line(
        f, stride, line, from, to, numbers, inverses, above, own, span,
    )
}

/// Goes on with a reduced line: its next entries, from column `from` on, reduced by the first rows above.
pub fn extend_line<F: Field>(
    f: &F,
    stride: usize,
    line: &mut [u8],
    from: usize,
    values: &[u8],
    factors: &[u8],
    above: &[u8],
)
    requires here { from + length values.now ≤ stride }
    requires small { stride ≤ 2048 }
    requires line { stride ≤ length line.old }
    requires rows { length factors.now * stride ≤ length above.now }
    requires few { length factors.now ≤ 1024 }
    requires values { All (λ x. x < 2 ^ F.bits_of f.now) values.now }
    requires line_symbols { All (λ x. x < 2 ^ F.bits_of f.now) line.old }
    requires factors { All (λ x. x < 2 ^ F.bits_of f.now) factors.now }
    requires above { All (λ x. x < 2 ^ F.bits_of f.now) above.now }
    ensures long { length line.new ≡ length line.old }
    ensures symbols { All (λ x. x < 2 ^ F.bits_of f.now) line.new }
    ensures settled { (c : ℕ) → c < length values.now → slice_index line.new (from + c)
        ≡ bit_xor (slice_index values.now c)
        (line_kept (gf_mul (F.bits_of f.now) (F.modulus_of f.now)) stride
        (length factors.now) (slice_index factors.now) above.now (from + c)) }
    ensures before { (p : ℕ) → p < from → slice_index line.new p ≡ slice_index line.old p }
    ensures after { (p : ℕ) → from + length values.now ≤ p
        → slice_index line.new p ≡ slice_index line.old p }
{
    write_at(line, from, values);
    add_rows(f, stride, line, from, values.len(), factors, above);
}
