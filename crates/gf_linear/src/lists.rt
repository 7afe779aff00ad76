//! Products and multiples of lists, since a product is linear in each bit of a factor. A product of two lists is made by a
//! pass over them for each bit of a symbol: the pass has no product in it, only a choice, and runs many symbols at a time.
//! For a multiple the field has the products of the factor in two tables of 16, by the low four bits of a symbol and by the
//! others, and 32 symbols are looked up at once.

ghost use Rattle.std.specs.Prelude.{◌≡◌, ℕ, ◌+◌, ◌*◌, ◌/◌, ◌%◌, ◌<◌, ◌≤◌, ◌^◌, List, length, slice_index, bit_xor, All};
ghost use Rattle.field_theory.specs.Sums.{xor_sum};
ghost use Rattle.linear_theory.specs.Linear.{dot as dot_of};
ghost use Rattle.gf_theory.specs.Field.{gf_mul};
ghost use Rattle.gf_linear.specs.Nibbles.{looked_up, IsTwice};

use crate::lanes::{add_looked_up, twice};
use gf_field::{Field, Multiples};
use std::simd::prelude::*;

/// The sum of the products of two lists of symbols, place by place. It makes one product for each bit of a symbol.
pub fn dot<F: Field>(f: &F, x: &[u8], y: &[u8]) -> u8
    requires same { length x.now ≡ length y.now }
    requires left { All (λ a. a < 2 ^ F.bits_of f.now) x.now }
    requires right { All (λ a. a < 2 ^ F.bits_of f.now) y.now }
    ensures value { result ≡ dot_of (gf_mul (F.bits_of f.now) (F.modulus_of f.now)) (length x.now)
        (slice_index x.now) (slice_index y.now) }
    ensures symbol { result < 2 ^ F.bits_of f.now }
{
    let mut sum: u8 = 0;
    for bit in 0..f.bits() {
        let part = sum_where(x, bit, y);
        sum = f.add(sum, f.mul(1 << bit, part));
    }
    sum
}

/// Adds `c` times `src` to `dst`, place by place, by the field's tables of the multiples of c.
pub fn add_scaled<F: Field>(f: &F, dst: &mut [u8], c: u8, src: &[u8])
    requires same { length dst.old ≡ length src.now }
    requires factor { c < 2 ^ F.bits_of f.now }
    requires target { All (λ a. a < 2 ^ F.bits_of f.now) dst.old }
    requires source { All (λ a. a < 2 ^ F.bits_of f.now) src.now }
    ensures value { (p : ℕ) → p < length dst.old →
        slice_index dst.new p ≡ bit_xor (slice_index dst.old p)
        (gf_mul (F.bits_of f.now) (F.modulus_of f.now) c (slice_index src.now p)) }
    ensures symbols { All (λ a. a < 2 ^ F.bits_of f.now) dst.new }
{
    if c == 0 {
        return;
    }
    let Multiples { low, high } = f.multiples(c);
    add_multiples(dst, &low, &high, src);
}

// `term` where this bit of `symbol` is set, else 0.
fn chosen(symbol: u8, bit: u32, term: u8) -> u8
    requires { bit < 8 }
    ensures { result ≡ symbol / 2 ^ bit % 2 * term }
{
    if symbol >> bit & 1 == 1 { term } else { 0 }
}

// The sum of the entries of `y` at the places where `x` has this bit set.
fn sum_where(x: &[u8], bit: u32, y: &[u8]) -> u8
    requires same { length x.now ≡ length y.now }
    requires bit { bit < 8 }
    ensures { result ≡ xor_sum (length x.now)
        (λ p. slice_index x.now p / 2 ^ bit % 2 * slice_index y.now p) }
{
    let mut sum: u8 = 0;
    for p in 0..x.len() {
        sum ^= chosen(x[p], bit, y[p]);
    }
    sum
}

// Adds to each byte of `dst` what the tables give for that of `src`.
fn add_multiples(dst: &mut [u8], low: &[u8; 16], high: &[u8; 16], src: &[u8])
    requires same { length dst.old ≡ length src.now }
    requires low { length low.now ≡ 16 }
    requires high { length high.now ≡ 16 }
    ensures length { length dst.new ≡ length dst.old }
    ensures value { (p : ℕ) → p < length dst.old →
        slice_index dst.new p ≡ bit_xor (slice_index dst.old p)
        (looked_up low.now high.now (slice_index src.now p)) }
{
    let whole = dst.len() / 32 * 32;
    let (front, rest) = dst.split_at_mut(whole);
    let (front_src, rest_src) = src.split_at(whole);
    add_wides(front, low, high, front_src);
    add_rest(rest, low, high, rest_src);
}

// The same, 32 bytes at a time.
fn add_wides(dst: &mut [u8], low: &[u8; 16], high: &[u8; 16], src: &[u8])
    requires same { length dst.old ≡ length src.now }
    requires whole { length dst.old % 32 ≡ 0 }
    requires low { length low.now ≡ 16 }
    requires high { length high.now ≡ 16 }
    ensures length { length dst.new ≡ length dst.old }
    ensures value { (p : ℕ) → p < length dst.old →
        slice_index dst.new p ≡ bit_xor (slice_index dst.old p)
        (looked_up low.now high.now (slice_index src.now p)) }
{
    let (lows, highs) = (twice(low), twice(high));
    for q in 0..dst.len() / 32 {
        add_wide(dst, q * 32, lows, highs, src);
    }
}

// The same at the 32 places from `at` on.
fn add_wide(dst: &mut [u8], at: usize, low: u8x32, high: u8x32, src: &[u8])
    requires same { length dst.old ≡ length src.now }
    requires room { at + 32 ≤ length dst.old }
    ensures length { length dst.new ≡ length dst.old }
    ensures here { (lows highs : List ℕ) → IsTwice lows low → IsTwice highs high →
        (i : ℕ) → i < 32 → slice_index dst.new (at + i) ≡ bit_xor (slice_index dst.old (at + i))
        (looked_up lows highs (slice_index src.now (at + i))) }
    ensures before { (p : ℕ) → p < at → slice_index dst.new p ≡ slice_index dst.old p }
    ensures after { (p : ℕ) → at + 32 ≤ p → slice_index dst.new p ≡ slice_index dst.old p }
{
    let sums = add_looked_up(u8x32::from_slice(&dst[at..]), low, high, src, at);
    sums.copy_to_slice(&mut dst[at..]);
}

// The same where fewer than 32 are left.
fn add_rest(dst: &mut [u8], low: &[u8; 16], high: &[u8; 16], src: &[u8])
    requires same { length dst.old ≡ length src.now }
    requires low { length low.now ≡ 16 }
    requires high { length high.now ≡ 16 }
    ensures length { length dst.new ≡ length dst.old }
    ensures value { (p : ℕ) → p < length dst.old →
        slice_index dst.new p ≡ bit_xor (slice_index dst.old p)
        (looked_up low.now high.now (slice_index src.now p)) }
{
    let whole = dst.len() / 16 * 16;
    let (front, rest) = dst.split_at_mut(whole);
    let (front_src, rest_src) = src.split_at(whole);
    add_sixteens(
        front,
        u8x16::from_array(*low),
        u8x16::from_array(*high),
        front_src,
    );
    add_singly(rest, low, high, rest_src);
}

// The same, byte by byte.
fn add_singly(dst: &mut [u8], low: &[u8; 16], high: &[u8; 16], src: &[u8])
    requires same { length dst.old ≡ length src.now }
    requires low { length low.now ≡ 16 }
    requires high { length high.now ≡ 16 }
    ensures length { length dst.new ≡ length dst.old }
    ensures value { (p : ℕ) → p < length dst.old →
        slice_index dst.new p ≡ bit_xor (slice_index dst.old p)
        (looked_up low.now high.now (slice_index src.now p)) }
{
    for p in 0..dst.len() {
        let symbol = src[p];
        dst[p] ^= low[usize::from(symbol % 16)] ^ high[usize::from(symbol / 16)];
    }
}

// The same, 16 bytes at a time.
fn add_sixteens(dst: &mut [u8], low: u8x16, high: u8x16, src: &[u8])
    requires same { length dst.old ≡ length src.now }
    requires whole { length dst.old % 16 ≡ 0 }
    ensures length { length dst.new ≡ length dst.old }
    ensures value { (p : ℕ) → p < length dst.old →
        slice_index dst.new p ≡ bit_xor (slice_index dst.old p)
        (looked_up low high (slice_index src.now p)) }
{
    for q in 0..dst.len() / 16 {
        add_sixteen(dst, q * 16, low, high, src);
    }
}

// The same at the 16 places from `at` on.
fn add_sixteen(dst: &mut [u8], at: usize, low: u8x16, high: u8x16, src: &[u8])
    requires same { length dst.old ≡ length src.now }
    requires room { at + 16 ≤ length dst.old }
    ensures length { length dst.new ≡ length dst.old }
    ensures here { (i : ℕ) → i < 16 → slice_index dst.new (at + i)
        ≡ bit_xor (slice_index dst.old (at + i))
        (looked_up low high (slice_index src.now (at + i))) }
    ensures before { (p : ℕ) → p < at → slice_index dst.new p ≡ slice_index dst.old p }
    ensures after { (p : ℕ) → at + 16 ≤ p → slice_index dst.new p ≡ slice_index dst.old p }
{
    let symbols = u8x16::from_slice(&src[at..]);
    let sums = u8x16::from_slice(&dst[at..]) ^ look_up(low, high, symbols);
    sums.copy_to_slice(&mut dst[at..]);
}

// What the tables give for 16 bytes.
fn look_up(low: u8x16, high: u8x16, symbols: u8x16) -> u8x16
    ensures width { length result ≡ 16 }
    ensures value { (i : ℕ) → i < 16 → slice_index result i
        ≡ looked_up low high (slice_index symbols i) }
{
    let lows = low.swizzle_dyn(symbols & u8x16::splat(15));
    let highs = high.swizzle_dyn(symbols >> u8x16::splat(4));
    lows ^ highs
}
