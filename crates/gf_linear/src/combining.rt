//! Combinations of many rows: the sums of a block of columns stay in registers while the rows run past. The last block
//! reaches back over columns that are done, so that each is a whole one.

ghost use Rattle.std.specs.Prelude.{◌≡◌, ℕ, ◌+◌, ◌*◌, ◌<◌, ◌≤◌, ◌^◌, length, slice_index, All};
ghost use Rattle.linear_theory.specs.Linear.{combine};
ghost use Rattle.gf_theory.specs.Field.{gf_mul};
ghost use Rattle.gf_linear.specs.Cells.{cell, AreLanes};

use crate::lanes::{add_looked_up, twice};
use crate::lists::add_scaled;
use gf_field::{Field, Multiples};
use std::simd::prelude::*;

/// Makes `sum` the sum of the rows of a matrix that is stored row by row, each times its factor.
pub fn combine_rows<F: Field>(f: &F, factors: &[u8], rows: &[u8], sum: &mut [u8])
    requires size { length rows.now ≡ length factors.now * length sum.old }
    requires factors { All (λ a. a < 2 ^ F.bits_of f.now) factors.now }
    requires symbols { All (λ a. a < 2 ^ F.bits_of f.now) rows.now }
    ensures value { (q : ℕ) → q < length sum.old →
        slice_index sum.new q ≡ combine (gf_mul (F.bits_of f.now) (F.modulus_of f.now))
        (length factors.now) (slice_index factors.now) (cell rows.now (length sum.old)) q }
    ensures symbols { All (λ a. a < 2 ^ F.bits_of f.now) sum.new }
{
    f.bits();
    if sum.len() < 32 {
        combine_singly(f, factors, rows, sum);
    } else if sum.len() < 128 {
        combine_by_lanes(f, factors, rows, sum);
    } else {
        combine_by_blocks(f, factors, rows, sum);
    }
}

// The same, row by row.
fn combine_singly<F: Field>(f: &F, factors: &[u8], rows: &[u8], sum: &mut [u8])
    requires size { length rows.now ≡ length factors.now * length sum.old }
    requires factors { All (λ a. a < 2 ^ F.bits_of f.now) factors.now }
    requires symbols { All (λ a. a < 2 ^ F.bits_of f.now) rows.now }
    ensures value { (q : ℕ) → q < length sum.old →
        slice_index sum.new q ≡ combine (gf_mul (F.bits_of f.now) (F.modulus_of f.now))
        (length factors.now) (slice_index factors.now) (cell rows.now (length sum.old)) q }
{
    let cols = sum.len();
    sum.fill(0);
    for i in 0..factors.len() {
        add_scaled(f, sum, factors[i], &rows[i * cols..i * cols + cols]);
    }
}

// The same, 32 columns at a time.
fn combine_by_lanes<F: Field>(f: &F, factors: &[u8], rows: &[u8], sum: &mut [u8])
    requires size { length rows.now ≡ length factors.now * length sum.old }
    requires wide { 32 ≤ length sum.old }
    requires factors { All (λ a. a < 2 ^ F.bits_of f.now) factors.now }
    requires symbols { All (λ a. a < 2 ^ F.bits_of f.now) rows.now }
    ensures length { length sum.new ≡ length sum.old }
    ensures value { (q : ℕ) → q < length sum.old →
        slice_index sum.new q ≡ combine (gf_mul (F.bits_of f.now) (F.modulus_of f.now))
        (length factors.now) (slice_index factors.now) (cell rows.now (length sum.old)) q }
{
    let cols = sum.len();
    for b in 0..(cols + 31) / 32 {
        let at = (b * 32).min(cols - 32);
        let lanes = lane_sums(f, factors, rows, cols, at);
        put_lanes(sum, at, lanes);
    }
}

// The same, 128 columns at a time.
fn combine_by_blocks<F: Field>(f: &F, factors: &[u8], rows: &[u8], sum: &mut [u8])
    requires size { length rows.now ≡ length factors.now * length sum.old }
    requires wide { 128 ≤ length sum.old }
    requires factors { All (λ a. a < 2 ^ F.bits_of f.now) factors.now }
    requires symbols { All (λ a. a < 2 ^ F.bits_of f.now) rows.now }
    ensures length { length sum.new ≡ length sum.old }
    ensures value { (q : ℕ) → q < length sum.old →
        slice_index sum.new q ≡ combine (gf_mul (F.bits_of f.now) (F.modulus_of f.now))
        (length factors.now) (slice_index factors.now) (cell rows.now (length sum.old)) q }
{
    let cols = sum.len();
    for b in 0..(cols + 127) / 128 {
        let at = (b * 128).min(cols - 128);
        let sums = block_sums(f, factors, rows, cols, at);
        put_block(sum, at, sums);
    }
}

// The sums of the 32 columns from `at` on.
fn lane_sums<F: Field>(f: &F, factors: &[u8], rows: &[u8], cols: usize, at: usize) -> u8x32
    requires size { length rows.now ≡ length factors.now * cols }
    requires room { at + 32 ≤ cols }
    requires factors { All (λ a. a < 2 ^ F.bits_of f.now) factors.now }
    requires symbols { All (λ a. a < 2 ^ F.bits_of f.now) rows.now }
    ensures { AreLanes (combine (gf_mul (F.bits_of f.now) (F.modulus_of f.now))
        (length factors.now) (slice_index factors.now) (cell rows.now cols)) at result }
{
    let mut sums = u8x32::splat(0);
    for i in 0..factors.len() {
        let Multiples { low, high } = f.multiples(factors[i]);
        let row = &rows[i * cols..i * cols + cols];
        sums = add_looked_up(sums, twice(&low), twice(&high), row, at);
    }
    sums
}

// The sums of 128 columns.
#[derive(Drop)]
struct Block {
    first: u8x32,
    second: u8x32,
    third: u8x32,
    fourth: u8x32,
}

// The sums of the 128 columns from `at` on.
fn block_sums<F: Field>(f: &F, factors: &[u8], rows: &[u8], cols: usize, at: usize) -> Block
    requires size { length rows.now ≡ length factors.now * cols }
    requires room { at + 128 ≤ cols }
    requires factors { All (λ a. a < 2 ^ F.bits_of f.now) factors.now }
    requires symbols { All (λ a. a < 2 ^ F.bits_of f.now) rows.now }
    ensures first { AreLanes (combine (gf_mul (F.bits_of f.now) (F.modulus_of f.now))
        (length factors.now) (slice_index factors.now) (cell rows.now cols)) at result.first }
    ensures second { AreLanes (combine (gf_mul (F.bits_of f.now) (F.modulus_of f.now))
        (length factors.now) (slice_index factors.now) (cell rows.now cols))
        (at + 32) result.second }
    ensures third { AreLanes (combine (gf_mul (F.bits_of f.now) (F.modulus_of f.now))
        (length factors.now) (slice_index factors.now) (cell rows.now cols))
        (at + 64) result.third }
    ensures fourth { AreLanes (combine (gf_mul (F.bits_of f.now) (F.modulus_of f.now))
        (length factors.now) (slice_index factors.now) (cell rows.now cols))
        (at + 96) result.fourth }
{
    let mut first = u8x32::splat(0);
    let mut second = u8x32::splat(0);
    let mut third = u8x32::splat(0);
    let mut fourth = u8x32::splat(0);
    for i in 0..factors.len() {
        let Multiples { low, high } = f.multiples(factors[i]);
        let (lows, highs) = (twice(&low), twice(&high));
        let row = &rows[i * cols..i * cols + cols];
        first = add_looked_up(first, lows, highs, row, at);
        second = add_looked_up(second, lows, highs, row, at + 32);
        third = add_looked_up(third, lows, highs, row, at + 64);
        fourth = add_looked_up(fourth, lows, highs, row, at + 96);
    }
    Block {
        first,
        second,
        third,
        fourth,
    }
}

// Writes 32 sums from `at` on.
fn put_lanes(sum: &mut [u8], at: usize, lanes: u8x32)
    requires room { at + 32 ≤ length sum.old }
    requires width { length lanes ≡ 32 }
    ensures length { length sum.new ≡ length sum.old }
    ensures here { (i : ℕ) → i < 32 → slice_index sum.new (at + i) ≡ slice_index lanes i }
    ensures before { (q : ℕ) → q < at → slice_index sum.new q ≡ slice_index sum.old q }
{
    lanes.copy_to_slice(&mut sum[at..]);
}

// Writes 128 sums from `at` on.
fn put_block(sum: &mut [u8], at: usize, block: Block)
    requires room { at + 128 ≤ length sum.old }
    requires first { length block.first ≡ 32 }
    requires second { length block.second ≡ 32 }
    requires third { length block.third ≡ 32 }
    requires fourth { length block.fourth ≡ 32 }
    ensures length { length sum.new ≡ length sum.old }
    ensures value { (sums : ℕ → ℕ) → AreLanes sums at block.first
        → AreLanes sums (at + 32) block.second → AreLanes sums (at + 64) block.third
        → AreLanes sums (at + 96) block.fourth
        → (q : ℕ) → at ≤ q → q < at + 128 → slice_index sum.new q ≡ sums q }
    ensures before { (q : ℕ) → q < at → slice_index sum.new q ≡ slice_index sum.old q }
{
    put_lanes(sum, at, block.first);
    put_lanes(sum, at + 32, block.second);
    put_lanes(sum, at + 64, block.third);
    put_lanes(sum, at + 96, block.fourth);
}
