//! Bytes 32 at a time: two tables of 16 are looked up by the low four bits of a byte and by the others.

ghost use Rattle.std.specs.Prelude.{◌≡◌, ℕ, ◌+◌, ◌<◌, ◌≤◌, List, length, slice_index, bit_xor};
ghost use Rattle.gf_linear.specs.Nibbles.{looked_up, IsTwice};

use std::simd::prelude::*;

/// The table, once for each half of 32 lanes.
pub fn twice(table: &[u8; 16]) -> u8x32
    requires { length table.now ≡ 16 }
    ensures { IsTwice table.now result }
{
    u8x16::from_array(*table).swizzle([
        0, 1, 2, 3, 4, 5, 6, 7, 8, 9, 10, 11, 12, 13, 14, 15, 0, 1, 2, 3, 4, 5, 6, 7, 8, 9, 10, 11,
        12, 13, 14, 15,
    ])
}

/// Adds what the tables give for the 32 bytes of `src` from `at` on.
pub fn add_looked_up(sums: u8x32, low: u8x32, high: u8x32, src: &[u8], at: usize) -> u8x32
    requires sums { length sums ≡ 32 }
    requires room { at + 32 ≤ length src.now }
    ensures width { length result ≡ 32 }
    ensures value { (lows highs : List ℕ) → IsTwice lows low → IsTwice highs high →
        (i : ℕ) → i < 32 → slice_index result i
        ≡ bit_xor (slice_index sums i) (looked_up lows highs (slice_index src.now (at + i))) }
{
    sums ^ look_up(low, high, u8x32::from_slice(&src[at..]))
}

// What the tables give for 32 bytes.
fn look_up(low: u8x32, high: u8x32, symbols: u8x32) -> u8x32
    ensures width { length result ≡ 32 }
    ensures value { (lows highs : List ℕ) → IsTwice lows low → IsTwice highs high →
        (i : ℕ) → i < 32 → slice_index result i ≡ looked_up lows highs (slice_index symbols i) }
{
    let lows = low.swizzle_dyn_within::<16>(symbols & u8x32::splat(15));
    let highs = high.swizzle_dyn_within::<16>(symbols >> u8x32::splat(4));
    lows ^ highs
}
