//! Stored symbols that are packed: the bits of each, highest first, one symbol after the other. A symbol of at most eight
//! bits stands in one byte or in two, so it is read and written by shifts in a window of these.

ghost use Rattle.std.specs.Prelude.{ℕ, ◌≡◌, ◌*◌, ◌%◌, ◌+◌, ◌++◌, ◌^◌, ◌<◌, ◌≤◌, true, length, flat_map};
ghost use Rattle.stored_form.specs.Bits.{bits_of, bits_of_symbols, whole_pieces};
ghost use Rattle.stored_form.specs.Symbols.{stored_size, fill_bits};
ghost use Rattle.stored_form.specs.Group.{spread, stored_group, stored_blocks};
ghost use Rattle.ag_frame.specs.Packing.{IsPackedGroup, symbol_in, with_symbol};

use crate::frame::{gather_words, spread_words};
use crate::pending::Pending;

// The symbol of `width` bits after the first `from` bits of a window of `size` bits.
fn cut(window: u32, size: u32, from: u32, width: u32) -> u8
    requires width { width ≤ 8 }
    requires size { size ≤ 16 }
    requires inside { from + width ≤ size }
    ensures { result ≡ symbol_in from width (bits_of size window) }
{
    let low = size - from - width;
    ((window >> low) % (1 << width)) as u8
}

// The window with the low bits of a symbol in its place.
fn paste(window: u32, size: u32, from: u32, width: u32, symbol: u8) -> u32
    requires width { width ≤ 8 }
    requires size { size ≤ 16 }
    requires inside { from + width ≤ size }
    requires window { window < 2 ^ size }
    ensures bits { bits_of size result ≡ with_symbol from width symbol (bits_of size window) }
    ensures fits { result < 2 ^ size }
{
    let low = size - from - width;
    let unit = 1 << low;
    let values = 1 << width;
    let high = window >> (low + width);
    let middle = u32::from(symbol) % values;
    (high * values + middle) * unit + window % unit
}

// The window of two bytes.
fn pair(first: u8, second: u8) -> u32
    ensures value { result ≡ first * 256 + second }
    ensures low { result % 256 ≡ second }
{
    u32::from(first) * 256 + u32::from(second)
}

/// The symbol of `width` bits at bit `at` of bytes.
pub fn packed_at(width: u32, at: usize, bytes: &[u8]) -> u8
    requires width_least { 1 ≤ width }
    requires width_most { width ≤ 8 }
    requires inside { at + width ≤ 8 * length bytes.now }
    ensures { result ≡ symbol_in at width (bits_of_symbols 8 bytes.now) }
{
    let byte = at / 8;
    let from = (at % 8) as u32;
    if from + width <= 8 {
        cut(u32::from(bytes[byte]), 8, from, width)
    } else {
        cut(pair(bytes[byte], bytes[byte + 1]), 16, from, width)
    }
}

/// Writes the low bits of a symbol, `width` of them, at bit `at` of bytes.
pub fn put_packed(width: u32, at: usize, symbol: u8, bytes: &mut [u8])
    requires width_least { 1 ≤ width }
    requires width_most { width ≤ 8 }
    requires inside { at + width ≤ 8 * length bytes.old }
    ensures { bits_of_symbols 8 bytes.new
        ≡ with_symbol at width symbol (bits_of_symbols 8 bytes.old) }
{
    let byte = at / 8;
    let from = (at % 8) as u32;
    if from + width <= 8 {
        bytes[byte] = paste(u32::from(bytes[byte]), 8, from, width, symbol) as u8;
    } else {
        let window = paste(pair(bytes[byte], bytes[byte + 1]), 16, from, width, symbol);
        bytes[byte] = (window / 256) as u8;
        bytes[byte + 1] = (window % 256) as u8;
    }
}

/// Stores codewords of symbols of `width` bits packed. Where a symbol has eight bits, they are bytes as they are.
pub fn pack_words(width: usize, n: usize, depth: usize, words: &[u8], group: &mut [u8])
    requires sizes { IsPackedGroup width n depth }
    requires words_long { length words.now ≡ n * depth }
    requires group_long { length group.old ≡ stored_size true width (n * depth) }
    ensures { group.new ≡ stored_group true width n (whole_pieces n words.now) }
{
    if width == 8 {
        spread_words(n, depth, words, group);
    } else {
        pack_symbols(width, n, depth, words, group);
    }
}

/// Gives the blocks of a group of packed symbols. Where a symbol has eight bits, they are bytes as they are.
pub fn unpack_words(width: usize, n: usize, depth: usize, group: &[u8], words: &mut [u8])
    requires sizes { IsPackedGroup width n depth }
    requires group_long { length group.now ≡ stored_size true width (n * depth) }
    requires words_long { length words.old ≡ n * depth }
    ensures { words.new ≡ flat_map (λ word. word) (stored_blocks true width n depth group.now) }
{
    if width == 8 {
        gather_words(n, depth, group, words);
    } else {
        unpack_symbols(width, n, depth, group, words);
    }
}

// Each byte is stored once, and the bits that are left at the end with 0s behind them.
fn pack_symbols(width: usize, n: usize, depth: usize, words: &[u8], group: &mut [u8])
    requires sizes { IsPackedGroup width n depth }
    requires words_long { length words.now ≡ n * depth }
    requires group_long { length group.old ≡ stored_size true width (n * depth) }
    ensures { bits_of_symbols 8 group.new
        ≡ bits_of_symbols width (spread n (whole_pieces n words.now))
        ++ fill_bits width (spread n (whole_pieces n words.now)) }
{
    let mut pending = Pending {
        bits: 0,
        have: 0,
        place: 0,
    };
    for p in 0..n {
        for c in 0..depth {
            pending.put(width as u32, words[c * n + p], group);
        }
    }
    let waiting = pending.have;
    if waiting > 0 {
        pending.put(8 - waiting, 0, group);
    }
}

fn unpack_symbols(width: usize, n: usize, depth: usize, group: &[u8], words: &mut [u8])
    requires sizes { IsPackedGroup width n depth }
    requires group_long { length group.now ≡ stored_size true width (n * depth) }
    requires words_long { length words.old ≡ n * depth }
    ensures { words.new ≡ flat_map (λ word. word) (stored_blocks true width n depth group.now) }
{
    for c in 0..depth {
        for p in 0..n {
            words[c * n + p] = packed_at(width as u32, (p * depth + c) * width, group);
        }
    }
}
