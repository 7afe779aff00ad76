//! The plain decoder: it tries all words near what was received. It is the definition of near as a program, far too slow
//! for use; faster decoders are compared with it in tests. Start at `near_by_search`.
#![tactic(auto)]

ghost use Rattle.std.specs.Prelude.{ℕ, slice_index, ◌≡◌, ◌≢◌, ◌<◌, ◌≤◌, ◌+◌, ◌^◌, ◌↔◌, List, length, drop, All, IsTrue, MatchBool};
ghost use Rattle.order_theory.specs.Basis.{times};
ghost use Rattle.order_theory.specs.Errors.{syndrome as syndrome_of};
ghost use Rattle.order_theory.specs.Codes.{IsCodeword, IsNear};
ghost use Rattle.search_decoder.specs.Words.{SameBefore, IsFinish};

use eval_basis::{Checked, EvalBasis};
use gf_field::Field;
use gf_linear::dot;

/// The product of the word and the vector of member k.
fn syndrome<F: Field>(basis: &EvalBasis<F>, word: &[u8], k: u32) -> u8
    requires long { length word.now ≡ basis.now.n }
    requires symbols { All (λ x. x < 2 ^ basis.now.bits) word.now }
    requires member { k < basis.now.n }
    ensures { result ≡ syndrome_of (times basis.now) basis.now word.now k }
{
    dot(basis.field(), word, basis.vector(k))
}

/// Whether the word is in the code: orthogonal to the vector of each checked member.
fn is_codeword<F: Field>(basis: &EvalBasis<F>, checked: &Checked, word: &[u8]) -> bool
    requires marks { length checked.now ≡ basis.now.n }
    requires long { length word.now ≡ basis.now.n }
    requires symbols { All (λ x. x < 2 ^ basis.now.bits) word.now }
    ensures { IsTrue result ↔ IsCodeword (times basis.now) basis.now checked.now word.now }
{
    for k in 0..basis.n() {
        if checked.holds(k) && syndrome(basis, word, k) != 0 {
            return false;
        }
    }
    true
}

/// How often a symbol differs from the byte that came in its place.
fn cost(symbol: u32, byte: u8) -> u32
    ensures same { symbol ≡ byte → result ≡ 0 }
    ensures other { symbol ≢ byte → result ≡ 1 }
{
    if symbol == u32::from(byte) { 0 } else { 1 }
}

/// Looks for a codeword that begins as `word` does before `place`, and differs from `got` at no more than `left` places
/// from there on.
fn finish<F: Field>(
    basis: &EvalBasis<F>,
    checked: &Checked,
    got: &[u8],
    word: &mut [u8],
    place: usize,
    left: u32,
) -> bool
    requires marks { length checked.now ≡ basis.now.n }
    requires got_long { length got.now ≡ basis.now.n }
    requires word_long { length word.old ≡ basis.now.n }
    requires place { place ≤ basis.now.n }
    requires symbols { (p : ℕ) → p < place → slice_index word.old p < 2 ^ basis.now.bits }
    ensures front { SameBefore place word.old word.new }
    ensures found { MatchBool result (IsFinish basis.now checked.now got.now word.old place left
        word.new)
        ((x : List ℕ) → IsFinish basis.now checked.now got.now word.old place left x → ⊥) }
{
    if place == got.len() {
        return is_codeword(basis, checked, word);
    }
    let symbols = 1u32 << basis.field().bits();
    for symbol in 0..symbols {
        let price = cost(symbol, got[place]);
        if price <= left {
            word[place] = symbol as u8;
            if finish(basis, checked, got, word, place + 1, left - price) {
                return true;
            }
        }
    }
    false
}

/// Whether there is a codeword at distance at most `t` from the bytes `got`; `word` then becomes one, and else may hold
/// anything. Where 2t is below the order bound there is at most one.
pub fn near_by_search<F: Field>(
    basis: &EvalBasis<F>,
    checked: &Checked,
    t: u32,
    got: &[u8],
    word: &mut [u8],
) -> bool
    requires marks { length checked.now ≡ basis.now.n }
    requires got_long { length got.now ≡ basis.now.n }
    requires word_long { length word.old ≡ basis.now.n }
    ensures near { MatchBool result (IsNear (times basis.now) basis.now checked.now t got.now
        word.new)
        ((x : List ℕ) → IsNear (times basis.now) basis.now checked.now t got.now x → ⊥) }
{
    finish(basis, checked, got, word, 0, t)
}
