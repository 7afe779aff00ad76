//! The voter beside a search of all words that are near, on short codes: every error of at most three symbols, so also those
//! with one symbol more than the codes correct.

ghost use Rattle.std.specs.Prelude.{◌≡◌, ◌<◌, length, IfOk};

use crate::voters::{Kind, SHORT, STRONG, SmallCode, WEAK, small_code, voter_says};
use search_decoder::near_by_search;
use std::alloc::{AllocError, Global};
use std::thread::Threads;

// Whether the voter says of a word what the search says.
fn agrees(alloc: Global, code: &SmallCode, got: &[u8]) -> Result<bool, AllocError>
    requires { length got.now ≡ code.now.basis.n }
{
    let says = voter_says(alloc, code, got)?;
    let mut word = vec![in alloc; 0; got.len()]?;
    if near_by_search(&code.basis, &code.checked, code.t, got, &mut word) {
        Ok(says.leads_to(got, &word))
    } else {
        Ok(says.is_far())
    }
}

// The word with its symbols at three places changed by the parts of a number below 64.
fn changed(
    alloc: Global,
    word: &[u8],
    p: usize,
    q: usize,
    r: usize,
    change: u8,
) -> Result<Vec<u8>, AllocError>
    requires first { p < length word.now }
    requires second { q < length word.now }
    requires third { r < length word.now }
    ensures { IfOk result (λ v. length v.items ≡ length word.now) }
{
    let mut got = word.to_vec(alloc)?;
    got[p] ^= change % 4;
    got[q] ^= change / 4 % 4;
    got[r] ^= change / 16;
    Ok(got)
}

// Whether both agree on each word that differs from this one at these places at most.
fn agree_at_places(
    alloc: Global,
    code: &SmallCode,
    word: &[u8],
    p: usize,
    q: usize,
    r: usize,
) -> Result<bool, AllocError>
    requires word { length word.now ≡ code.now.basis.n }
    requires first { p < length word.now }
    requires second { q < length word.now }
    requires third { r < length word.now }
{
    for change in 0..64u8 {
        let got = changed(alloc, word, p, q, r, change)?;
        if !agrees(alloc, code, &got)? {
            return Ok(false);
        }
    }
    Ok(true)
}

// Whether both agree on each word that differs from this one at three places at most.
fn agree_around(alloc: Global, code: &SmallCode, word: &[u8]) -> Result<bool, AllocError>
    requires { length word.now ≡ code.now.basis.n }
{
    for p in 2..word.len() {
        for q in 1..p {
            for r in 0..q {
                if !agree_at_places(alloc, code, word, p, q, r)? {
                    return Ok(false);
                }
            }
        }
    }
    Ok(true)
}

// Whether both agree around a word, where it is as long as those of the code.
fn agree_at(alloc: Global, code: &SmallCode, word: &[u8]) -> Option<bool> {
    if word.len() != code.basis.n() as usize {
        return None;
    }
    agree_around(alloc, code, word).ok()
}

// The same of a word of a kind of code.
fn agree<X: Threads + Sync>(rt: &X, alloc: Global, kind: Kind, word: &[u8]) -> Option<bool> {
    let code = small_code(rt, alloc, kind)?;
    agree_at(alloc, &code, word)
}

#[test]
fn agrees_with_the_search_of_all_near_words(rt: HostRuntime) {
    // a codeword of each kind
    let rows: [(Kind, &[u8]); 3] = [
        (STRONG, &[2, 0, 0, 2, 3, 1, 2, 0]),
        (SHORT, &[0, 1, 0, 3, 2]),
        (WEAK, &[1, 2, 3, 0, 0, 0, 0, 0]),
    ];
    for (kind, word) in rows {
        assert!(rt; agree(&rt, rt.alloc(), kind, word) == Some(true));
    }
}
