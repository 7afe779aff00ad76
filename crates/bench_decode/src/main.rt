//! Decodes one word of a Hermitian code again and again, after so many of its symbols were changed, and prints what the
//! votes gave. `bench/vote/run` times it.
#![tactic(auto)]

ghost use Rattle.std.specs.Prelude.{ℕ, ◌≡◌, ◌≢◌, ◌+◌, ◌*◌, ◌<◌, ◌≤◌, length, get_or, IsTrue, IfOk, IfSome, false};
ghost use Rattle.order_theory.specs.Codes.{marked, IsBound};
ghost use Rattle.vote_core.specs.Voters.{Fits};

use ag_pool::Workers;
use anyhow::{Context, Result, bail, ensure};
use cab_curve::{CabDomain, Curve, Term};
use eval_basis::{CheckRule, Checked, EvalBasis};
use gf_field::{Field, PolyField};
use gf_tables::TableField;
use order_domain::Points;
use std::alloc::Global;
use std::env;
use std::env::Env;
use std::thread::Threads;
use vote_core::{Found, VoteLine, Voter};

// The code of the curve `y^a + y = x^(a+1)` over the field of a^2 elements, at all its points.
#[derive(Clone, Copy)]
struct Sizes {
    bits: u32,
    modulus: u32,
    a: u32,
    // the greatest weight that is checked, and how many changes are corrected
    weight: u32,
    radius: u32,
    ghost few_bits: { bits ≤ 8 },
    ghost small: { a < 100 },
    ghost near: { radius < 1000 },
}

impl Sizes {
    fn read(name: &str) -> Option<Sizes> {
        match name {
            "small" => Some(Sizes {
                bits: 2,
                modulus: 7,
                a: 2,
                weight: 5,
                radius: 2,
            }),
            "middle" => Some(Sizes {
                bits: 4,
                modulus: 19,
                a: 4,
                weight: 31,
                radius: 10,
            }),
            "large" => Some(Sizes {
                bits: 6,
                modulus: 67,
                a: 8,
                weight: 255,
                radius: 100,
            }),
            _ => None,
        }
    }
}

// A member that is not checked.
fn free_member<F: Field>(basis: &EvalBasis<F>, checked: &Checked) -> Option<u32>
    requires { length checked.now ≡ basis.now.n }
    ensures inside { IfSome result (λ k. k < basis.now.n) }
    ensures free { IfSome result (λ k. marked checked.now k ≡ false) }
{
    for k in 0..basis.n() {
        if !checked.holds(k) {
            return Some(k);
        }
    }
    None
}

// Whether each member that is not checked has more pairs than twice the radius.
fn corrects<F: Field>(basis: &EvalBasis<F>, checked: &Checked, radius: u32) -> bool
    requires marks { length checked.now ≡ basis.now.n }
    requires radius { radius < 1000 }
    ensures { IsTrue result → IsBound basis.now checked.now (2 * radius + 1) }
{
    for k in 0..basis.n() {
        if !checked.holds(k) {
            if basis.pairs(k) <= 2 * radius {
                return false;
            }
        }
    }
    true
}

// Changes so many symbols of a word, evenly spread.
fn damage(word: &mut [u8], changes: usize)
    ensures { length word.new ≡ length word.old }
{
    let n = word.len();
    if changes == 0 || n < changes {
        return;
    }
    let step = n / changes;
    for q in 0..changes {
        word[q * step] ^= (q % 3 + 1) as u8;
    }
}

// Adds the dual lists of all members that are not checked: together they are a codeword.
fn add_codeword<F: Field>(basis: &EvalBasis<F>, checked: &Checked, word: &mut [u8])
    requires marks { length checked.now ≡ basis.now.n }
    requires room { length word.old ≡ basis.now.n }
    ensures { length word.new ≡ basis.now.n }
{
    for k in 0..basis.n() {
        if !checked.holds(k) {
            let dual = basis.dual(k);
            for p in 0..word.len() {
                word[p] ^= dual[p];
            }
        }
    }
}

// The sums of the right and of the wrong candidates.
fn sums(lines: &[VoteLine]) -> (u32, u32) {
    let mut right: u32 = 0;
    let mut wrong: u32 = 0;
    for line in lines {
        right = right.wrapping_add(line.right);
        wrong = wrong.wrapping_add(line.wrong);
    }
    (right, wrong)
}

// Decodes a word so often, each time to the same error; the sums of its ledger.
fn decode<F: Field>(
    basis: &EvalBasis<F>,
    voter: &mut Voter,
    got: &[u8],
    err: &mut [u8],
    times: u32,
) -> Option<(u32, u32)>
    requires fits { Fits voter.old basis.now }
    requires received { length got.now ≡ basis.now.n }
    requires room { length err.old ≡ basis.now.n }
{
    for _ in 0..times {
        match voter.find(basis, got, err) {
            Found::Error => {}
            Found::Far => return None,
        }
    }
    Some(sums(voter.ledger()))
}

fn number(words: &[String], place: usize) -> Result<u32> {
    let word = words.get(place).context("a word is missing")?;
    word.parse::<u32>()
        .context(format_args!("reading {word:?}"))
}

// The basis of the curve at all its points.
fn basis_of<X: Threads + Sync>(
    rt: &X,
    alloc: Global,
    f: TableField,
    sizes: Sizes,
) -> Result<EvalBasis<TableField>>
    requires { f.bits ≡ sizes.bits }
{
    let terms = [
        Term {
            i: 0,
            j: sizes.a,
            c: 1,
        },
        Term { i: 0, j: 1, c: 1 },
        Term {
            i: sizes.a + 1,
            j: 0,
            c: 1,
        },
    ];
    let Ok(curve) = Curve::new(alloc, &f, sizes.a, sizes.a + 1, &terms) else {
        bail!("no curve");
    };
    let points = Points::of(curve.all_points(alloc, &f)?).context("too many points")?;
    let domain = CabDomain::new(alloc, curve, sizes.bits)?;
    ensure!(!points.is_empty(), "no points");
    ensure!(points.are_on(&f, &domain), "no points of the curve");
    Ok(EvalBasis::build(rt, alloc, f, &domain, &points, Workers::ONE)?)
}

// Decodes a codeword with so many changes so often.
fn run<X: Threads + Sync>(
    rt: &X,
    alloc: Global,
    sizes: Sizes,
    changes: u32,
    times: u32,
) -> Result<(u32, u32)> {
    let field = PolyField::new(sizes.bits, sizes.modulus).context("irreducible")?;
    let f = TableField::new(alloc, &field)?;
    let basis = basis_of(rt, alloc, f, sizes)?;
    let rule = CheckRule::AtMost {
        weight: sizes.weight,
    };
    let checked = Checked::new(alloc, &basis, rule)?;
    free_member(&basis, &checked).context("all are checked")?;
    ensure!(corrects(&basis, &checked, sizes.radius), "few pairs");
    let size = basis.n() as usize;
    let mut got = vec![in alloc; 0; size]?;
    let mut err = vec![in alloc; 0; size]?;
    add_codeword(&basis, &checked, &mut got);
    damage(&mut got, changes as usize);
    let mut voter = Voter::new(alloc, &basis, &checked, sizes.radius)?;
    decode(&basis, &mut voter, &got, &mut err, times).context("too many changes")
}

fn main(rt: HostRuntime) -> Result<()> {
    let alloc = rt.alloc();
    let mut words = Vec::new(alloc);
    for word in env::args(&rt)?.skip(1) {
        words.push(word)?;
    }
    let name = words.first().context("a word is missing")?;
    let sizes = Sizes::read(name).context("no such code")?;
    let changes = number(&words, 1)?;
    let times = number(&words, 2)?;
    let (right, wrong) = run(&rt, alloc, sizes, changes, times)?;
    println!(rt; "{name} {changes} changes: {right} right, {wrong} wrong")?;
    Ok(())
}

#[cfg(test)]
mod tests {
    use super::*;

    // A line of a ledger, as numbers.
    fn numbers(line: &VoteLine) -> [u32; 4] {
        [line.label, line.pairs, line.right, line.wrong]
    }

    // The answer on a word of the small code, and its ledger.
    fn find<X: Threads + Sync>(
        rt: &X,
        alloc: Global,
        got: &[u8],
        err: &mut [u8],
    ) -> Result<(Found, Vec<[u32; 4]>)> {
        let sizes = Sizes::read("small").context("a code")?;
        let field = PolyField::new(sizes.bits, sizes.modulus).context("irreducible")?;
        let f = TableField::new(alloc, &field)?;
        let basis = basis_of(rt, alloc, f, sizes)?;
        let rule = CheckRule::AtMost {
            weight: sizes.weight,
        };
        let checked = Checked::new(alloc, &basis, rule)?;
        free_member(&basis, &checked).context("all are checked")?;
        ensure!(corrects(&basis, &checked, sizes.radius), "few pairs");
        let size = basis.n() as usize;
        ensure!(got.len() == size, "another length");
        ensure!(err.len() == size, "another length");
        let mut voter = Voter::new(alloc, &basis, &checked, sizes.radius)?;
        let found = voter.find(&basis, got, err);
        let mut ledger = Vec::new(alloc);
        for line in voter.ledger() {
            ledger.push(numbers(line))?;
        }
        Ok((found, ledger))
    }

    const ALL_RIGHT: [[u32; 4]; 3] = [[6, 5, 5, 0], [7, 6, 6, 0], [9, 8, 8, 0]];

    // Words, with the error of each and its ledger.
    const NEAR: [([u8; 8], [u8; 8], [[u32; 4]; 3]); 7] = [
        ([2, 0, 0, 2, 3, 1, 2, 0], [0; 8], ALL_RIGHT),
        ([1, 0, 0, 1, 2, 3, 1, 0], [0; 8], ALL_RIGHT),
        ([1, 2, 0, 3, 0, 3, 0, 3], [0; 8], ALL_RIGHT),
        // one wrong vote loses
        (
            [2, 0, 1, 0, 3, 1, 2, 0],
            [0, 0, 1, 2, 0, 0, 0, 0],
            [[6, 5, 2, 1], [7, 6, 2, 0], [9, 8, 4, 0]],
        ),
        (
            [2, 0, 0, 0, 3, 1, 255, 0],
            [0, 0, 0, 2, 0, 0, 1, 0],
            [[6, 5, 1, 0], [7, 6, 2, 0], [9, 8, 4, 0]],
        ),
        // high bits count for nothing
        ([6, 0, 0, 2, 3, 1, 2, 0], [0; 8], ALL_RIGHT),
        (
            [6, 0, 0, 0, 3, 1, 255, 0],
            [0, 0, 0, 2, 0, 0, 1, 0],
            [[6, 5, 1, 0], [7, 6, 2, 0], [9, 8, 4, 0]],
        ),
    ];

    #[test]
    fn finds_errors_and_their_ledgers(rt: HostRuntime) {
        for (got, expected, lines) in NEAR.iter() {
            let mut err = [7; 8];
            let (found, ledger) = find(&rt, rt.alloc(), got, &mut err).expect(&rt, "memory");
            assert_eq!(rt; found, Found::Error);
            assert_eq!(rt; &err, expected);
            assert_eq!(rt; ledger.as_slice(), &lines[..]);
        }
    }

    #[test]
    fn finds_no_error_in_a_word_that_is_far(rt: HostRuntime) {
        let mut err = [7; 8];
        let got = [1, 1, 1, 0, 0, 0, 0, 0];
        let (found, ledger) = find(&rt, rt.alloc(), &got, &mut err).expect(&rt, "memory");
        assert_eq!(rt; found, Found::Far);
        assert_eq!(rt; err, [0; 8]);
        assert_eq!(rt; ledger.len(), 0);
    }
}
