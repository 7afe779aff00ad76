//! A turn of the vote: a member that is not checked gives the working list one more syndrome.

ghost use Rattle.std.specs.Prelude.{ℕ, ◌≡◌, ◌+◌, ◌*◌, ◌<◌, ◌≤◌, ◌^◌, length, All, IsTrue, ◌↔◌};
ghost use Rattle.order_theory.specs.Basis.{rank_at as rank_of, IsWord, IsSoundBasis};
ghost use Rattle.product_classes.specs.Table.{AreClassesOf};
ghost use Rattle.product_classes.specs.Values.{AreValues};
ghost use Rattle.vote_core.specs.Reading.{IsRead};
ghost use Rattle.vote_core.specs.Rooms.{IsScratch};
ghost use Rattle.vote_core.specs.Turns.{IsTurn};

use crate::ballot::elect;
use crate::ledger::VoteLine;
use crate::outcome::conclude;
use crate::room::Scratch;
use eval_basis::EvalBasis;
use gf_field::Field;
use product_classes::Classes;
use vote_matrix::GrowingRows;

/// Votes on member k: the working list takes on the syndrome that wins.
pub fn turn<F: Field>(
    basis: &EvalBasis<F>,
    classes: &Classes,
    k: u32,
    list: &mut [u8],
    values: &mut [u8],
    matrix: &mut GrowingRows,
    scratch: &mut Scratch,
) -> VoteLine
    requires classes { AreClassesOf basis.now classes.now }
    requires word { IsWord basis.now.bits basis.now.n list.old }
    requires member { k < basis.now.n }
    requires room { classes.now.size ≤ length values.old }
    requires symbols { All (λ x. x < 2 ^ basis.now.bits) values.old }
    requires values { AreValues basis.now classes.now list.old values.old (rank_of basis.now k) }
    requires read { IsRead basis.now list.old matrix.old (rank_of basis.now k) basis.now.n }
    requires scratch { IsScratch basis.now scratch.old }
    ensures turn { IsTurn basis.now list.old k list.new result }
    ensures word { IsWord basis.now.bits basis.now.n list.new }
    ensures symbols { All (λ x. x < 2 ^ basis.now.bits) values.new }
    ensures values { AreValues basis.now classes.now list.new values.new (rank_of basis.now k) }
    ensures read { IsRead basis.now list.new matrix.new (rank_of basis.now k + 1) 0 }
    ensures count { matrix.new.count ≡ matrix.old.count }
    ensures most { matrix.new.most ≡ matrix.old.most }
    ensures scratch { IsScratch basis.now scratch.new }
    ensures sound { IsSoundBasis basis.now }
{
    // For its facts: the sum is below this number.
    basis.count();
    let sum = basis.rank_at(k);
    classes.write_sums(basis, list, sum, sum + 1, &mut scratch.row, values);
    let vote = elect(basis, classes, list, k, values, matrix, scratch);
    conclude(basis, k, vote.winner, list, &scratch.votes, matrix);
    VoteLine {
        label: basis.label(k),
        pairs: basis.pairs(k),
        right: vote.votes,
        wrong: vote.candidates - vote.votes,
    }
}

/// Whether a line rules out each error of at most t symbols: of such a one the pairs and the wrong candidates together are no
/// more than the right ones and 2t.
pub fn excludes(line: VoteLine, t: u32) -> bool
    ensures { IsTrue result ↔ (line.right + 2 * t < line.pairs + line.wrong) }
{
    u64::from(line.right) + 2 * u64::from(t) < u64::from(line.pairs) + u64::from(line.wrong)
}
