//! What follows of a vote.

ghost use Rattle.std.specs.Prelude.{ℕ, ◌≡◌, ◌+◌, ◌<◌, ◌^◌, length};
ghost use Rattle.order_theory.specs.Basis.{times, rank_at as rank_of, IsWord};
ghost use Rattle.order_theory.specs.Course.{IsMoved};
ghost use Rattle.vote_core.specs.Reading.{IsRead};
ghost use Rattle.vote_core.specs.Votes.{AreVotes};

use crate::course::take_on;
use eval_basis::EvalBasis;
use gf_field::Field;
use vote_matrix::GrowingRows;

/// Gives the working list the syndrome that won on member k, and settles the candidates that voted for it: they keep the
/// rank, so no row is reduced for them.
pub fn conclude<F: Field>(
    basis: &EvalBasis<F>,
    k: u32,
    winner: u8,
    list: &mut [u8],
    votes: &[Option<u8>],
    matrix: &mut GrowingRows,
)
    requires word { IsWord basis.now.bits basis.now.n list.old }
    requires member { k < basis.now.n }
    requires winner { winner < 2 ^ basis.now.bits }
    requires long { length votes.now ≡ basis.now.n }
    requires read { IsRead basis.now list.old matrix.old (rank_of basis.now k) basis.now.n }
    requires votes { AreVotes basis.now list.old k votes.now basis.now.n }
    ensures moved { IsMoved (times basis.now) basis.now list.old k winner list.new }
    ensures word { IsWord basis.now.bits basis.now.n list.new }
    ensures read { IsRead basis.now list.new matrix.new (rank_of basis.now k + 1) 0 }
    ensures count { matrix.new.count ≡ matrix.old.count }
    ensures most { matrix.new.most ≡ matrix.old.most }
{
    take_on(basis, k, winner, list);
    for i in 0..basis.n() {
        if votes[i as usize] == Some(winner) {
            matrix.settle_kept(i);
        }
    }
}
