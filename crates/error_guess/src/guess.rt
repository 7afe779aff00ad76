//! The guess of the error of a block.

ghost use Rattle.std.specs.Prelude.{ℕ, ◌≡◌, ◌+◌, ◌-◌, ◌*◌, ◌<◌, ◌≤◌, ◌^◌, length, All, IfOk, IsTrue};
ghost use Rattle.order_theory.specs.Basis.{IsWord};
ghost use Rattle.block_theory.specs.Checks.{message_places};
ghost use Rattle.error_guess.specs.Rooms.{IsRoom};

use crate::functions::narrow_zeros;
use crate::system::{add_solution, list_unknowns, mark_equations, solve};
use eval_basis::EvalBasis;
use gf_field::Field;
use parity_space::Parity;
use std::alloc::{AllocError, Global};
use std::marker::Model;
use vote_matrix::GrowingRows;

/// What a guess works in.
#[derive(Drop)]
pub struct Room {
    /// The equations of an unknown.
    pub line: Vec<u8>,
    /// The symbols at the unknowns.
    pub solution: Vec<u8>,
    /// The numbers of the message places that are zeros.
    pub unknowns: Vec<u32>,
    /// The check positions that are no zeros.
    pub keeps: Vec<bool>,
    /// The equations.
    pub system: GrowingRows,
}

/// When rows of the matrix are taken in.
#[derive(Clone, Copy)]
enum Round {
    /// Before the first election: each row as it comes.
    ByRow,
    /// After an election: all rows, once the last one has come.
    AtEnd,
    /// This round has had its guess.
    Over,
}

/// The room for guesses at the error of one block at a time. Contracts see the field and the length of the basis that it was
/// made for, and how many positions there are from the first check position on.
#[derive(Drop)]
pub struct Guess {
    bits: u32,
    modulus: u32,
    n: u32,
    tail: u32,
    // the error is sought among so many places at the most
    most: u32,
    round: Round,
    // how many pivots the matrix had at the last guess
    tried: Option<u32>,
    // the zeros that all functions so far have
    zeros: Vec<bool>,
    // the values of a function, and the factors that it is made by
    line: Vec<u8>,
    factors: Vec<u8>,
    room: Room,
}

impl Model for Guess {
    ghost use Rattle.error_guess.specs.Guesses.{GuessState};

    ghost Value = { GuessState };

    ghost use Rattle.error_guess.specs.Kept.{state_of, IsKept};

    ghost view = { state_of };

    ghost invariant = { IsKept };
}

/// The first of the rows to be taken in when row i was settled; i + 1 where there is none. The last row is the first one with
/// no entry.
fn first_row(round: Round, matrix: &GrowingRows, i: u32) -> u32
    requires { i < matrix.now.n }
{
    let is_last = matrix.reach(i) == 0;
    match round {
        Round::ByRow => i,
        Round::AtEnd => { if is_last { 0 } else { i + 1 } }
        Round::Over => i + 1,
    }
}

/// Whether row i adds nothing to the rows before it, and its entries determine the function that it tells: they are more than
/// the pivots, or as many where an error within the radius has no further pivot.
fn is_determined(matrix: &GrowingRows, i: u32) -> bool
    requires { i < matrix.now.n }
{
    let (reach, pivots) = (matrix.reach(i), matrix.pivots());
    // the matrix has room for one pivot more than the radius
    let is_full = matrix.most().checked_sub(pivots) == Some(1);
    matrix.adds_nothing(i) && (reach > pivots || is_full && reach == pivots)
}

/// Whether row i tells more than was known at so many pivots.
fn tells(matrix: &GrowingRows, i: u32, tried: Option<u32>) -> bool
    requires { i < matrix.now.n }
{
    tried != Some(matrix.pivots()) && is_determined(matrix, i)
}

/// As `Guess::correct` says, among the places that are zeros.
fn correct_in<F: Field>(
    f: &F,
    parity: &Parity,
    zeros: &[bool],
    differences: &[u8],
    room: &mut Room,
    msg: &mut [u8],
) -> bool
    requires checks { parity.now.bits ≡ F.bits_of f.now }
    requires zeros { length zeros.now ≡ length differences.now }
    requires differences { All (λ x. x < 2 ^ F.bits_of f.now) differences.now }
    requires message { length msg.old ≡ length (message_places parity.now) }
    requires symbols { All (λ x. x < 2 ^ F.bits_of f.now) msg.old }
    requires room { IsRoom (F.bits_of f.now) (F.modulus_of f.now)
        (length differences.now) (length room.old.keeps.items) room.old }
    ensures symbols { All (λ x. x < 2 ^ F.bits_of f.now) msg.new }
    ensures long { length msg.new ≡ length msg.old }
    ensures room { IsRoom (F.bits_of f.now) (F.modulus_of f.now)
        (length differences.now) (length room.old.keeps.items) room.new }
{
    let first = zeros.len() - room.keeps.len();
    mark_equations(parity.places(), zeros, &mut room.keeps);
    let count = list_unknowns(parity.places(), zeros, &mut room.unknowns);
    let unknowns = &room.unknowns[..count];
    if !solve(
        f,
        parity,
        unknowns,
        &room.keeps,
        &differences[first..],
        &mut room.line,
        &mut room.solution,
        &mut room.system,
    ) {
        return false;
    }
    add_solution(f, unknowns, &room.solution, msg);
    true
}

impl Guess {
    ghost use Rattle.error_guess.specs.Guesses.{IsFor, IsMatrixOf};

    /// The room for guesses at errors of at most t symbols. No position before `first` is a check position.
    pub fn new<F: Field>(
        alloc: Global,
        basis: &EvalBasis<F>,
        first: u32,
        t: u32,
    ) -> Result<Guess, AllocError>
        requires first { first ≤ basis.now.n }
        ensures { IfOk result (λ g. g ≡ record {
          bits = basis.now.bits;
          modulus = basis.now.modulus;
          n = basis.now.n;
          tail = basis.now.n - first;
        }) }
    {
        let (bits, modulus, n) = (basis.bits(), basis.modulus(), basis.n());
        let tail = n - first;
        let most = 2 * t.min(n / 2);
        let rows = (most + 1).min(n);
        let size = n as usize;
        Ok(Guess {
            bits,
            modulus,
            n,
            tail,
            most,
            round: Round::ByRow,
            tried: None,
            zeros: vec![in alloc; true; size]?,
            line: vec![in alloc; 0; size]?,
            factors: vec![in alloc; 0; size]?,
            room: Room {
                line: vec![in alloc; 0; tail as usize]?,
                solution: vec![in alloc; 0; rows as usize]?,
                unknowns: vec![in alloc; 0; size]?,
                keeps: vec![in alloc; false; tail as usize]?,
                system: GrowingRows::new(alloc, bits, modulus, tail.max(rows), rows)?,
            },
        })
    }

    /// Begins with a block.
    pub fn begin(&mut self)
        ensures { self.new ≡ self.old }
    {
        self.round = Round::ByRow;
        self.tried = None;
        self.zeros.fill(true);
    }

    /// Begins again with the same block, whose matrix has grown by an election.
    pub fn again(&mut self)
        ensures { self.new ≡ self.old }
    {
        self.round = Round::AtEnd;
        self.zeros.fill(true);
    }

    /// Takes in row i of the matrix of a block, which was settled last. True: few places are left, and it is time to `correct`.
    /// That comes once before the first election, and once after each one that has brought new pivots.
    pub fn narrow<F: Field>(&mut self, basis: &EvalBasis<F>, matrix: &GrowingRows, i: u32) -> bool
        requires fits { IsFor basis.now self.old }
        requires matrix { IsMatrixOf basis.now matrix.now }
        requires row { i < basis.now.n }
        ensures { self.new ≡ self.old }
    {
        for row in first_row(self.round, matrix, i)..i + 1 {
            if self.take_in(basis, matrix, row) {
                return true;
            }
        }
        false
    }

    /// Takes in one row: where it tells something, the zeros of its function alone are left.
    fn take_in<F: Field>(&mut self, basis: &EvalBasis<F>, matrix: &GrowingRows, i: u32) -> bool
        requires fits { IsFor basis.now self.old }
        requires matrix { IsMatrixOf basis.now matrix.now }
        requires row { i < basis.now.n }
        ensures { self.new ≡ self.old }
    {
        if !tells(matrix, i, self.tried) {
            return false;
        }
        let left = narrow_zeros(
            basis,
            matrix,
            i,
            &mut self.factors,
            &mut self.line,
            &mut self.zeros,
        );
        if left > self.most {
            return false;
        }
        let pivots = matrix.pivots();
        self.round = Round::Over;
        self.tried = Some(pivots);
        left >= pivots
    }

    /// Adds to the message of a codeword what a guess says of it. `differences` is the sum of that codeword and the block. False:
    /// there is no guess, and the message is as it was.
    pub fn correct<F: Field>(
        &mut self,
        basis: &EvalBasis<F>,
        parity: &Parity,
        differences: &[u8],
        msg: &mut [u8],
    ) -> bool
        requires fits { IsFor basis.now self.old }
        requires checks { parity.now.bits ≡ basis.now.bits }
        requires differences { IsWord basis.now.bits basis.now.n differences.now }
        requires message { length msg.old ≡ length (message_places parity.now) }
        requires symbols { All (λ x. x < 2 ^ basis.now.bits) msg.old }
        ensures symbols { All (λ x. x < 2 ^ basis.now.bits) msg.new }
        ensures long { length msg.new ≡ length msg.old }
        ensures kept { self.new ≡ self.old }
    {
        correct_in(
            basis.field(),
            parity,
            &self.zeros,
            differences,
            &mut self.room,
            msg,
        )
    }
}
