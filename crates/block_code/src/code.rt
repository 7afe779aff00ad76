//! The code and its calls.

ghost use Rattle.std.specs.Prelude.{ℕ, ◌≡◌, ◌+◌, ◌<◌, ◌≤◌, ◌*◌, [], List, All, length, count_by, slice_index, IfOk, Err};
ghost use Rattle.order_theory.specs.Basis.{IsWord, IsSoundBasis};
ghost use Rattle.order_theory.specs.Codes.{IsRadius};
ghost use Rattle.order_domain.specs.Domain.{AreOn};
ghost use Rattle.eval_basis.specs.Rules.{checked_by};
ghost use Rattle.eval_basis.specs.Built.{IsBuilt};
ghost use Rattle.eval_basis.specs.Members.{AreAllChecked};
ghost use Rattle.block_theory.specs.Checks.{message_places, IsWordOf};
ghost use Rattle.product_classes.specs.Table.{AreClassesOf, HasColumns};
ghost use Rattle.block_theory.specs.Blocks.{word_of};
ghost use Rattle.block_code.specs.Benches.{values_of};
ghost use Rattle.block_code.specs.Compiled.{checks_in, IsMade, numbers_of};
ghost use Rattle.block_code.specs.Decoding.{IsVerdict, ledger_after};

use crate::bench::Bench;
use ag_pool::Workers;
use coded_block::Verdict;
use eval_basis::{CheckRule, Checked, EvalBasis};
use gf_field::Field;
use order_bound::bound;
use order_domain::{OrderDomain, Points};
use parity_space::Parity;
use product_classes::Classes;
use std::alloc::{AllocError, Global};
use std::marker::Model;
use std::thread::Threads;

/// Why there is no code.
#[derive(Clone, Copy, PartialEq, Eq, Debug)]
pub enum CompileFault {
    NoMemory,
    /// Every member is checked, so that the only codeword is zero.
    NothingFree,
}

impl From<AllocError> for CompileFault {
    ghost use Rattle.block_code.specs.declared.code.CompileFault.TheVariants.{NoMemory};

    ghost from_gives = { λ _ e. e ≡ NoMemory };

    fn from(_e: AllocError) -> CompileFault {
        CompileFault::NoMemory
    }
}

/// A code of blocks of n symbols: the lists that are orthogonal to the checked members of a basis. Contracts see the basis,
/// a mark for each checked member, the order bound and the radius.
///
/// Threads may share it. No call takes memory, but `compile` and `bench`.
#[derive(Drop)]
pub struct Code<F: Field> {
    basis: EvalBasis<F>,
    checked: Checked,
    parity: Parity,
    classes: Classes,
    bound: u32,
    radius: u32,
}

impl<F: Field> Model for Code<F> {
    ghost use Rattle.block_code.specs.Compiled.{Compiled, IsKept};

    ghost Value = { Compiled };

    ghost view = { λ s. record {
      basis = s.basis;
      marks = s.checked;
      bound = s.bound;
      radius = s.radius;
    } };

    ghost invariant = { λ s. IsKept s.parity s.classes (record {
      basis = s.basis;
      marks = s.checked;
      bound = s.bound;
      radius = s.radius;
    }) };
}

// The greatest number whose double is below the bound.
fn radius_of(bound: u32) -> u32
    requires { 1 ≤ bound }
    ensures { IsRadius bound result }
{
    (bound - 1) / 2
}

// The index below which the sums of all members are known: that of the first member that is not checked.
fn known_below<F: Field>(basis: &EvalBasis<F>, checked: &Checked) -> u32
    requires { length checked.now ≡ basis.now.n }
    ensures { result ≤ basis.now.count }
{
    for k in 0..basis.n() {
        if !checked.holds(k) {
            return basis.rank_at(k);
        }
    }
    basis.count()
}

// The first position that is no message place, n where all are.
fn first_check(places: &[u32], n: u32) -> u32
    ensures { result ≤ n }
{
    for p in 0..n {
        if places.get(p as usize) != Some(&p) {
            return p;
        }
    }
    n
}

impl<F: Field> Code<F> {
    /// The code of a domain at distinct points of it, one or more, with the members checked that the rule names. The field
    /// has the domain's bits. NothingFree: the rule checks every member. NoMemory may come in place of any answer.
    pub fn compile<X: Threads + Sync, D: OrderDomain>(
        rt: &X,
        alloc: Global,
        field: F,
        dom: &D,
        points: &Points,
        rule: CheckRule,
        workers: Workers,
    ) -> Result<Code<F>, CompileFault>
    where
        F: Sync,
        requires bits { F.bits_of field ≡ (D.domain dom.now).bits }
        requires some_points { 1 ≤ length points.now }
        requires on { AreOn (D.domain dom.now) (F.modulus_of field) points.now }
        ensures basis { IfOk result (λ c. IsBuilt (D.domain dom.now)
            (F.modulus_of field) points.now c.basis) }
        ensures marks { IfOk result (λ c. c.marks ≡ checked_by c.basis rule) }
        ensures made { IfOk result IsMade }
        ensures some_free { IfOk result (λ c. AreAllChecked (D.domain dom.now)
            (F.modulus_of field) points.now rule → ⊥) }
        ensures nothing_free { result ≡ Err CompileFault.NothingFree
            → AreAllChecked (D.domain dom.now) (F.modulus_of field) points.now rule }
    {
        let basis = EvalBasis::build(rt, alloc, field, dom, points, workers)?;
        let checked = Checked::new(alloc, &basis, rule)?;
        let Some(least) = bound(&basis, &checked) else {
            return Err(CompileFault::NothingFree);
        };
        let parity = Parity::build(alloc, &basis, &checked)?;
        let radius = radius_of(least);
        let limit = known_below(&basis, &checked);
        let first = first_check(parity.places(), basis.n());
        let classes = Classes::new(alloc, &basis, limit, first)?;
        Ok(Code {
            basis,
            checked,
            parity,
            classes,
            bound: least,
            radius,
        })
    }

    /// The symbols of a codeword.
    pub fn n(&self) -> u32
        ensures value { result ≡ self.now.basis.n }
        ensures made { IsMade self.now }
    {
        self.basis.n()
    }

    /// The symbols of a message: one for each member that is not checked.
    pub fn k(&self) -> u32
        ensures value { result ≡ length (message_places (checks_in self.now)) }
        ensures free { result + count_by (λ m. m) self.now.marks ≡ self.now.basis.n }
    {
        self.parity.places().len() as u32
    }

    /// The bits of a symbol.
    pub fn bits(&self) -> u32
        ensures { result ≡ self.now.basis.bits }
    {
        self.basis.bits()
    }

    /// The order bound: a codeword other than zero has at least so many symbols that are not 0.
    pub fn bound(&self) -> u32
        ensures value { result ≡ self.now.bound }
        ensures made { IsMade self.now }
    {
        self.bound
    }

    /// The number of changed bytes that decoding a block corrects: the greatest whose double is below the bound.
    pub fn radius(&self) -> u32
        ensures value { result ≡ self.now.radius }
        ensures made { IsMade self.now }
    {
        self.radius
    }

    /// The basis, with the members in rising order.
    pub fn basis(&self) -> &EvalBasis<F>
        ensures value { result.now ≡ self.now.basis }
        ensures made { IsMade self.now }
    {
        &self.basis
    }

    /// Which members are checked.
    pub fn checked(&self) -> &Checked
        ensures value { result.now ≡ self.now.marks }
        ensures made { IsMade self.now }
    {
        &self.checked
    }

    /// The message places, and the test of a word.
    pub fn parity(&self) -> &Parity
        ensures { result.now ≡ checks_in self.now }
    {
        &self.parity
    }

    // The classes of equal products of the basis.
    pub(crate) fn classes(&self) -> &Classes
        ensures classes { AreClassesOf self.now.basis result.now }
        ensures columns { HasColumns self.now.basis result.now }
        ensures few { result.now.size ≤ values_of self.now.basis.n }
    {
        // For its facts: there are few.
        self.classes.len();
        &self.classes
    }

    /// The field of the basis.
    pub fn field(&self) -> &F
        ensures bits { F.bits_of result.now ≡ self.now.basis.bits }
        ensures modulus { F.modulus_of result.now ≡ self.now.basis.modulus }
    {
        self.basis.field()
    }

    /// Makes `word` the codeword that has `msg`, k symbols, at the message places. There is exactly one.
    pub fn encode_block(&self, msg: &[u8], word: &mut [u8])
        requires message { IsWord self.now.basis.bits
            (length (message_places (checks_in self.now))) msg.now }
        requires positions { length word.old ≡ self.now.basis.n }
        ensures word { IsWordOf (checks_in self.now) msg.now word.new }
        ensures only { (x : List ℕ) → IsWordOf (checks_in self.now) msg.now x → x ≡ word.new }
        ensures value { word.new ≡ word_of (checks_in self.now) msg.now }
    {
        self.parity.complete(self.basis.field(), msg, word);
    }

    /// Makes `word` the codeword near the n bytes of `got`: the one that differs from them in at most `radius` bytes, of
    /// which a byte that is right in its low bits alone is one. Beyond: there is none, and `word` is the low bits. The
    /// bench is for this code.
    pub fn decode_block(&self, bench: &mut Bench, got: &[u8], word: &mut [u8]) -> Verdict
        requires fits { bench.old.numbers ≡ numbers_of self.now }
        requires received { length got.now ≡ self.now.basis.n }
        requires positions { length word.old ≡ self.now.basis.n }
        ensures verdict { IsVerdict self.now got.now word.new result }
        ensures bench { bench.new
            ≡ record bench.old { ledger = ledger_after self.now got.now word.new result } }
        ensures majority { All (λ line. line.wrong < line.right) bench.new.ledger }
        ensures made { IsMade self.now }
    {
        bench.decode(self, got, word)
    }

    /// As `decode_block`, but no ledger is made: the bench has none afterwards. It costs in proportion to the error, but
    /// for errors that it takes a vote to find.
    pub fn repair_block(&self, bench: &mut Bench, got: &[u8], word: &mut [u8]) -> Verdict
        requires fits { bench.old.numbers ≡ numbers_of self.now }
        requires received { length got.now ≡ self.now.basis.n }
        requires positions { length word.old ≡ self.now.basis.n }
        ensures verdict { IsVerdict self.now got.now word.new result }
        ensures bench { bench.new ≡ record bench.old { ledger = [] } }
        ensures made { IsMade self.now }
    {
        bench.repair(self, got, word)
    }
}
