//! The members of a basis: the functions of a domain that are, at given points, no combination of the functions before
//! them.

ghost use Rattle.std.specs.Prelude.{ℕ, List, [], ◌≡◌, ◌+◌, ◌*◌, ◌<◌, ◌≤◌, ◌^◌, false, length, slice_index, get_or, All, IfOk, IsTrue};
ghost use Rattle.field_theory.specs.Sums.{unit};
ghost use Rattle.gf_theory.specs.Field.{gf_mul};
ghost use Rattle.gf_linear.specs.Cells.{cell};
ghost use Rattle.order_domain.specs.Domain.{ArePoints};
ghost use Rattle.order_domain.specs.Values.{value_at};
ghost use Rattle.eval_basis.specs.Found.{AreMembers, AreMarked, AreFirstLists, AreSoFar, AreWaiting, ArePending, AreSearched};
ghost use Rattle.eval_basis.specs.Lists.{AreLists, AreTakes, lists_after};

use crate::bands::{change_lists, multiply_band};
use crate::elimination::{first_order, in_order, step, unit_lists};
use crate::takes::{Takes, no_takes, take_all};
use ag_pool::Workers;
use gf_field::Field;
use order_domain::{OrderDomain, Point, Points};
use std::alloc::{AllocError, Global};
use std::thread::Threads;

/// The members' indices, their values row by row, and beside each its dual list.
#[derive(Drop)]
pub struct Members {
    pub ranks: Vec<u32>,
    pub vectors: Vec<u8>,
    pub duals: Vec<u8>,
}

// The functions after the first that others are looked for as multiples by: enough for the coordinates of a point.
const COORDINATES: u32 = 3;

// So many functions wait for the lists at most. The lists are changed for all of them at once.
const BAND: usize = 64;

/// With fewer points the calling thread does all rows: a start of threads takes as long as they save.
pub const SHARED_POINTS: usize = 512;

/// The workers for so many points.
pub fn helpers(n: usize, workers: Workers) -> Workers {
    if n < SHARED_POINTS {
        Workers::ONE
    } else {
        workers
    }
}

/// Writes the values of function i at the points.
pub fn evaluate<F: Field, D: OrderDomain>(
    f: &F,
    dom: &D,
    i: u32,
    points: &[Point],
    values: &mut [u8],
)
    requires bits { F.bits_of f.now ≡ (D.domain dom.now).bits }
    requires index { i < (D.domain dom.now).count }
    requires points { ArePoints (D.domain dom.now) (F.modulus_of f.now) points.now }
    requires room { length values.old ≡ length points.now }
    ensures values { (p : ℕ) → p < length points.now →
        slice_index values.new p ≡ value_at (D.domain dom.now) (F.modulus_of f.now) points.now i p }
    ensures symbols { All (λ x. x < 2 ^ F.bits_of f.now) values.new }
{
    for p in 0..points.len() {
        values[p] = dom.eval(f, i, &points[p]);
    }
}

/// Marks the sums of function i with the functions of the coordinates. Where function i is a combination of those before
/// it, so are these sums.
pub fn mark_sums<D: OrderDomain>(dom: &D, i: u32, old: &mut [bool])
    requires index { i < (D.domain dom.now).count }
    requires marks { length old.old ≡ (D.domain dom.now).count }
    ensures { AreMarked (D.domain dom.now) i old.old old.new }
{
    dom.bits();
    for g in 1..dom.count().min(COORDINATES + 1) {
        if let Some(sum) = dom.sum(g, i) {
            old[sum as usize] = true;
        }
    }
}

// Writes the values of the functions of a band at the points, row by row.
fn evaluate_band<F: Field, D: OrderDomain>(
    f: &F,
    dom: &D,
    band: &[u32],
    points: &[Point],
    values: &mut [u8],
)
    requires bits { F.bits_of f.now ≡ (D.domain dom.now).bits }
    requires below { (b : ℕ) → b < length band.now →
        slice_index band.now b < (D.domain dom.now).count }
    requires points { ArePoints (D.domain dom.now) (F.modulus_of f.now) points.now }
    requires room { length values.old ≡ length band.now * length points.now }
    requires symbols { All (λ x. x < 2 ^ F.bits_of f.now) values.old }
    ensures values { (b p : ℕ) → b < length band.now → p < length points.now →
        cell values.new (length points.now) b p ≡ value_at (D.domain dom.now)
        (F.modulus_of f.now) points.now (slice_index band.now b) p }
    ensures symbols { All (λ x. x < 2 ^ F.bits_of f.now) values.new }
{
    let n = points.len();
    for b in 0..band.len() {
        evaluate(f, dom, band[b], points, &mut values[b * n..b * n + n]);
    }
}

/// Judges the functions of a band in their order, by their values and by their products with the lists before the band. The
/// lists that are taken for them are put into `takes`, and no symbol is changed.
fn judge<F: Field, D: OrderDomain>(
    f: &F,
    dom: &D,
    points: &[Point],
    band: &[u32],
    values: &[u8],
    products: &[u8],
    room: &mut [u8],
    ranks: &mut Vec<u32>,
    vectors: &mut Vec<u8>,
    old: &mut [bool],
    order: &mut [u32],
    used: &mut [bool],
    takes: &mut Takes,
) -> Result<(), AllocError>
    requires bits { F.bits_of f.now ≡ (D.domain dom.now).bits }
    requires points { ArePoints (D.domain dom.now) (F.modulus_of f.now) points.now }
    requires below { (b : ℕ) → b < length band.now →
        slice_index band.now b < (D.domain dom.now).count }
    requires n_values { length values.now ≡ length band.now * length points.now }
    requires values { (b p : ℕ) → b < length band.now → p < length points.now →
        cell values.now (length points.now) b p ≡ value_at (D.domain dom.now)
        (F.modulus_of f.now) points.now (slice_index band.now b) p }
    requires n_products { length products.now ≡ length band.now * length points.now }
    requires products { All (λ x. x < 2 ^ F.bits_of f.now) products.now }
    requires room { length room.old ≡ length points.now }
    requires n_old { length old.old ≡ (D.domain dom.now).count }
    requires n_order { length order.old ≡ length points.now }
    requires numbers { (i : ℕ) → i < length order.old →
        slice_index order.old i < length points.now }
    requires n_used { length used.old ≡ length points.now }
    requires takes { AreTakes (F.bits_of f.now) (length points.now) takes.old.numbers.items
        takes.old.factors.items takes.old.products.items }
    ensures takes { IfOk result (λ _. AreTakes (F.bits_of f.now) (length points.now)
        takes.new.numbers.items takes.new.factors.items takes.new.products.items) }
    ensures so_far { (symbols : List ℕ) (stop : ℕ) → ArePending (D.domain dom.now)
        (F.modulus_of f.now) points.now stop band.now values.now products.now symbols →
        AreSoFar (D.domain dom.now) (F.modulus_of f.now) points.now
        (get_or band.now 0 stop) ranks.old.items vectors.old.items
        (lists_after (gf_mul (F.bits_of f.now) (F.modulus_of f.now)) (length points.now)
        takes.old.numbers.items takes.old.factors.items takes.old.products.items symbols)
        order.old used.old old.old →
        IfOk result (λ _. AreSoFar (D.domain dom.now) (F.modulus_of f.now) points.now stop
        ranks.new.items vectors.new.items
        (lists_after (gf_mul (F.bits_of f.now) (F.modulus_of f.now)) (length points.now)
        takes.new.numbers.items takes.new.factors.items takes.new.products.items symbols)
        order.new used.new old.new) }
{
    let n = points.len();
    f.bits();
    dom.bits();
    for b in 0..band.len() {
        if ranks.len() < n {
            room.copy_from_slice(&products[b * n..b * n + n]);
            take_all(f, &takes.numbers, &takes.factors, &takes.products, room);
            if step(f, ranks.len(), room, order, used, takes)? {
                ranks.push(band[b])?;
                vectors.extend_from_slice(&values[b * n..b * n + n])?;
            } else {
                mark_sums(dom, band[b], old);
            }
        }
    }
    Ok(())
}

/// Judges the functions of a band, and changes the lists by what was taken for them. The rooms are for the values of the
/// band, for their products with the lists, and for those of one function.
fn settle_in<X: Threads + Sync, F: Field + Sync, D: OrderDomain>(
    rt: &X,
    f: &F,
    dom: &D,
    points: &[Point],
    band: &[u32],
    values: &mut [u8],
    products: &mut [u8],
    room: &mut [u8],
    takes: &mut Takes,
    ranks: &mut Vec<u32>,
    vectors: &mut Vec<u8>,
    old: &mut [bool],
    symbols: &mut [u8],
    order: &mut [u32],
    used: &mut [bool],
    workers: Workers,
) -> Result<(), AllocError>
    requires bits { F.bits_of f.now ≡ (D.domain dom.now).bits }
    requires few { length points.now ≤ 1024 }
    requires some { 0 < length points.now }
    requires points { ArePoints (D.domain dom.now) (F.modulus_of f.now) points.now }
    requires few_in_band { length band.now ≤ 64 }
    requires below { (b : ℕ) → b < length band.now →
        slice_index band.now b < (D.domain dom.now).count }
    requires n_values { length values.old ≡ length band.now * length points.now }
    requires values { All (λ x. x < 2 ^ F.bits_of f.now) values.old }
    requires n_products { length products.old ≡ length band.now * length points.now }
    requires room { length room.old ≡ length points.now }
    requires no_numbers { takes.old.numbers.items ≡ [] }
    requires no_factors { takes.old.factors.items ≡ [] }
    requires no_table { takes.old.products.items ≡ [] }
    requires n_old { length old.old ≡ (D.domain dom.now).count }
    requires lists { AreLists (F.bits_of f.now) (length points.now) symbols.old order.old
        used.old }
    ensures so_far { (stop : ℕ) → AreWaiting (D.domain dom.now) (F.modulus_of f.now)
        points.now stop band.now →
        AreSoFar (D.domain dom.now) (F.modulus_of f.now) points.now
        (get_or band.now 0 stop) ranks.old.items vectors.old.items symbols.old order.old
        used.old old.old →
        IfOk result (λ _. AreSoFar (D.domain dom.now) (F.modulus_of f.now) points.now stop
        ranks.new.items vectors.new.items symbols.new order.new used.new old.new) }
{
    f.bits();
    let n = points.len() as u32;
    evaluate_band(f, dom, band, points, values);
    products.copy_from_slice(values);
    multiply_band(
        rt,
        f,
        symbols,
        used,
        products,
        band.len() as u32,
        n,
        workers,
    );
    judge(
        f, dom, points, band, values, products, room, ranks, vectors, old, order, used, takes,
    )?;
    change_lists(
        rt,
        f,
        &takes.numbers,
        &takes.factors,
        &takes.products,
        symbols,
        n,
        workers,
    );
    Ok(())
}

/// Judges the functions of a band, with rooms of its own.
fn settle<X: Threads + Sync, F: Field + Sync, D: OrderDomain>(
    rt: &X,
    alloc: Global,
    f: &F,
    dom: &D,
    points: &[Point],
    band: &[u32],
    ranks: &mut Vec<u32>,
    vectors: &mut Vec<u8>,
    old: &mut [bool],
    symbols: &mut [u8],
    order: &mut [u32],
    used: &mut [bool],
    workers: Workers,
) -> Result<(), AllocError>
    requires bits { F.bits_of f.now ≡ (D.domain dom.now).bits }
    requires few { length points.now ≤ 1024 }
    requires some { 0 < length points.now }
    requires points { ArePoints (D.domain dom.now) (F.modulus_of f.now) points.now }
    requires few_in_band { length band.now ≤ 64 }
    requires below { (b : ℕ) → b < length band.now →
        slice_index band.now b < (D.domain dom.now).count }
    requires n_old { length old.old ≡ (D.domain dom.now).count }
    requires lists { AreLists (F.bits_of f.now) (length points.now) symbols.old order.old
        used.old }
    ensures so_far { (stop : ℕ) → AreWaiting (D.domain dom.now) (F.modulus_of f.now)
        points.now stop band.now →
        AreSoFar (D.domain dom.now) (F.modulus_of f.now) points.now
        (get_or band.now 0 stop) ranks.old.items vectors.old.items symbols.old order.old
        used.old old.old →
        IfOk result (λ _. AreSoFar (D.domain dom.now) (F.modulus_of f.now) points.now stop
        ranks.new.items vectors.new.items symbols.new order.new used.new old.new) }
{
    f.bits();
    let n = points.len();
    let mut values = vec![in alloc; 0u8; band.len() * n]?;
    let mut products = vec![in alloc; 0u8; band.len() * n]?;
    let mut room = vec![in alloc; 0u8; n]?;
    let mut takes = no_takes(alloc);
    settle_in(
        rt,
        f,
        dom,
        points,
        band,
        &mut values,
        &mut products,
        &mut room,
        &mut takes,
        ranks,
        vectors,
        old,
        symbols,
        order,
        used,
        workers,
    )
}

/// Puts function i into the band, which is judged when it is full. The first bands hold one function more than there are
/// members, since one that is not new has sums soon after it.
fn take_in<X: Threads + Sync, F: Field + Sync, D: OrderDomain>(
    rt: &X,
    alloc: Global,
    f: &F,
    dom: &D,
    points: &[Point],
    i: u32,
    band: &mut Vec<u32>,
    ranks: &mut Vec<u32>,
    vectors: &mut Vec<u8>,
    old: &mut [bool],
    symbols: &mut [u8],
    order: &mut [u32],
    used: &mut [bool],
    workers: Workers,
) -> Result<(), AllocError>
    requires bits { F.bits_of f.now ≡ (D.domain dom.now).bits }
    requires few { length points.now ≤ 1024 }
    requires points { ArePoints (D.domain dom.now) (F.modulus_of f.now) points.now }
    requires index { i < (D.domain dom.now).count }
    requires room { length ranks.old.items < length points.now }
    requires so_far { AreSearched (D.domain dom.now) (F.modulus_of f.now) points.now i
        ranks.old.items vectors.old.items symbols.old order.old used.old old.old
        band.old.items }
    ensures { IfOk result (λ _. AreSearched (D.domain dom.now) (F.modulus_of f.now) points.now
        (i + 1) ranks.new.items vectors.new.items symbols.new order.new used.new old.new
        band.new.items) }
{
    f.bits();
    dom.bits();
    band.push(i)?;
    if band.len() >= BAND.min(ranks.len() + 1) {
        settle(
            rt, alloc, f, dom, points, band, ranks, vectors, old, symbols, order, used, workers,
        )?;
        band.clear();
    }
    Ok(())
}

/// Goes through the functions in their order, until as many are new as there are points. A function that is the sum of a
/// function with one that is not new is not new either, and not evaluated; the others are judged band by band.
fn search<X: Threads + Sync, F: Field + Sync, D: OrderDomain>(
    rt: &X,
    alloc: Global,
    f: &F,
    dom: &D,
    points: &[Point],
    symbols: &mut [u8],
    order: &mut [u32],
    used: &mut [bool],
    workers: Workers,
) -> Result<Members, AllocError>
    requires bits { F.bits_of f.now ≡ (D.domain dom.now).bits }
    requires few { length points.now ≤ 1024 }
    requires points { ArePoints (D.domain dom.now) (F.modulus_of f.now) points.now }
    requires lists { AreFirstLists (F.bits_of f.now) (length points.now) symbols.old order.old
        used.old }
    ensures { IfOk result (λ m. AreMembers (D.domain dom.now) (F.modulus_of f.now) points.now
        m.ranks.items m.vectors.items m.duals.items) }
{
    let n = points.len();
    f.bits();
    dom.bits();
    let mut old = vec![in alloc; false; dom.count() as usize]?;
    let mut ranks = Vec::with_capacity(alloc, n)?;
    let mut vectors = Vec::with_capacity(alloc, n * n)?;
    let mut band = Vec::with_capacity(alloc, BAND)?;
    for i in 0..dom.count() {
        if ranks.len() < n {
            if old[i as usize] {
                mark_sums(dom, i, &mut old);
            } else {
                take_in(
                    rt,
                    alloc,
                    f,
                    dom,
                    points,
                    i,
                    &mut band,
                    &mut ranks,
                    &mut vectors,
                    &mut old,
                    symbols,
                    order,
                    used,
                    workers,
                )?;
            }
        }
    }
    if ranks.len() < n {
        settle(
            rt,
            alloc,
            f,
            dom,
            points,
            &band,
            &mut ranks,
            &mut vectors,
            &mut old,
            symbols,
            order,
            used,
            workers,
        )?;
    }
    let duals = in_order(alloc, symbols, order)?;
    Ok(Members {
        ranks,
        vectors,
        duals,
    })
}

/// The members at these points, with their dual lists.
pub fn find_members<X: Threads + Sync, F: Field + Sync, D: OrderDomain>(
    rt: &X,
    alloc: Global,
    f: &F,
    dom: &D,
    points: &Points,
    workers: Workers,
) -> Result<Members, AllocError>
    requires bits { F.bits_of f.now ≡ (D.domain dom.now).bits }
    requires on { All (λ p. IsTrue ((D.domain dom.now).on (F.modulus_of f.now) p)) points.now }
    ensures members { IfOk result (λ m. AreMembers (D.domain dom.now) (F.modulus_of f.now)
        points.now m.ranks.items m.vectors.items m.duals.items) }
    ensures points { ArePoints (D.domain dom.now) (F.modulus_of f.now) points.now }
{
    let places = points.as_slice();
    let n = places.len();
    let mut symbols = unit_lists(alloc, f, n)?;
    let mut order = first_order(alloc, n)?;
    let mut used = vec![in alloc; false; n]?;
    search(
        rt,
        alloc,
        f,
        dom,
        places,
        &mut symbols,
        &mut order,
        &mut used,
        helpers(n, workers),
    )
}
