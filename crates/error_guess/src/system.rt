//! The linear equations that the check symbols make for the message symbols at given places.

ghost use Rattle.std.specs.Prelude.{ℕ, ◌≡◌, ◌+◌, ◌-◌, ◌<◌, ◌≤◌, ◌^◌, length, take, All, IsTrue};
ghost use Rattle.block_theory.specs.Checks.{message_places};
ghost use Rattle.error_guess.specs.Rooms.{IsSystem};

use gf_field::Field;
use parity_space::Parity;
use vote_matrix::GrowingRows;

/// How many equations more than unknowns are taken at first.
const SPARE: usize = 8;

/// Writes the numbers of the message places at zeros, and answers how many they are.
pub fn list_unknowns(places: &[u32], zeros: &[bool], unknowns: &mut [u32]) -> usize
    requires { length unknowns.old ≤ 1024 }
    ensures few { result ≤ length unknowns.old }
    ensures within { All (λ i. i < length places.now) (take result unknowns.new) }
    ensures long { length unknowns.new ≡ length unknowns.old }
{
    let mut count = 0;
    for i in 0..places.len().min(unknowns.len()) {
        if zeros.get(places[i] as usize) == Some(&true) {
            unknowns[count] = i as u32;
            count += 1;
        }
    }
    count
}

/// Marks the check positions that are no zeros: their differences come of the message symbols alone.
pub fn mark_equations(places: &[u32], zeros: &[bool], keeps: &mut [bool])
    requires { length keeps.old ≤ length zeros.now }
    ensures { length keeps.new ≡ length keeps.old }
{
    let first = zeros.len() - keeps.len();
    for q in 0..keeps.len() {
        keeps[q] = !zeros[first + q];
    }
    for place in places {
        if let Some(q) = (*place as usize).checked_sub(first) {
            if let Some(keep) = keeps.get_mut(q) {
                *keep = false;
            }
        }
    }
}

/// How many places from the first on have so many equations, in whole registers.
fn width_of(keeps: &[bool], wanted: usize) -> usize
    requires { length keeps.now ≤ 1024 }
    ensures { result ≤ length keeps.now }
{
    let mut found: usize = 0;
    for q in 0..keeps.len() {
        found += usize::from(keeps[q]);
        if found >= wanted {
            return ((q + 16) / 16 * 16).min(keeps.len());
        }
    }
    keeps.len()
}

/// Writes the symbols of a list at the equations, and 0 elsewhere.
fn write_equation(list: &[u8], keeps: &[bool], line: &mut [u8])
    requires list { length line.old ≤ length list.now }
    requires keeps { length line.old ≤ length keeps.now }
    ensures symbols { (size : ℕ) → 0 < size → All (λ x. x < size) list.now
        → All (λ x. x < size) line.new }
    ensures long { length line.new ≡ length line.old }
{
    line.fill(0);
    for q in 0..line.len() {
        line[q] = if keeps[q] { list[q] } else { 0 };
    }
}

/// Whether the equations tell the symbols at the unknowns, by as many places as the line has: then these are the factors.
fn solve_by<F: Field>(
    f: &F,
    parity: &Parity,
    unknowns: &[u32],
    keeps: &[bool],
    differences: &[u8],
    line: &mut [u8],
    factors: &mut [u8],
    system: &mut GrowingRows,
) -> bool
    requires bits { parity.now.bits ≡ F.bits_of f.now }
    requires unknowns { All (λ i. i < length (message_places parity.now)) unknowns.now }
    requires few { length unknowns.now < system.old.most }
    requires short { length unknowns.now ≤ 1024 }
    requires keeps { length line.old ≤ length keeps.now }
    requires differences { length line.old ≤ length differences.now }
    requires symbols { All (λ x. x < 2 ^ F.bits_of f.now) differences.now }
    requires system { IsSystem (F.bits_of f.now) (F.modulus_of f.now) (length line.old) system.old }
    requires room { length factors.old ≡ system.old.most }
    ensures long { length line.new ≡ length line.old }
    ensures factors { length factors.new ≡ length factors.old }
    ensures symbols { IsTrue result → All (λ x. x < 2 ^ F.bits_of f.now) factors.new }
    ensures bits { system.new.bits ≡ system.old.bits }
    ensures modulus { system.new.modulus ≡ system.old.modulus }
    ensures n { system.new.n ≡ system.old.n }
    ensures most { system.new.most ≡ system.old.most }
{
    system.clear();
    for q in 0..unknowns.len() {
        let tail = parity.tail(unknowns[q]);
        if tail.len() < line.len() {
            return false;
        }
        write_equation(tail, keeps, line);
        system.settle_row(f, q as u32, line);
        if system.adds_nothing(q as u32) {
            return false;
        }
    }
    let last = unknowns.len() as u32;
    write_equation(differences, keeps, line);
    system.settle_row(f, last, line);
    if !system.adds_nothing(last) {
        return false;
    }
    system.combination(f, last, factors);
    true
}

/// Whether the equations tell the symbols at the unknowns: then these are the factors. As many equations as there are unknowns,
/// and a few more, mostly do; where they do not, all are taken.
pub fn solve<F: Field>(
    f: &F,
    parity: &Parity,
    unknowns: &[u32],
    keeps: &[bool],
    differences: &[u8],
    line: &mut [u8],
    factors: &mut [u8],
    system: &mut GrowingRows,
) -> bool
    requires bits { parity.now.bits ≡ F.bits_of f.now }
    requires unknowns { All (λ i. i < length (message_places parity.now)) unknowns.now }
    requires few { length unknowns.now ≤ 1024 }
    requires keeps { length line.old ≡ length keeps.now }
    requires differences { length line.old ≡ length differences.now }
    requires symbols { All (λ x. x < 2 ^ F.bits_of f.now) differences.now }
    requires short { length line.old ≤ 1024 }
    requires system { IsSystem (F.bits_of f.now) (F.modulus_of f.now) (length line.old) system.old }
    requires room { length factors.old ≡ system.old.most }
    ensures long { length line.new ≡ length line.old }
    ensures factors { length factors.new ≡ length factors.old }
    ensures symbols { IsTrue result → All (λ x. x < 2 ^ F.bits_of f.now) factors.new }
    ensures bits { system.new.bits ≡ system.old.bits }
    ensures modulus { system.new.modulus ≡ system.old.modulus }
    ensures n { system.new.n ≡ system.old.n }
    ensures most { system.new.most ≡ system.old.most }
{
    if unknowns.len() >= system.most() as usize {
        return false;
    }
    let width = width_of(keeps, unknowns.len() + SPARE);
    if solve_by(
        f,
        parity,
        unknowns,
        keeps,
        differences,
        &mut line[..width],
        factors,
        system,
    ) {
        return true;
    }
    width < line.len()
        && solve_by(
            f,
            parity,
            unknowns,
            keeps,
            differences,
            line,
            factors,
            system,
        )
}

/// Adds to the message symbols at the unknowns what the equations told.
pub fn add_solution<F: Field>(f: &F, unknowns: &[u32], factors: &[u8], msg: &mut [u8])
    requires unknowns { All (λ i. i < length msg.old) unknowns.now }
    requires factors { All (λ x. x < 2 ^ F.bits_of f.now) factors.now }
    requires symbols { All (λ x. x < 2 ^ F.bits_of f.now) msg.old }
    ensures symbols { All (λ x. x < 2 ^ F.bits_of f.now) msg.new }
    ensures long { length msg.new ≡ length msg.old }
{
    for q in 0..unknowns.len().min(factors.len()) {
        let i = unknowns[q] as usize;
        msg[i] = f.add(msg[i], factors[q]);
    }
}
