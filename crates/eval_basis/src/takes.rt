//! The takes of a band: the lists that were taken for functions, one after the other, before any row of symbols is changed.
//! What they do to a row, they do to it alone: so the rows are changed later, in threads.

ghost use Rattle.std.specs.Prelude.{ℕ, [], ◌≡◌, ◌≢◌, ◌<◌, ◌^◌, length, slice_index, All, IfOk};
ghost use Rattle.gf_theory.specs.Field.{gf_mul};
ghost use Rattle.eval_basis.specs.Lists.{AreTakes, IsTakeOf, after_takes, taken};

use gf_field::Field;
use gf_linear::add_scaled;
use std::alloc::{AllocError, Global};

/// The lists taken, in their order: their numbers, the factors that scale them, and for each take a row of the products of
/// all lists with the function it was made for, with 1 for the list taken.
#[derive(Drop)]
pub struct Takes {
    pub numbers: Vec<u32>,
    pub factors: Vec<u8>,
    pub products: Vec<u8>,
}

/// No takes.
pub fn no_takes(alloc: Global) -> Takes
    ensures numbers { result.numbers.items ≡ [] }
    ensures factors { result.factors.items ≡ [] }
    ensures products { result.products.items ≡ [] }
{
    Takes {
        numbers: Vec::new(alloc),
        factors: Vec::new(alloc),
        products: Vec::new(alloc),
    }
}

/// Adds the take of list q for a function with these products. The product of list q becomes 1.
pub fn add_take<F: Field>(
    f: &F,
    q: u32,
    products: &mut [u8],
    takes: &mut Takes,
) -> Result<(), AllocError>
    requires list { q < length products.old }
    requires seeing { slice_index products.old q ≢ 0 }
    requires products { All (λ x. x < 2 ^ F.bits_of f.now) products.old }
    requires takes { AreTakes (F.bits_of f.now) (length products.old) takes.old.numbers.items
        takes.old.factors.items takes.old.products.items }
    ensures added { IfOk result (λ _. IsTakeOf
        (gf_mul (F.bits_of f.now) (F.modulus_of f.now)) q products.old takes.old.numbers.items
        takes.old.factors.items takes.old.products.items takes.new.numbers.items
        takes.new.factors.items takes.new.products.items) }
    ensures takes { IfOk result (λ _. AreTakes (F.bits_of f.now) (length products.old)
        takes.new.numbers.items takes.new.factors.items takes.new.products.items) }
{
    f.bits();
    let factor = f.inv(products[q as usize]);
    products[q as usize] = 1;
    takes.numbers.push(q)?;
    takes.factors.push(factor)?;
    takes.products.extend_from_slice(products)?;
    Ok(())
}

// The symbols of all lists at one position, where list q is taken. Its product is scaled to 1 already.
fn take_at<F: Field>(f: &F, factor: u8, q: usize, products: &[u8], row: &mut [u8])
    requires same { length row.old ≡ length products.now }
    requires list { q < length row.old }
    requires factor { factor < 2 ^ F.bits_of f.now }
    requires one { slice_index products.now q ≡ 1 }
    requires products { All (λ x. x < 2 ^ F.bits_of f.now) products.now }
    requires symbols { All (λ x. x < 2 ^ F.bits_of f.now) row.old }
    ensures value { (j : ℕ) → j < length row.old → slice_index row.new j
        ≡ taken (gf_mul (F.bits_of f.now) (F.modulus_of f.now)) factor q
        (slice_index row.old) (slice_index products.now) j }
    ensures symbols { All (λ x. x < 2 ^ F.bits_of f.now) row.new }
{
    f.bits();
    let multiple = f.mul(factor, row[q]);
    row[q] = 0;
    add_scaled(f, row, multiple, products);
}

/// The symbols of all lists at one position, after these takes.
pub fn take_all<F: Field>(f: &F, numbers: &[u32], factors: &[u8], products: &[u8], row: &mut [u8])
    requires takes { AreTakes (F.bits_of f.now) (length row.old) numbers.now factors.now
        products.now }
    requires symbols { All (λ x. x < 2 ^ F.bits_of f.now) row.old }
    ensures value { (j : ℕ) → j < length row.old → slice_index row.new j
        ≡ after_takes (gf_mul (F.bits_of f.now) (F.modulus_of f.now)) (length row.old)
        numbers.now factors.now products.now (length numbers.now) (slice_index row.old) j }
    ensures symbols { All (λ x. x < 2 ^ F.bits_of f.now) row.new }
{
    f.bits();
    let n = row.len();
    for t in 0..numbers.len() {
        let list = &products[t * n..t * n + n];
        take_at(f, factors[t], numbers[t] as usize, list, row);
    }
}
