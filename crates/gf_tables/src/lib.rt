//! A field that looks its products up: `TableField` meets `Field` with the bits and the modulus of the `PolyField` that it
//! is made from. A table of all products, at most 64 KiB, answers a product by one load; tables of logarithms take three,
//! and a test for 0.
#![tactic(auto)]

ghost use Rattle.std.specs.Prelude.{◌≡◌, ℕ, ◌<◌, ◌^◌, List, IfOk};
ghost use Rattle.gf_theory.specs.Field.{IsModulus};
ghost use Rattle.gf_tables.specs.Tables.{IsRow, AreProducts, AreInverses, AreTables};

use gf_field::{Field, Multiples, PolyField};
use std::alloc::{AllocError, Global};

/// A finite field of 2^2 to 2^8 elements with tables of its products and inverses.
#[derive(Drop)]
pub struct TableField {
    bits: u32,
    modulus: u32,
    // row x has the product of x and y at place y
    products: Vec<[u8; 256]>,
    inverses: [u8; 256],
    // those of c at place c
    multiples: Vec<Multiples>,
    ghost is_modulus: { IsModulus bits modulus },
    ghost has_products: { AreProducts bits modulus products.items },
    ghost has_inverses: { AreInverses bits modulus inverses },
    ghost has_multiples: { AreTables bits modulus multiples.items },
}

impl TableField {
    /// The tables of this field.
    pub fn new(alloc: Global, field: &PolyField) -> Result<TableField, AllocError>
        ensures bits { IfOk result (λ t. t.bits ≡ field.now.bits) }
        ensures modulus { IfOk result (λ t. t.modulus ≡ field.now.modulus) }
    {
        Ok(TableField {
            bits: field.bits(),
            modulus: field.modulus(),
            products: products_of(alloc, field)?,
            inverses: inverses_of(field),
            multiples: multiples_of(alloc, field)?,
        })
    }
}

impl Field for TableField {
    ghost bits_of = { λ f. f.bits };

    ghost modulus_of = { λ f. f.modulus };

    ghost is_modulus = { λ f. f.is_modulus };

    fn bits(&self) -> u32 {
        self.bits
    }

    fn modulus(&self) -> u32 {
        self.modulus
    }

    fn add(&self, x: u8, y: u8) -> u8 {
        x ^ y
    }

    fn mul(&self, x: u8, y: u8) -> u8 {
        self.products[usize::from(x)][usize::from(y)]
    }

    fn inv(&self, x: u8) -> u8 {
        self.inverses[usize::from(x)]
    }

    fn multiples(&self, c: u8) -> Multiples {
        self.multiples[usize::from(c)]
    }
}

// The number of elements.
fn size_of(field: &PolyField) -> usize
    ensures value { result ≡ 2 ^ field.now.bits }
    ensures few { result < 257 }
{
    1 << field.bits()
}

// The products of x.
fn row_of(field: &PolyField, x: u8) -> [u8; 256]
    requires { x < 2 ^ field.now.bits }
    ensures { IsRow field.now.bits field.now.modulus x result }
{
    let mut row = [0; 256];
    for y in 0..size_of(field) {
        row[y] = field.mul(x, y as u8);
    }
    row
}

// A row for each element.
fn products_of(alloc: Global, field: &PolyField) -> Result<Vec<[u8; 256]>, AllocError>
    ensures { IfOk result (λ v. AreProducts field.now.bits field.now.modulus v.items) }
{
    let size = size_of(field);
    let mut rows = Vec::with_capacity(alloc, size)?;
    for x in 0..size {
        rows.push(row_of(field, x as u8))?;
    }
    Ok(rows)
}

// The inverse of each element but 0.
fn inverses_of(field: &PolyField) -> [u8; 256]
    ensures { AreInverses field.now.bits field.now.modulus result }
{
    let mut inverses = [0; 256];
    for x in 1..size_of(field) {
        inverses[x] = field.inv(x as u8);
    }
    inverses
}

// The multiples of each element.
fn multiples_of(alloc: Global, field: &PolyField) -> Result<Vec<Multiples>, AllocError>
    ensures { IfOk result (λ v. AreTables field.now.bits field.now.modulus v.items) }
{
    let size = size_of(field);
    let mut tables = Vec::with_capacity(alloc, size)?;
    for c in 0..size {
        tables.push(field.multiples(c as u8))?;
    }
    Ok(tables)
}

#[cfg(test)]
mod tests {
    use super::*;
    use gf_field::field_axioms;
    use std::test::Fail;

    #[test]
    fn looks_up_the_field_of_four(rt: HostRuntime) -> Result<(), Fail> {
        let four = PolyField::new(2, 7).ok_or("irreducible")?;
        let f = TableField::new(rt.alloc(), &four)?;
        assert_eq!(rt; f.bits(), 2);
        assert_eq!(rt; f.modulus(), 7);
        assert_eq!(rt; f.mul(2, 3), 1);
        assert_eq!(rt; f.inv(3), 2);
        assert_eq!(rt; f.add(2, 3), 1);
        Ok(())
    }

    #[test]
    fn looks_up_the_field_of_aes(rt: HostRuntime) -> Result<(), Fail> {
        let aes = PolyField::new(8, 283).ok_or("irreducible")?;
        let f = TableField::new(rt.alloc(), &aes)?;
        assert_eq!(rt; f.mul(0x57, 0x83), 0xc1);
        assert_eq!(rt; f.inv(0x53), 0xca);
        // 83 is 80 and 3
        let multiples = f.multiples(0x57);
        assert_eq!(rt; multiples.high[8] ^ multiples.low[3], 0xc1);
        field_axioms(&f);
        Ok(())
    }
}
