use super::bands::change_lists;
use super::members::{SHARED_POINTS, helpers};
use ag_pool::Workers;
use gf_field::{Field, Multiples, PolyField};
use std::sync::atomic::{AtomicBool, AtomicU32, Ordering};
use std::test::Fail;

// A field whose calls of `bits` wait for each other: each act on a row makes one.
#[derive(Drop)]
struct Meeting {
    field: PolyField,
    inside: AtomicU32,
    met: AtomicBool,
}

// Comes in, and looks many times whether another is inside.
fn meet(inside: &AtomicU32, met: &AtomicBool) {
    inside.fetch_add(1, Ordering::SeqCst);
    for _ in 0..200_000_000u32 {
        if inside.load(Ordering::SeqCst) > 1 {
            met.store(true, Ordering::SeqCst);
        }
        if met.load(Ordering::SeqCst) {
            return;
        }
    }
    inside.fetch_sub(1, Ordering::SeqCst);
}

impl Field for Meeting {
    ghost bits_of = { λ f. f.field.bits };

    ghost modulus_of = { λ f. f.field.modulus };

    ghost is_modulus = { λ f. f.field.is_modulus };

    fn bits(&self) -> u32 {
        meet(&self.inside, &self.met);
        self.field.bits()
    }

    fn modulus(&self) -> u32 {
        self.field.modulus()
    }

    fn add(&self, x: u8, y: u8) -> u8 {
        self.field.add(x, y)
    }

    fn mul(&self, x: u8, y: u8) -> u8 {
        self.field.mul(x, y)
    }

    fn inv(&self, x: u8) -> u8 {
        self.field.inv(x)
    }

    fn multiples(&self, c: u8) -> Multiples {
        self.field.multiples(c)
    }
}

// A body on one thread fails this test, and does not hang. Two rows have a thread each.
#[test]
fn rows_are_changed_at_the_same_time(rt: HostRuntime) -> Result<(), Fail> {
    let field = PolyField::new(2, 7).ok_or("7 is irreducible")?;
    let meeting = Meeting {
        field,
        inside: AtomicU32::new(0),
        met: AtomicBool::new(false),
    };
    let two = Workers::new(2).ok_or("2 are 1 to 64")?;
    let numbers: [u32; 0] = [];
    let factors: [u8; 0] = [];
    let products: [u8; 0] = [];
    let mut symbols = [1u8, 0, 0, 1];
    change_lists(
        &rt,
        &meeting,
        &numbers,
        &factors,
        &products,
        &mut symbols,
        2,
        two,
    );
    assert!(rt; meeting.met.load(Ordering::SeqCst));
    Ok(())
}

#[test]
fn many_points_have_all_workers(rt: HostRuntime) -> Result<(), Fail> {
    let four = Workers::new(4).ok_or("4 are 1 to 64")?;
    assert_eq!(rt; helpers(SHARED_POINTS, four), four);
    assert_eq!(rt; helpers(SHARED_POINTS - 1, four), Workers::ONE);
    Ok(())
}
