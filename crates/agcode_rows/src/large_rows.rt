//! Files in larger codes, with as many changes in each codeword as are repaired.

use crate::damage::{Damage, assert_repairs};
use crate::descriptors::{HERMITIAN_16, HERMITIAN_64, with, with_all_points};
use crate::rig::{done, is_met};
use std::test::Fail;

#[test]
fn ten_changes_in_each_word_of_64(rt: HostRuntime) -> Result<(), Fail> {
    let alloc = rt.alloc();
    let desc = with_all_points(&rt, alloc, HERMITIAN_16)?;
    let damage = Damage {
        group: 64,
        symbols: 64,
        width: 8,
        depth: 1,
        step: 7,
        last: 63,
    };
    let end = "\ndone bytes 200 groups 11 changed 110\n";
    assert_repairs(&rt, alloc, desc.as_str(), 200, &damage, 111, end)
}

#[test]
fn a_hundred_changes_in_each_word_of_512(rt: HostRuntime) -> Result<(), Fail> {
    let alloc = rt.alloc();
    let desc = with_all_points(&rt, alloc, HERMITIAN_64)?;
    let bytes = Damage {
        group: 2048,
        symbols: 2048,
        width: 8,
        depth: 4,
        step: 5,
        last: 495,
    };
    let end = "\ndone bytes 2000 groups 3 changed 1200\n";
    assert_repairs(&rt, alloc, desc.as_str(), 2000, &bytes, 1201, end)?;
    let six_bits = Damage {
        group: 1536,
        width: 6,
        ..bytes
    };
    let packed = with(
        alloc,
        desc.as_str(),
        "depth = 4",
        "depth = 4\nlayout = \"packed\"",
    )?;
    assert_repairs(&rt, alloc, packed.as_str(), 2000, &six_bits, 1201, end)
}

#[test]
fn a_trial_of_2000_bytes(rt: HostRuntime) -> Result<(), Fail> {
    let alloc = rt.alloc();
    let desc = with_all_points(&rt, alloc, HERMITIAN_64)?;
    let row = done(
        "trial --seed 1 --bytes 2000 D",
        desc.as_str(),
        &[],
        b"bytes 2000\ncodewords 12\nchanged 521\ncorrected 521\nequal yes\n",
    );
    assert!(rt; is_met(&rt, alloc, &row)?);
    Ok(())
}
