//! Bits of files that were worked by hand, for groups of three message symbols of two bits, and packed groups whose bytes
//! were worked out apart from this code.

ghost use Rattle.std.specs.Prelude.{ℕ, ◌≡◌, ◌≤◌, true, length};
ghost use Rattle.stored_form.specs.Symbols.{stored_size};

use crate::{BitsIn, BitsOut, Layout, gather, put_symbol, spread, symbol_at};
use std::test::Fail;

const SINGLE: Layout = Layout {
    n: 8,
    k: 3,
    bits: 2,
    depth: 1,
    packed: false,
};

const PAIR: Layout = Layout {
    n: 8,
    k: 3,
    bits: 2,
    depth: 2,
    packed: false,
};

#[test]
fn numbers_of_a_group(rt: HostRuntime) {
    assert_eq!(rt; SINGLE.group_bits(), 6);
    assert_eq!(rt; SINGLE.group_bytes(), 8);
    assert_eq!(rt; PAIR.group_bits(), 12);
    assert_eq!(rt; PAIR.group_bytes(), 16);
}

#[test]
fn codewords_position_by_position(rt: HostRuntime) {
    let words = [2, 0, 0, 2, 3, 1, 2, 0, 0, 0, 0, 0, 0, 0, 0, 0];
    let mut group = [9; 16];
    spread(&PAIR, &words, &mut group);
    assert_eq!(rt; group, [2, 0, 0, 0, 0, 0, 2, 0, 3, 0, 1, 0, 2, 0, 0, 0]);
    let mut back = [9; 16];
    gather(&PAIR, &group, &mut back);
    assert_eq!(rt; back, words);
}

// Whether two codewords of three symbols are stored in these bytes, and come back from them, whatever the fill bits are.
fn packs(bits: u32, words: &[u8], bytes: &[u8]) -> bool
    requires bits { (2 ≤ bits) × (bits ≤ 8) }
    requires words { length words.now ≡ 6 }
    requires bytes { length bytes.now ≡ stored_size true bits 6 }
{
    let layout = Layout {
        n: 3,
        k: 1,
        bits,
        depth: 2,
        packed: true,
    };
    let mut room = [0xff; 6];
    let group = &mut room[..bytes.len()];
    spread(&layout, words, group);
    let stored = *group == *bytes;
    let last = bytes.len() - 1;
    let fill = last * 8 + 8 - 6 * bits as usize;
    group[last] |= ((1 << fill) - 1) as u8;
    let mut back = [0xff; 6];
    gather(&layout, group, &mut back);
    stored && back.as_slice() == words
}

#[test]
fn symbols_of_each_width(rt: HostRuntime) {
    assert!(rt; packs(2, &[2, 1, 3, 0, 1, 2], &[133, 224]));
    assert!(rt; packs(3, &[5, 1, 7, 0, 2, 6], &[160, 175, 128]));
    assert!(rt; packs(4, &[11, 1, 15, 0, 5, 14], &[176, 21, 254]));
    assert!(rt; packs(5, &[23, 1, 31, 0, 10, 30], &[184, 2, 175, 248]));
    assert!(rt; packs(6, &[47, 1, 63, 0, 21, 62], &[188, 0, 85, 255, 224]));
    assert!(rt; packs(7, &[95, 1, 127, 0, 42, 126], &[190, 0, 10, 175, 255, 128]));
    assert!(rt; packs(8, &[191, 1, 255, 0, 85, 254], &[191, 0, 1, 85, 255, 254]));
}

#[test]
fn one_symbol_is_written(rt: HostRuntime) {
    let layout = Layout {
        n: 5,
        k: 2,
        bits: 3,
        depth: 1,
        packed: true,
    };
    let mut group = [231, 5];
    assert_eq!(rt; symbol_at(&layout, 2, &group), 6);
    put_symbol(&layout, 2, 1, &mut group);
    assert_eq!(rt; group, [228, 133]);
    let bytes = Layout {
        packed: false,
        ..layout
    };
    let mut group = [1, 2, 3, 4, 5];
    put_symbol(&bytes, 2, 255, &mut group);
    assert_eq!(rt; symbol_at(&bytes, 2, &group), 255);
    assert_eq!(rt; group, [1, 2, 255, 4, 5]);
}

#[test]
fn no_byte(rt: HostRuntime) -> Result<(), Fail> {
    let mut bits = BitsIn::new(rt.alloc(), &SINGLE)?;
    let mut msg = [9; 3];
    assert!(rt; !bits.ready());
    bits.close(&mut msg);
    assert_eq!(rt; msg, [2, 0, 0]);
    Ok(())
}

#[test]
fn a_byte_cut_over_two_groups(rt: HostRuntime) -> Result<(), Fail> {
    let mut bits = BitsIn::new(rt.alloc(), &SINGLE)?;
    let mut msg = [9; 3];
    bits.push(0x41);
    assert!(rt; bits.ready());
    bits.take(&mut msg);
    assert_eq!(rt; msg, [1, 0, 0]);
    assert!(rt; !bits.ready());
    bits.close(&mut msg);
    assert_eq!(rt; msg, [1, 2, 0]);
    bits.push(0xff);
    bits.clear();
    assert!(rt; !bits.ready());
    bits.close(&mut msg);
    assert_eq!(rt; msg, [2, 0, 0]);
    Ok(())
}

#[test]
fn a_byte_from_two_groups(rt: HostRuntime) -> Result<(), Fail> {
    let mut bits = BitsOut::new(rt.alloc(), &SINGLE)?;
    bits.hold(&[1, 0, 0]);
    bits.release();
    assert_eq!(rt; bits.next_byte(), None);
    bits.hold(&[1, 2, 0]);
    assert!(rt; bits.strip());
    assert_eq!(rt; bits.next_byte(), Some(0x41));
    assert_eq!(rt; bits.next_byte(), None);
    Ok(())
}

#[test]
fn groups_that_end_no_file(rt: HostRuntime) -> Result<(), Fail> {
    let mut bits = BitsOut::new(rt.alloc(), &SINGLE)?;
    bits.hold(&[0, 0, 0]);
    assert!(rt; !bits.strip());
    bits.clear();
    bits.hold(&[1, 0, 0]);
    assert!(rt; !bits.strip());
    bits.clear();
    bits.hold(&[2, 0, 0]);
    assert!(rt; bits.strip());
    assert_eq!(rt; bits.next_byte(), None);
    Ok(())
}
