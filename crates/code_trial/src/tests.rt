//! Trials of the small code. The numbers of changes were worked out apart from this code, from PCG32's definition.

use crate::back::read_back;
use crate::trial_text;
use small_block::SmallCode;
use std::test::Fail;
use stream_codec::layout_of;

#[test]
fn a_file_of_no_bytes(rt: HostRuntime) -> Result<(), Fail> {
    let alloc = rt.alloc();
    let one = trial_text(
        &rt,
        alloc,
        &SmallCode,
        &layout_of(&SmallCode, 1, false),
        2,
        1,
        0,
    )?;
    let text = b"bytes 0\ncodewords 1\nchanged 0\ncorrected 0\nequal yes\n";
    assert_eq!(rt; one.as_slice(), text.as_slice());
    let pair = trial_text(
        &rt,
        alloc,
        &SmallCode,
        &layout_of(&SmallCode, 2, false),
        0,
        5,
        0,
    )?;
    let text = b"bytes 0\ncodewords 2\nchanged 0\ncorrected 0\nequal yes\n";
    assert_eq!(rt; pair.as_slice(), text.as_slice());
    Ok(())
}

#[test]
fn files_come_back(rt: HostRuntime) -> Result<(), Fail> {
    let alloc = rt.alloc();
    let pairs = trial_text(
        &rt,
        alloc,
        &SmallCode,
        &layout_of(&SmallCode, 2, false),
        2,
        1,
        3,
    )?;
    let text = b"bytes 3\ncodewords 6\nchanged 4\ncorrected 4\nequal yes\n";
    assert_eq!(rt; pairs.as_slice(), text.as_slice());
    let other = trial_text(
        &rt,
        alloc,
        &SmallCode,
        &layout_of(&SmallCode, 2, false),
        2,
        0x1_0000_0001,
        3,
    )?;
    let text = b"bytes 3\ncodewords 6\nchanged 5\ncorrected 5\nequal yes\n";
    assert_eq!(rt; other.as_slice(), text.as_slice());
    let deep = trial_text(
        &rt,
        alloc,
        &SmallCode,
        &layout_of(&SmallCode, 64, false),
        2,
        7,
        100,
    )?;
    let text = b"bytes 100\ncodewords 192\nchanged 219\ncorrected 219\nequal yes\n";
    assert_eq!(rt; deep.as_slice(), text.as_slice());
    Ok(())
}

// The image of the byte 41, with two bytes of its second codeword changed.
#[test]
fn another_file_is_not_equal(rt: HostRuntime) -> Result<(), Fail> {
    let alloc = rt.alloc();
    let layout = layout_of(&SmallCode, 1, false);
    let text = [1, 0, 0, 1, 2, 3, 1, 0, 1, 2, 0, 3, 0, 3, 7, 7];
    let back = read_back(&rt, alloc, &SmallCode, &layout, &text, &[0x41])?;
    assert_eq!(rt; back.corrected, 2);
    assert!(rt; back.equal);
    let back = read_back(&rt, alloc, &SmallCode, &layout, &text, &[0x42])?;
    assert_eq!(rt; back.corrected, 2);
    assert!(rt; !back.equal);
    let back = read_back(&rt, alloc, &SmallCode, &layout, &text[1..], &[0x41])?;
    assert_eq!(rt; back.corrected, 0);
    assert!(rt; !back.equal);
    Ok(())
}

// The same changes in either layout, since the same words are drawn.
#[test]
fn packed_files_come_back(rt: HostRuntime) -> Result<(), Fail> {
    let alloc = rt.alloc();
    let pairs = layout_of(&SmallCode, 2, true);
    let text = trial_text(&rt, alloc, &SmallCode, &pairs, 2, 1, 3)?;
    let expected = b"bytes 3\ncodewords 6\nchanged 4\ncorrected 4\nequal yes\n";
    assert_eq!(rt; text.as_slice(), expected.as_slice());
    let deep = layout_of(&SmallCode, 64, true);
    let text = trial_text(&rt, alloc, &SmallCode, &deep, 2, 7, 100)?;
    let expected = b"bytes 100\ncodewords 192\nchanged 219\ncorrected 219\nequal yes\n";
    assert_eq!(rt; text.as_slice(), expected.as_slice());
    Ok(())
}
