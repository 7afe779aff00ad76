//! decode with 1, 2, 8 and 64 workers, and votes.

use crate::descriptors::{HERMITIAN_4, with};
use crate::rig::{Row, done, is_met, missed, stopped};
use agcode_top::Status;
use std::alloc::Global;
use std::test::Fail;
use std::thread::Threads;

const LINES: [&str; 4] = [
    "decode D",
    "decode --workers 2 D",
    "decode --workers=8 D",
    "decode --workers 64 D",
];

const EMPTY: [u8; 8] = [2, 0, 0, 2, 3, 1, 2, 0];

const BYTE_41: [u8; 16] = [1, 0, 0, 1, 2, 3, 1, 0, 1, 2, 0, 3, 0, 3, 0, 3];

const FAR: [u8; 8] = [1, 1, 1, 0, 0, 0, 0, 0];

/// The empty file in a group of two codewords, with two bytes changed in each.
pub const CHANGED_PAIR: [u8; 16] = [1, 1, 0, 0, 0, 0, 0, 0, 3, 0, 1, 0, 2, 0, 0, 3];

/// What decoding it reports.
pub const PAIR_REPORT: &str =
    "changed 0 0 0 01 02\nchanged 0 0 3 00 02\nchanged 0 1 0 01 00\nchanged 0 1 7 03 00\ndone bytes 0 groups 1 changed 4\n";

// The rows are met with any number of workers.
fn assert_decodes<X: Threads + Sync>(rt: &X, alloc: Global, rows: &[Row]) -> Result<(), Fail> {
    for line in LINES {
        for row in rows {
            let row = Row { line, ..*row };
            if !is_met(rt, alloc, &row)? {
                return Err(Fail::new(line));
            }
        }
    }
    Ok(())
}

// A text that is read as a file.
fn read<'a>(desc: &'a str, text: &'a [u8], file: &'a [u8], report: &'a str) -> Row<'a> {
    Row {
        report: report.as_bytes(),
        ..done("decode D", desc, text, file)
    }
}

// A text that is refused once this much of a file was given.
fn refused<'a>(text: &'a [u8], file: &'a [u8], status: Status, report: &'a str) -> Row<'a> {
    Row {
        out: file,
        ..stopped("decode D", HERMITIAN_4, text, status, report)
    }
}

#[test]
fn whole_texts_are_decoded(rt: HostRuntime) -> Result<(), Fail> {
    let rows = [
        read(
            HERMITIAN_4,
            &EMPTY,
            b"",
            "done bytes 0 groups 1 changed 0\n",
        ),
        read(
            HERMITIAN_4,
            &BYTE_41,
            b"A",
            "done bytes 1 groups 2 changed 0\n",
        ),
    ];
    assert_decodes(&rt, rt.alloc(), &rows)
}

#[test]
fn changed_texts_are_repaired(rt: HostRuntime) -> Result<(), Fail> {
    let cases: [([u8; 8], &str); 3] = [
        (
            [2, 0, 1, 0, 3, 1, 2, 0],
            "changed 0 0 2 01 00\nchanged 0 0 3 00 02\ndone bytes 0 groups 1 changed 2\n",
        ),
        (
            [2, 0, 0, 0, 3, 1, 0xff, 0],
            "changed 0 0 3 00 02\nchanged 0 0 6 ff 02\ndone bytes 0 groups 1 changed 2\n",
        ),
        // the high bits of one byte alone
        (
            [6, 0, 0, 2, 3, 1, 2, 0],
            "changed 0 0 0 06 02\ndone bytes 0 groups 1 changed 1\n",
        ),
    ];
    for (text, report) in cases {
        let row = read(HERMITIAN_4, &text, b"", report);
        assert_decodes(&rt, rt.alloc(), &[row])?;
    }
    Ok(())
}

#[test]
fn blocks_far_away_are_refused(rt: HostRuntime) -> Result<(), Fail> {
    // two symbols are changed, but three bytes
    let bytes = [6, 0, 0, 0, 3, 1, 0xff, 0];
    let mut fifth = [0u8; 40];
    fifth[32..].copy_from_slice(&FAR);
    let mut third_and_fifth = fifth;
    third_and_fifth[16..24].copy_from_slice(&FAR);
    let beyond = |group| Status::Beyond { group, word: 0 };
    let rows = [
        refused(&bytes, b"", beyond(0), "beyond 0 0\n"),
        refused(&FAR, b"", beyond(0), "beyond 0 0\n"),
        // four groups before it are given
        refused(&fifth, &[0; 3], beyond(4), "beyond 4 0\n"),
        // of two such blocks the first is told
        refused(&third_and_fifth, &[0], beyond(2), "beyond 2 0\n"),
    ];
    assert_decodes(&rt, rt.alloc(), &rows)
}

#[test]
fn other_texts_are_ragged(rt: HostRuntime) -> Result<(), Fail> {
    let mut spare = [7u8; 9];
    spare[..8].copy_from_slice(&EMPTY);
    let mut longer = [7u8; 17];
    longer[..16].copy_from_slice(&BYTE_41);
    let rows = [
        refused(&[], b"", Status::Ragged { extra: 0 }, "ragged 0\n"),
        refused(&spare, b"", Status::Ragged { extra: 1 }, "ragged 1\n"),
        refused(&longer, b"A", Status::Ragged { extra: 1 }, "ragged 1\n"),
    ];
    assert_decodes(&rt, rt.alloc(), &rows)
}

#[test]
fn other_groups_are_framing(rt: HostRuntime) -> Result<(), Fail> {
    let mut early = [0u8; 16];
    early[..8].copy_from_slice(&EMPTY);
    let first_group = [1, 0, 0, 1, 2, 3, 1, 0];
    let rows = [
        // no marker, a marker before the last group, a marker after one bit
        refused(&[0; 8], b"", Status::Framing, "framing\n"),
        refused(&early, b"", Status::Framing, "framing\n"),
        refused(&first_group, b"", Status::Framing, "framing\n"),
    ];
    assert_decodes(&rt, rt.alloc(), &rows)
}

#[test]
fn other_codes_decode(rt: HostRuntime) -> Result<(), Fail> {
    let alloc = rt.alloc();
    let pairs = with(alloc, HERMITIAN_4, "depth = 1", "depth = 2")?;
    let few = with(alloc, HERMITIAN_4, "weight = 5", "weight = 0")?;
    let beyond = Status::Beyond { group: 0, word: 0 };
    let one_change = [2, 0, 0, 0, 0, 0, 0, 3];
    let rows = [
        read(pairs.as_str(), &CHANGED_PAIR, b"", PAIR_REPORT),
        // nothing is repaired where one function is checked
        stopped(
            "decode D",
            few.as_str(),
            &one_change,
            beyond,
            "beyond 0 0\n",
        ),
    ];
    assert_decodes(&rt, alloc, &rows)
}

#[test]
fn votes_tells_what_the_candidates_said(rt: HostRuntime) -> Result<(), Fail> {
    let beyond = Status::Beyond { group: 0, word: 0 };
    let rows = [
        done(
            "votes D",
            HERMITIAN_4,
            &[2, 0, 1, 0, 3, 1, 2, 0],
            b"6 5 2 1\n7 6 2 0\n9 8 4 0\n",
        ),
        done(
            "votes D",
            HERMITIAN_4,
            &[2, 0, 0, 0, 3, 1, 0xff, 0],
            b"6 5 1 0\n7 6 2 0\n9 8 4 0\n",
        ),
        // no error: all pairs are right
        done(
            "votes D",
            HERMITIAN_4,
            &EMPTY,
            b"6 5 5 0\n7 6 6 0\n9 8 8 0\n",
        ),
        stopped("votes D", HERMITIAN_4, &FAR, beyond, "beyond 0 0\n"),
        stopped(
            "votes D",
            HERMITIAN_4,
            &FAR[1..],
            Status::WordLength { taken: 7 },
            "word length\n",
        ),
    ];
    let missed = missed(&rt, rt.alloc(), &rows)?;
    assert!(rt; missed.is_none(), "{missed:?}");
    Ok(())
}
