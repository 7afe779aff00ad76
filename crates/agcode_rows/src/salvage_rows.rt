//! decode that goes on past lost codewords, with 1 and 8 workers.

use crate::descriptors::{HERMITIAN_4, with};
use crate::rig::{Ends, Row, WORKING, done, is_met, stopped};
use agcode_top::Status;
use std::alloc::Global;
use std::test::Fail;
use std::thread::Threads;

const LINES: [&str; 2] = ["decode --salvage D", "decode --workers 8 --salvage D"];

// A lost codeword, and the second group of the byte 0x41.
const LOST_FIRST: [u8; 16] = [1, 1, 1, 0, 0, 0, 0, 0, 1, 2, 0, 3, 0, 3, 0, 3];

const SALVAGED_BYTE: &str = "lost 0 0\nsalvaged bytes 1 groups 2 changed 0 lost 1\n";

// Reads of one group each.
const GROUPS: Ends<'static> = Ends {
    input_piece: 8,
    ..WORKING
};

// The rows are met with either line.
fn assert_salvages<X: Threads + Sync>(rt: &X, alloc: Global, rows: &[Row]) -> Result<(), Fail> {
    for line in LINES {
        for row in rows {
            let row = Row { line, ..*row };
            if !is_met(rt, alloc, &row)? {
                return Err(Fail::new(line));
            }
        }
    }
    Ok(())
}

// A run that ends so, having written these bytes and told this report.
fn left<'a>(text: &'a [u8], status: Status, out: &'a [u8], report: &'a str) -> Row<'a> {
    Row {
        out,
        ..stopped("decode D", HERMITIAN_4, text, status, report)
    }
}

#[test]
fn lost_codewords_are_told(rt: HostRuntime) -> Result<(), Fail> {
    let mut lost_last = [0u8; 40];
    lost_last[32..].copy_from_slice(&LOST_FIRST[..8]);
    let rows = [
        left(&LOST_FIRST, Status::Salvaged, &[0x55], SALVAGED_BYTE),
        left(
            &lost_last,
            Status::Salvaged,
            &[0; 3],
            "lost 4 0\nframing\nsalvaged bytes 3 groups 5 changed 0 lost 1\n",
        ),
    ];
    assert_salvages(&rt, rt.alloc(), &rows)
}

#[test]
fn nothing_changes_where_none_is_lost(rt: HostRuntime) -> Result<(), Fail> {
    let report = "changed 0 0 2 01 00\nchanged 0 0 3 00 02\ndone bytes 0 groups 1 changed 2\n";
    let two_changes = [2, 0, 1, 0, 3, 1, 2, 0];
    let spare = [2, 0, 0, 2, 3, 1, 2, 0, 7];
    let rows = [
        Row {
            report: report.as_bytes(),
            ..done("decode D", HERMITIAN_4, &two_changes, &[])
        },
        left(&spare, Status::Ragged { extra: 1 }, &[], "ragged 1\n"),
        left(&[0; 8], Status::Framing, &[], "framing\n"),
    ];
    assert_salvages(&rt, rt.alloc(), &rows)
}

#[test]
fn lines_come_by_codeword(rt: HostRuntime) -> Result<(), Fail> {
    let alloc = rt.alloc();
    let pairs = with(alloc, HERMITIAN_4, "depth = 1", "depth = 2")?;
    // codeword c of the group stands at the bytes 2·p + c
    let second_lost = [1, 1, 0, 1, 0, 1, 0, 0, 3, 0, 1, 0, 2, 0, 0, 0];
    let first_lost = [1, 1, 1, 0, 1, 0, 0, 0, 0, 0, 0, 0, 0, 0, 0, 3];
    let rows = [
        stopped(
            "decode D",
            pairs.as_str(),
            &second_lost,
            Status::Salvaged,
            "changed 0 0 0 01 02\nchanged 0 0 3 00 02\nlost 0 1\nframing\nsalvaged bytes 0 groups 1 changed 2 lost 1\n",
        ),
        stopped(
            "decode D",
            pairs.as_str(),
            &first_lost,
            Status::Salvaged,
            "lost 0 0\nchanged 0 1 0 01 00\nchanged 0 1 7 03 00\nframing\nsalvaged bytes 0 groups 1 changed 2 lost 1\n",
        ),
    ];
    assert_salvages(&rt, alloc, &rows)
}

// A run on the lost codeword and a group, with these ends, that stops so.
fn stops<'a>(ends: Ends<'a>, status: Status, out: &'a [u8], report: &'a str) -> Row<'a> {
    Row {
        ends,
        ..left(&LOST_FIRST, status, out, report)
    }
}

#[test]
fn each_call_fails_in_turn(rt: HostRuntime) -> Result<(), Fail> {
    let reads = |fails| Ends {
        input_fails: fails,
        ..GROUPS
    };
    let tells = |fails| Ends {
        report_fails: fails,
        ..GROUPS
    };
    let full = Ends {
        out_room: 0,
        ..GROUPS
    };
    let unread = "lost 0 0\ninput not read\n";
    let rows = [
        stops(reads(&[0]), Status::InputFault, &[], "input not read\n"),
        // a lost codeword does not stand in the way of a fault after it
        stops(reads(&[1]), Status::InputFault, &[], unread),
        stops(reads(&[2]), Status::InputFault, &[], unread),
        stops(reads(&[3]), Status::Salvaged, &[0x55], SALVAGED_BYTE),
        stops(
            full,
            Status::OutFault,
            &[],
            "lost 0 0\noutput not written\n",
        ),
        stops(tells(&[0]), Status::ReportFault, &[], ""),
        stops(tells(&[1]), Status::ReportFault, &[0x55], "lost 0 0\n"),
        stops(tells(&[2]), Status::Salvaged, &[0x55], SALVAGED_BYTE),
    ];
    assert_salvages(&rt, rt.alloc(), &rows)
}
