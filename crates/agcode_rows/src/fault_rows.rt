//! Calls of the sources and sinks that fail, where `turn_rows` has none: in the middle of a descriptor, and in the report of
//! changes.

use crate::descriptors::HERMITIAN_4;
use crate::rig::{Ends, Row, WORKING, is_met_with_unread, missed, stopped};
use agcode_top::Status;
use std::test::Fail;

const BYTE_41: [u8; 16] = [1, 0, 0, 1, 2, 3, 1, 0, 1, 2, 0, 3, 0, 3, 0, 3];

const WORD: [u8; 8] = [1, 0, 0, 1, 2, 3, 1, 0];

// A run that stops as its output is not written.
fn unwritten<'a>(line: &'a str, input: &'a [u8], ends: Ends<'a>, out: &'a [u8]) -> Row<'a> {
    Row {
        ends,
        out,
        ..stopped(
            line,
            HERMITIAN_4,
            input,
            Status::OutFault,
            "output not written\n",
        )
    }
}

#[test]
fn a_descriptor_stops_in_its_middle(rt: HostRuntime) -> Result<(), Fail> {
    let ends = Ends {
        desc_piece: 3,
        desc_fails: &[4],
        ..WORKING
    };
    let fault = Status::DescFault;
    let row = Row {
        ends,
        ..stopped(
            "member D",
            HERMITIAN_4,
            &WORD,
            fault,
            "descriptor not read\n",
        )
    };
    assert!(rt; is_met_with_unread(&rt, rt.alloc(), &row, 8)?);
    Ok(())
}

// A run of decode whose report is not written, and that has this status.
fn untold<'a>(text: &'a [u8], status: Status) -> Row<'a> {
    let ends = Ends {
        report_fails: &[0],
        ..WORKING
    };
    Row {
        ends,
        ..stopped("decode D", HERMITIAN_4, text, status, "")
    }
}

#[test]
fn decode_stops_at_a_fault_of_its_sinks(rt: HostRuntime) -> Result<(), Fail> {
    let two_changes = [2, 0, 1, 0, 3, 1, 2, 0];
    let far = [6, 0, 0, 0, 3, 1, 0xff, 0];
    let full = Ends {
        out_room: 0,
        ..WORKING
    };
    let rows = [
        untold(&two_changes, Status::ReportFault),
        unwritten("decode D", &BYTE_41, full, &[]),
        // a refusal whose line can't be told stays a refusal
        untold(&far, Status::Beyond { group: 0, word: 0 }),
    ];
    let missed = missed(&rt, rt.alloc(), &rows)?;
    assert!(rt; missed.is_none(), "{missed:?}");
    Ok(())
}
