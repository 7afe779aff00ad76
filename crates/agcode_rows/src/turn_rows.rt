//! Each call of the descriptor, the input, out and report fails in turn, until a run ends to which none does; and what each of
//! these runs leaves of its input.

use crate::bound_rows::TABLE;
use crate::descriptors::HERMITIAN_4;
use crate::rig::{Ends, Row, WORKING, done, is_met_with_unread, stopped};
use agcode_top::Status;
use std::alloc::{AllocError, Global};
use std::test::Fail;
use std::thread::Threads;

const EMPTY: [u8; 8] = [2, 0, 0, 2, 3, 1, 2, 0];

const BYTE_41: [u8; 16] = [1, 0, 0, 1, 2, 3, 1, 0, 1, 2, 0, 3, 0, 3, 0, 3];

const POINTS: &[u8] = b"[0, 0],\n[0, 1],\n[1, 2],\n[1, 3],\n[2, 2],\n[2, 3],\n[3, 2],\n[3, 3],\n";

pub const PARAMS: &[u8] =
    b"n 8\nk 3\nchecks 5\nbound 5\nt 2\nlabels 0 2 3 4 5 6 7 9\nchecked 0 2 3 4 5\nrelation 3:1 6:1\n";

const VOTES: &[u8] = b"6 5 5 0\n7 6 6 0\n9 8 8 0\n";

const TRIAL: &[u8] = b"bytes 3\ncodewords 5\nchanged 3\ncorrected 3\nequal yes\n";

const PLANS: &[u8] =
    b"want 1\norder weight 3 checks 3 bound 3\nstop 3 2\nimproved 3 checks 3 bound 3\nmust 0:1 2:2 3:2\n";

const NO_BYTES: &[u8] = b"done bytes 0 groups 1 changed 0\n";

const ONE_BYTE: &[u8] = b"done bytes 1 groups 2 changed 0\n";

const THREE_BYTES: &[u8] = b"done bytes 3 groups 5 changed 0\n";

const FOUR_LOST: [u8; 16] = [0, 0, 0, 0, 3, 1, 2, 0, 1, 1, 1, 1, 0, 0, 0, 0];

const FILLED: &[u8] = b"filled 0 02\nfilled 1 00\nfilled 2 00\nfilled 3 02\ndone filled 4\n";

// What is read or written.
#[derive(Clone, Copy)]
enum Object {
    Desc,
    Input,
    Out,
}

// The run whose calls of these numbers of an object fail.
fn failing<'a>(row: &Row<'a>, object: Object, fails: &'a [u64]) -> Row<'a> {
    let ends = match object {
        Object::Desc => Ends {
            desc_fails: fails,
            ..row.ends
        },
        Object::Input => Ends {
            input_fails: fails,
            ..row.ends
        },
        Object::Out => Ends {
            out_fails: fails,
            ..row.ends
        },
    };
    Row { ends, ..*row }
}

// The same, which stops there with nothing on out.
fn stopping<'a>(row: &Row<'a>, object: Object, fails: &'a [u64]) -> Row<'a> {
    let (status, report): (Status, &[u8]) = match object {
        Object::Desc => (Status::DescFault, b"descriptor not read\n"),
        Object::Input => (Status::InputFault, b"input not read\n"),
        Object::Out => (Status::OutFault, b"output not written\n"),
    };
    Row {
        status,
        report,
        out: &[],
        ..failing(row, object, fails)
    }
}

// How many bytes a row whose call of this number of an object fails leaves of its input, but at most 128: all, where the
// descriptor is not read; those behind the pieces that the reads before it gave; and none, where all was read.
fn left_at(row: &Row, object: Object, call: u64) -> usize {
    let piece = row.ends.input_piece as usize;
    let given = (call as usize).saturating_mul(piece);
    match object {
        Object::Desc => row.input.len().min(128),
        Object::Input => row.input.len().saturating_sub(given).min(128),
        Object::Out => 0,
    }
}

// Whether each of so many calls of an object stops the run with nothing on out, and a call after them does not: then all of the
// input is read.
fn each_stops<X: Threads + Sync>(
    rt: &X,
    alloc: Global,
    row: &Row,
    object: Object,
    calls: u64,
) -> Result<bool, AllocError> {
    for call in 0..calls {
        let fails = [call];
        let unread = left_at(row, object, call);
        if !is_met_with_unread(rt, alloc, &stopping(row, object, &fails), unread)? {
            return Ok(false);
        }
    }
    let fails = [calls];
    is_met_with_unread(rt, alloc, &failing(row, object, &fails), 0)
}

#[test]
fn commands_that_write_one_text(rt: HostRuntime) -> Result<(), Fail> {
    let alloc = rt.alloc();
    let table = TABLE.as_bytes();
    // a word of eight bytes is read by threes, and then the end; a table and the end by two reads
    let rows = [
        (done("member D", HERMITIAN_4, &EMPTY, b"codeword\n"), 4),
        (done("votes D", HERMITIAN_4, &EMPTY, VOTES), 4),
        (done("points D", HERMITIAN_4, &[], POINTS), 0),
        (done("params D", HERMITIAN_4, &[], PARAMS), 0),
        (done("bound D", HERMITIAN_4, &[], table), 0),
    ];
    for (row, reads) in rows {
        assert!(rt; each_stops(&rt, alloc, &row, Object::Desc, 2)?);
        assert!(rt; each_stops(&rt, alloc, &row, Object::Input, reads)?);
        assert!(rt; each_stops(&rt, alloc, &row, Object::Out, 1)?);
    }
    let whole = Ends {
        input_piece: 4096,
        ..WORKING
    };
    let check = Row {
        ends: whole,
        ..done("check D", HERMITIAN_4, table, b"accepted bound 5\n")
    };
    assert!(rt; each_stops(&rt, alloc, &check, Object::Input, 2)?);
    assert!(rt; each_stops(&rt, alloc, &check, Object::Out, 1)?);
    Ok(())
}

#[test]
fn trial_and_design_read_no_input(rt: HostRuntime) -> Result<(), Fail> {
    let alloc = rt.alloc();
    let rows = [
        done("trial --seed=7 --bytes 3 D", HERMITIAN_4, &[], TRIAL),
        done("design D", HERMITIAN_4, &[], PLANS),
    ];
    for row in rows {
        assert!(rt; each_stops(&rt, alloc, &row, Object::Desc, 2)?);
        assert!(rt; each_stops(&rt, alloc, &row, Object::Input, 0)?);
        assert!(rt; each_stops(&rt, alloc, &row, Object::Out, 1)?);
    }
    Ok(())
}

// The word is on out before its positions are told.
#[test]
fn erase_stops_at_each_call(rt: HostRuntime) -> Result<(), Fail> {
    let alloc = rt.alloc();
    let row = Row {
        report: FILLED,
        ..done("erase D", HERMITIAN_4, &FOUR_LOST, &EMPTY)
    };
    assert!(rt; each_stops(&rt, alloc, &row, Object::Desc, 2)?);
    // sixteen bytes are read by threes, and then the end
    assert!(rt; each_stops(&rt, alloc, &row, Object::Input, 7)?);
    assert!(rt; each_stops(&rt, alloc, &row, Object::Out, 1)?);
    let tells = |fails| Ends {
        report_fails: fails,
        ..WORKING
    };
    let untold = Row {
        ends: tells(&[0]),
        status: Status::ReportFault,
        report: &[],
        ..row
    };
    let told = Row {
        ends: tells(&[1]),
        ..row
    };
    assert!(rt; is_met_with_unread(&rt, alloc, &untold, 0)?);
    assert!(rt; is_met_with_unread(&rt, alloc, &told, 0)?);
    Ok(())
}

// encode of a file, byte by byte, whose input or out fails at a call, after this much of its image.
fn encoding<'a>(file: &'a [u8], ends: Ends<'a>, status: Status, out: &'a [u8]) -> Row<'a> {
    let report = match status {
        Status::InputFault => "input not read\n",
        Status::OutFault => "output not written\n",
        _ => "",
    };
    Row {
        ends,
        out,
        ..stopped("encode D", HERMITIAN_4, file, status, report)
    }
}

// The number of the first row that is not met, or that does not leave so many bytes of its input.
fn missed<X: Threads + Sync>(
    rt: &X,
    alloc: Global,
    rows: &[(Row, usize)],
) -> Result<Option<usize>, AllocError> {
    for (index, turn) in rows.iter().enumerate() {
        if !is_met_with_unread(rt, alloc, &turn.0, turn.1)? {
            return Ok(Some(index));
        }
    }
    Ok(None)
}

// A file is read to its end, or to the read that fails, before a group of it is written.
#[test]
fn encode_stops_after_the_groups_it_has(rt: HostRuntime) -> Result<(), Fail> {
    let reads = |fails| Ends {
        input_piece: 1,
        input_fails: fails,
        ..WORKING
    };
    let writes = |fails| Ends {
        out_fails: fails,
        ..WORKING
    };
    let mut zeros = [0u8; 40];
    zeros[32..].copy_from_slice(&EMPTY);
    let (unread, unwritten, done) = (Status::InputFault, Status::OutFault, Status::Done);
    let rows = [
        (encoding(&[], reads(&[0]), unread, &[]), 0),
        (encoding(&[], reads(&[1]), done, &EMPTY), 0),
        (encoding(&[], writes(&[0]), unwritten, &[]), 0),
        (encoding(&[], writes(&[1]), done, &EMPTY), 0),
        (encoding(&[0x41], reads(&[0]), unread, &[]), 1),
        (encoding(&[0x41], reads(&[1]), unread, &BYTE_41[..8]), 0),
        (encoding(&[0x41], reads(&[2]), done, &BYTE_41), 0),
        (encoding(&[0x41], writes(&[0]), unwritten, &[]), 0),
        (encoding(&[0x41], writes(&[1]), unwritten, &BYTE_41[..8]), 0),
        (encoding(&[0x41], writes(&[2]), done, &BYTE_41), 0),
        // of 8, 16 and 24 bits whole groups are 6, 12 and 24
        (encoding(&[0; 3], reads(&[0]), unread, &[]), 3),
        (encoding(&[0; 3], reads(&[1]), unread, &zeros[..8]), 2),
        (encoding(&[0; 3], reads(&[2]), unread, &zeros[..16]), 1),
        (encoding(&[0; 3], reads(&[3]), unread, &zeros[..32]), 0),
        (encoding(&[0; 3], reads(&[4]), done, &zeros), 0),
        (encoding(&[0; 3], writes(&[0]), unwritten, &[]), 0),
        (encoding(&[0; 3], writes(&[1]), unwritten, &zeros[..8]), 0),
        (encoding(&[0; 3], writes(&[2]), unwritten, &zeros[..16]), 0),
        (encoding(&[0; 3], writes(&[3]), unwritten, &zeros[..24]), 0),
        (encoding(&[0; 3], writes(&[4]), unwritten, &zeros[..32]), 0),
        (encoding(&[0; 3], writes(&[5]), done, &zeros), 0),
    ];
    let missed = missed(&rt, rt.alloc(), &rows)?;
    assert!(rt; missed.is_none(), "{missed:?}");
    Ok(())
}

// The rows are met with 1 and with 8 workers, and leave so many bytes of the input with 1 and so many with 8.
fn assert_decodes<X: Threads + Sync>(
    rt: &X,
    alloc: Global,
    rows: &[(Row, usize, usize)],
) -> Result<(), Fail> {
    for turn in rows {
        let (one, eight) = ("decode D", "decode --workers 8 D");
        if !is_met_with_unread(
            rt,
            alloc,
            &Row {
                line: one,
                ..turn.0
            },
            turn.1,
        )? {
            return Err(Fail::new(one));
        }
        if !is_met_with_unread(
            rt,
            alloc,
            &Row {
                line: eight,
                ..turn.0
            },
            turn.2,
        )? {
            return Err(Fail::new(eight));
        }
    }
    Ok(())
}

// decode of a text, group by group, whose input or report fails at a call, after this much of the file.
fn decoding<'a>(text: &'a [u8], ends: Ends<'a>, status: Status, out: &'a [u8]) -> Row<'a> {
    let report = match status {
        Status::InputFault => "input not read\n",
        Status::OutFault => "output not written\n",
        _ => "",
    };
    Row {
        ends,
        out,
        ..stopped("decode D", HERMITIAN_4, text, status, report)
    }
}

#[test]
fn decode_stops_after_the_bytes_it_is_sure_of(rt: HostRuntime) -> Result<(), Fail> {
    let reads = |fails| Ends {
        input_piece: 8,
        input_fails: fails,
        ..WORKING
    };
    let tells = |fails| Ends {
        report_fails: fails,
        ..WORKING
    };
    let writes = |fails| Ends {
        out_fails: fails,
        ..WORKING
    };
    let mut zeros = [0u8; 40];
    zeros[32..].copy_from_slice(&EMPTY);
    let (unread, untold, unwritten) = (Status::InputFault, Status::ReportFault, Status::OutFault);
    // one group is held back, and each carries six bits; with 8 workers a window has eight groups, and all are read
    let rows = [
        (decoding(&EMPTY, reads(&[0]), unread, &[]), 8, 8),
        (decoding(&EMPTY, reads(&[1]), unread, &[]), 0, 0),
        (decoding(&EMPTY, tells(&[0]), untold, &[]), 0, 0),
        (decoding(&BYTE_41, reads(&[0]), unread, &[]), 16, 16),
        (decoding(&BYTE_41, reads(&[1]), unread, &[]), 8, 8),
        (decoding(&BYTE_41, reads(&[2]), unread, &[]), 0, 0),
        (decoding(&BYTE_41, writes(&[0]), unwritten, &[]), 0, 0),
        (decoding(&BYTE_41, tells(&[0]), untold, &[0x41]), 0, 0),
        (decoding(&zeros, reads(&[0]), unread, &[]), 40, 40),
        (decoding(&zeros, reads(&[1]), unread, &[]), 32, 32),
        (decoding(&zeros, reads(&[2]), unread, &[]), 24, 24),
        (decoding(&zeros, reads(&[3]), unread, &[0]), 16, 16),
        (decoding(&zeros, reads(&[4]), unread, &[0; 2]), 8, 8),
        (decoding(&zeros, reads(&[5]), unread, &[0; 3]), 0, 0),
        (decoding(&zeros, writes(&[0]), unwritten, &[]), 16, 0),
        (decoding(&zeros, writes(&[1]), unwritten, &[0]), 8, 0),
        (decoding(&zeros, writes(&[2]), unwritten, &[0; 2]), 0, 0),
        (decoding(&zeros, tells(&[0]), untold, &[0; 3]), 0, 0),
    ];
    assert_decodes(&rt, rt.alloc(), &rows)
}

// decode of a text, group by group, whose call that fails comes after its last one.
fn decoded<'a>(text: &'a [u8], ends: Ends<'a>, out: &'a [u8], report: &'a [u8]) -> Row<'a> {
    Row {
        ends,
        report,
        ..done("decode D", HERMITIAN_4, text, out)
    }
}

#[test]
fn decode_is_done_where_no_call_fails(rt: HostRuntime) -> Result<(), Fail> {
    let reads = |fails| Ends {
        input_piece: 8,
        input_fails: fails,
        ..WORKING
    };
    let tells = |fails| Ends {
        report_fails: fails,
        ..WORKING
    };
    let writes = |fails| Ends {
        out_fails: fails,
        ..WORKING
    };
    let mut zeros = [0u8; 40];
    zeros[32..].copy_from_slice(&EMPTY);
    let rows = [
        (decoded(&EMPTY, reads(&[2]), &[], NO_BYTES), 0, 0),
        (decoded(&EMPTY, writes(&[0]), &[], NO_BYTES), 0, 0),
        (decoded(&EMPTY, tells(&[1]), &[], NO_BYTES), 0, 0),
        (decoded(&BYTE_41, reads(&[3]), &[0x41], ONE_BYTE), 0, 0),
        (decoded(&BYTE_41, writes(&[1]), &[0x41], ONE_BYTE), 0, 0),
        (decoded(&BYTE_41, tells(&[1]), &[0x41], ONE_BYTE), 0, 0),
        (decoded(&zeros, reads(&[6]), &[0; 3], THREE_BYTES), 0, 0),
        (decoded(&zeros, writes(&[3]), &[0; 3], THREE_BYTES), 0, 0),
        (decoded(&zeros, tells(&[1]), &[0; 3], THREE_BYTES), 0, 0),
    ];
    assert_decodes(&rt, rt.alloc(), &rows)
}

#[test]
fn encode_and_decode_stop_at_the_descriptor(rt: HostRuntime) -> Result<(), Fail> {
    let alloc = rt.alloc();
    let rows = [
        done("encode D", HERMITIAN_4, &[0x41], &BYTE_41),
        decoded(&BYTE_41, WORKING, &[0x41], ONE_BYTE),
        Row {
            line: "decode --workers 8 D",
            ..decoded(&BYTE_41, WORKING, &[0x41], ONE_BYTE)
        },
    ];
    for row in rows {
        assert!(rt; each_stops(&rt, alloc, &row, Object::Desc, 2)?);
    }
    Ok(())
}
