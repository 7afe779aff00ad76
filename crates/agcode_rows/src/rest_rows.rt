//! What a run leaves of its input.

use crate::descriptors::HERMITIAN_4;
use crate::rig::{Ends, Row, WORKING, done, is_met_with_unread, stopped};
use crate::turn_rows::PARAMS;
use agcode_top::Status;
use code_descriptor::{DescCause, KeyName};
use std::test::Fail;

const WORD: [u8; 8] = [1, 0, 0, 1, 2, 3, 1, 0];

#[test]
fn what_ends_before_the_input_takes_none(rt: HostRuntime) -> Result<(), Fail> {
    let no_desc = Ends {
        desc_fails: &[0],
        ..WORKING
    };
    let usage = "usage: agcode COMMAND [OPTIONS] DESC\n";
    let cause = DescCause::BadKey { key: KeyName::Bits };
    let (fault, refused) = (Status::DescFault, Status::Descriptor { cause });
    let rows = [
        stopped("member", HERMITIAN_4, &WORD, Status::Usage, usage),
        Row {
            ends: no_desc,
            ..stopped(
                "encode D",
                HERMITIAN_4,
                &WORD,
                fault,
                "descriptor not read\n",
            )
        },
        stopped("decode D", "", &WORD, refused, "descriptor: key bits\n"),
        done("params D", HERMITIAN_4, &WORD, PARAMS),
    ];
    for row in rows {
        assert!(rt; is_met_with_unread(&rt, rt.alloc(), &row, 8)?);
    }
    Ok(())
}

// A run whose second read fails, after the first gave a piece of so many bytes.
fn unread<'a>(line: &'a str, input: &'a [u8], piece: u32) -> Row<'a> {
    let ends = Ends {
        input_piece: piece,
        input_fails: &[1],
        ..WORKING
    };
    let fault = Status::InputFault;
    Row {
        ends,
        ..stopped(line, HERMITIAN_4, input, fault, "input not read\n")
    }
}

#[test]
fn a_run_takes_what_its_status_speaks_of(rt: HostRuntime) -> Result<(), Fail> {
    let long = Status::WordLength { taken: 9 };
    let ragged = Status::Ragged { extra: 1 };
    let three = [0x41, 0x41, 0x41];
    let nine = [2, 0, 0, 2, 3, 1, 2, 0, 7];
    let rows = [
        (done("member D", HERMITIAN_4, &WORD, b"codeword\n"), 0),
        (
            stopped("votes D", HERMITIAN_4, &[0; 100], long, "word length\n"),
            91,
        ),
        (
            stopped("decode D", HERMITIAN_4, &nine, ragged, "ragged 1\n"),
            0,
        ),
        (unread("member D", &WORD, 3), 5),
        (
            Row {
                out: &WORD,
                ..unread("encode D", &three, 1)
            },
            2,
        ),
        (unread("decode D", &nine, 3), 6),
    ];
    for (row, rest) in rows {
        assert!(rt;
            is_met_with_unread(&rt, rt.alloc(), &row, rest)?,
            "{}",
            row.line
        );
    }
    Ok(())
}
