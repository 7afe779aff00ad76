//! Lost positions of a word are filled in: an input is a word, and then a mark for each position.

use crate::descriptors::{HERMITIAN_4, HERMITIAN_16, is_met_with, with_all_points};
use crate::rig::{Ends, Row, WORKING, done, is_met, missed, stopped};
use agcode_top::Status;
use std::alloc::Global;
use std::test::Fail;
use std::thread::Threads;

// A word of eight symbols and its marks, with the word that it becomes and the lines on report.
fn filled<'a>(input: &'a [u8], word: &'a [u8], report: &'a str) -> Row<'a> {
    Row {
        report: report.as_bytes(),
        ..done("erase D", HERMITIAN_4, input, word)
    }
}

// An input that nothing is filled in of.
fn refused<'a>(input: &'a [u8], status: Status, line: &'a str) -> Row<'a> {
    stopped("erase D", HERMITIAN_4, input, status, line)
}

const WORD: [u8; 8] = [2, 0, 0, 2, 3, 1, 2, 0];

const FOUR_LOST: [u8; 16] = [0, 0, 0, 0, 3, 1, 2, 0, 1, 1, 1, 1, 0, 0, 0, 0];

const LINES: &str = "filled 0 02\nfilled 1 00\nfilled 2 00\nfilled 3 02\ndone filled 4\n";

#[test]
fn erase_fills_what_is_lost(rt: HostRuntime) -> Result<(), Fail> {
    let other_bytes = [9, 255, 6, 1, 3, 1, 2, 0, 1, 1, 1, 1, 0, 0, 0, 0];
    let none_lost = [2, 0, 0, 2, 3, 1, 2, 0, 0, 0, 0, 0, 0, 0, 0, 0];
    let rows = [
        filled(&FOUR_LOST, &WORD, LINES),
        // what stands at a lost position does not count
        filled(&other_bytes, &WORD, LINES),
        filled(&none_lost, &WORD, "done filled 0\n"),
    ];
    let missed = missed(&rt, rt.alloc(), &rows)?;
    assert!(rt; missed.is_none(), "{missed:?}");
    // a word has a byte for each symbol in the packed layout too
    let packed = "depth = 1\nlayout = \"packed\"";
    assert!(rt; is_met_with(&rt, rt.alloc(), &rows[0], "depth = 1", packed)?);
    Ok(())
}

#[test]
fn erase_says_why_nothing_is_filled(rt: HostRuntime) -> Result<(), Fail> {
    // the places of the codeword 1 0 0 1 2 3 1 0 are lost
    let many = [0, 0, 0, 0, 0, 0, 0, 0, 1, 0, 0, 1, 1, 1, 1, 0];
    // those of the codeword 0 0 1 1 2 2 3 3
    let late = [0, 0, 0, 0, 0, 0, 0, 0, 0, 0, 1, 1, 1, 1, 1, 1];
    let far = [1, 1, 1, 0, 0, 0, 0, 0, 0, 0, 0, 0, 0, 0, 0, 0];
    // right in its low bits, but no symbol
    let high = [6, 0, 0, 2, 3, 1, 2, 0, 0, 0, 0, 0, 0, 0, 0, 0];
    // a bad mark comes before what the word says
    let marked = [1, 1, 1, 0, 0, 0, 0, 0, 0, 1, 0, 2, 0, 255, 0, 0];
    let short = Status::WordLength { taken: 8 };
    let long = Status::WordLength { taken: 17 };
    let rows = [
        refused(&many, Status::Ambiguous { place: 0 }, "ambiguous 0\n"),
        refused(&late, Status::Ambiguous { place: 2 }, "ambiguous 2\n"),
        refused(&far, Status::NoCodeword, "no codeword\n"),
        refused(&high, Status::NoCodeword, "no codeword\n"),
        refused(&marked, Status::BadMark { place: 3 }, "mark 3\n"),
        refused(&WORD, short, "word length\n"),
        refused(&[1; 100], long, "word length\n"),
        refused(&[], Status::WordLength { taken: 0 }, "word length\n"),
    ];
    let missed = missed(&rt, rt.alloc(), &rows)?;
    assert!(rt; missed.is_none(), "{missed:?}");
    Ok(())
}

#[test]
fn erase_stops_at_a_fault(rt: HostRuntime) -> Result<(), Fail> {
    let no_input = Ends {
        input_fails: &[1],
        ..WORKING
    };
    let no_out = Ends {
        out_fails: &[0],
        ..WORKING
    };
    let no_report = Ends {
        report_fails: &[0],
        ..WORKING
    };
    let fault = Status::InputFault;
    let stop = Status::OutFault;
    let rows = [
        Row {
            ends: no_input,
            ..refused(&FOUR_LOST, fault, "input not read\n")
        },
        Row {
            ends: no_out,
            ..refused(&FOUR_LOST, stop, "output not written\n")
        },
        Row {
            ends: no_report,
            status: Status::ReportFault,
            ..filled(&FOUR_LOST, &WORD, "")
        },
    ];
    let missed = missed(&rt, rt.alloc(), &rows)?;
    assert!(rt; missed.is_none(), "{missed:?}");
    Ok(())
}

// ---- a codeword of least weight

// The values of (x - 1)(x - 8)(y - 8)(y - 9) .. (y - 14) at the 64 points. These lines meet the curve in 43 of them, and the
// product has the weight 43, so that it is orthogonal to the functions of weight up to 31: a codeword of 21 symbols that are
// not 0, as many as the order bound says.
const LEAST: [u8; 64] = [
    12, 11, 3, 1, 0, 0, 0, 0, 0, 0, 0, 0, 0, 0, 0, 0, 0, 0, 0, 9, 0, 0, 0, 1, 0, 0, 0, 12, 0, 0, 0,
    0, 0, 0, 0, 0, 0, 0, 0, 8, 7, 4, 2, 9, 0, 0, 0, 0, 4, 10, 5, 12, 0, 0, 0, 0, 0, 0, 0, 4, 5, 1,
    9, 15,
];

// What is told of its first twenty symbols that are not 0.
const LEAST_LINES: &str = "filled 0 0c
filled 1 0b
filled 2 03
filled 3 01
filled 19 09
filled 23 01
filled 27 0c
filled 39 08
filled 40 07
filled 41 04
filled 42 02
filled 43 09
filled 48 04
filled 49 0a
filled 50 05
filled 51 0c
filled 59 04
filled 60 05
filled 61 01
filled 62 09
done filled 20
";

// This word, with the first `most` of the positions lost at which the codeword is not 0.
fn without(word: &[u8; 64], most: usize) -> [u8; 128] {
    let mut input = [0; 128];
    let mut lost = 0usize;
    for p in 0..64 {
        input[p] = word[p];
        if LEAST[p] != 0 && lost < most {
            input[p] = 0;
            input[64 + p] = 1;
            lost += 1;
        }
    }
    input
}

fn is_met_on_all_points<X: Threads + Sync>(rt: &X, alloc: Global, row: &Row) -> Result<bool, Fail> {
    let desc = with_all_points(rt, alloc, HERMITIAN_16)?;
    let row = Row {
        desc: desc.as_bytes(),
        ..*row
    };
    Ok(is_met(rt, alloc, &row)?)
}

// One position fewer than the bound is filled in; as many as the bound are not, where a codeword has its symbols there.
#[test]
fn erase_fills_up_to_the_bound(rt: HostRuntime) -> Result<(), Fail> {
    let fewer = without(&LEAST, 20);
    assert!(rt; is_met_on_all_points(&rt, rt.alloc(), &filled(&fewer, &LEAST, LEAST_LINES))?);
    let status = Status::Ambiguous { place: 0 };
    let as_many = without(&LEAST, 21);
    assert!(rt;
        is_met_on_all_points(&rt, rt.alloc(), &refused(&as_many, status, "ambiguous 0\n"))?
    );
    Ok(())
}
