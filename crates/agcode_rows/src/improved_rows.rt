//! Codes that are checked by the number of pairs.

use crate::bound_rows::TABLE;
use crate::descriptors::{HERMITIAN_4, HERMITIAN_16, is_met_with, with, with_all_points};
use crate::rig::{Row, done, plain, stopped};
use agcode_top::Status;
use code_descriptor::{DescCause, KeyName};
use std::alloc::Global;
use std::test::Fail;
use std::thread::Threads;

/// The empty file in the code that checks the functions with fewer than three pairs.
const EMPTY: [u8; 8] = [2, 0, 0, 0, 0, 1, 1, 2];

/// It, with its first byte changed.
const CHANGED: [u8; 8] = [0, 0, 0, 0, 0, 1, 1, 2];

// The rows are met where the first descriptor has this line in place of its weight.
fn assert_met<X: Threads + Sync>(
    rt: &X,
    alloc: Global,
    rows: &[Row],
    improved: &str,
) -> Result<(), Fail> {
    for row in rows {
        if !is_met_with(rt, alloc, row, "weight = 5", improved)? {
            return Err(Fail::new(row.line));
        }
    }
    Ok(())
}

#[test]
fn fewer_checks_for_one_change(rt: HostRuntime) -> Result<(), Fail> {
    let params =
        b"n 8\nk 5\nchecks 3\nbound 3\nt 1\nlabels 0 2 3 4 5 6 7 9\nchecked 0 2 3\nrelation 3:1 6:1\n";
    let rows = [
        done("params D", HERMITIAN_4, &[], params),
        done("encode D", HERMITIAN_4, &[], &EMPTY),
        Row {
            report: b"changed 0 0 0 00 02\ndone bytes 0 groups 1 changed 1\n",
            ..done("decode D", HERMITIAN_4, &CHANGED, &[])
        },
        // a word that the functions of label 4 and 5 do not check
        done("member D", HERMITIAN_4, &EMPTY, b"codeword\n"),
        Row {
            status: Status::NotCodeword,
            ..done("member D", HERMITIAN_4, &CHANGED, b"not a codeword\n")
        },
        // one change: no candidate with the first function, and every other one is right
        done(
            "votes D",
            HERMITIAN_4,
            &CHANGED,
            b"4 3 1 0\n5 4 2 0\n6 5 3 0\n7 6 4 0\n9 8 6 0\n",
        ),
    ];
    assert_met(&rt, rt.alloc(), &rows, "improved = 3")
}

// Each symbol of the group is changed to each other symbol, and to a byte that is no symbol.
#[test]
fn each_change_of_one_symbol_is_repaired(rt: HostRuntime) -> Result<(), Fail> {
    let alloc = rt.alloc();
    for (position, new) in EMPTY.iter().enumerate() {
        for change in [1, 2, 3, 0x84] {
            let mut text = EMPTY;
            text[position] ^= change;
            let old = *new ^ change;
            let report = format!(in alloc;
                "changed 0 0 {position} {old:02x} {new:02x}\ndone bytes 0 groups 1 changed 1\n"
            )?;
            let row = Row {
                report: report.as_bytes(),
                ..done("decode D", HERMITIAN_4, &text, &[])
            };
            assert_met(&rt, alloc, &[row], "improved = 3")?;
        }
    }
    Ok(())
}

#[test]
fn no_checks_at_all(rt: HostRuntime) -> Result<(), Fail> {
    let params =
        b"n 8\nk 8\nchecks 0\nbound 1\nt 0\nlabels 0 2 3 4 5 6 7 9\nchecked\nrelation 3:1 6:1\n";
    let rows = [
        done("params D", HERMITIAN_4, &[], params),
        done("encode D", HERMITIAN_4, &[], &[2, 0, 0, 0, 0, 0, 0, 0]),
    ];
    assert_met(&rt, rt.alloc(), &rows, "improved = 0")
}

#[test]
fn the_table_has_other_marks(rt: HostRuntime) -> Result<(), Fail> {
    let alloc = rt.alloc();
    let heads = with(alloc, TABLE, "checked 5 bound 5", "checked 3 bound 3")?;
    let fourth = with(alloc, heads.as_str(), "label 4 3 c", "label 4 3 f")?;
    let table = with(alloc, fourth.as_str(), "label 5 4 c", "label 5 4 f")?;
    let rows = [
        done("bound D", HERMITIAN_4, &[], table.as_bytes()),
        done(
            "check D",
            HERMITIAN_4,
            table.as_bytes(),
            b"accepted bound 3\n",
        ),
        // the marks of a weight
        stopped(
            "check D",
            HERMITIAN_4,
            TABLE.as_bytes(),
            Status::TableRefused { line: 6 },
            "table refused at line 6\n",
        ),
    ];
    assert_met(&rt, alloc, &rows, "improved = 3")
}

// Whether params refuses the rule for this cause.
fn is_refused<X: Threads + Sync>(
    rt: &X,
    alloc: Global,
    rule: &str,
    cause: DescCause,
    told: &str,
) -> Result<bool, Fail> {
    let line = format!(in alloc; "descriptor: {told}\n")?;
    let status = Status::Descriptor { cause };
    let row = stopped("params D", HERMITIAN_4, &[], status, line.as_str());
    Ok(is_met_with(rt, alloc, &row, "weight = 5\n", rule)?)
}

#[test]
fn a_rule_is_refused(rt: HostRuntime) -> Result<(), Fail> {
    let key = |key| DescCause::BadKey { key };
    let cases = [
        ("improved = 9\n", DescCause::NothingFree, "nothing free"),
        (
            "weight = 5\nimproved = 3\n",
            key(KeyName::Improved),
            "key improved",
        ),
        ("", key(KeyName::Weight), "key weight"),
        ("improved = -1\n", DescCause::BadImproved, "improved"),
        ("improved = 65536\n", DescCause::BadImproved, "improved"),
    ];
    for (rule, cause, told) in cases {
        assert!(rt; is_refused(&rt, rt.alloc(), rule, cause, told)?, "{rule}");
    }
    Ok(())
}

// Whether a command on the code over 16 elements is done, with a text on out that begins and ends so.
fn tells<X: Threads + Sync>(
    rt: &X,
    alloc: Global,
    line: &str,
    rule: &str,
    begin: &str,
    end: &str,
) -> Result<bool, Fail> {
    let all = with_all_points(rt, alloc, HERMITIAN_16)?;
    let desc = with(alloc, all.as_str(), "weight = 31", rule)?;
    let left = plain(rt, alloc, line, desc.as_str(), &[])?;
    let out = left.out.as_slice();
    let is_told = out.starts_with(begin.as_bytes()) && out.ends_with(end.as_bytes());
    Ok(is_told && left.status == Status::Done)
}

#[test]
fn fewer_checks_than_by_weight(rt: HostRuntime) -> Result<(), Fail> {
    let cases = [
        (
            "params D",
            "improved = 6",
            "n 64\nk 55\nchecks 9\nbound 6\nt 2\n",
            "\nchecked 0 4 5 8 9 10 12 15 16\nrelation 5:1 20:1\n",
        ),
        // the example, and the least weight that repairs as many
        (
            "params D",
            "improved = 5",
            "n 64\nk 56\nchecks 8\nbound 5\nt 2\n",
            "\nchecked 0 4 5 8 9 10 12 15\nrelation 5:1 20:1\n",
        ),
        (
            "params D",
            "weight = 15",
            "n 64\nk 54\nchecks 10\nbound 5\nt 2\n",
            "\nrelation 5:1 20:1\n",
        ),
        (
            "params D",
            "weight = 16",
            "n 64\nk 53\nchecks 11\nbound 8\nt 3\n",
            "\nrelation 5:1 20:1\n",
        ),
        (
            "trial --seed 1 --bytes 200 D",
            "improved = 6",
            "bytes 200\ncodewords 8\n",
            "\nequal yes\n",
        ),
    ];
    for (line, rule, begin, end) in cases {
        let is_told = tells(&rt, rt.alloc(), line, rule, begin, end)?;
        assert!(rt; is_told, "{line} {rule}");
    }
    Ok(())
}
