//! Texts that store each symbol in as many bits as it has.

use crate::bound_rows::TABLE;
use crate::damage::{Damage, assert_repairs};
use crate::descriptors::{HERMITIAN_4, is_met_with, with};
use crate::rig::{Row, done, is_met, plain, stopped};
use agcode_top::Status;
use code_descriptor::{DescCause, KeyName};
use std::alloc::Global;
use std::test::Fail;
use std::thread::Threads;

const PACKED: &str = "depth = 1\nlayout = \"packed\"";

// The rows are met in layout packed.
fn assert_met<X: Threads + Sync>(rt: &X, alloc: Global, rows: &[Row]) -> Result<(), Fail> {
    for row in rows {
        if !is_met_with(rt, alloc, row, "depth = 1", PACKED)? {
            return Err(Fail::new(row.line));
        }
    }
    Ok(())
}

// A text that is read as the empty file.
fn read<'a>(line: &'a str, text: &'a [u8], report: &'a str) -> Row<'a> {
    Row {
        report: report.as_bytes(),
        ..done(line, HERMITIAN_4, text, &[])
    }
}

#[test]
fn four_symbols_to_the_byte(rt: HostRuntime) -> Result<(), Fail> {
    let report = "changed 0 0 2 01 00\nchanged 0 0 3 00 02\ndone bytes 0 groups 1 changed 2\n";
    let rows = [
        done("encode D", HERMITIAN_4, &[], &[0x82, 0xd8]),
        read("decode D", &[0x84, 0xd8], report),
        read("decode --workers 8 D", &[0x84, 0xd8], report),
        stopped(
            "decode D",
            HERMITIAN_4,
            &[0x82],
            Status::Ragged { extra: 1 },
            "ragged 1\n",
        ),
    ];
    assert_met(&rt, rt.alloc(), &rows)
}

// A word of member and of votes has a byte for each symbol in this layout too, and votes compares bytes.
#[test]
fn words_and_tables_are_the_same(rt: HostRuntime) -> Result<(), Fail> {
    let beyond = Status::Beyond { group: 0, word: 0 };
    let rows = [
        done(
            "member D",
            HERMITIAN_4,
            &[1, 0, 0, 1, 2, 3, 1, 0],
            b"codeword\n",
        ),
        done(
            "votes D",
            HERMITIAN_4,
            &[2, 0, 1, 0, 3, 1, 2, 0],
            b"6 5 2 1\n7 6 2 0\n9 8 4 0\n",
        ),
        stopped(
            "votes D",
            HERMITIAN_4,
            &[6, 0, 0, 0, 3, 1, 0xff, 0],
            beyond,
            "beyond 0 0\n",
        ),
        done("bound D", HERMITIAN_4, &[], TABLE.as_bytes()),
        done(
            "check D",
            HERMITIAN_4,
            TABLE.as_bytes(),
            b"accepted bound 5\n",
        ),
        done(
            "trial --seed=7 --bytes 3 D",
            HERMITIAN_4,
            &[],
            b"bytes 3\ncodewords 5\nchanged 3\ncorrected 3\nequal yes\n",
        ),
    ];
    assert_met(&rt, rt.alloc(), &rows)
}

#[test]
fn bits_after_the_symbols_have_any_value(rt: HostRuntime) -> Result<(), Fail> {
    let alloc = rt.alloc();
    let few = ", [1, 3], [2, 2], [2, 3], [3, 2], [3, 3]]\nweight = 5\ndepth = 1";
    let desc = with(
        alloc,
        HERMITIAN_4,
        few,
        "]\nweight = 0\ndepth = 1\nlayout = \"packed\"",
    )?;
    let params = b"n 3\nk 2\nchecks 1\nbound 2\nt 0\nlabels 0 2 3\nchecked 0\nrelation 3:1 6:1\n";
    let rows = [
        done("params D", desc.as_str(), &[], params),
        done("encode D", desc.as_str(), &[], &[0x88]),
        Row {
            desc: desc.as_bytes(),
            ..read("decode D", &[0x8b], "done bytes 0 groups 1 changed 0\n")
        },
    ];
    for row in &rows {
        assert!(rt; is_met(&rt, alloc, row)?);
    }
    Ok(())
}

// A descriptor over the field of so many bits, with seven points of y^2 + y = x^3: codewords of seven symbols, four of them
// message, with radius 1. A group ends within a byte but where a symbol is one.
fn seven_points<X: Threads + Sync>(
    rt: &X,
    alloc: Global,
    bits: u32,
    modulus: u32,
) -> Result<String, Fail> {
    let head = format!(in alloc; "bits = {bits}\nmodulus = {modulus}\na = 2\nb = 3\n")?;
    let terms = "terms = [[0, 2, 1], [0, 1, 1], [3, 0, 1]]\n";
    let rest = "\nweight = 3\ndepth = 1\nlayout = \"packed\"\n";
    let none = format!(in alloc; "{head}{terms}points = []{rest}")?;
    let list = String::from_utf8(plain(rt, alloc, "points D", none.as_str(), &[])?.out)?;
    let mut points = String::new(alloc);
    for line in list.lines().take(7) {
        points.push_str(line)?;
    }
    Ok(format!(in alloc; "{head}{terms}points = [{points}]{rest}")?)
}

// Ten bytes in codewords of each number of bits, with one change in each codeword and the bits after it changed too.
#[test]
fn symbols_have_two_to_eight_bits(rt: HostRuntime) -> Result<(), Fail> {
    let alloc = rt.alloc();
    let cases: [(u8, u32, u32, u8); 7] = [
        (2, 7, 2, 11),
        (3, 11, 3, 7),
        (4, 19, 4, 6),
        (5, 37, 5, 5),
        (6, 67, 6, 4),
        (7, 131, 7, 3),
        (8, 283, 7, 3),
    ];
    for (width, modulus, group, groups) in cases {
        let desc = seven_points(&rt, alloc, u32::from(width), modulus)?;
        let damage = Damage {
            group,
            symbols: 7,
            width,
            depth: 1,
            step: 8,
            last: 6,
        };
        let end = format!(in alloc; "\ndone bytes 10 groups {groups} changed {groups}\n")?;
        assert_repairs(
            &rt,
            alloc,
            desc.as_str(),
            10,
            &damage,
            usize::from(groups) + 1,
            end.as_str(),
        )?;
    }
    Ok(())
}

#[test]
fn a_layout_is_refused(rt: HostRuntime) -> Result<(), Fail> {
    let key = DescCause::BadKey {
        key: KeyName::Layout,
    };
    let cases = [
        ("\"raw\"", DescCause::BadLayout, "descriptor: layout\n"),
        ("1", key, "descriptor: key layout\n"),
    ];
    for (layout, cause, told) in cases {
        let text = format!(in rt.alloc(); "depth = 1\nlayout = {layout}")?;
        let row = stopped(
            "params D",
            HERMITIAN_4,
            &[],
            Status::Descriptor { cause },
            told,
        );
        let met = is_met_with(&rt, rt.alloc(), &row, "depth = 1", text.as_str())?;
        assert!(rt; met, "{layout}");
    }
    Ok(())
}
