//! Codes on affine spaces: Reed-Solomon codes on a line, and a hyperbolic code on a plane.

ghost use Rattle.std.specs.Prelude.{◌≤◌};

use crate::descriptors::{LINE_4, PLANE_4, with, with_all_points};
use crate::rig::{Row, done, is_met, missed, plain, stopped};
use agcode_top::Status;
use code_descriptor::{DescCause, KeyName};
use std::alloc::{AllocError, Global};
use std::test::Fail;
use std::thread::Threads;

/// The empty file on the line.
const EMPTY: [u8; 4] = [2, 0, 1, 3];

#[test]
fn a_code_on_a_line(rt: HostRuntime) -> Result<(), Fail> {
    let params = b"n 4\nk 2\nchecks 2\nbound 3\nt 1\nlabels 0 1 2 3\nchecked 0 1\nrelation none\n";
    let rows = [
        done("points D", LINE_4, &[], b"[0],\n[1],\n[2],\n[3],\n"),
        done("params D", LINE_4, &[], params),
        done("encode D", LINE_4, &[], &EMPTY),
        Row {
            report: b"changed 0 0 3 00 03\ndone bytes 0 groups 1 changed 1\n",
            ..done("decode D", LINE_4, &[2, 0, 1, 0], &[])
        },
        done("member D", LINE_4, &[1, 0, 3, 2], b"codeword\n"),
        Row {
            status: Status::NotCodeword,
            ..done("member D", LINE_4, &[1, 0, 3, 3], b"not a codeword\n")
        },
    ];
    assert_eq!(rt; missed(&rt, rt.alloc(), &rows)?, None);
    Ok(())
}

// The four symbols 2, 0, 1 and 3 in two bits each
#[test]
fn a_packed_code_on_a_line(rt: HostRuntime) -> Result<(), Fail> {
    let alloc = rt.alloc();
    let packed = with(alloc, LINE_4, "depth = 1", "depth = 1\nlayout = \"packed\"")?;
    let desc = packed.as_str();
    let rows = [
        done("encode D", desc, &[], &[0x87]),
        Row {
            report: b"changed 0 0 3 00 03\ndone bytes 0 groups 1 changed 1\n",
            ..done("decode D", desc, &[0x84], &[])
        },
    ];
    assert_eq!(rt; missed(&rt, alloc, &rows)?, None);
    Ok(())
}

// The byte 0x41: of its first codeword two symbols changed places, and the second has one change.
#[test]
fn a_lost_codeword_on_a_line(rt: HostRuntime) -> Result<(), Fail> {
    let text = [1, 0, 2, 3, 0, 1, 2, 0, 2, 0, 1, 3];
    let report = "lost 0 0\nchanged 1 0 3 00 03\nsalvaged bytes 1 groups 3 changed 1 lost 1\n";
    let row = Row {
        out: &[0x41],
        ..stopped(
            "decode --salvage D",
            LINE_4,
            &text,
            Status::Salvaged,
            report,
        )
    };
    assert!(rt; is_met(&rt, rt.alloc(), &row)?);
    Ok(())
}

#[test]
fn a_hyperbolic_code(rt: HostRuntime) -> Result<(), Fail> {
    let alloc = rt.alloc();
    let plane = with_all_points(&rt, alloc, PLANE_4)?;
    let params =
        b"n 16\nk 11\nchecks 5\nbound 4\nt 1\nlabels 0 1 2 3 4 5 6 7 8 9 11 12 13 17 18 24\nchecked 0 1 2 3 5\nrelation none\n";
    assert!(rt; is_met(&rt, alloc, &done("params D", plane.as_str(), &[], params))?);
    Ok(())
}

// Whether the line is refused for this cause, with a piece of its text replaced.
fn is_refused<X: Threads + Sync>(
    rt: &X,
    alloc: Global,
    from: &str,
    to: &str,
    cause: DescCause,
    told: &str,
) -> Result<bool, AllocError> {
    let desc = with(alloc, LINE_4, from, to)?;
    let line = format!(in alloc; "descriptor: {told}\n")?;
    let status = Status::Descriptor { cause };
    is_met(
        rt,
        alloc,
        &stopped("params D", desc.as_str(), &[], status, line.as_str()),
    )
}

#[test]
fn a_space_is_refused(rt: HostRuntime) -> Result<(), Fail> {
    let a = DescCause::BadKey { key: KeyName::A };
    let first = DescCause::BadPoint { index: 0 };
    let cases = [
        ("space = 1", "space = 4", DescCause::BadSpace, "space"),
        (
            "bits = 2\nmodulus = 7\nspace = 1",
            "bits = 6\nmodulus = 67\nspace = 3",
            DescCause::BadSpace,
            "space",
        ),
        ("space = 1", "space = 1\na = 2", a, "key a"),
        ("[[0], ", "[[0, 0], ", first, "point 0"),
    ];
    for (from, to, cause, told) in cases {
        assert!(rt; is_refused(&rt, rt.alloc(), from, to, cause, told)?, "{to}");
    }
    Ok(())
}

// Changes one symbol in each of the first codewords of n symbols: each place of a codeword in each of the three ways.
fn change_each(text: &mut [u8], n: usize)
    requires { 1 ≤ n }
{
    for (index, symbol) in text.iter_mut().enumerate() {
        let group = index / n;
        if index % n == group / 3 {
            *symbol ^= (group % 3) as u8 + 1;
        }
    }
}

// Whether a file comes back, with this end of the report, where one symbol of each of its codewords is changed.
fn is_repaired<X: Threads + Sync>(
    rt: &X,
    alloc: Global,
    desc: &str,
    n: usize,
    file: &[u8],
    report: &str,
) -> Result<bool, AllocError>
    requires { 1 ≤ n }
{
    let mut text = plain(rt, alloc, "encode D", desc, file)?.out;
    change_each(&mut text, n);
    let left = plain(rt, alloc, "decode D", desc, &text)?;
    let is_told = left.report.as_slice().ends_with(report.as_bytes());
    Ok(is_told && left.out.as_slice() == file)
}

// A file of 6 bytes has 13 codewords on the line, one of 131 bytes 48 on the plane: as many as there are errors, and on the line one more.
#[test]
fn every_error_of_one_symbol(rt: HostRuntime) -> Result<(), Fail> {
    let alloc = rt.alloc();
    let plane = with_all_points(&rt, alloc, PLANE_4)?;
    let file = vec![in alloc; 0x6bu8; 131]?;
    let report = "\ndone bytes 6 groups 13 changed 12\n";
    assert!(rt; is_repaired(&rt, alloc, LINE_4, 4, b"agcode", report)?);
    let report = "\ndone bytes 131 groups 48 changed 48\n";
    assert!(rt; is_repaired(&rt, alloc, plane.as_str(), 16, &file, report)?);
    Ok(())
}

// The line over 256 elements without 0, and 32 checks: 255 points, and 16 errors are repaired.
fn line_of_bytes(alloc: Global) -> Result<String, AllocError> {
    let mut text = String::from_str(
        alloc,
        "bits = 8\nmodulus = 285\nspace = 1\nweight = 31\ndepth = 1\npoints = [",
    )?;
    for x in 1..256u32 {
        text.push_str(format!(in alloc; "[{x}], ")?.as_str())?;
    }
    text.push_str("]\n")?;
    Ok(text)
}

// Changes sixteen symbols of each codeword of 255.
fn damage(text: &mut [u8]) {
    for (place, symbol) in text.iter_mut().enumerate() {
        if place % 255 % 15 == 7 && place % 255 < 240 {
            *symbol ^= 0x5a;
        }
    }
}

// How a damaged text of a file is decoded.
fn decoded<X: Threads + Sync>(
    rt: &X,
    alloc: Global,
    desc: &str,
    file: &[u8],
    report: &str,
) -> Result<bool, AllocError> {
    let mut text = plain(rt, alloc, "encode D", desc, file)?.out;
    damage(&mut text);
    let left = plain(rt, alloc, "decode D", desc, &text)?;
    let is_told = left.report.as_slice().ends_with(report.as_bytes());
    Ok(is_told && left.out.as_slice() == file)
}

#[test]
fn sixteen_errors_in_each_codeword_of_bytes(rt: HostRuntime) -> Result<(), Fail> {
    let alloc = rt.alloc();
    let desc = line_of_bytes(alloc)?;
    let params = plain(&rt, alloc, "params D", desc.as_str(), &[])?;
    let numbers = b"n 255\nk 223\nchecks 32\nbound 33\nt 16\n".as_slice();
    assert!(rt; params.out.as_slice().starts_with(numbers));
    let file = vec![in alloc; 0x41u8; 300]?;
    let report = "\ndone bytes 300 groups 2 changed 32\n";
    assert!(rt; decoded(&rt, alloc, desc.as_str(), &file, report)?);
    Ok(())
}
