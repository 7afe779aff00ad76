use crate::descriptors::{HERMITIAN_4, is_met_with};
use crate::rig::{Row, done, is_met, missed, stopped};
use agcode_top::Status;
use code_descriptor::{DescCause, KeyName};
use std::alloc::Global;
use std::test::Fail;
use std::thread::Threads;

const ALL: &str = "[[0, 0], [0, 1], [1, 2], [1, 3], [2, 2], [2, 3], [3, 2], [3, 3]]";

// Whether params refuses the descriptor for this cause, with one piece of it replaced.
fn is_refused<X: Threads + Sync>(
    rt: &X,
    alloc: Global,
    from: &str,
    to: &str,
    cause: DescCause,
    told: &str,
) -> Result<bool, Fail> {
    let line = format!(in alloc; "descriptor: {told}\n")?;
    let status = Status::Descriptor { cause };
    let row = stopped("params D", HERMITIAN_4, &[], status, line.as_str());
    Ok(is_met_with(rt, alloc, &row, from, to)?)
}

#[test]
fn a_key_is_refused(rt: HostRuntime) -> Result<(), Fail> {
    let cases = [
        ("bits = 2", "bits = \"2\"", KeyName::Bits, "key bits"),
        ("depth = 1", "name = 1", KeyName::Depth, "key depth"),
        (
            "depth = 1",
            "depth = 1\nname = 1",
            KeyName::Unknown,
            "key unknown",
        ),
    ];
    for (from, to, key, told) in cases {
        let cause = DescCause::BadKey { key };
        assert!(rt; is_refused(&rt, rt.alloc(), from, to, cause, told)?, "{to}");
    }
    Ok(())
}

#[test]
fn a_field_or_an_equation_is_refused(rt: HostRuntime) -> Result<(), Fail> {
    let field = DescCause::BadField;
    let term = DescCause::BadTerm { index: 0 };
    let cases = [
        ("bits = 2", "bits = ", DescCause::NotToml, "not toml"),
        ("bits = 2", "bits = -2", field, "field"),
        ("modulus = 7", "modulus = 5", field, "field"),
        (
            "a = 2\nb = 3",
            "a = 4\nb = 6",
            DescCause::BadDegrees,
            "degrees",
        ),
        ("terms = [", "terms = [[1, 2, 1], ", term, "term 0"),
        ("[0, 2, 1]", "[0, 2, 0]", term, "term 0"),
        ("[0, 2, 1]", "[0, 2, 4]", term, "term 0"),
        (", [3, 0, 1]", "", DescCause::MissingLead, "lead"),
    ];
    for (from, to, cause, told) in cases {
        assert!(rt; is_refused(&rt, rt.alloc(), from, to, cause, told)?, "{to}");
    }
    Ok(())
}

#[test]
fn points_and_numbers_are_refused(rt: HostRuntime) -> Result<(), Fail> {
    let point = |index| DescCause::BadPoint { index };
    let weight = DescCause::BadWeight;
    let cases = [
        ("[1, 2], [1, 3]", "[1, 1], [1, 3]", point(2), "point 2"),
        ("[0, 0], [0, 1]", "[0, 0], [0, 0]", point(1), "point 1"),
        ("[3, 3]]", "[3, 3], [4, 0]]", point(8), "point 8"),
        ("weight = 5", "weight = -1", weight, "weight"),
        ("weight = 5", "weight = 65536", weight, "weight"),
        ("depth = 1", "depth = 0", DescCause::BadDepth, "depth"),
        (
            "weight = 5",
            "weight = 9",
            DescCause::NothingFree,
            "nothing free",
        ),
        (ALL, "[]", DescCause::NoPoints, "no points"),
    ];
    for (from, to, cause, told) in cases {
        assert!(rt; is_refused(&rt, rt.alloc(), from, to, cause, told)?, "{to}");
    }
    Ok(())
}

// Whether member refuses bytes for this cause.
fn is_no_descriptor<X: Threads + Sync>(
    rt: &X,
    alloc: Global,
    bytes: &[u8],
    cause: DescCause,
    line: &str,
) -> Result<bool, Fail> {
    let row = Row {
        desc: bytes,
        ..stopped("member D", "", &[], Status::Descriptor { cause }, line)
    };
    Ok(is_met(rt, alloc, &row)?)
}

#[test]
fn other_texts_are_no_descriptors(rt: HostRuntime) -> Result<(), Fail> {
    let alloc = rt.alloc();
    let long = vec![in alloc; b'#'; 1_048_577]?;
    let bits = DescCause::BadKey { key: KeyName::Bits };
    let no_toml = DescCause::NotToml;
    let large = DescCause::TooLarge;
    assert!(rt; is_no_descriptor(&rt, alloc, b"", bits, "descriptor: key bits\n")?);
    assert!(rt; is_no_descriptor(&rt, alloc, b"\xff", no_toml, "descriptor: not toml\n")?);
    assert!(rt; is_no_descriptor(&rt, alloc, b"bits = ", no_toml, "descriptor: not toml\n")?);
    assert!(rt; is_no_descriptor(&rt, alloc, &long, large, "descriptor: too large\n")?);
    Ok(())
}

#[test]
fn points_lists_the_points_of_the_curve(rt: HostRuntime) -> Result<(), Fail> {
    let points = b"[0, 0],\n[0, 1],\n[1, 2],\n[1, 3],\n[2, 2],\n[2, 3],\n[3, 2],\n[3, 3],\n";
    let empty = HERMITIAN_4.replace(rt.alloc(), ALL, "[]")?;
    let cause = DescCause::NoPoints;
    let refused = Status::Descriptor { cause };
    let rows = [
        done("points D", HERMITIAN_4, &[], points),
        done("points D", empty.as_str(), &[], points),
        stopped(
            "member D",
            empty.as_str(),
            &[0; 8],
            refused,
            "descriptor: no points\n",
        ),
    ];
    let missed = missed(&rt, rt.alloc(), &rows)?;
    assert!(rt; missed.is_none(), "{missed:?}");
    Ok(())
}
