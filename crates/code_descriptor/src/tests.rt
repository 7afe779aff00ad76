use super::{DescCause, DescError, KeyName, Space, read};
use cab_curve::{Curve, Term};
use eval_basis::CheckRule;
use gf_field::{Field, PolyField};
use std::alloc::Global;
use std::process::Abort;
use std::test::Fail;

// y² + y = x³ over GF(4)
const A: &str =
    "bits = 2\nmodulus = 7\na = 2\nb = 3\nterms = [[0, 2, 1], [0, 1, 1], [3, 0, 1]]\npoints = [[0, 0], [0, 1], [1, 2], [1, 3], [2, 2], [2, 3], [3, 2], [3, 3]]\nweight = 5\ndepth = 1\n";

fn key(key: KeyName) -> DescCause {
    DescCause::BadKey { key }
}

fn term(index: u32) -> DescCause {
    DescCause::BadTerm { index }
}

fn point(index: u32) -> DescCause {
    DescCause::BadPoint { index }
}

fn cause(rt: &impl Abort, alloc: Global, text: &[u8]) -> Option<DescCause> {
    match read(alloc, text).err()? {
        DescError::Refused { cause } => Some(cause),
        DescError::NoMemory => {
            assert!(rt; false, "want of memory");
            None
        }
    }
}

// Whether the rule checks the functions with fewer pairs than this.
fn is_small(rule: CheckRule, number: u32) -> bool {
    match rule {
        CheckRule::AtMost { .. } => false,
        CheckRule::Small { pairs } => pairs == number,
    }
}

// Whether the rule checks the functions up to this weight.
fn is_at_most(rule: CheckRule, number: u32) -> bool {
    match rule {
        CheckRule::AtMost { weight } => weight == number,
        CheckRule::Small { .. } => false,
    }
}

#[test]
fn reads_a_descriptor(rt: HostRuntime) -> Result<(), Fail> {
    let d = read(rt.alloc(), A.as_bytes())?;
    assert_eq!(rt; (d.field().bits(), d.field().modulus()), (2, 7));
    match d.space() {
        Space::Affine { .. } => assert!(rt; false, "an affine space"),
        Space::Cab { curve } => {
            let numbers = (curve.bits(), curve.a(), curve.b(), curve.terms().len());
            assert_eq!(rt; numbers, (2, 2, 3, 3));
            let points = curve.all_points(rt.alloc(), d.field())?;
            assert_eq!(rt; d.points().as_slice(), points.as_slice());
        }
    }
    assert!(rt; is_at_most(d.rule(), 5));
    assert_eq!(rt; (d.depth(), d.is_packed()), (1, false));
    Ok(())
}

#[test]
fn reads_a_rule_by_pairs_and_a_packed_layout(rt: HostRuntime) -> Result<(), Fail> {
    let alloc = rt.alloc();
    let text = A.replace(alloc, "weight = 5", "improved = 3\nlayout = \"packed\"")?;
    let pieces = read(alloc, text.as_bytes())?.into_pieces();
    assert!(rt; is_small(pieces.rule, 3));
    assert!(rt; pieces.packed);
    assert_eq!(rt; (pieces.points.len(), pieces.depth), (8, 1));
    Ok(())
}

#[test]
fn refuses_in_order(rt: HostRuntime) -> Result<(), Fail> {
    let alloc = rt.alloc();
    // What to replace in A, by what, and the cause.
    let cases = [
        (A, "", key(KeyName::Bits)),
        ("bits = 2\n", "", key(KeyName::Bits)),
        ("bits = 2", "bits = 2.0", key(KeyName::Bits)),
        ("bits = 2", "bits = \"2\"", key(KeyName::Bits)),
        ("modulus = 7", "modulus = \"7\"", key(KeyName::Modulus)),
        ("a = 2", "a = [2]", key(KeyName::A)),
        ("b = 3\n", "", key(KeyName::B)),
        ("[[0, 2, 1], ", "[[0, 2], ", key(KeyName::Terms)),
        ("[[0, 2, 1], ", "[[0, 2, 1, 1], ", key(KeyName::Terms)),
        ("[[0, 2, 1], ", "[7, ", key(KeyName::Terms)),
        ("[[0, 2, 1], ", "[[0, 2, true], ", key(KeyName::Terms)),
        ("[[0, 0], ", "[[0, 0, 0], ", key(KeyName::Points)),
        ("[[0, 0], ", "[[0], ", key(KeyName::Points)),
        ("weight = 5", "weight = 1e3", key(KeyName::Weight)),
        ("weight = 5\n", "", key(KeyName::Weight)),
        (
            "weight = 5",
            "weight = true\nimproved = 3",
            key(KeyName::Weight),
        ),
        (
            "weight = 5",
            "weight = 5\nimproved = 3",
            key(KeyName::Improved),
        ),
        (
            "weight = 5",
            "weight = 5\nimproved = true",
            key(KeyName::Improved),
        ),
        ("weight = 5", "improved = \"3\"", key(KeyName::Improved)),
        ("weight = 5", "improved = [3]", key(KeyName::Improved)),
        (
            "depth = 1\n",
            "layout = 1\ndepth = 1\n",
            key(KeyName::Layout),
        ),
        (
            "depth = 1\n",
            "layout = [\"packed\"]\n",
            key(KeyName::Layout),
        ),
        ("depth = 1\n", "", key(KeyName::Depth)),
        (
            "weight = 5\ndepth = 1\n",
            "layout = 1\n",
            key(KeyName::Weight),
        ),
        ("depth = 1\n", "depth = 1\nspace = 2\n", key(KeyName::A)),
        (
            "depth = 1\n",
            "depth = 1\nspace = [2]\n",
            key(KeyName::Space),
        ),
        (
            "depth = 1\n",
            "depth = 1\nname = 1\n",
            key(KeyName::Unknown),
        ),
        (
            "bits = 2\n",
            "bits = 2\nother = 3\nnested = [[[]]]\n",
            key(KeyName::Unknown),
        ),
        ("bits = 2\n", "bits = 2\nbits = 2\n", DescCause::NotToml),
        (A, "bits = ", DescCause::NotToml),
        (
            "bits = 2\n",
            "bits = 9223372036854775808\n",
            DescCause::NotToml,
        ),
        ("bits = 2\n", "bits = -2\n", DescCause::BadField),
        ("bits = 2\n", "bits = 4294967298\n", DescCause::BadField),
        ("modulus = 7", "modulus = 5", DescCause::BadField),
        ("a = 2", "a = -2", DescCause::BadDegrees),
        ("a = 2", "a = 3", DescCause::BadDegrees),
        ("a = 2\nb = 3", "a = 4\nb = 6", DescCause::BadDegrees),
        ("b = 3", "b = 33", DescCause::BadDegrees),
        ("[[0, 2, 1], ", "[[1, 2, 1], [0, 2, 1], ", term(0)),
        ("[[0, 2, 1], ", "[[0, 2, 0], ", term(0)),
        ("[[0, 2, 1], ", "[[0, 2, 4], ", term(0)),
        ("[0, 1, 1]", "[0, 1, 257]", term(1)),
        ("[0, 1, 1]", "[0, 1, -1]", term(1)),
        ("[0, 1, 1]", "[-1, 1, 1]", term(1)),
        ("[0, 1, 1]", "[0, 4294967296, 1]", term(1)),
        ("[0, 1, 1]", "[9223372036854775807, 1, 1]", term(1)),
        ("[3, 0, 1]]", "[3, 0, 1], [0, 1, 2]]", term(3)),
        (", [3, 0, 1]]", "]", DescCause::MissingLead),
        (", [3, 0, 1]]", ", [-3, 0, 1]]", term(2)),
        ("[1, 2]", "[1, 1]", point(2)),
        ("[[0, 0], ", "[[0, 0], [0, 0], ", point(1)),
        ("[3, 3]]", "[3, 3], [4, 0]]", point(8)),
        ("[1, 2]", "[-1, 2]", point(2)),
        ("weight = 5", "weight = -1", DescCause::BadWeight),
        ("weight = 5", "weight = 65536", DescCause::BadWeight),
        ("weight = 5", "improved = -1", DescCause::BadImproved),
        ("weight = 5", "improved = 65536", DescCause::BadImproved),
        (
            "weight = 5",
            "weight = 5\nlayout = \"raw\"",
            DescCause::BadLayout,
        ),
        (
            "weight = 5",
            "weight = 5\nlayout = \"\"",
            DescCause::BadLayout,
        ),
        (
            "weight = 5",
            "weight = 5\nlayout = \"Packed\"",
            DescCause::BadLayout,
        ),
        (
            "weight = 5",
            "weight = -1\nlayout = \"raw\"",
            DescCause::BadWeight,
        ),
        (
            "weight = 5",
            "improved = -1\nlayout = \"raw\"",
            DescCause::BadImproved,
        ),
        (
            "depth = 1\n",
            "depth = 0\nlayout = \"raw\"\n",
            DescCause::BadLayout,
        ),
        ("depth = 1\n", "depth = 0\n", DescCause::BadDepth),
        ("depth = 1\n", "depth = 65\n", DescCause::BadDepth),
        (
            "weight = 5\ndepth = 1\n",
            "weight = -1\ndepth = 0\n",
            DescCause::BadWeight,
        ),
        (
            "bits = 2\nmodulus = 7\na = 2\n",
            "bits = -1\nmodulus = 7\na = 2.0\n",
            key(KeyName::A),
        ),
    ];
    for (old, new, expected) in cases {
        let text = A.replace(alloc, old, new)?;
        assert!(rt; text.as_str() != A);
        assert_eq!(rt; cause(&rt, alloc, text.as_bytes()), Some(expected), "{new}");
    }
    Ok(())
}

#[test]
fn accepts_the_edges(rt: HostRuntime) -> Result<(), Fail> {
    let alloc = rt.alloc();
    let cases = [
        (
            "[[0, 0], [0, 1], [1, 2], [1, 3], [2, 2], [2, 3], [3, 2], [3, 3]]",
            "[]",
        ),
        ("weight = 5", "weight = 65535"),
        ("weight = 5", "weight = 0"),
        ("weight = 5", "improved = 0"),
        ("weight = 5", "improved = 9"),
        ("weight = 5", "improved = 65535"),
        ("weight = 5", "weight = 5\nlayout = \"bytes\""),
        ("weight = 5", "weight = 5\nlayout = \"packed\""),
        ("depth = 1\n", "depth = 64\n"),
        ("weight = 5\n", "weight = 0x5 # hexadecimal\n"),
    ];
    for (old, new) in cases {
        let text = A.replace(alloc, old, new)?;
        assert!(rt; text.as_str() != A);
        assert_eq!(rt; cause(&rt, alloc, text.as_bytes()), None, "{new}");
    }
    Ok(())
}

// The line over GF(4) with its four points
const LINE: &str =
    "bits = 2\nmodulus = 7\nspace = 1\npoints = [[0], [1], [2], [3]]\nweight = 1\ndepth = 1\n";

#[test]
fn reads_a_space(rt: HostRuntime) -> Result<(), Fail> {
    let alloc = rt.alloc();
    let d = read(alloc, LINE.as_bytes())?;
    let space = d.space();
    assert_eq!(rt; (space.coordinates(), d.points().len()), (1, 4));
    let points = space.all_points(alloc, d.field())?;
    assert_eq!(rt; d.points().as_slice(), points.as_slice());
    Ok(())
}

#[test]
fn refuses_spaces_in_order(rt: HostRuntime) -> Result<(), Fail> {
    let alloc = rt.alloc();
    // What to replace in LINE, by what, and the cause.
    let cases = [
        ("space = 1", "space = 4", DescCause::BadSpace),
        ("space = 1", "space = 0", DescCause::BadSpace),
        ("space = 1", "space = -1", DescCause::BadSpace),
        ("space = 1", "space = 4294967297", DescCause::BadSpace),
        (
            "bits = 2\nmodulus = 7\nspace = 1",
            "bits = 6\nmodulus = 67\nspace = 3",
            DescCause::BadSpace,
        ),
        ("space = 1", "space = \"1\"", key(KeyName::Space)),
        ("space = 1", "space = 1\na = 2", key(KeyName::A)),
        ("space = 1", "space = 1\nb = [3]", key(KeyName::B)),
        ("space = 1", "space = 1\nterms = []", key(KeyName::Terms)),
        ("space = 1", "space = 1.0\na = 2", key(KeyName::Space)),
        (
            "modulus = 7\nspace = 1",
            "space = 1\na = 2",
            key(KeyName::Modulus),
        ),
        ("[[0], ", "[[], ", key(KeyName::Points)),
        ("[[0], ", "[[0, 0, 0, 0], ", key(KeyName::Points)),
        ("[[0], ", "[[true], ", key(KeyName::Points)),
        ("[[0], ", "[0, ", key(KeyName::Points)),
        ("modulus = 7", "modulus = 5", DescCause::BadField),
        ("[[0], ", "[[0, 0], ", point(0)),
        ("space = 1", "space = 2", point(0)),
        ("[1], ", "[1, 0, 0], ", point(1)),
        ("[1], ", "[4], ", point(1)),
        ("[1], ", "[-1], ", point(1)),
        ("[3]]", "[3], [1]]", point(4)),
        ("weight = 1", "weight = -1", DescCause::BadWeight),
        ("space = 1", "space = 1\nspaces = 1", key(KeyName::Unknown)),
    ];
    for (old, new, expected) in cases {
        let text = LINE.replace(alloc, old, new)?;
        assert!(rt; text.as_str() != LINE);
        assert_eq!(rt; cause(&rt, alloc, text.as_bytes()), Some(expected), "{new}");
    }
    let accepted = [
        (
            "space = 1\npoints = [[0], [1], [2], [3]]",
            "space = 2\npoints = [[0, 0], [0, 1], [3, 0]]",
        ),
        (
            "space = 1\npoints = [[0], [1], [2], [3]]",
            "space = 3\npoints = [[0, 0, 1], [0, 0, 2], [3, 0, 2]]",
        ),
        ("[[0], [1], [2], [3]]", "[]"),
        ("weight = 1", "improved = 2\nlayout = \"packed\""),
    ];
    for (old, new) in accepted {
        let text = LINE.replace(alloc, old, new)?;
        assert!(rt; text.as_str() != LINE);
        assert_eq!(rt; cause(&rt, alloc, text.as_bytes()), None, "{new}");
    }
    Ok(())
}

#[test]
fn takes_no_more_than_1024_points(rt: HostRuntime) -> Result<(), Fail> {
    let alloc = rt.alloc();
    let f = PolyField::new(8, 283).expect(&rt, "irreducible");
    // y¹⁶ + y = x¹⁷ has 4,096 points.
    let terms = [(0, 16, 1), (0, 1, 1), (17, 0, 1)].map(|(i, j, c)| Term { i, j, c });
    let points = Curve::new(alloc, &f, 16, 17, &terms)?.all_points(alloc, &f)?;
    let mut text = String::from_str(
        alloc,
        "bits = 8\nmodulus = 283\na = 16\nb = 17\nweight = 0\ndepth = 1\nterms = [[0, 16, 1], [0, 1, 1], [17, 0, 1]]\npoints = [",
    )?;
    for point in points.iter().take(1_024) {
        text.push_str(format!(in alloc; "[{}, {}],", point.x, point.y)?.as_str())?;
    }
    let mut longer = text.clone()?;
    text.push_str("]\n")?;
    assert_eq!(rt; cause(&rt, alloc, text.as_bytes()), None);
    let next = points.get(1_024).copied().expect(&rt, "one more");
    longer.push_str(format!(in alloc; "[{}, {}]]\n", next.x, next.y)?.as_str())?;
    assert_eq!(rt; cause(&rt, alloc, longer.as_bytes()), Some(point(1_024)));
    Ok(())
}

#[test]
fn refuses_large_texts_and_other_bytes(rt: HostRuntime) -> Result<(), Fail> {
    let alloc = rt.alloc();
    let mut text = String::from_str(alloc, A)?;
    for _ in A.len()..1_048_576 {
        text.push_str("\n")?;
    }
    assert_eq!(rt; cause(&rt, alloc, text.as_bytes()), None);
    text.push_str("\n")?;
    assert_eq!(rt;
        cause(&rt, alloc, text.as_bytes()),
        Some(DescCause::TooLarge)
    );
    assert_eq!(rt; cause(&rt, alloc, b"#\xff"), Some(DescCause::NotToml));
    Ok(())
}
