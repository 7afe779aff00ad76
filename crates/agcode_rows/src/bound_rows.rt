//! params, bound and check.

use crate::descriptors::{
    CURVE_8, HERMITIAN_4, HERMITIAN_16, HERMITIAN_64, is_met_with, with_all_points,
};
use crate::rig::{Row, done, is_met, missed, plain, stopped};
use agcode_top::Status;
use std::alloc::Global;
use std::test::Fail;
use std::thread::Threads;

/// The table of the first code.
pub const TABLE: &str = "agcode-bound 1
n 8 checked 5 bound 5
label 0 1 c 1 0 0 0 0 0 0 0
label 2 2 c 0 0 3 2 2 1 1 3
label 3 2 c 1 1 0 0 0 0 0 0
label 4 3 c 0 0 3 2 1 3 2 1
label 5 4 c 0 0 1 1 3 3 2 2
label 6 5 f 1 0 3 2 3 2 3 2
label 7 6 f 0 0 1 1 2 2 3 3
label 9 8 f 1 1 1 1 1 1 1 1
";

#[test]
fn params_tells_the_numbers_of_the_code(rt: HostRuntime) -> Result<(), Fail> {
    let few =
        "n 8\nk 7\nchecks 1\nbound 2\nt 0\nlabels 0 2 3 4 5 6 7 9\nchecked 0\nrelation 3:1 6:1\n";
    let cases = [
        (
            "weight = 5",
            "n 8\nk 3\nchecks 5\nbound 5\nt 2\nlabels 0 2 3 4 5 6 7 9\nchecked 0 2 3 4 5\nrelation 3:1 6:1\n",
        ),
        ("weight = 0", few),
        ("weight = 1", few),
    ];
    for (weight, text) in cases {
        let row = done("params D", HERMITIAN_4, &[], text.as_bytes());
        let met = is_met_with(&rt, rt.alloc(), &row, "weight = 5", weight)?;
        assert!(rt; met, "{weight}");
    }
    Ok(())
}

// Whether params begins with these numbers and ends with this relation, for all points of a curve.
fn tells<X: Threads + Sync>(
    rt: &X,
    alloc: Global,
    text: &str,
    numbers: &str,
    relation: &str,
) -> Result<bool, Fail> {
    let desc = with_all_points(rt, alloc, text)?;
    let left = plain(rt, alloc, "params D", desc.as_str(), &[])?;
    let told = left.out.as_slice();
    let is_told = told.starts_with(numbers.as_bytes()) && told.ends_with(relation.as_bytes());
    Ok(is_told && left.status == Status::Done)
}

// The numbers of larger codes, and their relations.
#[test]
fn params_of_larger_curves(rt: HostRuntime) -> Result<(), Fail> {
    let cases = [
        (
            HERMITIAN_16,
            "n 64\nk 38\nchecks 26\nbound 21\nt 10\n",
            "\nrelation 5:1 20:1\n",
        ),
        (
            HERMITIAN_64,
            "n 512\nk 284\nchecks 228\nbound 201\nt 100\n",
            "\nrelation 9:1 72:1\n",
        ),
        (
            CURVE_8,
            "n 32\nk 16\nchecks 16\nbound 8\nt 3\n",
            "\nrelation 7:1 14:1 28:1\n",
        ),
    ];
    for (text, numbers, relation) in cases {
        assert!(rt;
            tells(&rt, rt.alloc(), text, numbers, relation)?,
            "{numbers}"
        );
    }
    Ok(())
}

#[test]
fn bound_writes_the_table(rt: HostRuntime) -> Result<(), Fail> {
    let row = done("bound D", HERMITIAN_4, &[], TABLE.as_bytes());
    assert!(rt; is_met(&rt, rt.alloc(), &row)?);
    Ok(())
}

#[test]
fn check_accepts_the_table(rt: HostRuntime) -> Result<(), Fail> {
    let first = Status::TableRefused { line: 1 };
    let rows = [
        done(
            "check D",
            HERMITIAN_4,
            TABLE.as_bytes(),
            b"accepted bound 5\n",
        ),
        stopped(
            "check D",
            HERMITIAN_4,
            &[],
            first,
            "table refused at line 1\n",
        ),
    ];
    assert_eq!(rt; missed(&rt, rt.alloc(), &rows)?, None);
    Ok(())
}

// Whether check refuses the table at this line, with one piece of it replaced.
fn is_refused<X: Threads + Sync>(
    rt: &X,
    alloc: Global,
    from: &str,
    to: &str,
    line: u32,
) -> Result<bool, Fail> {
    let table = TABLE.replace(alloc, from, to)?;
    let told = format!(in alloc; "table refused at line {line}\n")?;
    let row = Row {
        input: table.as_bytes(),
        report: told.as_bytes(),
        ..stopped(
            "check D",
            HERMITIAN_4,
            &[],
            Status::TableRefused { line },
            "",
        )
    };
    Ok(is_met(rt, alloc, &row)?)
}

#[test]
fn check_refuses_other_tables(rt: HostRuntime) -> Result<(), Fail> {
    let cases = [
        // the form: the first line, the number of points, a mark, a symbol, a line that is missing, one too many
        ("agcode-bound 1", "agcode-bound 2", 1),
        ("n 8", "n 7", 2),
        ("n 8", "n 08", 2),
        ("2 2 c", "2 2 d", 4),
        ("9 8 f 1 1 1 1 1 1 1 1", "9 8 f 1 1 1 1 1 1 1 4", 10),
        ("label 9 8 f 1 1 1 1 1 1 1 1\n", "", 10),
        ("9 8 f 1 1 1 1 1 1 1 1\n", "9 8 f 1 1 1 1 1 1 1 1\n\n", 11),
        // the labels, the numbers of pairs, the marks
        ("label 2 2 c", "label 1 2 c", 4),
        ("label 3 2 c", "label 2 2 c", 5),
        ("6 5 f", "6 4 f", 8),
        ("6 5 f", "6 5 c", 8),
        // the products
        ("3 2 c 1 1 0 0 0 0 0 0", "3 2 c 1 1 0 0 0 0 0 1", 5),
        ("0 1 c 1 0 0 0 0 0 0 0", "0 1 c 0 1 0 0 0 0 0 0", 3),
        // the second line
        ("bound 5", "bound 6", 2),
        ("checked 5", "checked 4", 2),
    ];
    for (from, to, line) in cases {
        assert!(rt; is_refused(&rt, rt.alloc(), from, to, line)?, "{to}");
    }
    Ok(())
}

// Whether the table of all points of a curve is accepted like this.
fn is_accepted<X: Threads + Sync>(
    rt: &X,
    alloc: Global,
    text: &str,
    told: &[u8],
) -> Result<bool, Fail> {
    let desc = with_all_points(rt, alloc, text)?;
    let table = plain(rt, alloc, "bound D", desc.as_str(), &[])?;
    let row = done("check D", desc.as_str(), &table.out, told);
    Ok(is_met(rt, alloc, &row)?)
}

#[test]
fn the_tables_of_larger_curves_are_accepted(rt: HostRuntime) -> Result<(), Fail> {
    assert!(rt; is_accepted(&rt, rt.alloc(), HERMITIAN_16, b"accepted bound 21\n")?);
    assert!(rt; is_accepted(&rt, rt.alloc(), CURVE_8, b"accepted bound 8\n")?);
    Ok(())
}
