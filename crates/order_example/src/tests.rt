//! Bases of small curves, built and compared with the tables that were worked by hand.

use crate::rig::{Row, are_met, point, said, said_with, small_points, small_terms, term};
use eval_basis::CheckRule;
use order_bound::TableSays;
use std::alloc::Global;
use std::thread::Threads;

// Whether all rows are met by the basis of the small curve.
fn small_basis_meets<X: Threads + Sync>(rt: &X, alloc: Global, rows: &[Row]) -> bool {
    are_met(rt, alloc, small_terms(), &small_points(), rows) == Some(true)
}

const LABELS: [u32; 8] = [0, 2, 3, 4, 5, 6, 7, 9];

#[test]
fn holds_the_members_of_the_small_curve(rt: HostRuntime) {
    let rows = [
        Row::Numbers([2, 7, 9]),
        Row::Labels(LABELS),
        Row::Ranks([0, 1, 2, 3, 4, 5, 6, 8]),
        Row::Pairs([1, 2, 2, 3, 4, 5, 6, 8]),
    ];
    assert!(rt; small_basis_meets(&rt, rt.alloc(), &rows));
}

#[test]
fn holds_their_values_and_dual_lists(rt: HostRuntime) {
    let rows = [
        Row::Vector(1, [0, 0, 1, 1, 2, 2, 3, 3]),
        Row::Vector(2, [0, 1, 2, 3, 2, 3, 2, 3]),
        Row::Vector(6, [0, 0, 2, 3, 1, 2, 3, 1]),
        Row::Vector(7, [0, 0, 2, 3, 2, 3, 2, 3]),
        Row::Dual(0, [1, 0, 0, 0, 0, 0, 0, 0]),
        Row::Dual(1, [0, 0, 3, 2, 2, 1, 1, 3]),
        Row::Dual(2, [1, 1, 0, 0, 0, 0, 0, 0]),
        Row::Dual(3, [0, 0, 3, 2, 1, 3, 2, 1]),
        Row::Dual(4, [0, 0, 1, 1, 3, 3, 2, 2]),
        Row::Dual(5, [1, 0, 3, 2, 3, 2, 3, 2]),
        Row::Dual(6, [0, 0, 1, 1, 2, 2, 3, 3]),
        Row::Dual(7, [1, 1, 1, 1, 1, 1, 1, 1]),
    ];
    assert!(rt; small_basis_meets(&rt, rt.alloc(), &rows));
}

#[test]
fn holds_sums_as_indices_of_the_domain(rt: HostRuntime) {
    let rows = [
        // 4 + 5 is 9, at index 8; 3 + 5 is 8, at index 7, which is no member's; 9 + 2 is above all
        Row::Sum(3, 4, 8),
        Row::Sum(2, 4, 7),
        Row::Sum(7, 1, 9),
        Row::Lead(2, 2, 1),
        Row::Lead(7, 1, 0),
    ];
    assert!(rt; small_basis_meets(&rt, rt.alloc(), &rows));
}

#[test]
fn has_the_same_members_in_another_order_of_points(rt: HostRuntime) {
    let mut points = small_points();
    points.reverse();
    points.swap(1, 4);
    let rows = [Row::Labels(LABELS)];
    assert!(rt; are_met(&rt, rt.alloc(), small_terms(), &points, &rows) == Some(true));
}

// y² + 2y = 3x³, so that y·y is 3x³ + 2y.
#[test]
fn keeps_leads_other_than_one(rt: HostRuntime) {
    let terms = [term(0, 2, 1), term(0, 1, 2), term(3, 0, 3)];
    let points = [
        point(0, 0),
        point(0, 2),
        point(1, 1),
        point(1, 3),
        point(2, 1),
        point(2, 3),
        point(3, 1),
        point(3, 3),
    ];
    let rows = [
        Row::Labels(LABELS),
        // y·y and y·xy need the equation, x·y does not
        Row::Lead(2, 2, 3),
        Row::Lead(2, 4, 3),
        Row::Lead(1, 2, 1),
    ];
    assert!(rt; are_met(&rt, rt.alloc(), terms, &points, &rows) == Some(true));
}

#[test]
fn marks_by_label_or_by_pairs(rt: HostRuntime) {
    let rows = [
        Row::Checks(CheckRule::AtMost { weight: 5 }, 5),
        Row::Checks(CheckRule::Small { pairs: 3 }, 3),
        Row::Checks(CheckRule::Small { pairs: 0 }, 0),
    ];
    assert!(rt; small_basis_meets(&rt, rt.alloc(), &rows));
}

#[test]
fn finds_what_is_near_by_search(rt: HostRuntime) {
    let codeword = [2, 0, 0, 2, 3, 1, 2, 0];
    let rows = [
        Row::Near(codeword, Some(codeword)),
        Row::Near([2, 0, 1, 0, 3, 1, 2, 0], Some(codeword)),
        Row::Near([2, 0, 0, 0, 3, 1, 0xff, 0], Some(codeword)),
        Row::Near([6, 0, 0, 2, 3, 1, 2, 0], Some(codeword)),
        // two wrong symbols, and a third byte that is wrong above its symbol
        Row::Near([6, 0, 0, 0, 3, 1, 0xff, 0], None),
        Row::Near([1, 1, 1, 0, 0, 0, 0, 0], None),
    ];
    assert!(rt; small_basis_meets(&rt, rt.alloc(), &rows));
}

// The table of the small curve, where labels up to 5 are checked.
const TABLE: &str = "agcode-bound 1
n 8 checked 5 bound 5
label 0 1 c 1 0 0 0 0 0 0 0
label 2 2 c 0 0 3 2 2 1 1 3
label 3 2 c 1 1 0 0 0 0 0 0
label 4 3 c 0 0 3 2 1 3 2 1
label 5 4 c 0 0 1 1 3 3 2 2
label 6 5 f 1 0 3 2 3 2 3 2
label 7 6 f 0 0 1 1 2 2 3 3
label 9 8 f 1 1 1 1 1 1 1 1
";

#[test]
fn writes_the_table_of_the_small_curve(rt: HostRuntime) {
    let rows = [
        Row::Bound(5, Some(5)),
        Row::Table(TABLE.as_bytes()),
        Row::Bound(9, None),
    ];
    assert!(rt; small_basis_meets(&rt, rt.alloc(), &rows));
}

#[test]
fn accepts_its_table(rt: HostRuntime) {
    let accepted = TableSays::Accepted { bound: 5 };
    assert!(rt; said(rt.alloc(), TABLE.as_bytes()) == Some(accepted));
}

// Whether a table is refused at a line with a piece of it replaced, in each case.
fn are_refused(alloc: Global, table: &str, cases: &[(&str, &str, u32)]) -> bool {
    for (from, to, line) in cases {
        if said_with(alloc, table, from, to) != Some(TableSays::Refused { line: *line }) {
            return false;
        }
    }
    true
}

#[test]
fn accepts_no_other_table(rt: HostRuntime) {
    // what is replaced, by what, and the line that is named
    let cases: [(&str, &str, u32); 13] = [
        // nothing may be missing, and nothing may follow
        (TABLE, "", 1),
        ("1 1 1 1 1 1 1 1\n", "1 1 1 1 1 1 1 1\n\n", 11),
        // the form: the number of points, a zero in front, a missing line feed, a symbol of another field
        ("n 8 ", "n 9 ", 2),
        ("label 2 2 c", "label 02 2 c", 4),
        ("1 1 1 1 1 1 1 1\n", "1 1 1 1 1 1 1 1", 10),
        ("0 0 1 1 3 3 2 2", "0 0 1 1 3 3 2 4", 7),
        // labels: one that is no function's, pairs, a mark
        ("label 0 1 c", "label 1 1 c", 3),
        ("label 4 3 c", "label 4 4 c", 6),
        ("label 6 5 f", "label 6 5 c", 8),
        // dual lists: a symbol; and label 8, whose values are those of label 2
        ("1 1 0 0 0 0 0 0", "1 1 0 0 0 0 0 1", 5),
        ("label 9 8 f", "label 8 7 f", 4),
        // the counts on the second line
        ("bound 5", "bound 6", 2),
        ("checked 5", "checked 4", 2),
    ];
    assert!(rt; are_refused(rt.alloc(), TABLE, &cases));
}
