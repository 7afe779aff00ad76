//! Verdicts, words and ledgers of the small code, whose checked labels are 0, 2, 3, 4 and 5, and of the one whose only
//! checked label is 0.

use crate::rig::{Row, are_met, cause};
use block_code::{CompileFault, Verdict};
use eval_basis::CheckRule;

fn up_to(weight: u32) -> CheckRule {
    CheckRule::AtMost { weight }
}

fn fewer_than(pairs: u32) -> CheckRule {
    CheckRule::Small { pairs }
}

#[test]
fn has_its_numbers(rt: HostRuntime) {
    let rows = [Row::Numbers([8, 3, 5, 2, 5])];
    assert!(rt; are_met(&rt, rt.alloc(), up_to(5), &rows) == Some(true));
    let weak = [Row::Numbers([8, 7, 2, 0, 1])];
    assert!(rt; are_met(&rt, rt.alloc(), up_to(0), &weak) == Some(true));
}

#[test]
fn is_none_where_all_is_checked(rt: HostRuntime) {
    assert!(rt; cause(&rt, rt.alloc(), up_to(9)) == Some(CompileFault::NothingFree));
    assert!(rt; cause(&rt, rt.alloc(), fewer_than(9)) == Some(CompileFault::NothingFree));
}

// Labels 0, 2 and 3 have one and two pairs, label 4 has three.
#[test]
fn checks_by_the_number_of_pairs(rt: HostRuntime) {
    let rows = [
        Row::Numbers([8, 5, 3, 1, 3]),
        Row::Places(&[0, 1, 2, 3, 4]),
        // the bits of the empty file: a 1, and 0s
        Row::Encodes(&[2, 0, 0, 0, 0], [2, 0, 0, 0, 0, 1, 1, 2]),
        Row::Member([2, 0, 0, 0, 0, 1, 1, 2], true),
        Row::Member([2, 0, 0, 0, 0, 1, 1, 3], false),
    ];
    assert!(rt; are_met(&rt, rt.alloc(), fewer_than(3), &rows) == Some(true));
}

#[test]
fn checks_nothing(rt: HostRuntime) {
    let rows = [
        Row::Numbers([8, 8, 1, 0, 0]),
        Row::Places(&[0, 1, 2, 3, 4, 5, 6, 7]),
        Row::Encodes(&[1, 2, 3, 0, 0, 1, 2, 3], [1, 2, 3, 0, 0, 1, 2, 3]),
        Row::Member([1, 2, 3, 0, 0, 1, 2, 3], true),
    ];
    assert!(rt; are_met(&rt, rt.alloc(), fewer_than(0), &rows) == Some(true));
}

#[test]
fn encodes_at_its_message_places(rt: HostRuntime) {
    let rows = [
        Row::Places(&[0, 1, 2]),
        Row::Encodes(&[1, 0, 0], [1, 0, 0, 1, 2, 3, 1, 0]),
        Row::Encodes(&[0, 1, 0], [0, 1, 0, 1, 1, 0, 3, 2]),
        Row::Encodes(&[0, 0, 1], [0, 0, 1, 1, 2, 2, 3, 3]),
        Row::Encodes(&[1, 1, 1], [1, 1, 1, 1, 1, 1, 1, 1]),
        Row::Encodes(&[1, 2, 0], [1, 2, 0, 3, 0, 3, 0, 3]),
        Row::Encodes(&[2, 0, 0], [2, 0, 0, 2, 3, 1, 2, 0]),
    ];
    assert!(rt; are_met(&rt, rt.alloc(), up_to(5), &rows) == Some(true));
}

#[test]
fn knows_its_codewords(rt: HostRuntime) {
    let rows = [
        Row::Member([1, 0, 0, 1, 2, 3, 1, 0], true),
        Row::Member([1, 1, 1, 0, 0, 0, 0, 0], false),
        // right in its low bits, but no symbol
        Row::Member([5, 0, 0, 1, 2, 3, 1, 0], false),
    ];
    assert!(rt; are_met(&rt, rt.alloc(), up_to(5), &rows) == Some(true));
}

#[test]
fn decodes_what_is_near(rt: HostRuntime) {
    let sent = [2, 0, 0, 2, 3, 1, 2, 0];
    let none = Verdict::Near { changes: 0 };
    let one = Verdict::Near { changes: 1 };
    let two = Verdict::Near { changes: 2 };
    let one_wrong = [[6, 5, 2, 1], [7, 6, 2, 0], [9, 8, 4, 0]];
    let none_wrong = [[6, 5, 1, 0], [7, 6, 2, 0], [9, 8, 4, 0]];
    let no_error = [[6, 5, 5, 0], [7, 6, 6, 0], [9, 8, 8, 0]];
    let rows = [
        Row::Decodes(sent, none, sent, &no_error),
        Row::Decodes([2, 0, 1, 0, 3, 1, 2, 0], two, sent, &one_wrong),
        Row::Decodes([2, 0, 0, 0, 3, 1, 0xff, 0], two, sent, &none_wrong),
        Row::Decodes([6, 0, 0, 2, 3, 1, 2, 0], one, sent, &no_error),
    ];
    assert!(rt; are_met(&rt, rt.alloc(), up_to(5), &rows) == Some(true));
}

#[test]
fn refuses_what_is_beyond(rt: HostRuntime) {
    // two wrong symbols, and a third byte that is wrong above its symbol
    let too_far = [6, 0, 0, 0, 3, 1, 0xff, 0];
    let far = [1, 1, 1, 0, 0, 0, 0, 0];
    let rows = [
        Row::Decodes(too_far, Verdict::Beyond, [2, 0, 0, 0, 3, 1, 3, 0], &[]),
        Row::Decodes(far, Verdict::Beyond, far, &[]),
    ];
    assert!(rt; are_met(&rt, rt.alloc(), up_to(5), &rows) == Some(true));
}

// The blocks of a table are decoded on one bench.
#[test]
fn forgets_the_ledger_of_the_block_before(rt: HostRuntime) {
    let two = Verdict::Near { changes: 2 };
    let told = [[6, 5, 2, 1], [7, 6, 2, 0], [9, 8, 4, 0]];
    let near = Row::Decodes(
        [2, 0, 1, 0, 3, 1, 2, 0],
        two,
        [2, 0, 0, 2, 3, 1, 2, 0],
        &told,
    );
    let too_far = [6, 0, 0, 0, 3, 1, 0xff, 0];
    let beyond = Row::Decodes(too_far, Verdict::Beyond, [2, 0, 0, 0, 3, 1, 3, 0], &[]);
    let rows = [near, beyond, near];
    assert!(rt; are_met(&rt, rt.alloc(), up_to(5), &rows) == Some(true));
}

#[test]
fn corrects_nothing_at_radius_zero(rt: HostRuntime) {
    let sent = [2, 0, 0, 0, 0, 0, 0, 2];
    let other = [2, 0, 0, 0, 0, 0, 0, 3];
    // where there is no error all pairs are right
    let no_error = [
        [2, 2, 2, 0],
        [3, 2, 2, 0],
        [4, 3, 3, 0],
        [5, 4, 4, 0],
        [6, 5, 5, 0],
        [7, 6, 6, 0],
        [9, 8, 8, 0],
    ];
    let rows = [
        Row::Decodes(sent, Verdict::Near { changes: 0 }, sent, &no_error),
        Row::Decodes(other, Verdict::Beyond, other, &[]),
    ];
    assert!(rt; are_met(&rt, rt.alloc(), up_to(0), &rows) == Some(true));
}

#[test]
fn is_a_code_for_files(rt: HostRuntime) {
    let rows = [
        Row::Reads([2, 0, 1, 0, 3, 1, 2, 0], [2, 0, 0]),
        Row::Reads([1, 2, 0, 3, 0, 3, 0, 3], [1, 2, 0]),
        // none is near: the low bits at the message places
        Row::Reads([6, 0, 0, 0, 3, 1, 0xff, 0], [2, 0, 0]),
    ];
    assert!(rt; are_met(&rt, rt.alloc(), up_to(5), &rows) == Some(true));
}
