//! Codes of a small descriptor, whose numbers were worked by hand.

ghost use Rattle.std.specs.Prelude.{ℕ, ◌≤◌, length, IfSome};

use super::DescribedCode;
use ag_pool::Workers;
use block_code::CompileFault;
use code_descriptor::{Descriptor, read};
use order_domain::OrderDomain;
use std::alloc::Global;
use std::test::Fail;
use std::thread::Threads;

// y² + y = x³ over GF(4), with all its points, in groups of four codewords
const CURVE: &str =
    "bits = 2\nmodulus = 7\na = 2\nb = 3\nterms = [[0, 2, 1], [0, 1, 1], [3, 0, 1]]\npoints = [[0, 0], [0, 1], [1, 2], [1, 3], [2, 2], [2, 3], [3, 2], [3, 3]]\ndepth = 4\n";

// The plane over GF(4), at six of its points, in groups of four codewords
const PLANE: &str =
    "bits = 2\nmodulus = 7\nspace = 2\npoints = [[0, 0], [0, 1], [0, 2], [1, 0], [1, 1], [2, 0]]\ndepth = 4\n";

// The descriptor of a space with a rule, which is a line of the text.
fn described(alloc: Global, space: &str, rule: &str) -> Option<Descriptor>
    ensures { IfSome result (λ d. 1 ≤ length d.points) }
{
    let text = format!(in alloc; "{space}{rule}\n").ok()?;
    let descriptor = read(alloc, text.as_bytes()).ok()?;
    if descriptor.points().len() == 0 {
        return None;
    }
    Some(descriptor)
}

// What compiling answers for a rule.
fn compiled<X: Threads + Sync>(
    rt: &X,
    alloc: Global,
    space: &str,
    rule: &str,
) -> Option<Result<DescribedCode, CompileFault>> {
    let descriptor = described(alloc, space, rule)?;
    Some(DescribedCode::compile(rt, alloc, descriptor, Workers::ONE))
}

fn code_of<X: Threads + Sync>(
    rt: &X,
    alloc: Global,
    space: &str,
    rule: &str,
) -> Option<DescribedCode> {
    compiled(rt, alloc, space, rule)?.ok()
}

// n, k, the order bound and the radius.
fn numbers(made: &DescribedCode) -> (u32, u32, u32, u32) {
    let code = made.code();
    (code.n(), code.k(), code.bound(), code.radius())
}

// Whether the code of a rule has these numbers.
fn has_numbers<X: Threads + Sync>(
    rt: &X,
    alloc: Global,
    space: &str,
    rule: &str,
    expected: (u32, u32, u32, u32),
) -> bool {
    match code_of(rt, alloc, space, rule) {
        Some(made) => numbers(&made) == expected,
        None => false,
    }
}

// Whether a rule leaves no member free.
fn is_full<X: Threads + Sync>(rt: &X, alloc: Global, space: &str, rule: &str) -> bool {
    match compiled(rt, alloc, space, rule) {
        Some(Err(CompileFault::NothingFree)) => true,
        _ => false,
    }
}

// Whether these are the labels of the members and of the checked ones.
fn has_labels<X: Threads + Sync>(
    rt: &X,
    alloc: Global,
    space: &str,
    rule: &str,
    labels: &[u32],
    checked: &[u32],
) -> bool {
    let Some(made) = code_of(rt, alloc, space, rule) else {
        return false;
    };
    match (made.labels(alloc), made.checked_labels(alloc)) {
        (Ok(all), Ok(some)) => all.as_slice() == labels && some.as_slice() == checked,
        _ => false,
    }
}

// The depth, the layout, the functions, the bits and the points.
fn kept(made: &DescribedCode) -> (u32, bool, u32, u32, usize) {
    let domain = made.domain();
    (
        made.depth(),
        made.is_packed(),
        domain.count(),
        domain.bits(),
        made.points().len(),
    )
}

// The members are 0, 2, 3, 4, 5, 6, 7 and 9, and they have 1, 2, 2, 3, 4, 5, 6 and 8 pairs.
#[test]
fn compiles_a_descriptor(rt: HostRuntime) {
    let alloc = rt.alloc();
    let cases = [
        ("weight = 0", (8, 7, 2, 0)),
        ("weight = 5", (8, 3, 5, 2)),
        ("weight = 8", (8, 1, 8, 3)),
        ("improved = 0", (8, 8, 1, 0)),
        ("improved = 3", (8, 5, 3, 1)),
    ];
    for (rule, numbers) in cases {
        assert!(rt; has_numbers(&rt, alloc, CURVE, rule, numbers));
    }
    assert!(rt; is_full(&rt, alloc, CURVE, "weight = 9"));
    assert!(rt; is_full(&rt, alloc, CURVE, "improved = 9"));
}

#[test]
fn checks_by_either_rule(rt: HostRuntime) {
    let alloc = rt.alloc();
    let all = [0, 2, 3, 4, 5, 6, 7, 9];
    assert!(rt; has_labels(&rt, alloc, CURVE, "weight = 5", &all, &[0, 2, 3, 4, 5]));
    assert!(rt; has_labels(&rt, alloc, CURVE, "improved = 3", &all, &[0, 2, 3]));
    assert!(rt; has_labels(&rt, alloc, CURVE, "improved = 0", &all, &[]));
}

#[test]
fn keeps_what_it_was_described_by(rt: HostRuntime) -> Result<(), Fail> {
    let made = code_of(&rt, rt.alloc(), CURVE, "weight = 5").ok_or("no code")?;
    assert!(rt; kept(&made) == (4, false, 9, 2, 8));
    let relation = made.relation().as_ref().ok_or("no relation")?;
    assert_eq!(rt; relation.terms().len(), 2);
    for (term, expected) in relation.terms().iter().zip([(3, 1), (6, 1)]) {
        assert_eq!(rt; (term.weight, term.c), expected);
    }
    Ok(())
}

// The members are 1, x, y, x², xy and y², since x²y² and the like are combinations of them at these points, and they have 1,
// 2, 2, 3, 4 and 3 pairs.
#[test]
fn compiles_a_code_on_a_space(rt: HostRuntime) -> Result<(), Fail> {
    let alloc = rt.alloc();
    let cases = [("weight = 2", (6, 3, 3, 1)), ("improved = 3", (6, 3, 3, 1))];
    for (rule, numbers) in cases {
        assert!(rt; has_numbers(&rt, alloc, PLANE, rule, numbers));
    }
    assert!(rt; is_full(&rt, alloc, PLANE, "weight = 5"));
    let all = [0, 1, 2, 3, 4, 5];
    assert!(rt; has_labels(&rt, alloc, PLANE, "weight = 2", &all, &[0, 1, 2]));
    let made = code_of(&rt, alloc, PLANE, "weight = 2").ok_or("no code")?;
    assert!(rt; kept(&made) == (4, false, 28, 2, 6));
    assert!(rt; made.relation().is_none());
    Ok(())
}
