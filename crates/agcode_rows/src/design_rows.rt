//! What to check for a wanted number of errors.

use crate::descriptors::{HERMITIAN_4, HERMITIAN_16, PLANE_4, with, with_all_points};
use crate::rig::{done, missed, stopped};
use agcode_top::Status;
use code_descriptor::DescCause;
use std::test::Fail;

/// Eight points of the plane over 4 elements, at which no weight repairs two errors.
const NO_ORDER: &str = "bits = 2
modulus = 7
space = 2
points = [[0, 0], [0, 1], [0, 2], [0, 3], [1, 0], [1, 1], [2, 0], [2, 1]]
weight = 0
depth = 1
";

/// The list of points of the first descriptor.
const POINTS: &str = "[[0, 0], [0, 1], [1, 2], [1, 3], [2, 2], [2, 3], [3, 2], [3, 3]]";

/// The plans for two errors at these.
const TWO: &[u8] =
    b"want 2\norder weight 5 checks 5 bound 5\nstop 5 4\nimproved 5 checks 5 bound 5\nmust 0:1 2:2 3:2 4:3 5:4\n";

#[test]
fn plans_of_the_smallest_curve(rt: HostRuntime) -> Result<(), Fail> {
    let one =
        b"want 1\norder weight 3 checks 3 bound 3\nstop 3 2\nimproved 3 checks 3 bound 3\nmust 0:1 2:2 3:2\n";
    let zero =
        b"want 0\norder weight 0 checks 1 bound 2\nstop none\nimproved 1 checks 0 bound 1\nmust\n";
    let most = Status::NoDesign { most: 8 };
    let rows = [
        // the input is not read
        done("design --want 2 D", HERMITIAN_4, &[7], TWO),
        done("design D", HERMITIAN_4, &[], one),
        done("design --want=0 D", HERMITIAN_4, &[], zero),
        stopped(
            "design --want 4 D",
            HERMITIAN_4,
            &[],
            most,
            "no design most 8\n",
        ),
        stopped(
            "design --want 511 D",
            HERMITIAN_4,
            &[],
            most,
            "no design most 8\n",
        ),
        stopped(
            "design --want 512 D",
            HERMITIAN_4,
            &[],
            Status::Usage,
            "usage: agcode COMMAND [OPTIONS] DESC\n",
        ),
    ];
    assert_eq!(rt; missed(&rt, rt.alloc(), &rows)?, None);
    Ok(())
}

#[test]
fn the_rule_is_not_used(rt: HostRuntime) -> Result<(), Fail> {
    let alloc = rt.alloc();
    let all = with(alloc, HERMITIAN_4, "weight = 5", "weight = 9")?;
    let improved = with(alloc, HERMITIAN_4, "weight = 5", "improved = 9")?;
    let alone = with(alloc, HERMITIAN_4, POINTS, "[[0, 0]]")?;
    let none = with(alloc, HERMITIAN_4, POINTS, "[]")?;
    let one_point = b"want 0\norder none\nstop none\nimproved 1 checks 0 bound 1\nmust\n";
    let cause = DescCause::NoPoints;
    let rows = [
        done("design --want 2 D", all.as_str(), &[], TWO),
        done("design --want 2 D", improved.as_str(), &[], TWO),
        done("design --want 0 D", alone.as_str(), &[], one_point),
        stopped(
            "design D",
            none.as_str(),
            &[],
            Status::Descriptor { cause },
            "descriptor: no points\n",
        ),
    ];
    assert_eq!(rt; missed(&rt, alloc, &rows)?, None);
    Ok(())
}

#[test]
fn fewer_checks_than_by_weight(rt: HostRuntime) -> Result<(), Fail> {
    let alloc = rt.alloc();
    let curve = with_all_points(&rt, alloc, HERMITIAN_16)?;
    let plane = with_all_points(&rt, alloc, PLANE_4)?;
    let on_curve =
        b"want 2\norder weight 15 checks 10 bound 5\nstop 15 4\nimproved 5 checks 8 bound 5\nmust 0:1 4:2 5:2 8:3 9:4 10:3 12:4 15:4\n";
    let on_plane =
        b"want 2\norder weight 9 checks 10 bound 8\nstop 9 4\nimproved 5 checks 8 bound 6\nmust 0:1 1:2 2:2 3:3 4:4 5:3 6:4 9:4\n";
    let no_order =
        b"want 2\norder none\nstop 9 4\nimproved 5 checks 7 bound 6\nmust 0:1 1:2 2:2 3:3 4:4 5:3 9:4\n";
    let rows = [
        done("design --want 2 D", curve.as_str(), &[], on_curve),
        done("design --want 2 D", plane.as_str(), &[], on_plane),
        done("design --want 2 D", NO_ORDER, &[], no_order),
    ];
    assert_eq!(rt; missed(&rt, alloc, &rows)?, None);
    Ok(())
}
