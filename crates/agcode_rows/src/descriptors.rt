//! Descriptors. The texts with an empty list of points are filled by [`with_all_points`].

use crate::rig::{Row, is_met, plain};
use std::alloc::{AllocError, Global};
use std::test::Fail;
use std::thread::Threads;

/// The curve y^2 + y = x^3 over 4 elements, with all its points.
pub const HERMITIAN_4: &str = "bits = 2
modulus = 7
a = 2
b = 3
terms = [[0, 2, 1], [0, 1, 1], [3, 0, 1]]
points = [[0, 0], [0, 1], [1, 2], [1, 3], [2, 2], [2, 3], [3, 2], [3, 3]]
weight = 5
depth = 1
";

/// The curve y^4 + y = x^5 over 16 elements: 64 points.
pub const HERMITIAN_16: &str = "bits = 4
modulus = 19
a = 4
b = 5
terms = [[0, 4, 1], [0, 1, 1], [5, 0, 1]]
points = []
weight = 31
depth = 1
";

/// The curve y^8 + y = x^9 over 64 elements: 512 points, in groups of four codewords.
pub const HERMITIAN_64: &str = "bits = 6
modulus = 67
a = 8
b = 9
terms = [[0, 8, 1], [0, 1, 1], [9, 0, 1]]
points = []
weight = 255
depth = 4
";

/// The curve y^4 + y^2 + y = x^7 over 8 elements: 32 points.
pub const CURVE_8: &str = "bits = 3
modulus = 11
a = 4
b = 7
terms = [[0, 4, 1], [0, 2, 1], [0, 1, 1], [7, 0, 1]]
points = []
weight = 24
depth = 1
";

/// The line over 4 elements, with all its points: a Reed-Solomon code.
pub const LINE_4: &str = "bits = 2
modulus = 7
space = 1
points = [[0], [1], [2], [3]]
weight = 1
depth = 1
";

/// The plane over 4 elements: 16 points, and a hyperbolic code on them.
pub const PLANE_4: &str = "bits = 2
modulus = 7
space = 2
points = []
improved = 4
depth = 1
";

/// A descriptor with all points of its space, as the command points lists them.
pub fn with_all_points<X: Threads + Sync>(
    rt: &X,
    alloc: Global,
    text: &str,
) -> Result<String, Fail> {
    let left = plain(rt, alloc, "points D", text, &[])?;
    let list = String::from_utf8(left.out)?;
    let mut points = String::from_str(alloc, "points = [\n")?;
    points.push_str(list.as_str())?;
    points.push_str("]")?;
    Ok(text.replace(alloc, "points = []", points.as_str())?)
}

/// A descriptor with one piece of its text replaced.
pub fn with(alloc: Global, text: &str, from: &str, to: &str) -> Result<String, AllocError> {
    text.replace(alloc, from, to)
}

/// Whether a row is met where one piece of [`HERMITIAN_4`] is replaced.
pub fn is_met_with<X: Threads + Sync>(
    rt: &X,
    alloc: Global,
    row: &Row,
    from: &str,
    to: &str,
) -> Result<bool, AllocError> {
    let desc = with(alloc, HERMITIAN_4, from, to)?;
    let row = Row {
        desc: desc.as_bytes(),
        ..*row
    };
    is_met(rt, alloc, &row)
}
