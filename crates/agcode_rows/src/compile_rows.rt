//! That the number of workers changes nothing of a code.

use crate::descriptors::{CURVE_8, HERMITIAN_16, HERMITIAN_64, with_all_points};
use ag_pool::Workers;
use code_descriptor::read;
use descriptor_code::DescribedCode;
use std::alloc::Global;
use std::test::Fail;
use std::thread::Threads;

// n, k, the number of checks, the bound and t of the code that so many workers compile.
fn numbers<X: Threads + Sync>(rt: &X, alloc: Global, desc: &str, workers: u32) -> Option<[u32; 5]> {
    let workers = Workers::new(workers)?;
    let descriptor = read(alloc, desc.as_bytes()).ok()?;
    if descriptor.points().is_empty() {
        return None;
    }
    let made = DescribedCode::compile(rt, alloc, descriptor, workers).ok()?;
    let code = made.code();
    let checks = code.checked().size();
    Some([code.n(), code.k(), checks, code.bound(), code.radius()])
}

#[test]
fn any_number_of_workers_compiles_the_same_code(rt: HostRuntime) -> Result<(), Fail> {
    let alloc = rt.alloc();
    let cases = [
        (HERMITIAN_16, [64, 38, 26, 21, 10]),
        (HERMITIAN_64, [512, 284, 228, 201, 100]),
        (CURVE_8, [32, 16, 16, 8, 3]),
    ];
    for (text, told) in cases {
        let desc = with_all_points(&rt, alloc, text)?;
        assert_eq!(rt; numbers(&rt, alloc, desc.as_str(), 1), Some(told));
        assert_eq!(rt; numbers(&rt, alloc, desc.as_str(), 8), Some(told));
    }
    Ok(())
}
