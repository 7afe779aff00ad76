use crate::descriptors::{HERMITIAN_4, is_met_with};
use crate::rig::{done, missed};
use std::test::Fail;

const BYTE_41: [u8; 16] = [1, 0, 0, 1, 2, 3, 1, 0, 1, 2, 0, 3, 0, 3, 0, 3];

#[test]
fn files_are_encoded(rt: HostRuntime) -> Result<(), Fail> {
    // the empty file, the byte 41, and three bytes that fill four groups exactly
    let mut exact = [0u8; 40];
    exact[32..].copy_from_slice(&[2, 0, 0, 2, 3, 1, 2, 0]);
    let rows = [
        done("encode D", HERMITIAN_4, &[], &[2, 0, 0, 2, 3, 1, 2, 0]),
        done("encode D", HERMITIAN_4, &[0x41], &BYTE_41),
        done("encode D", HERMITIAN_4, &[0, 0, 0], &exact),
    ];
    let missed = missed(&rt, rt.alloc(), &rows)?;
    assert!(rt; missed.is_none(), "{missed:?}");
    Ok(())
}

#[test]
fn the_empty_file_in_other_codes(rt: HostRuntime) -> Result<(), Fail> {
    let cases: [(&str, &str, &[u8]); 2] = [
        (
            "depth = 1",
            "depth = 2",
            &[2, 0, 0, 0, 0, 0, 2, 0, 3, 0, 1, 0, 2, 0, 0, 0],
        ),
        ("weight = 5", "weight = 0", &[2, 0, 0, 0, 0, 0, 0, 2]),
    ];
    for (from, to, text) in cases {
        let row = done("encode D", HERMITIAN_4, &[], text);
        let met = is_met_with(&rt, rt.alloc(), &row, from, to)?;
        assert!(rt; met, "{to}");
    }
    Ok(())
}
