use crate::descriptors::{HERMITIAN_4, HERMITIAN_16, is_met_with, with_all_points};
use crate::rig::{done, missed};
use std::test::Fail;

#[test]
fn a_trial_with_no_bytes(rt: HostRuntime) -> Result<(), Fail> {
    let text = b"bytes 0\ncodewords 1\nchanged 0\ncorrected 0\nequal yes\n";
    let row = done("trial --bytes 0 D", HERMITIAN_4, &[], text);
    assert!(rt; is_met_with(&rt, rt.alloc(), &row, "weight = 5", "weight = 0")?);
    Ok(())
}

// The numbers of changes were worked out apart from this code, from the definition of the generator.
#[test]
fn trials_of_files(rt: HostRuntime) -> Result<(), Fail> {
    let alloc = rt.alloc();
    let desc = with_all_points(&rt, alloc, HERMITIAN_16)?;
    let rows = [
        done(
            "trial --seed=7 --bytes 3 D",
            HERMITIAN_4,
            &[],
            b"bytes 3\ncodewords 5\nchanged 3\ncorrected 3\nequal yes\n",
        ),
        done(
            "trial --seed 1 --bytes 200 D",
            desc.as_str(),
            &[],
            b"bytes 200\ncodewords 11\nchanged 40\ncorrected 40\nequal yes\n",
        ),
    ];
    let missed = missed(&rt, alloc, &rows)?;
    assert!(rt; missed.is_none(), "{missed:?}");
    Ok(())
}
