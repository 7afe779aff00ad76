use crate::descriptors::HERMITIAN_4;
use crate::rig::{is_met, plain, stopped};
use agcode_top::Status;
use std::test::Fail;

#[test]
fn other_words_are_usage(rt: HostRuntime) -> Result<(), Fail> {
    let lines = [
        "",
        "member",
        "frob D",
        "member -D",
        "member D D",
        "trial D --seed 7",
        "trial --seed +7 D",
        "trial --seed 7 --seed 7 D",
        "trial --bytes 65537 D",
        "trial --seed 18446744073709551616 D",
        "trial --workers 2 D",
        "decode --workers 0 D",
        "decode --workers 65 D",
        "decode --seed 7 D",
        "decode -- D",
        "erase",
        "erase --workers 2 D",
        "encode --salvage D",
        "decode --salvage --salvage D",
    ];
    let usage = "usage: agcode COMMAND [OPTIONS] DESC\n";
    for line in lines {
        let row = stopped(line, HERMITIAN_4, &[], Status::Usage, usage);
        assert!(rt; is_met(&rt, rt.alloc(), &row)?, "{line}");
    }
    Ok(())
}

#[test]
fn options_stand_in_any_form(rt: HostRuntime) -> Result<(), Fail> {
    let lines = [
        "trial --seed=007 --bytes=3 D",
        "trial --bytes 3 --seed 7 D",
        "trial --seed 18446744073709551615 --bytes 0003 D",
    ];
    for line in lines {
        let left = plain(&rt, rt.alloc(), line, HERMITIAN_4, &[])?;
        assert_eq!(rt; left.status, Status::Done, "{line}");
    }
    Ok(())
}
