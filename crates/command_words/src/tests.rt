use crate::options::{flag_named, has_flag, option_named};
use crate::words::FlagName;
use crate::{Command, Words, read_words};
use ag_pool::Workers;
use std::alloc::{AllocError, Global};
use std::test::Fail;

fn read(alloc: Global, line: &str) -> Result<Option<Words>, AllocError> {
    let mut words = Vec::new(alloc);
    for word in line.split(' ') {
        words.push(String::from_str(alloc, word)?)?;
    }
    Ok(read_words(&words))
}

#[test]
fn commands_without_options(rt: HostRuntime) -> Result<(), Fail> {
    let alloc = rt.alloc();
    let expected = Words {
        command: Command::Member,
        seed: 1,
        bytes: 1000,
        workers: Workers::ONE,
        salvage: false,
        want: 1,
    };
    assert_eq!(rt; read(alloc, "member D")?, Some(expected));
    // an empty path is a path
    assert_eq!(rt; read(alloc, "member ")?, Some(expected));
    let command = Command::Erase;
    assert_eq!(rt;
        read(alloc, "erase D")?,
        Some(Words {
            command,
            ..expected
        })
    );
    for line in [
        "member",
        "frob D",
        "member -D",
        "member --",
        "member D D",
        "Member D",
        "member --seed 1 D",
        "erase --seed 1 D",
    ] {
        assert_eq!(rt; read(alloc, line)?, None, "{line}");
    }
    Ok(())
}

#[test]
fn options_of_a_trial(rt: HostRuntime) -> Result<(), Fail> {
    let alloc = rt.alloc();
    let expected = Words {
        command: Command::Trial,
        seed: 7,
        bytes: 65536,
        workers: Workers::ONE,
        salvage: false,
        want: 1,
    };
    for line in [
        "trial --seed 7 --bytes 65536 D",
        "trial --bytes=65536 --seed=007 D",
        "trial --bytes 65536 --seed=00000000000000000007 D",
    ] {
        assert_eq!(rt; read(alloc, line)?, Some(expected), "{line}");
    }
    for line in [
        "trial D --seed 7",
        "trial --seed +7 D",
        "trial --seed 7 --seed 7 D",
        "trial --bytes 65537 D",
        "trial --seed 18446744073709551616 D",
        "trial --seed 000000000000000000007 D",
        "trial --seed= D",
        "trial --seed D",
        "trial --see 7 D",
        "trial --workers 2 D",
        "trial --help D",
    ] {
        assert_eq!(rt; read(alloc, line)?, None, "{line}");
    }
    Ok(())
}

#[test]
fn workers_of_a_decoding(rt: HostRuntime) -> Result<(), Fail> {
    let alloc = rt.alloc();
    for (line, count) in [
        ("decode D", 1),
        ("decode --workers 64 D", 64),
        ("decode --workers=064 D", 64),
    ] {
        let words = read(alloc, line)?.ok_or("accepted")?;
        assert_eq!(rt; words.workers.count(), count, "{line}");
    }
    for line in [
        "decode --workers 65 D",
        "decode --workers 0 D",
        "decode --workers 2 --workers 2 D",
        "encode --workers 2 D",
    ] {
        assert_eq!(rt; read(alloc, line)?, None, "{line}");
    }
    Ok(())
}

#[test]
fn what_a_design_is_wanted_for(rt: HostRuntime) -> Result<(), Fail> {
    let alloc = rt.alloc();
    for (line, want) in [
        ("design D", 1),
        ("design --want 0 D", 0),
        ("design --want=0511 D", 511),
    ] {
        let words = read(alloc, line)?.ok_or("accepted")?;
        assert_eq!(rt; words.command, Command::Design, "{line}");
        assert_eq!(rt; words.want, want, "{line}");
    }
    for line in [
        "design --want 512 D",
        "design --want -1 D",
        "design --want 2 --want 2 D",
        "design --workers 2 D",
        "trial --want 2 D",
        "params --want 2 D",
    ] {
        assert_eq!(rt; read(alloc, line)?, None, "{line}");
    }
    Ok(())
}

#[test]
fn whether_decoding_goes_on_past_lost_codewords(rt: HostRuntime) -> Result<(), Fail> {
    let alloc = rt.alloc();
    for (line, salvage) in [
        ("decode D", false),
        ("decode --salvage D", true),
        ("decode --salvage --workers 2 D", true),
        ("decode --workers 2 --salvage D", true),
    ] {
        let words = read(alloc, line)?.ok_or("accepted")?;
        assert_eq!(rt; words.salvage, salvage, "{line}");
    }
    for line in [
        "decode --salvage=1 D",
        "decode --salvage --salvage D",
        "decode --workers --salvage D",
        "encode --salvage D",
    ] {
        assert_eq!(rt; read(alloc, line)?, None, "{line}");
    }
    Ok(())
}

#[test]
fn a_flag_has_no_value(rt: HostRuntime) -> Result<(), Fail> {
    assert_eq!(rt; flag_named("--salvage"), Some(FlagName::Salvage));
    assert_eq!(rt; flag_named("--salvage=1"), None);
    assert_eq!(rt; option_named("--salvage"), None);
    assert!(rt; has_flag(Command::Decode, FlagName::Salvage));
    assert!(rt; !has_flag(Command::Encode, FlagName::Salvage));
    Ok(())
}
