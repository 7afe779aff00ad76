//! The program: it makes the real sources and sinks, and calls `agcode_top::run`, which carries every promise.
#![tactic(auto)]

#[cfg(test)]
mod adapter_tests;
mod adapters;

use adapters::{FileSource, ReadSource, WriteSink};
use ag_pool::OpenGate;
use std::alloc::{AllocError, Global};
use std::env::Env;
use std::io::ErrorKind;
use std::process::ExitCode;
use std::{env, io};

// The words behind the program's own name.
fn words<R: Env + AllocGlobal>(rt: &R) -> io::Result<Vec<String>> {
    let mut words = Vec::new(rt.alloc());
    for word in env::args(rt)?.skip(1) {
        words.push(word)?;
    }
    Ok(words)
}

// The number to end with where the words themselves cannot be collected.
fn no_words(error: io::Error) -> u8 {
    match error.kind() {
        ErrorKind::OutOfMemory => 74,
        _ => 75,
    }
}

fn main(rt: HostRuntime) -> ExitCode {
    let words = match words(&rt) {
        Ok(words) => words,
        Err(error) => return ExitCode::from(no_words(error)),
    };
    let path = words.last().map_or("", |word| word.as_str());
    let mut desc = FileSource::new(&rt, path);
    let mut input = ReadSource::new(rt.stdin());
    let mut out = WriteSink::new(rt.stdout());
    let mut report = WriteSink::new(rt.stderr());
    let status = agcode_top::run(
        &rt,
        rt.alloc(),
        &words,
        &mut desc,
        &mut input,
        &mut out,
        &mut report,
        &OpenGate,
    );
    ExitCode::from(status.code())
}

#[cfg(test)]
mod tests {
    use crate::adapters::{FileSource, ReadSource, WriteSink};
    use ag_io::Source;
    use ag_pool::OpenGate;
    use agcode_top::{Status, run};
    use std::test::Fail;

    #[test]
    fn a_descriptor_that_is_not_there(rt: HostRuntime) -> Result<(), Fail> {
        let alloc = rt.alloc();
        let mut words = Vec::new(alloc);
        words.push(String::from_str(alloc, "member")?)?;
        words.push(String::from_str(alloc, "no_such_file.toml")?)?;
        let mut desc = FileSource::new(&rt, "no_such_file.toml");
        let mut input = ReadSource::new(rt.stdin());
        let mut out = WriteSink::new(rt.stdout());
        let mut report = WriteSink::new(rt.stderr());
        let status = run(
            &rt,
            alloc,
            &words,
            &mut desc,
            &mut input,
            &mut out,
            &mut report,
            &OpenGate,
        );
        assert_eq!(rt; status, Status::DescFault);
        assert_eq!(rt; status.code(), 70);
        let mut byte = [0u8; 1];
        assert!(rt; desc.read(&mut byte).is_err());
        Ok(())
    }
}
