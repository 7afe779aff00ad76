//! The adapters over readers and writers that fail, and that give or take little.

use crate::adapters::{FileSource, ReadSource, WriteSink};
use ag_io::{Filled, Sink, Source, fill, put};
use std::io;
use std::io::{ErrorKind, Read, Write};
use std::test::Fail;

// A reader of the bytes 1, 2, .. up to `last`, one a call; the call of this number fails.
#[derive(Drop)]
struct Drip {
    given: u8,
    last: u8,
    fails: u8,
    calls: u8,
}

impl Read for Drip {
    fn read(&mut self, buf: &mut [u8]) -> io::Result<usize> {
        let call = self.calls;
        self.calls = call.saturating_add(1);
        if call == self.fails {
            return Err(io::Error::from(ErrorKind::Other));
        }
        if buf.is_empty() || self.given >= self.last {
            return Ok(0);
        }
        self.given = self.given.saturating_add(1);
        buf[0] = self.given;
        Ok(1)
    }
}

// What a writer does with a piece.
#[derive(Clone, Copy, PartialEq, Eq)]
enum Manner {
    TakesOne,
    TakesNone,
    Fails,
    FailsToFlush,
}

// A writer that adds what it takes to a list.
#[derive(Drop)]
struct Trickle<'a> {
    kept: &'a mut Vec<u8>,
    manner: Manner,
}

impl<'a> Write for Trickle<'a> {
    fn write(&mut self, buf: &[u8]) -> io::Result<usize> {
        match self.manner {
            Manner::TakesNone => Ok(0),
            Manner::Fails => Err(io::Error::from(ErrorKind::Other)),
            Manner::TakesOne | Manner::FailsToFlush => {
                if buf.is_empty() {
                    return Ok(0);
                }
                self.kept.push(buf[0])?;
                Ok(1)
            }
        }
    }

    fn flush(&mut self) -> io::Result<()> {
        if self.manner == Manner::FailsToFlush {
            return Err(io::Error::from(ErrorKind::Other));
        }
        Ok(())
    }
}

#[test]
fn a_reader_of_single_bytes_loses_none(rt: HostRuntime) -> Result<(), Fail> {
    let mut src = ReadSource::new(Drip {
        given: 0,
        last: 5,
        fails: 9,
        calls: 0,
    });
    let mut buf = [0u8; 3];
    assert!(rt; matches!(fill(&mut src, &mut buf), Filled::Whole));
    assert_eq!(rt; buf.as_slice(), [1, 2, 3].as_slice());
    assert!(rt; matches!(fill(&mut src, &mut buf), Filled::End { got: 2 }));
    assert_eq!(rt; buf.as_slice(), [4, 5, 3].as_slice());
    Ok(())
}

#[test]
fn a_read_that_fails_is_no_end(rt: HostRuntime) -> Result<(), Fail> {
    let mut src = ReadSource::new(Drip {
        given: 0,
        last: 5,
        fails: 1,
        calls: 0,
    });
    let mut buf = [0u8; 3];
    assert!(rt; matches!(fill(&mut src, &mut buf), Filled::Fault { got: 1 }));
    assert!(rt; matches!(src.read(&mut buf), Ok(1)));
    assert_eq!(rt; buf[0], 2);
    Ok(())
}

#[test]
fn a_folder_is_no_file(rt: HostRuntime) -> Result<(), Fail> {
    let mut desc = FileSource::new(&rt, "/");
    let mut buf = [0u8; 3];
    assert!(rt; matches!(fill(&mut desc, &mut buf), Filled::Fault { got: 0 }));
    Ok(())
}

// Whether a writer of this manner takes two bytes.
fn takes_two(kept: &mut Vec<u8>, manner: Manner) -> bool {
    let mut sink = WriteSink::new(Trickle { kept, manner });
    put(&mut sink, &[7, 8]).is_ok()
}

#[test]
fn a_writer_of_single_bytes_is_given_all(rt: HostRuntime) -> Result<(), Fail> {
    let mut kept = Vec::new(rt.alloc());
    assert!(rt; takes_two(&mut kept, Manner::TakesOne));
    assert_eq!(rt; kept.as_slice(), [7, 8].as_slice());
    Ok(())
}

#[test]
fn a_write_that_fails_is_told(rt: HostRuntime) -> Result<(), Fail> {
    let mut kept = Vec::new(rt.alloc());
    assert!(rt; !takes_two(&mut kept, Manner::TakesNone));
    assert!(rt; !takes_two(&mut kept, Manner::Fails));
    assert!(rt; !takes_two(&mut kept, Manner::FailsToFlush));
    let mut sink = WriteSink::new(Trickle {
        kept: &mut kept,
        manner: Manner::TakesNone,
    });
    assert!(rt; matches!(sink.write(&[]), Ok(0)));
    Ok(())
}
