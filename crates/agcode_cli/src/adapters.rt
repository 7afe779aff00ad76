//! Files and standard streams as sources and sinks. Of their bytes nothing is told. An adapter loops over nothing: each
//! read or write is one call of the library's, and a write is followed by a flush.

ghost use Rattle.std.specs.Prelude.{ℕ, ◌≡◌, ◌≤◌, length, IfOk};

use ag_io::{Failed, Sink, Source};
use std::fs;
use std::fs::Files;
use std::io::{Read, Write};

/// A reader as a source.
#[derive(Drop)]
pub struct ReadSource<T> {
    reader: T,
    faults: u64,
}

impl<T: Read> ReadSource<T> {
    /// A source over `reader`.
    pub fn new(reader: T) -> ReadSource<T> {
        ReadSource { reader, faults: 0 }
    }
}

impl<T: Read> Source for ReadSource<T> {
    ghost use Rattle.std.specs.Prelude.{false, []};

    ghost tells = { false };

    ghost view = { λ s. record { left = []; faults = s.faults } };

    fn read(&mut self, buf: &mut [u8]) -> Result<usize, Failed> {
        let faults = self.faults;
        match self.reader.read(buf) {
            Ok(count) => Ok(count),
            Err(_) => {
                self.faults = faults.saturating_add(1);
                Err(Failed)
            }
        }
    }
}

/// A file as a source. It is opened at the first read; where that fails, the read fails.
#[derive(Drop)]
pub struct FileSource<'a, R: Files> {
    rt: &'a R,
    path: &'a str,
    file: Option<R::File>,
    faults: u64,
}

impl<'a, R: Files> FileSource<'a, R> {
    /// A source over the file at `path`.
    pub fn new(rt: &'a R, path: &'a str) -> FileSource<'a, R> {
        FileSource {
            rt,
            path,
            file: None,
            faults: 0,
        }
    }

    fn open_and_read(&mut self, buf: &mut [u8]) -> Result<usize, Failed>
        ensures within { IfOk result (λ c. c ≤ length buf.new) }
        ensures counted { self.new.faults ≡ self.old.faults }
    {
        if self.file.is_none() {
            self.file = fs::open(self.rt, self.path).ok();
        }
        match &mut self.file {
            None => Err(Failed),
            Some(file) => file.read(buf).map_err(|_| Failed),
        }
    }
}

impl<'a, R: Files> Source for FileSource<'a, R> {
    ghost use Rattle.std.specs.Prelude.{false, []};

    ghost tells = { false };

    ghost view = { λ s. record { left = []; faults = s.faults } };

    fn read(&mut self, buf: &mut [u8]) -> Result<usize, Failed> {
        let faults = self.faults;
        match self.open_and_read(buf) {
            Ok(count) => Ok(count),
            Err(Failed) => {
                self.faults = faults.saturating_add(1);
                Err(Failed)
            }
        }
    }
}

/// A writer as a sink. Each write is flushed.
#[derive(Drop)]
pub struct WriteSink<T> {
    writer: T,
    faults: u64,
}

impl<T: Write> WriteSink<T> {
    /// A sink over `writer`.
    pub fn new(writer: T) -> WriteSink<T> {
        WriteSink { writer, faults: 0 }
    }
}

impl<T: Write> Sink for WriteSink<T> {
    ghost use Rattle.std.specs.Prelude.{false, []};

    ghost tells = { false };

    ghost view = { λ s. record { given = []; faults = s.faults; sure = 0 } };

    fn write(&mut self, piece: &[u8]) -> Result<usize, Failed> {
        let faults = self.faults;
        match self.writer.write(piece) {
            Ok(count) if (count > 0 || piece.is_empty()) && self.writer.flush().is_ok() => {
                Ok(count)
            }
            _ => {
                self.faults = faults.saturating_add(1);
                Err(Failed)
            }
        }
    }
}
