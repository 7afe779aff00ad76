//! Lines that are written together.

ghost use Rattle.std.specs.Prelude.{ℕ, ◌≡◌, ◌+◌, ◌≤◌, List, [], ◌++◌, length, take, MatchResult};
ghost use Rattle.ag_io.specs.Puts.{Wrote, WroteSome, WroteAllBut};
ghost use Rattle.stream_codec.specs.declared.limits.TheConstants.{PIECE};

use crate::limits::PIECE;
use ag_io::{Failed, Sink, put};
use std::marker::Model;

/// Lines that wait to be written, at most a piece of bytes, seen as the list of these. Its calls take no memory.
#[derive(Drop)]
pub struct Pending {
    bytes: [u8; PIECE],
    used: usize,
}

impl Model for Pending {
    ghost use Rattle.std.specs.Prelude.{ℕ, ◌≤◌, List, take};
    ghost use Rattle.stream_codec.specs.declared.limits.TheConstants.{PIECE};

    ghost Value = { List ℕ };

    ghost view = { λ s. take s.used s.bytes };

    ghost invariant = { λ s. s.used ≤ PIECE };
}

impl Pending {
    /// Nothing waits.
    pub fn new() -> Pending
        ensures { result ≡ [] }
    {
        Pending {
            bytes: [0; PIECE],
            used: 0,
        }
    }

    /// Adds a line. Where it does not fit behind what waits, that is written first.
    pub fn add<R: Sink>(&mut self, line: &[u8], report: &mut R) -> Result<(), Failed>
        requires { length line.now ≤ PIECE }
        ensures { let bytes = self.old ++ line.now in MatchResult result
            (λ _. WroteAllBut R.tells (R.view report.old) (R.view report.new) bytes self.new)
            (λ _. WroteSome R.tells (R.view report.old) (R.view report.new) bytes) }
    {
        if line.len() > self.bytes.len() - self.used {
            self.write(report)?;
        }
        self.append(line);
        Ok(())
    }

    /// Writes what waits. Where nothing does, no write is made.
    pub fn write<R: Sink>(&mut self, report: &mut R) -> Result<(), Failed>
        ensures written { MatchResult result
            (λ _. Wrote R.tells (R.view report.old) (R.view report.new) self.old)
            (λ _. WroteSome R.tells (R.view report.old) (R.view report.new) self.old) }
        ensures none { self.new ≡ [] }
    {
        let used = self.used;
        self.used = 0;
        put(report, &self.bytes[..used])
    }

    /// Adds a line that fits.
    fn append(&mut self, line: &[u8])
        requires { length self.old + length line.now ≤ PIECE }
        ensures { self.new ≡ self.old ++ line.now }
    {
        let end = self.used + line.len();
        self.bytes[self.used..end].copy_from_slice(line);
        self.used = end;
    }
}
