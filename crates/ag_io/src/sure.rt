//! A source and a sink without faults.

ghost use Rattle.std.specs.Prelude.{ℕ, ◌≡◌, ◌<◌, ◌≤◌, ◌^◌, ◌++◌, length, IfOk, IsErr, drop, min, IsOk};

use crate::stream::{Failed, Sink, Source};

/// A source that gives these bytes, and never fails.
#[derive(Drop)]
pub struct SureSource<'a> {
    rest: &'a [u8],
}

impl<'a> SureSource<'a> {
    /// A source of `bytes`. It takes no memory.
    pub fn new(bytes: &'a [u8]) -> SureSource<'a>
        ensures { result.rest.now ≡ bytes.now }
    {
        SureSource { rest: bytes }
    }
}

impl<'a> Source for SureSource<'a> {
    ghost use Rattle.std.specs.Prelude.{true};

    ghost tells = { true };

    ghost view = { λ s. record { left = s.rest.now; faults = 0 } };

    fn read(&mut self, buf: &mut [u8]) -> Result<usize, Failed> {
        let count = self.rest.len().min(buf.len());
        buf[..count].copy_from_slice(&self.rest[..count]);
        self.rest = &self.rest[count..];
        Ok(count)
    }
}

/// A sink that takes all bytes, keeps none and tells none.
#[derive(Drop)]
pub struct NullSink {
    spare: (),
}

impl NullSink {
    /// A sink that keeps nothing.
    pub fn new() -> NullSink {
        NullSink { spare: () }
    }
}

impl Sink for NullSink {
    ghost use Rattle.std.specs.Prelude.{false, []};

    ghost tells = { false };

    ghost view = { λ _. record { given = []; faults = 0; sure = 0 } };

    fn write(&mut self, piece: &[u8]) -> Result<usize, Failed> {
        Ok(piece.len())
    }
}
