//! Bits that are written one symbol after the other: each byte is stored once, when all of its bits are there.

ghost use Rattle.std.specs.Prelude.{ℕ, ◌≡◌, ◌*◌, ◌+◌, ◌++◌, ◌<◌, ◌≤◌, length, take};
ghost use Rattle.stored_form.specs.Bits.{bits_of, bits_of_symbols};
ghost use Rattle.ag_frame.specs.Packing.{with_pending};

/// The bits that wait for their byte: the low `have` bits of a number, for the byte at `place`.
#[derive(Clone, Copy)]
pub struct Pending {
    pub bits: u32,
    pub have: u32,
    pub place: usize,
}

impl Pending {
    /// What goes on behind the first `at` bits of bytes.
    pub fn behind(at: usize, bytes: &[u8]) -> Pending
        requires { at < length bytes.now * 8 }
        ensures few { result.have < 8 }
        ensures small { result.bits < 256 }
        ensures place { result.place * 8 + result.have ≡ at }
        ensures bits { with_pending bytes.now result.place result.have result.bits
            ≡ take at (bits_of_symbols 8 bytes.now) }
    {
        let place = at / 8;
        let have = (at % 8) as u32;
        let bits = u32::from(bytes[place]) >> (8 - have);
        Pending { bits, have, place }
    }

    /// Writes the low bits of a symbol, `width` of them, behind all others.
    pub fn put(&mut self, width: u32, symbol: u8, bytes: &mut [u8])
        requires width { width ≤ 8 }
        requires few { self.old.have < 8 }
        requires small { self.old.bits < 256 }
        requires inside { self.old.place * 8 + self.old.have + width ≤ 8 * length bytes.old }
        ensures length { length bytes.new ≡ length bytes.old }
        ensures few { self.new.have < 8 }
        ensures small { self.new.bits < 256 }
        ensures place { self.new.place * 8 + self.new.have
            ≡ self.old.place * 8 + self.old.have + width }
        ensures bits { with_pending bytes.new self.new.place self.new.have self.new.bits
            ≡ with_pending bytes.old self.old.place self.old.have self.old.bits
            ++ bits_of width symbol }
    {
        let values = 1 << width;
        let joined = self.bits * values + u32::from(symbol) % values;
        let have = self.have + width;
        if have < 8 {
            self.bits = joined % 256;
            self.have = have;
        } else {
            let rest = have - 8;
            bytes[self.place] = ((joined >> rest) % 256) as u8;
            self.bits = joined % 256;
            self.have = rest;
            self.place += 1;
        }
    }
}
