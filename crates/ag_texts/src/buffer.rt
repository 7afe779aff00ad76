//! A line as it is made.

ghost use Rattle.std.specs.Prelude.{ℕ, ◌≡◌, ◌+◌, ◌^◌, ◌<◌, ◌≤◌, List, [], ◌∷◌, ◌++◌, length, take, false};
ghost use Rattle.std.specs.Fmt.{decimal, digit_glyph};
ghost use Rattle.ag_texts.specs.Numbers.{hex_of};

use std::marker::Model;

/// The most digits that a number of 64 bits has.
const MOST_DIGITS: usize = 20;

/// A line of at most 256 bytes, seen as the list of its bytes. Its calls take no memory.
#[derive(Drop)]
pub struct LineBuf {
    bytes: [u8; 256],
    len: usize,
}

impl Model for LineBuf {
    ghost Value = { List ℕ };

    ghost view = { λ s. take s.len s.bytes };

    ghost invariant = { λ s. s.len ≤ 256 };
}

impl LineBuf {
    /// An empty line.
    pub fn new() -> LineBuf
        ensures { result ≡ [] }
    {
        LineBuf {
            bytes: [0; 256],
            len: 0,
        }
    }

    /// Drops what was written.
    pub fn clear(&mut self)
        ensures { self.new ≡ [] }
    {
        self.len = 0;
    }

    /// Adds the bytes of a text, and no space.
    pub fn word(&mut self, text: &str)
        requires { length self.old + length text.now ≤ 256 }
        ensures added { self.new ≡ self.old ++ text.now }
        ensures len { length self.new ≡ length self.old + length text.now }
    {
        self.append(text.as_bytes());
    }

    /// Adds the decimal digits of a number, at most twenty, and no space.
    pub fn number(&mut self, v: u64)
        requires { length self.old + length (decimal v) ≤ 256 }
        ensures added { self.new ≡ self.old ++ decimal v }
        ensures len { length self.new ≤ length self.old + 20 }
    {
        let mut digits = [0u8; MOST_DIGITS];
        let mut at = MOST_DIGITS;
        let mut rest = v;
        while rest >= 10 {
            at -= 1;
            digits[at] = b'0' + (rest % 10) as u8;
            rest /= 10;
        }
        at -= 1;
        digits[at] = b'0' + rest as u8;
        self.append(&digits[at..]);
    }

    /// Adds a byte as two lower-case hexadecimal digits.
    pub fn hex(&mut self, v: u8)
        requires { length self.old + 2 ≤ 256 }
        ensures added { self.new ≡ self.old ++ hex_of v }
        ensures len { length self.new ≡ length self.old + 2 }
    {
        self.append(&[hex_digit(v / 16), hex_digit(v % 16)]);
    }

    /// Adds the line feed that ends a line.
    pub fn end(&mut self)
        requires { length self.old < 256 }
        ensures added { self.new ≡ self.old ++ 10 ∷ [] }
        ensures len { length self.new ≡ length self.old + 1 }
    {
        self.append(b"\n");
    }

    /// The bytes written so far.
    pub fn bytes(&self) -> &[u8]
        ensures written { result.now ≡ self.now }
        ensures short { length self.now ≤ 256 }
    {
        &self.bytes[..self.len]
    }

    fn append(&mut self, added: &[u8])
        requires { length self.old + length added.now ≤ 256 }
        ensures { self.new ≡ self.old ++ added.now }
    {
        let end = self.len + added.len();
        self.bytes[self.len..end].copy_from_slice(added);
        self.len = end;
    }
}

fn hex_digit(d: u8) -> u8
    requires { d < 16 }
    ensures { result ≡ digit_glyph false d }
{
    if d < 10 { b'0' + d } else { b'a' + (d - 10) }
}
