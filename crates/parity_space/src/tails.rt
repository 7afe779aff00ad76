//! The encoder's rows.

ghost use Rattle.std.specs.Prelude.{ℕ, ◌≡◌, ◌<◌, ◌^◌, length, All};
ghost use Rattle.block_theory.specs.Checks.{message_places};

use crate::Parity;

impl Parity {
    /// Of the codeword that has a 1 at message place number i, and 0 at the others, the symbols from the first check position on.
    pub fn tail(&self, i: u32) -> &[u8]
        requires { i < length (message_places self.now) }
        ensures symbols { All (λ x. x < 2 ^ self.now.bits) result.now }
    {
        self.tails.row(i)
    }
}
