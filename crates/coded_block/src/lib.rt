//! What coded files need of a code of blocks: the codeword of a message, the codeword near a block of stored symbols, and
//! the memory to find it. Contracts see such a code as a form of the stored text. Start at `BlockCode`.
#![tactic(auto)]

ghost use Rattle.std.specs.Prelude.{ℕ, ◌≡◌, ◌<◌, ◌≤◌, List, length, IfOk};
ghost use Rattle.stored_form.specs.Form.{Form, IsMessage, message_of};
ghost use Rattle.stored_form.specs.Reading.{kept};
ghost use Rattle.coded_block.specs.Codes.{BenchNumbers, IsCode, verdict_of};

use std::alloc::{AllocError, Global};

/// What decoding a block finds.
#[derive(Clone, Copy, PartialEq, Eq, Debug)]
pub enum Verdict {
    /// A codeword within the radius, and the number of positions at which it differs from the block.
    Near { changes: u32 },
    /// No codeword is within the radius.
    Beyond,
}

/// The memory that decoding a block uses. Contracts see of it what it keeps of the code that it was made for.
pub trait BlockBench: Drop {
    ghost numbers: { Self → BenchNumbers };
}

/// A code of blocks, with a bench for each block that is decoded at the same time. A block is n stored symbols, each in a
/// byte of its own here, in whatever layout the text has them. Contracts see the code as a form of the stored text, which
/// is sound in groups of every depth and in either layout. Its calls take no memory, but `bench`.
pub trait BlockCode {
    type Bench: BlockBench + Send;

    ghost form: { Self → Form };

    ghost numbers: { Self → BenchNumbers };

    /// The symbols of a codeword.
    fn n(&self) -> u32
        ensures n { result ≡ (form self.now).n }
        ensures code { IsCode (form self.now) };

    /// The symbols of a message.
    fn k(&self) -> u32
        ensures { result ≡ (form self.now).k };

    /// The bits of a symbol.
    fn bits(&self) -> u32
        ensures { result ≡ (form self.now).bits };

    /// The memory to decode one block.
    fn bench(&self, alloc: Global) -> Result<Self::Bench, AllocError>
        ensures { IfOk result (λ bench. Self.Bench.numbers bench ≡ numbers self.now) };

    /// Writes the codeword of a message.
    fn encode_block(&self, msg: &[u8], word: &mut [u8])
        requires message { IsMessage (form self.now) msg.now }
        requires long { length word.old ≡ (form self.now).n }
        ensures { word.new ≡ (form self.now).word msg.now };

    /// Writes the codeword near a block, or else the low bits of the stored symbols of the block.
    fn decode_block(&self, bench: &mut Self::Bench, got: &[u8], word: &mut [u8]) -> Verdict
        requires fits { Self.Bench.numbers bench.old ≡ numbers self.now }
        requires got_long { length got.now ≡ (form self.now).n }
        requires word_long { length word.old ≡ (form self.now).n }
        ensures word { word.new ≡ kept (form self.now) got.now }
        ensures verdict { result ≡ verdict_of (form self.now) got.now }
        ensures bench { Self.Bench.numbers bench.new ≡ Self.Bench.numbers bench.old };

    /// Writes the message of a codeword.
    fn message(&self, word: &[u8], msg: &mut [u8])
        requires word_long { length word.now ≡ (form self.now).n }
        requires long { length msg.old ≡ (form self.now).k }
        ensures { msg.new ≡ message_of (form self.now) word.now };
}
