//! What a run ends with.

ghost use Rattle.std.specs.Prelude.{◌≡◌, ℕ};
ghost use Rattle.agcode_top.specs.Lines.{number_of};

use code_descriptor::DescCause;

/// What a run ends with. Its number is the status of the program; each variant says when it comes.
#[derive(Clone, Copy, Debug, PartialEq, Eq)]
pub enum Status {
    /// All was done.
    Done,
    /// member: the word is not in the code.
    NotCodeword,
    /// decode: the first codeword that is not within the radius of what came, by its group and its number there. votes: no
    /// codeword is within the radius of the word; both numbers are 0.
    Beyond { group: u64, word: u32 },
    /// decode: the text is empty, or so many bytes stand after its whole groups.
    Ragged { extra: u32 },
    /// decode: the corrected bits are those of no file.
    Framing,
    /// check: the input is not the table of the order bound; the first line at which a check fails, from 1.
    TableRefused { line: u32 },
    /// member, votes: the input is shorter or longer than a word; `taken` is its length, or one more than that of a word. erase:
    /// the same of a word with its marks.
    WordLength { taken: u32 },
    /// decode with `--salvage`: a codeword of the text was not within the radius of what came, and all that can be had of the
    /// text was written. The report tells which codewords.
    Salvaged,
    /// erase: the first place whose mark is neither 0 nor 1.
    BadMark { place: u32 },
    /// erase: no codeword has the symbols that were kept.
    NoCodeword,
    /// erase: two codewords or more have the symbols that were kept; the first place at which two of them differ.
    Ambiguous { place: u32 },
    /// design: no function has so many pairs as are wanted; the most pairs that one has.
    NoDesign { most: u32 },
    /// The words are no command line of a command that is built.
    Usage,
    /// The first cause that refuses the descriptor.
    Descriptor { cause: DescCause },
    /// encode, decode, check: more bytes than the limit were taken; `taken` is their number.
    TooLong { taken: u64 },
    /// The descriptor could not be read.
    DescFault,
    /// The input could not be read.
    InputFault,
    /// The output could not be written.
    OutFault,
    /// decode, erase: the report could not be written.
    ReportFault,
    /// Memory was wanting. Nothing was written on the output.
    NoMemory,
}

impl Status {
    /// The number of the status.
    pub fn code(&self) -> u8
        ensures { result ≡ number_of self.now }
    {
        match self {
            Status::Done => 0,
            Status::NotCodeword => 1,
            Status::Beyond { .. } => 2,
            Status::Ragged { .. } => 3,
            Status::Framing => 4,
            Status::TableRefused { .. } => 5,
            Status::WordLength { .. } => 6,
            Status::Salvaged => 7,
            Status::BadMark { .. } => 8,
            Status::NoCodeword => 9,
            Status::Ambiguous { .. } => 10,
            Status::NoDesign { .. } => 11,
            Status::Usage => 64,
            Status::Descriptor { .. } => 65,
            Status::TooLong { .. } => 66,
            Status::DescFault => 70,
            Status::InputFault => 71,
            Status::OutFault => 72,
            Status::ReportFault => 73,
            Status::NoMemory => 74,
        }
    }
}
