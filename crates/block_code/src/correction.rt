//! From the error of a block to its near codeword.

ghost use Rattle.std.specs.Prelude.{ℕ, ◌≡◌, ◌≢◌, ◌+◌, ◌*◌, ◌<◌, ◌≤◌, true, length, List, All, IsTrue, IfSome};
ghost use Rattle.order_theory.specs.Basis.{times, IsSoundBasis, IsWord};
ghost use Rattle.order_theory.specs.Codes.{low_bits, list_sum, distance, IsCodeword};
ghost use Rattle.block_theory.specs.Checks.{message_places};
ghost use Rattle.error_guess.specs.Guesses.{IsFor};
ghost use Rattle.vote_core.specs.Found.{IsAnswer};
ghost use Rattle.vote_core.specs.Ledgers.{ledger_of};
ghost use Rattle.vote_core.specs.Polls.{without_ledger};
ghost use Rattle.block_code.specs.Benches.{state_of, values_of};
ghost use Rattle.block_code.specs.Compiled.{checks_in, IsMade, numbers_of};
ghost use Rattle.block_code.specs.Decoding.{IsVerdict, ledger_after};
ghost use Rattle.block_code.specs.Settling.{IsSettled};

use crate::code::Code;
use crate::coded::take_places;
use coded_block::Verdict;
use error_guess::Guess;
use gf_field::Field;
use vote_core::{Found, Poll, Step};

/// Writes the low bits of each byte.
fn write_low_bits(bits: u32, bytes: &[u8], word: &mut [u8])
    requires bits { bits ≤ 8 }
    requires same { length bytes.now ≡ length word.old }
    ensures { word.new ≡ low_bits bits bytes.now }
{
    let size = 1u32 << bits;
    for p in 0..word.len() {
        word[p] = (u32::from(bytes[p]) % size) as u8;
    }
}

/// Adds the low bits of each byte to a list of symbols.
fn add_low_bits(bits: u32, bytes: &[u8], word: &mut [u8])
    requires bits { bits ≤ 8 }
    requires same { length bytes.now ≡ length word.old }
    ensures { word.new ≡ list_sum (low_bits bits bytes.now) word.old }
{
    let size = 1u32 << bits;
    for p in 0..word.len() {
        let low = (u32::from(bytes[p]) % size) as u8;
        word[p] = low ^ word[p];
    }
}

/// The number of positions at which two lists differ.
fn count_changes(x: &[u8], y: &[u8]) -> u32
    requires same { length x.now ≡ length y.now }
    requires few { length x.now ≤ 1024 }
    ensures { result ≡ distance x.now y.now }
{
    let mut changes = 0;
    for p in 0..x.len() {
        if x[p] != y[p] {
            changes += 1;
        }
    }
    changes
}

/// Makes the error of a block the word that it leads to, or, where that is too far, the low bits of the block.
fn settle(bits: u32, radius: u32, got: &[u8], word: &mut [u8]) -> Verdict
    requires bits { bits ≤ 8 }
    requires same { length got.now ≡ length word.old }
    requires few { length got.now ≤ 1024 }
    ensures { IsSettled bits radius got.now word.old word.new result }
{
    add_low_bits(bits, got, word);
    let changes = count_changes(got, word);
    if changes <= radius {
        return Verdict::Near { changes };
    }
    write_low_bits(bits, got, word);
    Verdict::Beyond
}

/// Writes the sum of the low bits of a block and a word.
fn write_differences(bits: u32, got: &[u8], word: &[u8], differences: &mut [u8])
    requires bits { bits ≤ 8 }
    requires same { length got.now ≡ length word.now }
    requires room { length differences.old ≡ length word.now }
    ensures { differences.new ≡ list_sum (low_bits bits got.now) word.now }
{
    differences.copy_from_slice(word);
    add_low_bits(bits, got, differences);
}

/// From what a poll found of a block to what is said of it.
fn conclude<F: Field>(
    code: &Code<F>,
    found: Found,
    err: &[u8],
    got: &[u8],
    word: &mut [u8],
) -> Verdict
    requires answer { IsAnswer code.now.basis code.now.marks code.now.radius
        (low_bits code.now.basis.bits got.now) err.now found }
    requires received { length got.now ≡ code.now.basis.n }
    requires error { length err.now ≡ code.now.basis.n }
    requires positions { length word.old ≡ code.now.basis.n }
    ensures verdict { IsVerdict code.now got.now word.new result }
    ensures ledger { result ≢ Verdict.Beyond → ledger_of code.now.basis code.now.marks err.now
        ≡ ledger_after code.now got.now word.new result }
    ensures found { result ≢ Verdict.Beyond → found ≡ Found.Error }
    ensures made { IsMade code.now }
{
    // For its facts: a code is as it was made.
    code.n();
    match found {
        Found::Error => {
            word.copy_from_slice(err);
            settle(code.bits(), code.radius(), got, word)
        }
        Found::Far => {
            write_low_bits(code.bits(), got, word);
            Verdict::Beyond
        }
    }
}

/// As `Code::decode_block` says, with the poll of a bench and room for a list.
pub fn find_near<F: Field>(
    poll: &mut Poll,
    list: &mut [u8],
    code: &Code<F>,
    got: &[u8],
    word: &mut [u8],
) -> Verdict
    requires fits { (state_of poll.old.voter true).numbers ≡ numbers_of code.now }
    requires values { length poll.old.values ≡ values_of code.now.basis.n }
    requires room { length list.old ≡ code.now.basis.n }
    requires received { length got.now ≡ code.now.basis.n }
    requires positions { length word.old ≡ code.now.basis.n }
    ensures verdict { IsVerdict code.now got.now word.new result }
    ensures rest { poll.new.voter ≡ record poll.old.voter { ledger = poll.new.voter.ledger } }
    ensures values { length poll.new.values ≡ length poll.old.values }
    ensures room { length list.new ≡ length list.old }
    ensures ledger { result ≢ Verdict.Beyond
        → poll.new.voter.ledger ≡ ledger_after code.now got.now word.new result }
    ensures majority { All (λ line. line.wrong < line.right) poll.new.voter.ledger }
    ensures made { IsMade code.now }
{
    // For its facts: a code is as it was made.
    code.n();
    write_low_bits(code.bits(), got, list);
    let found = poll.run(code.basis(), code.classes(), list);
    conclude(code, found, poll.error(), got, word)
}

/// Takes the message that came in a block.
fn take_message<F: Field>(code: &Code<F>, got: &[u8], msg: &mut [u8], word: &mut [u8])
    requires received { length got.now ≡ code.now.basis.n }
    requires symbols { length msg.old ≡ length (message_places (checks_in code.now)) }
    requires positions { length word.old ≡ code.now.basis.n }
    ensures message { IsWord code.now.basis.bits
        (length (message_places (checks_in code.now))) msg.new }
    ensures positions { length word.new ≡ length word.old }
    ensures made { IsMade code.now }
{
    // For its facts: a code is as it was made, so its basis is sound.
    code.n();
    write_low_bits(code.bits(), got, word);
    take_places(code.parity().places(), word, msg);
}

/// Makes `word` the codeword that has the low bits of a block at the message places.
fn encode_again<F: Field>(code: &Code<F>, got: &[u8], msg: &mut [u8], word: &mut [u8])
    requires received { length got.now ≡ code.now.basis.n }
    requires symbols { length msg.old ≡ length (message_places (checks_in code.now)) }
    requires positions { length word.old ≡ code.now.basis.n }
    ensures codeword { IsCodeword (times code.now.basis) code.now.basis code.now.marks word.new }
    ensures symbols { length msg.new ≡ length msg.old }
    ensures made { IsMade code.now }
{
    take_message(code, got, msg, word);
    code.encode_block(msg, word);
}

/// Near, where a codeword differs from a block in no more bytes than the radius.
fn within<F: Field>(code: &Code<F>, got: &[u8], word: &[u8]) -> Option<Verdict>
    requires received { length got.now ≡ code.now.basis.n }
    requires codeword { IsCodeword (times code.now.basis) code.now.basis code.now.marks word.now }
    ensures { IfSome result (IsVerdict code.now got.now word.now) }
{
    // For its facts: a code is as it was made, so its words are short.
    code.n();
    let changes = count_changes(got, word);
    if changes <= code.radius() {
        Some(Verdict::Near { changes })
    } else {
        None
    }
}

/// Corrects the message of a block by a guess of its error, and encodes it: Near, where that is the codeword near the block.
fn try_guess<F: Field>(
    guess: &mut Guess,
    code: &Code<F>,
    got: &[u8],
    differences: &[u8],
    msg: &mut [u8],
    word: &mut [u8],
) -> Option<Verdict>
    requires fits { IsFor code.now.basis guess.old }
    requires received { length got.now ≡ code.now.basis.n }
    requires differences { IsWord code.now.basis.bits code.now.basis.n differences.now }
    requires symbols { length msg.old ≡ length (message_places (checks_in code.now)) }
    requires positions { length word.old ≡ code.now.basis.n }
    ensures verdict { IfSome result (IsVerdict code.now got.now word.new) }
    ensures guess { guess.new ≡ guess.old }
    ensures symbols { length msg.new ≡ length msg.old }
    ensures positions { length word.new ≡ length word.old }
{
    take_message(code, got, msg, word);
    if !guess.correct(code.basis(), code.parity(), differences, msg) {
        return None;
    }
    code.encode_block(msg, word);
    within(code, got, word)
}

/// As `Code::repair_block` says, where `word` is a codeword. The rows of the matrix that add nothing tell guesses, until one
/// leads to a codeword near the block, or the poll ends.
fn pursue<F: Field>(
    poll: &mut Poll,
    guess: &mut Guess,
    code: &Code<F>,
    got: &[u8],
    differences: &mut [u8],
    msg: &mut [u8],
    word: &mut [u8],
) -> Verdict
    requires fits { (state_of poll.old.voter true).numbers ≡ numbers_of code.now }
    requires values { length poll.old.values ≡ values_of code.now.basis.n }
    requires guess { IsFor code.now.basis guess.old }
    requires received { length got.now ≡ code.now.basis.n }
    requires differences { length differences.old ≡ code.now.basis.n }
    requires symbols { length msg.old ≡ length (message_places (checks_in code.now)) }
    requires codeword { IsCodeword (times code.now.basis) code.now.basis code.now.marks word.old }
    ensures verdict { IsVerdict code.now got.now word.new result }
    ensures rest { without_ledger poll.new.voter ≡ without_ledger poll.old.voter }
    ensures values { length poll.new.values ≡ length poll.old.values }
    ensures guess { guess.new ≡ guess.old }
    ensures differences { length differences.new ≡ length differences.old }
    ensures symbols { length msg.new ≡ length msg.old }
    ensures made { IsMade code.now }
{
    // For its facts: a code is as it was made.
    code.n();
    let basis = code.basis();
    let classes = code.classes();
    write_differences(code.bits(), got, word, differences);
    poll.start(basis, classes, differences);
    guess.begin();
    'steps: loop {
        match poll.step(basis, classes) {
            Step::Row(i) => {
                if guess.narrow(basis, poll.matrix(), i) {
                    if let Some(verdict) = try_guess(guess, code, got, differences, msg, word) {
                        return verdict;
                    }
                }
            }
            Step::Elected => guess.again(),
            Step::Ended(found) => return conclude(code, found, poll.error(), got, word),
        }
    }
}

/// As `Code::repair_block` says, with what a bench has. Where only check symbols are wrong, or none, encoding again gives the
/// codeword.
pub fn repair_near<F: Field>(
    poll: &mut Poll,
    guess: &mut Guess,
    code: &Code<F>,
    got: &[u8],
    differences: &mut [u8],
    msg: &mut [u8],
    word: &mut [u8],
) -> Verdict
    requires fits { (state_of poll.old.voter true).numbers ≡ numbers_of code.now }
    requires values { length poll.old.values ≡ values_of code.now.basis.n }
    requires guess { IsFor code.now.basis guess.old }
    requires received { length got.now ≡ code.now.basis.n }
    requires differences { length differences.old ≡ code.now.basis.n }
    requires room { length msg.old ≡ code.now.basis.n }
    requires positions { length word.old ≡ code.now.basis.n }
    ensures verdict { IsVerdict code.now got.now word.new result }
    ensures rest { without_ledger poll.new.voter ≡ without_ledger poll.old.voter }
    ensures values { length poll.new.values ≡ length poll.old.values }
    ensures guess { guess.new ≡ guess.old }
    ensures differences { length differences.new ≡ length differences.old }
    ensures room { length msg.new ≡ length msg.old }
    ensures made { IsMade code.now }
{
    let size = code.k() as usize;
    let msg = &mut msg[..size];
    encode_again(code, got, msg, word);
    if let Some(verdict) = within(code, got, word) {
        return verdict;
    }
    pursue(poll, guess, code, got, differences, msg, word)
}
