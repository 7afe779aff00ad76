//! Lines and numbers of a text.

ghost use Rattle.std.specs.Prelude.{ℕ, ◌≡◌, ◌^◌, ◌<◌, nat_eq, length, position, IfSome, if◌then◌else◌};
ghost use Rattle.std.specs.Str.{all_ascii_digits};
ghost use Rattle.std.specs.Str.Parse.{digits_value as value_of};
ghost use Rattle.ag_texts.specs.Lines.{line_end_in};
ghost use Rattle.ag_texts.specs.Numbers.{number_in, NumbersReadBack, ReadsAreDigits};

/// The place of the first line feed at or after a place; None where there is none.
pub fn line_end(text: &[u8], from: usize) -> Option<usize>
    ensures { result ≡ line_end_in text.now from }
{
    if from >= text.len() {
        return None;
    }
    first_feed(&text[from..]).map(|place| from + place)
}

fn first_feed(text: &[u8]) -> Option<usize>
    ensures place { result ≡ position (λ b. nat_eq b 10) text.now }
    ensures within { IfSome result (λ p. p < length text.now) }
{
    text.iter().position(|b| *b == b'\n')
}

/// The number that these digits write; None where they are neither `0` nor one to nineteen decimal digits of which
/// the first is not `0`.
pub fn read_number(digits: &[u8]) -> Option<u64>
    ensures { result ≡ number_in digits.now }
{
    match digits {
        [b'0'] => Some(0),
        [] | [b'0', ..] => None,
        _ if digits.len() > 19 => None,
        _ => digits_value(digits),
    }
}

/// The number that at most nineteen digits write; None where one of the bytes is no digit.
fn digits_value(digits: &[u8]) -> Option<u64>
    requires { length digits.now < 20 }
    ensures { result
        ≡ (if all_ascii_digits digits.now then Some (value_of 10 digits.now) else None) }
{
    let mut value: u64 = 0;
    for d in digits {
        if !d.is_ascii_digit() {
            return None;
        }
        value = value * 10 + u64::from(*d - b'0');
    }
    Some(value)
}

/// The law of `read_number`: it reads the decimal digits of a number below 10^19 as that number, and reads a number
/// from no other text. So a line whose numbers it reads is, byte for byte, the line that those numbers write.
pub fn numbers_are_read_back()
    ensures read { NumbersReadBack }
    ensures written { ReadsAreDigits }
{}
