//! Numerals.

ghost use Rattle.std.specs.Prelude.{◌≡◌, ℕ, ◌≤◌, IfSome};
ghost use Rattle.command_words.specs.Options.{number_in};

/// The number that one to twenty ASCII digits write, where it is from `least` to `greatest`.
pub fn read_numeral(least: u64, greatest: u64, text: &[u8]) -> Option<u64>
    ensures value { result ≡ number_in least greatest text.now }
    ensures least { IfSome result (λ v. least ≤ v) }
    ensures most { IfSome result (λ v. v ≤ greatest) }
{
    if text.is_empty() || text.len() > 20 {
        return None;
    }
    let mut value: u64 = 0;
    for digit in text {
        if *digit < b'0' || *digit > b'9' {
            return None;
        }
        let shifted = value.checked_mul(10)?;
        value = shifted.checked_add(u64::from(*digit - b'0'))?;
    }
    if least <= value && value <= greatest {
        Some(value)
    } else {
        None
    }
}
