//! Words as numbers.

ghost use Rattle.std.specs.Prelude.{◌≡◌};
ghost use Rattle.script_reader.specs.Numbers.{number_of, digits_after, has_leading_zero};

fn has_leading_zero(word: &[u8]) -> bool
    ensures { result ≡ has_leading_zero word.now }
{
    word.len() > 1 && word[0] == b'0'
}

/// A number below 2 to the 32, in digits without a leading zero.
pub(crate) fn number_of(word: &[u8]) -> Option<u64>
    ensures { result ≡ number_of word.now }
{
    if word.is_empty() || has_leading_zero(word) {
        return None;
    }
    digits_of(word)
}

fn digits_of(word: &[u8]) -> Option<u64>
    ensures { result ≡ digits_after 0 word.now }
{
    let mut number: u64 = 0;
    for digit in word {
        if *digit < b'0' || b'9' < *digit {
            return None;
        }
        number = number * 10 + u64::from(*digit - b'0');
        if number > u64::from(u32::MAX) {
            return None;
        }
    }
    Some(number)
}
