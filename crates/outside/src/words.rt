// What a word of a call says.
ghost use Rattle.std.specs.Prelude.{◌≡◌, ◌+◌, ◌*◌, ◌^◌, ◌<◌, SomeIff};
ghost use Rattle.outside.specs.Words.{word_of, number_of};

use crate::Word;

// What a word is, by its first bytes.
#[tactic(auto, unfolding(crate::specs::Words::word_of))]
pub fn word_of(word: &[u8]) -> Word
    ensures { result ≡ word_of word.now }
{
    match word {
        [] => Word::Empty,
        [b'-'] => Word::Input,
        [b'-', ..] => Word::Flag,
        _ => Word::Name,
    }
}

// A number with one more digit behind it, up to 4,294,967,295.
fn with_digit(value: u32, digit: u32) -> Option<u32>
    ensures { SomeIff result (value * 10 + digit < 2 ^ 32) (value * 10 + digit) }
{
    value.checked_mul(10)?.checked_add(digit)
}

// The number that a word of decimal digits says, up to 4,294,967,295.
pub fn number_of(word: &[u8]) -> Option<u32>
    ensures { result ≡ number_of word.now }
{
    if word.is_empty() {
        return None;
    }
    let mut value: u32 = 0;
    for &byte in word {
        let digit = (byte as char).to_digit(10)?;
        value = with_digit(value, digit)?;
    }
    Some(value)
}
