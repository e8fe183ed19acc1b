// Numbers: decimal digits, or `0x` and hexadecimal digits of either case.
ghost use Rattle.std.specs.Prelude.{◌≡◌, ◌≤◌, IfOk};
ghost use Rattle.script_words.specs.Numbers.{number_of, number_in};
ghost use Rattle.script_words.specs.Faults.{by_kind};
ghost use Rattle.script_words.specs.Forms.{number_to, count_to};

use crate::{Fault, Wanted};

/// The number that a word is; None exactly where it is none, or above 4,294,967,295.
pub fn number(word: &[u8]) -> Option<u32>
    ensures { result ≡ number_of word.now }
{
    match word.strip_prefix(b"0x") {
        Some(digits) => number_from(digits, 16),
        None => number_from(word, 10),
    }
}

/// A number of at most `most` that stands at this place of the line; a fault exactly where the word is none, or a larger one.
pub fn number_to(place: u8, word: &[u8], most: u32) -> Result<u32, Fault>
    ensures number { by_kind result ≡ number_to most word.now }
    ensures within { IfOk result (λ number. number ≤ most) }
{
    match number(word) {
        Some(number) if number <= most => Ok(number),
        _ => Err(Fault::of_word(place, Wanted::Number { least: 0, most })),
    }
}

/// The same of at least 1.
pub fn count_to(place: u8, word: &[u8], most: u32) -> Result<u32, Fault>
    ensures number { by_kind result ≡ count_to most word.now }
    ensures least { IfOk result (λ number. 1 ≤ number) }
    ensures most { IfOk result (λ number. number ≤ most) }
{
    match number(word) {
        Some(number) if number >= 1 && number <= most => Ok(number),
        _ => Err(Fault::of_word(place, Wanted::Number { least: 1, most })),
    }
}

// The number that digits of the base write.
fn number_from(digits: &[u8], base: u32) -> Option<u32>
    requires least { 2 ≤ base }
    requires most { base ≤ 36 }
    ensures { result ≡ number_in base digits.now }
{
    if digits.is_empty() {
        return None;
    }
    let mut number = 0u32;
    for byte in digits {
        let digit = char::from(*byte).to_digit(base)?;
        number = number.checked_mul(base)?.checked_add(digit)?;
    }
    Some(number)
}
