// The words by hand: which choices they spell.
ghost use Rattle.std.specs.Prelude.{◌≡◌, MatchOption, option_map};
ghost use Rattle.bench_words.specs.Words.{InGrammar};
ghost use Rattle.bench_words.specs.Reader.{SpellsFlash, apart_choice, are_of_two, are_options, bus_choice};
ghost use Rattle.bench_words.specs.Reader.{first_choice, joined_choice, pin_choice};

use crate::{Choice, Word};
use ec_types::BusKind;
use script_words::is_word;

/// The path of the flash file; None exactly where the words are not of the grammar.
pub fn flash_of(words: &[Word]) -> Option<&str>
    ensures { MatchOption result (¬ (InGrammar words.now)) (λ flash. SpellsFlash words.now flash.now) }
{
    match words {
        [] => None,
        [flash, options @ ..] => {
            if are_options(options) {
                flash.flash_path()
            } else {
                None
            }
        }
    }
}

// Whether words are choices, of which at most one is of the bus, and at most one of the pin.
fn are_options(words: &[Word]) -> bool
    ensures { result ≡ are_options words.now }
{
    match first_choice(words) {
        None => words.is_empty(),
        Some((first, rest)) => match first_choice(rest) {
            None => rest.is_empty(),
            Some((second, behind)) => behind.is_empty() && are_of_two(first, second),
        },
    }
}

/// Whether two choices are of two options.
pub fn are_of_two(first: Choice, second: Choice) -> bool
    ensures { result ≡ are_of_two first second }
{
    match first {
        Choice::Bus(..) => matches!(second, Choice::Pin(..)),
        Choice::Pin(..) => matches!(second, Choice::Bus(..)),
    }
}

/// The choice that words begin with, and the words behind it.
pub fn first_choice(words: &[Word]) -> Option<(Choice, &[Word])>
    ensures { option_map (λ begun. (begun.0, begun.1.now)) result ≡ first_choice words.now }
{
    let [word, rest @ ..] = words else {
        return None;
    };
    if let Some(choice) = joined_choice(word.as_bytes()) {
        return Some((choice, rest));
    }
    let [value, rest @ ..] = rest else {
        return None;
    };
    match apart_choice(word.as_bytes(), value.as_bytes()) {
        Some(choice) => Some((choice, rest)),
        None => None,
    }
}

// The choice that one word spells.
fn joined_choice(word: &[u8]) -> Option<Choice>
    ensures { result ≡ joined_choice word.now }
{
    if is_word(word, b"--bus=lpc") {
        Some(Choice::Bus(BusKind::Lpc, true))
    } else if is_word(word, b"--bus=i2c") {
        Some(Choice::Bus(BusKind::I2c, true))
    } else if is_word(word, b"--bus=spi") {
        Some(Choice::Bus(BusKind::Spi, true))
    } else if is_word(word, b"--pin=on") {
        Some(Choice::Pin(true, true))
    } else if is_word(word, b"--pin=off") {
        Some(Choice::Pin(false, true))
    } else {
        None
    }
}

// The choice that two words spell.
fn apart_choice(name: &[u8], value: &[u8]) -> Option<Choice>
    ensures { result ≡ apart_choice name.now value.now }
{
    if is_word(name, b"--bus") {
        bus_choice(value)
    } else if is_word(name, b"--pin") {
        pin_choice(value)
    } else {
        None
    }
}

// The choice of a bus by its name.
fn bus_choice(value: &[u8]) -> Option<Choice>
    ensures { result ≡ bus_choice value.now }
{
    if is_word(value, b"lpc") {
        Some(Choice::Bus(BusKind::Lpc, false))
    } else if is_word(value, b"i2c") {
        Some(Choice::Bus(BusKind::I2c, false))
    } else if is_word(value, b"spi") {
        Some(Choice::Bus(BusKind::Spi, false))
    } else {
        None
    }
}

// The choice of a state of the pin by its name.
fn pin_choice(value: &[u8]) -> Option<Choice>
    ensures { result ≡ pin_choice value.now }
{
    if is_word(value, b"on") {
        Some(Choice::Pin(true, false))
    } else if is_word(value, b"off") {
        Some(Choice::Pin(false, false))
    } else {
        None
    }
}
