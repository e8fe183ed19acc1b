// What is wrong with words outside the grammar, for people.
ghost use Rattle.std.specs.Prelude.{◌↔◌, IsNone};
ghost use Rattle.bench_words.specs.Words.{InGrammar};

use crate::Word;
use crate::reading::{are_of_two, first_choice, flash_of};
use script_words::is_word;
use thiserror::Error;

/// What a word should have been. Each text fits behind "not ".
#[derive(Clone, Copy, Debug, PartialEq, Eq, Error)]
pub enum Expected {
    #[error("a flash file, whose path is UTF-8 and does not begin with a hyphen")]
    Flash,
    #[error("--bus or --pin")]
    Option,
    #[error("an option that was not given before")]
    Once,
    #[error("lpc, i2c or spi")]
    Bus,
    #[error("on or off")]
    Pin,
}

/// The first fault of words.
#[derive(Clone, Copy, Debug, PartialEq, Eq, Error)]
#[error("word {word} is not {expected}")]
pub struct WordFault {
    /// The word that is at fault, counted from 1; one past the last where a word is missing.
    pub word: usize,
    /// What was expected.
    pub expected: Expected,
}

/// The first fault of the words; None exactly where they are of the grammar.
pub fn fault_of(words: &[Word]) -> Option<WordFault>
    ensures { IsNone result ↔ InGrammar words.now }
{
    match flash_of(words) {
        Some(_) => None,
        None => Some(first_fault(words)),
    }
}

// The first fault of words outside the grammar.
fn first_fault(words: &[Word]) -> WordFault {
    let [flash, options @ ..] = words else {
        return fault_at(words, words, Expected::Flash);
    };
    if flash.flash_path().is_none() {
        return fault_at(words, words, Expected::Flash);
    }
    let Some((first, behind)) = first_choice(options) else {
        return option_fault(words, options);
    };
    let Some((second, last)) = first_choice(behind) else {
        return option_fault(words, behind);
    };
    if !are_of_two(first, second) {
        return fault_at(words, behind, Expected::Once);
    }
    match first_choice(last) {
        Some(_) => fault_at(words, last, Expected::Once),
        None => option_fault(words, last),
    }
}

// The fault of the word with which `rest`, the last of the words, begins.
fn fault_at(words: &[Word], rest: &[Word], expected: Expected) -> WordFault {
    WordFault {
        word: words.len().saturating_sub(rest.len()).saturating_add(1),
        expected,
    }
}

// The fault of the option with which `rest`, the last of the words, begins.
fn option_fault(words: &[Word], rest: &[Word]) -> WordFault {
    let [word, behind @ ..] = rest else {
        return fault_at(words, rest, Expected::Option);
    };
    let word = word.as_bytes();
    if is_word(word, b"--bus") {
        fault_at(words, behind, Expected::Bus)
    } else if is_word(word, b"--pin") {
        fault_at(words, behind, Expected::Pin)
    } else if word.starts_with(b"--bus=") {
        fault_at(words, rest, Expected::Bus)
    } else if word.starts_with(b"--pin=") {
        fault_at(words, rest, Expected::Pin)
    } else {
        fault_at(words, rest, Expected::Option)
    }
}
