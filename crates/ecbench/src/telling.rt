// What is told on standard error, for people: where a line or a word is at fault, and what was expected there.
use bench_words::{Word, WordFault, fault_of as fault_of_words};
use script_lines::Line;
use script_words::{Fault, Wanted, is_unprintable, next_word};
use std::fmt::{self, Formatter, Write};
use std::str;

/// How many bytes of a long word are shown.
const SHOWN: usize = 48;

/// The first fault of a line; None where it has none.
pub fn fault_of(line: &[u8]) -> Option<Fault> {
    match script_lines::parse(line) {
        Ok(Line::Tool) => ectool_lines::parse(line).err(),
        Ok(_) => None,
        Err(fault) => Some(fault),
    }
}

/// A line of a script with its first fault, as it is told.
#[derive(Drop)]
pub struct FaultyLine<'a> {
    /// The line's number, counted from 1.
    pub number: u32,
    pub line: &'a [u8],
    pub fault: Fault,
}

impl<'a> fmt::Display for FaultyLine<'a> {
    fn fmt<W: Write>(&self, f: &mut Formatter<W>) -> fmt::Result {
        let number = self.number;
        let wanted = self.fault.wanted;
        if let Some(place) = self.fault.word {
            let word = shown(nth_word(self.line, place));
            return write!(f, "line {number}, word {place}: `{word}` is not {wanted}");
        }
        match wanted {
            Wanted::Printable => {
                let (place, byte) = first_unprintable(self.line);
                write!(
                    f,
                    "line {number}, byte {place}: {byte:#04x} is not {wanted}"
                )
            }
            Wanted::Words { .. } | Wanted::ProtectWords | Wanted::HashWords => {
                let first = shown(nth_word(self.line, 1));
                let count = words_behind_first(self.line);
                write!(
                    f,
                    "line {number}: `{first}` has {count} words behind it, not {wanted}"
                )
            }
            other => {
                let why = other.why();
                write!(f, "line {number}: {why}")
            }
        }
    }
}

/// The name of the image that a line syncs; empty where it syncs none.
pub fn image_of(line: &[u8]) -> &str {
    match script_lines::parse(line) {
        Ok(Line::Sync { name }) => str::from_utf8(name.as_bytes()).unwrap_or(""),
        _ => "",
    }
}

/// What is wrong with the words of the command line, as it is told.
#[derive(Drop)]
pub struct FaultyWords<'a> {
    pub words: &'a [Word],
}

impl<'a> fmt::Display for FaultyWords<'a> {
    fn fmt<W: Write>(&self, f: &mut Formatter<W>) -> fmt::Result {
        let Some(fault) = fault_of_words(self.words) else {
            return write!(f, "the words are the command's");
        };
        let WordFault { word, expected } = fault;
        match self.words.get(word.saturating_sub(1)) {
            Some(there) => {
                let text = shown(there.as_bytes());
                write!(f, "word {word}: `{text}` is not {expected}")
            }
            None => write!(f, "word {word}: there is none, and {expected} is expected"),
        }
    }
}

// A word as text, where it is long its front.
fn shown(word: &[u8]) -> &str {
    let (front, _) = word.split_at(word.len().min(SHOWN));
    str::from_utf8(front).unwrap_or("?")
}

// A word of a line, counted from 1; empty where there are not so many.
fn nth_word(line: &[u8], place: u8) -> &[u8] {
    let mut rest = line;
    for _turn in 1..place {
        match next_word(rest) {
            Some((_, after)) => rest = after,
            None => return b"",
        }
    }
    match next_word(rest) {
        Some((word, _)) => word,
        None => b"",
    }
}

// How many words a line has behind its first one.
fn words_behind_first(line: &[u8]) -> usize {
    let parts = line.split(|byte| *byte == b' ');
    parts
        .filter(|part| !part.is_empty())
        .count()
        .saturating_sub(1)
}

// The place, counted from 1, and the value of the first byte that is not printable ASCII.
fn first_unprintable(line: &[u8]) -> (usize, u8) {
    for (i, byte) in line.iter().enumerate() {
        if is_unprintable(*byte) {
            return (i + 1, *byte);
        }
    }
    (line.len(), 0)
}
