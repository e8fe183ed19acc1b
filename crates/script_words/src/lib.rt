//! What the lines of a script are made of: words, numbers and hexadecimal bytes, and what is wrong with them.
//!
//! `script_lines` and `ectool_lines` stand on it, each with the grammar of its lines. What matters: each reader gives a
//! value exactly where the word spells one, and the first fault of a line is told with its place.
#![tactic(auto)]

mod fault;
mod hexes;
mod line;
mod numbers;
mod words;

pub use fault::{Fault, Wanted};
pub use hexes::HexBytes;
pub use line::{check_line, is_unprintable};
pub use numbers::{count_to, number, number_to};
pub use words::{is_word, next_word, no_words, none_or, one_word, three_words, two_or, two_words};

#[cfg(test)]
mod tests;
