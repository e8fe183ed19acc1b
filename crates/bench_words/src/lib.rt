//! The words of the command line: FLASH, and behind it `--bus` and `--pin`, each at most once, with its value in the
//! next word or joined to it by an equals sign. Below it stand `clap`, and `is_word` of `script_words`; the command
//! itself stands above it.
//!
//! The contract that matters is that of `read`: it gives what the words spell by the grammar (`specs/Words.antt`), and
//! `BadWords` exactly where they spell nothing. The reader in `reading.rt` decides which words are of the grammar, and
//! clap reads the options of those that are. It is proved that the two agree: clap refuses none of these words but for
//! want of memory, and what it reads is what they spell.
#![tactic(auto)]

mod choice;
mod command_line;
mod fault;
mod parsing;
mod reading;
mod word;

pub use choice::Choice;
pub use command_line::{Words, WordsErr, are_spelled, read, spell_once};
pub use fault::{Expected, WordFault, fault_of};
pub use word::Word;

#[cfg(test)]
mod tests;
