//! Reads a script from a source line by line, in a small fixed memory.
//!
//! It stands on `bench_io`, whose `Source` it asks; `ecbench` carries out each line that it finds. The contract that
//! matters is that of `LineReader::next`: which line of the script comes next, how many bytes it took, and that the
//! source is not asked while a line is there.
#![tactic(auto)]

mod input;
mod reader;

pub use reader::{LineReader, Next};

#[cfg(test)]
mod tests;
