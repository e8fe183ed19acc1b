//! The lines of a script that are no tool lines: what each of them says, and what is wrong with it.
//!
//! It stands on `script_words`; `ecbench` reads each line by it, and `bus_lines` carries out those that call the bus
//! (`BusLine`). The contract that matters is that of `parse`: it gives what the grammar says, or the first fault.
#![tactic(auto)]

mod grammar;
mod line;
mod name;

pub use grammar::parse;
pub use line::{BusLine, Line};
pub use name::Name;

#[cfg(test)]
mod tests;
