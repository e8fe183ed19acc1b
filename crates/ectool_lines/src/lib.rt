//! The lines of a script that send commands to the controller: what each of them says, what is wrong with it, and how
//! it is carried out and printed.
//!
//! Below stand `script_words`, for what a line is made of, and `host_transport`, which sends one command; above stands
//! `ecbench`. What matters: `parse` reads a line as the grammar `tool_of` has it, and `run` sends just the line's
//! commands, up to the first that is no success, and prints the text that belongs to how they ended. The law
//! `short_lines_are_upset` says that the room that is made for a line is enough where nothing disturbs it.
#![tactic(auto)]

mod commands;
mod grammar;
mod laws;
mod replies;
mod sending;
mod text;
mod tool;

pub use grammar::{parse, parse_checked};
pub use laws::{lines_without_power_are_off, short_lines_are_upset};
pub use sending::{Buffers, run};
pub use tool::Tool;

#[cfg(test)]
mod tests;
