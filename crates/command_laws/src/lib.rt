//! Laws of commands that nothing disturbs: what the controller does while the host polls, what a command comes to, and
//! how many calls it takes.
//!
//! It holds no code that runs. It stands on `host_framing` and `exchange_laws`, which say what one send leaves, and on
//! the definitions of `ec_model`, which say what a command is on the wire. `host_transport` and the lines of a script
//! take from it what comes of a command. The contract that matters is `commands_are_carried`: from every valid state of
//! a controller that is on, whatever bus, hash or pending erase it has, such a command is answered as handling its
//! request is, with the erase that it waited for, or that it began, carried out. Each law is an empty function, whose
//! contract says it.
#![tactic(auto)]

mod commands;
mod restarts;

pub use commands::{commands_are_carried, polls_end, upset_commands_are_upset};
pub use restarts::{colds_restart, upset_colds_are_upset};
