//! Commands as the host sends them: a request goes out once, or is tried until its answer is sure, and what came back is
//! told in one answer.
//!
//! It stands on `host_framing`, which sends packets, on `ec_packet` and `ec_params`, which spell them, and on
//! `command_laws`, which says what a restart is; `ectool_lines` asks by it for each line of a script. The contracts that
//! matter are three. `once`: its answer is what the bytes that were heard say, and a success has a body of the length
//! that was wanted. `command`: whatever the wire does, its sends, its waits and its answer are those of at most three
//! tries, as the definitions tell them. `cold`: likewise, its entries are looks whether an erase is pending, and then one
//! COLD, where none is. What comes of a command and of a COLD that nothing disturbs is a law of `command_laws`.
#![tactic(auto)]

mod asking;
mod commands;
mod ending;
mod polling;
mod restarting;
mod sending;
mod trying;

pub use asking::once;
pub use commands::command;
pub use ending::{Once, Said};
pub use restarting::{ColdEnd, cold};
pub use sending::reply_body;
