//! Worked examples of the definitions: each function's contract is one, and each of its values was worked out by hand
//! from the tables of the protocol.
//!
//! It stands on `ec_model`, whose definitions it tries, and no crate stands on it; it stands apart so that the
//! definitions are checked fast. The contract that matters is each one: what a definition gives for these very bytes.
#![tactic(auto)]

pub mod bench;
pub mod checks;
pub mod erases;
pub mod flash;
pub mod hash;
pub mod i2c;
pub mod images;
pub mod interrupted;
pub mod journals;
pub mod jumps;
pub mod lpc;
pub mod packets;
pub mod protection;
pub mod questions;
pub mod records;
pub mod resting;
pub mod rounds;
pub mod sends;
pub mod spi;
pub mod syncable;
pub mod tries;
