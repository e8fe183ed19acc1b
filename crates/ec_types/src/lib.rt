//! The small types that every crate of the bench shares, the numbers that both sides of a bus name (statuses, the bits
//! of protection, the ports of LPC), and the law of little-endian numbers.
//!
//! It stands on no other crate of the bench, and almost every crate stands on it: a change here proves all anew. Each
//! number is the released header's, whose name its comment ends with; `docs/check-header` compares the two. The
//! contract that matters is `little_endian_round_trips`: bytes spell one number, and a number is read back from its
//! bytes, whatever follows them.
#![tactic(auto)]

mod bus;
mod image;
mod little_endian;
pub mod lpc;
pub mod protection;
pub mod reset;
pub mod status;
mod why;

pub use bus::{BusKind, COMMAND_PROTOCOL_3, LARGEST_PACKET, limit_of};
pub use image::{Fit, ImageCopy, KeptHash};
pub use little_endian::little_endian_round_trips;
pub use reset::{ResetCause, flags_of};
pub use status::Status;
pub use why::{LONGEST_LINE, Why};

#[cfg(test)]
mod tests;
