//! The bench: a controller, its wire to the host, the world's events that are armed, and the journal of all that happened
//! on it.
//!
//! It stands on `ec_core`, whose controller it steps; the host's crates are generic over `ec_wire`'s `Wire`, which it
//! meets, and `ecbench` makes it. The contract that matters: each call adds its own entries, behind those of the armed
//! events that are due, and the journal is a run of the controller from the state in which the bench was made to the one
//! that it has.
#![tactic(auto)]

mod arms;
mod bench;
mod wire;

pub use arms::ArmsFull;
pub use bench::Bench;
