//! The line of a script that is a drill: in each of its rounds an image is synced while power is cut, and then synced again.
//!
//! Below stand `drill_draws`, which draws the rounds, `sync_engine`, which syncs, and `bench_wire`, on which cuts are armed
//! and power comes; above stands `ecbench`, which has read the line. What matters, in `RunsDrill`: each round is what its
//! definition says, in order, and what is printed counts just these rounds.
#![tactic(auto)]

mod drill;
mod rounds;

pub use drill::{Drill, run};
