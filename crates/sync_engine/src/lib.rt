//! The software sync: the host brings RW of the controller to a given image, to run, and to be locked.
//!
//! It stands on `sync_rules`, which tells what each step asks and what follows, and on `host_transport`, which carries
//! commands. The contract that matters is that of `sync_in`: whatever the wire does, what was added is a sync by these
//! rules, with this end. All that is known of a sync is said over that relation, and needs no look at the code.
#![tactic(auto)]

mod asking;
mod buffers;
mod hashing;
mod planning;
mod resting;
mod rounds;
mod starting;
mod writing;

pub use rounds::{sync, sync_in};
pub use sync_rules::SyncEnd;
