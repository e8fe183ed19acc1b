//! Laws of the software sync: what is known of one by its entries and its end alone.
//!
//! It stands on the rules of `sync_rules` and on the laws of commands and restarts of `command_laws`. Each law is a
//! contract over all relations of a sync, so that neither the code of `sync_engine` nor the bus is looked at again.
#![tactic(auto)]

mod keeping;
mod power;
mod renewing;
mod synced;

pub use keeping::kept_syncs_are_done;
pub use power::{dark_syncs_leave_it_off, syncs_take_no_memory};
pub use renewing::undisturbed_syncs_are_done;
pub use synced::syncable_syncs_are_done;
