//! The rules of the software sync: what each step asks, what it takes of the reply, and what follows.
//!
//! Below are the tries of `ec_model`, the restart of `command_laws` and the bodies of `ec_params`; above, `sync_engine`
//! carries the rules out. The definitions tell a whole sync as a relation between what the host sees at its start, the
//! entries that it adds, and its end, whatever the wire does: a chain of parts, each of which gives a value or stops the
//! round. Each function here is one of these definitions, exactly: what the reply to a command says.
#![tactic(auto)]

mod ending;
mod reading;

pub use ending::{Aim, Jump, Plan, Stop, SyncEnd};
pub use reading::{
    aim_at, confirm, if_success, is_locked, jump_end, last_jump_end, required, shown_flags,
    shown_hash, shown_limits, shown_region, shown_size, shows_rw, unlocked,
};
