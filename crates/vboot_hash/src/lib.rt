//! The hash of a range of the flash, taken as the ticks go: each tick reads the next 1,024 bytes into one running digest.
//!
//! Below are the flash with its locks of `flash_ctl` and the definitions of `ec_model`; above is `ec_boot`, which starts a
//! hash, drops it where an operation touches its range, and shows it. The contract that matters is that a
//! hash stands for its nonce and for the flash as it is now (`Stands`): a tick keeps that, and so does `touched` whatever
//! an operation leaves of the range that it touches, so that a digest that is shown is that of the bytes that are there.
#![tactic(auto)]

mod hash;

pub use hash::Hash;

#[cfg(test)]
mod tests;
