//! What a controller keeps over a jump from one image to the other, as bytes: the image that jumps writes them, and the
//! one that starts reads them.
//!
//! Below are the small types of `ec_types`; above are to be the controller's jumps. `encode` gives the one spelling of
//! what is kept, and `decode` accepts exactly the spellings, so that what was encoded decodes to itself; `tag` finds the
//! first tag of a number in jump data with any tags.
#![tactic(auto)]

mod decoding;
mod encoding;
mod kept;
mod tags;

pub use kept::{JumpData, TagLayout};
pub use tags::tag;

#[cfg(test)]
mod tests;
