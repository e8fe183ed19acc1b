//! Shelves, from which the bench takes the images that it syncs: named bytes, in memory or in the working folder.
//!
//! It stands on `flash_dev`, for the counts of faults and the lists of calls that are to fail. What matters: `load` gives
//! just the bytes of the name, answers `TooLong` exactly where they are more than are wanted, and fails only where the
//! count of faults rose. A folder tells nothing, so of its files only the count and the limit are proved.
#![tactic(auto)]

mod blob;
mod file_shelf;
mod memory_shelf;
mod shelf;

pub use blob::Blob;
pub use file_shelf::FileShelf;
pub use memory_shelf::MemShelf;
pub use shelf::{Loaded, Shelf, ShelfErr};

#[cfg(test)]
mod tests;
