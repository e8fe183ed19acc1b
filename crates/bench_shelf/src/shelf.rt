// Where images come from.
ghost use Rattle.std.specs.Prelude.{◌≡◌, ◌≤◌, ℕ, List, Option, length};
ghost use Rattle.flash_dev.specs.Told.{Changes};
ghost use Rattle.bench_shelf.specs.Shelves.{File, Finds, IsWithin, FailsByFault};
ghost use Rattle.bench_shelf.specs.declared.shelf.ShelfErr.TheVariants as shelf_err;

use crate::Blob;
use std::alloc::{AllocError, Global};
use std::io::{self, ErrorKind};

/// What a shelf gave.
#[derive(Drop)]
pub enum Loaded {
    /// All the bytes of the name.
    Whole(Blob),
    /// They are more than were wanted.
    TooLong,
}

/// Why a shelf gave nothing.
#[derive(Clone, Copy, Debug, PartialEq, Eq)]
pub enum ShelfErr {
    /// It has no such name, or its bytes cannot be read.
    Failed,
    /// Memory was refused.
    NoMemory,
}

impl From<io::Error> for ShelfErr {
    fn from(error: io::Error) -> ShelfErr {
        match error.kind() {
            ErrorKind::OutOfMemory => ShelfErr::NoMemory,
            _ => ShelfErr::Failed,
        }
    }
}

impl From<AllocError> for ShelfErr {
    ghost from_gives = { λ refused cause. cause ≡ shelf_err.NoMemory };

    fn from(_refused: AllocError) -> ShelfErr {
        ShelfErr::NoMemory
    }
}

pub trait Shelf {
    /// The names and their bytes, where the shelf tells them. No call changes them, nor whether they are told.
    ghost files: { Self → Option (List File) };

    /// How often a call has failed. The count never falls, and stands still at its type's last value.
    ghost faults: { Self → ℕ };

    /// The bytes of a name, of which there may be so many; `alloc` has room for them.
    fn load(&mut self, alloc: Global, name: &[u8], limit: usize) -> Result<Loaded, ShelfErr>
        ensures finds { Changes (Finds result name.now limit) (files self.old) (files self.new) }
        ensures within { IsWithin result limit }
        ensures later { faults self.old ≤ faults self.new }
        ensures cause { FailsByFault result (faults self.old) (faults self.new) };
}
