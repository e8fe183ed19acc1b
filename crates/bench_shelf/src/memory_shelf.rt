// A shelf in memory.
ghost use Rattle.std.specs.Prelude.{◌≡◌, ◌≤◌, ◌||◌, ◌++◌, ◌∷◌, [], Some, None, length, is_none, IfOk, IfErr, IfSome, OnOk, OnErr};
ghost use Rattle.flash_dev.specs.Calls.{no_calls, is_next_failing, after_call};
ghost use Rattle.flash_dev.specs.Told.{Changes};
ghost use Rattle.bench_shelf.specs.Shelves.{bytes_of, Finds, IsWithin, FailsByFault, is_failed};
ghost use Rattle.bench_shelf.specs.Memory.{files_of, IsKept};

use crate::{Blob, Loaded, Shelf, ShelfErr};
use flash_dev::FailingCalls;
use std::alloc::{AllocError, Global};
use std::marker::Model;

// A name with its bytes.
#[derive(Drop)]
struct Stored {
    name: Blob,
    bytes: Blob,
}

/// Names with bytes, of which a name that was added twice has the later ones.
#[derive(Drop)]
pub struct MemShelf {
    files: Vec<Stored>,
    calls: FailingCalls,
}

impl Model for MemShelf {
    ghost use Rattle.bench_shelf.specs.Memory.{ShelfState, files_of};

    ghost Value = { ShelfState };

    ghost view = { λ shelf. record {
      files = files_of shelf.files.items;
      calls = shelf.calls;
    } };
}

impl MemShelf {
    ghost use Rattle.std.specs.Prelude.{[]};
    ghost use Rattle.bench_shelf.specs.Memory.{ShelfState};

    /// An empty shelf. The calls whose numbers, from 1, are in `fail` fail.
    pub fn new(alloc: Global, fail: &[u32]) -> Result<MemShelf, AllocError>
        ensures { IfOk result (λ shelf. shelf ≡ record { files = []; calls = no_calls fail.now }) }
    {
        Ok(MemShelf {
            files: Vec::new(alloc),
            calls: FailingCalls::new(alloc, fail)?,
        })
    }

    /// Adds a name with its bytes. Where memory is refused, nothing changes.
    pub fn add(&mut self, alloc: Global, name: &[u8], bytes: &[u8]) -> Result<(), AllocError>
        ensures added { OnOk result (self.new ≡ record self.old {
          files = self.old.files ++ record { name = name.now; bytes = bytes.now } ∷ [];
        }) }
        ensures unchanged { OnErr result (self.new ≡ self.old) }
    {
        let stored = Stored {
            name: Blob::new(alloc, name)?,
            bytes: Blob::new(alloc, bytes)?,
        };
        self.files.push(stored)?;
        Ok(())
    }
}

// The bytes of a name: those of its last file.
fn find<'a>(files: &'a [Stored], name: &[u8]) -> Option<&'a [u8]>
    ensures some { IfSome result (λ bytes. bytes_of name.now (files_of files.now) ≡ Some bytes.now) }
    ensures none { result ≡ None → bytes_of name.now (files_of files.now) ≡ None }
{
    let (last, rest) = files.split_last()?;
    if last.name.as_slice() == name {
        Some(last.bytes.as_slice())
    } else {
        find(rest, name)
    }
}

// All the bytes, where they are few enough.
fn keep(alloc: Global, bytes: &[u8], limit: usize) -> Result<Loaded, ShelfErr>
    ensures { IsKept result bytes.now limit }
{
    if bytes.len() > limit {
        return Ok(Loaded::TooLong);
    }
    match Blob::new(alloc, bytes) {
        Ok(blob) => Ok(Loaded::Whole(blob)),
        Err(_) => Err(ShelfErr::NoMemory),
    }
}

impl Shelf for MemShelf {
    ghost files = { λ shelf. Some shelf.files };

    ghost faults = { λ shelf. shelf.calls.faults };

    fn load(&mut self, alloc: Global, name: &[u8], limit: usize) -> Result<Loaded, ShelfErr>
        ensures finds { Changes (Finds result name.now limit) (Some self.old.files) (Some self.new.files) }
        ensures within { IsWithin result limit }
        ensures later { self.old.calls.faults ≤ self.new.calls.faults }
        ensures cause { FailsByFault result self.old.calls.faults self.new.calls.faults }
        // It fails exactly at the calls of its list and where it has no such name.
        ensures exact { is_failed result ≡ (is_none (bytes_of name.now self.old.files) || is_next_failing self.old.calls) }
        ensures calls { self.new.calls ≡ after_call (is_failed result) self.old.calls }
    {
        let found = find(&self.files, name);
        if self.calls.fails(found.is_none()) {
            return Err(ShelfErr::Failed);
        }
        match found {
            Some(bytes) => keep(alloc, bytes, limit),
            None => Err(ShelfErr::Failed),
        }
    }
}
