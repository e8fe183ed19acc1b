// What happened, in order, with room for more.
ghost use Rattle.std.specs.Prelude.{◌≡◌, ◌≤◌, ◌<◌, ◌-◌, [], ◌∷◌, ◌++◌, length, max, OnOk, OnErr, slice_get, Some};

use crate::packed::{Packed, pack, unpack};
use ec_model::Entry;
use std::alloc::{AllocError, Global};
use std::marker::Model;

/// The entries so far, each in 8 bytes, and a number of entries for which there is room.
#[derive(Drop)]
pub struct Journal {
    entries: Vec<Packed>,
    spare: usize,
}

impl Model for Journal {
    ghost use Rattle.std.specs.Prelude.{◌≤◌, ◌+◌, map, vec_len};
    ghost use Rattle.std.specs.Vec.{vec_capacity};
    ghost use Rattle.ec_wire.specs.Journals.{JournalView};
    ghost use Rattle.ec_wire.specs.Packing.{unpacked};

    ghost Value = { JournalView };

    ghost view = { λ journal. record { entries = map unpacked journal.entries.items; spare = journal.spare } };

    ghost invariant = { λ journal. vec_len journal.entries + journal.spare ≤ vec_capacity journal.entries };
}

impl Journal {
    /// No entry, and no room. Takes no memory.
    pub fn new(alloc: Global) -> Journal
        ensures { result ≡ record { entries = []; spare = 0 } }
    {
        Journal {
            entries: Vec::new(alloc),
            spare: 0,
        }
    }

    /// Makes room for at least `n` entries. Where the memory is refused, nothing changes.
    pub fn reserve(&mut self, n: usize) -> Result<(), AllocError>
        ensures ok { OnOk result (self.new ≡ record self.old { spare = max self.old.spare n }) }
        ensures err { OnErr result (self.new ≡ self.old) }
    {
        if self.spare < n {
            self.entries.reserve(n)?;
            self.spare = n;
        }
        Ok(())
    }

    /// Adds an entry.
    #[inline(always)]
    pub fn push(&mut self, e: Entry)
        requires { 1 ≤ self.old.spare }
        ensures { self.new ≡ record { entries = self.old.entries ++ e ∷ []; spare = self.old.spare - 1 } }
    {
        match self.entries.push(pack(e)) {
            Ok(()) => self.spare -= 1,
            Err(_) => unreachable!(),
        }
    }

    /// For how many entries there is room.
    pub fn spare(&self) -> usize
        ensures { result ≡ self.now.spare }
    {
        self.spare
    }

    /// How many entries there are.
    pub fn len(&self) -> usize
        ensures { result ≡ length self.now.entries }
    {
        self.entries.len()
    }

    /// The entry at an index.
    pub fn get(&self, i: usize) -> Entry
        requires { i < length self.now.entries }
        ensures { slice_get self.now.entries i ≡ Some result }
    {
        unpack(self.entries[i])
    }
}
