// The stored protection of version 2: its records, and how one is added.
ghost use Rattle.std.specs.Prelude.{◌≡◌, true, false, [], ◌∷◌, ◌++◌, replicate};
ghost use Rattle.flash_dev.specs.Flash.{overwritten};
ghost use Rattle.ec_model.specs.Operations.{Program, Erase, StopsAt};
ghost use Rattle.ec_model.specs.ProtectRow.{protect_operations, protected};
ghost use Rattle.ec_model.specs.Stored.{stored, stored_block, next_slot};
ghost use Rattle.ec_examples.specs.Flashes.{e64, g64, a64, record_bytes, with_records};
ghost use Rattle.ec_examples.specs.Cores.{unpinned};

/// Bits of version 1 are read until one changes. The change erases the block and makes it anew as version 2, with the other bit as
/// it was.
#[tactic(auto, unfolding(ec_model::specs::Stored::slot_count))]
pub fn change_of_version_1()
    ensures before { stored g64 ≡ record { ro = true; all = false } }
    ensures unchanged { protect_operations (unpinned g64) 1 1 ≡ [] }
    ensures operations { protect_operations (unpinned g64) 1 0 ≡
        Erase 7 ∷ Program 0x7000 (0x50 ∷ 0x53 ∷ 0x54 ∷ 0x32 ∷ 0 ∷ 0 ∷ 0 ∷ 0 ∷ [])
        ∷ Program 0x7008 (0 ∷ 0 ∷ 0 ∷ 0 ∷ []) ∷ Program 0x700C (0 ∷ 0 ∷ 0 ∷ 0 ∷ []) ∷ [] }
    ensures other_bit { protect_operations (unpinned a64) 1 0 ≡
        Erase 7 ∷ Program 0x7000 (0x50 ∷ 0x53 ∷ 0x54 ∷ 0x32 ∷ 0 ∷ 0 ∷ 0 ∷ 0 ∷ [])
        ∷ Program 0x7008 (0x40 ∷ 0 ∷ 0 ∷ 0 ∷ []) ∷ Program 0x700C (0 ∷ 0 ∷ 0 ∷ 0 ∷ []) ∷ [] }
    ensures leaves { (protected 1 0 (unpinned g64)).flash ≡
        overwritten 0x7000 (0x50 ∷ 0x53 ∷ 0x54 ∷ 0x32 ∷ replicate 12 0) e64 }
    ensures after { stored (overwritten 0x7000 (0x50 ∷ 0x53 ∷ 0x54 ∷ 0x32 ∷ replicate 12 0) e64) ≡ record { ro = false; all = false } }
{}

/// A record is added in the first place behind all that were written: the first behind the mark, the second, and the last.
#[tactic(auto, unfolding(ec_model::specs::Stored::slot_count))]
pub fn places_of_records()
    ensures first { protect_operations (unpinned (with_records [] e64)) 1 1 ≡
        Program 0x7008 (1 ∷ 0 ∷ 0 ∷ 0 ∷ []) ∷ Program 0x700C (0 ∷ 0 ∷ 0 ∷ 0 ∷ []) ∷ [] }
    ensures second { protect_operations (unpinned (with_records (record_bytes 1) e64)) 1 0 ≡
        Program 0x7010 (0 ∷ 0 ∷ 0 ∷ 0 ∷ []) ∷ Program 0x7014 (0 ∷ 0 ∷ 0 ∷ 0 ∷ []) ∷ [] }
    ensures last { protect_operations (unpinned (with_records (replicate 1008 0) e64)) 0x41 0x41 ≡
        Program 0x73F8 (0x41 ∷ 0 ∷ 0 ∷ 0 ∷ []) ∷ Program 0x73FC (0 ∷ 0 ∷ 0 ∷ 0 ∷ []) ∷ [] }
{}

/// Where the last place is not blank the block is erased, and begins anew: behind 127 records, and behind one byte in that place.
#[tactic(auto, unfolding(ec_model::specs::Stored::slot_count))]
pub fn block_without_a_place()
    ensures full { protect_operations (unpinned (with_records (replicate 1016 0) e64)) 1 1 ≡
        Erase 7 ∷ Program 0x7000 (0x50 ∷ 0x53 ∷ 0x54 ∷ 0x32 ∷ 0 ∷ 0 ∷ 0 ∷ 0 ∷ [])
        ∷ Program 0x7008 (1 ∷ 0 ∷ 0 ∷ 0 ∷ []) ∷ Program 0x700C (0 ∷ 0 ∷ 0 ∷ 0 ∷ []) ∷ [] }
    ensures one_byte { protect_operations (unpinned (with_records (replicate 1015 0xFF ++ 0x7F ∷ []) e64)) 1 1 ≡
        Erase 7 ∷ Program 0x7000 (0x50 ∷ 0x53 ∷ 0x54 ∷ 0x32 ∷ 0 ∷ 0 ∷ 0 ∷ 0 ∷ [])
        ∷ Program 0x7008 (1 ∷ 0 ∷ 0 ∷ 0 ∷ []) ∷ Program 0x700C (0 ∷ 0 ∷ 0 ∷ 0 ∷ []) ∷ [] }
{}

/// Power that is lost inside a record's word, or behind it, leaves the bits as they were. Inside its gate it leaves them so, or as
/// they are wanted: here bit 6 is set beside bit 0.
#[tactic(auto, unfolding(ec_model::specs::Stored::slot_count))]
pub fn cut_inside_a_record()
    ensures operations { protect_operations (unpinned (with_records (record_bytes 1) e64)) 0x40 0x40 ≡
        Program 0x7010 (0x41 ∷ 0 ∷ 0 ∷ 0 ∷ []) ∷ Program 0x7014 (0 ∷ 0 ∷ 0 ∷ 0 ∷ []) ∷ [] }
    ensures word { StopsAt 0 (protect_operations (unpinned (with_records (record_bytes 1) e64)) 0x40 0x40)
        (with_records (record_bytes 1) e64) (with_records (record_bytes 1 ++ 0x40 ∷ 0 ∷ 0 ∷ 0 ∷ []) e64) }
    ensures word_is { stored (with_records (record_bytes 1 ++ 0x40 ∷ 0 ∷ 0 ∷ 0 ∷ []) e64) ≡ record { ro = true; all = false } }
    ensures between { StopsAt 1 (protect_operations (unpinned (with_records (record_bytes 1) e64)) 0x40 0x40)
        (with_records (record_bytes 1) e64) (with_records (record_bytes 1 ++ 0x41 ∷ 0 ∷ 0 ∷ 0 ∷ []) e64) }
    ensures between_is { stored (with_records (record_bytes 1 ++ 0x41 ∷ 0 ∷ 0 ∷ 0 ∷ []) e64) ≡ record { ro = true; all = false } }
    ensures gate { StopsAt 1 (protect_operations (unpinned (with_records (record_bytes 1) e64)) 0x40 0x40)
        (with_records (record_bytes 1) e64) (with_records (record_bytes 1 ++ 0x41 ∷ 0 ∷ 0 ∷ 0 ∷ 0 ∷ 0 ∷ 0 ∷ 0 ∷ []) e64) }
    ensures gate_is { stored (with_records (record_bytes 1 ++ 0x41 ∷ 0 ∷ 0 ∷ 0 ∷ 0 ∷ 0 ∷ 0 ∷ 0 ∷ []) e64) ≡ record { ro = true; all = true } }
    ensures half { stored (with_records (record_bytes 1 ++ 0x41 ∷ 0 ∷ 0 ∷ 0 ∷ 0 ∷ 0 ∷ 0 ∷ 0x80 ∷ []) e64) ≡ record { ro = true; all = false } }
{}

/// The bits are those of the last record whose gate is 0: none are set where there is none. Of its word only bits 0 and 6 are read.
#[tactic(auto, unfolding(ec_model::specs::Stored::slot_count))]
pub fn records_that_count()
    ensures none { stored (with_records [] e64) ≡ record { ro = false; all = false } }
    ensures last { stored (with_records (record_bytes 0x41 ++ record_bytes 0x40) e64) ≡ record { ro = false; all = true } }
    ensures gate { stored (with_records (record_bytes 1 ++ 0x40 ∷ 0 ∷ 0 ∷ 0 ∷ 1 ∷ 0 ∷ 0 ∷ 0 ∷ []) e64) ≡ record { ro = true; all = false } }
    ensures mark { stored (overwritten 0x7003 (0x33 ∷ []) (with_records (record_bytes 0x41) e64)) ≡ record { ro = false; all = false } }
    ensures other_bits { stored (with_records (record_bytes 0x3E) e64) ≡ record { ro = false; all = false } }
    ensures all_bits { stored (with_records (replicate 4 0xFF ++ replicate 4 0) e64) ≡ record { ro = true; all = true } }
{}

/// A place that is blank before one that was written is never filled: the next record stands behind the last.
#[tactic(auto, unfolding(ec_model::specs::Stored::slot_count))]
pub fn blank_place_between_records()
    ensures bits { stored (with_records (record_bytes 1 ++ replicate 8 0xFF ++ record_bytes 0x40) e64) ≡
        record { ro = false; all = true } }
    ensures next { next_slot (stored_block (with_records (record_bytes 1 ++ replicate 8 0xFF ++ record_bytes 0x40) e64)) ≡ 3 }
    ensures operations { protect_operations (unpinned (with_records (record_bytes 1 ++ replicate 8 0xFF ++ record_bytes 0x40) e64)) 1 1 ≡
        Program 0x7020 (0x41 ∷ 0 ∷ 0 ∷ 0 ∷ []) ∷ Program 0x7024 (0 ∷ 0 ∷ 0 ∷ 0 ∷ []) ∷ [] }
{}
