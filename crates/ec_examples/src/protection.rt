// FLASH_PROTECT: what is stored, what is locked, and what is shown.
ghost use Rattle.std.specs.Prelude.{◌≡◌, true, false, [], ◌∷◌, take, drop, replicate};
ghost use Rattle.flash_dev.specs.Flash.{overwritten};
ghost use Rattle.ec_types.specs.declared.reset.ResetCause.TheVariants.{PowerOn};
ghost use Rattle.ec_model.specs.Commands.{FlashWrite, FlashProtect};
ghost use Rattle.ec_model.specs.Bodies.{flash_protect_ask, flash_protect_say, flash_write_ask};
ghost use Rattle.ec_model.specs.Boot.{booted};
ghost use Rattle.ec_model.specs.Operations.{Program, Erase};
ghost use Rattle.ec_model.specs.ProtectRow.{protect_operations};
ghost use Rattle.ec_examples.specs.Flashes.{e64, g64, a64, record_bytes, with_records};
ghost use Rattle.ec_examples.specs.Cores.{on, reset};
ghost use Rattle.ec_examples.specs.Replies.{replies, core_after};

/// On an erased flash the lock of RO is stored at once, and holds from the next reset on.
#[tactic(auto, unfolding(ec_model::specs::Stored::slot_count))]
pub fn lock_at_boot_is_set()
    ensures before { replies ((FlashProtect, 1, flash_protect_ask 0 0) ∷ (FlashProtect, 1, flash_protect_ask 1 1) ∷ []) (on e64) ≡
        (0, flash_protect_say 0x08 0x6F 0x41) ∷ (0, flash_protect_say 0x09 0x6F 0x47) ∷ [] }
    ensures stored { (core_after ((FlashProtect, 1, flash_protect_ask 1 1) ∷ []) (on e64)).flash ≡ with_records (record_bytes 1) e64 }
    ensures bytes { take 16 (drop 0x7000 (core_after ((FlashProtect, 1, flash_protect_ask 1 1) ∷ []) (on e64)).flash) ≡
        0x50 ∷ 0x53 ∷ 0x54 ∷ 0x32 ∷ 0 ∷ 0 ∷ 0 ∷ 0 ∷ 1 ∷ 0 ∷ 0 ∷ 0 ∷ 0 ∷ 0 ∷ 0 ∷ 0 ∷ [] }
    ensures behind { replies ((FlashProtect, 1, flash_protect_ask 0 0) ∷ []) (reset (with_records (record_bytes 1) e64)) ≡
        (0, flash_protect_say 0x0B 0x6F 0x04) ∷ [] }
    ensures version_1 { replies ((FlashProtect, 1, flash_protect_ask 0 0) ∷ []) (reset g64) ≡ (0, flash_protect_say 0x0B 0x6F 0x04) ∷ [] }
{}

/// On an erased flash bits 0 and 6 are stored by an erase of their block, a program of its mark, and two of its first record, where
/// they change and RO is not locked.
pub fn bits_are_stored_by_four_operations()
    ensures changed { protect_operations (on e64) 0x41 0x41 ≡
        Erase 7 ∷ Program 0x7000 (0x50 ∷ 0x53 ∷ 0x54 ∷ 0x32 ∷ 0 ∷ 0 ∷ 0 ∷ 0 ∷ [])
        ∷ Program 0x7008 (0x41 ∷ 0 ∷ 0 ∷ 0 ∷ []) ∷ Program 0x700C (0 ∷ 0 ∷ 0 ∷ 0 ∷ []) ∷ [] }
    ensures unchanged { protect_operations (on e64) 1 0 ≡ [] }
    ensures locked { protect_operations (on g64) 1 0 ≡ [] }
{}

/// While RO is locked its lock at boot is not taken back, and the locks of the running controller are only set.
pub fn locks_are_only_set()
    ensures kept { replies ((FlashProtect, 1, flash_protect_ask 1 0) ∷ (FlashProtect, 1, flash_protect_ask 6 0) ∷ []) (on g64) ≡
        (0, flash_protect_say 0x0B 0x6F 0x04) ∷ (0, flash_protect_say 0x0B 0x6F 0x04) ∷ [] }
    ensures all { replies ((FlashWrite, 1, flash_write_ask 0x7000 (replicate 4 0)) ∷ (FlashWrite, 1, flash_write_ask 0x8000 (replicate 4 0)) ∷
        (FlashProtect, 1, flash_protect_ask 4 4) ∷ (FlashWrite, 1, flash_write_ask 0x8000 (replicate 4 0)) ∷
        (FlashWrite, 1, flash_write_ask 0x8002 (replicate 4 0)) ∷ []) (on g64) ≡
        (4, []) ∷ (0, []) ∷ (0, flash_protect_say 0x0F 0x6F 0) ∷ (4, []) ∷ (3, []) ∷ [] }
{}

/// With the lock at boot stored in the same command, RO_NOW and ALL_NOW are granted; without it they are not, and the status
/// is 0 all the same.
#[tactic(auto, unfolding(ec_model::specs::Stored::slot_count))]
pub fn locks_need_the_lock_at_boot()
    ensures together { replies ((FlashProtect, 1, flash_protect_ask 3 3) ∷ []) (on e64) ≡ (0, flash_protect_say 0x0B 0x6F 0x04) ∷ [] }
    ensures alone { replies ((FlashProtect, 1, flash_protect_ask 6 6) ∷ []) (on e64) ≡ (0, flash_protect_say 0x08 0x6F 0x41) ∷ [] }
{}

/// With the pin off nothing is locked, whatever is stored.
pub fn pin_that_is_off()
    ensures { replies ((FlashProtect, 1, flash_protect_ask 6 6) ∷ []) (booted a64 false PowerOn false) ≡ (0, flash_protect_say 0x41 0x6F 0x41) ∷ [] }
{}

/// A boot that cannot read the stored bits locks RO and shows bit 5.
pub fn boot_that_cannot_read()
    ensures { replies ((FlashProtect, 1, flash_protect_ask 0 0) ∷ []) (booted e64 true PowerOn true) ≡ (0, flash_protect_say 0x2A 0x6F 0) ∷ [] }
{}

/// Both bits stored lock all blocks at a boot, as version 1 and by a record of version 2, and bytes that begin with neither's mark
/// store none.
#[tactic(auto, unfolding(ec_model::specs::Stored::slot_count))]
pub fn boots_by_what_is_stored()
    ensures both { replies ((FlashProtect, 1, flash_protect_ask 0 0) ∷ []) (on a64) ≡ (0, flash_protect_say 0x4F 0x6F 0) ∷ [] }
    ensures by_record { replies ((FlashProtect, 1, flash_protect_ask 0 0) ∷ []) (on (with_records (record_bytes 0x41) e64)) ≡
        (0, flash_protect_say 0x4F 0x6F 0) ∷ [] }
    ensures other { replies ((FlashProtect, 1, flash_protect_ask 0 0) ∷ [])
        (on (overwritten 0x7000 (0x50 ∷ 0x53 ∷ 0x54 ∷ 0x30 ∷ 0x41 ∷ 0 ∷ 0 ∷ 0 ∷ []) e64)) ≡ (0, flash_protect_say 0x08 0x6F 0x41) ∷ [] }
    ensures alone { replies ((FlashProtect, 1, flash_protect_ask 0 0) ∷ [])
        (on (overwritten 0x7000 (0x50 ∷ 0x53 ∷ 0x54 ∷ 0x31 ∷ 0x40 ∷ 0 ∷ 0 ∷ 0 ∷ []) e64)) ≡ (0, flash_protect_say 0x48 0x6F 0x41) ∷ [] }
{}
