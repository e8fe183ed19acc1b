// VBOOT_HASH: which ranges are hashed, by how many ticks, and what drops a hash.
ghost use Rattle.std.specs.Prelude.{◌≡◌, false, [], ◌∷◌, replicate, Some, None};
ghost use Rattle.sha2.specs.Sha256.{sha256};
ghost use Rattle.ec_types.specs.declared.reset.ResetCause.TheVariants.{PowerOn};
ghost use Rattle.ec_model.specs.declared.live.HashView.TheVariants.{Idle, Busy, Done};
ghost use Rattle.ec_model.specs.Commands.{FlashWrite, VbootHash, Reboot};
ghost use Rattle.ec_model.specs.Bodies.{flash_write_ask, vboot_hash_ask, reboot_ask};
ghost use Rattle.ec_model.specs.Hash.{with_hash};
ghost use Rattle.ec_model.specs.HashRow.{hash_range};
ghost use Rattle.ec_model.specs.Boot.{fresh_live};
ghost use Rattle.ec_model.specs.Jump.{kept_hash};
ghost use Rattle.ec_examples.specs.Flashes.{e64};
ghost use Rattle.ec_examples.specs.Cores.{on, reset, ticked};
ghost use Rattle.ec_examples.specs.Replies.{replies, core_after};

/// A range of 1,025 bytes takes two ticks; then its digest, that of the nonce "abc" and 1,025 bytes 0xFF, is shown with the
/// range.
pub fn hash_of_1025_bytes()
    ensures started { replies ((VbootHash, 0, vboot_hash_ask 2 0 3 0 0x8000 1025 (0x61 ∷ 0x62 ∷ 0x63 ∷ replicate 61 0)) ∷ []) (on e64) ≡
        (0, 2 ∷ replicate 75 0) ∷ [] }
    ensures ticks { (core_after ((VbootHash, 0, vboot_hash_ask 2 0 3 0 0x8000 1025 (0x61 ∷ 0x62 ∷ 0x63 ∷ replicate 61 0)) ∷ []) (on e64)).live.hash ≡
        Busy 0x8000 1025 2 }
    ensures done { replies ((VbootHash, 0, vboot_hash_ask 0 9 9 9 9 9 (replicate 64 9)) ∷ [])
        (ticked 2 (with_hash (Busy 0x8000 1025 2) (0x61 ∷ 0x62 ∷ 0x63 ∷ []) (on e64))) ≡ (
          0,
          1 ∷ 0 ∷ 32 ∷ 0 ∷ 0x00 ∷ 0x80 ∷ 0x00 ∷ 0x00 ∷ 0x01 ∷ 0x04 ∷ 0x00 ∷ 0x00
              ∷ 0x20 ∷ 0x07 ∷ 0x17 ∷ 0x43 ∷ 0xD8 ∷ 0x18 ∷ 0xE7 ∷ 0x38 ∷ 0x07 ∷ 0x45 ∷ 0x6C ∷ 0xC5 ∷ 0x03 ∷ 0x13 ∷ 0x8D ∷ 0xB9 ∷ 0x32 ∷ 0x1B ∷ 0xB0 ∷ 0xC0 ∷ 0x81 ∷ 0x2E ∷ 0x00 ∷ 0x26 ∷ 0xE0 ∷ 0xB4 ∷ 0x8B ∷ 0x99 ∷ 0xFC ∷ 0xEC ∷ 0xA5 ∷ 0x2F ∷ replicate 32 0,
        ) ∷ [] }
{}

/// Two numbers in place of an offset name the images, with size 0 for the whole of one.
pub fn ranges_that_are_hashed()
    ensures ro { hash_range 65536 0xFFFFFFFE 0 ≡ Some (record { at = 0; size = 0x7000 }) }
    ensures rw { hash_range 65536 0xFFFFFFFD 0x100 ≡ Some (record { at = 0x8000; size = 0x100 }) }
    ensures large { hash_range 65536 0xFFFFFFFE 0x7001 ≡ None }
    ensures plain { hash_range 65536 0xFFFC 4 ≡ Some (record { at = 0xFFFC; size = 4 }) }
    ensures empty { hash_range 65536 0x8000 0 ≡ None }
    ensures past { hash_range 65536 0xFFFC 8 ≡ None }
{}

/// Another type, a nonce of more than 64 bytes, a range that is refused, and an unknown command have status 3.
pub fn hashes_that_are_refused()
    ensures { replies ((VbootHash, 0, vboot_hash_ask 2 1 0 0 0x8000 4 (replicate 64 0)) ∷ (VbootHash, 0, vboot_hash_ask 2 0 65 0 0x8000 4 (replicate 64 0)) ∷
        (VbootHash, 0, vboot_hash_ask 2 0 0 0 0xFFFC 8 (replicate 64 0)) ∷ (VbootHash, 0, vboot_hash_ask 2 0 0 0 0x8000 0 (replicate 64 0)) ∷ (VbootHash, 0, vboot_hash_ask 3 0 0 0 0x8000 4 (replicate 64 0)) ∷ []) (on e64) ≡
        (3, []) ∷ (3, []) ∷ (3, []) ∷ (3, []) ∷ (3, []) ∷ [] }
{}

/// A write of a byte of the range drops a hash, busy or done, and one beside it does not; ABORT drops it with no data.
pub fn hashes_that_are_dropped()
    ensures over { (core_after ((FlashWrite, 1, flash_write_ask 0x8000 (replicate 4 0)) ∷ []) (with_hash (Busy 0x8003 4 1) [] (on e64))).live.hash ≡ Idle }
    ensures done { (core_after ((FlashWrite, 1, flash_write_ask 0x8004 (replicate 4 0)) ∷ []) (with_hash (Done 0x8000 5 (replicate 32 7)) [] (on e64))).live.hash ≡ Idle }
    ensures beside { (core_after ((FlashWrite, 1, flash_write_ask 0x8004 (replicate 4 0)) ∷ []) (with_hash (Done 0x8000 4 (replicate 32 7)) [] (on e64))).live.hash ≡
        Done 0x8000 4 (replicate 32 7) }
    ensures abort { replies ((VbootHash, 0, vboot_hash_ask 1 9 9 9 9 9 (replicate 64 9)) ∷ (VbootHash, 0, vboot_hash_ask 0 0 0 0 0 0 (replicate 64 0)) ∷ [])
        (with_hash (Busy 0x8000 4 1) [] (on e64)) ≡ (0, []) ∷ (0, replicate 76 0) ∷ [] }
{}

/// A boot begins to hash all of RW, with no nonce: behind a power-on, a reset and a COLD, whatever hash there was, and on the largest
/// flash. GET says that it is busy.
pub fn hash_of_a_boot()
    ensures power { (on e64).live.hash ≡ Busy 0x8000 0x8000 32 }
    ensures nonce { (on e64).nonce ≡ [] }
    ensures pin { (reset e64).live.hash ≡ Busy 0x8000 0x8000 32 }
    ensures cold { (core_after ((Reboot, 0, reboot_ask 4 0) ∷ []) (with_hash (Done 0x8000 4 (replicate 32 7)) [] (on e64))).live.hash ≡
        Busy 0x8000 0x8000 32 }
    ensures largest { (fresh_live 4194304 PowerOn false false false).hash ≡ Busy 0x200000 0x200000 2048 }
    ensures shown { replies ((VbootHash, 0, vboot_hash_ask 0 0 0 0 0 0 (replicate 64 0)) ∷ []) (on e64) ≡ (0, 2 ∷ replicate 75 0) ∷ [] }
{}

/// It takes 32 ticks in a flash of 65,536 bytes. A write of the stored protection leaves it, and one of RW drops it.
pub fn ticks_of_the_hash_of_a_boot()
    ensures busy { (ticked 31 (on e64)).live.hash ≡ Busy 0x8000 0x8000 1 }
    ensures done { (ticked 32 (on e64)).live.hash ≡ Done 0x8000 0x8000 (sha256 (replicate 32768 0xFF)) }
    ensures beside { (core_after ((FlashWrite, 1, flash_write_ask 0x7000 (replicate 4 0)) ∷ []) (on e64)).live.hash ≡ Busy 0x8000 0x8000 32 }
    ensures over { replies ((FlashWrite, 1, flash_write_ask 0x8000 (replicate 4 0)) ∷ (VbootHash, 0, vboot_hash_ask 0 0 0 0 0 0 (replicate 64 0)) ∷ [])
        (on e64) ≡ (0, []) ∷ (0, replicate 76 0) ∷ [] }
{}

/// A jump keeps a finished hash, and drops a busy one.
pub fn hashes_over_a_jump()
    ensures done { kept_hash (Done 0x8000 4 (replicate 32 7)) ≡ Done 0x8000 4 (replicate 32 7) }
    ensures busy { kept_hash (Busy 0x8000 4 1) ≡ Idle }
{}
