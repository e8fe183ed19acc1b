// REBOOT_EC: jumps from one image to the other, and the reset by a command.
ghost use Rattle.std.specs.Prelude.{◌≡◌, true, false, [], ◌∷◌, ◌++◌, replicate, None};
ghost use Rattle.ec_types.specs.declared.image.ImageCopy.TheVariants.{Ro, Rw};
ghost use Rattle.ec_model.specs.declared.live.HashView.TheVariants.{Idle, Busy, Done};
ghost use Rattle.ec_model.specs.Commands.{Sysinfo, VbootHash, Resend, Reboot};
ghost use Rattle.ec_model.specs.Bodies.{reboot_ask, sysinfo_say, vboot_hash_ask, vboot_hash_say};
ghost use Rattle.ec_model.specs.Hash.{with_hash};
ghost use Rattle.ec_model.specs.Erasing.{with_job};
ghost use Rattle.ec_model.specs.Jump.{jump_version, jumped};
ghost use Rattle.ec_examples.specs.Flashes.{e64, g64, with_image, with_vector, with_ro, with_version};
ghost use Rattle.ec_examples.specs.Cores.{on, reset, before_jump};
ghost use Rattle.ec_examples.specs.Replies.{replies};

/// A locked controller jumps to RW once after a boot, and not once jumps are disabled; a COLD, which has no reply, boots it.
pub fn jumps_of_a_locked_controller()
    ensures first { replies ((Reboot, 0, reboot_ask 2 0) ∷ (Sysinfo, 0, []) ∷ (Reboot, 0, reboot_ask 1 0) ∷ []) (reset (with_image g64)) ≡
        (0, []) ∷ (0, sysinfo_say 0x402 2 0x0D) ∷ (4, []) ∷ [] }
    ensures disabled { replies ((Reboot, 0, reboot_ask 5 0) ∷ (Reboot, 0, reboot_ask 2 0) ∷ (Reboot, 0, reboot_ask 4 0) ∷ (Sysinfo, 0, []) ∷
        (Reboot, 0, reboot_ask 2 0) ∷ (Sysinfo, 0, []) ∷ (Reboot, 0, reboot_ask 2 0) ∷ (Reboot, 0, reboot_ask 1 0) ∷ []) (on (with_image g64)) ≡
        (0, []) ∷ (4, []) ∷ (0, sysinfo_say 0x800 1 0x05) ∷ (0, []) ∷ (0, sysinfo_say 0xC00 2 0x0D) ∷ (0, []) ∷ (4, []) ∷ [] }
{}

/// While it is not locked a controller jumps though jumps are disabled; its own RO has an erased vector, so it stays in RW.
pub fn jumps_of_an_open_controller()
    ensures { replies ((Reboot, 0, reboot_ask 5 0) ∷ (Reboot, 0, reboot_ask 1 0) ∷ (Reboot, 0, reboot_ask 2 0) ∷ (Reboot, 0, reboot_ask 1 0) ∷
        (Sysinfo, 0, []) ∷ []) (on (with_image e64)) ≡
        (0, []) ∷ (0, []) ∷ (0, []) ∷ (2, []) ∷ (0, sysinfo_say 0x408 2 0x08) ∷ [] }
{}

/// An image whose vector lies outside its region is not jumped to.
pub fn jump_to_an_erased_image()
    ensures { replies ((Reboot, 0, reboot_ask 2 0) ∷ (Sysinfo, 0, []) ∷ []) (reset e64) ≡ (2, []) ∷ (0, sysinfo_say 0x02 1 0x04) ∷ [] }
{}

/// A vector lies in its image's own region from its first byte to its last: at its end it lies outside. So for RW, and for RO, whose
/// region ends before the stored protection.
pub fn vectors_at_the_ends_of_a_region()
    ensures first { replies ((Reboot, 0, reboot_ask 2 0) ∷ []) (on (with_vector 0x8000 e64)) ≡ (0, []) ∷ [] }
    ensures last { replies ((Reboot, 0, reboot_ask 2 0) ∷ []) (on (with_vector 0xFFFF e64)) ≡ (0, []) ∷ [] }
    ensures below { replies ((Reboot, 0, reboot_ask 2 0) ∷ []) (on (with_vector 0x7FFF e64)) ≡ (2, []) ∷ [] }
    ensures end { replies ((Reboot, 0, reboot_ask 2 0) ∷ []) (on (with_vector 0x10000 e64)) ≡ (2, []) ∷ [] }
    ensures ro_last { replies ((Reboot, 0, reboot_ask 2 0) ∷ (Reboot, 0, reboot_ask 1 0) ∷ []) (on (with_image (with_ro 0x6FFF e64))) ≡
        (0, []) ∷ (0, []) ∷ [] }
    ensures ro_end { replies ((Reboot, 0, reboot_ask 2 0) ∷ (Reboot, 0, reboot_ask 1 0) ∷ []) (on (with_image (with_ro 0x7000 e64))) ≡
        (0, []) ∷ (2, []) ∷ [] }
{}

/// CANCEL does nothing; a flags byte and an unknown number have status 3.
pub fn other_reboots()
    ensures { replies ((Reboot, 0, reboot_ask 0 0) ∷ (Reboot, 0, reboot_ask 0 1) ∷ (Reboot, 0, reboot_ask 4 1) ∷ (Reboot, 0, reboot_ask 3 0) ∷
        (Sysinfo, 0, []) ∷ []) (on e64) ≡
        (0, []) ∷ (3, []) ∷ (3, []) ∷ (3, []) ∷ (0, sysinfo_say 0x08 1 0x04) ∷ [] }
{}

/// RO writes jump data of version 1 or 2 where its byte at 40 says so, and else of version 3, as RW always does.
pub fn versions_of_jump_data()
    ensures one { jump_version (with_version 1 e64) Ro ≡ 1 }
    ensures two { jump_version (with_version 2 e64) Ro ≡ 2 }
    ensures other { jump_version e64 Ro ≡ 3 }
    ensures rw { jump_version (with_version 1 e64) Rw ≡ 3 }
{}

/// Version 1 keeps the locks and the flags alone. Version 2 keeps all else too, but of the hash only a finished one.
pub fn jumps_by_their_version()
    ensures one { (jumped Rw (before_jump (with_version 1 e64) (Done 0x8000 4 (replicate 32 7)))).live ≡
        record {
          copy = Rw;
          flags = 0x408;
          jumped = true;
          ro_now = true;
          all_now = false;
          pstate_bad = false;
          jump_off = false;
          hash = Idle;
          erase = None;
          saved = 9;
        } }
    ensures two { (jumped Rw (before_jump (with_version 2 e64) (Done 0x8000 4 (replicate 32 7)))).live ≡
        record {
          copy = Rw;
          flags = 0x408;
          jumped = true;
          ro_now = true;
          all_now = false;
          pstate_bad = true;
          jump_off = true;
          hash = Done 0x8000 4 (replicate 32 7);
          erase = None;
          saved = 0;
        } }
    ensures busy { (jumped Rw (before_jump (with_version 2 e64) (Busy 0x8000 4 1))).live ≡
        record {
          copy = Rw;
          flags = 0x408;
          jumped = true;
          ro_now = true;
          all_now = false;
          pstate_bad = true;
          jump_off = true;
          hash = Idle;
          erase = None;
          saved = 0;
        } }
{}

/// With jumps disabled a jump of version 1 leaves no hash and lets jumps pass again; one of version 3 keeps both.
pub fn hash_and_flags_over_a_jump()
    ensures one { replies ((Reboot, 0, reboot_ask 5 0) ∷ (Reboot, 0, reboot_ask 2 0) ∷ (VbootHash, 0, vboot_hash_ask 0 0 0 0 0 0 (replicate 64 0)) ∷ (Sysinfo, 0, []) ∷ [])
        (with_hash (Done 0x8000 0x8000 (replicate 32 7)) [] (on (with_image (with_version 1 e64)))) ≡
        (0, []) ∷ (0, []) ∷ (0, replicate 76 0) ∷ (0, sysinfo_say 0x408 2 0x0C) ∷ [] }
    ensures three { replies ((Reboot, 0, reboot_ask 5 0) ∷ (Reboot, 0, reboot_ask 2 0) ∷ (VbootHash, 0, vboot_hash_ask 0 0 0 0 0 0 (replicate 64 0)) ∷ (Sysinfo, 0, []) ∷ [])
        (with_hash (Done 0x8000 0x8000 (replicate 32 7)) [] (on (with_image e64))) ≡
        (0, []) ∷ (0, []) ∷ (0, vboot_hash_say 1 0 32 0 0x8000 0x8000 (replicate 32 7 ++ replicate 32 0)) ∷ (0, sysinfo_say 0x408 2 0x08) ∷ [] }
{}

/// So the saved status of an erase is told behind a jump from RO, but not where RO writes version 1.
pub fn saved_status_over_a_jump()
    ensures kept { replies ((Reboot, 0, reboot_ask 2 0) ∷ (Resend, 0, []) ∷ [])
        (with_job None 0 (on (with_image (with_version 2 e64)))) ≡ (0, []) ∷ (0, []) ∷ [] }
    ensures lost { replies ((Reboot, 0, reboot_ask 2 0) ∷ (Resend, 0, []) ∷ [])
        (with_job None 0 (on (with_image (with_version 1 e64)))) ≡ (0, []) ∷ (9, []) ∷ [] }
{}
