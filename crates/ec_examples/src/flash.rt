// Reads, writes and erases of the flash: their statuses in their order, and what they leave.
ghost use Rattle.std.specs.Prelude.{◌≡◌, true, false, [], ◌∷◌, ◌++◌, replicate, Some};
ghost use Rattle.ec_model.specs.Ranges.{is_flash_size, ro_range, pstate_range, rw_range};
ghost use Rattle.ec_model.specs.Commands.{FlashRead, FlashWrite, FlashErase};
ghost use Rattle.ec_model.specs.Bodies.{flash_read_ask, flash_write_ask, flash_erase_ask};
ghost use Rattle.ec_model.specs.Operations.{Program, pieces};
ghost use Rattle.ec_examples.specs.Flashes.{e64};
ghost use Rattle.ec_examples.specs.Cores.{on};
ghost use Rattle.ec_examples.specs.Replies.{replies, replies_within, core_after};

/// 0xF0 and then 0x3C at one place leave 0x30.
pub fn two_writes_leave_the_and_of_both()
    ensures { replies ((FlashWrite, 1, flash_write_ask 0x8000 (replicate 4 0xF0)) ∷ (FlashWrite, 1, flash_write_ask 0x8000 (replicate 4 0x3C))
        ∷ (FlashRead, 0, flash_read_ask 0x8000 5) ∷ []) (on e64) ≡
        (0, []) ∷ (0, []) ∷ (0, 0x30 ∷ 0x30 ∷ 0x30 ∷ 0x30 ∷ 0xFF ∷ []) ∷ [] }
{}

/// A read past the end has status 3, also where its end would wrap at 32 bits; then one that is too long for the bus 11.
pub fn reads_that_are_refused()
    ensures lpc { replies ((FlashRead, 0, flash_read_ask 0xFFFFFFFC 8) ∷ (FlashRead, 0, flash_read_ask 0x8000 0x8001) ∷
        (FlashRead, 0, flash_read_ask 0x8000 249) ∷ (FlashRead, 0, flash_read_ask 0xFF08 248) ∷ (FlashRead, 0, flash_read_ask 0x10000 0) ∷ []) (on e64) ≡
        (3, []) ∷ (3, []) ∷ (11, []) ∷ (0, replicate 248 0xFF) ∷ (0, []) ∷ [] }
    ensures i2c { replies_within 128 ((FlashRead, 0, flash_read_ask 0 121) ∷ (FlashRead, 0, flash_read_ask 0 120) ∷ []) (on e64) ≡
        (11, []) ∷ (0, replicate 120 0xFF) ∷ [] }
    ensures spi { replies_within 544 ((FlashRead, 0, flash_read_ask 0 537) ∷ (FlashRead, 0, flash_read_ask 0 536) ∷ []) (on e64) ≡
        (11, []) ∷ (0, replicate 536 0xFF) ∷ [] }
{}

/// No bytes, a place or a size that is no multiple of 4, an end past the flash, and in version 0 more than 64 bytes have
/// status 3; then RO, which runs, has status 4, but not the stored protection behind it.
pub fn writes_that_are_refused()
    ensures forms { replies ((FlashWrite, 1, flash_write_ask 0x8000 []) ∷ (FlashWrite, 1, flash_write_ask 0x8002 (replicate 4 0)) ∷
        (FlashWrite, 1, flash_write_ask 0x8000 (replicate 6 0)) ∷ (FlashWrite, 1, flash_write_ask 0xFFFC (replicate 8 0)) ∷
        (FlashWrite, 0, flash_write_ask 0x8000 (replicate 68 0)) ∷ (FlashWrite, 0, flash_write_ask 0x8000 (replicate 64 0)) ∷
        (FlashWrite, 1, flash_write_ask 0x8000 (replicate 68 0)) ∷ []) (on e64) ≡
        (3, []) ∷ (3, []) ∷ (3, []) ∷ (3, []) ∷ (3, []) ∷ (0, []) ∷ (0, []) ∷ [] }
    ensures blocked { replies ((FlashWrite, 1, flash_write_ask 0 (replicate 4 0)) ∷ (FlashWrite, 1, flash_write_ask 0x6FFC (replicate 8 0)) ∷
        (FlashWrite, 1, flash_write_ask 2 (replicate 4 0)) ∷ (FlashWrite, 1, flash_write_ask 0x7000 (replicate 4 0)) ∷ []) (on e64) ≡
        (4, []) ∷ (4, []) ∷ (3, []) ∷ (0, []) ∷ [] }
{}

/// A write is made in pieces of 64 bytes, the last one shorter.
pub fn write_in_pieces()
    ensures { pieces 0x8000 (replicate 64 1 ++ replicate 64 2 ++ replicate 24 3) ≡
        Program 0x8000 (replicate 64 1) ∷ Program 0x8040 (replicate 64 2) ∷ Program 0x8080 (replicate 24 3) ∷ [] }
{}

/// An erase is of whole blocks, and its own image is denied; one that is accepted is in progress.
pub fn erases_that_are_asked()
    ensures statuses { replies ((FlashErase, 0, flash_erase_ask 0x8000 0) ∷ (FlashErase, 0, flash_erase_ask 0x8004 0x1000) ∷
        (FlashErase, 0, flash_erase_ask 0x8000 0x1004) ∷ (FlashErase, 0, flash_erase_ask 0xF000 0x2000) ∷ (FlashErase, 0, flash_erase_ask 0x6000 0x1000) ∷
        (FlashErase, 0, flash_erase_ask 0x8000 0x8000) ∷ []) (on e64) ≡
        (3, []) ∷ (3, []) ∷ (3, []) ∷ (3, []) ∷ (4, []) ∷ (8, []) ∷ [] }
    ensures job { (core_after ((FlashErase, 0, flash_erase_ask 0x8000 0x8000) ∷ []) (on e64)).live.erase ≡ Some (record { next = 8; left = 8 }) }
{}

/// A flash may have 4,194,304 bytes, of which RW has the upper half, but neither twice as many nor three quarters.
pub fn largest_flash()
    ensures allowed { is_flash_size 4194304 ≡ true }
    ensures larger { is_flash_size 8388608 ≡ false }
    ensures between { is_flash_size 3145728 ≡ false }
    ensures ro { ro_range 4194304 ≡ record { at = 0; size = 0x1FF000 } }
    ensures pstate { pstate_range 4194304 ≡ record { at = 0x1FF000; size = 0x1000 } }
    ensures rw { rw_range 4194304 ≡ record { at = 0x200000; size = 0x200000 } }
{}
