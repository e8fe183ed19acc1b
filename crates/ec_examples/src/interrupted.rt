// Events in which a call of the flash fails or power is lost.
ghost use Rattle.std.specs.Prelude.{◌≡◌, true, false, [], ◌∷◌, replicate, Some, None};
ghost use Rattle.flash_dev.specs.Flash.{overwritten, Torn};
ghost use Rattle.ec_types.specs.declared.bus.BusKind.TheVariants.{Lpc, I2c};
ghost use Rattle.ec_types.specs.declared.reset.ResetCause.TheVariants.{PowerOn};
ghost use Rattle.ec_model.specs.declared.event.Access.TheVariants.{I2cStartRead};
ghost use Rattle.ec_model.specs.declared.event.Event.TheVariants.{Access, Tick, Power};
ghost use Rattle.ec_model.specs.declared.event.Entry.TheVariants.{Step};
ghost use Rattle.flash_dev.specs.declared.hurt.Hurt.TheVariants.{Failed, Cut};
ghost use Rattle.ec_model.specs.declared.live.HashView.TheVariants.{Busy};
ghost use Rattle.ec_model.specs.Bus.{fresh_bus};
ghost use Rattle.ec_model.specs.Table.{table_of, off_table};
ghost use Rattle.ec_model.specs.Hash.{with_hash, without_hash};
ghost use Rattle.ec_model.specs.Boot.{booted_table};
ghost use Rattle.ec_model.specs.Operations.{Program, StopsAt};
ghost use Rattle.ec_model.specs.ProtectRow.{protect_operations};
ghost use Rattle.ec_model.specs.Stored.{stored};
ghost use Rattle.ec_model.specs.Work.{operations_of};
ghost use Rattle.ec_model.specs.Erasing.{with_job};
ghost use Rattle.ec_model.specs.Step.{IsStep};
ghost use Rattle.ec_examples.specs.Flashes.{e64};
ghost use Rattle.ec_examples.specs.Cores.{on};
ghost use Rattle.ec_examples.specs.Events.{table_after};
ghost use Rattle.ec_examples.specs.Waiting.{write_waits, read_waits, write_on_i2c, torn_in_the_second, lpc_said};

/// Bytes that changed in 0x8040 to 0x8080 alone are torn there, and not beside it.
pub fn torn_range()
    ensures torn { Torn 0x8040 64 e64 (overwritten 0x8040 (0xA5 ∷ 0xA5 ∷ []) e64) }
    ensures beside { ¬ Torn 0x8000 64 e64 (overwritten 0x8040 (0xA5 ∷ 0xA5 ∷ []) e64) }
{}

/// A write of 152 bytes at 0x8000 that waits for a tick is three programs. Power may be lost inside the second: the first
/// is done, two bytes of the second are torn here, and the third was not begun.
pub fn cut_inside_a_write_of_three_pieces()
    ensures operations { operations_of write_waits Tick ≡
        Program 0x8000 (replicate 64 1) ∷ Program 0x8040 (replicate 64 2) ∷ Program 0x8080 (replicate 24 3) ∷ [] }
    ensures cut { IsStep write_waits (Step Tick 0 0 0 Cut) (off_table torn_in_the_second true Lpc) }
{}

/// Or the second may fail: the controller stays on, no hash of RW is left, and it says `ERROR`.
pub fn failure_inside_a_write_of_three_pieces()
    ensures { IsStep write_waits (Step Tick 0 0 0 Failed) (lpc_said write_waits
        (0x03 ∷ 0xFB ∷ 0x02 ∷ 0x00 ∷ 0x00 ∷ 0x00 ∷ 0x00 ∷ 0x00 ∷ []) (record (without_hash (on e64)) { flash = torn_in_the_second })) }
{}

/// A request on I2C is served at the start of the read, so that access is answered with 0xFF where power is lost in it.
pub fn cut_of_an_access()
    ensures { IsStep write_on_i2c (Step (Access I2cStartRead) 0xFF 0 0xFF Cut)
        (off_table (overwritten 0x8000 (0xA5 ∷ []) e64) true I2c) }
{}

/// A read that fails has `ERROR` and leaves the flash and the rest; in a hash it leaves none, and in a boot RO is locked.
pub fn reads_that_fail()
    ensures request { IsStep read_waits (Step Tick 0 0 0 Failed) (lpc_said read_waits
        (0x03 ∷ 0xFB ∷ 0x02 ∷ 0x00 ∷ 0x00 ∷ 0x00 ∷ 0x00 ∷ 0x00 ∷ []) (on e64)) }
    ensures hash { IsStep (table_of (with_hash (Busy 0x8000 1025 2) [] (on e64)) (fresh_bus Lpc)) (Step Tick 0 0 0 Failed)
        (table_of (without_hash (on e64)) (fresh_bus Lpc)) }
    ensures boot { IsStep (off_table e64 true Lpc) (Step (Power true) 0 0 0 Failed) (booted_table e64 true Lpc PowerOn true) }
{}

/// A block of an erase that fails ends it, with `ERROR` saved.
pub fn erase_that_fails()
    ensures { IsStep (table_of (with_job (Some (record { next = 8; left = 8 })) 9 (on e64)) (fresh_bus Lpc)) (Step Tick 0 0 0 Failed)
        (table_of (with_job None 2 (record (without_hash (on e64)) { flash = overwritten 0x8FFF (0x00 ∷ []) e64 })) (fresh_bus Lpc)) }
{}

/// Power that is lost inside a block of an erase leaves the blocks behind it as they were, and the power-on does not go on with
/// them: the nine ticks that follow erase nothing, and go on with the hash of RW alone.
pub fn erase_that_is_cut()
    ensures cut { IsStep (table_of (with_job (Some (record { next = 8; left = 8 })) 9 (on (overwritten 0x9000 (replicate 16 0) e64))) (fresh_bus Lpc)) (Step Tick 0 0 0 Cut)
        (off_table (overwritten 0x8FFF (0x00 ∷ []) (overwritten 0x9000 (replicate 16 0) e64)) true Lpc) }
    ensures behind { table_after (off_table (overwritten 0x8FFF (replicate 17 0) e64) true Lpc) (Power true ∷ replicate 9 Tick) ≡
        table_of (with_hash (Busy 0x8000 0x8000 23) [] (on (overwritten 0x8FFF (replicate 17 0) e64))) (fresh_bus Lpc) }
{}

/// Power that is lost inside the program of the mark may leave both bits stored as version 1, or none.
pub fn cut_inside_the_stored_bits()
    ensures both { StopsAt 1 (protect_operations (on e64) 1 1) e64 (overwritten 0x7000 (0x50 ∷ 0x53 ∷ 0x54 ∷ 0x31 ∷ 0x41 ∷ 0 ∷ 0 ∷ 0 ∷ []) e64) }
    ensures both_are { stored (overwritten 0x7000 (0x50 ∷ 0x53 ∷ 0x54 ∷ 0x31 ∷ 0x41 ∷ 0 ∷ 0 ∷ 0 ∷ []) e64) ≡ record { ro = true; all = true } }
    ensures none { StopsAt 1 (protect_operations (on e64) 1 1) e64 (overwritten 0x7000 (0x50 ∷ 0x53 ∷ 0x54 ∷ 0x30 ∷ []) e64) }
    ensures none_is { stored (overwritten 0x7000 (0x50 ∷ 0x53 ∷ 0x54 ∷ 0x30 ∷ []) e64) ≡ record { ro = false; all = false } }
{}
