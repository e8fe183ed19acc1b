// From which states a sync has to succeed.
ghost use Rattle.std.specs.Prelude.{◌≡◌, true, false, [], ◌∷◌, Some, ◌++◌, replicate};
ghost use Rattle.ec_types.specs.declared.bus.BusKind.TheVariants.{Lpc, I2c, Spi};
ghost use Rattle.ec_types.specs.declared.reset.ResetCause.TheVariants.{PowerOn};
ghost use Rattle.ec_types.specs.declared.image.Fit.TheVariants.{Yes, Short, Long, Vector};
ghost use Rattle.ec_model.specs.declared.event.Access.TheVariants.{SpiSelect};
ghost use Rattle.ec_model.specs.declared.event.Event.TheVariants.{Access};
ghost use Rattle.ec_model.specs.Bus.{fresh_bus};
ghost use Rattle.ec_model.specs.Table.{table_of, off_table};
ghost use Rattle.ec_model.specs.Boot.{booted_table};
ghost use Rattle.ec_model.specs.Image.{fit_of};
ghost use Rattle.ec_model.specs.Erasing.{with_job};
ghost use Rattle.ec_model.specs.Syncable.{settled, Syncable};
ghost use Rattle.ec_examples.specs.Flashes.{e64, a64, record_bytes, with_records, image_v2, with_image};
ghost use Rattle.ec_examples.specs.Cores.{on};
ghost use Rattle.ec_examples.specs.Events.{powered, table_after, spi_bytes};
ghost use Rattle.ec_examples.specs.Sends.{hello_request};
ghost use Rattle.ec_examples.specs.Waiting.{hello_waits, lpc_said};

/// A HELLO of 5 that waits on LPC is handled first; a request that waits on SPI is dropped by a deselect, and stays.
pub fn settled_tables()
    ensures lpc { settled hello_waits ≡ lpc_said hello_waits
        (0x03 ∷ 0xEA ∷ 0x00 ∷ 0x00 ∷ 0x04 ∷ 0x00 ∷ 0x00 ∷ 0x00 ∷ 0x09 ∷ 0x03 ∷ 0x02 ∷ 0x01 ∷ []) (on e64) }
    ensures none { settled (powered e64 Lpc) ≡ powered e64 Lpc }
    ensures spi { settled (table_after (powered e64 Spi) (Access SpiSelect ∷ [] ++ spi_bytes hello_request)) ≡
        table_after (powered e64 Spi) (Access SpiSelect ∷ [] ++ spi_bytes hello_request) }
    ensures off { settled (off_table e64 true I2c) ≡ off_table e64 true I2c }
{}

/// A controller that is on can be synced, but where the lock of all blocks is stored under an asserted pin, as version 1 or by the
/// last record of version 2.
pub fn syncable_by_what_is_stored()
    ensures erased { Syncable (powered e64 Lpc) image_v2 }
    ensures waiting { Syncable hello_waits image_v2 }
    ensures locked { ¬ Syncable (powered a64 Lpc) image_v2 }
    ensures by_record { ¬ Syncable (powered (with_records (record_bytes 0x41) e64) Lpc) image_v2 }
    ensures taken_back { Syncable (powered (with_records (record_bytes 0x41 ++ record_bytes 1) e64) Lpc) image_v2 }
    ensures pin_off { Syncable (booted_table a64 false Lpc PowerOn false) image_v2 }
    ensures off { ¬ Syncable (off_table e64 true Lpc) image_v2 }
{}

/// With that lock it can be synced to the image that RW holds already, unless an erase of RW is pending.
pub fn syncable_to_what_rw_holds()
    ensures held { Syncable (powered (with_image a64) Lpc) image_v2 }
    ensures erasing { ¬ Syncable (table_of (with_job (Some (record { next = 15; left = 1 })) 9 (on (with_image a64))) (fresh_bus Lpc)) image_v2 }
    ensures erasing_below { Syncable (table_of (with_job (Some (record { next = 0; left = 8 })) 9 (on (with_image a64))) (fresh_bus Lpc)) image_v2 }
{}

/// Which images fit a flash of 65,536 bytes.
pub fn images_that_fit()
    ensures fits { fit_of image_v2 65536 ≡ Yes }
    ensures short { fit_of (replicate 7 0) 65536 ≡ Short }
    ensures long { fit_of (replicate 32769 0) 65536 ≡ Long }
    ensures vector { fit_of (0 ∷ 0 ∷ 0 ∷ 0 ∷ 0x00 ∷ 0x01 ∷ 0x00 ∷ 0x00 ∷ []) 65536 ≡ Vector }
{}
