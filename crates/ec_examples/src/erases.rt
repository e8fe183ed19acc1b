// An erase in the background: one block a tick, and its saved status.
ghost use Rattle.std.specs.Prelude.{◌≡◌, [], ◌∷◌, replicate, Some, None};
ghost use Rattle.flash_dev.specs.Flash.{overwritten};
ghost use Rattle.ec_types.specs.declared.bus.BusKind.TheVariants.{I2c};
ghost use Rattle.ec_model.specs.declared.event.Event.TheVariants.{Tick};
ghost use Rattle.ec_model.specs.Packet.{response_packet};
ghost use Rattle.ec_model.specs.Commands.{Resend};
ghost use Rattle.ec_model.specs.Bus.{fresh_bus};
ghost use Rattle.ec_model.specs.Table.{table_of};
ghost use Rattle.ec_model.specs.Hash.{without_hash};
ghost use Rattle.ec_model.specs.Erasing.{with_job};
ghost use Rattle.ec_examples.specs.Flashes.{e64};
ghost use Rattle.ec_examples.specs.Cores.{on};
ghost use Rattle.ec_examples.specs.Events.{table_after};
ghost use Rattle.ec_examples.specs.Replies.{replies};

/// An erase of eight blocks of which the first and the last hold something: seven ticks leave one block, and the eighth ends
/// it with success saved.
pub fn erase_of_eight_blocks()
    ensures seven { table_after (table_of (with_job (Some (record { next = 8; left = 8 })) 9
        (without_hash (on (overwritten 0xF000 (replicate 16 0) (overwritten 0x8000 (replicate 16 0) e64))))) (fresh_bus I2c)) (replicate 7 Tick) ≡
        table_of (with_job (Some (record { next = 15; left = 1 })) 9 (without_hash (on (overwritten 0xF000 (replicate 16 0) e64)))) (fresh_bus I2c) }
    ensures eight { table_after (table_of (with_job (Some (record { next = 15; left = 1 })) 9
        (without_hash (on (overwritten 0xF000 (replicate 16 0) e64)))) (fresh_bus I2c)) (Tick ∷ []) ≡
        table_of (with_job None 0 (without_hash (on e64))) (fresh_bus I2c) }
{}

/// The saved status is told once.
pub fn saved_status_is_told_once()
    ensures { replies ((Resend, 0, []) ∷ (Resend, 0, []) ∷ []) (with_job None 0 (on e64)) ≡ (0, []) ∷ (9, []) ∷ [] }
{}

/// The responses with no data that are told on the way.
pub fn responses_with_no_data()
    ensures in_progress { response_packet 8 [] ≡ 0x03 ∷ 0xF5 ∷ 0x08 ∷ 0x00 ∷ 0x00 ∷ 0x00 ∷ 0x00 ∷ 0x00 ∷ [] }
    ensures busy { response_packet 16 [] ≡ 0x03 ∷ 0xED ∷ 0x10 ∷ 0x00 ∷ 0x00 ∷ 0x00 ∷ 0x00 ∷ 0x00 ∷ [] }
    ensures success { response_packet 0 [] ≡ 0x03 ∷ 0xFD ∷ 0x00 ∷ 0x00 ∷ 0x00 ∷ 0x00 ∷ 0x00 ∷ 0x00 ∷ [] }
    ensures unavailable { response_packet 9 [] ≡ 0x03 ∷ 0xF4 ∷ 0x09 ∷ 0x00 ∷ 0x00 ∷ 0x00 ∷ 0x00 ∷ 0x00 ∷ [] }
{}
