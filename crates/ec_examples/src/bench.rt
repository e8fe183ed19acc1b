// Calls on the bench with something armed.
ghost use Rattle.std.specs.Prelude.{◌≡◌, ℕ, true, false, [], ◌∷◌, ◌++◌, replicate, Option, Some, None};
ghost use Rattle.ec_types.specs.declared.bus.BusKind.TheVariants.{Lpc};
ghost use Rattle.ec_model.specs.declared.event.Access.TheVariants.{PortOut, PortIn};
ghost use Rattle.ec_model.specs.declared.event.WorldReset.TheVariants.{Pin as ByPin};
ghost use Rattle.ec_model.specs.declared.event.WorldEvent.TheVariants.{Reset, Power, Pin, Byte};
ghost use Rattle.ec_model.specs.declared.event.Event.TheVariants.{Access, Tick, Reset as ResetEvent, Power as PowerEvent, Pin as PinEvent};
ghost use Rattle.ec_model.specs.declared.event.Entry.TheVariants.{Step, Mark};
ghost use Rattle.flash_dev.specs.declared.hurt.Hurt.TheVariants.{Whole, Failed, Cut};
ghost use Rattle.ec_model.specs.Table.{off_table};
ghost use Rattle.ec_model.specs.WholeStep.{stepped};
ghost use Rattle.ec_model.specs.Bench.{ArmedCut, Accesses, Waits, Happens, Marks, Arms, ArmsCut, due_events, still_armed, byte_among, unarmed};
ghost use Rattle.ec_model.specs.Played.{Played, PlayedAll};
ghost use Rattle.ec_examples.specs.Flashes.{e64};
ghost use Rattle.ec_examples.specs.Events.{powered, table_after};
ghost use Rattle.ec_examples.specs.Waiting.{write_waits, protect_waits, protect_failed, torn_in_the_second};
ghost use Rattle.ec_examples.specs.Entries.{plain, waited};

/// What falls before a call: what is armed for it, in the order of arming; what is armed for later comes one call nearer.
pub fn armed_events_that_are_due()
    ensures due { due_events (record { left = 1; event = Pin false } ∷ record { left = 2; event = Reset ByPin } ∷ record { left = 1; event = Byte 0x77 } ∷ []) ≡
        Pin false ∷ Byte 0x77 ∷ [] }
    ensures left { still_armed (record { left = 1; event = Pin false } ∷ record { left = 2; event = Reset ByPin } ∷ record { left = 1; event = Byte 0x77 } ∷ []) ≡
        record { left = 1; event = Reset ByPin } ∷ [] }
    ensures last_byte { byte_among (Byte 0x77 ∷ Pin false ∷ Byte 0x78 ∷ []) 0x11 ≡ 0x78 }
{}

/// A write of 0x11 to port 0x800 before which the pin goes off, and whose byte arrives as 0x77: two entries, and a reset is
/// still armed for the next call.
pub fn two_events_and_a_changed_byte()
    ensures { Played (record (unarmed (powered e64 Lpc) 0 0) {
      armed =
          record { left = 1; event = Pin false } ∷ record { left = 2; event = Reset ByPin } ∷ record { left = 1; event = Byte 0x77 } ∷ [];
    })
        (Accesses (PortOut 0x800 0x11))
        (Step (PinEvent false) 0 0 0 Whole ∷ Step (Access (PortOut 0x800 0x77)) 0 0x11 0 Whole ∷ [])
        (record (unarmed (table_after (powered e64 Lpc) (PinEvent false ∷ Access (PortOut 0x800 0x77) ∷ [])) 0 0) {
          armed = record { left = 1; event = Reset ByPin } ∷ [];
        }) }
{}

/// A read of the status port whose byte is seen as 0xFF: the controller answered 0.
pub fn changed_byte_that_is_seen()
    ensures { Played (record (unarmed (powered e64 Lpc) 0 0) { armed = record { left = 1; event = Byte 0xFF } ∷ [] })
        (Accesses (PortIn 0x204)) (Step (Access (PortIn 0x204)) 0 0 0xFF Whole ∷ []) (unarmed (powered e64 Lpc) 0 0) }
{}

/// A changed byte that is due at a wait is dropped.
pub fn changed_byte_at_a_wait()
    ensures { Played (record (unarmed (powered e64 Lpc) 0 0) { armed = record { left = 1; event = Byte 0x77 } ∷ [] })
        Waits (waited ∷ []) (unarmed (stepped (powered e64 Lpc) Tick).table 0 0) }
{}

/// The pin goes off now: no armed event falls, and none comes nearer.
pub fn event_beside_armed_ones()
    ensures { Played (record (unarmed (powered e64 Lpc) 0 0) {
      armed = record { left = 1; event = Reset ByPin } ∷ record { left = 1; event = Byte 0x77 } ∷ [];
    })
        (Happens (Pin false)) (Step (PinEvent false) 0 0 0 Whole ∷ [])
        (record (unarmed (table_after (powered e64 Lpc) (PinEvent false ∷ [])) 0 0) {
          armed = record { left = 1; event = Reset ByPin } ∷ record { left = 1; event = Byte 0x77 } ∷ [];
        }) }
{}

/// Line 7 is marked.
pub fn mark_of_a_line()
    ensures { Played (unarmed (powered e64 Lpc) 0 0) (Marks 7) (Mark 7 ∷ []) (unarmed (powered e64 Lpc) 0 0) }
{}

/// Behind 63 armed events there is a place for one more, which is the last. Behind 64 there is none.
pub fn events_armed_behind_63_and_64()
    ensures place { Played (record (unarmed (powered e64 Lpc) 0 0) { armed = replicate 63 (record { left = 9; event = Reset ByPin }) })
        (Arms 4 (Pin false) true) []
        (record (unarmed (powered e64 Lpc) 0 0) {
          armed = replicate 63 (record { left = 9; event = Reset ByPin }) ++ record { left = 4; event = Pin false } ∷ [];
        }) }
    ensures full { Played (record (unarmed (powered e64 Lpc) 0 0) { armed = replicate 64 (record { left = 9; event = Reset ByPin }) })
        (Arms 4 (Pin false) false) []
        (record (unarmed (powered e64 Lpc) 0 0) { armed = replicate 64 (record { left = 9; event = Reset ByPin }) }) }
{}

/// A cut armed at the second operation falls inside the write of three pieces that a wait carries out: the piece's first two
/// bytes become the armed ones, and its others are kept.
pub fn armed_cut_in_the_second_of_three_pieces()
    ensures { Played (record (unarmed write_waits 0 0) { cut = Some (record { left = 2; torn = 0xA5 ∷ 0xA5 ∷ [] }) }) Waits
        (Step Tick 0 0 0 Cut ∷ []) (unarmed (off_table torn_in_the_second true Lpc) 0 0) }
{}

/// Armed at the fifth, it lets the write pass, and two are left.
pub fn armed_cut_behind_a_write()
    ensures { Played (record (unarmed write_waits 0 0) { cut = Some (record { left = 5; torn = 0xA5 ∷ 0xA5 ∷ [] }) }) Waits
        (waited ∷ []) (record (unarmed (stepped write_waits Tick).table 0 0) { cut = Some (record { left = 2; torn = 0xA5 ∷ 0xA5 ∷ [] }) }) }
{}

/// With nothing armed, power is lost inside the write only where the flash counted a cut of its own.
pub fn cut_of_the_flash_itself()
    ensures counted { Played (unarmed write_waits 0 0) Waits (Step Tick 0 0 0 Cut ∷ []) (unarmed (off_table torn_in_the_second true Lpc) 0 1) }
    ensures uncounted { ¬ Played (unarmed write_waits 0 0) Waits (Step Tick 0 0 0 Cut ∷ [])
        (unarmed (off_table torn_in_the_second true Lpc) 0 0) }
{}

/// An erase that fails counts as an operation, also where it leaves the block as it was: the hash that it dropped shows that it was
/// begun. So a cut that was armed at the second operation comes one nearer, and one at the first would have fallen there.
pub fn failed_erase_under_an_armed_cut()
    ensures second { Played (record (unarmed protect_waits 0 0) { cut = Some (record { left = 2; torn = [] }) }) Waits
        (Step Tick 0 0 0 Failed ∷ []) (record (unarmed protect_failed 1 0) { cut = Some (record { left = 1; torn = [] }) }) }
    ensures first { (cut : Option ArmedCut) (faults cuts : ℕ) → ¬ Played (record (unarmed protect_waits 0 0) { cut = Some (record { left = 1; torn = [] }) }) Waits
        (Step Tick 0 0 0 Failed ∷ []) (record (unarmed protect_failed faults cuts) { cut = cut }) }
{}

/// A new cut takes the place of the armed one, and 0 disarms it, so that the write passes.
pub fn armed_cut_replaced_and_disarmed()
    ensures replaced { Played (record (unarmed write_waits 0 0) { cut = Some (record { left = 1; torn = 0xA5 ∷ [] }) })
        (ArmsCut 3 (0x5A ∷ [])) [] (record (unarmed write_waits 0 0) { cut = Some (record { left = 3; torn = 0x5A ∷ [] }) }) }
    ensures disarmed { PlayedAll (record (unarmed write_waits 0 0) { cut = Some (record { left = 1; torn = 0xA5 ∷ [] }) })
        (ArmsCut 0 [] ∷ Waits ∷ []) (waited ∷ []) (unarmed (stepped write_waits Tick).table 0 0) }
{}

/// A script on an erased flash, each of its lines behind its mark: `at 2 byte 99`, `at 3 reset pin`, `in 0x800 2`, `tick 1`. The
/// power comes on first. The second port that is read shows the changed byte, and the reset falls before the wait.
pub fn script_of_four_lines()
    ensures { PlayedAll (unarmed (off_table e64 true Lpc) 0 0)
        (Happens (Power true) ∷ Marks 1 ∷ Arms 2 (Byte 99) true ∷ Marks 2 ∷ Arms 3 (Reset ByPin) true ∷ Marks 3
        ∷ Accesses (PortIn 0x800) ∷ Accesses (PortIn 0x801) ∷ Marks 4 ∷ Waits ∷ [])
        (plain (PowerEvent true) 0 ∷ Mark 1 ∷ Mark 2 ∷ Mark 3 ∷ plain (Access (PortIn 0x800)) 0
        ∷ Step (Access (PortIn 0x801)) 0 0 99 Whole ∷ Mark 4 ∷ plain (ResetEvent ByPin) 0 ∷ waited ∷ [])
        (unarmed (table_after (off_table e64 true Lpc) (PowerEvent true ∷ ResetEvent ByPin ∷ Tick ∷ [])) 0 0) }
{}
