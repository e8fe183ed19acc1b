// Requests on LPC.
ghost use Rattle.std.specs.Prelude.{◌≡◌, ℕ, List, [], ◌∷◌, ◌++◌};
ghost use Rattle.ec_types.specs.declared.bus.BusKind.TheVariants.{Lpc};
ghost use Rattle.ec_model.specs.declared.event.Access.TheVariants.{PortOut, PortIn, SpiSelect};
ghost use Rattle.ec_model.specs.declared.event.Event.TheVariants.{Access, Tick};
ghost use Rattle.ec_examples.specs.Events.{answers, powered, lpc_shown, port_ins, port_outs};

/// A HELLO whose checksum is 0x19 and not 0x18.
pub fn bad_sum_on_lpc()
    ensures { (flash : List ℕ) → lpc_shown (powered flash Lpc)
        (0x03 ∷ 0x19 ∷ 0x01 ∷ 0x00 ∷ 0x00 ∷ 0x00 ∷ 0x04 ∷ 0x00 ∷ 0xD0 ∷ 0xC0 ∷ 0xB0 ∷ 0xA0 ∷ []) 8 ≡
        0x07 ∷ 0x03 ∷ 0xF6 ∷ 0x07 ∷ 0x00 ∷ 0x00 ∷ 0x00 ∷ 0x00 ∷ 0x00 ∷ [] }
{}

/// HELLO answers x + 0x01020304 modulo 2^32: here of 0xFFFFFFFF.
pub fn hello_that_wraps_on_lpc()
    ensures { (flash : List ℕ) → lpc_shown (powered flash Lpc)
        (0x03 ∷ 0xFC ∷ 0x01 ∷ 0x00 ∷ 0x00 ∷ 0x00 ∷ 0x04 ∷ 0x00 ∷ 0xFF ∷ 0xFF ∷ 0xFF ∷ 0xFF ∷ []) 12 ≡
        0x00 ∷ 0x03 ∷ 0xF0 ∷ 0x00 ∷ 0x00 ∷ 0x04 ∷ 0x00 ∷ 0x00 ∷ 0x00 ∷ 0x03 ∷ 0x03 ∷ 0x02 ∷ 0x01 ∷ [] }
{}

/// A header that names 249 bytes of data: the window has 248 behind it.
pub fn truncated_data_on_lpc()
    ensures { (flash : List ℕ) → lpc_shown (powered flash Lpc)
        (0x03 ∷ 0x00 ∷ 0x01 ∷ 0x00 ∷ 0x00 ∷ 0x00 ∷ 0xF9 ∷ 0x00 ∷ []) 8 ≡
        0x0D ∷ 0x03 ∷ 0xF0 ∷ 0x0D ∷ 0x00 ∷ 0x00 ∷ 0x00 ∷ 0x00 ∷ 0x00 ∷ [] }
{}

/// The status byte is 0 at first, 6 while a request waits, and 1 once it was served, until the result byte is read. While a
/// request waits the result byte is 0xFF, and what is written is ignored.
pub fn status_bytes_on_lpc()
    ensures { (flash : List ℕ) → answers (powered flash Lpc)
        (Access (PortIn 0x204) ∷ Access (PortOut 0x204 0xDA) ∷ Access (PortIn 0x204) ∷ Access (PortIn 0x200) ∷ Access (PortIn 0x204)
        ∷ Access (PortOut 0x800 0x55) ∷ Access (PortIn 0x800) ∷ Access (PortOut 0x204 0xDA) ∷ Tick ∷ Access (PortIn 0x204)
        ∷ Access (PortIn 0x200) ∷ Access (PortIn 0x204) ∷ []) ≡
        0x00 ∷ 0x00 ∷ 0x06 ∷ 0xFF ∷ 0x06 ∷ 0x00 ∷ 0x00 ∷ 0x00 ∷ 0x00 ∷ 0x01 ∷ 0x0C ∷ 0x00 ∷ [] }
{}

/// A byte other than 0xDA is refused with result 1; other ports have nothing, and so has another bus.
pub fn other_bytes_on_lpc()
    ensures { (flash : List ℕ) → answers (powered flash Lpc)
        (Access (PortOut 0x204 0xDB) ∷ Access (PortIn 0x204) ∷ Access (PortIn 0x200) ∷ Access (PortIn 0x204) ∷ Access (PortOut 0x900 0x55)
        ∷ Access (PortIn 0x900) ∷ Access (PortIn 0x201) ∷ Access SpiSelect ∷ []) ≡
        0x00 ∷ 0x01 ∷ 0x01 ∷ 0x00 ∷ 0x00 ∷ 0xFF ∷ 0xFF ∷ 0xFF ∷ [] }
{}

/// A response is stored over the front of the window, and the rest is kept.
pub fn rest_of_the_window_is_kept_on_lpc()
    ensures { (flash : List ℕ) → answers (powered flash Lpc)
        (port_outs 0x8FF (0x55 ∷ []) ++ port_outs 0x204 (0xDA ∷ []) ++ Tick ∷ [] ++ port_ins 0x800 8 ++ port_ins 0x8FF 1) ≡
        0x00 ∷ 0x00 ∷ 0x00 ∷ 0x03 ∷ 0xF1 ∷ 0x0C ∷ 0x00 ∷ 0x00 ∷ 0x00 ∷ 0x00 ∷ 0x00 ∷ 0x55 ∷ [] }
{}
