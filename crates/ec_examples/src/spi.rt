// Requests and other bytes on SPI.
ghost use Rattle.std.specs.Prelude.{◌≡◌, ℕ, List, [], ◌∷◌, ◌++◌, replicate};
ghost use Rattle.ec_types.specs.declared.bus.BusKind.TheVariants.{Spi};
ghost use Rattle.ec_model.specs.declared.event.Access.TheVariants.{SpiSelect, SpiByte, SpiDeselect};
ghost use Rattle.ec_model.specs.declared.event.Event.TheVariants.{Access, Tick};
ghost use Rattle.ec_examples.specs.Events.{answers, powered, spi_bytes};

/// HELLO: 0xF8 and 0xF9 while it comes, 0xFA until a tick, then 0xEC, the response, and 0xED for ever.
pub fn hello_on_spi()
    ensures { (flash : List ℕ) → answers (powered flash Spi)
        (Access SpiSelect ∷ []
        ++ spi_bytes (0x03 ∷ 0x18 ∷ 0x01 ∷ 0x00 ∷ 0x00 ∷ 0x00 ∷ 0x04 ∷ 0x00 ∷ 0xD0 ∷ 0xC0 ∷ 0xB0 ∷ 0xA0 ∷ 0 ∷ 0 ∷ [])
        ++ Tick ∷ [] ++ spi_bytes (replicate 15 0) ++ Access SpiDeselect ∷ []) ≡
        0x00 ∷ 0xF8 ∷ 0xF9 ∷ 0xF9 ∷ 0xF9 ∷ 0xF9 ∷ 0xF9 ∷ 0xF9 ∷ 0xF9 ∷ 0xF9 ∷ 0xF9 ∷ 0xF9 ∷ 0xF9 ∷ 0xFA ∷ 0xFA
        ∷ 0x00 ∷ 0xEC ∷ 0x03 ∷ 0x0F ∷ 0x00 ∷ 0x00 ∷ 0x04 ∷ 0x00 ∷ 0x00 ∷ 0x00 ∷ 0xD4 ∷ 0xC3 ∷ 0xB2 ∷ 0xA1 ∷ 0xED ∷ 0xED ∷ 0x00 ∷ [] }
{}

/// A header that names 537 bytes of data is bad from its last byte on; one that names 536 is not.
pub fn too_long_on_spi()
    ensures bad { (flash : List ℕ) → answers (powered flash Spi)
        (Access SpiSelect ∷ [] ++ spi_bytes (0x03 ∷ 0x00 ∷ 0x01 ∷ 0x00 ∷ 0x00 ∷ 0x00 ∷ 0x19 ∷ 0x02 ∷ 0x55 ∷ 0x55 ∷ [])) ≡
        0x00 ∷ 0xF8 ∷ 0xF9 ∷ 0xF9 ∷ 0xF9 ∷ 0xF9 ∷ 0xF9 ∷ 0xF9 ∷ 0xF9 ∷ 0xFB ∷ 0xFB ∷ [] }
    ensures taken { (flash : List ℕ) → answers (powered flash Spi)
        (Access SpiSelect ∷ [] ++ spi_bytes (0x03 ∷ 0x00 ∷ 0x01 ∷ 0x00 ∷ 0x00 ∷ 0x00 ∷ 0x18 ∷ 0x02 ∷ 0x55 ∷ 0x55 ∷ [])) ≡
        0x00 ∷ 0xF8 ∷ 0xF9 ∷ 0xF9 ∷ 0xF9 ∷ 0xF9 ∷ 0xF9 ∷ 0xF9 ∷ 0xF9 ∷ 0xF9 ∷ 0xF9 ∷ [] }
{}

/// A byte that comes while it is not selected is answered with 0xFF, and a deselect drops a request that is due.
pub fn deselected_spi()
    ensures { (flash : List ℕ) → answers (powered flash Spi)
        (Access (SpiByte 3) ∷ Access SpiSelect ∷ [] ++ spi_bytes (0x03 ∷ 0xFC ∷ 0x01 ∷ 0x00 ∷ 0x00 ∷ 0x00 ∷ 0x00 ∷ 0x00 ∷ 0x00 ∷ [])
        ++ Access SpiDeselect ∷ Tick ∷ Access (SpiByte 0) ∷ Access SpiSelect ∷ Access (SpiByte 0) ∷ []) ≡
        0xFF ∷ 0x00 ∷ 0xF8 ∷ 0xF9 ∷ 0xF9 ∷ 0xF9 ∷ 0xF9 ∷ 0xF9 ∷ 0xF9 ∷ 0xF9 ∷ 0xFA ∷ 0x00 ∷ 0x00 ∷ 0xFF ∷ 0x00 ∷ 0xF8 ∷ [] }
{}
