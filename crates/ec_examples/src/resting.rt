// Where a bus is at rest.
ghost use Rattle.std.specs.Prelude.{[], ◌∷◌, IsTrue, IsFalse};
ghost use Rattle.ec_types.specs.declared.bus.BusKind.TheVariants.{Lpc, I2c, Spi};
ghost use Rattle.ec_model.specs.declared.event.Access.TheVariants.{PortOut, I2cStartWrite, I2cStartRead, I2cWrite, I2cStop, SpiSelect, SpiByte, SpiDeselect};
ghost use Rattle.ec_model.specs.Bus.{fresh_bus, replied, is_at_rest};
ghost use Rattle.ec_examples.specs.Sends.{hello_response};
ghost use Rattle.ec_examples.specs.Journals.{bus_behind};

/// LPC is at rest behind a boot, with bytes of a request in its window, and behind a byte that is no command; not while a request
/// waits, and again once that has its response, whether or not this was read.
pub fn lpc_at_rest()
    ensures fresh { IsTrue (is_at_rest (fresh_bus Lpc)) }
    ensures written { IsTrue (is_at_rest (bus_behind (fresh_bus Lpc) (PortOut 0x800 3 ∷ []))) }
    ensures refused { IsTrue (is_at_rest (bus_behind (fresh_bus Lpc) (PortOut 0x204 0xDB ∷ []))) }
    ensures asked { IsFalse (is_at_rest (bus_behind (fresh_bus Lpc) (PortOut 0x204 0xDA ∷ []))) }
    ensures replied { IsTrue (is_at_rest (replied hello_response (bus_behind (fresh_bus Lpc) (PortOut 0x204 0xDA ∷ [])))) }
{}

/// I2C is at rest behind a boot and behind each stop; not from a start on.
pub fn i2c_at_rest()
    ensures fresh { IsTrue (is_at_rest (fresh_bus I2c)) }
    ensures writing { IsFalse (is_at_rest (bus_behind (fresh_bus I2c) (I2cStartWrite ∷ I2cWrite 0xDA ∷ []))) }
    ensures written { IsTrue (is_at_rest (bus_behind (fresh_bus I2c) (I2cStartWrite ∷ I2cWrite 0xDA ∷ I2cStop ∷ []))) }
    ensures reading { IsFalse (is_at_rest (bus_behind (fresh_bus I2c) (I2cStartRead ∷ []))) }
{}

/// SPI is at rest behind a boot and behind each deselect; not from a select on, also where the response is there.
pub fn spi_at_rest()
    ensures fresh { IsTrue (is_at_rest (fresh_bus Spi)) }
    ensures selected { IsFalse (is_at_rest (bus_behind (fresh_bus Spi) (SpiSelect ∷ SpiByte 3 ∷ []))) }
    ensures replied { IsFalse (is_at_rest (replied hello_response (bus_behind (fresh_bus Spi) (SpiSelect ∷ [])))) }
    ensures deselected { IsTrue (is_at_rest (bus_behind (fresh_bus Spi) (SpiSelect ∷ SpiByte 3 ∷ SpiDeselect ∷ []))) }
{}
