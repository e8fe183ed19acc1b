// Requests and other bytes on I2C.
ghost use Rattle.std.specs.Prelude.{◌≡◌, ℕ, List, [], ◌∷◌, ◌++◌, replicate};
ghost use Rattle.ec_types.specs.declared.bus.BusKind.TheVariants.{I2c};
ghost use Rattle.ec_model.specs.declared.event.Access.TheVariants.{PortIn, I2cStartWrite, I2cWrite, I2cRead, I2cStop};
ghost use Rattle.ec_model.specs.declared.event.Event.TheVariants.{Access};
ghost use Rattle.ec_model.specs.Bus.{Writing, i2c_written, OnI2c};
ghost use Rattle.ec_examples.specs.Events.{answers, powered, i2c_shown};

/// A request of 7 bytes is truncated: its result and its length come before its response.
pub fn short_request_on_i2c()
    ensures { (flash : List ℕ) → i2c_shown (powered flash I2c)
        (0xDA ∷ 0x03 ∷ 0xFB ∷ 0x02 ∷ 0x00 ∷ 0x00 ∷ 0x00 ∷ 0x00 ∷ []) 11 ≡
        0x0D ∷ 0x08 ∷ 0x03 ∷ 0xF0 ∷ 0x0D ∷ 0x00 ∷ 0x00 ∷ 0x00 ∷ 0x00 ∷ 0x00 ∷ 0xFF ∷ [] }
{}

/// HELLO, whose response has 12 bytes.
pub fn hello_on_i2c()
    ensures { (flash : List ℕ) → i2c_shown (powered flash I2c)
        (0xDA ∷ 0x03 ∷ 0x18 ∷ 0x01 ∷ 0x00 ∷ 0x00 ∷ 0x00 ∷ 0x04 ∷ 0x00 ∷ 0xD0 ∷ 0xC0 ∷ 0xB0 ∷ 0xA0 ∷ []) 15 ≡
        0x00 ∷ 0x0C ∷ 0x03 ∷ 0x0F ∷ 0x00 ∷ 0x00 ∷ 0x04 ∷ 0x00 ∷ 0x00 ∷ 0x00 ∷ 0xD4 ∷ 0xC3 ∷ 0xB2 ∷ 0xA1 ∷ 0xFF ∷ [] }
{}

/// Bytes that do not begin with 0xDA are answered with `01 00`, and none with nothing at all.
pub fn other_bytes_on_i2c()
    ensures other { (flash : List ℕ) → i2c_shown (powered flash I2c) (0xD9 ∷ 0x03 ∷ []) 3 ≡ 0x01 ∷ 0x00 ∷ 0xFF ∷ [] }
    ensures none { (flash : List ℕ) → i2c_shown (powered flash I2c) [] 2 ≡ 0xFF ∷ 0xFF ∷ [] }
{}

/// A byte is taken between a start and a stop alone, and an access of another bus is not taken.
pub fn untaken_accesses_on_i2c()
    ensures { (flash : List ℕ) → answers (powered flash I2c)
        (Access (I2cWrite 5) ∷ Access I2cRead ∷ Access (PortIn 0x204) ∷ Access I2cStartWrite ∷ Access (I2cWrite 5) ∷ Access I2cStop
        ∷ Access (I2cWrite 5) ∷ []) ≡
        0xFF ∷ 0xFF ∷ 0xFF ∷ 0x00 ∷ 0x00 ∷ 0x00 ∷ 0xFF ∷ [] }
{}

/// The 130th byte is dropped.
pub fn last_byte_kept_on_i2c()
    ensures kept { i2c_written (Writing (replicate 128 7)) 8 ≡ record { state = OnI2c (Writing (replicate 128 7 ++ 8 ∷ [])); answer = 0 } }
    ensures dropped { i2c_written (Writing (replicate 129 7)) 8 ≡ record { state = OnI2c (Writing (replicate 129 7)); answer = 0 } }
{}
