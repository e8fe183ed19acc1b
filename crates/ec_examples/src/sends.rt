// One request as the host sends it on each bus: undisturbed, with a reset in it or behind it, and with a changed byte; and one
// that has no reply.
ghost use Rattle.std.specs.Prelude.{◌≡◌, ℕ, IsTrue, IsFalse, List, [], ◌∷◌, length};
ghost use Rattle.ec_types.specs.declared.bus.BusKind.TheVariants.{Lpc, I2c, Spi};
ghost use Rattle.ec_model.specs.Heard.{Heard, Reply, Bad, Silent};
ghost use Rattle.ec_model.specs.Send.{Send, Cold, Exchange, cold_packet, IsTransaction, OneByte};
ghost use Rattle.ec_model.specs.Upset.{has_one_byte};
ghost use Rattle.ec_examples.specs.Sends.{hello_request, hello_response, hello_lpc, hello_i2c, hello_spi, reset_lpc, reset_i2c, reset_spi, changed_lpc, changed_spi, changed_twice, changed_beside_a_reset, changed_then_reset, hello_behind_a_reset, cold_request, cold_lpc, cold_i2c, cold_spi};

/// HELLO's 12 bytes and its response, on LPC: 28 accesses and one wait.
pub fn hello_over_lpc()
    ensures exchange { (flash : List ℕ) → Exchange Lpc (hello_lpc flash) hello_request hello_response }
    ensures entries { (flash : List ℕ) → length (hello_lpc flash) ≡ 29 }
{}

/// The same on I2C: the result byte and the length come before the response.
pub fn hello_over_i2c()
    ensures { (flash : List ℕ) → Exchange I2c (hello_i2c flash) hello_request hello_response }
{}

/// The same on SPI: one wait for 0xEC.
pub fn hello_over_spi()
    ensures { (flash : List ℕ) → Exchange Spi (hello_spi flash) hello_request hello_response }
{}

/// A reset behind the command byte on LPC: the status is 0 then, and eight zeros are no response.
pub fn reset_over_lpc()
    ensures { (flash : List ℕ) → Send Lpc (reset_lpc flash) hello_request Bad }
{}

/// A reset before the read on I2C: no reply is there, so the result and the length are 0xFF.
pub fn reset_over_i2c()
    ensures { (flash : List ℕ) → Send I2c (reset_i2c flash) hello_request Bad }
{}

/// A reset inside the packet on SPI: the controller is not selected then, and says 0xFF.
pub fn reset_over_spi()
    ensures { (flash : List ℕ) → Send Spi (reset_spi flash) hello_request Silent }
{}

/// A byte of the response that is changed on LPC: its sum is wrong.
pub fn changed_byte_over_lpc()
    ensures heard { Send Lpc changed_lpc hello_request Bad }
    ensures one { IsTrue (has_one_byte changed_lpc) }
{}

/// The 0xEC that is changed to 0xFA on SPI: the host waits, and then hears the response's first byte in its place.
pub fn changed_byte_over_spi()
    ensures heard { Send Spi changed_spi hello_request Bad }
    ensures one { IsTrue (has_one_byte changed_spi) }
{}

/// Two changed bytes are more than a transaction has to bear, and so is one beside a reset.
pub fn more_than_one_changed_byte()
    ensures two { IsFalse (has_one_byte changed_twice) }
    ensures beside { IsFalse (has_one_byte changed_beside_a_reset) }
    ensures heard { Send Lpc changed_beside_a_reset hello_request Bad }
{}

/// Two changed bytes that leave the sum right are heard as a reply: no journal may have them in one transaction.
pub fn two_changed_bytes_over_lpc()
    ensures heard { Send Lpc changed_twice hello_request (Reply
        (0x03 ∷ 0x0F ∷ 0x00 ∷ 0x00 ∷ 0x04 ∷ 0x00 ∷ 0x00 ∷ 0x00 ∷ 0xD5 ∷ 0xC3 ∷ 0xB2 ∷ 0xA0 ∷ [])) }
    ensures refused { ¬ OneByte Lpc changed_twice }
{}

/// A send ends with its last call: with a reset behind it the entries are no send, and no other transaction.
pub fn reset_behind_a_send()
    ensures send { (packet : List ℕ) (heard : Heard) → ¬ Send Lpc changed_then_reset packet heard }
    ensures other { ¬ IsTransaction Lpc changed_then_reset }
{}

/// That reset falls before the first call of the next send, and belongs to it: neither has more to bear than one changed byte.
pub fn reset_between_two_sends()
    ensures first { IsTrue (has_one_byte changed_lpc) }
    ensures second { IsTrue (has_one_byte hello_behind_a_reset) }
    ensures heard { Send Lpc hello_behind_a_reset hello_request (Reply hello_response) }
{}

/// A COLD, which has no reply: a wait on LPC, a start of a read on I2C and a wait on SPI have the controller carry it out.
pub fn colds()
    ensures packet { cold_packet ≡ cold_request }
    ensures lpc { Cold Lpc cold_packet cold_lpc }
    ensures i2c { Cold I2c cold_packet cold_i2c }
    ensures spi { Cold Spi cold_packet cold_spi }
{}
