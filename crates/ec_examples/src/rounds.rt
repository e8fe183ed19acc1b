// The rounds of a sync, on I2C.
ghost use Rattle.std.specs.Prelude.{◌≡◌, ℕ, true, false, List, [], ◌∷◌, ◌++◌};
ghost use Rattle.ec_types.specs.declared.bus.BusKind.TheVariants.{I2c};
ghost use Rattle.ec_model.specs.Packet.{request_packet, is_response};
ghost use Rattle.ec_model.specs.Heard.{Silent};
ghost use Rattle.ec_model.specs.Send.{Send};
ghost use Rattle.ec_model.specs.Rounds.{Rounds, IsShown, protocol_request};
ghost use Rattle.ec_examples.specs.I2cExchanges.{stopped, short_round, info_request, info_response, untaken, tried_round};

/// With the power off a sync is one round: a stop, which has 0xFF.
pub fn round_without_power()
    ensures { Rounds I2c (record { on = false; spare = 12000000 }) (stopped 0xFF) (stopped 0xFF ∷ []) }
{}

/// A sync of two rounds, each of which ends behind GET_PROTOCOL_INFO; the second may leave four million less.
pub fn two_short_rounds()
    ensures { Rounds I2c (record { on = true; spare = 12000000 }) (short_round ++ short_round) (short_round ∷ short_round ∷ []) }
{}

/// A start that is seen as not taken is a send of any packet, and puts none on the bus. So a round whose FLASH_INFO is tried once
/// more behind such a start asks GET_PROTOCOL_INFO once, and is one round.
pub fn round_with_a_start_that_is_not_taken()
    ensures untaken { (packet : List ℕ) → Send I2c untaken packet Silent }
    ensures info { request_packet 0x10 1 [] ≡ info_request }
    ensures response { is_response info_response ≡ true }
    ensures round { Rounds I2c (record { on = true; spare = 12000000 }) tried_round (tried_round ∷ []) }
{}

/// A short round is shown the limits of the bus.
pub fn what_a_round_is_shown()
    ensures { IsShown (record { bus = I2c; floor = 8000000 }) short_round protocol_request 12 0
        (0x08 ∷ 0x00 ∷ 0x00 ∷ 0x00 ∷ 0x80 ∷ 0x00 ∷ 0x80 ∷ 0x00 ∷ 0x01 ∷ 0x00 ∷ 0x00 ∷ 0x00 ∷ []) }
{}
