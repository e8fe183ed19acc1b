// Commands as the host tries them, with what a pending erase makes of them.
ghost use Rattle.std.specs.Prelude.{◌≡◌, true, false, [], ◌∷◌};
ghost use Rattle.ec_model.specs.Bodies.{hello_say};
ghost use Rattle.ec_model.specs.Packet.{response_packet};
ghost use Rattle.ec_model.specs.Heard.{Reply, Bad, Silent};
ghost use Rattle.ec_model.specs.Asks.{NoReply, Status, got};
ghost use Rattle.ec_model.specs.Polls.{Polls, Idle};
ghost use Rattle.ec_model.specs.Tries.{Tries, Answered, SaidNoPower, SaidShort, is_unclean, try_end, Again, Final};
ghost use Rattle.ec_examples.specs.Tries.{on_lpc, with_room, hello_asked, erase_asked, hello_tried, erase_tried, erase_poll, hello_thrice};

/// A reply of success has the length that is wanted, or is none; a reply of another status may have any.
pub fn replies_of_a_wanted_length()
    ensures wanted { got 4 (Reply (response_packet 0 (hello_say 5))) ≡ Status 0 (5 ∷ 0 ∷ 0 ∷ 0 ∷ []) }
    ensures other { got 5 (Reply (response_packet 0 (hello_say 5))) ≡ NoReply }
    ensures refused { got 4 (Reply (response_packet 3 [])) ≡ Status 3 [] }
    ensures bad { got 4 Bad ≡ NoReply }
    ensures silent { got 4 Silent ≡ NoReply }
{}

/// Nothing is sent where the power is off, or where the room is one short of 1,500 beyond what is to be left.
pub fn commands_that_are_not_sent()
    ensures off { Tries (on_lpc 0) hello_asked 4 (record { on = false; spare = 200000 }) [] SaidNoPower }
    ensures short { Tries (on_lpc 1000) hello_asked 4 (with_room 2499) [] SaidShort }
{}

/// A HELLO that is answered at once.
pub fn command_that_is_answered_at_once()
    ensures { Tries (on_lpc 0) hello_asked 4 (with_room 1500) hello_tried (Answered 0 (0xD4 ∷ 0xC3 ∷ 0xB2 ∷ 0xA1 ∷ [])) }
{}

/// A poll of two turns: each waits once and asks GET_COMMS_STATUS, which shows the erase and then none.
pub fn poll_until_no_erase_is_pending()
    ensures { Polls 1100 (on_lpc 0) (with_room 200000) erase_poll Idle }
{}

/// An erase while another one is pending: it is told `BUSY`, waits for the other, is told `IN_PROGRESS`, waits again, and asks
/// for its status, which is success.
pub fn erase_behind_another()
    ensures { Tries (on_lpc 0) erase_asked 0 (with_room 200000) erase_tried (Answered 0 []) }
{}

/// Three tries that end in status 3, in a bad sum and in no reply of the wanted length: the answer is 3.
pub fn three_tries_that_say_nothing()
    ensures { Tries (on_lpc 0) hello_asked 4 (with_room 200000) hello_thrice (Answered 3 []) }
{}

/// These statuses leave open whether the request was carried out; a saved status of 9 does too.
pub fn statuses_that_say_nothing()
    ensures unclean { is_unclean 3 ≡ true }
    ensures clean { is_unclean 4 ≡ false }
    ensures saved { try_end true (Status 9 []) ≡ Again false }
    ensures asked { try_end false (Status 9 []) ≡ Final (Answered 9 []) }
    ensures refused { try_end false (Status 3 []) ≡ Again true }
{}
