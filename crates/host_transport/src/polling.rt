// Polling until no erase is pending.
ghost use Rattle.std.specs.Prelude.{◌≡◌, ◌≤◌, ◌+◌, length, drop, slice_index};
ghost use Rattle.ec_types.specs.LittleEndian.{u32_at, has_bit};
ghost use Rattle.ec_model.specs.Polls.{turn_of};
ghost use Rattle.host_transport.specs.Asking.{got_of};
ghost use Rattle.host_transport.specs.Polling.{turn_view, end_view, TakesTurnOn, PollsOn, TurnLeaves, PollLeaves};

use crate::asking::{Got, ask};
use crate::sending::reply_body;
use ec_packet::{Packet, Request};
use ec_params::command::GET_COMMS_STATUS;
use ec_types::status;
use ec_wire::Wire;

/// How many turns a poll has at most, and how many looks a restart.
pub const POLL_TURNS: u16 = 1100;

/// How many bytes the body of a reply to GET_COMMS_STATUS has.
pub const COMMS_STATUS_LENGTH: usize = 4;

// The bit that says that an erase is pending (EC_COMMS_STATUS_PROCESSING); it is in the body's first byte.
const PROCESSING: u8 = 0x01;

/// What one turn of a poll shows.
#[derive(Clone, Copy, Debug, PartialEq, Eq)]
pub enum Turn {
    /// An erase is pending.
    Pending,
    /// The poll ends so.
    Ends(PollEnd),
}

/// The end of a poll.
#[derive(Clone, Copy, Debug, PartialEq, Eq)]
pub enum PollEnd {
    /// No erase is pending.
    Idle,
    /// A turn had no answer of success, or each showed a pending erase.
    Lost,
    /// The controller is off.
    NoPower,
    /// There is too little room for another ask.
    Short,
}

/// Whether an erase is pending, by the body of a reply to GET_COMMS_STATUS.
pub fn is_pending(body: &[u8]) -> bool
    ensures { result ≡ has_bit 0x01 (u32_at 0 body.now) }
{
    match body.first() {
        Some(byte) => byte & PROCESSING != 0,
        None => false,
    }
}

// What the end of an ask shows.
fn shown(got: Got, body: &[u8]) -> Turn
    ensures { turn_view result ≡ turn_of (got_of got body.now) }
{
    match got {
        Got::Status(status::SUCCESS) if is_pending(body) => Turn::Pending,
        Got::Status(status::SUCCESS) => Turn::Ends(PollEnd::Idle),
        Got::Status(_) | Got::NoReply => Turn::Ends(PollEnd::Lost),
        Got::NoPower => Turn::Ends(PollEnd::NoPower),
        Got::Short => Turn::Ends(PollEnd::Short),
    }
}

// One turn: a wait, and then an ask whether an erase is pending.
fn take_turn<W: Wire>(w: &mut W, floor: usize, packet: &mut Packet, reply: &mut Packet) -> Turn
    requires sum { floor + 1500 ≤ usize.MAX }
    requires room { 1 ≤ (W.view w.old).spare }
    ensures takes { TakesTurnOn floor (turn_view result) (W.view w.old) (W.view w.new) }
    ensures leaves { TurnLeaves floor result (W.view w.new) }
{
    w.wait();
    let request = Request {
        command: GET_COMMS_STATUS,
        version: 0,
        body: &[],
    };
    let got = ask(w, &request, COMMS_STATUS_LENGTH, floor, packet, reply);
    shown(got, reply_body(reply))
}

/// Waits and asks until no erase is pending, at most 1,100 times.
pub fn poll<W: Wire>(w: &mut W, floor: usize, packet: &mut Packet, reply: &mut Packet) -> PollEnd
    requires sum { floor + 1500 ≤ usize.MAX }
    requires room { 1 ≤ (W.view w.old).spare }
    ensures polls { PollsOn floor (end_view result) (W.view w.old) (W.view w.new) }
    ensures leaves { PollLeaves floor result (W.view w.new) }
{
    for _turn in 0..POLL_TURNS {
        match take_turn(w, floor, packet, reply) {
            Turn::Pending => {}
            Turn::Ends(end) => return end,
        }
    }
    PollEnd::Lost
}
