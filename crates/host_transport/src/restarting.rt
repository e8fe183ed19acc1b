// A restart of the controller: a COLD, which is not sent while an erase is pending.
ghost use Rattle.std.specs.Prelude.{◌≡◌, ◌≤◌, ◌<◌, ◌+◌, false};
ghost use Rattle.ec_model.specs.Polls.{turn_of};
ghost use Rattle.command_laws.specs.Restarting.{got_of};
ghost use Rattle.host_transport.specs.Trying.{said_of};
ghost use Rattle.host_transport.specs.Polling.{turn_view, end_view, PollLeaves};
ghost use Rattle.host_transport.specs.Restarting.{
  cold_view,
  LooksOn,
  LookLeaves,
  LooksUpToOn,
  ResetsOn,
  RestartsOn,
};

use crate::asking::SEND_ROOM;
use crate::commands::command;
use crate::ending::Said;
use crate::polling::{COMMS_STATUS_LENGTH, POLL_TURNS, PollEnd, Turn, is_pending};
use crate::sending::reply_body;
use ec_packet::{Packet, write_request};
use ec_params::RebootAsk;
use ec_params::command::{GET_COMMS_STATUS, REBOOT_EC};
use ec_wire::Wire;
use host_framing::{quiet, send_cold};

/// How a restart ended.
#[derive(Clone, Copy, Debug, PartialEq, Eq)]
pub enum ColdEnd {
    /// The COLD was sent.
    Sent,
    /// The controller is off.
    NoPower,
    /// Whether an erase is pending could not be learnt, or each of 1,100 looks showed one. The COLD was not sent.
    Upset,
    /// There is too little room for another send.
    Short,
}

// What a look shows, by the answer of its command and the reply's body.
fn seen(said: Said, body: &[u8]) -> Turn
    requires { ¬ (said ≡ Said.Status 0) }
    ensures turn { turn_view result ≡ turn_of (got_of (said_of said body.now)) }
    ensures pending { result ≡ Turn.Pending → said ≡ Said.Ok }
    ensures no_power { result ≡ Turn.Ends PollEnd.NoPower → said ≡ Said.NoPower }
    ensures short { result ≡ Turn.Ends PollEnd.Short → said ≡ Said.Short }
{
    match said {
        Said::Ok if is_pending(body) => Turn::Pending,
        Said::Ok => Turn::Ends(PollEnd::Idle),
        Said::Status(_) | Said::Upset => Turn::Ends(PollEnd::Lost),
        Said::NoPower => Turn::Ends(PollEnd::NoPower),
        Said::Short => Turn::Ends(PollEnd::Short),
    }
}

// One look whether an erase is pending, and a wait where one is.
fn look<W: Wire>(w: &mut W, floor: usize, packet: &mut Packet, reply: &mut Packet) -> Turn
    requires sum { floor + 1500 ≤ usize.MAX }
    ensures looks { LooksOn floor (turn_view result) (W.view w.old) (W.view w.new) }
    ensures leaves { LookLeaves floor result (W.view w.new) }
{
    let said = command(
        w,
        GET_COMMS_STATUS,
        0,
        &[],
        COMMS_STATUS_LENGTH,
        floor,
        packet,
        reply,
    );
    let turn = seen(said, reply_body(reply));
    match turn {
        Turn::Pending => w.wait(),
        Turn::Ends(_) => {}
    }
    turn
}

// Looks until no erase is pending, at most 1,100 times.
fn look_up<W: Wire>(w: &mut W, floor: usize, packet: &mut Packet, reply: &mut Packet) -> PollEnd
    requires sum { floor + 1500 ≤ usize.MAX }
    ensures looks { LooksUpToOn floor (end_view result) (W.view w.old) (W.view w.new) }
    ensures leaves { PollLeaves floor result (W.view w.new) }
{
    for _look in 0..POLL_TURNS {
        match look(w, floor, packet, reply) {
            Turn::Pending => {}
            Turn::Ends(end) => return end,
        }
    }
    PollEnd::Lost
}

// Sends the COLD, where there is power, and room for it above `floor`.
fn reset<W: Wire>(w: &mut W, floor: usize, packet: &mut Packet) -> ColdEnd
    requires sum { floor + 1500 ≤ usize.MAX }
    ensures resets { ResetsOn floor (cold_view result) (W.view w.old) (W.view w.new) }
    ensures no_power { result ≡ ColdEnd.NoPower → (W.view w.new).on ≡ false }
    ensures short { result ≡ ColdEnd.Short → (W.view w.new).spare < floor + 1500 }
{
    if !w.power() {
        return ColdEnd::NoPower;
    }
    if w.spare() < floor + SEND_ROOM {
        return ColdEnd::Short;
    }
    write_request(REBOOT_EC, 0, &[RebootAsk::COLD, 0], packet);
    send_cold(w, packet);
    quiet(w);
    ColdEnd::Sent
}

/// Restarts the controller: it looks by GET_COMMS_STATUS whether an erase is pending, waits a tick where one is, at most
/// 1,100 times, and then sends REBOOT_EC COLD, which has no reply, and brings the bus to rest.
///
/// `packet` and `reply` are used for what is sent and read. Each send wants 1,500 entries of the wire's room above
/// `floor`; what is below is left to later commands.
pub fn cold<W: Wire>(w: &mut W, floor: usize, packet: &mut Packet, reply: &mut Packet) -> ColdEnd
    requires sum { floor + 1500 ≤ usize.MAX }
    ensures restarts { RestartsOn floor (cold_view result) (W.view w.old) (W.view w.new) }
    ensures no_power { result ≡ ColdEnd.NoPower → (W.view w.new).on ≡ false }
    ensures short { result ≡ ColdEnd.Short → (W.view w.new).spare < floor + 1500 }
{
    match look_up(w, floor, packet, reply) {
        PollEnd::Idle => reset(w, floor, packet),
        PollEnd::Lost => ColdEnd::Upset,
        PollEnd::NoPower => ColdEnd::NoPower,
        PollEnd::Short => ColdEnd::Short,
    }
}
