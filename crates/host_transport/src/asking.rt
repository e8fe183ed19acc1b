// One request, sent once: with the power looked at behind it, or with the room before it.
ghost use Rattle.std.specs.Prelude.{◌≡◌, ◌≤◌, ◌+◌, List, ℕ, length, drop};
ghost use Rattle.ec_types.specs.Tables.{packet_limit};
ghost use Rattle.ec_model.specs.Packet.{request_packet};
ghost use Rattle.ec_model.specs.Asks.{packet_of, has_status};
ghost use Rattle.ec_packet.specs.Read.{request_view};
ghost use Rattle.exchange_laws.specs.Served.{IsPlain};
ghost use Rattle.host_transport.specs.Once.{AsksOnce};
ghost use Rattle.host_transport.specs.Ends.{ending_of};
ghost use Rattle.host_transport.specs.Asking.{got_of, AsksOn, Leaves};

use crate::ending::Once;
use crate::sending::{Heard, send_request};
use ec_packet::{Packet, Request};
use ec_wire::Wire;

// The room that one send may take.
pub const SEND_ROOM: usize = 1500;

/// How one ask of a command ended.
#[derive(Clone, Copy, Debug, PartialEq, Eq)]
pub enum Got {
    /// It was not sent, since the controller is off.
    NoPower,
    /// It was not sent, for want of room.
    Short,
    /// No reply came, or a success whose body has another length than was wanted.
    NoReply,
    /// A reply came, with this status.
    Status(u16),
}

impl Got {
    /// Whether it is a reply with this status.
    pub fn has_status(self, status: u16) -> bool
        ensures { (body : List ℕ) → result ≡ has_status status (got_of self body) }
    {
        match self {
            Got::Status(other) => other == status,
            _ => false,
        }
    }
}

/// Sends a request once; `packet` becomes its packet. At a status, `reply` is the reply, whose body stands behind the
/// header's 8 bytes; a success has a body of `want` bytes. It takes at most 563 entries of the wire's room and one for
/// each byte of the body, and asks for 1,500.
pub fn once<W: Wire>(
    w: &mut W,
    command: u16,
    version: u8,
    body: &[u8],
    want: usize,
    packet: &mut Packet,
    reply: &mut Packet,
) -> Once
    requires room { 1500 ≤ (W.view w.old).spare }
    requires short { 8 + length body.now ≤ packet_limit (W.view w.old).bus }
    requires plain { IsPlain (request_packet command version body.now) }
    ensures asks { AsksOnce (request_packet command version body.now) want (ending_of result (drop 8 reply.new))
        (W.view w.old) (W.view w.new) }
    ensures want { result ≡ Once.Status 0 → length reply.new ≡ 8 + want }
    ensures room { (W.view w.old).spare ≤ (W.view w.new).spare + length body.now + 563 }
{
    if !w.power() {
        return Once::NoPower;
    }
    let request = Request {
        command,
        version,
        body,
    };
    let heard = send_request(w, &request, want, packet, reply);
    if !w.power() {
        return Once::NoPower;
    }
    heard.ending()
}

/// Sends a request once, where there is power, and room for it above `floor`.
pub fn ask<W: Wire>(
    w: &mut W,
    request: &Request<'_>,
    want: usize,
    floor: usize,
    packet: &mut Packet,
    reply: &mut Packet,
) -> Got
    requires short { 8 + length request.now.body.now ≤ packet_limit (W.view w.old).bus }
    requires plain { IsPlain (packet_of (request_view request.now)) }
    requires sum { floor + 1500 ≤ usize.MAX }
    ensures asks { AsksOn floor (request_view request.now) want (got_of result (drop 8 reply.new)) (W.view w.old)
        (W.view w.new) }
    ensures leaves { Leaves floor result (W.view w.new) }
{
    if !w.power() {
        return Got::NoPower;
    }
    if w.spare() < floor + SEND_ROOM {
        return Got::Short;
    }
    match send_request(w, request, want, packet, reply) {
        Heard::Status(status) => Got::Status(status),
        Heard::Bad | Heard::Silent => Got::NoReply,
    }
}
