// One send of a request, and what came back.
ghost use Rattle.std.specs.Prelude.{◌≡◌, ◌≤◌, ◌+◌, List, ℕ, length, drop, IsTrue};
ghost use Rattle.ec_types.specs.Tables.{packet_limit};
ghost use Rattle.ec_model.specs.Packet.{is_response, response_view};
ghost use Rattle.ec_model.specs.Asks.{packet_of};
ghost use Rattle.ec_packet.specs.Read.{request_view};
ghost use Rattle.exchange_laws.specs.Served.{IsPlain};
ghost use Rattle.host_transport.specs.Once.{said_by};
ghost use Rattle.host_transport.specs.Ends.{ending_of};
ghost use Rattle.host_transport.specs.Sending.{heard_ending, SendsRequest};

use crate::ending::Once;
use ec_packet::{HEADER_LENGTH, Packet, Request, decode_response, write_request};
use ec_types::status;
use ec_wire::Wire;
use host_framing::{Raw, send};

/// What came back of a send.
#[derive(Clone, Copy, Debug, PartialEq, Eq)]
pub enum Heard {
    /// A reply, with this status.
    Status(u16),
    /// No reply, or a success whose body has another length than was wanted.
    Bad,
    /// Nothing.
    Silent,
}

impl Heard {
    /// How a request ended of which this came back.
    pub fn ending(self) -> Once
        ensures { (body : List ℕ) → ending_of result body ≡ heard_ending self body }
    {
        match self {
            Heard::Status(status) => Once::Status(status),
            Heard::Bad => Once::Bad,
            Heard::Silent => Once::Silent,
        }
    }
}

/// Sends a request; `packet` becomes its packet. At a status, `reply` is the reply.
pub fn send_request<W: Wire>(
    w: &mut W,
    request: &Request<'_>,
    want: usize,
    packet: &mut Packet,
    reply: &mut Packet,
) -> Heard
    requires room { 1500 ≤ (W.view w.old).spare }
    requires short { 8 + length request.now.body.now ≤ packet_limit (W.view w.old).bus }
    requires plain { IsPlain (packet_of (request_view request.now)) }
    ensures sends { SendsRequest (packet_of (request_view request.now)) want (heard_ending result (drop 8 reply.new))
        (W.view w.old) (W.view w.new) }
    ensures want { result ≡ Heard.Status 0 → length reply.new ≡ 8 + want }
    ensures room { (W.view w.old).spare ≤ (W.view w.new).spare + length request.now.body.now + 563 }
{
    write_request(request.command, request.version, request.body, packet);
    match send(w, packet, reply) {
        Raw::Reply => read_reply(want, reply),
        Raw::Bad => Heard::Bad,
        Raw::Silent => Heard::Silent,
    }
}

// What a reply says.
fn read_reply(want: usize, reply: &Packet) -> Heard
    requires { IsTrue (is_response reply.now) }
    ensures ending { heard_ending result (drop 8 reply.now) ≡ said_by want (response_view reply.now) }
    ensures want { result ≡ Heard.Status 0 → length reply.now ≡ 8 + want }
{
    match decode_response(reply.as_slice()) {
        Ok(response) => {
            if response.status == status::SUCCESS && response.body.len() != want {
                Heard::Bad
            } else {
                Heard::Status(response.status)
            }
        }
        Err(_) => Heard::Bad,
    }
}

/// The body of a reply: its bytes behind the header, and none where it is shorter.
pub fn reply_body(reply: &Packet) -> &[u8]
    ensures body { result.now ≡ drop 8 reply.now }
{
    reply.as_slice().get(HEADER_LENGTH..).unwrap_or(&[])
}
