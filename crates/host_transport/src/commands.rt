// One command, tried up to three times.
ghost use Rattle.std.specs.Prelude.{◌≡◌, ◌≤◌, ◌<◌, ◌+◌, length, drop, false};
ghost use Rattle.ec_types.specs.Tables.{packet_limit};
ghost use Rattle.ec_model.specs.Packet.{request_packet};
ghost use Rattle.ec_packet.specs.Read.{request_of};
ghost use Rattle.exchange_laws.specs.Served.{IsPlain};
ghost use Rattle.host_transport.specs.Trying.{said_of, TriesOn};

use crate::ending::Said;
use crate::trying::{TryEnd, try_once};
use ec_packet::{Packet, Request};
use ec_types::status;
use ec_wire::Wire;

// How often a command is tried.
const TRIES: u8 = 3;

/// Sends a command, and again where a try says nothing, at most three times. A try that is told of a pending erase
/// waits for its end, at most 1,100 ticks, and sends once more; one that is told that the work goes on waits as well,
/// and asks for the status of the work.
///
/// `packet` is used for what is sent. At a status, `reply` is the reply, whose body stands behind the header's 8 bytes
/// (`reply_body`); a success has a body of `want` bytes, or of none where the saved status was asked for. Each send
/// wants 1,500 entries of the wire's room above `floor`; what is below is left to later commands.
pub fn command<W: Wire>(
    w: &mut W,
    command: u16,
    version: u8,
    body: &[u8],
    want: usize,
    floor: usize,
    packet: &mut Packet,
    reply: &mut Packet,
) -> Said
    requires short { 8 + length body.now ≤ packet_limit (W.view w.old).bus }
    requires plain { IsPlain (request_packet command version body.now) }
    requires sum { floor + 1500 ≤ usize.MAX }
    ensures tries { TriesOn floor (request_of command version body.now) want (said_of result (drop 8 reply.new))
        (W.view w.old) (W.view w.new) }
    ensures no_power { result ≡ Said.NoPower → (W.view w.new).on ≡ false }
    ensures short { result ≡ Said.Short → (W.view w.new).spare < floor + 1500 }
    ensures success { ¬ (result ≡ Said.Status 0) }
    ensures room { result ≡ Said.Ok → 1 ≤ (W.view w.new).spare }
{
    let request = Request {
        command,
        version,
        body,
    };
    let mut is_invalid = false;
    for _try in 0..TRIES {
        match try_once(w, &request, want, floor, packet, reply) {
            TryEnd::Final(said) => return said,
            TryEnd::Again { invalid } => is_invalid |= invalid,
        }
    }
    reply.clear();
    if is_invalid {
        Said::Status(status::INVALID_PARAMETER)
    } else {
        Said::Upset
    }
}
