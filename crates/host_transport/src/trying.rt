// One try of a command: asked again past a pending erase, and its saved status asked for.
ghost use Rattle.std.specs.Prelude.{◌≡◌, ◌≤◌, ◌+◌, List, ℕ, length, drop};
ghost use Rattle.ec_types.specs.Tables.{packet_limit};
ghost use Rattle.ec_model.specs.Asks.{packet_of};
ghost use Rattle.ec_model.specs.Tries.{is_unclean, try_end};
ghost use Rattle.ec_packet.specs.Read.{request_view};
ghost use Rattle.exchange_laws.specs.Served.{IsPlain};
ghost use Rattle.host_transport.specs.Asking.{got_of, Leaves};
ghost use Rattle.host_transport.specs.Trying.{try_of, AsksWhenIdleOn, AsksPastEraseOn, TriesOnceOn, TryLeaves};

use crate::asking::{Got, ask};
use crate::ending::Said;
use crate::polling::{PollEnd, poll};
use ec_packet::{Packet, Request};
use ec_params::command::RESEND_RESPONSE;
use ec_types::status;
use ec_wire::Wire;

/// What a try means for its command.
#[derive(Clone, Copy, Debug, PartialEq, Eq)]
pub enum TryEnd {
    /// The command ends so.
    Final(Said),
    /// It is to be tried again; `invalid` where the try ended in `INVALID_PARAMETER`.
    Again { invalid: bool },
}

// Whether a status leaves open if the request was carried out.
fn is_unclean(answer: u16) -> bool
    ensures { result ≡ is_unclean answer }
{
    matches!(
        answer,
        status::INVALID_PARAMETER
            | status::INVALID_CHECKSUM
            | status::IN_PROGRESS
            | status::INVALID_HEADER
            | status::REQUEST_TRUNCATED
            | status::BUSY
    )
}

// What the end of the last ask of a try means, which asked for the saved status where it is `resent`.
fn meant(resent: bool, got: Got) -> TryEnd
    ensures end { (body : List ℕ) → try_of result body ≡ try_end resent (got_of got body) }
    ensures success { ¬ (result ≡ TryEnd.Final (Said.Status 0)) }
{
    match got {
        Got::NoPower => TryEnd::Final(Said::NoPower),
        Got::Short => TryEnd::Final(Said::Short),
        Got::NoReply => TryEnd::Again { invalid: false },
        Got::Status(status::UNAVAILABLE) if resent => TryEnd::Again { invalid: false },
        Got::Status(answer) if is_unclean(answer) => TryEnd::Again {
            invalid: answer == status::INVALID_PARAMETER,
        },
        Got::Status(status::SUCCESS) => TryEnd::Final(Said::Ok),
        Got::Status(answer) => TryEnd::Final(Said::Status(answer)),
    }
}

// Asks behind a poll that ends idle.
fn ask_when_idle<W: Wire>(
    w: &mut W,
    request: &Request<'_>,
    want: usize,
    floor: usize,
    packet: &mut Packet,
    reply: &mut Packet,
) -> Got
    requires short { 8 + length request.now.body.now ≤ packet_limit (W.view w.old).bus }
    requires plain { IsPlain (packet_of (request_view request.now)) }
    requires sum { floor + 1500 ≤ usize.MAX }
    requires room { 1 ≤ (W.view w.old).spare }
    ensures asks { AsksWhenIdleOn floor (request_view request.now) want (got_of result (drop 8 reply.new)) (W.view w.old)
        (W.view w.new) }
    ensures leaves { Leaves floor result (W.view w.new) }
{
    match poll(w, floor, packet, reply) {
        PollEnd::Idle => ask(w, request, want, floor, packet, reply),
        PollEnd::Lost => Got::NoReply,
        PollEnd::NoPower => Got::NoPower,
        PollEnd::Short => Got::Short,
    }
}

// Asks, and once more behind a pending erase.
fn ask_past_erase<W: Wire>(
    w: &mut W,
    request: &Request<'_>,
    want: usize,
    floor: usize,
    packet: &mut Packet,
    reply: &mut Packet,
) -> Got
    requires short { 8 + length request.now.body.now ≤ packet_limit (W.view w.old).bus }
    requires plain { IsPlain (packet_of (request_view request.now)) }
    requires sum { floor + 1500 ≤ usize.MAX }
    ensures asks { AsksPastEraseOn floor (request_view request.now) want (got_of result (drop 8 reply.new)) (W.view w.old)
        (W.view w.new) }
    ensures leaves { Leaves floor result (W.view w.new) }
{
    let told = ask(w, request, want, floor, packet, reply);
    if !told.has_status(status::BUSY) {
        return told;
    }
    ask_when_idle(w, request, want, floor, packet, reply)
}

/// One try of a command.
pub fn try_once<W: Wire>(
    w: &mut W,
    request: &Request<'_>,
    want: usize,
    floor: usize,
    packet: &mut Packet,
    reply: &mut Packet,
) -> TryEnd
    requires short { 8 + length request.now.body.now ≤ packet_limit (W.view w.old).bus }
    requires plain { IsPlain (packet_of (request_view request.now)) }
    requires sum { floor + 1500 ≤ usize.MAX }
    ensures tries { TriesOnceOn floor (request_view request.now) want (try_of result (drop 8 reply.new)) (W.view w.old)
        (W.view w.new) }
    ensures leaves { TryLeaves floor result (W.view w.new) }
{
    let told = ask_past_erase(w, request, want, floor, packet, reply);
    if !told.has_status(status::IN_PROGRESS) {
        return meant(false, told);
    }
    let resend = Request {
        command: RESEND_RESPONSE,
        version: 0,
        body: &[],
    };
    let last = ask_when_idle(w, &resend, 0, floor, packet, reply);
    meant(true, last)
}
