// A line, carried out: its commands are sent one after the other.
ghost use Rattle.std.specs.Prelude.{◌≡◌, ◌≤◌, ◌+◌, ◌↔◌, ◌&&◌, ◌==◌, List, ℕ, [], length, drop, true, IsTrue};
ghost use Rattle.flash_dev.specs.Counts.{Rose};
ghost use Rattle.ec_types.specs.Tables.{packet_limit};
ghost use Rattle.ec_model.specs.Tries.{Answered};
ghost use Rattle.command_laws.specs.Carried.{tells_any};
ghost use Rattle.ectool_lines.specs.Tools.{IsInRange};
ghost use Rattle.exchange_laws.specs.Served.{IsPlain, is_cold_body};
ghost use Rattle.host_transport.specs.Ends.{ending_of};
ghost use Rattle.host_transport.specs.Once.{AsksOnce};
ghost use Rattle.host_transport.specs.Restarting.{cold_view, RestartsOn};
ghost use Rattle.host_transport.specs.Trying.{said_of, TriesOn};
ghost use Rattle.ectool_lines.specs.Requests.{packet_of, request_of};
ghost use Rattle.ectool_lines.specs.Sending.{asked_of};
ghost use Rattle.ectool_lines.specs.Asking.{HearsOn, said_once, said_restart, CarriesTool};
ghost use Rattle.ectool_lines.specs.Running.{RunsTool};

use crate::Tool;
use crate::commands::Command;
use crate::replies::add_reply;
use crate::text::{close, refuse};
use bench_io::{LineText, PrintErr, Sink, print};
use ec_packet::Packet;
use ec_params::RebootAsk;
use ec_params::command::{REBOOT_EC, RESEND_RESPONSE, TEST_PROTOCOL};
use ec_types::{limit_of, status};
use ec_wire::Wire;
use host_transport::{ColdEnd, Once, Said, cold, once, reply_body};

/// The room that a line's commands have on a wire.
const ROOM: usize = 200_000;

/// What lines are carried out in: the text of the one at hand, and the packets of its commands. What they had is no
/// matter.
#[derive(Drop)]
pub struct Buffers {
    pub text: LineText,
    body: Packet,
    packet: Packet,
    reply: Packet,
}

impl Buffers {
    /// All of them empty.
    pub fn new() -> Buffers {
        Buffers {
            text: LineText::new(),
            body: Packet::new(),
            packet: Packet::new(),
            reply: Packet::new(),
        }
    }
}

/// Carries out a line and prints its text: its commands go one after the other, up to the first that is not answered
/// with success. Each is tried up to three times, but `test` and `resend`, which are sent once, and the restart of
/// `reboot_ec cold`.
pub fn run<W: Wire, K: Sink>(
    w: &mut W,
    tool: &Tool<'_>,
    buffers: &mut Buffers,
    sink: &mut K,
) -> Result<(), PrintErr>
    requires within { IsInRange tool.now }
    ensures runs { RunsTool result tool.now (W.view w.old) (W.view w.new) (K.written sink.old) (K.written sink.new) }
    ensures cause { result ≡ Err PrintErr.Sink → Rose (K.faults sink.old) (K.faults sink.new) }
    ensures later { K.faults sink.old ≤ K.faults sink.new }
{
    w.reserve(ROOM)?;
    carry_out(w, tool, buffers);
    print(sink, buffers.text.as_bytes())
}

// Sends the line's commands, up to the first that is not answered with success, and leaves the line's text.
fn carry_out<W: Wire>(w: &mut W, tool: &Tool<'_>, buffers: &mut Buffers)
    requires room { 200000 ≤ (W.view w.old).spare }
    requires within { IsInRange tool.now }
    ensures { CarriesTool tool.now buffers.new.text (W.view w.old) (W.view w.new) }
{
    let limit = limit_of(w.kind());
    buffers.text.clear();
    for k in 0..tool.count(limit) {
        let command = tool.command(limit, k, &mut buffers.body);
        let said = send(w, command, buffers);
        if !is_success(said) {
            refuse(&mut buffers.text, said);
            return;
        }
        add_reply(&mut buffers.text, tool, reply_body(&buffers.reply));
    }
    close(&mut buffers.text, tool);
}

// Whether a command was answered with success.
fn is_success(said: Said) -> bool
    ensures { (body : List ℕ) → IsTrue result ↔ (said_of said body ≡ Answered 0 body) }
{
    matches!(said, Said::Ok | Said::Status(status::SUCCESS))
}

// Whether a command is sent once, since it is answered with whatever status was asked for or is saved.
fn is_sent_once(number: u16) -> bool
    ensures { result ≡ tells_any number }
{
    number == TEST_PROTOCOL || number == RESEND_RESPONSE
}

// Whether a command is a COLD.
fn is_cold(number: u16, body: &Packet) -> bool
    ensures { result ≡ ((number == 0xD2) && is_cold_body body.now) }
{
    let body = body.as_slice();
    number == REBOOT_EC && body.len() == 2 && body[0] == RebootAsk::COLD && body[1] == 0
}

// What is said of a request that was sent once.
fn said_once(ended: Once) -> Said
    ensures { (body : List ℕ) → said_of result body ≡ said_once (ending_of ended body) }
{
    match ended {
        Once::Status(status) => Said::Status(status),
        Once::Bad | Once::Silent => Said::Upset,
        Once::NoPower => Said::NoPower,
    }
}

// What is said of a restart.
fn said_restart(ended: ColdEnd) -> Said
    ensures { said_of result [] ≡ said_restart (cold_view ended) }
{
    match ended {
        ColdEnd::Sent => Said::Ok,
        ColdEnd::NoPower => Said::NoPower,
        ColdEnd::Upset => Said::Upset,
        ColdEnd::Short => Said::Short,
    }
}

// Sends a command, whose body stands in its buffer.
fn send<W: Wire>(w: &mut W, command: Command, buffers: &mut Buffers) -> Said
    requires room { tells_any command.number ≡ true → 1500 ≤ (W.view w.old).spare }
    requires short { 8 + length buffers.old.body ≤ packet_limit (W.view w.old).bus }
    ensures hears { HearsOn (asked_of command buffers.old.body) (said_of result (drop 8 buffers.new.reply)) (W.view w.old)
        (W.view w.new) }
    ensures text { buffers.new.text ≡ buffers.old.text }
{
    if is_sent_once(command.number) {
        said_once(send_once(w, command, buffers))
    } else if is_cold(command.number, &buffers.body) {
        said_restart(restart(w, buffers))
    } else {
        send_tried(w, command, buffers)
    }
}

// Sends it once.
fn send_once<W: Wire>(w: &mut W, command: Command, buffers: &mut Buffers) -> Once
    requires room { 1500 ≤ (W.view w.old).spare }
    requires short { 8 + length buffers.old.body ≤ packet_limit (W.view w.old).bus }
    requires plain { IsPlain (packet_of (asked_of command buffers.old.body)) }
    ensures asks { AsksOnce (packet_of (asked_of command buffers.old.body)) command.want (ending_of result
        (drop 8 buffers.new.reply)) (W.view w.old) (W.view w.new) }
    ensures text { buffers.new.text ≡ buffers.old.text }
{
    once(
        w,
        command.number,
        command.version,
        buffers.body.as_slice(),
        command.want,
        &mut buffers.packet,
        &mut buffers.reply,
    )
}

// Restarts the controller, with no room left to other commands. There is no reply.
fn restart<W: Wire>(w: &mut W, buffers: &mut Buffers) -> ColdEnd
    ensures restarts { RestartsOn 0 (cold_view result) (W.view w.old) (W.view w.new) }
    ensures reply { buffers.new.reply ≡ [] }
    ensures text { buffers.new.text ≡ buffers.old.text }
{
    let end = cold(w, 0, &mut buffers.packet, &mut buffers.reply);
    buffers.reply.clear();
    end
}

// Sends it up to three times, with no room left to other commands.
fn send_tried<W: Wire>(w: &mut W, command: Command, buffers: &mut Buffers) -> Said
    requires short { 8 + length buffers.old.body ≤ packet_limit (W.view w.old).bus }
    requires plain { IsPlain (packet_of (asked_of command buffers.old.body)) }
    ensures tries { TriesOn 0 (request_of (asked_of command buffers.old.body)) command.want (said_of result
        (drop 8 buffers.new.reply)) (W.view w.old) (W.view w.new) }
    ensures text { buffers.new.text ≡ buffers.old.text }
{
    host_transport::command(
        w,
        command.number,
        command.version,
        buffers.body.as_slice(),
        command.want,
        0,
        &mut buffers.packet,
        &mut buffers.reply,
    )
}
