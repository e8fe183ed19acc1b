// The sequences on LPC: a window of 256 bytes for the packet, a port that shows the status and takes the command byte,
// and one that shows the low byte of the result.
ghost use Rattle.std.specs.Prelude.{◌≡◌, ◌≤◌, ◌+◌, ◌∷◌, [], ℕ, length};
ghost use Rattle.ec_model.specs.Bus.{is_busy};
ghost use Rattle.ec_types.specs.declared.bus.BusKind.TheVariants.{Lpc as LpcKind};
ghost use Rattle.host_framing.specs.Parts.{
  PollsWaited,
  PollsSpaced,
  WritesWindow,
  ReadsWindow,
  LpcAsks,
  LpcHears,
  Quiets,
  Sends,
};
ghost use Rattle.host_framing.specs.Heard.{heard_of};
ghost use Rattle.host_framing.specs.Clean.{
  UndisturbedWhereCalm,
  ServesWhereCalm,
  SettlesWhereCalm,
  ExchangesWhereCalm,
  CausedWhereCalm,
  RestsBehind,
};
ghost use Rattle.host_framing.specs.Room.{TakesWhereCalm};
ghost use Rattle.host_framing.specs.Request.{IsRequest};

use crate::calls::{Raw, did, judge, named_length, waited};
use ec_model::Access;
use ec_packet::{HEADER_LENGTH, Packet};
use ec_types::{COMMAND_PROTOCOL_3, lpc};
use ec_wire::Wire;

// A look at the status.
const LOOK: Access = Access::PortIn {
    port: lpc::COMMAND_PORT,
};

// The command byte, which has the controller serve the packet in the window.
const COMMAND: Access = Access::PortOut {
    port: lpc::COMMAND_PORT,
    byte: COMMAND_PROTOCOL_3,
};

// A read of the result byte.
const RESULT: Access = Access::PortIn {
    port: lpc::DATA_PORT,
};

// How many ports of the window hold the header of a packet.
const HEADER: u16 = HEADER_LENGTH as u16;

// The most bytes of a body for which the window has room behind a header.
const LARGEST_BODY: u16 = lpc::PACKET_SIZE - HEADER;

// Whether a status says busy.
fn busy(status: u8) -> bool
    ensures { result ≡ is_busy status }
{
    status & lpc::BUSY_MASK != 0
}

// Waits and reads the status until it is not busy, at most four times.
fn poll_waited<W: Wire>(w: &mut W) -> bool
    requires { 8 ≤ (W.view w.old).spare }
    ensures polls { PollsWaited result (W.view w.old) (W.view w.new) }
    ensures room { (W.view w.old).spare ≤ (W.view w.new).spare + 8 }
{
    for _turn in 0..4u8 {
        waited(w);
        let status = did(w, LOOK);
        if !busy(status) {
            return true;
        }
    }
    false
}

// Reads the status until it is not busy, with a wait between each two reads, at most five times.
fn poll_spaced<W: Wire>(w: &mut W) -> bool
    requires { 9 ≤ (W.view w.old).spare }
    ensures polls { PollsSpaced result (W.view w.old) (W.view w.new) }
    ensures room { (W.view w.old).spare ≤ (W.view w.new).spare + 9 }
{
    let status = did(w, LOOK);
    if !busy(status) {
        return true;
    }
    poll_waited(w)
}

// Writes the bytes to the window.
fn write_window<W: Wire>(w: &mut W, bytes: &[u8])
    requires short { length bytes.now ≤ 256 }
    requires room { length bytes.now ≤ (W.view w.old).spare }
    ensures writes { WritesWindow bytes.now (W.view w.old) (W.view w.new) }
    ensures room { (W.view w.new).spare + length bytes.now ≡ (W.view w.old).spare }
{
    for (place, byte) in bytes.iter().enumerate() {
        did(
            w,
            Access::PortOut {
                port: lpc::PACKET_PORT + place as u16,
                byte: *byte,
            },
        );
    }
}

// Reads so many bytes from the ports on, and appends them.
fn read_window<W: Wire>(w: &mut W, port: u16, count: u16, reply: &mut Packet)
    requires ports { port + count ≤ 65535 }
    requires short { length reply.old + count ≤ 544 }
    requires room { count ≤ (W.view w.old).spare }
    ensures reads { ReadsWindow port count reply.old reply.new (W.view w.old) (W.view w.new) }
    ensures room { (W.view w.new).spare + count ≡ (W.view w.old).spare }
{
    for place in 0..count {
        let byte = did(w, Access::PortIn { port: port + place });
        reply.push(byte);
    }
}

// Waits until the bus is not busy, and writes the packet and the command byte. Whether that came about.
pub fn ask_lpc<W: Wire>(w: &mut W, packet: &Packet) -> bool
    requires short { length packet.now ≤ 256 }
    requires room { 266 ≤ (W.view w.old).spare }
    ensures asks { LpcAsks packet.now result (W.view w.old) (W.view w.new) }
    ensures room { (W.view w.old).spare ≤ (W.view w.new).spare + 266 }
{
    if !poll_spaced(w) {
        return false;
    }
    write_window(w, packet.as_slice());
    did(w, COMMAND);
    true
}

// Reads the result byte and the response, as much of it as the window can hold.
fn hear_lpc<W: Wire>(w: &mut W, reply: &mut Packet) -> Raw
    requires { 257 ≤ (W.view w.old).spare }
    ensures hears { LpcHears (heard_of result reply.new) (W.view w.old) (W.view w.new) }
    ensures room { (W.view w.old).spare ≤ (W.view w.new).spare + 257 }
{
    let outcome = did(w, RESULT);
    reply.clear();
    read_window(w, lpc::PACKET_PORT, HEADER, reply);
    let named = named_length(reply.as_slice());
    if named > LARGEST_BODY {
        return Raw::Bad;
    }
    read_window(w, lpc::PACKET_PORT + HEADER, named, reply);
    judge(outcome, reply)
}

/// Brings LPC to rest: reads the status until it is not busy, with a wait between each two reads, at most five times.
pub fn quiet_lpc<W: Wire>(w: &mut W)
    requires bus { (W.view w.old).bus ≡ LpcKind }
    requires room { 9 ≤ (W.view w.old).spare }
    ensures quiets { Quiets LpcKind (W.view w.old) (W.view w.new) }
    ensures undisturbed { UndisturbedWhereCalm (W.view w.old) (W.view w.new) }
    ensures calm { SettlesWhereCalm (W.view w.old) (W.view w.new) }
    ensures room { (W.view w.old).spare ≤ (W.view w.new).spare + 9 }
{
    poll_spaced(w);
}

// The steps of a send, each by what was seen so far.
fn steps_lpc<W: Wire>(w: &mut W, packet: &Packet, reply: &mut Packet) -> Raw
    requires room { 1500 ≤ (W.view w.old).spare }
    requires short { length packet.now ≤ 256 }
    ensures sends { Sends LpcKind packet.now (heard_of result reply.new) (W.view w.old) (W.view w.new) }
    ensures room { (W.view w.old).spare ≤ (W.view w.new).spare + 531 }
{
    if !ask_lpc(w, packet) {
        return Raw::Silent;
    }
    if !poll_waited(w) {
        return Raw::Silent;
    }
    hear_lpc(w, reply)
}

/// Sends the packet on LPC, and reads the response. At `Raw::Reply` it is in `reply`; otherwise what `reply` has is no
/// response to the packet.
pub fn send_lpc<W: Wire>(w: &mut W, packet: &Packet, reply: &mut Packet) -> Raw
    requires bus { (W.view w.old).bus ≡ LpcKind }
    requires room { 1500 ≤ (W.view w.old).spare }
    requires short { length packet.now ≤ 256 }
    requires request { IsRequest packet.now }
    ensures sends { Sends LpcKind packet.now (heard_of result reply.new) (W.view w.old) (W.view w.new) }
    ensures undisturbed { UndisturbedWhereCalm (W.view w.old) (W.view w.new) }
    ensures calm { ServesWhereCalm packet.now (heard_of result reply.new) (W.view w.old) (W.view w.new) }
    ensures exchange { ExchangesWhereCalm packet.now (heard_of result reply.new) (W.view w.old) (W.view w.new) }
    ensures cause { CausedWhereCalm (heard_of result reply.new) (W.view w.old) (W.view w.new) }
    ensures rests { RestsBehind (W.view w.old) (W.view w.new) }
    ensures takes { TakesWhereCalm packet.now (heard_of result reply.new) (W.view w.old) (W.view w.new) }
    ensures room { (W.view w.old).spare ≤ (W.view w.new).spare + 531 }
{
    steps_lpc(w, packet, reply)
}
