// The sequences on I2C: a write of the protocol's byte and the packet, a read of the result byte, a length and the
// response, and one stop at the end, whatever was seen.
ghost use Rattle.std.specs.Prelude.{◌≡◌, ◌≤◌, ◌+◌, length};
ghost use Rattle.ec_model.specs.SendI2c.{is_i2c_length};
ghost use Rattle.ec_types.specs.declared.bus.BusKind.TheVariants.{I2c as I2cKind};
ghost use Rattle.host_framing.specs.I2cParts.{Takes, I2cWrites, I2cReads, I2cHears, I2cTalks};
ghost use Rattle.host_framing.specs.Parts.{Quiets, Sends};
ghost use Rattle.host_framing.specs.Heard.{heard_of};
ghost use Rattle.host_framing.specs.Clean.{
  UndisturbedWhereCalm,
  ServesWhereCalm,
  SettlesWhereCalm,
  ExchangesWhereCalm,
  CausedWhereCalm,
  RestsBehind,
};
ghost use Rattle.host_framing.specs.Room.{TakesWhereCalm};
ghost use Rattle.host_framing.specs.Request.{IsRequest};

use crate::calls::{Raw, did, judge};
use ec_model::Access;
use ec_packet::{HEADER_LENGTH, Packet};
use ec_types::COMMAND_PROTOCOL_3;
use ec_wire::Wire;

// The fewest bytes of a response.
const SHORTEST: u8 = HEADER_LENGTH as u8;

// The most bytes of a packet on the bus.
const LONGEST: u8 = 128;

// One access. Whether the controller took it, which answers 0.
pub fn took<W: Wire>(w: &mut W, a: Access) -> bool
    requires { 1 ≤ (W.view w.old).spare }
    ensures takes { Takes a result (W.view w.old) (W.view w.new) }
    ensures room { (W.view w.new).spare + 1 ≡ (W.view w.old).spare }
{
    did(w, a) == 0
}

// Writes the protocol's byte and the packet, up to the first byte that is not taken. Whether all were.
pub fn write_request<W: Wire>(w: &mut W, packet: &[u8]) -> bool
    requires short { length packet.now ≤ 128 }
    requires room { length packet.now + 1 ≤ (W.view w.old).spare }
    ensures writes { I2cWrites packet.now result (W.view w.old) (W.view w.new) }
    ensures room { (W.view w.old).spare ≤ (W.view w.new).spare + length packet.now + 1 }
{
    if !took(
        w,
        Access::I2cWrite {
            byte: COMMAND_PROTOCOL_3,
        },
    ) {
        return false;
    }
    for byte in packet {
        if !took(w, Access::I2cWrite { byte: *byte }) {
            return false;
        }
    }
    true
}

// Reads so many bytes, and appends them.
fn read_bytes<W: Wire>(w: &mut W, count: u8, reply: &mut Packet)
    requires short { length reply.old + count ≤ 544 }
    requires room { count ≤ (W.view w.old).spare }
    ensures reads { I2cReads count reply.old reply.new (W.view w.old) (W.view w.new) }
    ensures room { (W.view w.new).spare + count ≡ (W.view w.old).spare }
{
    for _place in 0..count {
        let byte = did(w, Access::I2cRead);
        reply.push(byte);
    }
}

// Whether a length is that of a packet.
fn is_length(size: u8) -> bool
    ensures { result ≡ is_i2c_length size }
{
    SHORTEST <= size && size <= LONGEST
}

// Reads the result byte, the length, and as many bytes, where a response can have that length.
fn hear_i2c<W: Wire>(w: &mut W, reply: &mut Packet) -> Raw
    requires { 130 ≤ (W.view w.old).spare }
    ensures hears { I2cHears (heard_of result reply.new) (W.view w.old) (W.view w.new) }
    ensures room { (W.view w.old).spare ≤ (W.view w.new).spare + 130 }
{
    let outcome = did(w, Access::I2cRead);
    let size = did(w, Access::I2cRead);
    if !is_length(size) {
        return Raw::Bad;
    }
    reply.clear();
    read_bytes(w, size, reply);
    judge(outcome, reply)
}

// The steps of a send but for the stop, each by what was seen so far.
fn talk_i2c<W: Wire>(w: &mut W, packet: &Packet, reply: &mut Packet) -> Raw
    requires room { length packet.now + 133 ≤ (W.view w.old).spare }
    requires short { length packet.now ≤ 128 }
    ensures talks { I2cTalks packet.now (heard_of result reply.new) (W.view w.old) (W.view w.new) }
    ensures room { (W.view w.old).spare ≤ (W.view w.new).spare + length packet.now + 133 }
{
    if !took(w, Access::I2cStartWrite) {
        return Raw::Silent;
    }
    if !write_request(w, packet.as_slice()) {
        return Raw::Bad;
    }
    if !took(w, Access::I2cStartRead) {
        return Raw::Bad;
    }
    hear_i2c(w, reply)
}

// A stop, which ends what is under way.
pub fn stop<W: Wire>(w: &mut W)
    requires { 1 ≤ (W.view w.old).spare }
    ensures quiets { Quiets I2cKind (W.view w.old) (W.view w.new) }
    ensures room { (W.view w.new).spare + 1 ≡ (W.view w.old).spare }
{
    did(w, Access::I2cStop);
}

// The steps of a send, which ends with a stop whatever was seen.
fn steps_i2c<W: Wire>(w: &mut W, packet: &Packet, reply: &mut Packet) -> Raw
    requires room { length packet.now + 134 ≤ (W.view w.old).spare }
    requires short { length packet.now ≤ 128 }
    ensures sends { Sends I2cKind packet.now (heard_of result reply.new) (W.view w.old) (W.view w.new) }
    ensures room { (W.view w.old).spare ≤ (W.view w.new).spare + length packet.now + 134 }
{
    let heard = talk_i2c(w, packet, reply);
    stop(w);
    heard
}

/// Brings I2C to rest: one stop.
pub fn quiet_i2c<W: Wire>(w: &mut W)
    requires bus { (W.view w.old).bus ≡ I2cKind }
    requires room { 1 ≤ (W.view w.old).spare }
    ensures quiets { Quiets I2cKind (W.view w.old) (W.view w.new) }
    ensures undisturbed { UndisturbedWhereCalm (W.view w.old) (W.view w.new) }
    ensures calm { SettlesWhereCalm (W.view w.old) (W.view w.new) }
    ensures room { (W.view w.new).spare + 1 ≡ (W.view w.old).spare }
{
    stop(w);
}

/// Sends the packet on I2C, and reads the response. At `Raw::Reply` it is in `reply`; otherwise what `reply` has is no
/// response to the packet.
pub fn send_i2c<W: Wire>(w: &mut W, packet: &Packet, reply: &mut Packet) -> Raw
    requires bus { (W.view w.old).bus ≡ I2cKind }
    requires room { 1500 ≤ (W.view w.old).spare }
    requires short { length packet.now ≤ 128 }
    requires request { IsRequest packet.now }
    ensures sends { Sends I2cKind packet.now (heard_of result reply.new) (W.view w.old) (W.view w.new) }
    ensures undisturbed { UndisturbedWhereCalm (W.view w.old) (W.view w.new) }
    ensures calm { ServesWhereCalm packet.now (heard_of result reply.new) (W.view w.old) (W.view w.new) }
    ensures exchange { ExchangesWhereCalm packet.now (heard_of result reply.new) (W.view w.old) (W.view w.new) }
    ensures takes { TakesWhereCalm packet.now (heard_of result reply.new) (W.view w.old) (W.view w.new) }
    ensures cause { CausedWhereCalm (heard_of result reply.new) (W.view w.old) (W.view w.new) }
    ensures rests { RestsBehind (W.view w.old) (W.view w.new) }
    ensures room { (W.view w.old).spare ≤ (W.view w.new).spare + length packet.now + 134 }
{
    steps_i2c(w, packet, reply)
}
