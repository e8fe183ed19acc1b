// The sequences on SPI: the host selects, sends the packet, sends zeros until a byte begins the reply, gets the reply a
// byte for each zero, and deselects.
ghost use Rattle.std.specs.Prelude.{◌≡◌, ◌≤◌, ◌+◌, ◌∷◌, [], ℕ, List, length};
ghost use Rattle.ec_types.specs.declared.bus.BusKind.TheVariants.{Spi as SpiKind};
ghost use Rattle.ec_model.specs.declared.event.Access.TheVariants.{SpiDeselect};
ghost use Rattle.ec_model.specs.Heard.{heard_packet};
ghost use Rattle.ec_model.specs.HostCalls.{Did};
ghost use Rattle.ec_model.specs.SendSpi.{heard_without, spi_reads_on};
ghost use Rattle.ec_wire.specs.Calls.{Made};
ghost use Rattle.host_framing.specs.Parts.{Quiets, Sends};
ghost use Rattle.host_framing.specs.SpiParts.{Asks, Gets, Hears, Polls, Puts, Talks};
ghost use Rattle.host_framing.specs.Heard.{heard_of};
ghost use Rattle.host_framing.specs.Clean.{
  UndisturbedWhereCalm,
  ServesWhereCalm,
  SettlesWhereCalm,
  ExchangesWhereCalm,
  CausedWhereCalm,
  RestsBehind,
};
ghost use Rattle.host_framing.specs.Room.{TakesWhereCalm};
ghost use Rattle.host_framing.specs.Request.{IsRequest};

use crate::calls::{Raw, did, named_length, waited};
use ec_model::Access;
use ec_packet::{HEADER_LENGTH, LARGEST_BODY, Packet, RESPONSE_VERSION, is_response};
use ec_wire::Wire;

// A byte that is sent for the one that it gets.
const GET: Access = Access::SpiByte { byte: 0 };

// What the controller shifts out where a reply begins. EC_SPI_FRAME_START
const FRAME_START: u8 = 0xEC;

// What it shifts out while the request waits. EC_SPI_PROCESSING
const PROCESSING: u8 = 0xFA;

// What the host gets where nothing answers.
const NOTHING: u8 = 0xFF;

// How many bytes the header of a packet has.
const HEADER: u16 = HEADER_LENGTH as u16;

// Sends the bytes, whatever they get.
fn put<W: Wire>(w: &mut W, bytes: &[u8])
    requires room { length bytes.now ≤ (W.view w.old).spare }
    ensures puts { Puts bytes.now (W.view w.old) (W.view w.new) }
    ensures room { (W.view w.new).spare + length bytes.now ≡ (W.view w.old).spare }
{
    for byte in bytes {
        did(w, Access::SpiByte { byte: *byte });
    }
}

// Gets so many bytes, and appends them.
fn get<W: Wire>(w: &mut W, count: u16, reply: &mut Packet)
    requires short { length reply.old + count ≤ 544 }
    requires room { count ≤ (W.view w.old).spare }
    ensures gets { Gets count reply.old reply.new (W.view w.old) (W.view w.new) }
    ensures room { (W.view w.new).spare + count ≡ (W.view w.old).spare }
{
    for _place in 0..count {
        let byte = did(w, GET);
        reply.push(byte);
    }
}

// Selects, and sends the packet.
pub fn ask<W: Wire>(w: &mut W, packet: &Packet)
    requires short { length packet.now ≤ 544 }
    requires room { 545 ≤ (W.view w.old).spare }
    ensures asks { Asks packet.now (W.view w.old) (W.view w.new) }
    ensures room { (W.view w.new).spare + length packet.now + 1 ≡ (W.view w.old).spare }
{
    did(w, Access::SpiSelect);
    put(w, packet.as_slice());
}

// Gets a byte, and another behind a wait while the request waits, at most four times. The last of them.
fn poll<W: Wire>(w: &mut W) -> u8
    requires { 9 ≤ (W.view w.old).spare }
    ensures polls { Polls result (W.view w.old) (W.view w.new) }
    ensures room { (W.view w.old).spare ≤ (W.view w.new).spare + 9 }
{
    let mut answer = did(w, GET);
    for _turn in 0..4u8 {
        if answer != PROCESSING {
            return answer;
        }
        waited(w);
        answer = did(w, GET);
    }
    answer
}

// What the host hears where no reply begins.
fn unserved(last: u8) -> Raw
    ensures { (bytes : List ℕ) → heard_of result bytes ≡ heard_without last }
{
    if last == PROCESSING || last == NOTHING {
        Raw::Silent
    } else {
        Raw::Bad
    }
}

// Whether the host reads on behind a header.
fn reads_on(bytes: &[u8]) -> bool
    requires { 8 ≤ length bytes.now }
    ensures { result ≡ spi_reads_on bytes.now }
{
    bytes[0] == RESPONSE_VERSION && named_length(bytes) as usize <= LARGEST_BODY
}

// What a packet is heard as.
fn judge_packet(reply: &Packet) -> Raw
    ensures { heard_of result reply.now ≡ heard_packet reply.now }
{
    if is_response(reply.as_slice()) {
        Raw::Reply
    } else {
        Raw::Bad
    }
}

// Gets the response behind the byte that begins it, as much of it as a packet can hold.
fn hear<W: Wire>(w: &mut W, reply: &mut Packet) -> Raw
    requires { 544 ≤ (W.view w.old).spare }
    ensures hears { Hears (heard_of result reply.new) (W.view w.old) (W.view w.new) }
    ensures room { (W.view w.old).spare ≤ (W.view w.new).spare + 544 }
{
    reply.clear();
    get(w, HEADER, reply);
    if !reads_on(reply.as_slice()) {
        return Raw::Bad;
    }
    let named = named_length(reply.as_slice());
    get(w, named, reply);
    judge_packet(reply)
}

// The steps of a send but for its end.
fn talk<W: Wire>(w: &mut W, packet: &Packet, reply: &mut Packet) -> Raw
    requires short { length packet.now ≤ 544 }
    requires room { 1499 ≤ (W.view w.old).spare }
    ensures talks { Talks packet.now (heard_of result reply.new) (W.view w.old) (W.view w.new) }
    ensures room { (W.view w.old).spare ≤ (W.view w.new).spare + length packet.now + 554 }
{
    ask(w, packet);
    let last = poll(w);
    if last != FRAME_START {
        return unserved(last);
    }
    hear(w, reply)
}

// Deselects, with which the bus is at rest.
pub fn deselect<W: Wire>(w: &mut W) -> u8
    requires { 1 ≤ (W.view w.old).spare }
    ensures made { Made (Did SpiDeselect result ∷ []) (W.view w.old) (W.view w.new) }
    ensures room { (W.view w.new).spare + 1 ≡ (W.view w.old).spare }
{
    did(w, Access::SpiDeselect)
}

/// Brings SPI to rest: deselects.
pub fn quiet_spi<W: Wire>(w: &mut W)
    requires bus { (W.view w.old).bus ≡ SpiKind }
    requires room { 1 ≤ (W.view w.old).spare }
    ensures quiets { Quiets SpiKind (W.view w.old) (W.view w.new) }
    ensures undisturbed { UndisturbedWhereCalm (W.view w.old) (W.view w.new) }
    ensures calm { SettlesWhereCalm (W.view w.old) (W.view w.new) }
    ensures room { (W.view w.old).spare ≤ (W.view w.new).spare + 1 }
{
    deselect(w);
}

// The steps of a send: whatever was heard, the host deselects at its end.
fn steps_spi<W: Wire>(w: &mut W, packet: &Packet, reply: &mut Packet) -> Raw
    requires short { length packet.now ≤ 544 }
    requires room { 1500 ≤ (W.view w.old).spare }
    ensures sends { Sends SpiKind packet.now (heard_of result reply.new) (W.view w.old) (W.view w.new) }
    ensures room { (W.view w.old).spare ≤ (W.view w.new).spare + length packet.now + 555 }
{
    let heard = talk(w, packet, reply);
    deselect(w);
    heard
}

/// Sends the packet on SPI, and reads the response. At `Raw::Reply` it is in `reply`; otherwise what `reply` has is no
/// response to the packet.
pub fn send_spi<W: Wire>(w: &mut W, packet: &Packet, reply: &mut Packet) -> Raw
    requires bus { (W.view w.old).bus ≡ SpiKind }
    requires room { 1500 ≤ (W.view w.old).spare }
    requires short { length packet.now ≤ 544 }
    requires request { IsRequest packet.now }
    ensures sends { Sends SpiKind packet.now (heard_of result reply.new) (W.view w.old) (W.view w.new) }
    ensures undisturbed { UndisturbedWhereCalm (W.view w.old) (W.view w.new) }
    ensures calm { ServesWhereCalm packet.now (heard_of result reply.new) (W.view w.old) (W.view w.new) }
    ensures exchange { ExchangesWhereCalm packet.now (heard_of result reply.new) (W.view w.old) (W.view w.new) }
    ensures cause { CausedWhereCalm (heard_of result reply.new) (W.view w.old) (W.view w.new) }
    ensures rests { RestsBehind (W.view w.old) (W.view w.new) }
    ensures takes { TakesWhereCalm packet.now (heard_of result reply.new) (W.view w.old) (W.view w.new) }
    ensures room { (W.view w.old).spare ≤ (W.view w.new).spare + length packet.now + 555 }
{
    steps_spi(w, packet, reply)
}
