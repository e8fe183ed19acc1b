// The sending of a request that has no reply, a COLD: the first steps of a send, and then what has the controller serve
// it and brings the bus to rest.
ghost use Rattle.std.specs.Prelude.{◌≡◌, ◌≤◌, ◌+◌, length};
ghost use Rattle.ec_types.specs.Tables.{packet_limit};
ghost use Rattle.ec_types.specs.declared.bus.BusKind.TheVariants.{Lpc as LpcKind, I2c as I2cKind, Spi as SpiKind};
ghost use Rattle.host_framing.specs.ColdParts.{SendsCold, TalksCold, IsSized, ResetsWhereCalm};
ghost use Rattle.host_framing.specs.Clean.{UndisturbedWhereCalm, RestsBehind};

use crate::calls::{did, waited};
use crate::i2c::{stop, took, write_request};
use crate::lpc::ask_lpc;
use crate::spi::{ask, deselect};
use ec_model::Access;
use ec_packet::Packet;
use ec_types::BusKind;
use ec_wire::Wire;

// On LPC: one wait behind the command byte. Where the bus was busy to the end, nothing follows.
fn cold_lpc<W: Wire>(w: &mut W, packet: &Packet)
    requires short { length packet.now ≤ 256 }
    requires room { 267 ≤ (W.view w.old).spare }
    ensures { SendsCold LpcKind packet.now (W.view w.old) (W.view w.new) }
{
    if !ask_lpc(w, packet) {
        return;
    }
    waited(w);
}

// The steps on I2C but for the stop: the start of a read behind the packet. Where something was not taken, nothing
// follows.
fn talk_cold<W: Wire>(w: &mut W, packet: &Packet)
    requires short { length packet.now ≤ 128 }
    requires room { length packet.now + 3 ≤ (W.view w.old).spare }
    ensures talks { TalksCold packet.now (W.view w.old) (W.view w.new) }
    ensures room { (W.view w.old).spare ≤ (W.view w.new).spare + length packet.now + 3 }
{
    if !took(w, Access::I2cStartWrite) {
        return;
    }
    if !write_request(w, packet.as_slice()) {
        return;
    }
    did(w, Access::I2cStartRead);
}

// On I2C, which ends with a stop whatever was taken.
fn cold_i2c<W: Wire>(w: &mut W, packet: &Packet)
    requires short { length packet.now ≤ 128 }
    requires room { length packet.now + 4 ≤ (W.view w.old).spare }
    ensures { SendsCold I2cKind packet.now (W.view w.old) (W.view w.new) }
{
    talk_cold(w, packet);
    stop(w);
}

// On SPI: one wait behind the packet, and a deselect.
fn cold_spi<W: Wire>(w: &mut W, packet: &Packet)
    requires short { length packet.now ≤ 544 }
    requires room { 547 ≤ (W.view w.old).spare }
    ensures { SendsCold SpiKind packet.now (W.view w.old) (W.view w.new) }
{
    ask(w, packet);
    waited(w);
    deselect(w);
}

// The steps, by the bus.
fn steps_cold<W: Wire>(w: &mut W, packet: &Packet)
    requires room { 1500 ≤ (W.view w.old).spare }
    requires short { length packet.now ≤ packet_limit (W.view w.old).bus }
    ensures { SendsCold (W.view w.old).bus packet.now (W.view w.old) (W.view w.new) }
{
    match w.kind() {
        BusKind::Lpc => cold_lpc(w, packet),
        BusKind::I2c => cold_i2c(w, packet),
        BusKind::Spi => cold_spi(w, packet),
    }
}

/// Sends a request that has no reply, a COLD, and reads none. Where the bus stays busy, or something is not taken, the
/// host gives up.
pub fn send_cold<W: Wire>(w: &mut W, packet: &Packet)
    requires room { 1500 ≤ (W.view w.old).spare }
    requires short { length packet.now ≤ packet_limit (W.view w.old).bus }
    ensures colds { SendsCold (W.view w.old).bus packet.now (W.view w.old) (W.view w.new) }
    ensures undisturbed { UndisturbedWhereCalm (W.view w.old) (W.view w.new) }
    ensures rests { RestsBehind (W.view w.old) (W.view w.new) }
    ensures resets { IsSized packet.now → ResetsWhereCalm packet.now (W.view w.old) (W.view w.new) }
    ensures room { (W.view w.old).spare ≤ (W.view w.new).spare + length packet.now + 11 }
{
    steps_cold(w, packet);
}
