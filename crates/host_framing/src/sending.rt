// The sequences on whatever bus the wire is.
ghost use Rattle.std.specs.Prelude.{◌≤◌, ◌+◌, length};
ghost use Rattle.ec_types.specs.Tables.{packet_limit};
ghost use Rattle.host_framing.specs.Parts.{Quiets, Sends};
ghost use Rattle.host_framing.specs.Heard.{heard_of};
ghost use Rattle.host_framing.specs.Clean.{
  UndisturbedWhereCalm,
  ServesWhereCalm,
  SettlesWhereCalm,
  ExchangesWhereCalm,
  CausedWhereCalm,
  RestsBehind,
};
ghost use Rattle.host_framing.specs.Room.{TakesWhereCalm};
ghost use Rattle.host_framing.specs.Request.{IsRequest};

use crate::calls::Raw;
use crate::{quiet_i2c, quiet_lpc, quiet_spi, send_i2c, send_lpc, send_spi};
use ec_packet::Packet;
use ec_types::BusKind;
use ec_wire::Wire;

/// Brings the wire's bus to rest.
pub fn quiet<W: Wire>(w: &mut W)
    requires room { 9 ≤ (W.view w.old).spare }
    ensures quiets { Quiets (W.view w.old).bus (W.view w.old) (W.view w.new) }
    ensures undisturbed { UndisturbedWhereCalm (W.view w.old) (W.view w.new) }
    ensures calm { SettlesWhereCalm (W.view w.old) (W.view w.new) }
    ensures room { (W.view w.old).spare ≤ (W.view w.new).spare + 9 }
{
    match w.kind() {
        BusKind::Lpc => quiet_lpc(w),
        BusKind::I2c => quiet_i2c(w),
        BusKind::Spi => quiet_spi(w),
    }
}

/// Sends the packet on the wire's bus, and reads the response. At `Raw::Reply` it is in `reply`; otherwise what `reply`
/// has is no response to the packet.
pub fn send<W: Wire>(w: &mut W, packet: &Packet, reply: &mut Packet) -> Raw
    requires room { 1500 ≤ (W.view w.old).spare }
    requires short { length packet.now ≤ packet_limit (W.view w.old).bus }
    requires request { IsRequest packet.now }
    ensures sends { Sends (W.view w.old).bus packet.now (heard_of result reply.new) (W.view w.old) (W.view w.new) }
    ensures undisturbed { UndisturbedWhereCalm (W.view w.old) (W.view w.new) }
    ensures calm { ServesWhereCalm packet.now (heard_of result reply.new) (W.view w.old) (W.view w.new) }
    ensures exchange { ExchangesWhereCalm packet.now (heard_of result reply.new) (W.view w.old) (W.view w.new) }
    ensures cause { CausedWhereCalm (heard_of result reply.new) (W.view w.old) (W.view w.new) }
    ensures rests { RestsBehind (W.view w.old) (W.view w.new) }
    ensures takes { TakesWhereCalm packet.now (heard_of result reply.new) (W.view w.old) (W.view w.new) }
    ensures room { (W.view w.old).spare ≤ (W.view w.new).spare + length packet.now + 555 }
{
    match w.kind() {
        BusKind::Lpc => send_lpc(w, packet, reply),
        BusKind::I2c => send_i2c(w, packet, reply),
        BusKind::Spi => send_spi(w, packet, reply),
    }
}
