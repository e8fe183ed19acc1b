// The buses between the host and the controller.
ghost use Rattle.std.specs.Prelude.{◌≡◌, ◌≤◌};
ghost use Rattle.ec_types.specs.Tables.{packet_limit};

use crate::lpc;

/// The byte that says, on LPC and on I2C, that a request of version 3 is there. EC_COMMAND_PROTOCOL_3
pub const COMMAND_PROTOCOL_3: u8 = 0xDA;

/// The most bytes of a packet on any bus.
pub const LARGEST_PACKET: usize = 544;

/// The bus between the host and the controller.
#[derive(Clone, Copy, Debug, PartialEq, Eq)]
pub enum BusKind {
    Lpc,
    I2c,
    Spi,
}

/// The most bytes of a packet on a bus, the same each way.
pub fn limit_of(bus: BusKind) -> u16
    ensures limit { result ≡ packet_limit bus }
    ensures least { 128 ≤ result }
    ensures most { result ≤ 544 }
{
    match bus {
        BusKind::Lpc => lpc::PACKET_SIZE,
        BusKind::I2c => 128,
        BusKind::Spi => LARGEST_PACKET as u16,
    }
}
