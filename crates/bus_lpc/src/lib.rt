//! The controller's machine on LPC: what each access of the host does to it, and what it answers.
//!
//! It stands on `ec_wire`, whose trait `Bus` it meets, and knows neither the commands nor the flash: the controller
//! takes the request that waits, and gives the response back. The contract that matters is the trait's: each access
//! does and answers what `bus_step` says of the machine's state, which is just its fields (`lpc_state`).
#![tactic(auto)]

ghost use Rattle.std.specs.Prelude.{◌≡◌, ◌==◌, ◌<◌, refl};
ghost use Rattle.ec_types.specs.declared.bus.BusKind.TheVariants.{Lpc as LpcKind};
ghost use Rattle.ec_model.specs.Bus.{OnLpc, is_busy, in_window, lpc_out, lpc_in, lpc_after_in};

use ec_model::Access;
use ec_packet::Packet;
use ec_types::{BusKind, COMMAND_PROTOCOL_3, lpc, status};
use ec_wire::{Bus, Due};

// How many bytes the window has.
const WINDOW_SIZE: usize = lpc::PACKET_SIZE as usize;

// The first port behind the window.
const WINDOW_END: u16 = lpc::PACKET_PORT + lpc::PACKET_SIZE;

// What is read where nothing answers, and of the result while a request waits.
const NOTHING: u8 = 0xFF;

/// A window of 256 bytes at the ports 0x800 to 0x8FF, a status byte at 0x204 and a result byte at 0x200. The command
/// byte 0xDA to 0x204 makes the whole window a request, which is due at a tick.
#[derive(Drop)]
pub struct Lpc {
    window: [u8; WINDOW_SIZE],
    status: u8,
    outcome: u8,
}

// Whether a status says busy.
fn busy(status: u8) -> bool
    ensures { result ≡ is_busy status }
{
    status & lpc::BUSY_MASK != 0
}

// Whether a port is in the window.
fn windowed(port: u16) -> bool
    ensures { result ≡ in_window port }
{
    port >= lpc::PACKET_PORT && port < WINDOW_END
}

impl Lpc {
    ghost use Rattle.bus_lpc.specs.State.{lpc_state};

    // A write to a port. All are ignored while the machine is busy.
    fn write_port(&mut self, port: u16, byte: u8)
        ensures { lpc_state self.new ≡ lpc_out (lpc_state self.old) port byte }
    {
        if busy(self.status) {
            return;
        }
        if windowed(port) {
            self.window[(port - lpc::PACKET_PORT) as usize] = byte;
        } else if port == lpc::COMMAND_PORT {
            if byte == COMMAND_PROTOCOL_3 {
                self.status = lpc::BUSY_MASK;
                self.outcome = NOTHING;
            } else {
                self.status = lpc::TO_HOST;
                self.outcome = status::INVALID_COMMAND as u8;
            }
        }
    }

    // A read of a port. One of the result byte takes the bit `TO_HOST` away.
    fn read_port(&mut self, port: u16) -> u8
        ensures state { lpc_state self.new ≡ lpc_after_in (lpc_state self.old) port }
        ensures answer { result ≡ lpc_in (lpc_state self.old) port }
    {
        if windowed(port) {
            self.window[(port - lpc::PACKET_PORT) as usize]
        } else if port == lpc::COMMAND_PORT {
            self.status
        } else if port == lpc::DATA_PORT {
            self.status &= !lpc::TO_HOST;
            self.outcome
        } else {
            NOTHING
        }
    }
}

impl Bus for Lpc {
    ghost use Rattle.bus_lpc.specs.State.{lpc_state};

    ghost state = { λ lpc. OnLpc (lpc_state lpc) };

    ghost bus = { LpcKind };

    fn fresh() -> Self {
        Lpc {
            window: [0; WINDOW_SIZE],
            status: 0,
            outcome: 0,
        }
    }

    fn kind(&self) -> BusKind {
        BusKind::Lpc
    }

    fn access(&mut self, a: Access) -> u8 {
        match a {
            Access::PortOut { port, byte } => {
                self.write_port(port, byte);
                0
            }
            Access::PortIn { port } => self.read_port(port),
            _ => NOTHING,
        }
    }

    fn due(&self) -> Due {
        if self.status == lpc::BUSY_MASK {
            Due::AtTick
        } else {
            Due::No
        }
    }

    fn waiting(&self) -> &[u8] {
        &self.window
    }

    fn reply(&mut self, packet: &Packet) {
        let bytes = packet.as_slice();
        self.window[..bytes.len()].copy_from_slice(bytes);
        self.status = lpc::TO_HOST;
        self.outcome = bytes[2];
    }

    ghost own = { λ lpc. refl };
}
