// The machine on SPI.
ghost use Rattle.std.specs.Prelude.{◌≡◌, ◌≤◌, ℕ, List, [], length, refl};
ghost use Rattle.ec_types.specs.declared.bus.BusKind.TheVariants.{Spi as SpiKind};
ghost use Rattle.ec_model.specs.Bus.{OnSpi, Deselected, Receiving, spi_received, spi_byte};

use crate::phase::Phase;
use arrayvec::ArrayVec;
use byteorder::{ByteOrder, LittleEndian};
use ec_model::Access;
use ec_packet::{HEADER_LENGTH, LARGEST_BODY, Packet};
use ec_types::{BusKind, LARGEST_PACKET};
use ec_wire::{Bus, Due};
use std::marker::Model;

// How many bytes a reply has at most: the one that begins it, and the largest packet.
const LONGEST_REPLY: usize = LARGEST_PACKET + 1;

// Where the header says how long the body is.
const LENGTH_AT: usize = 6;

// What the controller shifts out. EC_SPI_FRAME_START
const FRAME_START: u8 = 0xEC;
// EC_SPI_PAST_END
const PAST_END: u8 = 0xED;
// EC_SPI_RX_READY
const RECEIVE_READY: u8 = 0xF8;
// EC_SPI_RECEIVING
const RECEIVING: u8 = 0xF9;
// EC_SPI_PROCESSING
const PROCESSING: u8 = 0xFA;
// EC_SPI_RX_BAD_DATA
const BAD_DATA: u8 = 0xFB;
// Where nothing answers.
const NOTHING: u8 = 0xFF;

/// What came of a request while the controller is selected, and the reply that it shifts out. A request is due at a tick
/// once as many bytes came as its header says.
#[derive(Drop)]
pub struct Spi {
    phase: Phase,
    received: ArrayVec<u8, LARGEST_PACKET>,
    reply: ArrayVec<u8, LONGEST_REPLY>,
    next: usize,
}

impl Model for Spi {
    ghost use Rattle.ec_model.specs.Bus.{SpiState};
    ghost use Rattle.bus_spi.specs.State.{spi_of, HasRoom};

    ghost Value = { SpiState };

    ghost view = { λ spi. spi_of spi.phase spi.received.items spi.reply.items spi.next };

    ghost invariant = { λ spi. HasRoom spi.phase spi.received.items };
}

impl Spi {
    ghost use Rattle.bus_spi.specs.State.{spi_of, HasRoom};

    // The controller is selected: nothing of a request came yet.
    fn select(&mut self)
        ensures { self.new ≡ Receiving [] }
    {
        self.phase = Phase::Receiving;
        self.received.clear();
    }

    // The controller is not selected any more: all is dropped, a request that is due, too.
    fn deselect(&mut self)
        ensures { self.new ≡ Deselected }
    {
        self.phase = Phase::Deselected;
    }

    // Where a request is of which these bytes came.
    fn phase_of(bytes: &[u8]) -> Phase
        requires { length bytes.now ≤ 544 }
        ensures phase { (reply : List ℕ) (next : ℕ) → spi_of result bytes.now reply next ≡ spi_received bytes.now }
        ensures room { HasRoom result bytes.now }
    {
        if bytes.len() < HEADER_LENGTH {
            return Phase::Receiving;
        }
        let body = LittleEndian::read_u16(&bytes[LENGTH_AT..]) as usize;
        if body > LARGEST_BODY {
            Phase::Bad
        } else if bytes.len() < HEADER_LENGTH + body {
            Phase::Receiving
        } else {
            Phase::Waiting
        }
    }

    // A byte comes, and one is shifted out.
    fn exchange(&mut self, byte: u8) -> u8
        ensures state { OnSpi self.new ≡ (spi_byte self.old byte).state }
        ensures answer { result ≡ (spi_byte self.old byte).answer }
    {
        match self.phase {
            Phase::Deselected => NOTHING,
            Phase::Receiving => {
                let first = self.received.is_empty();
                self.received.push(byte);
                self.phase = Spi::phase_of(self.received.as_slice());
                if first { RECEIVE_READY } else { RECEIVING }
            }
            Phase::Bad => BAD_DATA,
            Phase::Waiting => PROCESSING,
            Phase::Replied => {
                if self.next < self.reply.len() {
                    let byte = self.reply[self.next];
                    self.next += 1;
                    byte
                } else {
                    PAST_END
                }
            }
        }
    }
}

impl Bus for Spi {
    ghost state = { λ spi. OnSpi spi };

    ghost bus = { SpiKind };

    fn fresh() -> Self {
        Spi {
            phase: Phase::Deselected,
            received: ArrayVec::new(),
            reply: ArrayVec::new(),
            next: 0,
        }
    }

    fn kind(&self) -> BusKind {
        BusKind::Spi
    }

    fn access(&mut self, a: Access) -> u8 {
        match a {
            Access::SpiSelect => {
                self.select();
                0
            }
            Access::SpiByte { byte } => self.exchange(byte),
            Access::SpiDeselect => {
                self.deselect();
                0
            }
            _ => NOTHING,
        }
    }

    fn due(&self) -> Due {
        match self.phase {
            Phase::Waiting => Due::AtTick,
            _ => Due::No,
        }
    }

    fn waiting(&self) -> &[u8] {
        self.received.as_slice()
    }

    fn reply(&mut self, packet: &Packet) {
        self.reply.clear();
        self.reply.push(FRAME_START);
        self.reply.try_extend_from_slice(packet.as_slice()).unwrap();
        self.next = 0;
        self.phase = Phase::Replied;
    }

    ghost own = { λ spi. refl };
}
