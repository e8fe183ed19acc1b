// The machine on I2C.
ghost use Rattle.std.specs.Prelude.{◌≡◌, ◌≤◌, [], length, refl};
ghost use Rattle.ec_types.specs.declared.bus.BusKind.TheVariants.{I2c as I2cKind};
ghost use Rattle.ec_model.specs.Bus.{OnI2c, Writing, i2c_started, i2c_written, i2c_read, i2c_stopped, written_so_far};

use crate::phase::Phase;
use arrayvec::ArrayVec;
use ec_model::Access;
use ec_packet::Packet;
use ec_types::{BusKind, COMMAND_PROTOCOL_3};
use ec_wire::{Bus, Due};
use std::marker::Model;

// How many bytes of a write are kept: the command byte, and the largest packet of the bus.
const LONGEST_WRITE: usize = 129;

// How many bytes a reply has at most: its result, its packet's length, and the largest packet of the bus.
const LONGEST_REPLY: usize = 130;

// What is read where nothing answers.
const NOTHING: u8 = 0xFF;

/// What the host wrote last, of which at most 129 bytes are kept, and the reply that it reads. A write that begins with
/// the command byte 0xDA is a request, which is due as soon as a read begins.
#[derive(Drop)]
pub struct I2c {
    phase: Phase,
    written: ArrayVec<u8, LONGEST_WRITE>,
    reply: ArrayVec<u8, LONGEST_REPLY>,
    next: usize,
}

impl Model for I2c {
    ghost use Rattle.ec_model.specs.Bus.{I2cState};
    ghost use Rattle.bus_i2c.specs.State.{i2c_of};

    ghost Value = { I2cState };

    ghost view = { λ i2c. i2c_of i2c.phase i2c.written.items i2c.reply.items i2c.next };
}

impl I2c {
    // A write begins: what was written and any reply are forgotten.
    fn start_write(&mut self)
        ensures { self.new ≡ Writing [] }
    {
        self.phase = Phase::Writing;
        self.written.clear();
    }

    // A read begins: of the request's reply, where one was written.
    fn start_read(&mut self)
        ensures { self.new ≡ i2c_started (written_so_far self.old) }
    {
        let first = match self.phase {
            Phase::Idle | Phase::Writing => self.written.first().copied(),
            Phase::Asked | Phase::Reading => None,
        };
        if first == Some(COMMAND_PROTOCOL_3) {
            self.phase = Phase::Asked;
            return;
        }
        self.reply.clear();
        if first.is_some() {
            self.reply.push(1);
            self.reply.push(0);
        }
        self.next = 0;
        self.phase = Phase::Reading;
    }

    // A byte is written.
    fn write(&mut self, byte: u8) -> u8
        ensures state { OnI2c self.new ≡ (i2c_written self.old byte).state }
        ensures answer { result ≡ (i2c_written self.old byte).answer }
    {
        match self.phase {
            Phase::Writing => {
                // A byte behind the longest write is dropped.
                let _ = self.written.try_push(byte);
                0
            }
            _ => NOTHING,
        }
    }

    // A byte is read.
    fn read(&mut self) -> u8
        ensures state { OnI2c self.new ≡ (i2c_read self.old).state }
        ensures answer { result ≡ (i2c_read self.old).answer }
    {
        if self.phase == Phase::Reading && self.next < self.reply.len() {
            let byte = self.reply[self.next];
            self.next += 1;
            byte
        } else {
            NOTHING
        }
    }

    // The transaction ends: what was written is kept, and a reply is forgotten.
    fn stop(&mut self)
        ensures { self.new ≡ i2c_stopped self.old }
    {
        match self.phase {
            Phase::Idle | Phase::Writing => {}
            Phase::Asked | Phase::Reading => self.written.clear(),
        }
        self.phase = Phase::Idle;
    }
}

impl Bus for I2c {
    ghost state = { λ i2c. OnI2c i2c };

    ghost bus = { I2cKind };

    fn fresh() -> Self {
        I2c {
            phase: Phase::Idle,
            written: ArrayVec::new(),
            reply: ArrayVec::new(),
            next: 0,
        }
    }

    fn kind(&self) -> BusKind {
        BusKind::I2c
    }

    fn access(&mut self, a: Access) -> u8 {
        match a {
            Access::I2cStartWrite => {
                self.start_write();
                0
            }
            Access::I2cStartRead => {
                self.start_read();
                0
            }
            Access::I2cWrite { byte } => self.write(byte),
            Access::I2cRead => self.read(),
            Access::I2cStop => {
                self.stop();
                0
            }
            _ => NOTHING,
        }
    }

    fn due(&self) -> Due {
        match self.phase {
            Phase::Asked => Due::Now,
            _ => Due::No,
        }
    }

    fn waiting(&self) -> &[u8] {
        let bytes = self.written.as_slice();
        &bytes[bytes.len().min(1)..]
    }

    fn reply(&mut self, packet: &Packet) {
        let bytes = packet.as_slice();
        self.reply.clear();
        self.reply.push(bytes[2]);
        self.reply.push(bytes.len() as u8);
        self.reply.try_extend_from_slice(bytes).unwrap();
        self.next = 0;
        self.phase = Phase::Reading;
    }

    ghost own = { λ i2c. refl };
}
