// An entry of a journal in 8 bytes: one for the kind of entry, its event and what a flash call did inside it, one that
// is spare, two for a port, and four for the bytes of a step or the line of a mark.
ghost use Rattle.std.specs.Prelude.{◌≡◌};
ghost use Rattle.ec_model.specs.Upset.{event_byte};
ghost use Rattle.ec_wire.specs.Packing.{
  access_number,
  event_number,
  hurt_number,
  event_port,
  numbered_access,
  numbered_event,
  numbered_hurt,
  unpacked,
};

use ec_model::{Access, Entry, Event, Hurt, WorldReset};

/// An entry in 8 bytes. The `code` of a step is 4 times the number of its event, and the number of its `Hurt`.
#[derive(Clone, Copy)]
pub struct Packed {
    code: u8,
    port: u16,
    bytes: [u8; 4],
}

// The code of a mark, which is none of a step.
const MARK: u8 = 0xFF;

fn access_number(a: Access) -> u8
    ensures { result ≡ access_number a }
{
    match a {
        Access::PortOut { .. } => 0,
        Access::PortIn { .. } => 1,
        Access::I2cStartWrite => 2,
        Access::I2cStartRead => 3,
        Access::I2cWrite { .. } => 4,
        Access::I2cRead => 5,
        Access::I2cStop => 6,
        Access::SpiSelect => 7,
        Access::SpiByte { .. } => 8,
        Access::SpiDeselect => 9,
    }
}

fn event_number(event: Event) -> u8
    ensures { result ≡ event_number event }
{
    match event {
        Event::Access { a } => access_number(a),
        Event::Tick => 10,
        Event::Reset {
            cause: WorldReset::Pin,
        } => 11,
        Event::Reset {
            cause: WorldReset::Watchdog,
        } => 12,
        Event::Power { on: false } => 13,
        Event::Power { on: true } => 14,
        Event::Pin { on: false } => 15,
        Event::Pin { on: true } => 16,
    }
}

fn hurt_number(hurt: Hurt) -> u8
    ensures { result ≡ hurt_number hurt }
{
    match hurt {
        Hurt::Whole => 0,
        Hurt::Failed => 1,
        Hurt::Cut => 2,
    }
}

// The port of an event, and 0 where it has none.
fn event_port(event: Event) -> u16
    ensures { result ≡ event_port event }
{
    match event {
        Event::Access {
            a: Access::PortOut { port, .. },
        } => port,
        Event::Access {
            a: Access::PortIn { port },
        } => port,
        _ => 0,
    }
}

// The byte that an event brings, and 0 where it brings none.
fn event_byte(event: Event) -> u8
    ensures { result ≡ event_byte event }
{
    match event {
        Event::Access {
            a: Access::PortOut { byte, .. },
        } => byte,
        Event::Access {
            a: Access::I2cWrite { byte },
        } => byte,
        Event::Access {
            a: Access::SpiByte { byte },
        } => byte,
        _ => 0,
    }
}

fn numbered_access(number: u8, port: u16, byte: u8) -> Access
    ensures { result ≡ numbered_access number port byte }
{
    match number {
        0 => Access::PortOut { port, byte },
        1 => Access::PortIn { port },
        2 => Access::I2cStartWrite,
        3 => Access::I2cStartRead,
        4 => Access::I2cWrite { byte },
        5 => Access::I2cRead,
        6 => Access::I2cStop,
        7 => Access::SpiSelect,
        8 => Access::SpiByte { byte },
        _ => Access::SpiDeselect,
    }
}

fn numbered_event(number: u8, port: u16, byte: u8) -> Event
    ensures { result ≡ numbered_event number port byte }
{
    match number {
        10 => Event::Tick,
        11 => Event::Reset {
            cause: WorldReset::Pin,
        },
        12 => Event::Reset {
            cause: WorldReset::Watchdog,
        },
        13 => Event::Power { on: false },
        14 => Event::Power { on: true },
        15 => Event::Pin { on: false },
        16 => Event::Pin { on: true },
        _ => Event::Access {
            a: numbered_access(number, port, byte),
        },
    }
}

fn numbered_hurt(number: u8) -> Hurt
    ensures { result ≡ numbered_hurt number }
{
    match number {
        0 => Hurt::Whole,
        1 => Hurt::Failed,
        _ => Hurt::Cut,
    }
}

/// An entry in 8 bytes.
#[inline(always)]
pub fn pack(entry: Entry) -> Packed
    ensures { unpacked result ≡ entry }
{
    match entry {
        Entry::Step {
            event,
            answer,
            meant,
            seen,
            hurt,
        } => Packed {
            code: 4 * event_number(event) + hurt_number(hurt),
            port: event_port(event),
            bytes: [event_byte(event), answer, meant, seen],
        },
        Entry::Mark { line } => Packed {
            code: MARK,
            port: 0,
            bytes: line.to_le_bytes(),
        },
    }
}

/// The entry that was packed.
pub fn unpack(packed: Packed) -> Entry
    ensures { result ≡ unpacked packed }
{
    if packed.code == MARK {
        return Entry::Mark {
            line: u32::from_le_bytes(packed.bytes),
        };
    }
    let [byte, answer, meant, seen] = packed.bytes;
    Entry::Step {
        event: numbered_event(packed.code / 4, packed.port, byte),
        answer,
        meant,
        seen,
        hurt: numbered_hurt(packed.code % 4),
    }
}
