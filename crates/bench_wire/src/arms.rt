// The events of the world that are armed.
ghost use Rattle.std.specs.Prelude.{◌≡◌, ◌↔◌, ◌≤◌, ◌<◌, ℕ, [], ◌∷◌, ◌++◌, length, IsTrue, IsOk, unwrap_or};
ghost use Rattle.ec_model.specs.Bench.{due_events, still_armed, byte_among, has_place, armed_behind};
ghost use Rattle.bench_wire.specs.Arming.{events_of, room_of, room_for};

use arrayvec::ArrayVec;
use ec_model::WorldEvent;
use std::marker::Model;

/// There is no place for one more event: 64 are armed.
#[derive(Clone, Copy, Debug, PartialEq, Eq)]
pub struct ArmsFull;

/// An armed event, and before which access or wait from now it falls.
#[derive(Clone, Copy)]
pub(crate) struct ArmedEvent {
    left: u32,
    event: WorldEvent,
}

impl Model for ArmedEvent {
    ghost use Rattle.ec_model.specs.Bench.{Armed};

    ghost Value = { Armed };

    ghost view = { λ armed. record { left = armed.left; event = armed.event } };

    ghost inverse = { λ armed. record { left = armed.left; event = armed.event } };
}

// What stands in a place where nothing is armed.
impl Default for ArmedEvent {
    fn default() -> ArmedEvent {
        ArmedEvent {
            left: 0,
            event: WorldEvent::Power { on: false },
        }
    }
}

impl ArmedEvent {
    /// What it is.
    pub fn event(&self) -> WorldEvent
        ensures { result ≡ self.now.event }
    {
        self.event
    }

    // Whether it falls before the next access or wait.
    fn is_due(&self) -> bool
        ensures { IsTrue result ↔ (self.now.left ≤ 1) }
    {
        self.left <= 1
    }
}

/// The events that are armed, at most 64, in the order in which they were armed.
#[derive(Drop)]
pub(crate) struct Arms {
    events: ArrayVec<ArmedEvent, 64>,
    // For how many entries room is kept: one for each event that adds one.
    room: usize,
}

impl Model for Arms {
    ghost use Rattle.std.specs.Prelude.{◌≡◌, List};
    ghost use Rattle.ec_model.specs.Bench.{Armed};
    ghost use Rattle.bench_wire.specs.Arming.{room_for};

    ghost Value = { List Armed };

    ghost view = { λ arms. arms.events.items };

    ghost invariant = { λ arms. arms.room ≡ room_for arms.events.items };
}

impl Arms {
    /// Nothing is armed.
    pub fn new() -> Arms
        ensures { result ≡ [] }
    {
        Arms {
            events: ArrayVec::new(),
            room: 0,
        }
    }

    /// Whether nothing is armed.
    #[inline(always)]
    pub fn is_empty(&self) -> bool
        ensures { IsTrue result ↔ (self.now ≡ []) }
    {
        self.events.is_empty()
    }

    /// How many entries the armed events will add.
    pub fn room(&self) -> usize
        ensures { result ≡ room_for self.now }
    {
        self.room
    }

    /// Arms an event behind the others that are due with it, where there is a place.
    pub fn arm(&mut self, left: u32, event: WorldEvent) -> Result<(), ArmsFull>
        ensures ok { IsOk result ↔ IsTrue (has_place self.old) }
        ensures armed { self.new ≡ armed_behind self.old left event }
    {
        if self.events.is_full() {
            return Err(ArmsFull);
        }
        self.push(left, event);
        Ok(())
    }

    // Arms an event behind the others.
    fn push(&mut self, left: u32, event: WorldEvent)
        requires { length self.old < 64 }
        ensures { self.new ≡ self.old ++ record { left = left; event = event } ∷ [] }
    {
        self.events.push(ArmedEvent { left, event });
        self.room += room_of(event);
    }

    /// What is armed comes nearer by one access or wait. Gives what is due before it.
    pub fn come_nearer(&mut self) -> ArrayVec<ArmedEvent, 64>
        ensures due { events_of result.items ≡ due_events self.old }
        ensures still { self.new ≡ still_armed self.old }
    {
        let mut due = ArrayVec::new();
        let mut still = Arms::new();
        for armed in self.events.as_slice() {
            if armed.is_due() {
                due.push(*armed);
            } else {
                still.push(armed.left - 1, armed.event);
            }
        }
        *self = still;
        due
    }
}

// How many entries an armed event adds.
fn room_of(event: WorldEvent) -> usize
    ensures { result ≡ room_of event }
{
    match event {
        WorldEvent::Byte { .. } => 0,
        _ => 1,
    }
}

/// The last changed byte among some events, if there is one.
pub(crate) fn last_byte(due: &[ArmedEvent]) -> Option<u8>
    ensures { (byte : ℕ) → unwrap_or result byte ≡ byte_among (events_of due.now) byte }
{
    let mut last = None;
    for armed in due {
        if let WorldEvent::Byte { byte } = armed.event {
            last = Some(byte);
        }
    }
    last
}
