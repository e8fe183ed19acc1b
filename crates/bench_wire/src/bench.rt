// The controller with the journal of all that happened to it.
ghost use Rattle.std.specs.Prelude.{◌≡◌, [], ◌∷◌, IsFalse, option_map, option_to_list, unwrap_or};
ghost use Rattle.ec_model.specs.Upset.{event_byte};
ghost use Rattle.ec_model.specs.Bench.{events_among};
ghost use Rattle.bench_wire.specs.Adding.{is_byte};
ghost use Rattle.bench_wire.specs.Calling.{arriving, seen_instead};

use crate::arms::{ArmedEvent, Arms, ArmsFull, last_byte};
use ec_core::Ec;
use ec_model::{Access, Entry, Event, WorldEvent};
use ec_wire::{Bus, Journal};
use flash_dev::{CutFlash, FlashDev, Tear};
use std::alloc::Global;
use std::marker::Model;

/// A controller on the bench, with the journal of all that happened to it, and the world's events that are armed: each
/// falls before the access or the wait that it was armed for.
pub struct Bench<B: Bus + Drop, F: FlashDev> {
    pub(crate) ec: Ec<B, F>,
    pub(crate) journal: Journal,
    pub(crate) arms: Arms,
}

impl<B: Bus + Drop, F: FlashDev> Model for Bench<B, F> {
    ghost use Rattle.bench_wire.specs.BenchView.{BenchView};

    ghost Value = { BenchView };

    ghost use Rattle.std.specs.Prelude.{◌-◌};
    ghost use Rattle.bench_wire.specs.BenchView.{IsBench};
    ghost use Rattle.bench_wire.specs.Arming.{room_for};

    ghost invariant = { λ bench. IsBench B.bus bench.ec bench.journal bench.arms };

    ghost view = { λ bench. record {
      entries = bench.journal.entries;
      spare = bench.journal.spare - room_for bench.arms;
      armed = bench.arms;
      controller = bench.ec;
    } };
}

impl<B: Bus + Drop, F: Tear> Bench<B, CutFlash<F>> {
    ghost use Rattle.std.specs.Prelude.{◌≤◌, length};
    ghost use Rattle.flash_dev.specs.Cuts.{cut_at};
    ghost use Rattle.bench_wire.specs.BenchView.{wire_view};

    /// Arms a cut of power in place of the one that was armed: the `n`th flash operation from now on loses power, and the
    /// first bytes of its range become `torn`. At 0 none is armed. Adds no entry.
    pub fn arm_cut(&mut self, n: u32, torn: &[u8])
        requires { length torn.now ≤ 4096 }
        ensures { wire_view B.bus self.new ≡ record (wire_view B.bus self.old) { cut = cut_at n torn.now } }
    {
        self.ec.arm_cut(n, torn);
    }
}

impl<B: Bus + Drop, F: FlashDev> Bench<B, F> {
    ghost use Rattle.std.specs.Prelude.{◌≤◌, ◌+◌, ℕ, length, IfSome};
    ghost use Rattle.ec_model.specs.Bench.{due_events, byte_among};
    ghost use Rattle.ec_wire.specs.Calls.{Agrees};
    ghost use Rattle.bench_wire.specs.BenchView.{wire_view};
    ghost use Rattle.bench_wire.specs.Adding.{Adds, Happens, IsMarked};
    ghost use Rattle.bench_wire.specs.Arming.{IsArmed, events_of, room_for};
    ghost use Rattle.bench_wire.specs.Calling.{CallAdds};
    ghost use Rattle.bench_wire.specs.Falling.{Falls, Steps, come_nearer};
    ghost use Rattle.ec_model.specs.declared.event.Entry.TheVariants.{Mark as MarkEntry};

    /// The controller, with an empty journal that has no room yet. Nothing is armed.
    pub fn new(alloc: Global, ec: Ec<B, F>) -> Bench<B, F>
        ensures { result ≡ record { entries = []; spare = 0; armed = []; controller = ec } }
    {
        // What the controller tells agrees with its table: each of its calls promises that.
        let _kind = ec.kind();
        Bench {
            ec,
            journal: Journal::new(alloc),
            arms: Arms::new(),
        }
    }

    /// One event of the controller, with its entry: what it answers.
    #[inline(always)]
    pub(crate) fn step(&mut self, event: Event) -> u8
        requires { 1 ≤ self.old.spare }
        ensures steps { Steps event result (event_byte event) result self.new.controller.hurt (wire_view B.bus self.old)
            (wire_view B.bus self.new) }
        ensures agrees { IfSome self.new.controller.table (Agrees B.bus self.new.controller.on) }
    {
        self.step_as(event, byte_of(event), None)
    }

    // One event of the controller, with its entry, where the host sent this byte, and sees another one than is answered if
    // one is given.
    #[inline(always)]
    fn step_as(&mut self, event: Event, meant: u8, seen: Option<u8>) -> u8
        requires { 1 ≤ self.old.spare }
        ensures steps { Steps event result meant (unwrap_or seen result) self.new.controller.hurt (wire_view B.bus self.old)
            (wire_view B.bus self.new) }
        ensures agrees { IfSome self.new.controller.table (Agrees B.bus self.new.controller.on) }
    {
        let answer = self.ec.step(event);
        self.journal.push(Entry::Step {
            event,
            answer,
            meant,
            seen: seen.unwrap_or(answer),
            hurt: self.ec.hurt(),
        });
        answer
    }

    // Events of the world fall, one after the other.
    fn fall_each(&mut self, due: &[ArmedEvent])
        requires { length (events_among (events_of due.now)) ≤ self.old.spare }
        ensures { Falls (events_of due.now) (wire_view B.bus self.old) (wire_view B.bus self.new) }
    {
        for armed in due {
            self.fall_one(armed.event());
        }
    }

    // An event of the world falls. A changed byte changes nothing by itself.
    fn fall_one(&mut self, happened: WorldEvent)
        requires { length (events_among (happened ∷ [])) ≤ self.old.spare }
        ensures { Falls (happened ∷ []) (wire_view B.bus self.old) (wire_view B.bus self.new) }
    {
        if let Some(event) = event_of(happened) {
            let _ = self.step(event);
        }
    }

    /// What is armed comes nearer by one access or wait, and what is due before it falls. Gives the last changed byte among
    /// that.
    pub(crate) fn fall_due(&mut self) -> Option<u8>
        ensures falls { Falls (due_events self.old.armed) (come_nearer (wire_view B.bus self.old)) (wire_view B.bus self.new) }
        ensures byte { (byte : ℕ) → unwrap_or result byte ≡ byte_among (due_events self.old.armed) byte }
    {
        let due = self.arms.come_nearer();
        self.fall_each(due.as_slice());
        last_byte(due.as_slice())
    }

    /// One event of the host's behind the events that are due: the last changed byte among them takes the place of the
    /// byte of an access, and is dropped at a tick.
    #[inline(never)]
    pub(crate) fn step_behind(&mut self, event: Event) -> u8
        requires { 1 ≤ self.old.spare }
        ensures adds { CallAdds event result (wire_view B.bus self.old) (wire_view B.bus self.new) }
        ensures agrees { IfSome self.new.controller.table (Agrees B.bus self.new.controller.on) }
    {
        let changed = self.fall_due();
        let seen = seen_instead(event, changed);
        let answer = self.step_as(arriving(event, changed), byte_of(event), seen);
        seen.unwrap_or(answer)
    }

    /// Arms an event of the world: it falls before the `n`th access or wait from now, behind the others that are due then.
    /// A changed byte takes the place of the byte of that access. An event of the world now, and the mark of a line, bring
    /// none nearer.
    pub fn arm(&mut self, n: u32, happened: WorldEvent) -> Result<(), ArmsFull>
        requires some { 1 ≤ n }
        requires room { 1 ≤ self.old.spare }
        ensures { IsArmed n happened result (wire_view B.bus self.old) (wire_view B.bus self.new) }
    {
        self.arms.arm(n, happened)
    }

    /// An event of the world happens now. A changed byte is none: it belongs to an access.
    pub fn world(&mut self, happened: WorldEvent)
        requires room { 1 ≤ self.old.spare }
        requires event { IsFalse (is_byte happened) }
        ensures { Happens happened (wire_view B.bus self.old) (wire_view B.bus self.new) }
    {
        match event_of(happened) {
            Some(event) => {
                let _ = self.step(event);
            }
            None => unreachable!(),
        }
    }

    /// Marks that a line of the script begins, counted from 1.
    pub fn mark(&mut self, line: u32)
        requires { 1 ≤ self.old.spare }
        ensures adds { Adds (MarkEntry line) (wire_view B.bus self.old) (wire_view B.bus self.new) }
        ensures marked { IsMarked line (wire_view B.bus self.old) (wire_view B.bus self.new) }
    {
        self.journal.push(Entry::Mark { line });
    }

    /// All that happened so far. Its room is that of the bench and what is kept for the armed events.
    pub fn journal(&self) -> &Journal
        ensures { result.now ≡ record { entries = self.now.entries; spare = self.now.spare + room_for self.now.armed } }
    {
        &self.journal
    }

    /// The flash as the controller left it, and the journal.
    pub fn finish(self) -> (F, Journal)
        ensures flash { F.seen result.0 ≡ self.controller.device }
        ensures journal { result.1 ≡ record { entries = self.entries; spare = self.spare + room_for self.armed } }
        ensures table { option_map (λ table. table.flash) self.controller.table ≡ self.controller.device.held }
    {
        let Bench {
            ec,
            journal,
            arms: _,
        } = self;
        (ec.into_flash(), journal)
    }
}

// The event of the controller that an event of the world is. A changed byte is none.
fn event_of(happened: WorldEvent) -> Option<Event>
    ensures { option_to_list result ≡ events_among (happened ∷ []) }
{
    match happened {
        WorldEvent::Reset { cause } => Some(Event::Reset { cause }),
        WorldEvent::Power { on } => Some(Event::Power { on }),
        WorldEvent::Pin { on } => Some(Event::Pin { on }),
        WorldEvent::Byte { .. } => None,
    }
}

// The byte that an event brings to the controller, and 0 where it brings none.
fn byte_of(event: Event) -> u8
    ensures { result ≡ event_byte event }
{
    match event {
        Event::Access { a } => match a {
            Access::PortOut { port: _, byte } => byte,
            Access::I2cWrite { byte } => byte,
            Access::SpiByte { byte } => byte,
            _ => 0,
        },
        _ => 0,
    }
}

// An event as it arrives: a changed byte takes the place of one that is sent.
fn arriving(event: Event, changed: Option<u8>) -> Event
    ensures { result ≡ arriving event changed }
{
    match event {
        Event::Access {
            a: Access::PortOut { port, byte },
        } => Event::Access {
            a: Access::PortOut {
                port,
                byte: changed.unwrap_or(byte),
            },
        },
        Event::Access {
            a: Access::I2cWrite { byte },
        } => Event::Access {
            a: Access::I2cWrite {
                byte: changed.unwrap_or(byte),
            },
        },
        other => other,
    }
}

// What is seen of an event in place of the answer: a changed byte, but where it took the place of the byte that was sent.
fn seen_instead(event: Event, changed: Option<u8>) -> Option<u8>
    ensures { result ≡ seen_instead event changed }
{
    match event {
        Event::Access {
            a: Access::PortOut { .. } | Access::I2cWrite { .. },
        } => None,
        Event::Access { .. } => changed,
        _ => None,
    }
}
