// What an event has the controller do.
ghost use Rattle.std.specs.Prelude.{◌≡◌, IsNone, IsTrue};
ghost use Rattle.ec_model.specs.Bus.{due_now};
ghost use Rattle.ec_model.specs.Work.{cause_of, lost_answer, idle_work, Rest};
ghost use Rattle.ec_boot.specs.Either.{run_of};
ghost use Rattle.ec_core.specs.Held.{IsKept};
ghost use Rattle.ec_core.specs.Task.{IsTaken, IsTakenUp, IsTakenDown};

use crate::held::Held;
use ec_boot::{Awake, Running};
use ec_model::{Event, HashView, WorldReset};
use ec_types::ResetCause;
use ec_wire::{Bus, Due};
use flash_dev::FlashDev;

/// What is to be done, once the bus took the access.
#[derive(Clone, Copy)]
pub enum Task {
    Serve,
    /// A tick that serves no request.
    Tick,
    Boot { cause: ResetCause },
    Stop,
    SetPin { on: bool },
}

/// A task, if there is one, and the byte that the event is answered with where power stays.
#[derive(Clone, Copy)]
pub struct Taken {
    pub task: Option<Task>,
    pub answer: u8,
}

// The cause of a reset from outside.
fn reset_cause(cause: WorldReset) -> ResetCause
    ensures { result ≡ cause_of cause }
{
    match cause {
        WorldReset::Pin => ResetCause::Pin,
        WorldReset::Watchdog => ResetCause::Watchdog,
    }
}

/// The answer to an event of a controller that is off, or that lost its power in it: 0xFF to an access.
pub fn answer_without_power(event: Event) -> u8
    ensures { result ≡ lost_answer event }
{
    match event {
        Event::Access { a: _ } => 0xFF,
        _ => 0,
    }
}

// Whether a tick that serves no request has nothing to do: no erase is pending, and no hash is busy.
fn rests<F: FlashDev>(on: &Awake<F>) -> bool
    ensures rest { IsTrue result → idle_work (run_of on.now).live.erase (run_of on.now).live.hash ≡ Rest }
{
    let live = on.live();
    live.erase.is_none() && !matches!(live.hash, HashView::Busy { .. })
}

// What an event has a controller do that is on. A tick that has nothing to do leaves it where it is.
fn task_when_on<B: Bus, F: FlashDev>(on: &Awake<F>, bus: &mut B, event: Event) -> Taken
    requires { IsNone (due_now (B.state bus.old)) }
    ensures { IsTakenUp event (B.state bus.old) result.task (B.state bus.new) result.answer (run_of on.now) }
{
    match event {
        Event::Access { a } => {
            let answer = bus.access(a);
            match bus.due() {
                Due::Now => Taken {
                    task: Some(Task::Serve),
                    answer,
                },
                _ => Taken { task: None, answer },
            }
        }
        Event::Tick => match bus.due() {
            Due::AtTick => Taken {
                task: Some(Task::Serve),
                answer: 0,
            },
            _ => Taken {
                task: if rests(on) { None } else { Some(Task::Tick) },
                answer: 0,
            },
        },
        Event::Reset { cause } => Taken {
            task: Some(Task::Boot {
                cause: reset_cause(cause),
            }),
            answer: 0,
        },
        Event::Power { on: true } => Taken {
            task: None,
            answer: 0,
        },
        Event::Power { on: false } => Taken {
            task: Some(Task::Stop),
            answer: 0,
        },
        Event::Pin { on: level } => Taken {
            task: Some(Task::SetPin { on: level }),
            answer: 0,
        },
    }
}

// What an event has a controller do that is off.
fn task_when_off(event: Event) -> Taken
    ensures { IsTakenDown event result.task result.answer }
{
    let answer = answer_without_power(event);
    match event {
        Event::Power { on: true } => Taken {
            task: Some(Task::Boot {
                cause: ResetCause::PowerOn,
            }),
            answer,
        },
        Event::Pin { on } => Taken {
            task: Some(Task::SetPin { on }),
            answer,
        },
        _ => Taken { task: None, answer },
    }
}

/// What an event has the controller do.
pub fn take<B: Bus, F: FlashDev>(held: &Option<Held<F>>, bus: &mut B, event: Event) -> Taken
    requires { IsKept (B.state bus.old) held.now }
    ensures { IsTaken event (B.state bus.old) result.task (B.state bus.new) result.answer held.now }
{
    match held {
        Some(Held::Up(on)) => task_when_on(on, bus, event),
        Some(Held::Down { off: _, pin: _ }) => task_when_off(event),
        None => unreachable!(),
    }
}
