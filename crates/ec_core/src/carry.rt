// What a task makes of what the controller holds.
ghost use Rattle.std.specs.Prelude.{◌≡◌, ◌≢◌, Some, IsSome, IsNone, true, false};
ghost use Rattle.ec_model.specs.Bus.{fresh_bus};
ghost use Rattle.ec_core.specs.declared.held.Held.TheVariants.{Up, Down};
ghost use Rattle.ec_boot.specs.declared.awake.Awake.TheVariants.{Ro};
ghost use Rattle.ec_core.specs.declared.task.Task.TheVariants.{Serve, Tick};
ghost use Rattle.command_table.specs.After.{boot_hurt};
ghost use Rattle.ec_core.specs.Held.{is_up, is_kept_up};
ghost use Rattle.ec_core.specs.Task.{IsCarried, CanCarry};

use crate::held::Held;
use crate::serve::serve;
use crate::task::Task;
use crate::tick::tick;
use ec_boot::{Awake, InRo, Off, Running};
use ec_model::Hurt;
use ec_wire::Bus;
use flash_dev::FlashDev;

/// What is held once a task is done, what a flash call did, and whether a request restarted the controller.
pub struct Carried<F: FlashDev> {
    pub held: Held<F>,
    pub hurt: Hurt,
    pub restarted: bool,
}

/// How a task ended: what a flash call did, and whether a request restarted the controller.
#[derive(Clone, Copy)]
pub struct End {
    pub hurt: Hurt,
    pub restarted: bool,
}

// A controller that booted gets a fresh bus. A flash call failed where the stored protection could not be read.
fn booted<B: Bus + Drop, F: FlashDev>(on: InRo<F>, bus: &mut B) -> Carried<F>
    ensures bus { B.state bus.new ≡ fresh_bus B.bus }
    ensures held { result.held ≡ Up (Ro on) }
    ensures hurt { result.hurt ≡ boot_hurt on.live.pstate_bad }
    ensures restarted { result.restarted ≡ false }
{
    *bus = B::fresh();
    let hurt = if on.live().pstate_bad {
        Hurt::Failed
    } else {
        Hurt::Whole
    };
    Carried {
        held: Held::Up(Awake::Ro(on)),
        hurt,
        restarted: false,
    }
}

// A task of a controller that is on, but to serve, or a tick.
fn carry_up<B: Bus + Drop, F: FlashDev>(mut on: Awake<F>, bus: &mut B, task: Task) -> Carried<F>
    requires serve { task ≢ Serve }
    requires tick { task ≢ Tick }
    ensures { IsCarried B.bus task result.hurt result.restarted (B.state bus.old) (B.state bus.new) (Some (Up on)) (Some result.held) }
{
    match task {
        Task::Boot { cause } => booted(on.reset(cause), bus),
        Task::Stop => {
            let pin = on.pin();
            Carried {
                held: Held::Down { off: on.cut(), pin },
                hurt: Hurt::Whole,
                restarted: false,
            }
        }
        Task::SetPin { on: level } => {
            on.set_pin(level);
            Carried {
                held: Held::Up(on),
                hurt: Hurt::Whole,
                restarted: false,
            }
        }
        Task::Serve | Task::Tick => unreachable!(),
    }
}

// A task of a controller that is off.
fn carry_down<B: Bus + Drop, F: FlashDev>(
    off: Off<F>,
    pin: bool,
    bus: &mut B,
    task: Task,
) -> Carried<F>
    requires { CanCarry task (B.state bus.old) false }
    ensures { IsCarried B.bus task result.hurt result.restarted (B.state bus.old) (B.state bus.new) (Some (Down off pin)) (Some result.held) }
{
    match task {
        Task::Boot { cause: _ } => booted(off.power_on(pin), bus),
        Task::SetPin { on } => Carried {
            held: Held::Down { off, pin: on },
            hurt: Hurt::Whole,
            restarted: false,
        },
        Task::Serve | Task::Tick | Task::Stop => unreachable!(),
    }
}

// A task but to serve, or a tick.
fn carry<B: Bus + Drop, F: FlashDev>(held: Held<F>, bus: &mut B, task: Task) -> Carried<F>
    requires task { CanCarry task (B.state bus.old) (is_up held) }
    requires serve { task ≢ Serve }
    requires tick { task ≢ Tick }
    ensures { IsCarried B.bus task result.hurt result.restarted (B.state bus.old) (B.state bus.new) (Some held) (Some result.held) }
{
    match held {
        Held::Up(on) => carry_up(on, bus, task),
        Held::Down { off, pin } => carry_down(off, pin, bus, task),
    }
}

/// A controller holds this from now on. Gives how the task ended.
pub fn put<F: FlashDev>(held: &mut Option<Held<F>>, carried: Carried<F>) -> End
    requires { IsNone held.old }
    ensures held { held.new ≡ Some carried.held }
    ensures hurt { result.hurt ≡ carried.hurt }
    ensures restarted { result.restarted ≡ carried.restarted }
{
    let Carried {
        held: after,
        hurt,
        restarted,
    } = carried;
    match held.replace(after) {
        None => End { hurt, restarted },
        Some(_) => unreachable!(),
    }
}

/// Does a task on what a controller holds. Gives how it ended.
#[inline(never)]
pub fn carry_out<B: Bus + Drop, F: FlashDev>(
    held: &mut Option<Held<F>>,
    bus: &mut B,
    task: Task,
) -> End
    requires held { IsSome held.old }
    requires task { CanCarry task (B.state bus.old) (is_kept_up held.old) }
    ensures { IsCarried B.bus task result.hurt result.restarted (B.state bus.old) (B.state bus.new) held.old held.new }
{
    match task {
        Task::Serve => serve(held, bus),
        Task::Tick => tick(held, bus),
        other => match held.take() {
            Some(before) => put(held, carry(before, bus, other)),
            None => unreachable!(),
        },
    }
}
