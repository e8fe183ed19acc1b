// A tick that serves no request.
ghost use Rattle.std.specs.Prelude.{◌≡◌, IsSome, IsTrue, Some, false};
ghost use Rattle.flash_dev.specs.declared.hurt.Hurt.TheVariants.{Cut};
ghost use Rattle.ec_core.specs.declared.held.Held.TheVariants.{Down};
ghost use Rattle.ec_core.specs.declared.task.Task.TheVariants.{Tick};
ghost use Rattle.ec_core.specs.Held.{held_device, held_pin, is_kept_up, kept_device, kept_pin};
ghost use Rattle.ec_core.specs.Task.{IsCarried, IsKeptTicked};

use crate::carry::{Carried, End, put};
use crate::held::Held;
use ec_boot::Running;
use ec_model::Hurt;
use ec_wire::Bus;
use flash_dev::{DevErr, FlashDev};

// The next block of a pending erase, which may fail, or lose the power; or the next bytes of a hash, whose read may fail.
fn tick_held<F: FlashDev>(held: &mut Option<Held<F>>) -> Result<(), DevErr>
    requires { IsTrue (is_kept_up held.old) }
    ensures { IsKeptTicked result held.old held.new }
{
    match held {
        Some(Held::Up(on)) => on.tick(),
        Some(Held::Down { off: _, pin: _ }) => unreachable!(),
        None => unreachable!(),
    }
}

// What is left without power: the flash and the pin.
fn without_power<F: FlashDev>(held: Held<F>) -> Held<F>
    ensures { result ≡ Down (record { device = held_device held }) (held_pin held) }
{
    match held {
        Held::Up(on) => {
            let pin = on.pin();
            Held::Down { off: on.cut(), pin }
        }
        Held::Down { off, pin } => Held::Down { off, pin },
    }
}

// Power was lost in a tick.
#[inline(never)]
fn lose_power<F: FlashDev>(held: &mut Option<Held<F>>) -> End
    requires { IsSome held.old }
    ensures held { held.new ≡ Some (Down (record { device = kept_device held.old }) (kept_pin held.old)) }
    ensures hurt { result.hurt ≡ Cut }
    ensures restarted { result.restarted ≡ false }
{
    match held.take() {
        Some(before) => {
            let carried = Carried {
                held: without_power(before),
                hurt: Hurt::Cut,
                restarted: false,
            };
            put(held, carried)
        }
        None => unreachable!(),
    }
}

/// Does a tick that serves no request. The state stays where it is, but where power is lost; the bus stays as it is.
pub fn tick<B: Bus, F: FlashDev>(held: &mut Option<Held<F>>, bus: &B) -> End
    requires { IsTrue (is_kept_up held.old) }
    ensures { IsCarried B.bus Tick result.hurt result.restarted (B.state bus.now) (B.state bus.now) held.old held.new }
{
    match tick_held(held) {
        Ok(()) => End {
            hurt: Hurt::Whole,
            restarted: false,
        },
        Err(DevErr::Failed) => End {
            hurt: Hurt::Failed,
            restarted: false,
        },
        Err(DevErr::PowerLost) => lose_power(held),
    }
}
