// The rows of the commands that start an erase and tell how it ended.
ghost use Rattle.std.specs.Prelude.{◌≡◌, [], false, None, length};
ghost use Rattle.flash_dev.specs.Told.{Changes};
ghost use Rattle.ec_model.specs.Bodies.{flash_erase_ask};
ghost use Rattle.ec_model.specs.FlashRows.{flash_erase_row};
ghost use Rattle.ec_model.specs.InfoRows.{resend_row};
ghost use Rattle.ec_boot.specs.States.{told_core};
ghost use Rattle.command_table.specs.Leaves.{Leaves, KeepsDevice};

use crate::Reply;
use crate::refusals::refused_erase;
use ec_boot::Running;
use ec_params::ERASE_UNIT;
use ec_types::status;

/// FLASH_ERASE: the erase is pending, and the ticks do it.
pub fn flash_erase<R: Running>(state: &mut R, at: u32, count: u32, reply: &mut Reply)
    requires { (R.run state.old).live.erase ≡ None }
    ensures leaves { Changes (λ before after.
        Leaves reply.new.hurt (flash_erase_row before (flash_erase_ask at count)) false []
        (R.run state.old).device (R.run state.new).device before after reply.new.status reply.new.body)
        (told_core (R.run state.old)) (told_core (R.run state.new)) }
    ensures device { KeepsDevice reply.new.hurt (R.run state.old) (R.run state.new) }
    ensures short { length reply.new.body ≡ 0 }
{
    let size = state.geometry().size();
    let live = state.live();
    match refused_erase(size, &live, at, count) {
        Some(status) => reply.end_with(status),
        None => {
            state.start_erase(at / ERASE_UNIT, count / ERASE_UNIT);
            reply.end_with(status::IN_PROGRESS);
        }
    }
}

/// RESEND_RESPONSE: the status of an erase that ended is given once.
pub fn resend<R: Running>(state: &mut R, reply: &mut Reply)
    ensures leaves { Changes (λ before after.
        Leaves reply.new.hurt (resend_row before) false []
        (R.run state.old).device (R.run state.new).device before after reply.new.status reply.new.body)
        (told_core (R.run state.old)) (told_core (R.run state.new)) }
    ensures device { KeepsDevice reply.new.hurt (R.run state.old) (R.run state.new) }
    ensures short { length reply.new.body ≡ 0 }
{
    let status = state.take_saved();
    reply.end_with(status);
}
