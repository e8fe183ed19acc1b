// The row of the command that jumps and resets.
ghost use Rattle.std.specs.Prelude.{◌≡◌, ◌≤◌, ℕ, if◌then◌else◌};
ghost use Rattle.ec_model.specs.Bodies.{reboot_ask};
ghost use Rattle.ec_model.specs.Commands.{Reboot};
ghost use Rattle.ec_model.specs.Jump.{same_copy};
ghost use Rattle.command_table.specs.Leaves.{IsSuccess};
ghost use Rattle.command_table.specs.Serving.{IsServed};

use crate::Reply;
use ec_boot::Running;
use ec_params::RebootAsk;
use ec_types::{ImageCopy, status};

/// What is left to do once a request was looked at.
#[derive(Clone, Copy, Debug, PartialEq, Eq)]
pub enum Next {
    /// Nothing: it is answered.
    Stays,
    /// A jump to the image that does not run. Nothing was done yet.
    Jumps,
    /// A restart. Nothing was done yet, and nothing is to be sent.
    Restarts,
}

// A jump to an image: there is nothing to do where it runs already.
fn jump_to(target: ImageCopy, running: ImageCopy, reply: &mut Reply) -> Next
    ensures next { result ≡ (if same_copy target running then Next.Stays else Next.Jumps) }
    ensures done { result ≡ Next.Stays → IsSuccess reply.new.hurt reply.new.status reply.new.body }
{
    if target == running {
        reply.succeed();
        Next::Stays
    } else {
        Next::Jumps
    }
}

/// REBOOT_EC, but for the jump or the restart itself.
pub fn reboot<R: Running>(state: &mut R, ask: RebootAsk, reply: &mut Reply) -> Next
    requires { (R.run state.old).live.erase ≡ None }
    ensures { (limit version : ℕ) → 8 ≤ limit →
        IsServed result limit (λ core. Ok (record { command = Reboot; version = version; body = reboot_ask ask.cmd ask.flags }))
        reply.new.hurt reply.new.status reply.new.body (R.run state.old) (R.run state.new) }
{
    if ask.flags != 0 {
        reply.end_with(status::INVALID_PARAMETER);
        return Next::Stays;
    }
    match ask.cmd {
        RebootAsk::CANCEL => reply.succeed(),
        RebootAsk::JUMP_RO => return jump_to(ImageCopy::Ro, state.live().copy, reply),
        RebootAsk::JUMP_RW => return jump_to(ImageCopy::Rw, state.live().copy, reply),
        RebootAsk::COLD => return Next::Restarts,
        RebootAsk::DISABLE_JUMP => {
            state.disable_jump();
            reply.succeed();
        }
        _ => reply.end_with(status::INVALID_PARAMETER),
    }
    Next::Stays
}
