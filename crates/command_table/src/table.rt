// One answer for each request, on a state that it spends.
ghost use Rattle.std.specs.Prelude.{◌≡◌, ◌≤◌, [], None, ℕ, option_map};
ghost use Rattle.ec_types.specs.Tables.{packet_limit};
ghost use Rattle.ec_types.specs.declared.reset.ResetCause.TheVariants.{Cold};
ghost use Rattle.flash_dev.specs.Told.{Changes};
ghost use Rattle.flash_protect.specs.Setting.{IsLookedAt};
ghost use Rattle.ec_model.specs.Boot.{booted, fresh_live};
ghost use Rattle.ec_model.specs.Handle.{admitted};
ghost use Rattle.ec_packet.specs.Read.{request_view};
ghost use Rattle.ec_boot.specs.Either.{run_of};
ghost use Rattle.ec_boot.specs.Guarding.{KeepsGuard};
ghost use Rattle.ec_boot.specs.States.{told_core};
ghost use Rattle.command_table.specs.Serving.{Finds, AwaitsJump, IsServed};
ghost use Rattle.ec_boot.specs.States.{RunView};
ghost use Rattle.command_table.specs.After.{
  StaysOn,
  IsAnswered,
  KeepsGuarded,
  IsOnAs,
  boot_hurt,
  refused_status,
  refused_hurt,
};

use crate::Reply;
use crate::reboot::Next;
use crate::requests::serve;
use ec_boot::{Awake, InRo, InRw, JumpNo, Off, Running};
use ec_model::Hurt;
use ec_packet::Request;
use ec_types::{BusKind, ResetCause, limit_of, status};
use flash_dev::FlashDev;

/// What an answer leaves.
pub enum After<F: FlashDev> {
    /// The controller is on and runs RO.
    Ro(InRo<F>),
    /// The controller is on and runs RW.
    Rw(InRw<F>),
    /// The request was a restart, which is done. Nothing is to be sent.
    Reset(InRo<F>),
    /// Power was lost while it answered.
    Off(Off<F>),
}

impl<F: FlashDev> After<F> {
    /// A controller that is on goes on.
    pub fn of(state: Awake<F>) -> After<F>
        ensures { IsOnAs (run_of state) result }
    {
        match state {
            Awake::Ro(on) => After::Ro(on),
            Awake::Rw(on) => After::Rw(on),
        }
    }
}

// Why a jump was refused.
fn refuse(no: JumpNo, reply: &mut Reply)
    ensures status { reply.new.status ≡ refused_status no }
    ensures body { reply.new.body ≡ [] }
    ensures hurt { reply.new.hurt ≡ refused_hurt no }
{
    match no {
        JumpNo::Denied => reply.end_with(status::ACCESS_DENIED),
        JumpNo::Vector => reply.end_with(status::ERROR),
        JumpNo::Fault => reply.end(Hurt::Failed),
    }
}

// A jump to the image that does not run.
fn jump<F: FlashDev>(state: Awake<F>, reply: &mut Reply) -> Awake<F>
    requires { (run_of state).live.erase ≡ None }
    ensures row { (limit : ℕ) (finds : Finds) → 8 ≤ limit → AwaitsJump limit finds (run_of state) (run_of state) →
        StaysOn limit finds reply.new.hurt reply.new.status reply.new.body (run_of state) (run_of result) }
    ensures guard { Changes KeepsGuard (told_core (run_of state)) (told_core (run_of result)) }
{
    match state {
        Awake::Ro(on) => {
            // RO runs, so that RW is the other image.
            let _live = on.live();
            match on.jump() {
                Ok(on) => {
                    reply.succeed();
                    Awake::Rw(on)
                }
                Err((on, no)) => {
                    refuse(no, reply);
                    Awake::Ro(on)
                }
            }
        }
        Awake::Rw(on) => {
            let _live = on.live();
            match on.jump_back() {
                Ok(on) => {
                    reply.succeed();
                    Awake::Ro(on)
                }
                Err((on, no)) => {
                    refuse(no, reply);
                    Awake::Rw(on)
                }
            }
        }
    }
}

// A restart. It hurts where the boot cannot read the stored bits.
fn restart<F: FlashDev>(state: Awake<F>, reply: &mut Reply) -> InRo<F>
    ensures looked { IsLookedAt result.live.pstate_bad (run_of state).device result.device }
    ensures booted { told_core result ≡ option_map (λ flash. booted flash (run_of state).pin Cold result.live.pstate_bad) (run_of state).device.held }
    ensures live { result.live ≡ fresh_live (run_of state).device.extent Cold result.live.ro_now result.live.all_now result.live.pstate_bad }
    ensures pin { result.pin ≡ (run_of state).pin }
    ensures hurt { reply.new.hurt ≡ boot_hurt result.live.pstate_bad }
    ensures guard { Changes KeepsGuard (told_core (run_of state)) (told_core result) }
{
    let on = state.reset(ResetCause::Cold);
    let hurt = if on.live().pstate_bad {
        Hurt::Failed
    } else {
        Hurt::Whole
    };
    reply.end(hurt);
    on
}

/// Ends what `serve` began: makes the jump or the restart that is left to do. Where power was lost, only the flash is left.
pub fn finish<F: FlashDev>(state: Awake<F>, next: Next, reply: &mut Reply) -> After<F>
    requires { next ≡ Next.Jumps → (run_of state).live.erase ≡ None }
    ensures row { (limit : ℕ) (finds : Finds) (old : RunView) → 8 ≤ limit →
        IsServed next limit finds reply.old.hurt reply.old.status reply.old.body old (run_of state) →
        IsAnswered limit finds reply.new.hurt reply.new.status reply.new.body old result }
    ensures guard { (old : RunView) → (run_of state).pin ≡ old.pin → Changes KeepsGuard (told_core old) (told_core (run_of state)) →
        KeepsGuarded old result }
{
    match next {
        Next::Stays => match reply.hurt {
            Hurt::Cut => After::Off(state.cut()),
            _ => After::of(state),
        },
        Next::Jumps => After::of(jump(state, reply)),
        Next::Restarts => After::Reset(restart(state, reply)),
    }
}

/// Answers a request that came on a bus. `reply` becomes the reply; where the controller lost its power, or was restarted,
/// it is not to be sent. A command that is unknown answers 1, a version that is not offered 6, any but
/// GET_COMMS_STATUS and RESEND_RESPONSE while an erase is pending 16, a body that is no spelling 3, and else the command's row
/// answers. Guarded RO stays guarded, and keeps its bytes, whatever fails or is torn inside.
pub fn answer<F: FlashDev>(
    mut state: Awake<F>,
    request: &Request,
    bus: BusKind,
    reply: &mut Reply,
) -> After<F>
    ensures row { IsAnswered (packet_limit bus) (λ core. admitted core (request_view request.now))
        reply.new.hurt reply.new.status reply.new.body (run_of state) result }
    ensures guard { KeepsGuarded (run_of state) result }
{
    // The guarded bytes are the lower half of the flash.
    let _size = state.geometry();
    let next = serve(&mut state, request, limit_of(bus), reply);
    finish(state, next, reply)
}
