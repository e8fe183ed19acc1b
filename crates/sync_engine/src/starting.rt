// Bringing RW to run, and making it free to be written.
ghost use Rattle.std.specs.Prelude.{◌≤◌, ◌+◌};
ghost use Rattle.sync_rules.specs.Parts.{Then};
ghost use Rattle.sync_rules.specs.Steps.{Jumps, JumpLeads, JumpsAgain, Starts, Unlocks, Frees};
ghost use Rattle.sync_engine.specs.OnWire.{Does};

use crate::asking::{ask_copy, jump, protect, restart};
use crate::buffers::Buffers;
use ec_wire::Wire;
use sync_rules::{Jump, Stop, is_locked, last_jump_end, unlocked};

// A restart, and a second jump.
fn jump_again<W: Wire>(w: &mut W, floor: usize, buffers: &mut Buffers) -> Result<bool, Stop>
    requires sum { floor + 1500 ≤ usize.MAX }
    ensures does { Does JumpsAgain floor result (W.view w.old) (W.view w.new) }
{
    restart(w, floor, buffers)?;
    let jump = jump(w, floor, buffers)?;
    last_jump_end(jump)
}

// A jump, and where it is denied another behind a restart.
fn jump_up<W: Wire>(w: &mut W, floor: usize, buffers: &mut Buffers) -> Result<bool, Stop>
    requires sum { floor + 1500 ≤ usize.MAX }
    ensures does { Does (λ setting. Then (Jumps setting) (JumpLeads setting)) floor result (W.view w.old)
        (W.view w.new) }
{
    match jump(w, floor, buffers) {
        Ok(Jump::Jumped) => Ok(true),
        Ok(Jump::Denied) => jump_again(w, floor, buffers),
        Ok(Jump::Failed) => Ok(false),
        Err(stop) => Err(stop),
    }
}

/// Brings RW to run, where RO does: whether it runs then, or the jump failed.
pub fn start<W: Wire>(w: &mut W, floor: usize, buffers: &mut Buffers) -> Result<bool, Stop>
    requires sum { floor + 1500 ≤ usize.MAX }
    ensures does { Does Starts floor result (W.view w.old) (W.view w.new) }
{
    let runs_rw = ask_copy(w, floor, buffers)?;
    if runs_rw {
        return Ok(true);
    }
    jump_up(w, floor, buffers)
}

// A restart, behind which the flash may not be locked.
fn unlock<W: Wire>(w: &mut W, floor: usize, buffers: &mut Buffers) -> Result<(), Stop>
    requires sum { floor + 1500 ≤ usize.MAX }
    ensures does { Does Unlocks floor result (W.view w.old) (W.view w.new) }
{
    restart(w, floor, buffers)?;
    let flags = protect(w, floor, 0, buffers)?;
    unlocked(flags)
}

/// Makes RW free to be written: RO runs, and the flash is not locked.
pub fn free<W: Wire>(w: &mut W, floor: usize, buffers: &mut Buffers) -> Result<(), Stop>
    requires sum { floor + 1500 ≤ usize.MAX }
    ensures does { Does Frees floor result (W.view w.old) (W.view w.new) }
{
    let flags = protect(w, floor, 0, buffers)?;
    let runs_rw = ask_copy(w, floor, buffers)?;
    if runs_rw | is_locked(flags) {
        return unlock(w, floor, buffers);
    }
    Ok(())
}
