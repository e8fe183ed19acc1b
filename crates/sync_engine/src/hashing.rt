// The hash of RW, and whether it is the one that is aimed at.
ghost use Rattle.std.specs.Prelude.{◌≤◌, ◌+◌};
ghost use Rattle.sync_rules.specs.Steps.{Looks, LooksUpTo, Hashes, Checks};
ghost use Rattle.sync_engine.specs.OnWire.{Does};

use crate::asking::{ask_hash, start_hash};
use crate::buffers::Buffers;
use crate::resting::pause;
use ec_wire::Wire;
use sync_rules::{Aim, Stop, required};

// How often the host looks at the hash.
const HASH_LOOKS: u8 = 40;

// One look, behind its waits.
fn look<W: Wire>(
    w: &mut W,
    floor: usize,
    aim: &Aim,
    buffers: &mut Buffers,
) -> Result<Option<bool>, Stop>
    requires sum { floor + 1500 ≤ usize.MAX }
    ensures does { Does (λ setting. Looks setting aim.now) floor result (W.view w.old) (W.view w.new) }
{
    pause(w, floor)?;
    ask_hash(w, floor, aim, buffers)
}

// Looks until the hash is finished.
fn look_up<W: Wire>(w: &mut W, floor: usize, aim: &Aim, buffers: &mut Buffers) -> Result<bool, Stop>
    requires sum { floor + 1500 ≤ usize.MAX }
    ensures does { Does (λ setting. LooksUpTo 40 setting aim.now) floor result (W.view w.old) (W.view w.new) }
{
    for _look in 0..HASH_LOOKS {
        match look(w, floor, aim, buffers) {
            Ok(None) => {}
            Ok(Some(same)) => return Ok(same),
            Err(stop) => return Err(stop),
        }
    }
    Err(Stop::Lost)
}

/// The hash of RW: whether it is the one that is aimed at.
pub fn hash<W: Wire>(
    w: &mut W,
    floor: usize,
    aim: &Aim,
    buffers: &mut Buffers,
) -> Result<bool, Stop>
    requires sum { floor + 1500 ≤ usize.MAX }
    ensures does { Does (λ setting. Hashes setting aim.now) floor result (W.view w.old) (W.view w.new) }
{
    start_hash(w, floor, buffers)?;
    look_up(w, floor, aim, buffers)
}

/// The hash of RW has to be the one that is aimed at.
pub fn check<W: Wire>(w: &mut W, floor: usize, aim: &Aim, buffers: &mut Buffers) -> Result<(), Stop>
    requires sum { floor + 1500 ≤ usize.MAX }
    ensures does { Does (λ setting. Checks setting aim.now) floor result (W.view w.old) (W.view w.new) }
{
    let same = hash(w, floor, aim, buffers)?;
    required(same)
}
