// What a round does before the first byte of the flash is changed.
ghost use Rattle.std.specs.Prelude.{◌≡◌, ◌≤◌, ◌+◌, length, IfOk};
ghost use Rattle.ec_model.specs.Ranges.{rw_range};
ghost use Rattle.sync_rules.specs.Steps.{Surveys, Plans, PlansToWrite, PlansToKeep};
ghost use Rattle.sync_engine.specs.OnWire.{Does};

use crate::asking::{agree, ask_region, ask_size};
use crate::buffers::Buffers;
use crate::hashing::hash;
use crate::resting::rest;
use crate::starting::{free, start};
use ec_wire::Wire;
use sync_rules::{Aim, Plan, Stop, aim_at};

// Brings the bus to rest, and asks what the controller is. The image has to fit.
fn survey<W: Wire>(
    w: &mut W,
    floor: usize,
    image: &[u8],
    buffers: &mut Buffers,
) -> Result<Aim, Stop>
    requires sum { floor + 1500 ≤ usize.MAX }
    ensures does { Does (λ setting. Surveys setting image.now) floor result (W.view w.old) (W.view w.new) }
    ensures within { IfOk result (λ aim. length image.now ≤ (rw_range aim.geometry).size) }
{
    rest(w, floor)?;
    agree(w, floor, buffers)?;
    let geometry = ask_size(w, floor, buffers)?;
    ask_region(w, floor, geometry, buffers)?;
    aim_at(image, geometry)
}

// RW is to be written.
fn plan_to_write<W: Wire>(
    w: &mut W,
    floor: usize,
    aim: &Aim,
    buffers: &mut Buffers,
) -> Result<Plan, Stop>
    requires sum { floor + 1500 ≤ usize.MAX }
    ensures does { Does (λ setting. PlansToWrite setting aim.now) floor result (W.view w.old) (W.view w.new) }
    ensures aim { IfOk result (λ plan. plan.aim ≡ aim.now) }
{
    free(w, floor, buffers)?;
    Ok(Plan {
        aim: *aim,
        rewrites: true,
    })
}

// RW is to be kept, where it can be brought to run.
fn plan_to_keep<W: Wire>(
    w: &mut W,
    floor: usize,
    aim: &Aim,
    buffers: &mut Buffers,
) -> Result<Plan, Stop>
    requires sum { floor + 1500 ≤ usize.MAX }
    ensures does { Does (λ setting. PlansToKeep setting aim.now) floor result (W.view w.old) (W.view w.new) }
    ensures aim { IfOk result (λ plan. plan.aim ≡ aim.now) }
{
    let runs = start(w, floor, buffers)?;
    if runs {
        return Ok(Plan {
            aim: *aim,
            rewrites: false,
        });
    }
    plan_to_write(w, floor, aim, buffers)
}

/// All that comes before the first byte of the flash is changed.
pub fn plan<W: Wire>(
    w: &mut W,
    floor: usize,
    image: &[u8],
    buffers: &mut Buffers,
) -> Result<Plan, Stop>
    requires sum { floor + 1500 ≤ usize.MAX }
    ensures does { Does (λ setting. Plans setting image.now) floor result (W.view w.old) (W.view w.new) }
    ensures within { IfOk result (λ plan. length image.now ≤ (rw_range plan.aim.geometry).size) }
{
    let aim = survey(w, floor, image, buffers)?;
    let same = hash(w, floor, &aim, buffers)?;
    if same {
        return plan_to_keep(w, floor, &aim, buffers);
    }
    plan_to_write(w, floor, &aim, buffers)
}
