// The rounds of a sync.
ghost use Rattle.std.specs.Prelude.{◌≡◌, ◌≤◌, ◌+◌, ℕ, length};
ghost use Rattle.ec_model.specs.Ranges.{rw_range};
ghost use Rattle.sync_rules.specs.Steps.{Seals, Rewrites, Prepares, CarriesOut};
ghost use Rattle.sync_rules.specs.Syncing.{end_told};
ghost use Rattle.sync_engine.specs.OnWire.{Does, RoundsOn, SyncsOn, SyncsInRoom};

use crate::asking::{ask_copy, disable_jump, protect};
use crate::buffers::Buffers;
use crate::hashing::check;
use crate::planning::plan;
use crate::starting::start;
use crate::writing::install;
use ec_types::protection;
use ec_wire::Wire;
use sync_rules::{Aim, Plan, Stop, SyncEnd, required};

// The room of one round.
const ROUND: usize = 4_000_000;

// How many rounds a sync has at most.
const ROUNDS: usize = 3;

// Locks the flash and the jumps. RW has to have the hash that is aimed at, and to run.
fn seal<W: Wire>(w: &mut W, floor: usize, aim: &Aim, buffers: &mut Buffers) -> Result<(), Stop>
    requires sum { floor + 1500 ≤ usize.MAX }
    ensures does { Does (λ setting. Seals setting aim.now) floor result (W.view w.old) (W.view w.new) }
{
    protect(w, floor, protection::RO_NOW | protection::ALL_NOW, buffers)?;
    disable_jump(w, floor, buffers)?;
    check(w, floor, aim, buffers)?;
    let runs_rw = ask_copy(w, floor, buffers)?;
    required(runs_rw)
}

// Writes RW. It has to have the hash that is aimed at, and to run.
fn rewrite<W: Wire>(
    w: &mut W,
    floor: usize,
    image: &[u8],
    aim: &Aim,
    buffers: &mut Buffers,
) -> Result<(), Stop>
    requires sum { floor + 1500 ≤ usize.MAX }
    requires within { length image.now ≤ (rw_range aim.now.geometry).size }
    ensures does { Does (λ setting. Rewrites setting image.now aim.now) floor result (W.view w.old) (W.view w.new) }
{
    install(w, floor, image, aim.geometry, buffers)?;
    check(w, floor, aim, buffers)?;
    let runs = start(w, floor, buffers)?;
    required(runs)
}

// Writes RW, where the plan says so.
fn prepare<W: Wire>(
    w: &mut W,
    floor: usize,
    image: &[u8],
    plan: &Plan,
    buffers: &mut Buffers,
) -> Result<(), Stop>
    requires sum { floor + 1500 ≤ usize.MAX }
    requires within { length image.now ≤ (rw_range plan.now.aim.geometry).size }
    ensures does { Does (λ setting. Prepares setting image.now plan.now) floor result (W.view w.old) (W.view w.new) }
{
    if plan.rewrites {
        return rewrite(w, floor, image, &plan.aim, buffers);
    }
    Ok(())
}

// Carries a plan out.
fn carry_out<W: Wire>(
    w: &mut W,
    floor: usize,
    image: &[u8],
    plan: &Plan,
    buffers: &mut Buffers,
) -> Result<(), Stop>
    requires sum { floor + 1500 ≤ usize.MAX }
    requires within { length image.now ≤ (rw_range plan.now.aim.geometry).size }
    ensures does { Does (λ setting. CarriesOut setting image.now plan.now) floor result (W.view w.old) (W.view w.new) }
{
    prepare(w, floor, image, plan, buffers)?;
    seal(w, floor, &plan.aim, buffers)
}

// How a round ended, and whether it began to write RW.
#[derive(Clone, Copy)]
struct RoundEnd {
    wrote: bool,
    told: Result<(), Stop>,
}

// One round.
fn round<W: Wire>(w: &mut W, floor: usize, image: &[u8], buffers: &mut Buffers) -> RoundEnd
    requires sum { floor + 1500 ≤ usize.MAX }
    ensures round { RoundsOn image.now floor result.wrote result.told (W.view w.old) (W.view w.new) }
{
    match plan(w, floor, image, buffers) {
        Ok(plan) => RoundEnd {
            wrote: plan.rewrites,
            told: carry_out(w, floor, image, &plan, buffers),
        },
        Err(stop) => RoundEnd {
            wrote: false,
            told: Err(stop),
        },
    }
}

// How the sync ends behind a round; None leads to another.
fn sync_end(told: Result<(), Stop>, wrote: bool) -> Option<SyncEnd>
    ensures { result ≡ end_told told wrote }
{
    match told {
        Ok(()) => Some(SyncEnd::Done { wrote }),
        Err(Stop::Lost) => None,
        Err(Stop::NoPower) => Some(SyncEnd::NoPower),
        Err(Stop::Misfit(fit)) => Some(SyncEnd::BadImage { fit }),
        Err(Stop::Locked(flags)) => Some(SyncEnd::Locked { flags }),
    }
}

/// Syncs the controller's RW to the image, in at most three rounds. A round brings the bus to rest, asks what the
/// controller is, and hashes RW; where that differs, it writes RW, restarting the controller where that is locked; and
/// then it brings RW to run, locks the flash and the jumps, and hashes RW again. What a step does not name stops the
/// round. Takes no memory.
pub fn sync_in<W: Wire>(w: &mut W, image: &[u8]) -> SyncEnd
    ensures syncs { SyncsOn image.now result (W.view w.old) (W.view w.new) }
{
    let mut buffers = Buffers::new();
    let mut wrote = false;
    for count in 0..ROUNDS {
        let floor = (ROUNDS - 1 - count) * ROUND;
        let end = round(w, floor, image, &mut buffers);
        wrote |= end.wrote;
        match sync_end(end.told, wrote) {
            Some(end) => return end,
            None => {}
        }
    }
    SyncEnd::Disturbed
}

/// Makes room for the entries of three rounds, and syncs. `NoMemory` where the room is refused; then nothing was sent.
pub fn sync<W: Wire>(w: &mut W, image: &[u8]) -> SyncEnd
    ensures no_memory { result ≡ SyncEnd.NoMemory → W.view w.new ≡ W.view w.old }
    ensures syncs { ¬ (result ≡ SyncEnd.NoMemory) → SyncsInRoom image.now result (W.view w.old) (W.view w.new) }
{
    match w.reserve(ROUNDS * ROUND) {
        Ok(()) => sync_in(w, image),
        Err(_) => SyncEnd::NoMemory,
    }
}
