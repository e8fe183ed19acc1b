// The rounds of a drill.
ghost use Rattle.std.specs.Prelude.{◌≡◌, ◌≤◌, cond};
ghost use Rattle.bench_wire.specs.BenchView.{wire_view};
ghost use Rattle.drill_lines.specs.Drilling.{
  PlaysHalf,
  ComesBack,
  PlaysRound,
  PlaysRounds,
  SyncsAgain,
  is_done,
};

use crate::drill::Counts;
use bench_io::PrintErr;
use bench_wire::Bench;
use drill_draws::{DrillCut, DrillImage, Generator};
use ec_model::WorldEvent;
use ec_wire::{Bus, Wire};
use flash_dev::{CutFlash, Geometry, Tear};
use sync_engine::{SyncEnd, sync};

/// Plays so many rounds, and counts them.
pub fn play<B: Bus + Drop, F: Tear>(
    bench: &mut Bench<B, CutFlash<F>>,
    geometry: Geometry,
    rounds: u32,
    generator: &mut Generator,
    image: &mut DrillImage,
) -> Result<Counts, PrintErr>
    requires { rounds ≤ 64 }
    ensures { PlaysRounds result geometry generator.old rounds (wire_view B.bus bench.old) (wire_view B.bus bench.new) }
{
    let mut counts = Counts { cuts: 0, done: 0 };
    for played in 0..rounds {
        let cut = generator.draw_round(played + 1, geometry, image);
        let round = play_round(bench, &cut, image.as_slice())?;
        counts.cuts += count(round.lost);
        counts.done += count(round.done);
    }
    Ok(counts)
}

// 1 where something is so, else 0.
fn count(so: bool) -> u32
    ensures { result ≡ cond so 1 0 }
{
    u32::from(so)
}

// What a round came to: whether power was gone behind the first sync, and whether the second one was done.
#[derive(Clone, Copy)]
struct Round {
    lost: bool,
    done: bool,
}

// Plays a round.
fn play_round<B: Bus + Drop, F: Tear>(
    bench: &mut Bench<B, CutFlash<F>>,
    cut: &DrillCut,
    image: &[u8],
) -> Result<Round, PrintErr>
    ensures { PlaysRound result image.now cut.now.operation cut.now.torn (wire_view B.bus bench.old)
        (wire_view B.bus bench.new) }
{
    upset(bench, cut, image)?;
    let on = bench.power();
    bench.arm_cut(0, b"");
    come_back(bench, on)?;
    let done = sync_again(bench, image)?;
    Ok(Round { lost: !on, done })
}

// Arms the cut, and syncs the image.
fn upset<B: Bus + Drop, F: Tear>(
    bench: &mut Bench<B, CutFlash<F>>,
    cut: &DrillCut,
    image: &[u8],
) -> Result<(), PrintErr>
    ensures { PlaysHalf result image.now cut.now.operation cut.now.torn (wire_view B.bus bench.old)
        (wire_view B.bus bench.new) }
{
    bench.arm_cut(cut.operation, &cut.torn);
    if sync(bench, image) == SyncEnd::NoMemory {
        return Err(PrintErr::NoMemory);
    }
    Ok(())
}

// Powers the controller on, where it is off.
fn come_back<B: Bus + Drop, F: Tear>(
    bench: &mut Bench<B, CutFlash<F>>,
    on: bool,
) -> Result<(), PrintErr>
    ensures { ComesBack result on (wire_view B.bus bench.old) (wire_view B.bus bench.new) }
{
    if !on {
        bench.reserve(1)?;
        bench.world(WorldEvent::Power { on: true });
    }
    Ok(())
}

// Syncs the image once more, and whether that is done.
fn sync_again<B: Bus + Drop, F: Tear>(
    bench: &mut Bench<B, CutFlash<F>>,
    image: &[u8],
) -> Result<bool, PrintErr>
    ensures { SyncsAgain result image.now (wire_view B.bus bench.old) (wire_view B.bus bench.new) }
{
    let end = sync(bench, image);
    if end == SyncEnd::NoMemory {
        return Err(PrintErr::NoMemory);
    }
    Ok(is_done(end))
}

// Whether a sync is done.
fn is_done(end: SyncEnd) -> bool
    ensures { result ≡ is_done end }
{
    matches!(end, SyncEnd::Done { .. })
}
