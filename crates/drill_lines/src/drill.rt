// A drill, and its text.
ghost use Rattle.std.specs.Prelude.{◌≡◌, ◌≤◌, [], length};
ghost use Rattle.flash_dev.specs.Counts.{Rose};
ghost use Rattle.bench_wire.specs.BenchView.{wire_view};
ghost use Rattle.drill_lines.specs.Drilling.{RunsDrill, TriesDrill, drill_text};

use crate::rounds::play;
use bench_io::{LineText, PrintErr, Sink, print};
use bench_wire::Bench;
use drill_draws::{DrillImage, Generator};
use ec_wire::Bus;
use flash_dev::{CutFlash, Geometry, Tear};

/// What a drill is drawn from, and how many rounds it has.
#[derive(Clone, Copy)]
pub struct Drill {
    pub x: u32,
    /// At most 64.
    pub rounds: u32,
}

/// What the rounds of a drill came to.
#[derive(Clone, Copy)]
pub struct Counts {
    /// Those behind whose first sync the power was gone.
    pub cuts: u32,
    /// Those whose second sync was done.
    pub done: u32,
}

/// Carries out a drill, and prints what its rounds came to. `geometry` is that of the controller's flash; each round's image
/// is drawn into `image`, and the text is made in `text`, whatever they had. Where memory is refused, the rounds so far
/// stand, and nothing is printed.
pub fn run<B: Bus + Drop, F: Tear, K: Sink>(
    bench: &mut Bench<B, CutFlash<F>>,
    geometry: Geometry,
    drill: Drill,
    image: &mut DrillImage,
    text: &mut LineText,
    sink: &mut K,
) -> Result<(), PrintErr>
    requires { drill.rounds ≤ 64 }
    ensures runs { RunsDrill result geometry drill.x drill.rounds (wire_view B.bus bench.old)
        (wire_view B.bus bench.new) (K.written sink.old) (K.written sink.new) }
    ensures cause { result ≡ Err PrintErr.Sink → Rose (K.faults sink.old) (K.faults sink.new) }
    ensures later { K.faults sink.old ≤ K.faults sink.new }
{
    text.clear();
    play_all(bench, geometry, drill, image, text)?;
    text.append(b"\n");
    print(sink, text.as_bytes())
}

// Carries out a drill, and leaves its text.
fn play_all<B: Bus + Drop, F: Tear>(
    bench: &mut Bench<B, CutFlash<F>>,
    geometry: Geometry,
    drill: Drill,
    image: &mut DrillImage,
    text: &mut LineText,
) -> Result<(), PrintErr>
    requires rounds { drill.rounds ≤ 64 }
    requires empty { text.old ≡ [] }
    ensures tries { TriesDrill result geometry drill.x drill.rounds text.new (wire_view B.bus bench.old)
        (wire_view B.bus bench.new) }
    ensures short { length text.new ≤ 200 }
{
    let mut generator = Generator::new(drill.x);
    let counts = play(bench, geometry, drill.rounds, &mut generator, image)?;
    add_counts(drill.rounds, counts, text);
    Ok(())
}

// Appends what is said of a drill.
fn add_counts(rounds: u32, counts: Counts, text: &mut LineText)
    requires { text.old ≡ [] }
    ensures text { text.new ≡ drill_text rounds counts.cuts counts.done }
    ensures short { length text.new ≤ 200 }
{
    text.append_number(b"drill: ", rounds);
    text.append_number(b" rounds, ", counts.cuts);
    text.append_number(b" cuts, ", counts.done);
    text.append(b" done");
}
