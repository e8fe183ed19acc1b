// A line that is a drill.
ghost use Rattle.std.specs.Prelude.{◌≡◌, ◌≤◌};
ghost use Rattle.flash_dev.specs.Counts.{Rose};
ghost use Rattle.bench_wire.specs.BenchView.{wire_view};
ghost use Rattle.ecbench.specs.Serving.{ServesDrill};

use crate::marking::begin;
use crate::run::Exit;
use crate::setup::Setup;
use bench_io::{LineText, Sink};
use bench_wire::Bench;
use drill_draws::DrillImage;
use drill_lines::Drill;
use ec_wire::Bus;
use flash_dev::{CutFlash, Tear};

/// The rounds of the drill are carried out, and what they came to is printed. Their images are drawn into `image`.
pub fn serve_drill<B: Bus + Drop, F: Tear, K: Sink>(
    bench: &mut Bench<B, CutFlash<F>>,
    setup: &Setup,
    number: u32,
    drill: Drill,
    image: &mut DrillImage,
    text: &mut LineText,
    sink: &mut K,
) -> Result<(), Exit>
    requires { drill.rounds ≤ 64 }
    ensures serves { ServesDrill result setup.now.geometry number drill.x drill.rounds (wire_view B.bus bench.old)
        (wire_view B.bus bench.new) (K.written sink.old) (K.written sink.new) }
    ensures sink_fault { result ≡ Err Exit.SinkFault → Rose (K.faults sink.old) (K.faults sink.new) }
    ensures later { K.faults sink.old ≤ K.faults sink.new }
{
    begin(bench, number)?;
    drill_lines::run(bench, setup.geometry, drill, image, text, sink)?;
    Ok(())
}
