// Lines that call the bus itself.
ghost use Rattle.std.specs.Prelude.{◌≡◌, ◌≤◌};
ghost use Rattle.flash_dev.specs.Counts.{Rose};
ghost use Rattle.bench_wire.specs.BenchView.{wire_view};
ghost use Rattle.script_lines.specs.Lines.{IsInRange};
ghost use Rattle.ecbench.specs.Serving.{ServesCalls};

use crate::marking::begin;
use crate::run::Exit;
use bench_io::{LineText, Sink};
use bench_wire::Bench;
use ec_wire::Bus;
use flash_dev::FlashDev;
use script_lines::BusLine;

/// The line's calls are made, and its text is printed.
pub fn serve_calls<B: Bus + Drop, F: FlashDev, K: Sink>(
    bench: &mut Bench<B, F>,
    number: u32,
    line: &BusLine<'_>,
    text: &mut LineText,
    sink: &mut K,
) -> Result<(), Exit>
    requires { IsInRange line.now }
    ensures serves { ServesCalls result number line.now (wire_view B.bus bench.old)
        (wire_view B.bus bench.new) (K.written sink.old) (K.written sink.new) }
    ensures sink_fault { result ≡ Err Exit.SinkFault → Rose (K.faults sink.old) (K.faults sink.new) }
    ensures later { K.faults sink.old ≤ K.faults sink.new }
{
    begin(bench, number)?;
    bus_lines::run(bench, line, text, sink)?;
    Ok(())
}
