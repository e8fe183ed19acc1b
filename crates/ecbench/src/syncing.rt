// A line that syncs.
ghost use Rattle.std.specs.Prelude.{◌≡◌, ◌≤◌};
ghost use Rattle.flash_dev.specs.Counts.{Rose};
ghost use Rattle.bench_wire.specs.BenchView.{wire_view};
ghost use Rattle.ecbench.specs.Serving.{ServesSync};

use crate::marking::begin;
use crate::run::Exit;
use crate::setup::Setup;
use bench_io::{LineText, Sink};
use bench_shelf::Shelf;
use bench_wire::Bench;
use ec_wire::Bus;
use flash_dev::FlashDev;

/// The image of this name is loaded and synced, and how that ended is printed.
pub fn serve_sync<B: Bus + Drop, F: FlashDev, K: Sink, H: Shelf>(
    bench: &mut Bench<B, F>,
    setup: &Setup,
    number: u32,
    name: &[u8],
    text: &mut LineText,
    sink: &mut K,
    shelf: &mut H,
) -> Result<(), Exit>
    ensures serves { ServesSync result (record { size = setup.now.geometry; files = H.files shelf.old }) number name.now
        (wire_view B.bus bench.old) (wire_view B.bus bench.new) (K.written sink.old) (K.written sink.new) }
    ensures files { H.files shelf.new ≡ H.files shelf.old }
    ensures shelf_fault { result ≡ Err Exit.ShelfFault → Rose (H.faults shelf.old) (H.faults shelf.new) }
    ensures shelf_later { H.faults shelf.old ≤ H.faults shelf.new }
    ensures sink_fault { result ≡ Err Exit.SinkFault → Rose (K.faults sink.old) (K.faults sink.new) }
    ensures later { K.faults sink.old ≤ K.faults sink.new }
{
    begin(bench, number)?;
    sync_lines::run(bench, setup.alloc, setup.geometry, name, shelf, text, sink)?;
    Ok(())
}
