// The mark of a line in the journal.
ghost use Rattle.std.specs.Prelude.{◌≤◌, OnOk};
ghost use Rattle.ec_wire.specs.Calls.{IsAgreed};
ghost use Rattle.bench_wire.specs.BenchView.{wire_view};
ghost use Rattle.ecbench.specs.Serving.{BeginsLine};

use crate::run::Exit;
use bench_wire::Bench;
use ec_wire::{Bus, Wire};
use flash_dev::FlashDev;

/// Makes room for a line's mark and for one event behind it, and marks the line.
pub fn begin<B: Bus + Drop, F: FlashDev>(bench: &mut Bench<B, F>, number: u32) -> Result<(), Exit>
    ensures begins { BeginsLine result number (wire_view B.bus bench.old) (wire_view B.bus bench.new) }
    ensures room { OnOk result (1 ≤ bench.new.spare) }
    ensures agrees { OnOk result (IsAgreed (wire_view B.bus bench.new)) }
{
    bench.reserve(2)?;
    bench.mark(number);
    Ok(())
}
