// Lines that arm an event of the world, or a cut of power.
ghost use Rattle.std.specs.Prelude.{◌≡◌, ◌≤◌, length};
ghost use Rattle.flash_dev.specs.Counts.{Rose};
ghost use Rattle.bench_wire.specs.BenchView.{wire_view};
ghost use Rattle.ectool_lines.specs.Texts.{printed};
ghost use Rattle.ecbench.specs.Lines.{armed_text};
ghost use Rattle.ecbench.specs.Serving.{ServesArm, ServesCut};

use crate::marking::begin;
use crate::run::Exit;
use bench_io::{Sink, print};
use bench_wire::{ArmsFull, Bench};
use ec_model::WorldEvent;
use ec_wire::Bus;
use flash_dev::{CutFlash, FlashDev, Tear};
use script_words::HexBytes;

/// The most bytes that a cut leaves torn.
pub const MOST_TORN: usize = 4096;

/// An event of the world is armed for a call to come, and `ok` is printed; or that 64 are armed.
pub fn serve_at<B: Bus + Drop, F: FlashDev, K: Sink>(
    bench: &mut Bench<B, F>,
    number: u32,
    call: u32,
    event: WorldEvent,
    sink: &mut K,
) -> Result<(), Exit>
    requires { 1 ≤ call }
    ensures serves { ServesArm result number call event (wire_view B.bus bench.old) (wire_view B.bus bench.new)
        (K.written sink.old) (K.written sink.new) }
    ensures sink_fault { result ≡ Err Exit.SinkFault → Rose (K.faults sink.old) (K.faults sink.new) }
    ensures later { K.faults sink.old ≤ K.faults sink.new }
{
    begin(bench, number)?;
    let armed = bench.arm(call, event);
    print(sink, armed_text(armed))?;
    Ok(())
}

// What is printed of an event that was to be armed.
fn armed_text(armed: Result<(), ArmsFull>) -> &'static [u8]
    ensures { result.now ≡ printed (armed_text armed) }
{
    match armed {
        Ok(()) => b"ok\n",
        Err(ArmsFull) => b"too many armed events\n",
    }
}

/// A cut is armed for a flash operation to come, in place of the one that was armed, and `ok` is printed. The torn bytes
/// are decoded into `room`.
pub fn serve_cut<B: Bus + Drop, F: Tear, K: Sink>(
    bench: &mut Bench<B, CutFlash<F>>,
    number: u32,
    operation: u32,
    torn: &HexBytes<'_>,
    room: &mut [u8; MOST_TORN],
    sink: &mut K,
) -> Result<(), Exit>
    requires { length torn.now ≤ 4096 }
    ensures serves { ServesCut result number operation torn.now (wire_view B.bus bench.old)
        (wire_view B.bus bench.new) (K.written sink.old) (K.written sink.new) }
    ensures sink_fault { result ≡ Err Exit.SinkFault → Rose (K.faults sink.old) (K.faults sink.new) }
    ensures later { K.faults sink.old ≤ K.faults sink.new }
{
    begin(bench, number)?;
    let bytes = &mut room[..torn.len()];
    torn.decode(0, bytes);
    bench.arm_cut(operation, bytes);
    print(sink, b"ok\n")?;
    Ok(())
}
