// Each line: room for its calls, the calls, and its text.
ghost use Rattle.std.specs.Prelude.{◌≡◌, ◌≤◌, [], length, replicate};
ghost use Rattle.flash_dev.specs.Counts.{Rose};
ghost use Rattle.ec_model.specs.HostCalls.{Waited};
ghost use Rattle.ec_wire.specs.Calls.{Made};
ghost use Rattle.script_lines.specs.Lines.{IsInRange};
ghost use Rattle.bus_lines.specs.BusCalls.{calls_in};
ghost use Rattle.bus_lines.specs.Making.{DoesBusLine, RunsBusLine};

use crate::ports::{read_in_row, write_in_row};
use crate::{i2c, spi};
use bench_io::{LineText, PrintErr, Sink, print};
use ec_model::Access;
use ec_wire::Wire;
use script_lines::BusLine;

// How many calls a line is.
fn calls_in(line: &BusLine<'_>) -> usize
    requires { IsInRange line.now }
    ensures { result ≡ calls_in line.now }
{
    match line {
        BusLine::Tick { count } => *count as usize,
        BusLine::PortsOut { port: _, bytes } => bytes.len(),
        BusLine::PortsIn { port: _, count } => usize::from(*count),
        BusLine::I2cWrite { bytes } => bytes.len() + 2,
        BusLine::I2cRead { count } => usize::from(*count) + 2,
        BusLine::SpiSelect | BusLine::SpiDeselect => 1,
        BusLine::SpiBytes { bytes } => bytes.len(),
    }
}

// Waits so often.
fn wait_times<W: Wire>(w: &mut W, count: u32)
    requires { count ≤ (W.view w.old).spare }
    ensures { Made (replicate count Waited) (W.view w.old) (W.view w.new) }
{
    for _turn in 0..count {
        w.wait();
    }
}

// Makes the calls of a line. The text, which is empty, becomes the line's without its line feed.
fn make_calls<W: Wire>(w: &mut W, line: &BusLine<'_>, text: &mut LineText)
    requires within { IsInRange line.now }
    requires room { calls_in line.now ≤ (W.view w.old).spare }
    requires empty { text.old ≡ [] }
    ensures does { DoesBusLine line.now text.new (W.view w.old) (W.view w.new) }
    ensures short { length text.new ≤ 16384 }
{
    match line {
        BusLine::Tick { count } => {
            wait_times(w, *count);
            text.append(b"ok");
        }
        BusLine::PortsOut { port, bytes } => {
            write_in_row(w, *port, bytes);
            text.append(b"ok");
        }
        BusLine::PortsIn { port, count } => read_in_row(w, *port, *count, text),
        BusLine::I2cWrite { bytes } => {
            i2c::write(w, bytes);
            text.append(b"ok");
        }
        BusLine::I2cRead { count } => i2c::read(w, *count, text),
        BusLine::SpiSelect => {
            w.access(Access::SpiSelect);
            text.append(b"ok");
        }
        BusLine::SpiDeselect => {
            w.access(Access::SpiDeselect);
            text.append(b"ok");
        }
        BusLine::SpiBytes { bytes } => spi::send(w, bytes, text),
    }
}

/// Carries out a line and prints its text: `ok`, or each byte that the host got as two lower case hexadecimal digits. The
/// text is made in `text`, whatever it had.
pub fn run<W: Wire, K: Sink>(
    w: &mut W,
    line: &BusLine<'_>,
    text: &mut LineText,
    sink: &mut K,
) -> Result<(), PrintErr>
    requires { IsInRange line.now }
    ensures runs { RunsBusLine result line.now (W.view w.old) (W.view w.new) (K.written sink.old) (K.written sink.new) }
    ensures cause { result ≡ Err PrintErr.Sink → Rose (K.faults sink.old) (K.faults sink.new) }
    ensures later { K.faults sink.old ≤ K.faults sink.new }
{
    w.reserve(calls_in(line))?;
    text.clear();
    make_calls(w, line, text);
    text.append(b"\n");
    print(sink, text.as_bytes())
}
