// A script, served line by line.
ghost use Rattle.std.specs.Prelude.{◌≡◌, ◌≤◌, ◌↔◌, false, drop, length, nat_lt, if◌then◌else◌, IsTrue, IsFalse};
ghost use Rattle.flash_dev.specs.Counts.{Rose};
ghost use Rattle.bench_wire.specs.BenchView.{wire_view};
ghost use Rattle.bench_wire.specs.Adding.{is_byte};
ghost use Rattle.std.specs.Prelude.{List};
ghost use Rattle.ec_model.specs.declared.event.Entry.{Entry};
ghost use Rattle.script_lines.specs.Lines.{line_of};
ghost use Rattle.script_words.specs.Faults.{kind_of};
ghost use Rattle.ecbench.specs.declared.run.Exit.TheVariants.{BadLine};
ghost use Rattle.ecbench.specs.Endings.{PowersOn};
ghost use Rattle.ecbench.specs.Lines.{Around};
ghost use Rattle.ecbench.specs.Serving.{fresh_reader, Drives, Serves, ServesLine, ServesEvent, exit_at};

use crate::arming::{MOST_TORN, serve_at, serve_cut};
use crate::calling::serve_calls;
use crate::drilling::serve_drill;
use crate::marking::begin;
use crate::run::Exit;
use crate::setup::Setup;
use crate::syncing::serve_sync;
use crate::tracing::serve_trace;
use bench_io::{Sink, Source, print};
use bench_shelf::Shelf;
use bench_wire::Bench;
use drill_draws::DrillImage;
use drill_lines::Drill;
use ec_model::WorldEvent;
use ec_types::Why;
use ec_wire::{Bus, Wire};
use ectool_lines::{Buffers, parse_checked, run};
use flash_dev::{CutFlash, Failed, FlashDev, Tear};
use line_reader::{LineReader, Next};
use script_lines::Line;
use script_words::Fault;

/// The most lines that a script can have: each but the last takes a byte, of which there are at most 16,777,216.
const MOST_LINES: u32 = 16_777_217;

/// Makes room in the journal for the power-on, and serves the script.
pub fn drive<B: Bus + Drop, F: Tear, S: Source, K: Sink, H: Shelf>(
    bench: &mut Bench<B, CutFlash<F>>,
    setup: &Setup,
    reader: &mut LineReader,
    source: &mut S,
    sink: &mut K,
    shelf: &mut H,
) -> Exit
    requires off { bench.old.controller.on ≡ false }
    requires fresh { reader.old ≡ fresh_reader }
    ensures drives { Drives (record { size = setup.now.geometry; files = H.files shelf.old }) result
        (wire_view B.bus bench.old) (wire_view B.bus bench.new) (S.left source.old) (S.left source.new)
        (K.written sink.old) (K.written sink.new) }
    ensures source_fault { result ≡ Exit.SourceFault → Rose (S.faults source.old) (S.faults source.new) }
    ensures sink_fault { result ≡ Exit.SinkFault → Rose (K.faults sink.old) (K.faults sink.new) }
    ensures shelf_fault { result ≡ Exit.ShelfFault → Rose (H.faults shelf.old) (H.faults shelf.new) }
{
    match bench.reserve(1) {
        Ok(()) => {}
        Err(_) => return Exit::NoMemory,
    }
    power_on(bench);
    serve(bench, setup, reader, source, sink, shelf)
}

// Powers the controller on.
fn power_on<B: Bus + Drop, F: FlashDev>(bench: &mut Bench<B, F>)
    requires room { 1 ≤ bench.old.spare }
    requires off { bench.old.controller.on ≡ false }
    ensures { PowersOn (wire_view B.bus bench.old) (wire_view B.bus bench.new) }
{
    bench.world(WorldEvent::Power { on: true });
}

// Reads the script line by line, and carries out each line before the next one is read.
fn serve<B: Bus + Drop, F: Tear, S: Source, K: Sink, H: Shelf>(
    bench: &mut Bench<B, CutFlash<F>>,
    setup: &Setup,
    reader: &mut LineReader,
    source: &mut S,
    sink: &mut K,
    shelf: &mut H,
) -> Exit
    requires { reader.old ≡ fresh_reader }
    ensures serves { Serves (record { size = setup.now.geometry; files = H.files shelf.old }) result
        (wire_view B.bus bench.old) (wire_view B.bus bench.new) (S.left source.old) (S.left source.new)
        (K.written sink.old) (K.written sink.new) }
    ensures source_fault { result ≡ Exit.SourceFault → Rose (S.faults source.old) (S.faults source.new) }
    ensures sink_fault { result ≡ Exit.SinkFault → Rose (K.faults sink.old) (K.faults sink.new) }
    ensures shelf_fault { result ≡ Exit.ShelfFault → Rose (H.faults shelf.old) (H.faults shelf.new) }
{
    let mut room = Room {
        buffers: Buffers::new(),
        torn: [0; MOST_TORN],
        image: DrillImage::new(),
    };
    let mut since = 0;
    for number in 1..=MOST_LINES {
        let next = match reader.next(source) {
            Ok(next) => next,
            Err(Failed) => return Exit::SourceFault,
        };
        if let Some(exit) = exit_at(next, number) {
            return exit;
        }
        let start = bench.journal().len();
        let place = Place { number, since };
        if let Err(exit) = serve_line(bench, setup, place, reader.line(), &mut room, sink, shelf) {
            return exit;
        }
        since = since_line(since, start, bench.journal().len());
        if is_last(next) {
            return Exit::Done;
        }
    }
    unreachable!()
}

// Where the entries of the last line begin that did something, once a line was read: each that does something is marked.
fn since_line(since: usize, start: usize, end: usize) -> usize
    ensures { result ≡ (if nat_lt start end then start else since) }
{
    if start < end { start } else { since }
}

// Whether a line is the last one, which the end of the script ends.
fn is_last(next: Next) -> bool
    ensures { IsTrue result ↔ (next ≡ Next.Last) }
{
    matches!(next, Next::Last)
}

// The exit that ends the script before this line, if there is one.
fn exit_at(next: Next, number: u32) -> Option<Exit>
    ensures { result ≡ exit_at next number }
{
    match next {
        Next::Line | Next::Last => None,
        Next::End => Some(Exit::Done),
        Next::TooLong => Some(Exit::BadLine {
            line: number,
            why: Why::TooLong,
        }),
        Next::Full => Some(Exit::ScriptTooLong),
    }
}

/// The buffers that all lines use.
#[derive(Drop)]
struct Room {
    buffers: Buffers,
    torn: [u8; MOST_TORN],
    image: DrillImage,
}

// Where a line stands: its number, counted from 1, and where in the journal the last line before begins that did something.
#[derive(Clone, Copy)]
struct Place {
    number: u32,
    since: usize,
}

// Does a line, passes over one that does nothing, or refuses one that is outside the grammar.
fn serve_line<B: Bus + Drop, F: Tear, K: Sink, H: Shelf>(
    bench: &mut Bench<B, CutFlash<F>>,
    setup: &Setup,
    place: Place,
    line: &[u8],
    room: &mut Room,
    sink: &mut K,
    shelf: &mut H,
) -> Result<(), Exit>
    requires { place.since ≤ length bench.old.entries }
    ensures serves { ServesLine (record { size = setup.now.geometry; files = H.files shelf.old }) result place.number
        (drop place.since bench.old.entries) line.now (wire_view B.bus bench.old) (wire_view B.bus bench.new)
        (K.written sink.old) (K.written sink.new) }
    ensures files { H.files shelf.new ≡ H.files shelf.old }
    ensures shelf_fault { result ≡ Err Exit.ShelfFault → Rose (H.faults shelf.old) (H.faults shelf.new) }
    ensures shelf_later { H.faults shelf.old ≤ H.faults shelf.new }
    ensures sink_fault { result ≡ Err Exit.SinkFault → Rose (K.faults sink.old) (K.faults sink.new) }
    ensures later { K.faults sink.old ≤ K.faults sink.new }
{
    let number = place.number;
    match script_lines::parse(line) {
        Ok(Line::Nothing) => Ok(()),
        Ok(Line::Tool) => serve_tool(bench, number, line, &mut room.buffers, sink),
        Ok(Line::Pin { on }) => serve_event(bench, number, WorldEvent::Pin { on }, sink),
        Ok(Line::Power { on }) => serve_event(bench, number, WorldEvent::Power { on }, sink),
        Ok(Line::Reset { cause }) => serve_event(bench, number, WorldEvent::Reset { cause }, sink),
        Ok(Line::Bus(calls)) => serve_calls(bench, number, &calls, &mut room.buffers.text, sink),
        Ok(Line::At { call, event }) => serve_at(bench, number, call, event, sink),
        Ok(Line::Cut { operation, torn }) => {
            serve_cut(bench, number, operation, &torn, &mut room.torn, sink)
        }
        Ok(Line::Sync { name }) => {
            let text = &mut room.buffers.text;
            serve_sync(bench, setup, number, name.as_bytes(), text, sink, shelf)
        }
        Ok(Line::Drill { x, rounds }) => {
            let Room { buffers, image, .. } = room;
            let drill = Drill { x, rounds };
            serve_drill(bench, setup, number, drill, image, &mut buffers.text, sink)
        }
        Ok(Line::Trace) => serve_trace(bench, number, place.since, &mut room.buffers.text, sink),
        Err(fault) => Err(bad_line(number, fault)),
    }
}

// The exit for a line with this fault.
fn bad_line(number: u32, fault: Fault) -> Exit
    ensures { result ≡ BadLine number (kind_of fault.wanted) }
{
    Exit::BadLine {
        line: number,
        why: fault.why(),
    }
}

// Carries out a line that sends commands, or refuses one that is outside the grammar.
fn serve_tool<B: Bus + Drop, F: FlashDev, K: Sink>(
    bench: &mut Bench<B, F>,
    number: u32,
    line: &[u8],
    buffers: &mut Buffers,
    sink: &mut K,
) -> Result<(), Exit>
    requires { line_of line.now ≡ Ok Line.Tool }
    ensures no_shelf { ¬ (result ≡ Err Exit.ShelfFault) }
    ensures serves { (around : Around) (last : List Entry) → ServesLine around result number last line.now (wire_view B.bus bench.old)
        (wire_view B.bus bench.new) (K.written sink.old) (K.written sink.new) }
    ensures sink_fault { result ≡ Err Exit.SinkFault → Rose (K.faults sink.old) (K.faults sink.new) }
    ensures later { K.faults sink.old ≤ K.faults sink.new }
{
    let tool = match parse_checked(line) {
        Ok(tool) => tool,
        Err(fault) => return Err(bad_line(number, fault)),
    };
    begin(bench, number)?;
    run(bench, &tool, buffers, sink)?;
    Ok(())
}

// An event of the world happens, and `ok` is printed.
fn serve_event<B: Bus + Drop, F: FlashDev, K: Sink>(
    bench: &mut Bench<B, F>,
    number: u32,
    happened: WorldEvent,
    sink: &mut K,
) -> Result<(), Exit>
    requires { IsFalse (is_byte happened) }
    ensures serves { ServesEvent result number happened (wire_view B.bus bench.old) (wire_view B.bus bench.new)
        (K.written sink.old) (K.written sink.new) }
    ensures sink_fault { result ≡ Err Exit.SinkFault → Rose (K.faults sink.old) (K.faults sink.new) }
    ensures later { K.faults sink.old ≤ K.faults sink.new }
{
    begin(bench, number)?;
    bench.world(happened);
    print(sink, b"ok\n")?;
    Ok(())
}
