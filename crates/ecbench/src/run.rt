// The top call: a script is carried out on a controller, and what happened is told.
ghost use Rattle.std.specs.Prelude.{◌≡◌, [], IsTrue, count_by};
ghost use Rattle.flash_dev.specs.Counts.{Rose};
ghost use Rattle.ec_wire.specs.Calls.{RoseBy, is_failed_entry};
ghost use Rattle.flash_dev.specs.Ranges.{is_flash_size};
ghost use Rattle.ecbench.specs.Endings.{
  Ends,
  WhereSpelled,
  CarriesScript,
  RunsTo,
  KeepsRo,
  GuardsRun,
};
ghost use Rattle.ecbench.specs.Statuses.{exit_status};
ghost use Rattle.ecbench.specs.Serving.{exit_of, exit_of_sync};
ghost use Rattle.ecbench.specs.declared.run.Exit.TheVariants as exits;

use crate::serving::drive;
use crate::setup::Setup;
use bench_io::{PrintErr, Sink, Source};
use bench_shelf::Shelf;
use bench_wire::Bench;
use bench_words::{Word, WordsErr};
use bus_i2c::I2c;
use bus_lpc::Lpc;
use bus_spi::Spi;
use ec_core::Ec;
use ec_types::{BusKind, Why};
use ec_wire::{Bus, Journal};
use flash_dev::{CutFlash, FlashDev, Geometry, Tear};
use line_reader::LineReader;
use std::alloc::{AllocError, Global};
use sync_lines::SyncLineErr;
use thiserror::Error;

/// How a run ended.
#[derive(Clone, Copy, Debug, PartialEq, Eq, Error)]
pub enum Exit {
    /// The script was read to its end, and every line was carried out.
    #[error("done")]
    Done,
    /// The words are not the command's.
    #[error("the words are not the command's")]
    BadWords,
    /// The flash has none of the sizes that a controller's flash may have.
    #[error("the flash has no size of 65536 bytes times 1, 2, 4, 8, 16, 32 or 64")]
    BadFlash,
    /// This line, counted from 1, is outside the grammar; those before it were carried out.
    #[error("line {line}: {why}")]
    BadLine { line: u32, why: Why },
    /// The source failed; the whole lines that had come were carried out.
    #[error("the script could not be read")]
    SourceFault,
    /// The sink failed: a line was carried out, and the first bytes of its text were written, but not all.
    #[error("the text could not be written")]
    SinkFault,
    /// The shelf failed, or has no image of the name; the lines before were carried out, and of this one nothing was sent.
    #[error("the image could not be read")]
    ShelfFault,
    /// Memory was refused; the lines before were carried out.
    #[error("out of memory")]
    NoMemory,
    /// The script has more than 16,777,216 bytes; the whole lines among these were carried out.
    #[error("the script has more than 16777216 bytes")]
    ScriptTooLong,
}

impl Exit {
    /// The exit status of the program.
    pub fn status(&self) -> u8
        ensures { result ≡ exit_status self.now }
    {
        match self {
            Exit::Done => 0,
            Exit::BadWords => 2,
            Exit::BadFlash => 3,
            Exit::BadLine { .. } => 4,
            Exit::SourceFault => 5,
            Exit::SinkFault => 6,
            Exit::ShelfFault => 7,
            Exit::NoMemory => 8,
            Exit::ScriptTooLong => 9,
        }
    }
}

impl From<AllocError> for Exit {
    ghost from_gives = { λ refused exit. exit ≡ exits.NoMemory };

    fn from(_refused: AllocError) -> Exit {
        Exit::NoMemory
    }
}

impl From<PrintErr> for Exit {
    ghost from_gives = { λ error exit. exit ≡ exit_of error };

    fn from(error: PrintErr) -> Exit {
        match error {
            PrintErr::Sink => Exit::SinkFault,
            PrintErr::NoMemory => Exit::NoMemory,
        }
    }
}

impl From<SyncLineErr> for Exit {
    ghost from_gives = { λ error exit. exit ≡ exit_of_sync error };

    fn from(error: SyncLineErr) -> Exit {
        match error {
            SyncLineErr::Shelf => Exit::ShelfFault,
            SyncLineErr::Sink => Exit::SinkFault,
            SyncLineErr::NoMemory => Exit::NoMemory,
        }
    }
}

/// How a run ended, with the flash as the controller left it, the journal of all that happened, and the script's
/// reader, which has the line that was read last.
#[derive(Drop)]
pub struct Ended<F> {
    pub exit: Exit,
    pub flash: F,
    pub journal: Journal,
    pub reader: LineReader,
}

/// Carries out the script of the source, line by line, on a controller with this flash, which is off at first. The words
/// name the flash file, the bus, and whether the write-protect pin is asserted at first. Images come from the shelf.
pub fn run<F: Tear, S: Source, K: Sink, H: Shelf>(
    alloc: Global,
    words: &[Word],
    flash: F,
    source: &mut S,
    sink: &mut K,
    shelf: &mut H,
) -> Ended<F>
    // What each exit says of the words, the flash, the shelf, the script, the printed bytes and the journal: which lines were
    // done, and how each of them led from what the bench showed to what it shows then.
    ensures ends { Ends (H.files shelf.old) result.exit words.now (F.seen flash) (F.seen result.flash) (S.left source.old)
        (S.left source.new) (K.written sink.old) (K.written sink.new) result.journal.entries }
    // The journal is a run of the controller, from the flash as it came to the flash as it is handed back.
    ensures run { WhereSpelled words.now (λ bus pin. RunsTo bus pin result.journal.entries (F.seen flash).held
        (F.seen result.flash).held) }
    // Guarded RO is handed back as it came, whatever failed, was torn or was sent, where the pin is asserted at first.
    ensures guard { WhereSpelled words.now (λ bus pin. IsTrue pin → KeepsRo result.journal.entries (F.seen flash).held
        (F.seen result.flash).held) }
    // Once RO is guarded and while the pin stays asserted, it stays so, byte for byte, and each boot ends with RO
    // running, locked where it was guarded: a law of the definitions, of the states that the run of this journal
    // passes.
    ensures guarded { WhereSpelled words.now (λ bus pin. GuardsRun bus pin result.journal.entries (F.seen flash).held) }
    // At most as many entries failed as the flash counted faults.
    ensures faults { RoseBy (count_by is_failed_entry result.journal.entries) (F.seen flash).faults
        (F.seen result.flash).faults }
    // A flash is handed back as it came where the run did not begin.
    ensures bad_words { result.exit ≡ Exit.BadWords → result.flash ≡ flash }
    ensures bad_flash { result.exit ≡ Exit.BadFlash → result.flash ≡ flash }
    // No fault is made up.
    ensures source_fault { result.exit ≡ Exit.SourceFault → Rose (S.faults source.old) (S.faults source.new) }
    ensures sink_fault { result.exit ≡ Exit.SinkFault → Rose (K.faults sink.old) (K.faults sink.new) }
    ensures shelf_fault { result.exit ≡ Exit.ShelfFault → Rose (H.faults shelf.old) (H.faults shelf.new) }
{
    let read = match bench_words::read(alloc, words) {
        Ok(read) => read,
        Err(WordsErr::BadWords) => return refused(alloc, Exit::BadWords, flash),
        Err(WordsErr::NoMemory) => return refused(alloc, Exit::NoMemory, flash),
    };
    let Some(geometry) = Geometry::new(flash.size()) else {
        return refused(alloc, Exit::BadFlash, flash);
    };
    carry_by(
        alloc, flash, geometry, read.bus, read.pin, source, sink, shelf,
    )
}

// Carries out the script on a controller on this bus.
fn carry_by<F: Tear, S: Source, K: Sink, H: Shelf>(
    alloc: Global,
    flash: F,
    geometry: Geometry,
    bus: BusKind,
    pin: bool,
    source: &mut S,
    sink: &mut K,
    shelf: &mut H,
) -> Ended<F>
    requires size { geometry ≡ (F.seen flash).extent }
    requires allowed { IsTrue (is_flash_size (F.seen flash).extent) }
    ensures carries { CarriesScript (H.files shelf.old) bus pin result.exit (F.seen flash) (F.seen result.flash) (S.left source.old)
        (S.left source.new) (K.written sink.old) (K.written sink.new) result.journal.entries }
    ensures source_fault { result.exit ≡ Exit.SourceFault → Rose (S.faults source.old) (S.faults source.new) }
    ensures sink_fault { result.exit ≡ Exit.SinkFault → Rose (K.faults sink.old) (K.faults sink.new) }
    ensures shelf_fault { result.exit ≡ Exit.ShelfFault → Rose (H.faults shelf.old) (H.faults shelf.new) }
{
    match bus {
        BusKind::Lpc => carry_on::<Lpc, F, S, K, H>(
            alloc, flash, geometry, pin, source, sink, shelf,
        ),
        BusKind::I2c => carry_on::<I2c, F, S, K, H>(
            alloc, flash, geometry, pin, source, sink, shelf,
        ),
        BusKind::Spi => carry_on::<Spi, F, S, K, H>(
            alloc, flash, geometry, pin, source, sink, shelf,
        ),
    }
}

// The same, on a bus that is known.
fn carry_on<B: Bus + Drop, F: Tear, S: Source, K: Sink, H: Shelf>(
    alloc: Global,
    flash: F,
    geometry: Geometry,
    pin: bool,
    source: &mut S,
    sink: &mut K,
    shelf: &mut H,
) -> Ended<F>
    requires size { geometry ≡ (F.seen flash).extent }
    requires allowed { IsTrue (is_flash_size (F.seen flash).extent) }
    ensures carries { CarriesScript (H.files shelf.old) B.bus pin result.exit (F.seen flash) (F.seen result.flash) (S.left source.old)
        (S.left source.new) (K.written sink.old) (K.written sink.new) result.journal.entries }
    ensures source_fault { result.exit ≡ Exit.SourceFault → Rose (S.faults source.old) (S.faults source.new) }
    ensures sink_fault { result.exit ≡ Exit.SinkFault → Rose (K.faults sink.old) (K.faults sink.new) }
    ensures shelf_fault { result.exit ≡ Exit.ShelfFault → Rose (H.faults shelf.old) (H.faults shelf.new) }
{
    let ec = Ec::new(CutFlash::new(flash), geometry, pin);
    let mut bench: Bench<B, CutFlash<F>> = Bench::new(alloc, ec);
    let mut reader = LineReader::new();
    let setup = Setup { alloc, geometry };
    let exit = drive(&mut bench, &setup, &mut reader, source, sink, shelf);
    let (flash, journal) = bench.finish();
    Ended {
        exit,
        flash: flash.into_inner(),
        journal,
        reader,
    }
}

// A run that ended before it began.
fn refused<F>(alloc: Global, exit: Exit, flash: F) -> Ended<F>
    ensures exit { result.exit ≡ exit }
    ensures flash { result.flash ≡ flash }
    ensures journal { result.journal.entries ≡ [] }
{
    Ended {
        exit,
        flash,
        journal: Journal::new(alloc),
        reader: LineReader::new(),
    }
}
