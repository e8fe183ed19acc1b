// The image, the sync, and its text.
ghost use Rattle.std.specs.Prelude.{◌≡◌, ◌≤◌, [], length};
ghost use Rattle.flash_dev.specs.Counts.{Rose};
ghost use Rattle.sync_lines.specs.Syncing.{RunsSync, TriesLoaded, error_of_shelf, error_of_print};

use crate::text::add_end;
use bench_io::{LineText, PrintErr, Sink, print};
use bench_shelf::{Loaded, Shelf, ShelfErr};
use ec_wire::Wire;
use flash_dev::Geometry;
use std::alloc::Global;
use sync_engine::{SyncEnd, sync};

/// The most bytes that an image has on the shelf.
const MOST_IMAGE: usize = 2_097_152;

/// Why a line that syncs was not carried out and printed.
#[derive(Clone, Copy, Debug, PartialEq, Eq)]
pub enum SyncLineErr {
    /// The shelf has no such image, or failed; nothing was done.
    Shelf,
    /// The sink failed; the line was carried out.
    Sink,
    /// Memory was refused; nothing was done.
    NoMemory,
}

impl From<ShelfErr> for SyncLineErr {
    ghost from_gives = { λ cause error. error ≡ error_of_shelf cause };

    fn from(cause: ShelfErr) -> SyncLineErr {
        match cause {
            ShelfErr::Failed => SyncLineErr::Shelf,
            ShelfErr::NoMemory => SyncLineErr::NoMemory,
        }
    }
}

impl From<PrintErr> for SyncLineErr {
    ghost from_gives = { λ cause error. error ≡ error_of_print cause };

    fn from(cause: PrintErr) -> SyncLineErr {
        match cause {
            PrintErr::Sink => SyncLineErr::Sink,
            PrintErr::NoMemory => SyncLineErr::NoMemory,
        }
    }
}

/// Loads the image of this name, syncs it, and prints how that ended. An image of more than 2,097,152 bytes is too long,
/// and uses no bus. `geometry` is that of the controller's flash, for the SHA-256 that is printed. The text is made in
/// `text`, whatever it had.
pub fn run<W: Wire, H: Shelf, K: Sink>(
    w: &mut W,
    alloc: Global,
    geometry: Geometry,
    name: &[u8],
    shelf: &mut H,
    text: &mut LineText,
    sink: &mut K,
) -> Result<(), SyncLineErr>
    ensures runs { RunsSync result (H.files shelf.old) geometry name.now (W.view w.old) (W.view w.new)
        (K.written sink.old) (K.written sink.new) }
    ensures files { H.files shelf.new ≡ H.files shelf.old }
    ensures shelf_fault { result ≡ Err SyncLineErr.Shelf → Rose (H.faults shelf.old) (H.faults shelf.new) }
    ensures shelf_later { H.faults shelf.old ≤ H.faults shelf.new }
    ensures sink_fault { result ≡ Err SyncLineErr.Sink → Rose (K.faults sink.old) (K.faults sink.new) }
    ensures sink_later { K.faults sink.old ≤ K.faults sink.new }
{
    let loaded = shelf.load(alloc, name, MOST_IMAGE)?;
    text.clear();
    sync_loaded(w, geometry, &loaded, text)?;
    text.append(b"\n");
    print(sink, text.as_bytes())?;
    Ok(())
}

// Syncs what the shelf gave, and leaves the text.
fn sync_loaded<W: Wire>(
    w: &mut W,
    geometry: Geometry,
    loaded: &Loaded,
    text: &mut LineText,
) -> Result<(), SyncLineErr>
    requires { text.old ≡ [] }
    ensures tries { TriesLoaded result loaded.now geometry text.new (W.view w.old) (W.view w.new) }
    ensures short { length text.new ≤ 200 }
{
    match loaded {
        Loaded::Whole(image) => {
            let end = sync(w, image.as_slice());
            if end == SyncEnd::NoMemory {
                return Err(SyncLineErr::NoMemory);
            }
            add_end(end, image.as_slice(), geometry, text);
        }
        Loaded::TooLong => text.append(b"sync: image too long"),
    }
    Ok(())
}
