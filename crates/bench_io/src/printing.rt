// Printing the text of a line.
ghost use Rattle.std.specs.Prelude.{◌≡◌, ◌≤◌};
ghost use Rattle.flash_dev.specs.Counts.{Rose};
ghost use Rattle.bench_io.specs.Printing.{Prints};
ghost use Rattle.bench_io.specs.declared.printing.PrintErr.TheVariants as print_err;

use crate::{Sink, put_all};
use flash_dev::Failed;
use std::alloc::AllocError;

/// Why a line's text was not printed whole.
#[derive(Clone, Copy, Debug, PartialEq, Eq)]
pub enum PrintErr {
    /// The sink failed; the line was carried out.
    Sink,
    /// Memory was refused; nothing was done.
    NoMemory,
}

impl From<Failed> for PrintErr {
    ghost from_gives = { λ failed error. error ≡ print_err.Sink };

    fn from(_failed: Failed) -> PrintErr {
        PrintErr::Sink
    }
}

impl From<AllocError> for PrintErr {
    ghost from_gives = { λ refused error. error ≡ print_err.NoMemory };

    fn from(_refused: AllocError) -> PrintErr {
        PrintErr::NoMemory
    }
}

/// Prints a text.
pub fn print<K: Sink>(sink: &mut K, text: &[u8]) -> Result<(), PrintErr>
    ensures prints { Prints result text.now (K.written sink.old) (K.written sink.new) }
    ensures cause { result ≡ Err PrintErr.Sink → Rose (K.faults sink.old) (K.faults sink.new) }
    ensures later { K.faults sink.old ≤ K.faults sink.new }
{
    put_all(sink, text)?;
    Ok(())
}
