// A line before its words are read.
ghost use Rattle.std.specs.Prelude.{◌≡◌};
ghost use Rattle.std.specs.List.{list_any};
ghost use Rattle.script_words.specs.Faults.{by_kind};
ghost use Rattle.script_words.specs.Lines.{checked, is_unprintable};

use crate::{Fault, Wanted};

/// What is wrong with a line, whatever its words are: above 16,384 bytes it is no `ShortLine`, else it is not `Printable`
/// where a byte is not.
pub fn check_line(line: &[u8]) -> Result<(), Fault>
    ensures { by_kind result ≡ checked line.now }
{
    if line.len() > 16_384 {
        Err(Fault::of_line(Wanted::ShortLine))
    } else if has_unprintable(line) {
        Err(Fault::of_line(Wanted::Printable))
    } else {
        Ok(())
    }
}

/// Whether a byte is no printable ASCII.
pub fn is_unprintable(byte: u8) -> bool
    ensures { result ≡ is_unprintable byte }
{
    byte < 0x20 || byte > 0x7E
}

fn has_unprintable(line: &[u8]) -> bool
    ensures { result ≡ list_any is_unprintable line.now }
{
    line.iter().any(|byte| is_unprintable(*byte))
}
