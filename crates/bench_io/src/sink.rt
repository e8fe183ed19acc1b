// Where output goes.
ghost use Rattle.std.specs.Prelude.{◌<◌, ◌≤◌, ℕ, List, Option, length, IfOk};
ghost use Rattle.flash_dev.specs.Counts.{HasFaults};
ghost use Rattle.flash_dev.specs.Told.{Changes};
ghost use Rattle.bench_io.specs.Streams.{Puts, PutsAll};

use flash_dev::Failed;

pub trait Sink {
    /// The bytes that were put, where the sink tells them. No call changes whether it does.
    ghost written: { Self → Option (List ℕ) };

    /// How often a call has failed. The count never falls, and stands still at its type's last value.
    ghost faults: { Self → ℕ };

    /// Appends some of the bytes from the first on, at least one, and answers how many. `Failed` appends nothing.
    fn put(&mut self, bytes: &[u8]) -> Result<usize, Failed>
        requires { 0 < length bytes.now }
        ensures some { IfOk result (λ count. 0 < count) }
        ensures bound { IfOk result (λ count. count ≤ length bytes.now) }
        ensures bytes { Changes (Puts result bytes.now) (written self.old) (written self.new) }
        ensures cause { HasFaults (faults self.old) (faults self.new) result };
}

/// Appends all the bytes, or at `Failed` some of them from the first on, and not all.
pub fn put_all<K: Sink>(sink: &mut K, bytes: &[u8]) -> Result<(), Failed>
    ensures bytes { Changes (PutsAll result bytes.now) (K.written sink.old) (K.written sink.new) }
    ensures cause { HasFaults (K.faults sink.old) (K.faults sink.new) result }
{
    let mut rest = bytes;
    while !rest.is_empty() {
        let count = sink.put(rest)?;
        let (_, after) = rest.split_at(count);
        rest = after;
    }
    Ok(())
}
