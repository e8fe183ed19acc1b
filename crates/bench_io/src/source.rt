// Where input comes from.
ghost use Rattle.std.specs.Prelude.{◌≡◌, ◌<◌, ◌≤◌, ℕ, List, Option, length, IfOk};
ghost use Rattle.std.specs.Result.{result_unwrap_or};
ghost use Rattle.flash_dev.specs.Counts.{HasFaults};
ghost use Rattle.flash_dev.specs.Told.{Changes};
ghost use Rattle.bench_io.specs.Streams.{Asks, Gives, asked_for};

use flash_dev::Failed;

pub trait Source {
    /// The bytes that are left, where the source tells them. No call changes whether it does.
    ghost left: { Self → Option (List ℕ) };

    /// How often a call has failed. The count never falls, and stands still at its type's last value.
    ghost faults: { Self → ℕ };

    /// How often it was asked, up to the type's last value, and how many bytes it gave when it was asked last.
    ghost asks: { Self → Asks };

    /// Puts some of the next bytes into the first places of the buffer, and answers how many; 0 is the end of the
    /// input. `Failed` takes nothing.
    fn next(&mut self, buf: &mut [u8]) -> Result<usize, Failed>
        requires { 0 < length buf.old }
        ensures bound { IfOk result (λ count. count ≤ length buf.new) }
        ensures bytes { Changes (Gives result buf.new) (left self.old) (left self.new) }
        ensures cause { HasFaults (faults self.old) (faults self.new) result }
        ensures asks { asks self.new ≡ asked_for (result_unwrap_or result 0) (asks self.old) };
}
