// A source in memory.
ghost use Rattle.std.specs.Prelude.{◌≡◌, ◌<◌, ◌≤◌, ◌+◌, ◌-◌, Some, length, take, drop, min, is_err, IfOk};
ghost use Rattle.std.specs.Result.{result_unwrap_or};
ghost use Rattle.flash_dev.specs.Calls.{no_calls, is_next_failing, after_call};
ghost use Rattle.flash_dev.specs.Counts.{HasFaults};
ghost use Rattle.flash_dev.specs.Told.{Changes};
ghost use Rattle.bench_io.specs.Streams.{Gives, asked_for};
ghost use Rattle.bench_io.specs.Memory.{asks_of};

use crate::Source;
use flash_dev::{Failed, FailingCalls};
use std::alloc::{AllocError, Global};
use std::marker::Model;

/// Given bytes, of which each call takes as many as are left and the buffer has places for.
#[derive(Drop)]
pub struct MemSource {
    bytes: Vec<u8>,
    taken: usize,
    last: usize,
    calls: FailingCalls,
}

impl Model for MemSource {
    ghost use Rattle.std.specs.Prelude.{◌≤◌, length};
    ghost use Rattle.bench_io.specs.Memory.{SourceState};

    ghost Value = { SourceState };

    ghost view = { λ source. record {
      bytes = source.bytes.items;
      taken = source.taken;
      last = source.last;
      calls =
          source.calls;
    } };

    ghost invariant = { λ source. source.taken ≤ length source.bytes.items };
}

impl MemSource {
    ghost use Rattle.bench_io.specs.Memory.{SourceState};

    /// A source of these bytes. The calls whose numbers, from 1, are in `fail` fail.
    pub fn new(alloc: Global, bytes: &[u8], fail: &[u32]) -> Result<MemSource, AllocError>
        ensures { IfOk result (λ source. source ≡ record {
          bytes = bytes.now;
          taken = 0;
          last = 0;
          calls = no_calls
              fail.now;
        }) }
    {
        Ok(MemSource {
            bytes: bytes.to_vec(alloc)?,
            taken: 0,
            last: 0,
            calls: FailingCalls::new(alloc, fail)?,
        })
    }

    /// How many bytes were given so far.
    pub fn taken(&self) -> usize
        ensures { result ≡ self.now.taken }
    {
        self.taken
    }
}

impl Source for MemSource {
    ghost left = { λ source. Some (drop source.taken source.bytes) };

    ghost faults = { λ source. source.calls.faults };

    ghost asks = { asks_of };

    fn next(&mut self, buf: &mut [u8]) -> Result<usize, Failed>
        requires { 0 < length buf.old }
        ensures bound { IfOk result (λ count. count ≤ length buf.new) }
        ensures bytes { Changes (Gives result buf.new) (Some (drop self.old.taken self.old.bytes)) (Some
            (drop self.new.taken self.new.bytes)) }
        ensures cause { HasFaults self.old.calls.faults self.new.calls.faults result }
        ensures asks { asks_of self.new ≡ asked_for (result_unwrap_or result 0) (asks_of self.old) }
        // It fails exactly at the calls of its list, and else gives all that the buffer has places for.
        ensures exact { is_err result ≡ is_next_failing self.old.calls }
        ensures count { IfOk result (λ count. count ≡ min (length self.old.bytes - self.old.taken) (length buf.old)) }
        ensures state { self.new ≡ record self.old {
          taken = self.old.taken + result_unwrap_or result 0;
          last =
              result_unwrap_or result 0;
          calls = after_call (is_err result) self.old.calls;
        } }
    {
        self.last = 0;
        if self.calls.fails(false) {
            return Err(Failed);
        }
        let (_, rest) = self.bytes.split_at(self.taken);
        let count = copy_front(rest, buf);
        self.taken += count;
        self.last = count;
        Ok(count)
    }
}

// Copies as many bytes as there are and the buffer has places for.
fn copy_front(bytes: &[u8], buf: &mut [u8]) -> usize
    ensures count { result ≡ min (length bytes.now) (length buf.old) }
    ensures front { take result buf.new ≡ take result bytes.now }
{
    let count = bytes.len().min(buf.len());
    let (front, _) = bytes.split_at(count);
    buf[..count].copy_from_slice(front);
    count
}
