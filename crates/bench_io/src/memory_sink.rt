// A sink in memory.
ghost use Rattle.std.specs.Prelude.{◌≡◌, ◌<◌, ◌≤◌, ◌-◌, ◌++◌, ◌==◌, ◌||◌, Some, length, take, min, is_err, IfOk};
ghost use Rattle.std.specs.Result.{result_unwrap_or};
ghost use Rattle.flash_dev.specs.Calls.{no_calls, is_next_failing, after_call};
ghost use Rattle.flash_dev.specs.Counts.{HasFaults};
ghost use Rattle.flash_dev.specs.Told.{Changes};
ghost use Rattle.bench_io.specs.Streams.{Puts};

use crate::Sink;
use flash_dev::{Failed, FailingCalls};
use std::alloc::{AllocError, Global};
use std::marker::Model;

/// A list of bytes with room for so many more, which is taken when the sink is made.
#[derive(Drop)]
pub struct MemSink {
    bytes: Vec<u8>,
    room: usize,
    calls: FailingCalls,
}

impl Model for MemSink {
    ghost use Rattle.std.specs.Prelude.{◌≤◌, ◌+◌, vec_len};
    ghost use Rattle.std.specs.Vec.{vec_capacity};
    ghost use Rattle.bench_io.specs.Memory.{SinkState};

    ghost Value = { SinkState };

    ghost view = { λ sink. record { bytes = sink.bytes.items; room = sink.room; calls = sink.calls } };

    ghost invariant = { λ sink. vec_len sink.bytes + sink.room ≤ vec_capacity sink.bytes };
}

impl MemSink {
    ghost use Rattle.std.specs.Prelude.{[]};
    ghost use Rattle.bench_io.specs.Memory.{SinkState};

    /// A sink with room for so many bytes. The calls whose numbers, from 1, are in `fail` fail.
    pub fn new(alloc: Global, room: usize, fail: &[u32]) -> Result<MemSink, AllocError>
        ensures { IfOk result (λ sink. sink ≡ record { bytes = []; room = room; calls = no_calls fail.now }) }
    {
        Ok(MemSink {
            bytes: Vec::with_capacity(alloc, room)?,
            room,
            calls: FailingCalls::new(alloc, fail)?,
        })
    }

    /// What was appended.
    pub fn bytes(&self) -> &[u8]
        ensures { result.now ≡ self.now.bytes }
    {
        &self.bytes
    }
}

impl Sink for MemSink {
    ghost written = { λ sink. Some sink.bytes };

    ghost faults = { λ sink. sink.calls.faults };

    fn put(&mut self, bytes: &[u8]) -> Result<usize, Failed>
        requires { 0 < length bytes.now }
        ensures some { IfOk result (λ count. 0 < count) }
        ensures bound { IfOk result (λ count. count ≤ length bytes.now) }
        ensures bytes { Changes (Puts result bytes.now) (Some self.old.bytes) (Some self.new.bytes) }
        ensures cause { HasFaults self.old.calls.faults self.new.calls.faults result }
        // It fails exactly at the calls of its list and where no room is left, and else appends all that there is room
        // for.
        ensures exact { is_err result ≡ ((self.old.room == 0) || is_next_failing self.old.calls) }
        ensures count { IfOk result (λ count. count ≡ min self.old.room (length bytes.now)) }
        ensures room { self.new.room ≡ self.old.room - result_unwrap_or result 0 }
        ensures calls { self.new.calls ≡ after_call (is_err result) self.old.calls }
    {
        if self.calls.fails(self.room == 0) {
            return Err(Failed);
        }
        let count = self.room.min(bytes.len());
        let (front, _) = bytes.split_at(count);
        let _ = self.bytes.extend_from_slice(front);
        self.room -= count;
        Ok(count)
    }
}
