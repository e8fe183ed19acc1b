// The bytes that came from a source and were not read yet.
ghost use Rattle.std.specs.Prelude.{◌≡◌, ◌<◌, [], length, OnOk, OnErr};
ghost use Rattle.flash_dev.specs.Counts.{HasFaults};
ghost use Rattle.bench_io.specs.Streams.{asked_for};
ghost use Rattle.line_reader.specs.Taking.{Takes};
ghost use Rattle.line_reader.specs.Bytes.{IsWithin, NoneLeft, FindsByte};

use bench_io::Source;
use flash_dev::Failed;
use std::marker::Model;

/// The most bytes that a script has.
const MOST_BYTES: u32 = 16_777_216;

/// What a call for the next byte found.
#[derive(Clone, Copy)]
pub enum Came {
    /// This byte.
    Byte(u8),
    /// The end of the input.
    End,
    /// One byte more than a script has.
    Full,
}

/// The bytes that came in one read and were not taken yet, and how many were taken in all.
#[derive(Drop)]
pub struct Input {
    chunk: [u8; 4096],
    start: usize,
    end: usize,
    given: u32,
}

impl Model for Input {
    ghost use Rattle.std.specs.Prelude.{◌≤◌, take, drop};
    ghost use Rattle.line_reader.specs.Bytes.{InputView, IsWithin};

    ghost Value = { InputView };

    ghost view = { λ input. record { ahead = drop input.start (take input.end input.chunk); given = input.given } };

    ghost invariant = { λ input. (input.start ≤ input.end) × (input.end ≤ 4096) × IsWithin (drop input.start (take input.end input.chunk)) input.given };
}

impl Input {
    ghost use Rattle.line_reader.specs.Bytes.{InputView};

    /// With nothing ahead.
    pub fn new() -> Input
        ensures { result ≡ record { ahead = []; given = 0 } }
    {
        Input {
            chunk: [0; 4096],
            start: 0,
            end: 0,
            given: 0,
        }
    }

    /// Takes the next byte. The source is asked only where no byte is ahead.
    pub fn next_byte<S: Source>(&mut self, source: &mut S) -> Result<Came, Failed>
        ensures finds { FindsByte result self.old self.new (S.left source.old) (S.left source.new) (S.asks source.old) (S.asks source.new) }
        ensures within { IsWithin self.new.ahead self.new.given }
        ensures patient { 0 < length self.old.ahead → source.new ≡ source.old }
        ensures cause { HasFaults (S.faults source.old) (S.faults source.new) result }
    {
        if self.start == self.end {
            self.ask(source)?;
        }
        if self.start == self.end {
            return Ok(Came::End);
        }
        if self.given == MOST_BYTES {
            return Ok(Came::Full);
        }
        let byte = self.chunk[self.start];
        self.start += 1;
        self.given += 1;
        Ok(Came::Byte(byte))
    }

    // Asks the source for the next bytes, and for no more than one byte more than a script has.
    fn ask<S: Source>(&mut self, source: &mut S) -> Result<(), Failed>
        requires { self.old.ahead ≡ [] }
        ensures given { self.new.given ≡ self.old.given }
        ensures taken { Takes self.new.ahead (S.left source.old) (S.left source.new) }
        ensures end { OnOk result (self.new.ahead ≡ [] → NoneLeft (S.left source.new)) }
        ensures failed { OnErr result (self.new.ahead ≡ []) }
        ensures asks { S.asks source.new ≡ asked_for (length self.new.ahead) (S.asks source.old) }
        ensures cause { HasFaults (S.faults source.old) (S.faults source.new) result }
    {
        let room = (MOST_BYTES + 1 - self.given).min(4096) as usize;
        let count = source.next(&mut self.chunk[..room])?;
        self.start = 0;
        self.end = count;
        Ok(())
    }
}
