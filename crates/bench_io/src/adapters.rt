// A source over a reader and a sink over a writer. To contracts over sources and sinks they tell no content, since
// nothing vouches for what is behind them.
ghost use Rattle.std.specs.Prelude.{◌≡◌, ◌<◌, ◌≤◌, length, None, IfOk, IsErr, is_some};
ghost use Rattle.std.specs.Result.{result_unwrap_or};
ghost use Rattle.std.specs.Io.KnownBytes.{ReadConsumes, WriteAppends};
ghost use Rattle.flash_dev.specs.Counts.{HasFaults};
ghost use Rattle.flash_dev.specs.Told.{Changes};
ghost use Rattle.bench_io.specs.Streams.{Gives, Puts, asked_for};

use crate::{Sink, Source};
use flash_dev::Failed;
use std::io::{self, ErrorKind, Read, Write};

/// A reader. Each error that it answers is a fault; the last one is kept.
#[derive(Drop)]
pub struct StdSource<R: Read> {
    reader: R,
    faults: u64,
    asked: u64,
    last: usize,
    error: Option<io::Error>,
}

impl<R: Read> StdSource<R> {
    /// Over this reader. Nothing is counted yet.
    pub fn new(reader: R) -> StdSource<R>
        ensures { result ≡ record { reader = reader; faults = 0; asked = 0; last = 0; error = None } }
    {
        StdSource {
            reader,
            faults: 0,
            asked: 0,
            last: 0,
            error: None,
        }
    }

    /// The last error of the reader, if there was one.
    pub fn error(&self) -> Option<&io::Error>
        ensures { is_some result ≡ is_some self.now.error }
    {
        self.error.as_ref()
    }
}

impl<R: Read> Source for StdSource<R> {
    ghost left = { λ source. None };

    ghost faults = { λ source. source.faults };

    ghost asks = { λ source. record { calls = source.asked; last = source.last } };

    fn next(&mut self, buf: &mut [u8]) -> Result<usize, Failed>
        requires { 0 < length buf.old }
        ensures bound { IfOk result (λ count. count ≤ length buf.new) }
        ensures bytes { Changes (Gives result buf.new) None None }
        ensures cause { HasFaults self.old.faults self.new.faults result }
        ensures asks { record { calls = self.new.asked; last = self.new.last } ≡
            asked_for (result_unwrap_or result 0) (record { calls = self.old.asked; last = self.old.last }) }
        // What the reader says of its bytes is handed on.
        ensures passes { ReadConsumes (R.remaining self.old.reader) (R.remaining self.new.reader) result buf.new }
    {
        self.asked = self.asked.saturating_add(1);
        self.last = 0;
        match self.reader.read(buf) {
            Ok(count) => {
                self.last = count;
                Ok(count)
            }
            Err(error) => {
                self.faults = self.faults.saturating_add(1);
                self.error = Some(error);
                Err(Failed)
            }
        }
    }
}

/// A writer. Each error that it answers is a fault, and so is a write that takes nothing; the last error is kept.
#[derive(Drop)]
pub struct StdSink<W: Write> {
    writer: W,
    faults: u64,
    error: Option<io::Error>,
}

impl<W: Write> StdSink<W> {
    /// Over this writer. Nothing is counted yet.
    pub fn new(writer: W) -> StdSink<W>
        ensures { result ≡ record { writer = writer; faults = 0; error = None } }
    {
        StdSink {
            writer,
            faults: 0,
            error: None,
        }
    }

    /// The last error of the writer, if there was one.
    pub fn error(&self) -> Option<&io::Error>
        ensures { is_some result ≡ is_some self.now.error }
    {
        self.error.as_ref()
    }

    // A fault with this error.
    fn fail(&mut self, error: io::Error) -> Result<usize, Failed>
        ensures answer { IsErr result }
        ensures writer { self.new.writer ≡ self.old.writer }
        ensures cause { HasFaults self.old.faults self.new.faults result }
    {
        self.faults = self.faults.saturating_add(1);
        self.error = Some(error);
        Err(Failed)
    }
}

impl<W: Write> Sink for StdSink<W> {
    ghost written = { λ sink. None };

    ghost faults = { λ sink. sink.faults };

    fn put(&mut self, bytes: &[u8]) -> Result<usize, Failed>
        requires { 0 < length bytes.now }
        ensures some { IfOk result (λ count. 0 < count) }
        ensures bound { IfOk result (λ count. count ≤ length bytes.now) }
        ensures bytes { Changes (Puts result bytes.now) None None }
        ensures cause { HasFaults self.old.faults self.new.faults result }
        // What the writer says of its bytes is handed on.
        ensures passes { WriteAppends (W.contents self.old.writer) (W.contents self.new.writer) result bytes.now }
    {
        match self.writer.write(bytes) {
            Ok(0) => self.fail(io::Error::from(ErrorKind::WriteZero)),
            Ok(count) => Ok(count),
            Err(error) => self.fail(error),
        }
    }
}
