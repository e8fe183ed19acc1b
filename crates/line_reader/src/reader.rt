// Reads lines.
ghost use Rattle.std.specs.Prelude.{◌≡◌, [], length, nat_le, if◌then◌else◌, ◌==◌};
ghost use Rattle.flash_dev.specs.Counts.{HasFaults};
ghost use Rattle.line_reader.specs.Lines.{HasNoFeed, longest_line, without_return};
ghost use Rattle.line_reader.specs.Bytes.{IsWithin};
ghost use Rattle.line_reader.specs.Finding.{Reads};

use crate::input::{Came, Input};
use arrayvec::ArrayVec;
use bench_io::Source;
use flash_dev::Failed;
use std::marker::Model;

/// The most bytes that a line has without its end.
const LONGEST_LINE: usize = 16_384;

/// What a call for the next line found.
#[derive(Clone, Copy, Debug, PartialEq, Eq)]
pub enum Next {
    /// A line that a line feed ends.
    Line,
    /// A line that the end of the input ends.
    Last,
    /// No byte before the end of the input.
    End,
    /// A line that is too long.
    TooLong,
    /// More bytes than a script may have.
    Full,
}

/// Reads the lines of a script: at most 16,777,216 bytes, in lines of at most 16,384.
#[derive(Drop)]
pub struct LineReader {
    input: Input,
    // With room for a carriage return behind the longest line.
    line: ArrayVec<u8, 16385>,
}

impl Model for LineReader {
    ghost use Rattle.line_reader.specs.Finding.{ReaderView};

    ghost Value = { ReaderView };

    ghost view = { λ reader. record { ahead = reader.input.ahead; given = reader.input.given; line = reader.line.items } };
}

impl LineReader {
    /// A reader that has read nothing yet.
    pub fn new() -> LineReader
        ensures { result ≡ record { ahead = []; given = 0; line = [] } }
    {
        LineReader {
            input: Input::new(),
            line: ArrayVec::new(),
        }
    }

    /// The line that was read last, without its end.
    pub fn line(&self) -> &[u8]
        ensures { result.now ≡ self.now.line }
    {
        self.line.as_slice()
    }

    /// Reads the next line. After any answer but `Line` the reader is done with; where the source failed, what had come of
    /// the line stands there as the line.
    pub fn next<S: Source>(&mut self, source: &mut S) -> Result<Next, Failed>
        // A line that is there is answered before the source is asked again.
        ensures reads { Reads result self.old self.new (S.left source.old) (S.left source.new) (S.asks source.old) (S.asks source.new) }
        ensures within { IsWithin self.new.ahead self.new.given }
        // Where a line was ahead, the source is as it was.
        ensures patient { ¬ HasNoFeed self.old.ahead → source.new ≡ source.old }
        ensures cause { HasFaults (S.faults source.old) (S.faults source.new) result }
    {
        self.line.clear();
        loop {
            match self.input.next_byte(source)? {
                Came::Byte(b'\n') => return Ok(end_line(&mut self.line)),
                Came::Byte(byte) => {
                    if self.line.is_full() {
                        return Ok(Next::TooLong);
                    }
                    self.line.push(byte);
                }
                Came::End => return Ok(last_line(self.line.as_slice())),
                Came::Full => return Ok(cut_line(self.line.as_slice())),
            }
        }
    }
}

// Ends a line at a line feed.
fn end_line(line: &mut ArrayVec<u8, 16385>) -> Next
    ensures stripped { line.new.items ≡ without_return line.old.items }
    ensures answer { result ≡ (if nat_le (length line.new.items) longest_line then Next.Line else Next.TooLong) }
{
    if line.as_slice().ends_with(b"\r") {
        line.pop();
    }
    if is_short_enough(line.as_slice()) {
        Next::Line
    } else {
        Next::TooLong
    }
}

// Ends the last line, if there is one.
fn last_line(line: &[u8]) -> Next
    ensures { result ≡ (if length line.now == 0 then Next.End else (if nat_le (length line.now) longest_line then Next.Last else Next.TooLong)) }
{
    if line.is_empty() {
        Next::End
    } else if is_short_enough(line) {
        Next::Last
    } else {
        Next::TooLong
    }
}

// Ends a script at the most bytes that it may have.
fn cut_line(line: &[u8]) -> Next
    ensures { result ≡ (if nat_le (length line.now) longest_line then Next.Full else Next.TooLong) }
{
    if is_short_enough(line) {
        Next::Full
    } else {
        Next::TooLong
    }
}

// Whether a line has no more bytes than a line may have.
fn is_short_enough(line: &[u8]) -> bool
    ensures { result ≡ nat_le (length line.now) longest_line }
{
    line.len() <= LONGEST_LINE
}
