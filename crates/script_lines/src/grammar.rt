// Reading a line.
ghost use Rattle.std.specs.Prelude.{◌≡◌, ◌≤◌, ◌∷◌, length, IfOk};
ghost use Rattle.script_words.specs.Words.{words_of};
ghost use Rattle.script_words.specs.Faults.{by_kind};
ghost use Rattle.script_words.specs.Forms.{with_one, with_two, number_to, count_to, hex_to};
ghost use Rattle.script_lines.specs.Lines.{
  switch_by,
  switch_to,
  switch_named,
  cause_to,
  cause_named,
  ports_out,
  out_by,
  ports_in,
  in_by,
  spi_by,
  cut_by,
  cut_behind,
  event_to,
  at_by,
  name_to,
  line_of,
  line_by,
  IsInRange,
  IsLineInRange,
};

use crate::{BusLine, Line, Name};
use ec_model::{WorldEvent, WorldReset};
use script_words::{
    Fault, HexBytes, Wanted, check_line, count_to, is_word, next_word, no_words, none_or,
    number_to, one_word, three_words, two_words,
};

// The most bytes that a word of a line spells.
const MOST_BYTES: usize = 8192;

// The most bytes that a line reads.
const MOST_READS: u32 = 4096;

// The most bytes that a cut leaves torn.
const MOST_TORN: usize = 4096;

// The most rounds of a drill.
const MOST_ROUNDS: u32 = 64;

/// What a line without its line feed says, or the first thing that is wrong with it: its length, its bytes, then, where its
/// first word is one of these lines', how many words there are behind it, and at last the first word from the left that is
/// not what it should be. Ports above 65,535 are told where each word for itself is what it should be.
pub fn parse(line: &[u8]) -> Result<Line<'_>, Fault>
    ensures line { by_kind result ≡ line_of line.now }
    ensures within { IfOk result IsLineInRange }
{
    check_line(line)?;
    if line.starts_with(b"#") {
        return Ok(Line::Nothing);
    }
    match next_word(line) {
        Some((first, rest)) => by_words(first, rest),
        None => Ok(Line::Nothing),
    }
}

// The line with this first word, and the others after it.
fn by_words<'a>(first: &[u8], rest: &'a [u8]) -> Result<Line<'a>, Fault>
    ensures line { by_kind result ≡ line_by (first.now ∷ words_of rest.now) }
    ensures within { IfOk result IsLineInRange }
{
    if is_word(first, b"pin") {
        Ok(Line::Pin { on: switch(rest)? })
    } else if is_word(first, b"power") {
        Ok(Line::Power { on: switch(rest)? })
    } else if is_word(first, b"reset") {
        reset(rest)
    } else if is_word(first, b"tick") {
        Ok(Line::Bus(tick(rest)?))
    } else if is_word(first, b"cut") {
        cut(rest)
    } else if is_word(first, b"at") {
        at(rest)
    } else if is_word(first, b"out") {
        Ok(Line::Bus(ports_out(rest)?))
    } else if is_word(first, b"in") {
        Ok(Line::Bus(ports_in(rest)?))
    } else if is_word(first, b"i2cw") {
        Ok(Line::Bus(i2c_write(rest)?))
    } else if is_word(first, b"i2cr") {
        Ok(Line::Bus(i2c_read(rest)?))
    } else if is_word(first, b"spi") {
        Ok(Line::Bus(spi(rest)?))
    } else if is_word(first, b"sync") {
        sync(rest)
    } else if is_word(first, b"drill") {
        drill(rest)
    } else if is_word(first, b"trace") {
        no_words(rest)?;
        Ok(Line::Trace)
    } else {
        Ok(Line::Tool)
    }
}

// Whether a word says on or off.
fn switch_named(word: &[u8]) -> Option<bool>
    ensures { result ≡ switch_named word.now }
{
    if is_word(word, b"on") {
        Some(true)
    } else if is_word(word, b"off") {
        Some(false)
    } else {
        None
    }
}

// The cause of a reset that a word names.
fn cause_named(word: &[u8]) -> Option<WorldReset>
    ensures { result ≡ cause_named word.now }
{
    if is_word(word, b"pin") {
        Some(WorldReset::Pin)
    } else if is_word(word, b"watchdog") {
        Some(WorldReset::Watchdog)
    } else {
        None
    }
}

// The one word, which says on or off.
fn switch(words: &[u8]) -> Result<bool, Fault>
    ensures { by_kind result ≡ switch_by (words_of words.now) }
{
    switch_at(2, one_word(words)?)
}

// The word at this place of the line, which says on or off.
fn switch_at(place: u8, word: &[u8]) -> Result<bool, Fault>
    ensures { by_kind result ≡ switch_to word.now }
{
    switch_named(word).ok_or(Fault::of_word(place, Wanted::Switch))
}

// The word at this place of the line, which names the cause of a reset.
fn cause_at(place: u8, word: &[u8]) -> Result<WorldReset, Fault>
    ensures { by_kind result ≡ cause_to word.now }
{
    cause_named(word).ok_or(Fault::of_word(place, Wanted::Cause))
}

fn reset(words: &[u8]) -> Result<Line<'_>, Fault>
    ensures line { by_kind result ≡ with_one cause_to Line.Reset (words_of words.now) }
    ensures within { IfOk result IsLineInRange }
{
    let word = one_word(words)?;
    let cause = cause_at(2, word)?;
    Ok(Line::Reset { cause })
}

fn tick(words: &[u8]) -> Result<BusLine<'_>, Fault>
    ensures line { by_kind result ≡ with_one (count_to 100000) BusLine.Tick (words_of words.now) }
    ensures within { IfOk result IsInRange }
{
    let count = one_word(words)?;
    Ok(BusLine::Tick {
        count: count_to(2, count, 100_000)?,
    })
}

// `cut N` and `cut N HEX`.
fn cut(words: &[u8]) -> Result<Line<'_>, Fault>
    ensures line { by_kind result ≡ cut_by (words_of words.now) }
    ensures within { IfOk result IsLineInRange }
{
    let count = Fault::of_line(Wanted::CutWords);
    let (operation, rest) = next_word(words).ok_or(count)?;
    cut_behind(operation, rest)
}

// `cut` behind the word of its operation.
fn cut_behind<'a>(operation: &[u8], words: &'a [u8]) -> Result<Line<'a>, Fault>
    ensures line { by_kind result ≡ cut_behind operation.now (words_of words.now) }
    ensures within { IfOk result IsLineInRange }
{
    match next_word(words) {
        None => Ok(Line::Cut {
            operation: number_to(2, operation, u32::MAX)?,
            torn: HexBytes::none(),
        }),
        Some((bytes, rest)) => {
            none_or(rest, Fault::of_line(Wanted::CutWords))?;
            Ok(Line::Cut {
                operation: number_to(2, operation, u32::MAX)?,
                torn: HexBytes::of_word(3, bytes, MOST_TORN)?,
            })
        }
    }
}

// `at` with its event.
fn at(words: &[u8]) -> Result<Line<'_>, Fault>
    ensures line { by_kind result ≡ at_by (words_of words.now) }
    ensures within { IfOk result IsLineInRange }
{
    let (call, kind, detail) = three_words(words)?;
    Ok(Line::At {
        call: count_to(2, call, u32::MAX)?,
        event: event(kind, detail)?,
    })
}

// The event of the world that two words name.
fn event(kind: &[u8], detail: &[u8]) -> Result<WorldEvent, Fault>
    ensures { by_kind result ≡ event_to kind.now detail.now }
{
    if is_word(kind, b"pin") {
        Ok(WorldEvent::Pin {
            on: switch_at(4, detail)?,
        })
    } else if is_word(kind, b"power") {
        Ok(WorldEvent::Power {
            on: switch_at(4, detail)?,
        })
    } else if is_word(kind, b"reset") {
        Ok(WorldEvent::Reset {
            cause: cause_at(4, detail)?,
        })
    } else if is_word(kind, b"byte") {
        Ok(WorldEvent::Byte {
            byte: number_to(4, detail, 255)? as u8,
        })
    } else {
        Err(Fault::of_word(3, Wanted::WorldEvent))
    }
}

fn sync(words: &[u8]) -> Result<Line<'_>, Fault>
    ensures line { by_kind result ≡ with_one name_to Line.Sync (words_of words.now) }
    ensures within { IfOk result IsLineInRange }
{
    let name = one_word(words)?;
    Ok(Line::Sync {
        name: Name::of_word(2, name)?,
    })
}

fn drill(words: &[u8]) -> Result<Line<'_>, Fault>
    ensures line { by_kind result ≡ with_two (number_to 0xFFFFFFFF) (count_to 64) Line.Drill (words_of words.now) }
    ensures within { IfOk result IsLineInRange }
{
    let (x, rounds) = two_words(words)?;
    Ok(Line::Drill {
        x: number_to(2, x, u32::MAX)?,
        rounds: count_to(3, rounds, MOST_ROUNDS)?,
    })
}

fn ports_out(words: &[u8]) -> Result<BusLine<'_>, Fault>
    ensures line { by_kind result ≡ out_by (words_of words.now) }
    ensures within { IfOk result IsInRange }
{
    let (port, bytes) = two_words(words)?;
    let port = number_to(2, port, 65535)?;
    let bytes = HexBytes::of_word(3, bytes, MOST_BYTES)?;
    if port as usize + bytes.len() > 65536 {
        return Err(Fault::of_word(3, Wanted::Ports));
    }
    Ok(BusLine::PortsOut {
        port: port as u16,
        bytes,
    })
}

fn ports_in(words: &[u8]) -> Result<BusLine<'_>, Fault>
    ensures line { by_kind result ≡ in_by (words_of words.now) }
    ensures within { IfOk result IsInRange }
{
    let (port, count) = two_words(words)?;
    let port = number_to(2, port, 65535)?;
    let count = count_to(3, count, MOST_READS)?;
    if port + count > 65536 {
        return Err(Fault::of_word(3, Wanted::Ports));
    }
    Ok(BusLine::PortsIn {
        port: port as u16,
        count: count as u16,
    })
}

fn i2c_write(words: &[u8]) -> Result<BusLine<'_>, Fault>
    ensures line { by_kind result ≡ with_one (hex_to 8192) BusLine.I2cWrite (words_of words.now) }
    ensures within { IfOk result IsInRange }
{
    let bytes = one_word(words)?;
    Ok(BusLine::I2cWrite {
        bytes: HexBytes::of_word(2, bytes, MOST_BYTES)?,
    })
}

fn i2c_read(words: &[u8]) -> Result<BusLine<'_>, Fault>
    ensures line { by_kind result ≡ with_one (count_to 4096) BusLine.I2cRead (words_of words.now) }
    ensures within { IfOk result IsInRange }
{
    let count = one_word(words)?;
    let count = count_to(2, count, MOST_READS)?;
    Ok(BusLine::I2cRead {
        count: count as u16,
    })
}

fn spi(words: &[u8]) -> Result<BusLine<'_>, Fault>
    ensures line { by_kind result ≡ spi_by (words_of words.now) }
    ensures within { IfOk result IsInRange }
{
    let word = one_word(words)?;
    if is_word(word, b"select") {
        return Ok(BusLine::SpiSelect);
    }
    if is_word(word, b"deselect") {
        return Ok(BusLine::SpiDeselect);
    }
    let wanted = Fault::of_word(2, Wanted::SpiBytes { most: MOST_BYTES });
    let bytes = HexBytes::of(word, MOST_BYTES).ok_or(wanted)?;
    Ok(BusLine::SpiBytes { bytes })
}
