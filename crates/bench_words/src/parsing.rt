// The words as clap reads them.
ghost use Rattle.std.specs.Prelude.{◌≡◌, ℕ, List, Bool, All, IfOk, IfErr, map};
ghost use Rattle.std.specs.Str.{IsUtf8};
ghost use Rattle.clap.specs.Words.{app_of, kind_of};
ghost use Rattle.clap.specs.declared.error.ErrorKind.TheVariants.{OutOfMemory};
ghost use Rattle.ec_types.specs.declared.bus.BusKind.{BusKind};
ghost use Rattle.bench_words.specs.Words.{InGrammar, Spells, bus_name, pin_name};
ghost use Rattle.bench_words.specs.Parsed.{bench_app, TellsOf};

use crate::Word;
use clap::{Arg, ArgAction, ArgMatches, Command, Error};
use ec_types::BusKind;
use std::alloc::{AllocError, Global};
use std::str;

/// The bus and the state of the pin that clap reads in words of the grammar; an error only for want of memory.
pub fn options_of(alloc: Global, words: &[Word]) -> Result<(BusKind, bool), AllocError>
    requires { InGrammar words.now }
    ensures { IfOk result (λ read. (flash : List ℕ) (bus : BusKind) (pin : Bool) → Spells words.now flash bus pin
        → (read.0 ≡ bus) × (read.1 ≡ pin)) }
{
    let texts = texts_of(alloc, words)?;
    match parse(bench_command(alloc)?, texts.as_slice()) {
        Err(_) => Err(AllocError),
        Ok(matches) => {
            let bus = bus_named(matches.get_str("bus").unwrap_or(""));
            let pin = pin_named(matches.get_str("pin").unwrap_or(""));
            Ok((bus, pin))
        }
    }
}

// The words as text, which all of them are.
fn texts_of<'a>(alloc: Global, words: &'a [Word]) -> Result<Vec<&'a str>, AllocError>
    requires { All IsUtf8 words.now }
    ensures { IfOk result (λ texts. map (λ text. text.now) texts.items ≡ words.now) }
{
    let mut texts = Vec::new(alloc);
    for word in words {
        texts.push(text_of(word))?;
    }
    Ok(texts)
}

// A word as text, which it is.
fn text_of(word: &Word) -> &str
    requires { IsUtf8 word.now }
    ensures { result.now ≡ word.now }
{
    str::from_utf8(word.as_bytes()).unwrap_or("")
}

// The bus of this name.
fn bus_named(name: &str) -> BusKind
    ensures { (bus : BusKind) → name.now ≡ bus_name bus → result ≡ bus }
{
    if name == "i2c" {
        BusKind::I2c
    } else if name == "spi" {
        BusKind::Spi
    } else {
        BusKind::Lpc
    }
}

// The state of the pin of this name.
fn pin_named(name: &str) -> bool
    ensures { (pin : Bool) → name.now ≡ pin_name pin → result ≡ pin }
{
    name == "on"
}

// The command: FLASH, and two options that have defaults.
fn bench_command<'a>(alloc: Global) -> Result<Command<'a>, AllocError>
    ensures { IfOk result (λ command. app_of command ≡ bench_app) }
{
    let flash = Arg::new(alloc, "FLASH")
        .required(true)
        .action(ArgAction::Set);
    let bus = Arg::new(alloc, "bus")
        .long("bus")
        .action(ArgAction::Set)
        .default_value("lpc");
    let pin = Arg::new(alloc, "pin")
        .long("pin")
        .action(ArgAction::Set)
        .default_value("on");
    let command = Command::new(alloc, "ecbench")
        .no_binary_name(true)
        .disable_help_flag(true);
    command.arg(flash)?.arg(bus)?.arg(pin)
}

// What the command makes of words of the grammar, of which it refuses none but for want of memory.
fn parse<'a>(command: Command<'a>, words: &'a [&'a str]) -> Result<ArgMatches<'a>, Error>
    requires command { app_of command ≡ bench_app }
    requires spelled { InGrammar (map (λ word. word.now) words.now) }
    ensures ok { IfOk result (λ matches. (flash : List ℕ) (bus : BusKind) (pin : Bool)
        → Spells (map (λ word. word.now) words.now) flash bus pin → TellsOf bus pin matches) }
    ensures err { IfErr result (λ error. kind_of error ≡ OutOfMemory) }
{
    command.try_get_matches_from(words)
}
