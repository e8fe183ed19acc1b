// The whole reading of the words.
ghost use Rattle.std.specs.Prelude.{◌≡◌, ◌↔◌, ℕ, List, Err, IfOk, IsTrue};
ghost use Rattle.bench_words.specs.Words.{InGrammar, SpellOnce, Spells};
ghost use Rattle.bench_words.specs.declared.command_line.WordsErr.TheVariants.{BadWords, NoMemory};

use crate::Word;
use crate::parsing::options_of;
use crate::reading::flash_of;
use ec_types::BusKind;
use std::alloc::Global;
use thiserror::Error;

/// What the words spell: the path of the flash file, the bus, and whether the pin is asserted.
#[derive(Clone, Copy, Debug)]
pub struct Words<'a> {
    pub flash: &'a str,
    pub bus: BusKind,
    pub pin: bool,
}

/// Why words are not read.
#[derive(Clone, Copy, Debug, PartialEq, Eq, Error)]
pub enum WordsErr {
    #[error("the words are not those of the command")]
    BadWords,
    #[error("memory is out")]
    NoMemory,
}

/// What the words spell. `BadWords` comes exactly where they are outside the grammar; `NoMemory` may come in place of
/// what words of the grammar spell.
pub fn read<'a>(alloc: Global, words: &'a [Word]) -> Result<Words<'a>, WordsErr>
    ensures ok { IfOk result (λ read. Spells words.now read.flash.now read.bus read.pin) }
    ensures outside { (result ≡ Err BadWords) ↔ ¬ (InGrammar words.now) }
    ensures inside { result ≡ Err NoMemory → InGrammar words.now }
{
    match flash_of(words) {
        None => Err(WordsErr::BadWords),
        Some(flash) => match options_of(alloc, words) {
            Err(_) => Err(WordsErr::NoMemory),
            Ok((bus, pin)) => Ok(Words { flash, bus, pin }),
        },
    }
}

/// Whether the words are of the grammar.
pub fn are_spelled(words: &[Word]) -> bool
    ensures { IsTrue result ↔ InGrammar words.now }
{
    flash_of(words).is_some()
}

/// A law of the grammar: words spell at most one reading.
pub fn spell_once()
    ensures { (words : List (List ℕ)) → SpellOnce words }
{}
