// A word of the command line.
ghost use Rattle.std.specs.Prelude.{◌≡◌, IfOk, MatchOption, IsTrue};
ghost use Rattle.std.specs.Str.{IsUtf8};
ghost use Rattle.bench_words.specs.Words.{is_positional};

use std::alloc::{AllocError, Global};
use std::marker::Model;
use std::str;

/// A word of the command line, seen as its bytes.
#[derive(Drop)]
pub struct Word {
    bytes: Vec<u8>,
}

impl Model for Word {
    ghost use Rattle.std.specs.Prelude.{List, ℕ};

    ghost Value = { List ℕ };

    ghost view = { λ word. word.bytes.items };
}

impl Word {
    /// The word with these bytes.
    pub fn new(alloc: Global, bytes: &[u8]) -> Result<Word, AllocError>
        ensures { IfOk result (λ word. word ≡ bytes.now) }
    {
        Ok(Word {
            bytes: bytes.to_vec(alloc)?,
        })
    }

    /// Its bytes.
    pub fn as_bytes(&self) -> &[u8]
        ensures { result.now ≡ self.now }
    {
        self.bytes.as_slice()
    }

    /// Whether it is neither empty nor an option, which begins with a hyphen.
    pub fn is_positional(&self) -> bool
        ensures { result ≡ is_positional self.now }
    {
        match self.bytes.as_slice() {
            [] => false,
            [first, ..] => *first != b'-',
        }
    }

    /// The path of the flash file that it names: itself, exactly where it is a positional and UTF-8.
    pub fn flash_path(&self) -> Option<&str>
        ensures { MatchOption result (¬ (IsTrue (is_positional self.now) × IsUtf8 self.now))
            (λ path. IsTrue (is_positional self.now) × IsUtf8 self.now × (path.now ≡ self.now)) }
    {
        if self.is_positional() {
            str::from_utf8(&self.bytes).ok()
        } else {
            None
        }
    }
}
