// Names of images.
ghost use Rattle.std.specs.Prelude.{◌≡◌, ◌≤◌, ◌==◌, length};
ghost use Rattle.std.specs.List.{list_any};
ghost use Rattle.script_words.specs.Faults.{by_kind};
ghost use Rattle.script_lines.specs.Lines.{is_name, name_to};

use script_words::{Fault, Wanted};
use std::marker::Model;

// The most bytes that a name has.
const MOST_NAME: usize = 255;

/// The name of an image: at most 255 bytes, none of which is `/`. It is seen as these bytes.
#[derive(Drop)]
pub struct Name<'a> {
    bytes: &'a [u8],
}

impl<'a> Model for Name<'a> {
    ghost use Rattle.std.specs.Prelude.{List, ℕ};

    ghost Value = { List ℕ };

    ghost view = { λ name. name.bytes.now };
}

impl<'a> Name<'a> {
    /// The name that stands at this place of the line; a fault exactly where the word is none.
    pub fn of_word(place: u8, word: &'a [u8]) -> Result<Name<'a>, Fault>
        ensures { by_kind result ≡ name_to word.now }
    {
        if is_name(word) {
            Ok(Name { bytes: word })
        } else {
            Err(Fault::of_word(place, Wanted::Name))
        }
    }

    /// Its bytes.
    pub fn as_bytes(&self) -> &'a [u8]
        ensures { result.now ≡ self.now }
    {
        self.bytes
    }
}

// Whether a word is a name.
fn is_name(word: &[u8]) -> bool
    ensures { result ≡ is_name word.now }
{
    word.len() <= MOST_NAME && !has_slash(word)
}

// Whether a word has a slash.
fn has_slash(word: &[u8]) -> bool
    ensures { result ≡ list_any (λ byte. byte == 47) word.now }
{
    word.iter().any(|byte| *byte == b'/')
}
