// Bytes as hexadecimal words.
ghost use Rattle.std.specs.Prelude.{◌≡◌, ◌≤◌, ◌<◌, ◌+◌, [], length, take, drop, slice_index, is_some, IfSome, IfOk};
ghost use Rattle.std.specs.List.{list_all};
ghost use Rattle.std.specs.Char.{is_ascii_hexdigit};
ghost use Rattle.std.specs.Result.{result_ok};
ghost use Rattle.hex.specs.Hex.{decode_of};
ghost use Rattle.script_words.specs.Faults.{by_kind};
ghost use Rattle.script_words.specs.Forms.{hex_to};
ghost use Rattle.script_words.specs.Hexes.{hex_of, spelled, IsSpelling};

use crate::{Fault, Wanted};
use std::marker::Model;

/// The bytes that a word of hexadecimal digits spells, where they stand: they are decoded part by part, into a buffer of
/// whoever asks. It is seen as their list.
#[derive(Drop)]
pub struct HexBytes<'a> {
    digits: &'a [u8],
}

impl<'a> Model for HexBytes<'a> {
    ghost use Rattle.std.specs.Prelude.{List, ℕ};
    ghost use Rattle.script_words.specs.Hexes.{spelled, IsSpelling};

    ghost Value = { List ℕ };

    ghost view = { λ bytes. spelled bytes.digits.now };

    ghost invariant = { λ bytes. IsSpelling bytes.digits.now };
}

impl<'a> HexBytes<'a> {
    /// No bytes, where no word spells any.
    pub fn none() -> HexBytes<'a>
        ensures { result ≡ [] }
    {
        HexBytes { digits: b"" }
    }

    /// The bytes that a word spells, two hexadecimal digits of either case each; None exactly where it spells none, or
    /// more than `limit`.
    pub fn of(word: &'a [u8], limit: usize) -> Option<HexBytes<'a>>
        ensures bytes { result ≡ hex_of limit word.now }
        ensures some { IfSome result (λ bytes. 1 ≤ length bytes) }
        ensures most { IfSome result (λ bytes. length bytes ≤ limit) }
    {
        if !is_spelling(word, limit) {
            return None;
        }
        Some(HexBytes { digits: word })
    }

    /// The bytes of a word that stands at this place of the line; a fault exactly where it spells none, or more than `limit`.
    pub fn of_word(place: u8, word: &'a [u8], limit: usize) -> Result<HexBytes<'a>, Fault>
        ensures bytes { by_kind result ≡ hex_to limit word.now }
        ensures some { IfOk result (λ bytes. 1 ≤ length bytes) }
        ensures most { IfOk result (λ bytes. length bytes ≤ limit) }
    {
        HexBytes::of(word, limit).ok_or(Fault::of_word(place, Wanted::Bytes { most: limit }))
    }

    /// How many bytes they are.
    pub fn len(&self) -> usize
        ensures { result ≡ length self.now }
    {
        self.digits.len() / 2
    }

    /// One of them.
    pub fn byte(&self, place: usize) -> u8
        requires { place < length self.now }
        ensures { result ≡ slice_index self.now place }
    {
        let mut byte = [0];
        self.decode(place, &mut byte);
        byte[0]
    }

    /// Decodes as many of them as `out` has room for, from the one at `from` on.
    pub fn decode(&self, from: usize, out: &mut [u8])
        requires { from + length out.old ≤ length self.now }
        ensures { out.new ≡ take (length out.old) (drop from self.now) }
    {
        decode_part(self.digits, from, out);
    }
}

// Whether a word spells bytes, and no more than `limit`.
fn is_spelling(word: &[u8], limit: usize) -> bool
    ensures { result ≡ is_some (hex_of limit word.now) }
{
    let count = word.len() / 2;
    if count < 1 || count > limit {
        return false;
    }
    are_pairs(word)
}

// Whether a word is an even number of digits.
fn are_pairs(word: &[u8]) -> bool
    ensures { result ≡ is_some (result_ok (decode_of word.now)) }
{
    if word.len() % 2 == 1 {
        return false;
    }
    are_digits(word)
}

// Whether each byte is a hexadecimal digit.
fn are_digits(word: &[u8]) -> bool
    ensures { result ≡ list_all is_ascii_hexdigit word.now }
{
    word.iter().all(|byte| byte.is_ascii_hexdigit())
}

// Decodes as many of the bytes that digits spell as `out` has room for, from the one at `from` on.
fn decode_part(digits: &[u8], from: usize, out: &mut [u8])
    requires spelling { IsSpelling digits.now }
    requires within { from + length out.old ≤ length (spelled digits.now) }
    ensures { out.new ≡ take (length out.old) (drop from (spelled digits.now)) }
{
    let (_, rest) = digits.split_at(2 * from);
    let (part, _) = rest.split_at(2 * out.len());
    match hex::decode_to_slice(part, out) {
        Ok(()) => {}
        Err(_) => unreachable!(),
    }
}
