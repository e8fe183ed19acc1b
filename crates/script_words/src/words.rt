// Words are separated by one or more spaces; spaces before the first and after the last one are ignored.
ghost use Rattle.std.specs.Prelude.{◌≡◌, ◌<◌, ◌≤◌, ℕ, [], ◌∷◌, MatchOption, MatchResult, length, slice_index};
ghost use Rattle.std.specs.Str.{bytes_eq};
ghost use Rattle.script_words.specs.Words.{words_of};
ghost use Rattle.ec_types.specs.declared.why.Why.TheVariants.{Count};
ghost use Rattle.script_words.specs.Faults.{kind_of, by_kind};
ghost use Rattle.script_words.specs.Forms.{no_words, one_word, two_words, three_words};

use crate::{Fault, Wanted};

/// The first word and what follows it; None exactly where there is no word.
pub fn next_word(line: &[u8]) -> Option<(&[u8], &[u8])>
    ensures { MatchOption result (words_of line.now ≡ []) (λ x. words_of line.now ≡ x.0.now ∷ words_of x.1.now) }
{
    let rest = skip_spaces(line);
    if rest.is_empty() {
        return None;
    }
    Some(rest.split_at(word_len(rest)))
}

/// Whether a word is this one.
pub fn is_word(word: &[u8], name: &[u8]) -> bool
    ensures { result ≡ bytes_eq word.now name.now }
{
    word == name
}

/// Nothing but spaces; a fault exactly where there is a word.
pub fn no_words(line: &[u8]) -> Result<(), Fault>
    ensures { by_kind result ≡ no_words (words_of line.now) }
{
    none_or(line, words_wanted(0))
}

/// The one word; a fault exactly where there is not one.
pub fn one_word(line: &[u8]) -> Result<&[u8], Fault>
    ensures { MatchResult result (λ word. one_word (words_of line.now) ≡ Ok word.now)
        (λ fault. one_word (words_of line.now) ≡ Err (kind_of fault.wanted)) }
{
    let wanted = words_wanted(1);
    let (word, after) = next_word(line).ok_or(wanted)?;
    none_or(after, wanted)?;
    Ok(word)
}

/// The two words; a fault exactly where there are not two.
pub fn two_words(line: &[u8]) -> Result<(&[u8], &[u8]), Fault>
    ensures { MatchResult result (λ pair. two_words (words_of line.now) ≡ Ok (pair.0.now, pair.1.now))
        (λ fault. two_words (words_of line.now) ≡ Err (kind_of fault.wanted)) }
{
    two_or(line, words_wanted(2))
}

/// The three words; a fault exactly where there are not three.
pub fn three_words(line: &[u8]) -> Result<(&[u8], &[u8], &[u8]), Fault>
    ensures { MatchResult result (λ words. three_words (words_of line.now) ≡ Ok (words.0.now, words.1.now, words.2.now))
        (λ fault. three_words (words_of line.now) ≡ Err (kind_of fault.wanted)) }
{
    let wanted = words_wanted(3);
    let (first, rest) = next_word(line).ok_or(wanted)?;
    let (second, third) = two_or(rest, wanted)?;
    Ok((first, second, third))
}

// The fault of a line that has not so many words behind its first one.
fn words_wanted(count: u8) -> Fault
    ensures { kind_of result.wanted ≡ Count }
{
    Fault::of_line(Wanted::Words { count })
}

/// The two words, or else this fault, which is one of how many there are.
pub fn two_or(line: &[u8], wanted: Fault) -> Result<(&[u8], &[u8]), Fault>
    requires { kind_of wanted.wanted ≡ Count }
    ensures { MatchResult result (λ pair. two_words (words_of line.now) ≡ Ok (pair.0.now, pair.1.now))
        (λ fault. two_words (words_of line.now) ≡ Err (kind_of fault.wanted)) }
{
    let (first, rest) = next_word(line).ok_or(wanted)?;
    let (second, rest) = next_word(rest).ok_or(wanted)?;
    none_or(rest, wanted)?;
    Ok((first, second))
}

/// Nothing but spaces, or else this fault, which is one of how many words there are.
pub fn none_or(line: &[u8], wanted: Fault) -> Result<(), Fault>
    requires { kind_of wanted.wanted ≡ Count }
    ensures { by_kind result ≡ no_words (words_of line.now) }
{
    match next_word(line) {
        None => Ok(()),
        Some(_) => Err(wanted),
    }
}

// The line from its first word on.
fn skip_spaces(line: &[u8]) -> &[u8]
    ensures words { words_of result.now ≡ words_of line.now }
    ensures front { 0 < length result.now → slice_index result.now 0 ≡ 32 → ⊥ }
{
    let mut rest = line;
    while let [b' ', after @ ..] = rest {
        rest = after;
    }
    rest
}

// How many bytes stand before the first space.
fn word_len(line: &[u8]) -> usize
    ensures within { result ≤ length line.now }
    ensures before { (k : ℕ) → k < result → slice_index line.now k ≡ 32 → ⊥ }
    ensures found { result < length line.now → slice_index line.now result ≡ 32 }
{
    for (i, byte) in line.iter().enumerate() {
        if *byte == b' ' {
            return i;
        }
    }
    line.len()
}
