// Reading a line.
ghost use Rattle.std.specs.Prelude.{◌≡◌, ◌∷◌, IfOk, IfSome};
ghost use Rattle.ec_types.specs.declared.why.Why.TheVariants.{Word};
ghost use Rattle.script_words.specs.Faults.{kind_of, by_kind};
ghost use Rattle.script_words.specs.Lines.{checked};
ghost use Rattle.script_words.specs.Words.{words_of};
ghost use Rattle.script_words.specs.Forms.{alone, with_one, with_two, with_three, number_to, hex_to};
ghost use Rattle.ectool_lines.specs.Tools.{
  region_named,
  region_to,
  protect_named,
  protect_bits,
  protect_form,
  protect_by,
  image_named,
  image_to,
  fixed_to,
  hash_with_two,
  hash_behind,
  hash_form,
  hash_by,
  reboot_named,
  reboot_to,
  tool_of,
  tool_by,
  IsInRange,
};

use crate::Tool;
use ec_params::RebootAsk;
use ec_types::ImageCopy;
use flash_dev::Region;
use script_words::{
    Fault, HexBytes, Wanted, check_line, is_word, next_word, no_words, none_or, number_to,
    one_word, three_words, two_or, two_words,
};

/// What a line without its line feed says, or the first thing that is wrong with it: its length, its bytes, its first
/// word, how many words there are behind it, and at last the first of these from the left that is not what it should
/// be. A line that does nothing, as one that begins with `#`, is no such line: its first word is at fault.
pub fn parse(line: &[u8]) -> Result<Tool<'_>, Fault>
    ensures tool { by_kind result ≡ tool_of line.now }
    ensures within { IfOk result IsInRange }
{
    check_line(line)?;
    parse_checked(line)
}

/// The same for a line that `check_line` found nothing wrong with.
pub fn parse_checked(line: &[u8]) -> Result<Tool<'_>, Fault>
    requires { checked line.now ≡ Ok tt }
    ensures tool { by_kind result ≡ tool_of line.now }
    ensures within { IfOk result IsInRange }
{
    let (first, rest) = next_word(line).ok_or(Fault::of_word(1, Wanted::FirstWord))?;
    by_words(first, rest)
}

// The line with this first word, and the others after it.
fn by_words<'a>(first: &[u8], rest: &'a [u8]) -> Result<Tool<'a>, Fault>
    ensures tool { by_kind result ≡ tool_by (first.now ∷ words_of rest.now) }
    ensures within { IfOk result IsInRange }
{
    if is_word(first, b"hello") {
        alone(Tool::Hello, rest)
    } else if is_word(first, b"version") {
        alone(Tool::Version, rest)
    } else if is_word(first, b"chipinfo") {
        alone(Tool::ChipInfo, rest)
    } else if is_word(first, b"cmdversions") {
        cmd_versions(rest)
    } else if is_word(first, b"protoinfo") {
        alone(Tool::ProtoInfo, rest)
    } else if is_word(first, b"flashinfo") {
        alone(Tool::FlashInfo, rest)
    } else if is_word(first, b"regioninfo") {
        region_info(rest)
    } else if is_word(first, b"flashread") {
        flash_read(rest)
    } else if is_word(first, b"flashwrite") {
        flash_write(rest)
    } else if is_word(first, b"flasherase") {
        flash_erase(rest)
    } else if is_word(first, b"flashprotect") {
        flash_protect(rest)
    } else if is_word(first, b"echash") {
        hash(rest)
    } else if is_word(first, b"sysinfo") {
        alone(Tool::Sysinfo, rest)
    } else if is_word(first, b"reboot_ec") {
        reboot(rest)
    } else if is_word(first, b"test") {
        test(rest)
    } else if is_word(first, b"resend") {
        alone(Tool::Resend, rest)
    } else {
        Err(Fault::of_word(1, Wanted::FirstWord))
    }
}

// A first word that stands alone.
fn alone(tool: Tool<'static>, words: &[u8]) -> Result<Tool<'static>, Fault>
    requires { IsInRange tool }
    ensures tool { by_kind result ≡ alone tool.entry (words_of words.now) }
    ensures within { IfOk result IsInRange }
{
    no_words(words)?;
    Ok(tool)
}

fn cmd_versions(words: &[u8]) -> Result<Tool<'_>, Fault>
    ensures tool { by_kind result ≡ with_one (number_to 65535) Tool.CmdVersions (words_of words.now) }
    ensures within { IfOk result IsInRange }
{
    let number = one_word(words)?;
    Ok(Tool::CmdVersions {
        number: number_to(2, number, 65535)? as u16,
    })
}

// The region that a word names.
fn region_named(word: &[u8]) -> Option<Region>
    ensures { result ≡ region_named word.now }
{
    if is_word(word, b"ro") {
        Some(Region::Ro)
    } else if is_word(word, b"active") {
        Some(Region::Active)
    } else if is_word(word, b"wp_ro") {
        Some(Region::WpRo)
    } else if is_word(word, b"update") {
        Some(Region::Update)
    } else {
        None
    }
}

fn region_info(words: &[u8]) -> Result<Tool<'_>, Fault>
    ensures tool { by_kind result ≡ with_one region_to Tool.RegionInfo (words_of words.now) }
    ensures within { IfOk result IsInRange }
{
    let word = one_word(words)?;
    let region = region_named(word).ok_or(Fault::of_word(2, Wanted::Region))?;
    Ok(Tool::RegionInfo { region })
}

fn flash_read(words: &[u8]) -> Result<Tool<'_>, Fault>
    ensures tool { by_kind result ≡ with_two (number_to 4294967295) (number_to 4096) Tool.FlashRead
        (words_of words.now) }
    ensures within { IfOk result IsInRange }
{
    let (at, size) = two_words(words)?;
    Ok(Tool::FlashRead {
        at: number_to(2, at, u32::MAX)?,
        size: number_to(3, size, 4096)?,
    })
}

fn flash_write(words: &[u8]) -> Result<Tool<'_>, Fault>
    ensures tool { by_kind result ≡ with_two (number_to 4294967295) (hex_to 4096) Tool.FlashWrite (words_of words.now) }
    ensures within { IfOk result IsInRange }
{
    let (at, bytes) = two_words(words)?;
    Ok(Tool::FlashWrite {
        at: number_to(2, at, u32::MAX)?,
        bytes: HexBytes::of_word(3, bytes, 4096)?,
    })
}

fn flash_erase(words: &[u8]) -> Result<Tool<'_>, Fault>
    ensures tool { by_kind result ≡ with_two (number_to 4294967295) (number_to 4294967295) Tool.FlashErase
        (words_of words.now) }
    ensures within { IfOk result IsInRange }
{
    let (at, size) = two_words(words)?;
    Ok(Tool::FlashErase {
        at: number_to(2, at, u32::MAX)?,
        size: number_to(3, size, u32::MAX)?,
    })
}

fn flash_protect(words: &[u8]) -> Result<Tool<'_>, Fault>
    ensures tool { by_kind result ≡ protect_by (words_of words.now) }
    ensures within { IfOk result IsInRange }
{
    match next_word(words) {
        Some((form, rest)) => protect_form(form, rest),
        None => Ok(Tool::FlashProtect { mask: 0, flags: 0 }),
    }
}

// `flashprotect` behind the word of its form.
fn protect_form(form: &[u8], words: &[u8]) -> Result<Tool<'static>, Fault>
    ensures tool { by_kind result ≡ protect_form form.now (words_of words.now) }
    ensures within { IfOk result IsInRange }
{
    match next_word(words) {
        Some(_) => protect_bits(form, words),
        None => protect_named(form).ok_or(Fault::of_word(2, Wanted::Protection)),
    }
}

// What a form of `flashprotect` asks for that is a single word.
fn protect_named(form: &[u8]) -> Option<Tool<'static>>
    ensures tool { result ≡ protect_named form.now }
    ensures within { IfSome result IsInRange }
{
    if is_word(form, b"now") {
        Some(Tool::FlashProtect { mask: 4, flags: 4 })
    } else if is_word(form, b"enable") {
        Some(Tool::FlashProtect { mask: 1, flags: 1 })
    } else if is_word(form, b"disable") {
        Some(Tool::FlashProtect { mask: 1, flags: 0 })
    } else {
        None
    }
}

// `flashprotect bits M F`.
fn protect_bits(form: &[u8], words: &[u8]) -> Result<Tool<'static>, Fault>
    ensures tool { by_kind result ≡ protect_bits form.now (words_of words.now) }
    ensures within { IfOk result IsInRange }
{
    let count = Fault::of_line(Wanted::ProtectWords);
    let (mask, flags) = two_or(words, count)?;
    if !is_word(form, b"bits") {
        return Err(Fault::of_word(2, Wanted::Bits));
    }
    Ok(Tool::FlashProtect {
        mask: number_to(3, mask, u32::MAX)?,
        flags: number_to(4, flags, u32::MAX)?,
    })
}

fn hash(words: &[u8]) -> Result<Tool<'_>, Fault>
    ensures tool { by_kind result ≡ hash_by (words_of words.now) }
    ensures within { IfOk result IsInRange }
{
    match next_word(words) {
        Some((form, rest)) => hash_form(form, rest),
        None => Ok(Tool::Hash),
    }
}

// `echash` behind the word of its form.
fn hash_form<'a>(form: &[u8], words: &'a [u8]) -> Result<Tool<'a>, Fault>
    ensures tool { by_kind result ≡ hash_form form.now (words_of words.now) }
    ensures within { IfOk result IsInRange }
{
    match next_word(words) {
        Some((first, rest)) => hash_behind(form, first, rest),
        None => {
            fixed(2, form, b"abort", Wanted::HashAbort)?;
            Ok(Tool::HashAbort)
        }
    }
}

// `echash` behind the word of its form and another one.
fn hash_behind<'a>(form: &[u8], first: &[u8], words: &'a [u8]) -> Result<Tool<'a>, Fault>
    ensures tool { by_kind result ≡ hash_behind form.now first.now (words_of words.now) }
    ensures within { IfOk result IsInRange }
{
    match next_word(words) {
        Some((second, rest)) => {
            none_or(rest, Fault::of_line(Wanted::HashWords))?;
            hash_with_two(form, first, second)
        }
        None => {
            fixed(2, form, b"start", Wanted::HashStart)?;
            Ok(Tool::HashStart {
                copy: image(3, first)?,
                nonce: HexBytes::none(),
            })
        }
    }
}

// `echash start A HEX` and `echash range O N`.
fn hash_with_two<'a>(form: &[u8], first: &[u8], second: &'a [u8]) -> Result<Tool<'a>, Fault>
    ensures tool { by_kind result ≡ hash_with_two form.now first.now second.now }
    ensures within { IfOk result IsInRange }
{
    if is_word(form, b"start") {
        Ok(Tool::HashStart {
            copy: image(3, first)?,
            nonce: HexBytes::of_word(4, second, 64)?,
        })
    } else if is_word(form, b"range") {
        Ok(Tool::HashRange {
            at: number_to(3, first, u32::MAX)?,
            size: number_to(4, second, u32::MAX)?,
        })
    } else {
        Err(Fault::of_word(2, Wanted::HashStartOrRange))
    }
}

// A word that stands at this place of the line, which has to be this one.
fn fixed(place: u8, word: &[u8], name: &[u8], wanted: Wanted) -> Result<(), Fault>
    requires { kind_of wanted ≡ Word }
    ensures { by_kind result ≡ fixed_to name.now word.now }
{
    if !is_word(word, name) {
        return Err(Fault::of_word(place, wanted));
    }
    Ok(())
}

// The image that a word names which stands at this place of the line.
fn image(place: u8, word: &[u8]) -> Result<ImageCopy, Fault>
    ensures { by_kind result ≡ image_to word.now }
{
    image_named(word).ok_or(Fault::of_word(place, Wanted::Image))
}

// The image that a word names.
fn image_named(word: &[u8]) -> Option<ImageCopy>
    ensures { result ≡ image_named word.now }
{
    if is_word(word, b"ro") {
        Some(ImageCopy::Ro)
    } else if is_word(word, b"rw") {
        Some(ImageCopy::Rw)
    } else {
        None
    }
}

fn reboot(words: &[u8]) -> Result<Tool<'_>, Fault>
    ensures tool { by_kind result ≡ with_one reboot_to (λ tool. tool) (words_of words.now) }
    ensures within { IfOk result IsInRange }
{
    let word = one_word(words)?;
    let tool = reboot_named(word).ok_or(Fault::of_word(2, Wanted::Reboot))?;
    Ok(tool)
}

// What a word asks REBOOT_EC for.
fn reboot_named(word: &[u8]) -> Option<Tool<'static>>
    ensures tool { result ≡ reboot_named word.now }
    ensures within { IfSome result IsInRange }
{
    let cmd = if is_word(word, b"cancel") {
        RebootAsk::CANCEL
    } else if is_word(word, b"RO") {
        RebootAsk::JUMP_RO
    } else if is_word(word, b"RW") {
        RebootAsk::JUMP_RW
    } else if is_word(word, b"disable-jump") {
        RebootAsk::DISABLE_JUMP
    } else if is_word(word, b"cold") {
        return Some(Tool::RebootCold);
    } else {
        return None;
    };
    Some(Tool::Reboot { cmd })
}

fn test(words: &[u8]) -> Result<Tool<'_>, Fault>
    ensures tool { by_kind result ≡ with_three (number_to 4294967295) (number_to 32) (hex_to 32) Tool.Test
        (words_of words.now) }
    ensures within { IfOk result IsInRange }
{
    let (ec_result, ret_len, bytes) = three_words(words)?;
    Ok(Tool::Test {
        ec_result: number_to(2, ec_result, u32::MAX)?,
        ret_len: number_to(3, ret_len, 32)?,
        bytes: HexBytes::of_word(4, bytes, 32)?,
    })
}
