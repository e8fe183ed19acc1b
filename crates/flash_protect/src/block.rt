// The bytes of the stored bits' block.
ghost use Rattle.std.specs.Prelude.{◌≡◌, ◌+◌, ◌*◌, ◌%◌, ◌<◌, ◌^◌, if◌then◌else◌, length};
ghost use Rattle.ec_types.specs.LittleEndian.{u32_bytes};
ghost use Rattle.ec_model.specs.Stored.{has_mark, bits_of_word, word_of_bits, slot_count, slot, is_blank, bits_among, next_slot, has_place, stored_in};
ghost use Rattle.flash_protect.specs.Setting.{IsPlaceIn};

use byteorder::{ByteOrder, LittleEndian};
use ec_model::AtBoot;
use ec_types::protection;

/// How many bytes of the block are read: its mark and its records.
pub const READ_LENGTH: usize = 1024;

// How many records a block has place for.
const SLOT_COUNT: usize = 127;

/// How a block of version 2 begins.
pub static MARK: [u8; 8] = *b"PST2\0\0\0\0";

// Whether bytes begin with "PST" and this character.
fn begins_with_mark(version: u8, bytes: &[u8]) -> bool
    requires { length bytes.now ≡ 1024 }
    ensures { result ≡ has_mark version bytes.now }
{
    bytes[0] == b'P' && bytes[1] == b'S' && bytes[2] == b'T' && bytes[3] == version
}

// The bits of a word.
fn bits_in(word: u32) -> AtBoot
    ensures { result ≡ bits_of_word word }
{
    AtBoot {
        ro: word & protection::RO_AT_BOOT != 0,
        all: word & protection::ALL_AT_BOOT != 0,
    }
}

/// The word of two bits, as bytes.
pub fn word(bits: AtBoot) -> [u8; 4]
    ensures { result ≡ u32_bytes (word_of_bits bits) }
{
    match (bits.ro, bits.all) {
        (false, false) => [0x00, 0, 0, 0],
        (true, false) => [0x01, 0, 0, 0],
        (false, true) => [0x40, 0, 0, 0],
        (true, true) => [0x41, 0, 0, 0],
    }
}

// A record's place: its word and its gate.
fn record(i: usize, bytes: &[u8]) -> &[u8]
    requires below { i < 127 }
    requires size { length bytes.now ≡ 1024 }
    ensures bytes { result.now ≡ slot i bytes.now }
    ensures size { length result.now ≡ 8 }
{
    let at = 8 + 8 * i;
    &bytes[at..at + 8]
}

// The bits of the last record that counts, where its gate is 0.
fn last_bits(bytes: &[u8]) -> AtBoot
    requires { length bytes.now ≡ 1024 }
    ensures { result ≡ bits_among slot_count bytes.now }
{
    let mut bits = AtBoot {
        ro: false,
        all: false,
    };
    for i in 0..SLOT_COUNT {
        let record = record(i, bytes);
        if LittleEndian::read_u32(&record[4..]) == 0 {
            bits = bits_in(LittleEndian::read_u32(record));
        }
    }
    bits
}

// Whether nothing was written in a record's place.
fn is_blank(place: &[u8]) -> bool
    ensures { result ≡ is_blank place.now }
{
    place.iter().all(|byte| *byte == 0xFF)
}

// The first place behind all that were written.
fn next(bytes: &[u8]) -> usize
    requires { length bytes.now ≡ 1024 }
    ensures { result ≡ next_slot bytes.now }
{
    let mut next = 0;
    for i in 0..SLOT_COUNT {
        if !is_blank(record(i, bytes)) {
            next = i + 1;
        }
    }
    next
}

/// The bits that a block says.
pub fn bits(bytes: &[u8]) -> AtBoot
    requires { length bytes.now ≡ 1024 }
    ensures { result ≡ stored_in bytes.now }
{
    if begins_with_mark(b'1', bytes) {
        bits_in(LittleEndian::read_u32(&bytes[4..]))
    } else if begins_with_mark(b'2', bytes) {
        last_bits(bytes)
    } else {
        AtBoot {
            ro: false,
            all: false,
        }
    }
}

/// Where the next record goes, if it has a place, in a block that begins at `at`.
pub fn place(at: u32, bytes: &[u8]) -> Option<u32>
    requires size { length bytes.now ≡ 1024 }
    requires room { at + 4096 < 2 ^ 32 }
    requires aligned { at % 4 ≡ 0 }
    ensures place { result ≡ (if has_place bytes.now then Some (at + 8 + 8 * next_slot bytes.now) else None) }
    ensures inside { IsPlaceIn at result }
{
    if !begins_with_mark(b'2', bytes) {
        return None;
    }
    let next = next(bytes);
    if next < SLOT_COUNT {
        Some(at + 8 + 8 * next as u32)
    } else {
        None
    }
}
