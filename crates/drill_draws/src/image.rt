// The image of a round.
ghost use Rattle.std.specs.Prelude.{◌≡◌, ◌≤◌, ◌<◌, ◌+◌, ◌++◌, ◌∷◌, [], length};
ghost use Rattle.drill_draws.specs.Rounds.{version_of, head_of};

use arrayvec::ArrayVec;
use byteorder::{ByteOrder, LittleEndian};
use flash_dev::Geometry;
use itoa::Buffer;
use std::marker::Model;

/// How many bytes the head of an image has: its reset vector behind four zeros, and its version.
pub const HEAD_LENGTH: u32 = 40;

// How many bytes the longest image has.
const LONGEST: usize = 6143;

// What the version of an image begins with; the round's number stands behind it.
const LABEL: &[u8; 6] = b"drill-";

// How many bytes of the version are left for the round's number.
const NUMBER_LENGTH: usize = 26;

/// The image of a round, in a buffer that holds the longest one. Contracts see its bytes.
#[derive(Drop)]
pub struct DrillImage {
    bytes: ArrayVec<u8, LONGEST>,
}

impl Model for DrillImage {
    ghost use Rattle.std.specs.Prelude.{◌≤◌, ℕ, List, length};

    ghost Value = { List ℕ };

    ghost view = { λ image. image.bytes.items };

    ghost invariant = { λ image. length image.bytes.items ≤ 6143 };
}

impl DrillImage {
    /// No bytes yet.
    pub fn new() -> DrillImage
        ensures { result ≡ [] }
    {
        DrillImage {
            bytes: ArrayVec::new(),
        }
    }

    /// Its bytes.
    pub fn as_slice(&self) -> &[u8]
        ensures bytes { result.now ≡ self.now }
        ensures few { length result.now ≤ 6143 }
    {
        self.bytes.as_slice()
    }

    // Takes all of it out, and puts the head of a round's image there, for a flash of this size.
    pub(crate) fn begin(&mut self, round: u32, geometry: Geometry)
        ensures head { self.new ≡ head_of round geometry }
        ensures long { length self.new ≡ 40 }
    {
        let mut vector = [0; 4];
        LittleEndian::write_u32(&mut vector, geometry.size() / 2 + 256);
        self.bytes.clear();
        self.append(&[0; 4]);
        self.append(&vector);
        self.append_version(round);
    }

    // The text that names a round, padded with zeros to 32 bytes.
    fn append_version(&mut self, round: u32)
        requires { length self.old ≤ 1000 }
        ensures version { self.new ≡ self.old ++ version_of round }
        ensures long { length self.new ≡ length self.old + 32 }
    {
        let mut digits = Buffer::new();
        let number = digits.format(round).as_bytes();
        let zeros = [0; NUMBER_LENGTH];
        self.append(LABEL);
        self.append(number);
        self.append(&zeros[number.len()..]);
    }

    // Appends bytes that fit.
    fn append(&mut self, bytes: &[u8])
        requires { length self.old + length bytes.now ≤ 6143 }
        ensures { self.new ≡ self.old ++ bytes.now }
    {
        self.bytes.try_extend_from_slice(bytes).unwrap();
    }

    // Appends a byte, for which there is room.
    pub(crate) fn push(&mut self, byte: u8)
        requires { length self.old < 6143 }
        ensures { self.new ≡ self.old ++ byte ∷ [] }
    {
        self.bytes.push(byte);
    }
}
