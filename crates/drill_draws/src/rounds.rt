// The rounds of a drill.
ghost use Rattle.std.specs.Prelude.{◌≡◌, ◌≤◌, ◌+◌, ◌%◌, ◌++◌, length, drop};
ghost use Rattle.byteorder.specs.Endian.{little_bytes, little_number};
ghost use Rattle.drill_draws.specs.Draws.{after, nth_draw, drawn_bytes};
ghost use Rattle.drill_draws.specs.Rounds.{image_length, body_length, vector_of, drill_image, drill_operation, drill_torn, behind_round};

use crate::image::HEAD_LENGTH;
use crate::{DrillImage, Generator};
use byteorder::{ByteOrder, LittleEndian};
use flash_dev::Geometry;

// How many bytes the shortest image has.
const SHORTEST: u32 = 2048;

// How many lengths an image may have, and how many operations a cut.
const LENGTHS: u32 = 4096;

const OPERATIONS: u32 = 40;

/// The cut of power of a round.
#[derive(Clone, Copy, Debug, PartialEq, Eq)]
pub struct DrillCut {
    /// The flash operation that loses power, from 1.
    pub operation: u32,
    /// The bytes that it leaves at the front of its range.
    pub torn: [u8; 4],
}

impl Generator {
    /// Draws the round of this number: its image, for a flash of this size, takes the place of what was in `image`.
    pub fn draw_round(&mut self, round: u32, geometry: Geometry, image: &mut DrillImage) -> DrillCut
        ensures image { image.new ≡ drill_image round geometry self.old }
        ensures long { length image.new ≡ image_length self.old }
        ensures vector { little_number 4 (drop 4 image.new) ≡ vector_of geometry }
        ensures operation { result.operation ≡ drill_operation self.old }
        ensures torn { result.torn ≡ drill_torn self.old }
        ensures state { self.new ≡ behind_round self.old }
    {
        self.draw_image(round, geometry, image);
        self.draw_cut()
    }

    // Draws an image: its length, and each byte behind its head.
    fn draw_image(&mut self, round: u32, geometry: Geometry, image: &mut DrillImage)
        ensures image { image.new ≡ drill_image round geometry self.old }
        ensures long { length image.new ≡ image_length self.old }
        ensures vector { little_number 4 (drop 4 image.new) ≡ vector_of geometry }
        ensures state { self.new ≡ after (body_length self.old + 1) self.old }
    {
        let length = SHORTEST + self.draw_below(LENGTHS);
        image.begin(round, geometry);
        self.draw_bytes(length - HEAD_LENGTH, image);
    }

    // Appends so many bytes to the image, a draw each.
    fn draw_bytes(&mut self, count: u32, image: &mut DrillImage)
        requires { length image.old + count ≤ 6143 }
        ensures bytes { image.new ≡ image.old ++ drawn_bytes 1 count self.old }
        ensures long { length image.new ≡ length image.old + count }
        ensures state { self.new ≡ after count self.old }
    {
        for _turn in 0..count {
            image.push(self.draw_below(256) as u8);
        }
    }

    // Draws a cut: its operation, and then its torn bytes.
    fn draw_cut(&mut self) -> DrillCut
        ensures operation { result.operation ≡ 1 + nth_draw 1 self.old % 40 }
        ensures torn { result.torn ≡ little_bytes 4 (nth_draw 2 self.old) }
        ensures state { self.new ≡ after 2 self.old }
    {
        let operation = 1 + self.draw_below(OPERATIONS);
        let mut torn = [0; 4];
        LittleEndian::write_u32(&mut torn, self.draw());
        DrillCut { operation, torn }
    }
}
