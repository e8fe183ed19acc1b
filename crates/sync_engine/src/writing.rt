// Writing the image into RW.
ghost use Rattle.std.specs.Prelude.{◌≡◌, ◌≤◌, ◌<◌, ◌+◌, ◌-◌, ◌*◌, ◌/◌, length, take, drop};
ghost use Rattle.ec_types.specs.Tables.{packet_limit};
ghost use Rattle.ec_model.specs.Ranges.{rw_range};
ghost use Rattle.sync_rules.specs.Steps.{is_blank, piece, pieces, piece_length, WritesPiece, WritesFrom, Installs};
ghost use Rattle.sync_engine.specs.OnWire.{Does};

use crate::asking::{erase, write};
use crate::buffers::Buffers;
use ec_packet::Packet;
use ec_types::limit_of;
use ec_wire::Wire;
use flash_dev::{Geometry, Region};
use sync_rules::Stop;

// How many bytes of a request come before the bytes that it writes: the header, an offset and a size.
const WRITE_HEAD: u32 = 16;

// The most bytes that one FLASH_WRITE carries on any bus.
const LONGEST_PIECE: usize = 528;

// An erased byte, and as many as a piece has at most.
const BLANK: u8 = 0xFF;

const BLANK_PIECE: [u8; LONGEST_PIECE] = [BLANK; LONGEST_PIECE];

// What a piece has of the image itself: at most `most` bytes behind `place`.
fn image_part(image: &[u8], most: usize, place: usize) -> &[u8]
    requires sum { place + most ≤ usize.MAX }
    ensures part { result.now ≡ take most (drop place image.now) }
{
    let from = place.min(image.len());
    let to = (place + most).min(image.len());
    &image[from..to]
}

// The piece of the padded image behind `place`, of `most` bytes or up to the end of RW.
fn cut_piece(image: &[u8], geometry: Geometry, most: u32, place: u32, out: &mut Packet)
    requires within { length image.now ≤ (rw_range geometry).size }
    requires most { most ≤ 528 }
    requires place { place < (rw_range geometry).size }
    ensures cut { out.new ≡ piece image.now geometry most place }
    ensures short { length out.new ≤ most }
{
    let (_, size) = geometry.range(Region::Active);
    let length = most.min(size - place) as usize;
    let part = image_part(image, most as usize, place as usize);
    out.clear();
    out.extend(part);
    out.extend(&BLANK_PIECE[..length - part.len()]);
}

// Whether all bytes are as an erase leaves them.
fn is_blank(bytes: &[u8]) -> bool
    ensures { result ≡ is_blank bytes.now }
{
    bytes.iter().all(|byte| *byte == BLANK)
}

// Writes the piece that stands in the buffers, but for a blank one.
fn write_piece<W: Wire>(
    w: &mut W,
    floor: usize,
    geometry: Geometry,
    place: u32,
    buffers: &mut Buffers,
) -> Result<(), Stop>
    requires sum { floor + 1500 ≤ usize.MAX }
    requires short { 16 + length buffers.old.piece ≤ packet_limit (W.view w.old).bus }
    requires place { place < (rw_range geometry).size }
    ensures does { Does (λ setting. WritesPiece setting geometry buffers.old.piece place) floor result
        (W.view w.old) (W.view w.new) }
{
    if is_blank(buffers.piece.as_slice()) {
        return Ok(());
    }
    let (at, _) = geometry.range(Region::Active);
    write(w, floor, at + place, buffers)
}

// How many bytes one FLASH_WRITE carries at most.
fn longest_piece<W: Wire>(w: &W) -> u32
    ensures length { result ≡ packet_limit (W.view w.now).bus - 16 }
    ensures least { 112 ≤ result }
    ensures most { result ≤ 528 }
{
    u32::from(limit_of(w.kind())) - WRITE_HEAD
}

// In how many pieces so many bytes go.
fn piece_count(size: u32, most: u32) -> u32
    requires sized { 1 ≤ size }
    requires most { 1 ≤ most }
    ensures { result ≡ pieces size most }
{
    (size - 1) / most + 1
}

// How many bytes of RW come before a piece.
fn place_of(number: u32, most: u32, size: u32) -> u32
    requires there { number < pieces size most }
    requires sized { 1 ≤ size }
    requires most { 1 ≤ most }
    ensures place { result ≡ number * most }
    ensures before { result < size }
{
    number * most
}

// Writes the padded image piece by piece.
fn write_all<W: Wire>(
    w: &mut W,
    floor: usize,
    image: &[u8],
    geometry: Geometry,
    buffers: &mut Buffers,
) -> Result<(), Stop>
    requires sum { floor + 1500 ≤ usize.MAX }
    requires within { length image.now ≤ (rw_range geometry).size }
    ensures does { Does (λ setting. WritesFrom (pieces (rw_range geometry).size (piece_length setting)) 0 setting image.now geometry)
        floor result (W.view w.old) (W.view w.new) }
{
    let most = longest_piece(w);
    let (_, size) = geometry.range(Region::Active);
    for number in 0..piece_count(size, most) {
        let place = place_of(number, most, size);
        cut_piece(image, geometry, most, place, &mut buffers.piece);
        write_piece(w, floor, geometry, place, buffers)?;
    }
    Ok(())
}

/// Erases RW, and writes the padded image.
pub fn install<W: Wire>(
    w: &mut W,
    floor: usize,
    image: &[u8],
    geometry: Geometry,
    buffers: &mut Buffers,
) -> Result<(), Stop>
    requires sum { floor + 1500 ≤ usize.MAX }
    requires within { length image.now ≤ (rw_range geometry).size }
    ensures does { Does (λ setting. Installs setting image.now geometry) floor result (W.view w.old) (W.view w.new) }
{
    erase(w, floor, geometry, buffers)?;
    write_all(w, floor, image, geometry, buffers)
}
