// The tags of jump data, whatever their numbers.
ghost use Rattle.std.specs.Prelude.{◌≡◌, ◌≤◌, ◌<◌, ◌+◌, ◌==◌, ℕ, List, ◌++◌, length, Some, IsTrue, IsSome, IfSome};
ghost use Rattle.std.specs.List.{list_all};
ghost use Rattle.ec_types.specs.LittleEndian.{u16_bytes, u16_at, u32_at};
ghost use Rattle.jump_data.specs.declared.kept.TagLayout.{TagLayout};
ghost use Rattle.jump_data.specs.Tags.{Tag, IsTag, AreTags, filling, tag_bytes, tags_bytes, front_size, HasFront, HasTags, IsWellFormed, first_place};

use crate::TagLayout;
use crate::encoding::put_front;
use arrayvec::ArrayVec;
use byteorder::{ByteOrder, LittleEndian};

/// The place and the length of the content of the first tag of a number, in jump data of version 2 or 3 with any tags.
/// None exactly where there is no such tag, or the bytes are no such data: more than 256 bytes, another front, or no row
/// of tags behind it.
pub fn tag(bytes: &[u8], number: u16) -> Option<(usize, usize)>
    ensures found { (layout : TagLayout) (flags : ℕ) (tags : List Tag) → HasTags bytes.now layout flags tags →
        result ≡ first_place number (front_size layout) tags }
    ensures well_formed { IsSome result → IsWellFormed bytes.now }
{
    let layout = layout_of(bytes)?;
    let start = front_size(layout);
    let (_, tags) = bytes.split_at(start);
    find(tags, start, number)?
}

// Which layout the bytes have.
pub fn layout_of(bytes: &[u8]) -> Option<TagLayout>
    ensures found { (layout : TagLayout) (flags : ℕ) (behind : List ℕ) → HasFront bytes.now layout flags behind →
        result ≡ Some layout }
    ensures formed { IfSome result (λ layout.
        (flags : ℕ) × (behind : List ℕ) × HasFront bytes.now layout flags behind) }
{
    if bytes.len() > 256 {
        return None;
    }
    if has_front(bytes, TagLayout::V2) {
        return Some(TagLayout::V2);
    }
    if has_front(bytes, TagLayout::V3) {
        return Some(TagLayout::V3);
    }
    None
}

// Whether the front of a layout stands before the rest of the bytes.
fn has_front(bytes: &[u8], layout: TagLayout) -> bool
    requires { length bytes.now ≤ 256 }
    ensures formed { IsTrue result → (flags : ℕ) × (behind : List ℕ) × HasFront bytes.now layout flags behind }
    ensures found { (flags : ℕ) (behind : List ℕ) → HasFront bytes.now layout flags behind → IsTrue result }
{
    let size = front_size(layout);
    if bytes.len() < size {
        return false;
    }
    let (head, behind) = bytes.split_at(size);
    let mut front = ArrayVec::new();
    put_front(&mut front, layout, flags_of(bytes), behind.len() as u32);
    front.as_slice() == head
}

// The flags, which stand at one place in each version.
pub fn flags_of(bytes: &[u8]) -> u32
    requires { 12 ≤ length bytes.now }
    ensures { result ≡ u32_at 8 bytes.now }
{
    LittleEndian::read_u32(&bytes[8..])
}

// How many bytes stand before the tags.
pub fn front_size(layout: TagLayout) -> usize
    ensures size { result ≡ front_size layout }
    ensures least { 16 ≤ result }
    ensures most { result ≤ 20 }
{
    match layout {
        TagLayout::V2 => 16,
        TagLayout::V3 => 20,
    }
}

// The place and the length of the content of the first tag of a number, where the first of some tags stands at a place;
// None exactly where the bytes are no tags.
pub fn find(tags: &[u8], at: usize, number: u16) -> Option<Option<(usize, usize)>>
    requires { at + length tags.now ≤ 256 }
    ensures found { (each : List Tag) → AreTags each → tags.now ≡ tags_bytes each →
        result ≡ Some (first_place number at each) }
    ensures well_formed { IsSome result → (each : List Tag) × AreTags each × (tags.now ≡ tags_bytes each) }
{
    if tags.is_empty() {
        return Some(None);
    }
    let (name, content, behind) = split_tag(tags)?;
    let later = find(behind, at + tags.len() - behind.len(), number)?;
    if name == number {
        return Some(Some((at + 4, content.len())));
    }
    Some(later)
}

// The tag at the front: its number, its content, and the bytes behind it; None exactly where there is none.
pub fn split_tag(tags: &[u8]) -> Option<(u16, &[u8], &[u8])>
    ensures spelled { IfSome result (λ x.
        tags.now ≡ tag_bytes (record { number = x.0; content = x.1.now }) ++ x.2.now) }
    ensures is { IfSome result (λ x. IsTag (record { number = x.0; content = x.1.now })) }
    ensures accepted { (tag : Tag) (rest : List ℕ) → IsTag tag → tags.now ≡ tag_bytes tag ++ rest → IsSome result }
{
    if tags.len() < 4 || tags[3] != 1 {
        return None;
    }
    let (number, _) = tags.split_at(2);
    let (_, behind) = tags.split_at(4);
    let (content, rest) = split_content(behind, usize::from(tags[2]))?;
    Some((two(number), content, rest))
}

// The content of a size, behind which zeros stand up to a multiple of 4, and the bytes behind them.
fn split_content(bytes: &[u8], size: usize) -> Option<(&[u8], &[u8])>
    requires { size < 256 }
    ensures spelled { IfSome result (λ x. bytes.now ≡ x.0.now ++ filling size ++ x.1.now) }
    ensures sized { IfSome result (λ x. length x.0.now ≡ size) }
    ensures accepted { (content rest : List ℕ) → length content ≡ size → bytes.now ≡ content ++ filling size ++ rest →
        IsSome result }
{
    let zeros = (4 - size % 4) % 4;
    if bytes.len() < size + zeros {
        return None;
    }
    let (content, behind) = bytes.split_at(size);
    let (filling, rest) = behind.split_at(zeros);
    if !are_zeros(filling) {
        return None;
    }
    Some((content, rest))
}

// Whether each byte is 0.
fn are_zeros(bytes: &[u8]) -> bool
    ensures { result ≡ list_all (λ byte. byte == 0) bytes.now }
{
    bytes.iter().all(|byte| *byte == 0)
}

// The number of two bytes.
pub fn two(bytes: &[u8]) -> u16
    requires { length bytes.now ≡ 2 }
    ensures value { result ≡ u16_at 0 bytes.now }
    ensures spelled { bytes.now ≡ u16_bytes result }
{
    LittleEndian::read_u16(bytes)
}
