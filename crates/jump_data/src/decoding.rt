// Jump data, read from bytes.
ghost use Rattle.std.specs.Prelude.{◌≡◌, ◌<◌, ◌^◌, ℕ, List, length, Option, Some, IfSome, IsTrue};
ghost use Rattle.std.specs.List.{list_all};
ghost use Rattle.ec_types.specs.LittleEndian.{u16_bytes, u32_at};
ghost use Rattle.ec_types.specs.declared.image.KeptHash.{KeptHash};
ghost use Rattle.jump_data.specs.declared.kept.JumpData.{JumpData};
ghost use Rattle.jump_data.specs.Tags.{tags_bytes};
ghost use Rattle.jump_data.specs.Spelling.{IsHash, IsHashKept, IsKept, behind_protection, hash_content, is_switch, kept_tags, spelling};

use crate::encoding::SAVED;
use crate::tags::{flags_of, front_size, layout_of, split_tag, two};
use crate::{JumpData, TagLayout};
use arrayvec::ArrayVec;
use byteorder::{ByteOrder, LittleEndian};
use ec_types::KeptHash;

impl JumpData {
    /// The jump data that bytes spell; None exactly where they are no spelling.
    pub fn decode(bytes: &[u8]) -> Option<JumpData>
        // Each spelling is read as what it spells, so what was encoded decodes to itself.
        ensures accepted { (jump : JumpData) → IsKept jump → bytes.now ≡ spelling jump → result ≡ Some jump }
        // What is read is spelled so.
        ensures spelled { IfSome result (λ jump. bytes.now ≡ spelling jump) }
        ensures kept { IfSome result (λ jump. IsKept jump) }
    {
        let jump = read(bytes)?;
        let mut again = ArrayVec::new();
        jump.encode(&mut again);
        if again.as_slice() == bytes {
            Some(jump)
        } else {
            None
        }
    }
}

// What the bytes would spell, by the places of the fields. Whether they are that spelling is not looked at.
fn read(bytes: &[u8]) -> Option<JumpData>
    ensures accepted { (jump : JumpData) → IsKept jump → bytes.now ≡ spelling jump → result ≡ Some jump }
    ensures kept { IfSome result (λ jump. IsKept jump) }
{
    if bytes.len() == 12 {
        return Some(JumpData::Old {
            flags: flags_of(bytes),
        });
    }
    let layout = layout_of(bytes)?;
    let (_, tags) = bytes.split_at(front_size(layout));
    read_tags(layout, flags_of(bytes), tags)
}

// What the tags keep, behind a front with these flags.
fn read_tags(layout: TagLayout, flags: u32, tags: &[u8]) -> Option<JumpData>
    ensures accepted { (protect : List ℕ) (hash : Option KeptHash) (saved : ℕ) →
        length protect ≡ 4 → IsTrue (list_all is_switch protect) → IsHashKept hash → saved < 2 ^ 16 →
        tags.now ≡ tags_bytes (kept_tags protect hash saved) →
        result ≡ Some (JumpData.Tagged layout flags protect hash saved) }
    ensures kept { IfSome result (λ jump. IsKept jump) }
{
    let (_, content, behind) = split_tag(tags)?;
    let protect = protect_of(content)?;
    let (hash, saved) = read_behind(behind)?;
    Some(JumpData::Tagged {
        layout,
        flags,
        protect,
        hash,
        saved,
    })
}

// What the tags behind the protection keep.
fn read_behind(tags: &[u8]) -> Option<(Option<KeptHash>, u16)>
    ensures accepted { (hash : Option KeptHash) (saved : ℕ) → IsHashKept hash → saved < 2 ^ 16 →
        tags.now ≡ tags_bytes (behind_protection hash saved) → result ≡ Some (hash, saved) }
    ensures kept { IfSome result (λ x. IsHashKept x.0) }
{
    let (number, content, behind) = split_tag(tags)?;
    if number == SAVED {
        return Some((None, saved_of(content)?));
    }
    let hash = hash_of(content)?;
    let (_, content, _) = split_tag(behind)?;
    Some((Some(hash), saved_of(content)?))
}

// Four switches.
fn protect_of(content: &[u8]) -> Option<[u8; 4]>
    ensures accepted { length content.now ≡ 4 → IsTrue (list_all is_switch content.now) → result ≡ Some content.now }
    ensures kept { IfSome result (λ protect. (length protect ≡ 4) × IsTrue (list_all is_switch protect)) }
{
    if content.len() != 4 || !are_switches(content) {
        return None;
    }
    let mut protect = [0; 4];
    protect.copy_from_slice(content);
    Some(protect)
}

// Whether each byte is 0 or 1.
fn are_switches(bytes: &[u8]) -> bool
    ensures { result ≡ list_all is_switch bytes.now }
{
    bytes.iter().all(|byte| *byte <= 1)
}

// A saved status.
fn saved_of(content: &[u8]) -> Option<u16>
    ensures { (saved : ℕ) → saved < 2 ^ 16 → content.now ≡ u16_bytes saved → result ≡ Some saved }
{
    if content.len() != 2 {
        return None;
    }
    Some(two(content))
}

// A finished hash.
fn hash_of(content: &[u8]) -> Option<KeptHash>
    ensures accepted { (hash : KeptHash) → IsHash hash → content.now ≡ hash_content hash → result ≡ Some hash }
    ensures kept { IfSome result (λ hash. IsHash hash) }
{
    if content.len() != 40 {
        return None;
    }
    let (at, behind) = content.split_at(4);
    let (size, rest) = behind.split_at(4);
    let mut digest = [0; 32];
    digest.copy_from_slice(rest);
    Some(KeptHash {
        at: LittleEndian::read_u32(at),
        size: LittleEndian::read_u32(size),
        digest,
    })
}
