// Jump data as bytes.
ghost use Rattle.std.specs.Prelude.{◌≡◌, ◌≤◌, ◌<◌, ◌^◌, ◌+◌, [], ◌++◌, length, IsTrue};
ghost use Rattle.ec_types.specs.LittleEndian.{u16_bytes, u32_bytes};
ghost use Rattle.jump_data.specs.Tags.{front, tag_bytes, tags_bytes};
ghost use Rattle.jump_data.specs.Spelling.{IsHashKept, IsKept, hash_tags, has_switches, spelling};

use crate::{JumpData, TagLayout};
use arrayvec::ArrayVec;
use byteorder::{ByteOrder, LittleEndian};
use ec_types::KeptHash;

// "Jump", as a number.
const MAGIC: u32 = 0x706D_754A;

// The tags of what is kept.
pub const PROTECTION: u16 = 0x5057;

pub const HASH: u16 = 0x4848;

pub const SAVED: u16 = 0x5253;

impl JumpData {
    /// Writes the one spelling, of at most 80 bytes, into an empty buffer. Each byte of `protect` is 0 or 1.
    pub fn encode(&self, out: &mut ArrayVec<u8, 256>)
        requires empty { out.old.items ≡ [] }
        requires switches { IsTrue (has_switches self.now) }
        ensures spelled { out.new.items ≡ spelling self.now }
        // What is written can be read: `decode` gives it back.
        ensures kept { IsKept self.now }
        ensures short { length out.new.items ≤ 80 }
    {
        match *self {
            JumpData::Old { flags } => put_old(out, flags),
            JumpData::Tagged {
                layout,
                flags,
                protect,
                hash,
                saved,
            } => {
                put_front(out, layout, flags, 16 + hash_size(hash));
                put_protection(out, protect);
                put_hash(out, hash);
                put_saved(out, saved);
            }
        }
    }
}

// Appends jump data of version 1.
fn put_old(out: &mut ArrayVec<u8, 256>, flags: u32)
    requires { length out.old.items ≤ 236 }
    ensures { out.new.items ≡ out.old.items ++ spelling (JumpData.Old flags) }
{
    put_u32(out, MAGIC);
    put_u32(out, 1);
    put_u32(out, flags);
}

// Appends what stands before `total` bytes of tags.
pub fn put_front(out: &mut ArrayVec<u8, 256>, layout: TagLayout, flags: u32, total: u32)
    requires { length out.old.items ≤ 236 }
    ensures spelled { out.new.items ≡ out.old.items ++ front layout flags total }
    ensures small { flags < 2 ^ 32 }
    ensures most { length out.new.items ≤ length out.old.items + 20 }
{
    put_u32(out, MAGIC);
    match layout {
        TagLayout::V2 => {
            put_u32(out, 2);
            put_u32(out, flags);
            put_u32(out, total);
        }
        TagLayout::V3 => {
            put_u32(out, 3);
            put_u32(out, flags);
            put_u32(out, total);
            put_u32(out, 20);
        }
    }
}

// How many bytes the tag of a hash has, where there is one.
fn hash_size(hash: Option<KeptHash>) -> u32
    ensures size { result ≡ length (tags_bytes (hash_tags hash)) }
    ensures kept { IsHashKept hash }
    ensures most { result ≤ 44 }
{
    match hash {
        None => 0,
        Some(_) => 44,
    }
}

// Appends the tag of the protection.
fn put_protection(out: &mut ArrayVec<u8, 256>, protect: [u8; 4])
    requires { length out.old.items ≤ 200 }
    ensures spelled { out.new.items ≡ out.old.items ++ tag_bytes (record { number = 0x5057; content = protect }) }
    ensures most { length out.new.items ≤ length out.old.items + 8 }
    ensures size { length (tag_bytes (record { number = 0x5057; content = protect })) ≡ 8 }
    ensures four { length protect ≡ 4 }
{
    put_tag(out, PROTECTION, &protect);
}

// Appends the tag of a hash, where there is one.
fn put_hash(out: &mut ArrayVec<u8, 256>, hash: Option<KeptHash>)
    requires { length out.old.items ≤ 200 }
    ensures spelled { out.new.items ≡ out.old.items ++ tags_bytes (hash_tags hash) }
    ensures most { length out.new.items ≤ length out.old.items + 44 }
{
    match hash {
        None => {}
        Some(hash) => {
            let mut content = [0; 40];
            LittleEndian::write_u32(&mut content[..4], hash.at);
            LittleEndian::write_u32(&mut content[4..8], hash.size);
            content[8..].copy_from_slice(&hash.digest);
            put_tag(out, HASH, &content);
        }
    }
}

// Appends the tag of the saved status.
fn put_saved(out: &mut ArrayVec<u8, 256>, saved: u16)
    requires { length out.old.items ≤ 200 }
    ensures spelled { out.new.items ≡ out.old.items ++
        tag_bytes (record { number = 0x5253; content = u16_bytes saved }) }
    ensures small { saved < 2 ^ 16 }
    ensures most { length out.new.items ≤ length out.old.items + 8 }
{
    let mut content = [0; 2];
    LittleEndian::write_u16(&mut content, saved);
    put_tag(out, SAVED, &content);
}

// Appends a tag, with the zeros behind its content.
fn put_tag(out: &mut ArrayVec<u8, 256>, number: u16, content: &[u8])
    requires { length out.old.items + length content.now ≤ 248 }
    ensures { out.new.items ≡ out.old.items ++ tag_bytes (record { number = number; content = content.now }) }
{
    let mut head = [0, 0, content.len() as u8, 1];
    LittleEndian::write_u16(&mut head, number);
    put(out, &head);
    put(out, content);
    let (zeros, _) = [0; 3].as_slice().split_at((4 - content.len() % 4) % 4);
    put(out, zeros);
}

// Appends a number.
fn put_u32(out: &mut ArrayVec<u8, 256>, number: u32)
    requires { length out.old.items ≤ 252 }
    ensures { out.new.items ≡ out.old.items ++ u32_bytes number }
{
    let mut bytes = [0; 4];
    LittleEndian::write_u32(&mut bytes, number);
    put(out, &bytes);
}

// Appends bytes.
fn put(out: &mut ArrayVec<u8, 256>, bytes: &[u8])
    requires { length out.old.items + length bytes.now ≤ 256 }
    ensures { out.new.items ≡ out.old.items ++ bytes.now }
{
    match out.try_extend_from_slice(bytes) {
        Ok(()) => {}
        Err(_) => unreachable!(),
    }
}
