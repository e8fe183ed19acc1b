// The hash of a part of the flash.
ghost use Rattle.std.specs.Prelude.{◌≡◌, ◌≤◌, ◌<◌, ◌+◌, ◌^◌, ◌++◌, ◌↔◌, ℕ, List, length, Some, IsSome, IfSome};
ghost use Rattle.ec_model.specs.Bodies.{vboot_hash_ask, vboot_hash_say};

use crate::columns::{Columns, put_u32};
use ec_packet::Packet;

/// VBOOT_HASH's request.
#[derive(Clone, Copy, Debug, PartialEq, Eq)]
pub struct VbootHashAsk {
    /// `GET`, `ABORT` or `START`.
    pub cmd: u8,
    /// `TYPE_SHA256`.
    pub hash_type: u8,
    /// How many bytes of the nonce are hashed first.
    pub nonce_size: u8,
    /// Not looked at.
    pub reserved: u8,
    /// The first byte to hash, from the flash's first byte, or the name of an image.
    pub offset: u32,
    /// How many bytes are to be hashed.
    pub size: u32,
    pub nonce: [u8; 64],
}

impl VbootHashAsk {
    /// The hash is shown. EC_VBOOT_HASH_GET
    pub const GET: u8 = 0;
    /// Any hash is dropped. EC_VBOOT_HASH_ABORT
    pub const ABORT: u8 = 1;
    /// A hash of a range begins, and is shown. EC_VBOOT_HASH_START
    pub const START: u8 = 2;
    /// The one type of hash. EC_VBOOT_HASH_TYPE_SHA256
    pub const TYPE_SHA256: u8 = 0;
    /// The offset that names the RO image. EC_VBOOT_HASH_OFFSET_RO
    pub const OFFSET_RO: u32 = 0xFFFF_FFFE;
    /// The offset that names the RW image. EC_VBOOT_HASH_OFFSET_ACTIVE
    pub const OFFSET_RW: u32 = 0xFFFF_FFFD;
    /// How many bytes a nonce has at most.
    pub const LONGEST_NONCE: u8 = 64;

    /// The fields that the bytes spell; None exactly where they are not 76 bytes.
    pub fn read(bytes: &[u8]) -> Option<Self>
        ensures some { IsSome result ↔ (length bytes.now ≡ 76) }
        ensures spelled { IfSome result (λ ask. bytes.now ≡
            vboot_hash_ask ask.cmd ask.hash_type ask.nonce_size ask.reserved ask.offset ask.size ask.nonce) }
        ensures back { (cmd hash_type nonce_size reserved offset size : ℕ) (nonce : List ℕ) →
            offset < 2 ^ 32 → size < 2 ^ 32 → length nonce ≡ 64 →
            bytes.now ≡ vboot_hash_ask cmd hash_type nonce_size reserved offset size nonce →
            result ≡ Some (record {
              cmd = cmd;
              hash_type = hash_type;
              nonce_size = nonce_size;
              reserved = reserved;
              offset = offset;
              size = size;
              nonce = nonce;
            }) }
    {
        let mut columns = Columns::of(bytes, 76)?;
        Some(VbootHashAsk {
            cmd: columns.u8(),
            hash_type: columns.u8(),
            nonce_size: columns.u8(),
            reserved: columns.u8(),
            offset: columns.u32(),
            size: columns.u32(),
            nonce: columns.bytes(),
        })
    }

    /// Appends the 76 bytes that spell the fields.
    pub fn write(&self, out: &mut Packet)
        requires { length out.old + 76 ≤ 544 }
        ensures { out.new ≡ out.old ++
            vboot_hash_ask self.now.cmd self.now.hash_type self.now.nonce_size self.now.reserved
            self.now.offset self.now.size self.now.nonce }
    {
        out.extend(&[self.cmd, self.hash_type, self.nonce_size, self.reserved]);
        put_u32(out, self.offset);
        put_u32(out, self.size);
        out.extend(&self.nonce);
    }
}

/// VBOOT_HASH's reply, but to an abort.
#[derive(Clone, Copy, Debug, PartialEq, Eq)]
pub struct VbootHashSay {
    /// `STATUS_NONE`, `STATUS_DONE` or `STATUS_BUSY`.
    pub status: u8,
    /// `TYPE_SHA256`.
    pub hash_type: u8,
    /// How many bytes the digest has.
    pub digest_size: u8,
    /// Zero.
    pub reserved: u8,
    /// The first byte that was hashed, from the flash's first byte.
    pub offset: u32,
    /// How many bytes were hashed.
    pub size: u32,
    /// The digest, with zeros behind it.
    pub digest: [u8; 64],
}

impl VbootHashSay {
    /// There is no hash. EC_VBOOT_HASH_STATUS_NONE
    pub const STATUS_NONE: u8 = 0;
    /// The digest is shown. EC_VBOOT_HASH_STATUS_DONE
    pub const STATUS_DONE: u8 = 1;
    /// The hash is not finished. EC_VBOOT_HASH_STATUS_BUSY
    pub const STATUS_BUSY: u8 = 2;
    /// The one type of hash. EC_VBOOT_HASH_TYPE_SHA256
    pub const TYPE_SHA256: u8 = 0;
    /// How many bytes a SHA-256 has.
    pub const DIGEST_SIZE: u8 = 32;

    /// The fields that 76 bytes spell.
    pub fn from_bytes(bytes: &[u8]) -> Self
        requires { length bytes.now ≡ 76 }
        ensures spelled { bytes.now ≡
            vboot_hash_say result.status result.hash_type result.digest_size result.reserved
            result.offset result.size result.digest }
        ensures back { (status hash_type digest_size reserved offset size : ℕ) (digest : List ℕ) →
            offset < 2 ^ 32 → size < 2 ^ 32 → length digest ≡ 64 →
            bytes.now ≡ vboot_hash_say status hash_type digest_size reserved offset size digest →
            result ≡ record {
              status = status;
              hash_type = hash_type;
              digest_size = digest_size;
              reserved = reserved;
              offset = offset;
              size = size;
              digest = digest;
            } }
    {
        let mut columns = Columns::new(bytes);
        VbootHashSay {
            status: columns.u8(),
            hash_type: columns.u8(),
            digest_size: columns.u8(),
            reserved: columns.u8(),
            offset: columns.u32(),
            size: columns.u32(),
            digest: columns.bytes(),
        }
    }

    /// The fields that the bytes spell; None exactly where they are not 76 bytes.
    pub fn read(bytes: &[u8]) -> Option<Self>
        ensures some { IsSome result ↔ (length bytes.now ≡ 76) }
        ensures spelled { IfSome result (λ say. bytes.now ≡
            vboot_hash_say say.status say.hash_type say.digest_size say.reserved say.offset say.size say.digest) }
        ensures back { (status hash_type digest_size reserved offset size : ℕ) (digest : List ℕ) →
            offset < 2 ^ 32 → size < 2 ^ 32 → length digest ≡ 64 →
            bytes.now ≡ vboot_hash_say status hash_type digest_size reserved offset size digest →
            result ≡ Some (record {
              status = status;
              hash_type = hash_type;
              digest_size = digest_size;
              reserved = reserved;
              offset = offset;
              size = size;
              digest = digest;
            }) }
    {
        if bytes.len() == 76 {
            Some(VbootHashSay::from_bytes(bytes))
        } else {
            None
        }
    }

    /// Appends the 76 bytes that spell the fields.
    pub fn write(&self, out: &mut Packet)
        requires { length out.old + 76 ≤ 544 }
        ensures { out.new ≡ out.old ++
            vboot_hash_say self.now.status self.now.hash_type self.now.digest_size self.now.reserved
            self.now.offset self.now.size self.now.digest }
    {
        out.extend(&[self.status, self.hash_type, self.digest_size, self.reserved]);
        put_u32(out, self.offset);
        put_u32(out, self.size);
        out.extend(&self.digest);
    }
}
