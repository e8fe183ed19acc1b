// Protection of the flash, and its regions.
ghost use Rattle.std.specs.Prelude.{◌≡◌, ◌≤◌, ◌<◌, ◌+◌, ◌^◌, ◌++◌, ◌↔◌, ℕ, length, Some, IsSome, IfSome};
ghost use Rattle.ec_model.specs.Bodies.{flash_protect_ask, flash_protect_say, region_info_ask, region_info_say};

use crate::columns::{Columns, put_u32};
use ec_packet::Packet;

/// FLASH_PROTECT's request.
#[derive(Clone, Copy, Debug, PartialEq, Eq)]
pub struct FlashProtectAsk {
    /// The bits to change.
    pub mask: u32,
    /// What they are to be.
    pub flags: u32,
}

impl FlashProtectAsk {
    /// The fields that the bytes spell; None exactly where they are not 8 bytes.
    pub fn read(bytes: &[u8]) -> Option<Self>
        ensures some { IsSome result ↔ (length bytes.now ≡ 8) }
        ensures spelled { IfSome result (λ ask. bytes.now ≡ flash_protect_ask ask.mask ask.flags) }
        ensures back { (mask flags : ℕ) → mask < 2 ^ 32 → flags < 2 ^ 32 → bytes.now ≡ flash_protect_ask mask flags →
            result ≡ Some (record { mask = mask; flags = flags }) }
    {
        let mut columns = Columns::of(bytes, 8)?;
        Some(FlashProtectAsk {
            mask: columns.u32(),
            flags: columns.u32(),
        })
    }

    /// Appends the 8 bytes that spell the fields.
    pub fn write(&self, out: &mut Packet)
        requires { length out.old + 8 ≤ 544 }
        ensures { out.new ≡ out.old ++ flash_protect_ask self.now.mask self.now.flags }
    {
        put_u32(out, self.mask);
        put_u32(out, self.flags);
    }
}

/// FLASH_PROTECT's reply.
#[derive(Clone, Copy, Debug, PartialEq, Eq)]
pub struct FlashProtectSay {
    /// The bits as they are.
    pub flags: u32,
    /// The bits that have a meaning.
    pub valid: u32,
    /// The bits that may be changed now.
    pub writable: u32,
}

impl FlashProtectSay {
    /// The fields that 12 bytes spell.
    pub fn from_bytes(bytes: &[u8]) -> Self
        requires { length bytes.now ≡ 12 }
        ensures spelled { bytes.now ≡ flash_protect_say result.flags result.valid result.writable }
        ensures back { (flags valid writable : ℕ) → flags < 2 ^ 32 → valid < 2 ^ 32 → writable < 2 ^ 32 →
            bytes.now ≡ flash_protect_say flags valid writable →
            result ≡ record { flags = flags; valid = valid; writable = writable } }
    {
        let mut columns = Columns::new(bytes);
        FlashProtectSay {
            flags: columns.u32(),
            valid: columns.u32(),
            writable: columns.u32(),
        }
    }

    /// The fields that the bytes spell; None exactly where they are not 12 bytes.
    pub fn read(bytes: &[u8]) -> Option<Self>
        ensures some { IsSome result ↔ (length bytes.now ≡ 12) }
        ensures spelled { IfSome result (λ say. bytes.now ≡ flash_protect_say say.flags say.valid say.writable) }
        ensures back { (flags valid writable : ℕ) → flags < 2 ^ 32 → valid < 2 ^ 32 → writable < 2 ^ 32 →
            bytes.now ≡ flash_protect_say flags valid writable →
            result ≡ Some (record { flags = flags; valid = valid; writable = writable }) }
    {
        if bytes.len() == 12 {
            Some(FlashProtectSay::from_bytes(bytes))
        } else {
            None
        }
    }

    /// Appends the 12 bytes that spell the fields.
    pub fn write(&self, out: &mut Packet)
        requires { length out.old + 12 ≤ 544 }
        ensures { out.new ≡ out.old ++ flash_protect_say self.now.flags self.now.valid self.now.writable }
    {
        put_u32(out, self.flags);
        put_u32(out, self.valid);
        put_u32(out, self.writable);
    }
}

/// FLASH_REGION_INFO's request.
#[derive(Clone, Copy, Debug, PartialEq, Eq)]
pub struct RegionInfoAsk {
    /// A region's number.
    pub region: u32,
}

impl RegionInfoAsk {
    /// The fields that the bytes spell; None exactly where they are not 4 bytes.
    pub fn read(bytes: &[u8]) -> Option<Self>
        ensures some { IsSome result ↔ (length bytes.now ≡ 4) }
        ensures spelled { IfSome result (λ ask. bytes.now ≡ region_info_ask ask.region) }
        ensures back { (region : ℕ) → region < 2 ^ 32 → bytes.now ≡ region_info_ask region →
            result ≡ Some (record { region = region }) }
    {
        let mut columns = Columns::of(bytes, 4)?;
        Some(RegionInfoAsk {
            region: columns.u32(),
        })
    }

    /// Appends the 4 bytes that spell the fields.
    pub fn write(&self, out: &mut Packet)
        requires { length out.old + 4 ≤ 544 }
        ensures { out.new ≡ out.old ++ region_info_ask self.now.region }
    {
        put_u32(out, self.region);
    }
}

/// FLASH_REGION_INFO's reply.
#[derive(Clone, Copy, Debug, PartialEq, Eq)]
pub struct RegionInfoSay {
    /// The region's first byte, from the flash's first byte.
    pub offset: u32,
    /// How many bytes it has.
    pub size: u32,
}

impl RegionInfoSay {
    /// The fields that 8 bytes spell.
    pub fn from_bytes(bytes: &[u8]) -> Self
        requires { length bytes.now ≡ 8 }
        ensures spelled { bytes.now ≡ region_info_say result.offset result.size }
        ensures back { (offset size : ℕ) → offset < 2 ^ 32 → size < 2 ^ 32 → bytes.now ≡ region_info_say offset size →
            result ≡ record { offset = offset; size = size } }
    {
        let mut columns = Columns::new(bytes);
        RegionInfoSay {
            offset: columns.u32(),
            size: columns.u32(),
        }
    }

    /// The fields that the bytes spell; None exactly where they are not 8 bytes.
    pub fn read(bytes: &[u8]) -> Option<Self>
        ensures some { IsSome result ↔ (length bytes.now ≡ 8) }
        ensures spelled { IfSome result (λ say. bytes.now ≡ region_info_say say.offset say.size) }
        ensures back { (offset size : ℕ) → offset < 2 ^ 32 → size < 2 ^ 32 → bytes.now ≡ region_info_say offset size →
            result ≡ Some (record { offset = offset; size = size }) }
    {
        if bytes.len() == 8 {
            Some(RegionInfoSay::from_bytes(bytes))
        } else {
            None
        }
    }

    /// Appends the 8 bytes that spell the fields.
    pub fn write(&self, out: &mut Packet)
        requires { length out.old + 8 ≤ 544 }
        ensures { out.new ≡ out.old ++ region_info_say self.now.offset self.now.size }
    {
        put_u32(out, self.offset);
        put_u32(out, self.size);
    }
}
