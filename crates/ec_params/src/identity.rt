// Who the controller is, and which image runs.
ghost use Rattle.std.specs.Prelude.{
  ◌≡◌,
  ◌≤◌,
  ◌<◌,
  ◌+◌,
  ◌^◌,
  ◌++◌,
  ◌↔◌,
  ℕ,
  List,
  length,
  Some,
  IsSome,
  IfSome,
  IsSomeAnd,
};
ghost use Rattle.ec_model.specs.Bodies.{version_say, chip_say, sysinfo_say};

use crate::columns::{Columns, put_u32};
use ec_packet::Packet;

/// The number of the read-only image. EC_IMAGE_RO
pub const IMAGE_RO: u32 = 1;
/// The number of the writable image. EC_IMAGE_RW
pub const IMAGE_RW: u32 = 2;

/// GET_VERSION's reply.
#[derive(Clone, Copy, Debug, PartialEq, Eq)]
pub struct VersionSay {
    /// The version text of the read-only image, with zeros behind it.
    pub ro: [u8; 32],
    /// The version text of the writable image, with zeros behind it.
    pub rw: [u8; 32],
    /// Zeros.
    pub reserved: [u8; 32],
    /// The image that runs: `IMAGE_RO` or `IMAGE_RW`.
    pub current: u32,
}

impl VersionSay {
    /// The fields that 100 bytes spell.
    pub fn from_bytes(bytes: &[u8]) -> Self
        requires { length bytes.now ≡ 100 }
        ensures spelled { bytes.now ≡ version_say result.ro result.rw result.reserved result.current }
        ensures back { (ro rw_text reserved : List ℕ) (current : ℕ) →
            length ro ≡ 32 → length rw_text ≡ 32 → length reserved ≡ 32 → current < 2 ^ 32 →
            bytes.now ≡ version_say ro rw_text reserved current →
            (result.ro ≡ ro) × (result.rw ≡ rw_text) × (result.reserved ≡ reserved) × (result.current ≡ current) }
    {
        let mut columns = Columns::new(bytes);
        VersionSay {
            ro: columns.bytes(),
            rw: columns.bytes(),
            reserved: columns.bytes(),
            current: columns.u32(),
        }
    }

    /// The fields that the bytes spell; None exactly where they are not 100 bytes.
    pub fn read(bytes: &[u8]) -> Option<Self>
        ensures some { IsSome result ↔ (length bytes.now ≡ 100) }
        ensures spelled { IfSome result (λ say. bytes.now ≡ version_say say.ro say.rw say.reserved say.current) }
        ensures back { (ro rw_text reserved : List ℕ) (current : ℕ) →
            length ro ≡ 32 → length rw_text ≡ 32 → length reserved ≡ 32 → current < 2 ^ 32 →
            bytes.now ≡ version_say ro rw_text reserved current →
            IsSomeAnd result (λ say. (say.ro ≡ ro) × (say.rw ≡ rw_text) × (say.reserved ≡ reserved)
            × (say.current ≡ current)) }
    {
        if bytes.len() == 100 {
            Some(VersionSay::from_bytes(bytes))
        } else {
            None
        }
    }

    /// Appends the 100 bytes that spell the fields.
    pub fn write(&self, out: &mut Packet)
        requires { length out.old + 100 ≤ 544 }
        ensures { out.new ≡ out.old ++ version_say self.now.ro self.now.rw self.now.reserved self.now.current }
    {
        out.extend(&self.ro);
        out.extend(&self.rw);
        out.extend(&self.reserved);
        put_u32(out, self.current);
    }
}

/// GET_CHIP_INFO's reply: three texts with zeros behind them.
#[derive(Clone, Copy, Debug, PartialEq, Eq)]
pub struct ChipSay {
    pub vendor: [u8; 32],
    pub name: [u8; 32],
    pub revision: [u8; 32],
}

impl ChipSay {
    /// The fields that 96 bytes spell.
    pub fn from_bytes(bytes: &[u8]) -> Self
        requires { length bytes.now ≡ 96 }
        ensures spelled { bytes.now ≡ chip_say result.vendor result.name result.revision }
        ensures back { (vendor name revision : List ℕ) →
            length vendor ≡ 32 → length name ≡ 32 → length revision ≡ 32 →
            bytes.now ≡ chip_say vendor name revision →
            result ≡ record { vendor = vendor; name = name; revision = revision } }
    {
        let mut columns = Columns::new(bytes);
        ChipSay {
            vendor: columns.bytes(),
            name: columns.bytes(),
            revision: columns.bytes(),
        }
    }

    /// The fields that the bytes spell; None exactly where they are not 96 bytes.
    pub fn read(bytes: &[u8]) -> Option<Self>
        ensures some { IsSome result ↔ (length bytes.now ≡ 96) }
        ensures spelled { IfSome result (λ say. bytes.now ≡ chip_say say.vendor say.name say.revision) }
        ensures back { (vendor name revision : List ℕ) →
            length vendor ≡ 32 → length name ≡ 32 → length revision ≡ 32 →
            bytes.now ≡ chip_say vendor name revision →
            result ≡ Some (record { vendor = vendor; name = name; revision = revision }) }
    {
        if bytes.len() == 96 {
            Some(ChipSay::from_bytes(bytes))
        } else {
            None
        }
    }

    /// Appends the 96 bytes that spell the fields.
    pub fn write(&self, out: &mut Packet)
        requires { length out.old + 96 ≤ 544 }
        ensures { out.new ≡ out.old ++ chip_say self.now.vendor self.now.name self.now.revision }
    {
        out.extend(&self.vendor);
        out.extend(&self.name);
        out.extend(&self.revision);
    }
}

/// SYSINFO's reply.
#[derive(Clone, Copy, Debug, PartialEq, Eq)]
pub struct SysinfoSay {
    /// The causes of the last reset.
    pub reset_flags: u32,
    /// The image that runs: `IMAGE_RO` or `IMAGE_RW`.
    pub current: u32,
    /// `LOCKED`, `JUMP_ENABLED` and `JUMPED`.
    pub flags: u32,
}

impl SysinfoSay {
    /// The RO blocks are locked, and the pin is asserted. SYSTEM_IS_LOCKED
    pub const LOCKED: u32 = 0x01;
    /// Jumps are not disabled. SYSTEM_JUMP_ENABLED
    pub const JUMP_ENABLED: u32 = 0x04;
    /// The image runs by a jump. SYSTEM_JUMPED_TO_CURRENT_IMAGE
    pub const JUMPED: u32 = 0x08;

    /// The fields that 12 bytes spell.
    pub fn from_bytes(bytes: &[u8]) -> Self
        requires { length bytes.now ≡ 12 }
        ensures spelled { bytes.now ≡ sysinfo_say result.reset_flags result.current result.flags }
        ensures back { (reset_flags current flags : ℕ) → reset_flags < 2 ^ 32 → current < 2 ^ 32 → flags < 2 ^ 32 →
            bytes.now ≡ sysinfo_say reset_flags current flags →
            result ≡ record { reset_flags = reset_flags; current = current; flags = flags } }
    {
        let mut columns = Columns::new(bytes);
        SysinfoSay {
            reset_flags: columns.u32(),
            current: columns.u32(),
            flags: columns.u32(),
        }
    }

    /// The fields that the bytes spell; None exactly where they are not 12 bytes.
    pub fn read(bytes: &[u8]) -> Option<Self>
        ensures some { IsSome result ↔ (length bytes.now ≡ 12) }
        ensures spelled { IfSome result (λ say. bytes.now ≡ sysinfo_say say.reset_flags say.current say.flags) }
        ensures back { (reset_flags current flags : ℕ) → reset_flags < 2 ^ 32 → current < 2 ^ 32 → flags < 2 ^ 32 →
            bytes.now ≡ sysinfo_say reset_flags current flags →
            result ≡ Some (record { reset_flags = reset_flags; current = current; flags = flags }) }
    {
        if bytes.len() == 12 {
            Some(SysinfoSay::from_bytes(bytes))
        } else {
            None
        }
    }

    /// Appends the 12 bytes that spell the fields.
    pub fn write(&self, out: &mut Packet)
        requires { length out.old + 12 ≤ 544 }
        ensures { out.new ≡ out.old ++ sysinfo_say self.now.reset_flags self.now.current self.now.flags }
    {
        put_u32(out, self.reset_flags);
        put_u32(out, self.current);
        put_u32(out, self.flags);
    }
}
