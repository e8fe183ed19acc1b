// What the flash is, and reading, writing and erasing it.
ghost use Rattle.std.specs.Prelude.{
  ◌≡◌,
  ◌≤◌,
  ◌<◌,
  ◌+◌,
  ◌^◌,
  ◌++◌,
  ◌↔◌,
  ℕ,
  List,
  length,
  Some,
  IsSome,
  IfSome,
  IsSomeAnd,
  IsTrue,
};
ghost use Rattle.ec_model.specs.Bodies.{
  flash_info_say0,
  flash_info_say1,
  flash_read_ask,
  flash_erase_ask,
  flash_read_say,
  flash_write_ask,
};
ghost use Rattle.ec_model.specs.Commands.{is_write_spelled};

use crate::columns::{Columns, put_u32};
use ec_packet::{LARGEST_BODY, Packet};
use flash_dev::BLOCK_SIZE;

/// The unit of a write, in bytes.
pub const WRITE_UNIT: u32 = 4;
/// The unit of an erase, in bytes.
pub const ERASE_UNIT: u32 = BLOCK_SIZE;
/// The unit of protection, in bytes.
pub const PROTECT_UNIT: u32 = BLOCK_SIZE;
/// The most bytes of a write that is done in one piece.
pub const IDEAL_WRITE: u32 = 64;
/// The most bytes that a FLASH_WRITE of version 0 may have. EC_FLASH_WRITE_VER0_SIZE
pub const LONGEST_WRITE_0: u32 = 64;

// How many bytes of a FLASH_WRITE stand before those to write.
const WRITE_HEAD: usize = 8;

/// FLASH_INFO's reply of version 0, in bytes.
#[derive(Clone, Copy, Debug, PartialEq, Eq)]
pub struct FlashInfoSay0 {
    /// The size of the flash.
    pub size: u32,
    /// The unit of a write.
    pub write: u32,
    /// The unit of an erase.
    pub erase: u32,
    /// The unit of protection.
    pub protect: u32,
}

impl FlashInfoSay0 {
    /// The fields that the bytes spell; None exactly where they are not 16 bytes.
    pub fn read(bytes: &[u8]) -> Option<Self>
        ensures some { IsSome result ↔ (length bytes.now ≡ 16) }
        ensures spelled { IfSome result (λ say. bytes.now ≡
            flash_info_say0 say.size say.write say.erase say.protect) }
        ensures back { (size write erase protect : ℕ) →
            size < 2 ^ 32 → write < 2 ^ 32 → erase < 2 ^ 32 → protect < 2 ^ 32 →
            bytes.now ≡ flash_info_say0 size write erase protect →
            result ≡ Some (record { size = size; write = write; erase = erase; protect = protect }) }
    {
        let mut columns = Columns::of(bytes, 16)?;
        Some(FlashInfoSay0 {
            size: columns.u32(),
            write: columns.u32(),
            erase: columns.u32(),
            protect: columns.u32(),
        })
    }

    /// Appends the 16 bytes that spell the fields.
    pub fn write(&self, out: &mut Packet)
        requires { length out.old + 16 ≤ 544 }
        ensures { out.new ≡ out.old ++ flash_info_say0 self.now.size self.now.write self.now.erase self.now.protect }
    {
        put_u32(out, self.size);
        put_u32(out, self.write);
        put_u32(out, self.erase);
        put_u32(out, self.protect);
    }
}

/// FLASH_INFO's reply of version 1, in bytes but for the flags.
#[derive(Clone, Copy, Debug, PartialEq, Eq)]
pub struct FlashInfoSay1 {
    /// The size of the flash.
    pub size: u32,
    /// The unit of a write.
    pub write: u32,
    /// The unit of an erase.
    pub erase: u32,
    /// The unit of protection.
    pub protect: u32,
    /// The size of a write that is done in one piece.
    pub ideal: u32,
    /// No bit is used.
    pub flags: u32,
}

impl FlashInfoSay1 {
    /// The fields that 24 bytes spell.
    pub fn from_bytes(bytes: &[u8]) -> Self
        requires { length bytes.now ≡ 24 }
        ensures spelled { bytes.now ≡
            flash_info_say1 result.size result.write result.erase result.protect result.ideal result.flags }
        ensures back { (size write erase protect ideal flags : ℕ) →
            size < 2 ^ 32 → write < 2 ^ 32 → erase < 2 ^ 32 → protect < 2 ^ 32 → ideal < 2 ^ 32 → flags < 2 ^ 32 →
            bytes.now ≡ flash_info_say1 size write erase protect ideal flags →
            result ≡ record {
              size = size;
              write = write;
              erase = erase;
              protect = protect;
              ideal = ideal;
              flags = flags;
            } }
    {
        let mut columns = Columns::new(bytes);
        FlashInfoSay1 {
            size: columns.u32(),
            write: columns.u32(),
            erase: columns.u32(),
            protect: columns.u32(),
            ideal: columns.u32(),
            flags: columns.u32(),
        }
    }

    /// The fields that the bytes spell; None exactly where they are not 24 bytes.
    pub fn read(bytes: &[u8]) -> Option<Self>
        ensures some { IsSome result ↔ (length bytes.now ≡ 24) }
        ensures spelled { IfSome result (λ say. bytes.now ≡
            flash_info_say1 say.size say.write say.erase say.protect say.ideal say.flags) }
        ensures back { (size write erase protect ideal flags : ℕ) →
            size < 2 ^ 32 → write < 2 ^ 32 → erase < 2 ^ 32 → protect < 2 ^ 32 → ideal < 2 ^ 32 → flags < 2 ^ 32 →
            bytes.now ≡ flash_info_say1 size write erase protect ideal flags →
            result ≡ Some (record {
              size = size;
              write = write;
              erase = erase;
              protect = protect;
              ideal = ideal;
              flags = flags;
            }) }
    {
        if bytes.len() == 24 {
            Some(FlashInfoSay1::from_bytes(bytes))
        } else {
            None
        }
    }

    /// Appends the 24 bytes that spell the fields.
    pub fn write(&self, out: &mut Packet)
        requires { length out.old + 24 ≤ 544 }
        ensures { out.new ≡ out.old ++
            flash_info_say1 self.now.size self.now.write self.now.erase self.now.protect self.now.ideal self.now.flags }
    {
        put_u32(out, self.size);
        put_u32(out, self.write);
        put_u32(out, self.erase);
        put_u32(out, self.protect);
        put_u32(out, self.ideal);
        put_u32(out, self.flags);
    }
}

/// FLASH_READ's request.
#[derive(Clone, Copy, Debug, PartialEq, Eq)]
pub struct FlashReadAsk {
    /// The first byte to read, from the flash's first byte.
    pub offset: u32,
    /// How many bytes are wanted.
    pub size: u32,
}

impl FlashReadAsk {
    /// The fields that the bytes spell; None exactly where they are not 8 bytes.
    pub fn read(bytes: &[u8]) -> Option<Self>
        ensures some { IsSome result ↔ (length bytes.now ≡ 8) }
        ensures spelled { IfSome result (λ ask. bytes.now ≡ flash_read_ask ask.offset ask.size) }
        ensures back { (offset size : ℕ) → offset < 2 ^ 32 → size < 2 ^ 32 → bytes.now ≡ flash_read_ask offset size →
            result ≡ Some (record { offset = offset; size = size }) }
    {
        let mut columns = Columns::of(bytes, 8)?;
        Some(FlashReadAsk {
            offset: columns.u32(),
            size: columns.u32(),
        })
    }

    /// Appends the 8 bytes that spell the fields.
    pub fn write(&self, out: &mut Packet)
        requires { length out.old + 8 ≤ 544 }
        ensures { out.new ≡ out.old ++ flash_read_ask self.now.offset self.now.size }
    {
        put_u32(out, self.offset);
        put_u32(out, self.size);
    }
}

/// FLASH_ERASE's request.
#[derive(Clone, Copy, Debug, PartialEq, Eq)]
pub struct FlashEraseAsk {
    /// The first byte to erase, from the flash's first byte.
    pub offset: u32,
    /// How many bytes are to be erased.
    pub size: u32,
}

impl FlashEraseAsk {
    /// The fields that the bytes spell; None exactly where they are not 8 bytes.
    pub fn read(bytes: &[u8]) -> Option<Self>
        ensures some { IsSome result ↔ (length bytes.now ≡ 8) }
        ensures spelled { IfSome result (λ ask. bytes.now ≡ flash_erase_ask ask.offset ask.size) }
        ensures back { (offset size : ℕ) → offset < 2 ^ 32 → size < 2 ^ 32 → bytes.now ≡ flash_erase_ask offset size →
            result ≡ Some (record { offset = offset; size = size }) }
    {
        let mut columns = Columns::of(bytes, 8)?;
        Some(FlashEraseAsk {
            offset: columns.u32(),
            size: columns.u32(),
        })
    }

    /// Appends the 8 bytes that spell the fields.
    pub fn write(&self, out: &mut Packet)
        requires { length out.old + 8 ≤ 544 }
        ensures { out.new ≡ out.old ++ flash_erase_ask self.now.offset self.now.size }
    {
        put_u32(out, self.offset);
        put_u32(out, self.size);
    }
}

/// FLASH_READ's reply.
#[derive(Drop)]
pub struct FlashReadSay {
    /// The bytes that were read, at most 536.
    pub bytes: Packet,
}

impl FlashReadSay {
    /// The bytes; None exactly where they are more than 536, the most that a packet has behind its header.
    pub fn read(bytes: &[u8]) -> Option<Self>
        ensures some { IsSome result ↔ (length bytes.now ≤ 536) }
        ensures spelled { IfSome result (λ say. bytes.now ≡ flash_read_say say.bytes) }
    {
        if bytes.len() > LARGEST_BODY {
            return None;
        }
        Some(FlashReadSay {
            bytes: Columns::new(bytes).rest(),
        })
    }

    /// Appends the bytes.
    pub fn write(&self, out: &mut Packet)
        requires fits { length out.old + length self.now.bytes ≤ 544 }
        requires short { length self.now.bytes ≤ 536 }
        ensures { out.new ≡ out.old ++ flash_read_say self.now.bytes }
    {
        let say = FlashReadSayRef {
            bytes: self.bytes.as_slice(),
        };
        say.write(out);
    }
}

/// FLASH_READ's reply, with its bytes where they were read.
#[derive(Clone, Copy)]
pub struct FlashReadSayRef<'a> {
    /// The bytes that were read.
    pub bytes: &'a [u8],
}

impl<'a> FlashReadSayRef<'a> {
    /// Appends the bytes.
    pub fn write(&self, out: &mut Packet)
        requires { length out.old + length self.now.bytes.now ≤ 544 }
        ensures { out.new ≡ out.old ++ flash_read_say self.now.bytes.now }
    {
        out.extend(self.bytes);
    }
}

/// FLASH_WRITE's request, of either version, with its bytes where they stand.
#[derive(Clone, Copy)]
pub struct FlashWriteAsk<'a> {
    /// Where the bytes go, from the flash's first byte.
    pub offset: u32,
    /// The bytes to write; the spelling has their number before them.
    pub bytes: &'a [u8],
}

impl<'a> FlashWriteAsk<'a> {
    /// The fields that the bytes spell; None exactly where there are more than 536, the most that a packet has behind
    /// its header, or not as many bytes follow as the second number says.
    pub fn read(bytes: &'a [u8]) -> Option<FlashWriteAsk<'a>>
        ensures some { IsSome result ↔ IsTrue (is_write_spelled bytes.now) }
        ensures spelled { IfSome result (λ ask. bytes.now ≡ flash_write_ask ask.offset ask.bytes.now) }
        ensures short { IfSome result (λ ask. 8 + length ask.bytes.now ≡ length bytes.now) }
        ensures back { (offset : ℕ) (written : List ℕ) → offset < 2 ^ 32 → length written ≤ 528 →
            bytes.now ≡ flash_write_ask offset written →
            IsSomeAnd result (λ ask. (ask.offset ≡ offset) × (ask.bytes.now ≡ written)) }
    {
        if bytes.len() < WRITE_HEAD || bytes.len() > LARGEST_BODY {
            return None;
        }
        let mut columns = Columns::new(bytes);
        let offset = columns.u32();
        let size = columns.u32();
        if bytes.len() != WRITE_HEAD + size as usize {
            return None;
        }
        Some(FlashWriteAsk {
            offset,
            bytes: columns.all(),
        })
    }

    /// Appends the spelling: the offset, the number of bytes, and the bytes.
    pub fn write(&self, out: &mut Packet)
        requires fits { length out.old + 8 + length self.now.bytes.now ≤ 544 }
        requires short { 8 + length self.now.bytes.now ≤ 536 }
        ensures { out.new ≡ out.old ++ flash_write_ask self.now.offset self.now.bytes.now }
    {
        put_u32(out, self.offset);
        put_u32(out, self.bytes.len() as u32);
        out.extend(self.bytes);
    }
}
