// What a line asks of the controller.
use ec_types::ImageCopy;
use flash_dev::Region;
use script_words::HexBytes;

/// A line that sends commands to the controller, with its numbers, and its bytes where they stand in it.
#[derive(Drop)]
pub enum Tool<'a> {
    /// `hello`
    Hello,
    /// `version`
    Version,
    /// `chipinfo`
    ChipInfo,
    /// `cmdversions N`
    CmdVersions {
        /// A command's number.
        number: u16,
    },
    /// `protoinfo`
    ProtoInfo,
    /// `flashinfo`
    FlashInfo,
    /// `regioninfo R`
    RegionInfo {
        region: Region,
    },
    /// `flashread O N`
    FlashRead {
        /// The first byte to read, from the flash's first byte.
        at: u32,
        /// How many bytes are wanted, at most 4,096.
        size: u32,
    },
    /// `flashwrite O HEX`
    FlashWrite {
        /// Where the first byte goes, from the flash's first byte.
        at: u32,
        /// At least one byte, and at most 4,096.
        bytes: HexBytes<'a>,
    },
    /// `flasherase O N`
    FlashErase {
        /// The first byte to erase, from the flash's first byte.
        at: u32,
        /// How many bytes are to be erased.
        size: u32,
    },
    /// `flashprotect` in its five forms
    FlashProtect {
        /// Which bits are to change.
        mask: u32,
        /// What they are to be.
        flags: u32,
    },
    /// `echash`
    Hash,
    /// `echash abort`
    HashAbort,
    /// `echash start A` and `echash start A HEX`
    HashStart {
        /// The image whose bytes are to be hashed.
        copy: ImageCopy,
        /// What is hashed in front of it: at most 64 bytes.
        nonce: HexBytes<'a>,
    },
    /// `echash range O N`
    HashRange {
        /// The first byte to hash, from the flash's first byte.
        at: u32,
        /// How many bytes are to be hashed.
        size: u32,
    },
    /// `sysinfo`
    Sysinfo,
    /// `reboot_ec C`, but for `cold`
    Reboot {
        /// 0 nothing, 1 a jump to the read-only image, 2 one to the writable image, 5 no jumps from now on.
        cmd: u8,
    },
    /// `reboot_ec cold`
    RebootCold,
    /// `test R N HEX`
    Test {
        /// The status that is wanted.
        ec_result: u32,
        /// How many bytes are wanted back, at most 32.
        ret_len: u32,
        /// At least one byte, and at most 32.
        bytes: HexBytes<'a>,
    },
    /// `resend`
    Resend,
}
