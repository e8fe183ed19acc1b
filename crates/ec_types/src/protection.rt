// The bits of the flash's write protection, as FLASH_PROTECT carries them.

/// RO is protected from the next boot on. EC_FLASH_PROTECT_RO_AT_BOOT
pub const RO_AT_BOOT: u32 = 0x01;
/// RO is protected now. EC_FLASH_PROTECT_RO_NOW
pub const RO_NOW: u32 = 0x02;
/// The whole flash is protected now. EC_FLASH_PROTECT_ALL_NOW
pub const ALL_NOW: u32 = 0x04;
/// The write-protect pin is on. EC_FLASH_PROTECT_GPIO_ASSERTED
pub const PIN_ASSERTED: u32 = 0x08;
/// What is protected now is not what was stored. EC_FLASH_PROTECT_ERROR_INCONSISTENT
pub const ERROR_INCONSISTENT: u32 = 0x20;
/// The whole flash is protected from the next boot on. EC_FLASH_PROTECT_ALL_AT_BOOT
pub const ALL_AT_BOOT: u32 = 0x40;

/// The bits that are stored, and can be changed at any time while RO is not protected.
pub const AT_BOOT_BITS: u32 = RO_AT_BOOT | ALL_AT_BOOT;
/// The bits that have a meaning.
pub const VALID_BITS: u32 = AT_BOOT_BITS | RO_NOW | ALL_NOW | PIN_ASSERTED | ERROR_INCONSISTENT;
