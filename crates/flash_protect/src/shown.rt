// What is shown of the protection.
ghost use Rattle.std.specs.Prelude.{◌≡◌, ◌≤◌, List, ℕ, if◌then◌else◌};
ghost use Rattle.ec_types.specs.LittleEndian.{bit_if, has_bit};
ghost use Rattle.ec_model.specs.Stored.{stored, same_bits};
ghost use Rattle.ec_model.specs.ProtectRow.{wanted, is_asked, protect_view};
ghost use Rattle.flash_protect.specs.Setting.{core_with};

use crate::Protect;
use ec_model::{AtBoot, ProtectView};
use ec_types::protection;

// The mask where the test is true.
fn bit(mask: u32, test: bool) -> u32
    ensures value { result ≡ bit_if mask test }
    ensures small { result ≤ mask }
{
    if test { mask } else { 0 }
}

// A bit of the flags where the mask has it, and else as it was.
fn wished(bit: u32, mask: u32, flags: u32, old: bool) -> bool
    ensures { result ≡ (if has_bit bit mask then has_bit bit flags else old) }
{
    if mask & bit != 0 {
        flags & bit != 0
    } else {
        old
    }
}

/// The bits that are wanted from the next boot on.
pub fn wanted(mask: u32, flags: u32, old: AtBoot) -> AtBoot
    ensures { result ≡ wanted mask flags old }
{
    AtBoot {
        ro: wished(protection::RO_AT_BOOT, mask, flags, old.ro),
        all: wished(protection::ALL_AT_BOOT, mask, flags, old.all),
    }
}

/// Whether two pairs of bits are the same.
pub fn same(first: AtBoot, second: AtBoot) -> bool
    ensures { result ≡ same_bits first second }
{
    first.ro == second.ro && first.all == second.all
}

/// Whether mask and flags both have a bit.
pub fn asked(bit: u32, mask: u32, flags: u32) -> bool
    ensures { result ≡ is_asked bit mask flags }
{
    mask & bit != 0 && flags & bit != 0
}

/// The reply of FLASH_PROTECT, where these bits are stored.
pub fn shown(protect: &Protect, pin: bool, bits: AtBoot) -> ProtectView
    ensures { (flash : List ℕ) → stored flash ≡ bits → result ≡ protect_view (core_with protect.now pin flash) }
{
    let can_lock = pin && bits.ro;
    ProtectView {
        flags: bit(protection::RO_AT_BOOT, bits.ro)
            + bit(protection::RO_NOW, protect.ro_now)
            + bit(protection::ALL_NOW, protect.all_now)
            + bit(protection::PIN_ASSERTED, pin)
            + bit(protection::ERROR_INCONSISTENT, protect.bad)
            + bit(protection::ALL_AT_BOOT, bits.all),
        valid: protection::VALID_BITS,
        writable: bit(protection::AT_BOOT_BITS, !protect.ro_now)
            + bit(protection::RO_NOW, can_lock && !protect.ro_now)
            + bit(protection::ALL_NOW, can_lock && !protect.all_now),
    }
}
