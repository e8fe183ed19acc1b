//! The protection of the flash: the bits that are stored, the locks that hold, and FLASH_PROTECT, which sets both.
//!
//! Below are the flash with its locks of `flash_ctl` and the definitions of `ec_model`; `ec_boot` boots it, and sets it for
//! `command_table`. The contract that matters is that of `Protect::set`: where the flash tells its bytes, they, the locks and
//! the reply are those of the definitions, with failed and cut operations inside; a lock is only added, and only with the pin
//! asserted; and a record that has its place is added whole.
#![tactic(auto)]

mod block;
mod protect;
mod shown;
mod stored;

pub use protect::Protect;
