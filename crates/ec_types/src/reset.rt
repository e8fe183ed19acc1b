// What resets the controller.
ghost use Rattle.std.specs.Prelude.{◌≡◌};
ghost use Rattle.ec_types.specs.Tables.{cause_flags};

/// The reset pin. EC_RESET_FLAG_RESET_PIN
pub const RESET_PIN: u32 = 0x02;
/// Power came on. EC_RESET_FLAG_POWER_ON
pub const POWER_ON: u32 = 0x08;
/// The watchdog. EC_RESET_FLAG_WATCHDOG
pub const WATCHDOG: u32 = 0x10;
/// A jump from one image to the other. EC_RESET_FLAG_SYSJUMP
pub const SYSTEM_JUMP: u32 = 0x400;
/// A reset that was asked for. EC_RESET_FLAG_HARD
pub const HARD: u32 = 0x800;

/// What reset the controller.
#[derive(Clone, Copy, Debug, PartialEq, Eq)]
pub enum ResetCause {
    PowerOn,
    Pin,
    Watchdog,
    /// The command REBOOT_EC with COLD.
    Cold,
}

/// The reset flags that a cause sets, as SYSINFO shows them.
pub fn flags_of(cause: ResetCause) -> u32
    ensures { result ≡ cause_flags cause }
{
    match cause {
        ResetCause::PowerOn => POWER_ON,
        ResetCause::Pin => RESET_PIN,
        ResetCause::Watchdog => WATCHDOG,
        ResetCause::Cold => HARD,
    }
}
