// A reset of the controller, or a jump to its other image.
ghost use Rattle.std.specs.Prelude.{◌≡◌, ◌≤◌, ◌+◌, ◌++◌, ◌↔◌, ℕ, length, Some, IsSome, IfSome};
ghost use Rattle.ec_model.specs.Bodies.{reboot_ask};

use crate::columns::Columns;
use ec_packet::Packet;

/// REBOOT_EC's request.
#[derive(Clone, Copy, Debug, PartialEq, Eq)]
pub struct RebootAsk {
    /// `CANCEL`, `JUMP_RO`, `JUMP_RW`, `COLD` or `DISABLE_JUMP`.
    pub cmd: u8,
    /// Always 0.
    pub flags: u8,
}

impl RebootAsk {
    /// Nothing is done. EC_REBOOT_CANCEL
    pub const CANCEL: u8 = 0;
    /// A jump to the RO image. EC_REBOOT_JUMP_RO
    pub const JUMP_RO: u8 = 1;
    /// A jump to the RW image. EC_REBOOT_JUMP_RW
    pub const JUMP_RW: u8 = 2;
    /// A reset. EC_REBOOT_COLD
    pub const COLD: u8 = 4;
    /// No jumps until the next reset. EC_REBOOT_DISABLE_JUMP
    pub const DISABLE_JUMP: u8 = 5;

    /// The fields that the bytes spell; None exactly where they are not 2 bytes.
    pub fn read(bytes: &[u8]) -> Option<Self>
        ensures some { IsSome result ↔ (length bytes.now ≡ 2) }
        ensures spelled { IfSome result (λ ask. bytes.now ≡ reboot_ask ask.cmd ask.flags) }
        ensures back { (cmd flags : ℕ) → bytes.now ≡ reboot_ask cmd flags →
            result ≡ Some (record { cmd = cmd; flags = flags }) }
    {
        let mut columns = Columns::of(bytes, 2)?;
        Some(RebootAsk {
            cmd: columns.u8(),
            flags: columns.u8(),
        })
    }

    /// Appends the 2 bytes that spell the fields.
    pub fn write(&self, out: &mut Packet)
        requires { length out.old + 2 ≤ 544 }
        ensures { out.new ≡ out.old ++ reboot_ask self.now.cmd self.now.flags }
    {
        out.extend(&[self.cmd, self.flags]);
    }
}
