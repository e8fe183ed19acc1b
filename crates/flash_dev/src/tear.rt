// What a cut of power leaves, put there.
ghost use Rattle.std.specs.Prelude.{◌≤◌, ◌+◌, length};
ghost use Rattle.flash_dev.specs.Poking.{IsPoked};

use crate::{Failed, FlashDev};

/// A flash that bytes can be put into. A bench writes with it what a cut of power left, and only `CutFlash` calls it.
pub trait Tear: FlashDev {
    /// Makes the bytes from `at` on these. They may cross a block's end. It is no operation: nothing wears, and no armed
    /// cut comes nearer. At `Failed` their range holds any bytes.
    fn poke(&mut self, at: u32, bytes: &[u8]) -> Result<(), Failed>
        requires some { 1 ≤ length bytes.now }
        requires short { length bytes.now ≤ 4096 }
        requires inside { at + length bytes.now ≤ (Self.seen self.old).extent }
        ensures { IsPoked at bytes.now (Self.seen self.old) (Self.seen self.new) result };
}
