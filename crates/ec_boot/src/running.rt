// What a controller that is on can be asked and told, whichever image runs.
ghost use Rattle.std.specs.Prelude.{◌≡◌, ◌≤◌, ◌+◌, ◌*◌, ◌%◌, [], true, length, Some, None, IfSome, IsTrue};
ghost use Rattle.flash_dev.specs.Flash.{block_size};
ghost use Rattle.flash_dev.specs.Operations.{Program, Erase};
ghost use Rattle.flash_dev.specs.Device.{IsRead};
ghost use Rattle.ec_model.specs.Ranges.{is_flash_size};
ghost use Rattle.ec_model.specs.declared.live.HashView.TheVariants.{Idle, Busy};
ghost use Rattle.ec_model.specs.Table.{IsErasable, ticks_of};
ghost use Rattle.ec_model.specs.Work.{idle_work};
ghost use Rattle.flash_dev.specs.Told.{Changes};
ghost use Rattle.flash_dev.specs.Costs.{Costs, hurt_of};
ghost use Rattle.flash_dev.specs.Counts.{RisesAtMost};
ghost use Rattle.ec_boot.specs.States.{RunView, told_core, IsLiveValid, IsOperated};
ghost use Rattle.ec_boot.specs.Ran.{IsProtected, KeepsLive};
ghost use Rattle.ec_boot.specs.Ticked.{IsTicked, LeavesTicked};
ghost use Rattle.ec_boot.specs.Guarding.{KeepsGuard};

use ec_model::{Live, ProtectView};
use flash_ctl::CtlErr;
use flash_dev::{DevErr, Failed, Geometry};

/// The calls of a controller that is on. None but one that takes the pin away leaves guarded RO unguarded or changes a byte
/// of it, whatever fails or is torn inside.
pub trait Running {
    /// What contracts see of the controller.
    ghost run: { Self → RunView };

    /// What lasts until the next reset.
    fn live(&self) -> Live
        ensures live { result ≡ (run self.now).live }
        ensures valid { IsLiveValid (run self.now) };

    /// Whether the write-protect pin is asserted.
    fn pin(&self) -> bool
        ensures { result ≡ (run self.now).pin };

    /// The pin changes. Nothing else does.
    fn set_pin(&mut self, on: bool)
        ensures pin { run self.new ≡ record (run self.old) { pin = on } }
        ensures guard { IsTrue on → Changes KeepsGuard (told_core (run self.old)) (told_core (run self.new)) };

    /// The size of the flash.
    fn geometry(&self) -> Geometry
        ensures size { result ≡ (run self.now).device.extent }
        ensures allowed { IsTrue (is_flash_size result) }
        ensures whole { IfSome (run self.now).device.held (λ bytes. length bytes ≡ (run self.now).device.extent) };

    /// Reads the flash from a place on. A read that fails leaves all as it was, but for the device's counts.
    fn read(&mut self, at: u32, out: &mut [u8]) -> Result<(), Failed>
        requires { at + length out.old ≤ (run self.old).device.extent }
        ensures read { IsRead at out.old out.new (run self.old).device (run self.new).device result }
        ensures rest { run self.new ≡ record (run self.old) { device = (run self.new).device } }
        ensures guard { Changes KeepsGuard (told_core (run self.old)) (told_core (run self.new)) };

    /// Programs at most 64 bytes. A range with a locked block is refused, and then the device is not called; where it
    /// is called, a hash over the range is dropped, also if the call fails or power is lost.
    fn program(&mut self, at: u32, bytes: &[u8]) -> Result<(), CtlErr>
        requires aligned { at % 4 ≡ 0 }
        requires whole { length bytes.now % 4 ≡ 0 }
        requires some { 4 ≤ length bytes.now }
        requires short { length bytes.now ≤ 64 }
        requires inside { at + length bytes.now ≤ (run self.old).device.extent }
        ensures change { IsOperated (Program at bytes.now) (run self.old) (run self.new) result }
        ensures copy { (run self.new).live.copy ≡ (run self.old).live.copy }
        ensures guard { Changes KeepsGuard (told_core (run self.old)) (told_core (run self.new)) };

    /// Makes each byte of a block 0xFF. A locked block is refused, and then the device is not called; where it is called,
    /// a hash over the block is dropped, also if the call fails or power is lost.
    fn erase_block(&mut self, block: u32) -> Result<(), CtlErr>
        requires { block * block_size + block_size ≤ (run self.old).device.extent }
        ensures change { IsOperated (Erase block) (run self.old) (run self.new) result }
        ensures copy { (run self.new).live.copy ≡ (run self.old).live.copy }
        ensures guard { Changes KeepsGuard (told_core (run self.old)) (told_core (run self.new)) };

    /// FLASH_PROTECT: the stored bits are changed, where others are wanted and RO is not locked, and then the locks that
    /// are asked for are set, if the pin is asserted and RO is locked from the next boot on. A hash over the range of its
    /// operations is dropped.
    fn protect(&mut self, mask: u32, flags: u32) -> Result<ProtectView, DevErr>
        requires { (run self.old).live.erase ≡ None }
        ensures told { Changes (λ before after. IsProtected mask flags (run self.old).device (run self.new).device
            before after result) (told_core (run self.old)) (told_core (run self.new)) }
        // Of every flash: locks are only set, and a mask of 0 changes nothing.
        ensures live { KeepsLive (run self.old) (run self.new) }
        ensures idle { mask ≡ 0 → run self.new ≡ record (run self.old) { device = (run self.new).device } }
        ensures pin { (run self.new).pin ≡ (run self.old).pin }
        ensures spent { Costs (hurt_of result) 1024 (run self.old).device (run self.new).device }
        ensures wear { RisesAtMost 4 (run self.old).device.wear (run self.new).device.wear }
        ensures guard { Changes KeepsGuard (told_core (run self.old)) (told_core (run self.new)) };

    /// An erase of some blocks in a row begins, from the block `first` on: each tick that serves no request erases the next
    /// one. No status is saved any more.
    fn start_erase(&mut self, first: u32, count: u32)
        requires idle { (run self.old).live.erase ≡ None }
        requires erasable { IsErasable (run self.old).device.extent (run self.old).live (Some (record { next = first; left = count })) }
        ensures started { run self.new ≡ record (run self.old) {
          live = record (run self.old).live { erase = Some (record { next = first; left = count }); saved = 9 };
        } }
        ensures guard { Changes KeepsGuard (told_core (run self.old)) (told_core (run self.new)) };

    /// The status that is saved. It is given once: 9 is saved from then on, which says that there is none.
    fn take_saved(&mut self) -> u16
        ensures saved { result ≡ (run self.old).live.saved }
        ensures taken { run self.new ≡ record (run self.old) { live = record (run self.old).live { saved = 9 } } }
        ensures guard { Changes KeepsGuard (told_core (run self.old)) (told_core (run self.new)) };

    /// A hash of a range of the flash begins, with a nonce in front, in place of any other.
    fn hash_start(&mut self, at: u32, size: u32, nonce: &[u8])
        requires some { 1 ≤ size }
        requires inside { at + size ≤ (run self.old).device.extent }
        requires short { length nonce.now ≤ 64 }
        ensures started { run self.new ≡ record (run self.old) {
          live = record (run self.old).live { hash = Busy at size (ticks_of size) };
          nonce = nonce.now;
        } }
        ensures guard { Changes KeepsGuard (told_core (run self.old)) (told_core (run self.new)) };

    /// Any hash is dropped.
    fn hash_abort(&mut self)
        ensures aborted { run self.new ≡ record (run self.old) { live = record (run self.old).live { hash = Idle }; nonce = [] } }
        ensures guard { Changes KeepsGuard (told_core (run self.old)) (told_core (run self.new)) };

    /// Jumps are disabled until the next reset: a controller that is locked lets none pass.
    fn disable_jump(&mut self)
        ensures disabled { run self.new ≡ record (run self.old) { live = record (run self.old).live { jump_off = true } } }
        ensures guard { Changes KeepsGuard (told_core (run self.old)) (told_core (run self.new)) };

    /// A tick that serves no request: the next block of a pending erase, or the next 1,024 bytes of a busy hash, or nothing.
    /// An erase ends with its last block, and 0 is saved; or with one that failed or was cut, and then 2 is saved. A hash
    /// over the block is dropped. The last tick of a hash shows its digest; where a read fails, the hash is dropped.
    fn tick(&mut self) -> Result<(), DevErr>
        ensures told { Changes (λ before after. IsTicked (idle_work before.live.erase before.live.hash)
            (run self.old).device (run self.new).device before after result)
            (told_core (run self.old)) (told_core (run self.new)) }
        ensures rest { LeavesTicked (idle_work (run self.old).live.erase (run self.old).live.hash) (run self.old) (run self.new) result }
        ensures copy { (run self.new).live.copy ≡ (run self.old).live.copy }
        ensures pin { (run self.new).pin ≡ (run self.old).pin }
        ensures spent { Costs (hurt_of result) 1024 (run self.old).device (run self.new).device }
        ensures wear { RisesAtMost 1 (run self.old).device.wear (run self.new).device.wear }
        ensures guard { Changes KeepsGuard (told_core (run self.old)) (told_core (run self.new)) };
}
