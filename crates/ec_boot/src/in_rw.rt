// On, with the RW image running.
ghost use Rattle.std.specs.Prelude.{◌≡◌, ◌≤◌, length, None, option_map};
ghost use Rattle.ec_types.specs.declared.image.ImageCopy.TheVariants.{Ro, Rw};
ghost use Rattle.ec_model.specs.Boot.{booted, fresh_live};
ghost use Rattle.flash_protect.specs.Setting.{IsLookedAt};
ghost use Rattle.flash_dev.specs.Told.{Changes};
ghost use Rattle.flash_dev.specs.Cuts.{cut_at};
ghost use Rattle.ec_boot.specs.States.{told_core, Follows, IsLiveValid};
ghost use Rattle.ec_boot.specs.Jumping.{IsJumped, KeepsGuarded};
ghost use Rattle.ec_boot.specs.Guarding.{KeepsGuard, LowersGuard};

use crate::on::On;
use crate::{InRo, JumpNo, Off, Running};
use ec_model::{Live, ProtectView};
use ec_types::{ImageCopy, ResetCause};
use flash_ctl::CtlErr;
use flash_dev::{CutFlash, DevErr, Failed, FlashDev, Geometry, Tear};
use std::marker::Model;

/// A controller that is on and runs its RW image.
pub struct InRw<F: FlashDev> {
    on: On<F>,
}

impl<F: FlashDev> Model for InRw<F> {
    ghost use Rattle.std.specs.Prelude.{◌≡◌};
    ghost use Rattle.ec_types.specs.declared.image.ImageCopy.TheVariants.{Rw};
    ghost use Rattle.ec_boot.specs.States.{RunView};

    ghost Value = { RunView };

    ghost view = { λ image. image.on };

    ghost invariant = { λ image. image.on.live.copy ≡ Rw };
}

impl<F: FlashDev> InRw<F> {
    // A controller that runs RW.
    pub(crate) fn of(on: On<F>) -> InRw<F>
        requires { on.live.copy ≡ Rw }
        ensures { result ≡ on }
    {
        InRw { on }
    }

    /// A reset: the controller boots RO again, and keeps its pin alone.
    pub fn reset(self, cause: ResetCause) -> InRo<F>
        ensures guard { Changes KeepsGuard (told_core self) (told_core result) }
        ensures looked { IsLookedAt result.live.pstate_bad self.device result.device }
        ensures booted { told_core result ≡ option_map (λ flash. booted flash self.pin cause result.live.pstate_bad) self.device.held }
        // Of every flash: RO runs, all of RW begins to be hashed, no erase is pending, and 9 is saved.
        ensures live { result.live ≡ fresh_live self.device.extent cause result.live.ro_now result.live.all_now result.live.pstate_bad }
        ensures pin { result.pin ≡ self.pin }
    {
        let InRw { on } = self;
        InRo::of(on.reset(cause))
    }

    /// Power is gone: only the flash is left.
    pub fn cut(self) -> Off<F>
        ensures device { result.device ≡ self.device }
        ensures guard { Follows LowersGuard (told_core self) result.device.held }
    {
        let InRw { on } = self;
        on.cut()
    }

    /// A jump to the RO image. It may be denied, meet a vector outside the image's region, or fail to read the flash;
    /// then the controller is handed back as it was.
    pub fn jump_back(self) -> Result<InRo<F>, (InRw<F>, JumpNo)>
        requires { self.live.erase ≡ None }
        ensures jumped { IsJumped Ro self result }
        ensures guard { KeepsGuarded self result }
    {
        let InRw { on } = self;
        match on.jump(ImageCopy::Ro) {
            Ok(on) => Ok(InRo::of(on)),
            Err((on, no)) => Err((InRw { on }, no)),
        }
    }
}

impl<F: Tear> InRw<CutFlash<F>> {
    /// Arms a cut of power in place of the one that was armed: the operation `n` of the flash from now on loses power, and
    /// its first bytes become `torn`. At 0 none is armed. Nothing else changes.
    pub fn arm_cut(&mut self, n: u32, torn: &[u8])
        requires { length torn.now ≤ 4096 }
        ensures { self.new ≡ record self.old { device = record self.old.device { armed = cut_at n torn.now } } }
    {
        self.on.arm_cut(n, torn);
    }
}

impl<F: FlashDev> Running for InRw<F> {
    ghost run = { λ on. on };

    fn live(&self) -> Live
        ensures live { result ≡ self.now.live }
        ensures valid { IsLiveValid self.now }
        ensures copy { self.now.live.copy ≡ Rw }
    {
        self.on.live()
    }

    fn pin(&self) -> bool {
        self.on.pin()
    }

    fn set_pin(&mut self, on: bool) {
        self.on.set_pin(on);
    }

    fn geometry(&self) -> Geometry {
        self.on.geometry()
    }

    fn read(&mut self, at: u32, out: &mut [u8]) -> Result<(), Failed> {
        self.on.read(at, out)
    }

    fn program(&mut self, at: u32, bytes: &[u8]) -> Result<(), CtlErr> {
        self.on.program(at, bytes)
    }

    fn erase_block(&mut self, block: u32) -> Result<(), CtlErr> {
        self.on.erase_block(block)
    }

    fn protect(&mut self, mask: u32, flags: u32) -> Result<ProtectView, DevErr> {
        self.on.protect(mask, flags)
    }

    fn start_erase(&mut self, first: u32, count: u32) {
        self.on.start_erase(first, count);
    }

    fn take_saved(&mut self) -> u16 {
        self.on.take_saved()
    }

    fn hash_start(&mut self, at: u32, size: u32, nonce: &[u8]) {
        self.on.hash_start(at, size, nonce);
    }

    fn hash_abort(&mut self) {
        self.on.hash_abort();
    }

    fn disable_jump(&mut self) {
        self.on.disable_jump();
    }

    fn tick(&mut self) -> Result<(), DevErr> {
        self.on.tick()
    }
}
