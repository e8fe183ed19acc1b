// On, whichever image runs.
ghost use Rattle.std.specs.Prelude.{◌≡◌, ◌≤◌, length, option_map};
ghost use Rattle.ec_model.specs.Boot.{booted, fresh_live};
ghost use Rattle.flash_protect.specs.Setting.{IsLookedAt};
ghost use Rattle.flash_dev.specs.Told.{Changes};
ghost use Rattle.flash_dev.specs.Cuts.{cut_at};
ghost use Rattle.ec_boot.specs.States.{told_core, Follows};
ghost use Rattle.ec_boot.specs.Either.{run_of};
ghost use Rattle.ec_boot.specs.Guarding.{KeepsGuard, LowersGuard};

use crate::{InRo, InRw, Off, Running};
use ec_model::{Live, ProtectView};
use ec_types::ResetCause;
use flash_ctl::CtlErr;
use flash_dev::{CutFlash, DevErr, Failed, FlashDev, Geometry, Tear};

/// A controller that is on, by the image that runs.
pub enum Awake<F: FlashDev> {
    Ro(InRo<F>),
    Rw(InRw<F>),
}

impl<F: FlashDev> Awake<F> {
    /// A reset: the controller boots RO again, and keeps its pin alone.
    pub fn reset(self, cause: ResetCause) -> InRo<F>
        ensures guard { Changes KeepsGuard (told_core (run_of self)) (told_core result) }
        ensures looked { IsLookedAt result.live.pstate_bad (run_of self).device result.device }
        ensures booted { told_core result ≡ option_map (λ flash. booted flash (run_of self).pin cause result.live.pstate_bad) (run_of self).device.held }
        ensures live { result.live ≡ fresh_live (run_of self).device.extent cause result.live.ro_now result.live.all_now result.live.pstate_bad }
        ensures pin { result.pin ≡ (run_of self).pin }
    {
        match self {
            Awake::Ro(on) => on.reset(cause),
            Awake::Rw(on) => on.reset(cause),
        }
    }

    /// Power is gone: only the flash is left.
    pub fn cut(self) -> Off<F>
        ensures device { result.device ≡ (run_of self).device }
        ensures guard { Follows LowersGuard (told_core (run_of self)) result.device.held }
    {
        match self {
            Awake::Ro(on) => on.cut(),
            Awake::Rw(on) => on.cut(),
        }
    }
}

impl<F: Tear> Awake<CutFlash<F>> {
    /// Arms a cut of power in place of the one that was armed: the operation `n` of the flash from now on loses power, and
    /// its first bytes become `torn`. At 0 none is armed. Nothing else changes.
    pub fn arm_cut(&mut self, n: u32, torn: &[u8])
        requires { length torn.now ≤ 4096 }
        ensures { run_of self.new ≡ record (run_of self.old) { device = record (run_of self.old).device { armed = cut_at n torn.now } } }
    {
        match self {
            Awake::Ro(on) => on.arm_cut(n, torn),
            Awake::Rw(on) => on.arm_cut(n, torn),
        }
    }
}

impl<F: FlashDev> Running for Awake<F> {
    ghost run = { λ awake. run_of awake };

    fn live(&self) -> Live {
        match self {
            Awake::Ro(on) => on.live(),
            Awake::Rw(on) => on.live(),
        }
    }

    fn pin(&self) -> bool {
        match self {
            Awake::Ro(on) => on.pin(),
            Awake::Rw(on) => on.pin(),
        }
    }

    fn set_pin(&mut self, level: bool) {
        match self {
            Awake::Ro(on) => on.set_pin(level),
            Awake::Rw(on) => on.set_pin(level),
        }
    }

    fn geometry(&self) -> Geometry {
        match self {
            Awake::Ro(on) => on.geometry(),
            Awake::Rw(on) => on.geometry(),
        }
    }

    fn read(&mut self, at: u32, out: &mut [u8]) -> Result<(), Failed> {
        match self {
            Awake::Ro(on) => on.read(at, out),
            Awake::Rw(on) => on.read(at, out),
        }
    }

    fn program(&mut self, at: u32, bytes: &[u8]) -> Result<(), CtlErr> {
        match self {
            Awake::Ro(on) => on.program(at, bytes),
            Awake::Rw(on) => on.program(at, bytes),
        }
    }

    fn erase_block(&mut self, block: u32) -> Result<(), CtlErr> {
        match self {
            Awake::Ro(on) => on.erase_block(block),
            Awake::Rw(on) => on.erase_block(block),
        }
    }

    fn protect(&mut self, mask: u32, flags: u32) -> Result<ProtectView, DevErr> {
        match self {
            Awake::Ro(on) => on.protect(mask, flags),
            Awake::Rw(on) => on.protect(mask, flags),
        }
    }

    fn start_erase(&mut self, first: u32, count: u32) {
        match self {
            Awake::Ro(on) => on.start_erase(first, count),
            Awake::Rw(on) => on.start_erase(first, count),
        }
    }

    fn take_saved(&mut self) -> u16 {
        match self {
            Awake::Ro(on) => on.take_saved(),
            Awake::Rw(on) => on.take_saved(),
        }
    }

    fn hash_start(&mut self, at: u32, size: u32, nonce: &[u8]) {
        match self {
            Awake::Ro(on) => on.hash_start(at, size, nonce),
            Awake::Rw(on) => on.hash_start(at, size, nonce),
        }
    }

    fn hash_abort(&mut self) {
        match self {
            Awake::Ro(on) => on.hash_abort(),
            Awake::Rw(on) => on.hash_abort(),
        }
    }

    fn disable_jump(&mut self) {
        match self {
            Awake::Ro(on) => on.disable_jump(),
            Awake::Rw(on) => on.disable_jump(),
        }
    }

    fn tick(&mut self) -> Result<(), DevErr> {
        match self {
            Awake::Ro(on) => on.tick(),
            Awake::Rw(on) => on.tick(),
        }
    }
}
