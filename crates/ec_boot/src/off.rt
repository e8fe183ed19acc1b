// Off: only the flash is left.
ghost use Rattle.std.specs.Prelude.{◌≡◌, ◌≤◌, length, option_map};
ghost use Rattle.flash_dev.specs.Cuts.{cut_at};
ghost use Rattle.ec_types.specs.declared.reset.ResetCause.TheVariants.{PowerOn};
ghost use Rattle.ec_model.specs.Boot.{booted, fresh_live};
ghost use Rattle.flash_protect.specs.Setting.{IsLookedAt};
ghost use Rattle.ec_boot.specs.States.{told_core, Follows};
ghost use Rattle.ec_boot.specs.Guarding.{RaisesGuard};

use crate::InRo;
use ec_types::ResetCause;
use flash_ctl::Ctl;
use flash_dev::{CutFlash, FlashDev, Geometry, Tear};
use std::marker::Model;

/// A controller without power. It holds its flash and nothing of the live state.
pub struct Off<F: FlashDev> {
    flash: F,
    geometry: Geometry,
}

impl<F: FlashDev> Model for Off<F> {
    ghost use Rattle.flash_ctl.specs.Locks.{HasGeometry};
    ghost use Rattle.ec_boot.specs.States.{OffView};

    ghost Value = { OffView };

    ghost view = { λ off. record { device = F.seen off.flash } };

    ghost invariant = { λ off. HasGeometry off.geometry (F.seen off.flash) };
}

impl<F: FlashDev> Off<F> {
    /// A controller that was never on, with a flash of this size.
    pub fn new(flash: F, geometry: Geometry) -> Off<F>
        requires { geometry ≡ (F.seen flash).extent }
        ensures { result.device ≡ F.seen flash }
    {
        // A geometry is one of the sizes that a flash may have.
        let _size = geometry.size();
        Off { flash, geometry }
    }

    /// Power comes: the controller boots RO, with the pin as given.
    pub fn power_on(self, pin: bool) -> InRo<F>
        ensures guard { Follows (RaisesGuard pin) self.device.held (told_core result) }
        ensures looked { IsLookedAt result.live.pstate_bad self.device result.device }
        ensures booted { told_core result ≡ option_map (λ flash. booted flash pin PowerOn result.live.pstate_bad) self.device.held }
        // Of every flash: RO runs, all of RW begins to be hashed, no erase is pending, and 9 is saved.
        ensures live { result.live ≡ fresh_live self.device.extent PowerOn result.live.ro_now result.live.all_now result.live.pstate_bad }
        ensures pin { result.pin ≡ pin }
    {
        let Off { flash, geometry } = self;
        InRo::boot(Ctl::new(flash, geometry), pin, ResetCause::PowerOn)
    }

    /// The flash, as it is.
    pub fn into_flash(self) -> F
        ensures { F.seen result ≡ self.device }
    {
        let Off { flash, geometry: _ } = self;
        flash
    }
}

impl<F: Tear> Off<CutFlash<F>> {
    /// Arms a cut of power in place of the one that was armed: the operation `n` of the flash from now on loses power, and
    /// its first bytes become `torn`. At 0 none is armed. Nothing else changes.
    pub fn arm_cut(&mut self, n: u32, torn: &[u8])
        requires { length torn.now ≤ 4096 }
        ensures { self.new.device ≡ record self.old.device { armed = cut_at n torn.now } }
    {
        self.flash.arm(n, torn);
    }
}
