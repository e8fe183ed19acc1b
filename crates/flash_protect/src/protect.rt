// The protection of a controller that is on.
ghost use Rattle.std.specs.Prelude.{◌≡◌, ◌||◌, ◌/◌, ◌-◌, false, true, List, ℕ, is_err, length, IfOk, IfSome, IsNone, IsTrue};
ghost use Rattle.flash_dev.specs.Told.{Changes};
ghost use Rattle.flash_ctl.specs.Locks.{no_locks};
ghost use Rattle.ec_model.specs.Boot.{boots_ro_locked, boots_all_locked};
ghost use Rattle.ec_model.specs.Stored.{stored};
ghost use Rattle.ec_model.specs.ProtectRow.{protect_operations, protect_view, locks_set};
ghost use Rattle.flash_dev.specs.Costs.{Costs, hurt_of};
ghost use Rattle.flash_dev.specs.Counts.{RisesAtMost};
ghost use Rattle.flash_protect.specs.Locking.{Locks, GrowsTo};
ghost use Rattle.flash_protect.specs.Setting.{IsLookedAt, IsPlaceIn, IsRangeIn, Sets, record_place, core_with};
ghost use Rattle.ec_model.specs.Appending.{AddsRecord};

use crate::shown::{asked, same, shown, wanted};
use crate::stored::{Found, begun_range, find, store};
use ec_model::{AtBoot, ProtectView};
use ec_types::protection;
use flash_ctl::Ctl;
use flash_dev::{BLOCK_SIZE, DevErr, Failed, FlashDev};

/// The locks that hold until the next boot: RO's, and all; and whether the last boot could not read the stored bits.
#[derive(Clone, Copy, Debug, PartialEq, Eq)]
pub struct Protect {
    pub ro_now: bool,
    pub all_now: bool,
    pub bad: bool,
}

impl Protect {
    // Locks RO, or all blocks, besides those that are locked.
    fn grow<F: FlashDev>(&mut self, ctl: &mut Ctl<F>, ro: bool, all: bool)
        requires { Locks self.old ctl.old }
        ensures protect { self.new ≡ record { ro_now = self.old.ro_now || ro || all; all_now = self.old.all_now || all; bad = self.old.bad } }
        ensures device { ctl.new.device ≡ ctl.old.device }
        ensures locks { Locks self.new ctl.new }
    {
        let size = ctl.geometry().size();
        self.ro_now = self.ro_now || ro || all;
        self.all_now = self.all_now || all;
        if self.all_now {
            ctl.lock(0, size / BLOCK_SIZE);
        } else if self.ro_now {
            ctl.lock(0, size / 2 / BLOCK_SIZE);
        }
    }

    /// The protection behind a boot: the stored bits are read once, and the blocks are locked that they say. Where they
    /// cannot be read, RO is locked if the pin is asserted.
    pub fn boot<F: FlashDev>(ctl: &mut Ctl<F>, pin: bool) -> Protect
        requires { ctl.old.locks ≡ no_locks }
        ensures looked { IsLookedAt result.bad ctl.old.device ctl.new.device }
        ensures ro_now { IfSome ctl.old.device.held (λ flash. result.ro_now ≡ boots_ro_locked flash pin result.bad) }
        ensures all_now { IfSome ctl.old.device.held (λ flash. result.all_now ≡ boots_all_locked flash pin result.bad) }
        ensures unread { IsTrue result.bad → result ≡ record { ro_now = pin; all_now = false; bad = true } }
        ensures unpinned { IsTrue result.ro_now → IsTrue pin }
        ensures locks { Locks result ctl.new }
    {
        let read = find(ctl);
        let mut protect = Protect {
            ro_now: false,
            all_now: false,
            bad: read.is_err(),
        };
        let (ro, all) = match read {
            Ok(Found { bits, place: _ }) => (pin && bits.ro, pin && bits.ro && bits.all),
            Err(Failed) => (pin, false),
        };
        protect.grow(ctl, ro, all);
        protect
    }

    /// The reply of FLASH_PROTECT, where nothing is asked.
    pub fn get<F: FlashDev>(&self, ctl: &mut Ctl<F>, pin: bool) -> Result<ProtectView, Failed>
        ensures looked { IsLookedAt (is_err result) ctl.old.device ctl.new.device }
        ensures locks { ctl.new.locks ≡ ctl.old.locks }
        ensures view { IfOk result (λ view. IfSome ctl.old.device.held (λ flash. view ≡ protect_view (core_with self.now pin flash))) }
    {
        match find(ctl) {
            Ok(found) => Ok(shown(self, pin, found.bits)),
            Err(error) => Err(error),
        }
    }

    // Sets the locks that are asked for, where these bits are stored, and shows what is so.
    fn finish<F: FlashDev>(
        &mut self,
        ctl: &mut Ctl<F>,
        pin: bool,
        bits: AtBoot,
        mask: u32,
        flags: u32,
    ) -> ProtectView
        requires { Locks self.old ctl.old }
        ensures done { (flash : List ℕ) → stored flash ≡ bits → core_with self.new pin flash ≡ locks_set mask flags (core_with self.old pin flash) }
        ensures shown { (flash : List ℕ) → stored flash ≡ bits → result ≡ protect_view (core_with self.new pin flash) }
        ensures grows { GrowsTo pin self.old self.new }
        ensures idle { mask ≡ 0 → self.new ≡ self.old }
        ensures device { ctl.new.device ≡ ctl.old.device }
        ensures locks { Locks self.new ctl.new }
    {
        if pin && bits.ro {
            self.grow(
                ctl,
                asked(protection::RO_NOW, mask, flags),
                asked(protection::ALL_NOW, mask, flags),
            );
        }
        shown(self, pin, bits)
    }

    // FLASH_PROTECT, once the stored bits were read.
    fn set_from<F: FlashDev>(
        &mut self,
        ctl: &mut Ctl<F>,
        pin: bool,
        found: Found,
        mask: u32,
        flags: u32,
    ) -> (Option<(u32, u32)>, Result<ProtectView, DevErr>)
        requires locks { Locks self.old ctl.old }
        requires bits { IfSome ctl.old.device.held (λ flash. stored flash ≡ found.bits) }
        requires place { IfSome ctl.old.device.held (λ flash. record_place flash ≡ found.place) }
        requires inside { IsPlaceIn (ctl.old.device.extent / 2 - 4096) found.place }
        ensures told { Changes (λ before after. Sets mask flags pin ctl.old.device ctl.new.device
            self.old before self.new after result.0 result.1) ctl.old.device.held ctl.new.device.held }
        ensures grows { GrowsTo pin self.old self.new }
        // A mask of 0 changes nothing.
        ensures idle { mask ≡ 0 → (self.new ≡ self.old) × IsNone result.0 }
        ensures locks { Locks self.new ctl.new }
        ensures range { IfSome result.0 (IsRangeIn (ctl.old.device.extent / 2 - 4096)) }
        ensures none { IsNone result.0 → ctl.new.device.wear ≡ ctl.old.device.wear }
        ensures most { RisesAtMost 4 ctl.old.device.wear ctl.new.device.wear }
        ensures spent { Costs (hurt_of result.1) 0 ctl.old.device ctl.new.device }
    {
        let wish = wanted(mask, flags, found.bits);
        if same(wish, found.bits) || self.ro_now {
            return (None, Ok(self.finish(ctl, pin, found.bits, mask, flags)));
        }
        let (at, _size) = ctl.geometry().pstate();
        let (begun, result) = store(ctl, found.place, wish);
        let range = Some(begun_range(at, found.place, begun));
        match result {
            Ok(()) => (range, Ok(self.finish(ctl, pin, wish, mask, flags))),
            Err(error) => (range, Err(error)),
        }
    }

    /// FLASH_PROTECT. The stored bits are read, and changed where others are wanted and RO is not locked; then the locks
    /// that are asked for are set, if the pin is asserted and RO is locked from the next boot on. Gives the smallest range
    /// with those of the operations that were begun, if one was, and what is shown.
    pub fn set<F: FlashDev>(
        &mut self,
        ctl: &mut Ctl<F>,
        pin: bool,
        mask: u32,
        flags: u32,
    ) -> (Option<(u32, u32)>, Result<ProtectView, DevErr>)
        requires { Locks self.old ctl.old }
        ensures told { Changes (λ before after. Sets mask flags pin ctl.old.device ctl.new.device
            self.old before self.new after result.0 result.1) ctl.old.device.held ctl.new.device.held }
        ensures grows { GrowsTo pin self.old self.new }
        // A mask of 0 changes nothing.
        ensures idle { mask ≡ 0 → (self.new ≡ self.old) × IsNone result.0 }
        ensures locks { Locks self.new ctl.new }
        // A record that has its place is added whole: the bits are as they were, or as is wanted, also where an operation does not end.
        ensures whole { Changes (AddsRecord mask flags) ctl.old.device.held ctl.new.device.held }
        ensures range { IfSome result.0 (IsRangeIn (ctl.old.device.extent / 2 - 4096)) }
        ensures none { IsNone result.0 → ctl.new.device.wear ≡ ctl.old.device.wear }
        ensures most { RisesAtMost 4 ctl.old.device.wear ctl.new.device.wear }
        ensures spent { Costs (hurt_of result.1) 1024 ctl.old.device ctl.new.device }
    {
        match find(ctl) {
            Ok(found) => self.set_from(ctl, pin, found, mask, flags),
            Err(Failed) => (None, Err(DevErr::Failed)),
        }
    }
}
