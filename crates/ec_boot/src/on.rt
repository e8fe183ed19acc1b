// On, whichever image runs: what both share.
ghost use Rattle.std.specs.Prelude.{◌≡◌, ◌≤◌, length, [], option_map, IsTrue, IfSome, IfOk, None, Some, is_some};
ghost use Rattle.ec_model.specs.Ranges.{is_flash_size, copy_range};
ghost use Rattle.ec_model.specs.Boot.{booted, fresh_live};
ghost use Rattle.ec_model.specs.Jump.{arrived, kept_live, keeps_all};
ghost use Rattle.ec_model.specs.Work.{Rest, EraseNext, hash_work};
ghost use Rattle.flash_protect.specs.Setting.{IsLookedAt};
ghost use Rattle.flash_dev.specs.Told.{Changes};
ghost use Rattle.flash_dev.specs.Cuts.{cut_at};
ghost use Rattle.flash_dev.specs.Costs.{Costs, hurt_of};
ghost use Rattle.flash_dev.specs.Counts.{RisesAtMost};
ghost use Rattle.ec_boot.specs.States.{told_core, Follows, IsLiveValid};
ghost use Rattle.ec_boot.specs.Ticked.{IsTicked, LeavesTicked, device_result};
ghost use Rattle.ec_boot.specs.Jumping.{is_denied_on, look_hurt, HasLooked, IsSeen, IsJumped, KeepsGuarded};
ghost use Rattle.ec_boot.specs.Guarding.{KeepsGuard, LowersGuard};
ghost use Rattle.ec_boot.specs.Shared.{IsTouchedBy, TouchesIf, shown_of};

use crate::erase::{left, saved};
use crate::lasting::{Lasting, kept, layout};
use crate::{JumpNo, Off, Running};
use arrayvec::ArrayVec;
use ec_model::{EraseJob, HashView, Live, ProtectView};
use ec_types::{ImageCopy, KeptHash, ResetCause, flags_of, status};
use flash_ctl::{Ctl, CtlErr};
use flash_dev::{BLOCK_SIZE, CutFlash, DevErr, Failed, FlashDev, Geometry, Region, Tear};
use flash_protect::Protect;
use image_head::vector_fits;
use jump_data::{JumpData, TagLayout};
use std::marker::Model;
use std::mem;
use vboot_hash::Hash;

// Where in RO the byte stands that says which jump data it writes.
const LAYOUT_PLACE: u32 = 40;

/// A controller that is on.
pub struct On<F: FlashDev> {
    ctl: Ctl<F>,
    pin: bool,
    lasting: Lasting,
    hash: Hash,
}

impl<F: FlashDev> Model for On<F> {
    ghost use Rattle.ec_boot.specs.States.{RunView};
    ghost use Rattle.ec_boot.specs.Shared.{run_by, IsOn};

    ghost Value = { RunView };

    ghost view = { λ on. run_by on.ctl on.pin on.lasting on.hash };

    ghost invariant = { λ on. IsOn on.ctl on.pin on.lasting on.hash };
}

// The hash behind an operation on a range: where the device was called, one over the range is dropped.
fn touch(hash: &mut Hash, outcome: &Result<(), CtlErr>, at: u32, size: u32)
    ensures { IsTouchedBy outcome.now (record { at = at; size = size }) hash.old hash.new }
{
    match outcome {
        Err(CtlErr::Locked) => {}
        Ok(()) | Err(CtlErr::Device(_)) => hash.touched(at, size),
    }
}

// The hash behind operations in a range, if some were begun: one over the range is dropped.
fn touch_some(hash: &mut Hash, range: Option<(u32, u32)>)
    ensures { TouchesIf range hash.old hash.new }
{
    match range {
        Some((at, size)) => hash.touched(at, size),
        None => {}
    }
}

// The result of a read, as one of the device's.
fn device_result(read: Result<(), Failed>) -> Result<(), DevErr>
    ensures { result ≡ device_result read }
{
    match read {
        Ok(()) => Ok(()),
        Err(Failed) => Err(DevErr::Failed),
    }
}

// A hash that was kept over a jump, or none.
fn hash_of(kept: Option<KeptHash>) -> Hash
    ensures shown { result.shown ≡ shown_of kept }
    ensures nonce { result.nonce ≡ [] }
{
    let mut hash = Hash::new();
    match kept {
        Some(kept) => hash.keep(kept),
        None => {}
    }
    hash
}

// Where an image lies in a flash, and how many bytes it has.
fn range_of(geometry: Geometry, copy: ImageCopy) -> (u32, u32)
    ensures { let range = copy_range copy geometry in result ≡ (range.at, range.size) }
{
    match copy {
        ImageCopy::Ro => geometry.range(Region::Ro),
        ImageCopy::Rw => geometry.range(Region::Active),
    }
}

impl<F: FlashDev> On<F> {
    /// A boot: the protection is read and locked, RO runs, and all of RW begins to be hashed.
    pub fn boot(mut ctl: Ctl<F>, pin: bool, cause: ResetCause) -> On<F>
        requires { IsTrue (is_flash_size ctl.device.extent) }
        ensures looked { IsLookedAt result.live.pstate_bad ctl.device result.device }
        ensures booted { told_core result ≡ option_map (λ flash. booted flash pin cause result.live.pstate_bad) ctl.device.held }
        ensures live { result.live ≡ fresh_live ctl.device.extent cause result.live.ro_now result.live.all_now result.live.pstate_bad }
        ensures pin { result.pin ≡ pin }
    {
        ctl.reset();
        let protect = Protect::boot(&mut ctl, pin);
        let (at, size) = ctl.geometry().range(Region::Active);
        let mut hash = Hash::new();
        hash.start(at, size, &[]);
        let lasting = Lasting {
            copy: ImageCopy::Ro,
            flags: flags_of(cause),
            jumped: false,
            protect,
            jump_off: false,
            erase: None,
            saved: status::UNAVAILABLE,
        };
        On {
            ctl,
            pin,
            lasting,
            hash,
        }
    }

    /// A reset: the controller boots RO again, and keeps its pin alone.
    pub fn reset(self, cause: ResetCause) -> On<F>
        ensures guard { Changes KeepsGuard (told_core self) (told_core result) }
        ensures looked { IsLookedAt result.live.pstate_bad self.device result.device }
        ensures booted { told_core result ≡ option_map (λ flash. booted flash self.pin cause result.live.pstate_bad) self.device.held }
        ensures live { result.live ≡ fresh_live self.device.extent cause result.live.ro_now result.live.all_now result.live.pstate_bad }
        ensures pin { result.pin ≡ self.pin }
    {
        let On {
            ctl,
            pin,
            lasting: _,
            hash: _,
        } = self;
        On::boot(ctl, pin, cause)
    }

    /// Power is gone: only the flash is left.
    pub fn cut(self) -> Off<F>
        ensures device { result.device ≡ self.device }
        ensures guard { Follows LowersGuard (told_core self) result.device.held }
    {
        let On {
            ctl,
            pin: _,
            lasting: _,
            hash: _,
        } = self;
        let geometry = ctl.geometry();
        Off::new(ctl.into_flash(), geometry)
    }

    // The next block of an erase that is pending.
    fn erase_next(&mut self, job: EraseJob) -> Result<(), DevErr>
        requires { self.old.live.erase ≡ Some job }
        ensures told { Changes (λ before after. IsTicked (EraseNext job) self.old.device self.new.device before after result)
            (told_core self.old) (told_core self.new) }
        ensures rest { LeavesTicked (EraseNext job) self.old self.new result }
        ensures copy { self.new.live.copy ≡ self.old.live.copy }
        ensures pin { self.new.pin ≡ self.old.pin }
        ensures spent { Costs (hurt_of result) 0 self.old.device self.new.device }
        ensures wear { RisesAtMost 1 self.old.device.wear self.new.device.wear }
        ensures guard { Changes KeepsGuard (told_core self.old) (told_core self.new) }
    {
        let _size = self.ctl.geometry();
        // A pending erase has no locked block.
        match self.ctl.erase_free(job.next) {
            Ok(()) => {
                self.hash.touched(job.next * BLOCK_SIZE, BLOCK_SIZE);
                self.lasting.erase = left(job);
                self.lasting.saved = saved(job, self.lasting.saved);
                Ok(())
            }
            Err(error) => {
                self.hash.touched(job.next * BLOCK_SIZE, BLOCK_SIZE);
                self.lasting.erase = None;
                self.lasting.saved = status::ERROR;
                Err(error)
            }
        }
    }

    // The next bytes of a hash that is busy.
    fn hash_next(&mut self) -> Result<(), DevErr>
        requires erase { self.old.live.erase ≡ None }
        ensures told { Changes (λ before after. IsTicked (hash_work self.old.live.hash) self.old.device self.new.device
            before after result) (told_core self.old) (told_core self.new) }
        ensures rest { LeavesTicked (hash_work self.old.live.hash) self.old self.new result }
        ensures copy { self.new.live.copy ≡ self.old.live.copy }
        ensures pin { self.new.pin ≡ self.old.pin }
        ensures spent { Costs (hurt_of result) 1024 self.old.device self.new.device }
        ensures wear { self.new.device.wear ≡ self.old.device.wear }
        ensures guard { Changes KeepsGuard (told_core self.old) (told_core self.new) }
    {
        match self.hash.view() {
            HashView::Busy { .. } => device_result(self.hash.tick(&mut self.ctl)),
            HashView::Idle | HashView::Done { .. } => Ok(()),
        }
    }

    // Whether the controller is locked, and this is not the one jump that it lets pass.
    fn is_denied(&self, target: ImageCopy) -> bool
        ensures { result ≡ is_denied_on self.now target }
    {
        let locked = self.lasting.protect.ro_now && self.pin;
        let first = match (self.lasting.copy, target) {
            (ImageCopy::Ro, ImageCopy::Rw) => !self.lasting.jumped && !self.lasting.jump_off,
            _ => false,
        };
        locked && !first
    }

    // The layout of the jump data that the running image writes.
    fn read_layout(&mut self) -> Result<Option<TagLayout>, Failed>
        ensures told { IfOk result (λ layout. IfSome self.old.device.held (λ flash. is_some layout ≡ keeps_all flash self.old.live.copy)) }
        ensures looked { HasLooked (look_hurt result) 1 self.old.device self.new.device }
        ensures rest { self.new ≡ record self.old { device = self.new.device } }
    {
        match self.lasting.copy {
            ImageCopy::Rw => Ok(Some(TagLayout::V3)),
            ImageCopy::Ro => {
                let mut byte = [0; 1];
                self.ctl.read(LAYOUT_PLACE, &mut byte)?;
                Ok(layout(byte[0]))
            }
        }
    }

    // What a jump has to know of the flash: whether the target's vector lies in its region, and the layout of the jump data.
    fn look(&mut self, target: ImageCopy) -> Result<Option<TagLayout>, JumpNo>
        ensures { IsSeen target self.old self.new result }
    {
        let (at, size) = range_of(self.ctl.geometry(), target);
        let mut head = [0; 8];
        if self.ctl.read(at, &mut head).is_err() {
            return Err(JumpNo::Fault);
        }
        if !vector_fits(&head, at, size) {
            return Err(JumpNo::Vector);
        }
        match self.read_layout() {
            Ok(layout) => Ok(layout),
            Err(Failed) => Err(JumpNo::Fault),
        }
    }

    // The image that runs writes its jump data, and the target reads it.
    fn pass_on(self, target: ImageCopy, layout: Option<TagLayout>) -> On<F>
        requires { self.live.erase ≡ None }
        ensures { result ≡ record self { live = arrived target (kept_live (is_some layout) self.live); nonce = [] } }
    {
        let On {
            ctl,
            pin,
            lasting,
            hash,
        } = self;
        let mut bytes = ArrayVec::new();
        lasting.jump_data(layout, hash.view()).encode(&mut bytes);
        match JumpData::decode(bytes.as_slice()) {
            Some(jump) => {
                let upper = ctl.geometry().size() / 2 / BLOCK_SIZE;
                let lasting = Lasting::behind_jump(target, &jump, ctl.locked(0), ctl.locked(upper));
                let hash = hash_of(kept(&jump));
                On {
                    ctl,
                    pin,
                    lasting,
                    hash,
                }
            }
            None => unreachable!(),
        }
    }

    /// A jump to the image that does not run.
    pub fn jump(mut self, target: ImageCopy) -> Result<On<F>, (On<F>, JumpNo)>
        requires { self.live.erase ≡ None }
        ensures jumped { IsJumped target self result }
        ensures guard { KeepsGuarded self result }
    {
        if self.is_denied(target) {
            return Err((self, JumpNo::Denied));
        }
        match self.look(target) {
            Ok(layout) => Ok(self.pass_on(target, layout)),
            Err(no) => Err((self, no)),
        }
    }
}

impl<F: Tear> On<CutFlash<F>> {
    /// Arms a cut of power in place of the one that was armed: the operation `n` of the flash from now on loses power, and
    /// its first bytes become `torn`. At 0 none is armed. Nothing else changes.
    pub fn arm_cut(&mut self, n: u32, torn: &[u8])
        requires { length torn.now ≤ 4096 }
        ensures { self.new ≡ record self.old { device = record self.old.device { armed = cut_at n torn.now } } }
    {
        self.ctl.arm_cut(n, torn);
    }
}

impl<F: FlashDev> Running for On<F> {
    ghost run = { λ on. on };

    fn live(&self) -> Live {
        self.lasting.live(self.hash.view())
    }

    fn pin(&self) -> bool {
        self.pin
    }

    fn set_pin(&mut self, on: bool) {
        self.pin = on;
    }

    fn geometry(&self) -> Geometry {
        self.ctl.geometry()
    }

    fn read(&mut self, at: u32, out: &mut [u8]) -> Result<(), Failed> {
        self.ctl.read(at, out)
    }

    fn program(&mut self, at: u32, bytes: &[u8]) -> Result<(), CtlErr> {
        // What is known of the size: the guarded bytes are the lower half.
        let _size = self.ctl.geometry();
        let result = self.ctl.program(at, bytes);
        touch(&mut self.hash, &result, at, bytes.len() as u32);
        result
    }

    fn erase_block(&mut self, block: u32) -> Result<(), CtlErr> {
        let _size = self.ctl.geometry();
        let result = self.ctl.erase_block(block);
        touch(&mut self.hash, &result, block * BLOCK_SIZE, BLOCK_SIZE);
        result
    }

    fn protect(&mut self, mask: u32, flags: u32) -> Result<ProtectView, DevErr> {
        let _size = self.ctl.geometry();
        let (range, result) = self
            .lasting
            .protect
            .set(&mut self.ctl, self.pin, mask, flags);
        touch_some(&mut self.hash, range);
        result
    }

    fn start_erase(&mut self, first: u32, count: u32) {
        self.lasting.erase = Some(EraseJob {
            next: first,
            left: count,
        });
        self.lasting.saved = status::UNAVAILABLE;
    }

    fn take_saved(&mut self) -> u16 {
        mem::replace(&mut self.lasting.saved, status::UNAVAILABLE)
    }

    fn hash_start(&mut self, at: u32, size: u32, nonce: &[u8]) {
        self.hash.start(at, size, nonce);
    }

    fn hash_abort(&mut self) {
        self.hash.abort();
    }

    fn disable_jump(&mut self) {
        self.lasting.jump_off = true;
    }

    fn tick(&mut self) -> Result<(), DevErr> {
        match self.lasting.erase {
            Some(job) => self.erase_next(job),
            None => self.hash_next(),
        }
    }
}
