// A flash for which a cut of power can be armed.
ghost use Rattle.std.specs.Prelude.{◌≡◌, ◌≤◌, ◌+◌, length, take};
ghost use Rattle.flash_dev.specs.Cuts.{cut_at};
ghost use Rattle.flash_dev.specs.Operations.{Operation, operation_range};
ghost use Rattle.flash_dev.specs.Device.{IsChange};
ghost use Rattle.flash_dev.specs.Poking.{IsPoked};
ghost use Rattle.flash_dev.specs.CutFlash.{uncut, cut_state, cut_device};

use crate::{BLOCK_SIZE, DevErr, Failed, FlashDev, Tear};
use arrayvec::ArrayVec;

/// A flash whose power is cut where that is armed: in one of the next calls of program and erase. That one answers
/// `PowerLost` and is not carried out; its range keeps its bytes, but that the first of them become what was armed, or
/// any bytes where they could not be written. Each count stands still at the last value of its type.
#[derive(Drop)]
pub struct CutFlash<F: Tear> {
    inner: F,
    left: u32,
    torn: ArrayVec<u8, 4096>,
    clean: u64,
    failed: u64,
}

impl<F: Tear> CutFlash<F> {
    /// A flash with nothing armed.
    pub fn new(inner: F) -> CutFlash<F>
        ensures { cut_state F.seen result ≡ uncut (F.seen inner) }
    {
        CutFlash {
            inner,
            left: 0,
            torn: ArrayVec::new(),
            clean: 0,
            failed: 0,
        }
    }

    /// Arms a cut in place of the one that was armed: the call `n` of program and erase from now on loses power, and its
    /// first bytes become `torn`. At 0 none is armed.
    pub fn arm(&mut self, n: u32, torn: &[u8])
        requires { length torn.now ≤ 4096 }
        ensures state { cut_state F.seen self.new ≡ record (cut_state F.seen self.old) { left = n; torn = torn.now } }
        ensures device { cut_device (cut_state F.seen self.new) ≡ record (cut_device (cut_state F.seen self.old)) { armed = cut_at n torn.now } }
    {
        self.left = n;
        self.torn.clear();
        self.torn.try_extend_from_slice(torn).unwrap();
    }

    /// The flash, with whatever the cuts left.
    pub fn into_inner(self) -> F
        ensures { F.seen result ≡ (cut_state F.seen self).inner }
    {
        let CutFlash {
            inner,
            left: _,
            torn: _,
            clean: _,
            failed: _,
        } = self;
        inner
    }

    // The armed cut falls in an operation on this range.
    #[inline(never)]
    fn fall(&mut self, at: u32, size: usize) -> Result<(), DevErr>
        requires due { self.old.left ≡ 1 }
        requires short { size ≤ 4096 }
        requires inside { at + size ≤ (F.seen self.old.inner).extent }
        ensures { (operation : Operation) → operation_range operation ≡ record { at = at; size = size } →
            IsChange operation (cut_device (cut_state F.seen self.old)) (cut_device (cut_state F.seen self.new)) result }
    {
        self.left = 0;
        match tear(&mut self.inner, at, size, self.torn.as_slice()) {
            Ok(()) => self.clean = self.clean.saturating_add(1),
            Err(Failed) => self.failed = self.failed.saturating_add(1),
        }
        Err(DevErr::PowerLost)
    }
}

// Puts what was torn at the front of a range, as much of it as fits there.
fn tear<F: Tear>(flash: &mut F, at: u32, size: usize, torn: &[u8]) -> Result<(), Failed>
    requires short { size ≤ 4096 }
    requires inside { at + size ≤ (F.seen flash.old).extent }
    ensures { IsPoked at (take size torn.now) (F.seen flash.old) (F.seen flash.new) result }
{
    let count = size.min(torn.len());
    if count == 0 {
        return Ok(());
    }
    flash.poke(at, &torn[..count])
}

impl<F: Tear> FlashDev for CutFlash<F> {
    ghost seen = { λ flash. cut_device (cut_state F.seen flash) };

    #[inline(always)]
    fn size(&self) -> u32 {
        self.inner.size()
    }

    #[inline(always)]
    fn read(&mut self, at: u32, out: &mut [u8]) -> Result<(), Failed> {
        self.inner.read(at, out)
    }

    #[inline(always)]
    fn program(&mut self, at: u32, bytes: &[u8]) -> Result<(), DevErr> {
        if self.left == 1 {
            return self.fall(at, bytes.len());
        }
        self.left = self.left.saturating_sub(1);
        self.inner.program(at, bytes)
    }

    #[inline(always)]
    fn erase(&mut self, block: u32) -> Result<(), DevErr> {
        if self.left == 1 {
            // The size fits in 32 bits, and so does the place of each block.
            let _size = self.inner.size();
            return self.fall(block * BLOCK_SIZE, BLOCK_SIZE as usize);
        }
        self.left = self.left.saturating_sub(1);
        self.inner.erase(block)
    }

    ghost told_whole = { λ flash bytes same. F.told_whole flash.inner bytes same };
}
