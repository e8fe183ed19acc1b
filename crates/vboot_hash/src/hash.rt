// A hash while it is taken.
ghost use Rattle.std.specs.Prelude.{◌≡◌, ◌≤◌, ◌<◌, ◌+◌, ◌-◌, ◌^◌, ℕ, List, [], ◌++◌, length, min, nat_le, IfSome, IsTrue, IsFalse, OnOk, OnErr};
ghost use Rattle.flash_dev.specs.Flash.{Torn};
ghost use Rattle.ec_model.specs.declared.live.HashView.TheVariants.{Idle, Busy, Done};
ghost use Rattle.ec_model.specs.Hash.{is_hash_over};
ghost use Rattle.ec_model.specs.Ranges.{Range, part};
ghost use Rattle.ec_model.specs.Table.{ticks_of};
ghost use Rattle.sha2.specs.Sha256.{sha256};
ghost use Rattle.sha2.specs.Hashers.{Holds256};

use arrayvec::ArrayVec;
use ec_model::HashView;
use ec_types::KeptHash;
use flash_ctl::Ctl;
use flash_dev::{Failed, FlashDev, overlap};
use sha2::{Digest, Sha256};
use std::marker::Model;

/// How many bytes a tick covers at most.
const TICK_LENGTH: u32 = 1024;

/// A hash of a range of the flash, with a nonce in front, as it is shown to the host: none, busy or done.
#[derive(Drop)]
pub struct Hash {
    shown: HashView,
    nonce: ArrayVec<u8, 64>,
    running: Sha256,
}

impl Model for Hash {
    ghost use Rattle.vboot_hash.specs.Hashing.{HashState, IsHashing};

    ghost Value = { HashState };

    ghost view = { λ hash. record { shown = hash.shown; nonce = hash.nonce.items; running = hash.running } };

    ghost invariant = { λ hash. IsHashing hash.shown hash.nonce.items };
}

// How many ticks a hash of so many bytes takes.
fn ticks(size: u32) -> u32
    requires { 1 ≤ size }
    ensures { result ≡ ticks_of size }
{
    (size - 1) / TICK_LENGTH + 1
}

impl Hash {
    ghost use Rattle.vboot_hash.specs.Hashing.{HashState, IsHashing, is_busy, covered, next_bytes, EndsWithin, Stands, IsTickedFrom, IsNoHash, HasRead};

    /// No hash.
    pub fn new() -> Hash
        ensures { IsNoHash result }
    {
        Hash {
            shown: HashView::Idle,
            nonce: ArrayVec::new(),
            running: Sha256::new(),
        }
    }

    /// A hash of `size` bytes from `at` on begins, with a nonce of at most 64 bytes in front, in place of any other.
    pub fn start(&mut self, at: u32, size: u32, nonce: &[u8])
        requires some { 1 ≤ size }
        requires inside { at + size < 2 ^ 32 }
        requires short { length nonce.now ≤ 64 }
        ensures shown { self.new.shown ≡ Busy at size (ticks_of size) }
        ensures nonce { self.new.nonce ≡ nonce.now }
        ensures stands { (flash : List ℕ) → Stands self.new nonce.now flash }
    {
        self.nonce.clear();
        self.nonce.try_extend_from_slice(nonce).unwrap();
        self.running.reset();
        self.running.update(nonce);
        self.shown = HashView::Busy {
            at,
            size,
            left: ticks(size),
        };
    }

    // Whether the hash, busy or done, has a byte of a range.
    fn is_over(&self, at: u32, size: u32) -> bool
        ensures over { result ≡ is_hash_over (record { at = at; size = size }) self.now.shown }
        ensures hashing { IsHashing self.now.shown self.now.nonce }
    {
        match self.shown {
            HashView::Idle => false,
            HashView::Busy {
                at: place,
                size: count,
                left: _,
            } => overlap(at, size, place, count),
            HashView::Done {
                at: place,
                size: count,
                digest: _,
            } => overlap(at, size, place, count),
        }
    }

    /// Any hash is dropped.
    pub fn abort(&mut self)
        ensures { IsNoHash self.new }
    {
        self.shown = HashView::Idle;
        self.nonce.clear();
    }

    /// An operation touched a range of the flash: a hash that has a byte of it, busy or done, is dropped, and any other
    /// stays as it is.
    pub fn touched(&mut self, at: u32, size: u32)
        ensures over { IsTrue (is_hash_over (record { at = at; size = size }) self.old.shown) → IsNoHash self.new }
        ensures beside { IsFalse (is_hash_over (record { at = at; size = size }) self.old.shown) → self.new ≡ self.old }
        ensures stands { (nonce before after : List ℕ) → Torn at size before after → Stands self.old nonce before →
            Stands self.new nonce after }
    {
        if self.is_over(at, size) {
            self.abort();
        }
    }

    /// A hash that was kept over a jump is shown as done.
    pub fn keep(&mut self, kept: KeptHash)
        ensures shown { self.new.shown ≡ Done kept.at kept.size kept.digest }
        ensures nonce { self.new.nonce ≡ [] }
        ensures stands { (nonce flash : List ℕ) →
            kept.digest ≡ sha256 (nonce ++ part (record { at = kept.at; size = kept.size }) flash) → Stands self.new nonce flash }
    {
        self.nonce.clear();
        let KeptHash { at, size, digest } = kept;
        self.shown = HashView::Done { at, size, digest };
    }

    // The ticks that are left once one more was taken: behind the last one the digest is shown.
    fn advance(&mut self, at: u32, size: u32, left: u32)
        requires busy { self.old.shown ≡ Busy at size left }
        requires hashing { IsHashing self.old.shown self.old.nonce }
        ensures ticked { IsTickedFrom self.old.shown self.old self.new }
        ensures done { (message : List ℕ) → Holds256 self.old.running message → IsTrue (nat_le left 1) →
            self.new.shown ≡ Done at size (sha256 message) }
        ensures running { IsFalse (nat_le left 1) → self.new.running ≡ self.old.running }
    {
        if left <= 1 {
            let digest = self.running.finalize_reset();
            self.nonce.clear();
            self.shown = HashView::Done { at, size, digest };
        } else {
            self.shown = HashView::Busy {
                at,
                size,
                left: left - 1,
            };
        }
    }

    /// One tick of a busy hash, whose range lies in the flash: the next 1,024 bytes, or what is left, go into the running
    /// digest, and behind the last ones the digest is shown. Where the read fails the hash is dropped.
    pub fn tick<F: FlashDev>(&mut self, ctl: &mut Ctl<F>) -> Result<(), Failed>
        requires busy { IsTrue (is_busy self.old.shown) }
        requires inside { EndsWithin ctl.old.device.extent self.old.shown }
        ensures ticked { OnOk result (IsTickedFrom self.old.shown self.old self.new) }
        ensures failed { OnErr result (IsNoHash self.new) }
        ensures stands { (nonce : List ℕ) →
            IfSome ctl.old.device.held (λ flash. Stands self.old nonce flash → Stands self.new nonce flash) }
        ensures read { HasRead (next_bytes self.old.shown) ctl.old.device ctl.new.device result }
        ensures locks { ctl.new.locks ≡ ctl.old.locks }
    {
        match self.shown {
            HashView::Busy { at, size, left } => {
                let done = TICK_LENGTH * (ticks(size) - left);
                let mut bytes = [0u8; TICK_LENGTH as usize];
                let next = &mut bytes[..TICK_LENGTH.min(size - done) as usize];
                match ctl.read(at + done, next) {
                    Ok(()) => {
                        self.running.update(&*next);
                        self.advance(at, size, left);
                        Ok(())
                    }
                    Err(error) => {
                        self.abort();
                        Err(error)
                    }
                }
            }
            HashView::Idle | HashView::Done { .. } => unreachable!(),
        }
    }

    /// What is shown of it.
    pub fn view(&self) -> HashView
        ensures shown { result ≡ self.now.shown }
        ensures valid { IsHashing self.now.shown self.now.nonce }
    {
        self.shown
    }
}
