// A flash in memory.
ghost use Rattle.std.specs.Prelude.{◌≡◌, ◌≤◌, ◌<◌, ◌+◌, ◌*◌, ◌%◌, ◌^◌, is_err, if◌then◌else◌, length, replicate, IfOk, IfErr};
ghost use Rattle.flash_dev.specs.Flash.{and_bytes, overwritten, programmed, erased, block_size, Torn};
ghost use Rattle.flash_dev.specs.Counts.{raised_by};
ghost use Rattle.flash_dev.specs.Calls.{no_calls, is_next_failing, after_call};
ghost use Rattle.flash_dev.specs.Operations.{Program, Erase};
ghost use Rattle.flash_dev.specs.Device.{IsRead, IsChange};
ghost use Rattle.flash_dev.specs.Poking.{IsPoked};
ghost use Rattle.flash_dev.specs.Memory.{memory_device};
ghost use Rattle.flash_dev.specs.Told.{told_is_whole};

use crate::{BLOCK_SIZE, DevErr, Failed, FailingCalls, FlashDev, Tear};
use std::alloc::{AllocError, Global};
use std::marker::Model;

/// Bytes in memory. Each count stands still at the last value of its type.
#[derive(Drop)]
pub struct MemFlash {
    bytes: Vec<u8>,
    calls: FailingCalls,
    wear: u64,
    fetched: u64,
}

impl Model for MemFlash {
    ghost use Rattle.std.specs.Prelude.{◌<◌, ◌^◌, length};
    ghost use Rattle.flash_dev.specs.Memory.{MemoryState};

    ghost Value = { MemoryState };

    ghost view = { λ flash. record { bytes = flash.bytes.items; calls = flash.calls; wear = flash.wear; fetched = flash.fetched } };

    ghost invariant = { λ flash. length flash.bytes.items < 2 ^ 32 };
}

impl MemFlash {
    ghost use Rattle.flash_dev.specs.Memory.{MemoryState};

    /// A flash of these bytes. The calls of read, program, erase and poke whose numbers, from 1, are in `fail` fail.
    pub fn new(alloc: Global, bytes: &[u8], fail: &[u32]) -> Result<MemFlash, AllocError>
        requires { length bytes.now < 2 ^ 32 }
        ensures { IfOk result (λ flash. flash ≡ record { bytes = bytes.now; calls = no_calls fail.now; wear = 0; fetched = 0 }) }
    {
        Ok(MemFlash {
            bytes: bytes.to_vec(alloc)?,
            calls: FailingCalls::new(alloc, fail)?,
            wear: 0,
            fetched: 0,
        })
    }

    /// The held bytes.
    pub fn bytes(&self) -> &[u8]
        ensures { result.now ≡ self.now.bytes }
    {
        &self.bytes
    }

    /// How many calls of program and erase there were.
    pub fn wear(&self) -> u64
        ensures { result ≡ self.now.wear }
    {
        self.wear
    }

    /// How many bytes were asked of read.
    pub fn fetched(&self) -> u64
        ensures { result ≡ self.now.fetched }
    {
        self.fetched
    }

    // Counts a call of program or erase.
    fn begin(&mut self) -> Result<(), DevErr>
        ensures exact { is_err result ≡ is_next_failing self.old.calls }
        ensures failed { IfErr result (λ error. error ≡ DevErr.Failed) }
        ensures state { self.new ≡ record self.old { calls = after_call (is_err result) self.old.calls; wear = raised_by 1 self.old.wear } }
        ensures later { self.old.calls.faults ≤ self.new.calls.faults }
    {
        self.wear = self.wear.saturating_add(1);
        if self.calls.fails(false) {
            return Err(DevErr::Failed);
        }
        Ok(())
    }
}

// A call fails exactly where it is listed, and changes no byte then.
impl FlashDev for MemFlash {
    ghost seen = { memory_device };

    fn size(&self) -> u32 {
        self.bytes.len() as u32
    }

    fn read(&mut self, at: u32, out: &mut [u8]) -> Result<(), Failed>
        requires { at + length out.old ≤ length self.old.bytes }
        ensures read { IsRead at out.old out.new (memory_device self.old) (memory_device self.new) result }
        ensures exact { is_err result ≡ is_next_failing self.old.calls }
        ensures state { self.new ≡ record self.old {
          calls = after_call (is_err result) self.old.calls;
          fetched = raised_by (length out.old) self.old.fetched;
        } }
    {
        self.fetched = self.fetched.saturating_add(out.len() as u64);
        if self.calls.fails(false) {
            return Err(Failed);
        }
        let start = at as usize;
        out.copy_from_slice(&self.bytes[start..start + out.len()]);
        Ok(())
    }

    fn program(&mut self, at: u32, bytes: &[u8]) -> Result<(), DevErr>
        requires aligned { at % 4 ≡ 0 }
        requires whole { length bytes.now % 4 ≡ 0 }
        requires some { 4 ≤ length bytes.now }
        requires short { length bytes.now ≤ 64 }
        requires inside { at + length bytes.now ≤ length self.old.bytes }
        ensures change { IsChange (Program at bytes.now) (memory_device self.old) (memory_device self.new) result }
        ensures exact { is_err result ≡ is_next_failing self.old.calls }
        ensures state { self.new ≡ record {
          bytes = if is_err result then self.old.bytes else programmed at bytes.now self.old.bytes;
          calls = after_call (is_err result) self.old.calls;
          wear = raised_by 1 self.old.wear;
          fetched = self.old.fetched;
        } }
    {
        self.begin()?;
        program_bytes(&mut self.bytes, at as usize, bytes);
        Ok(())
    }

    fn erase(&mut self, block: u32) -> Result<(), DevErr>
        requires { block * block_size + block_size ≤ length self.old.bytes }
        ensures change { IsChange (Erase block) (memory_device self.old) (memory_device self.new) result }
        ensures exact { is_err result ≡ is_next_failing self.old.calls }
        ensures state { self.new ≡ record {
          bytes = if is_err result then self.old.bytes else erased block self.old.bytes;
          calls = after_call (is_err result) self.old.calls;
          wear = raised_by 1 self.old.wear;
          fetched = self.old.fetched;
        } }
    {
        self.begin()?;
        erase_block(&mut self.bytes, block as usize);
        Ok(())
    }

    ghost told_whole = { λ flash bytes same. told_is_whole flash.bytes bytes same };
}

// A poke fails exactly where it is listed, and changes no byte then.
impl Tear for MemFlash {
    fn poke(&mut self, at: u32, bytes: &[u8]) -> Result<(), Failed>
        requires some { 1 ≤ length bytes.now }
        requires short { length bytes.now ≤ 4096 }
        requires inside { at + length bytes.now ≤ length self.old.bytes }
        ensures poked { IsPoked at bytes.now (memory_device self.old) (memory_device self.new) result }
        ensures exact { is_err result ≡ is_next_failing self.old.calls }
        ensures state { self.new ≡ record self.old {
          bytes = if is_err result then self.old.bytes else overwritten at bytes.now self.old.bytes;
          calls = after_call (is_err result) self.old.calls;
        } }
    {
        if self.calls.fails(false) {
            return Err(Failed);
        }
        put_bytes(&mut self.bytes, at as usize, bytes);
        Ok(())
    }
}

// Makes the bytes from a place on these.
fn put_bytes(held: &mut [u8], at: usize, bytes: &[u8])
    requires { at + length bytes.now ≤ length held.old }
    ensures made { held.new ≡ overwritten at bytes.now held.old }
    ensures outside { Torn at (length bytes.now) held.old held.new }
{
    let end = at + bytes.len();
    held[at..end].copy_from_slice(bytes);
}

// Makes each byte of a range hold just the bits that it and the new byte both have.
fn program_bytes(held: &mut [u8], at: usize, bytes: &[u8])
    requires { at + length bytes.now ≤ length held.old }
    ensures made { held.new ≡ programmed at bytes.now held.old }
    ensures outside { Torn at (length bytes.now) held.old held.new }
{
    let end = at + bytes.len();
    and_into(&mut held[at..end], bytes);
}

/// Makes each byte hold just the bits that it and the new byte both have.
pub fn and_into(part: &mut [u8], bytes: &[u8])
    requires { length bytes.now ≡ length part.old }
    ensures { part.new ≡ and_bytes part.old bytes.now }
{
    for (i, byte) in bytes.iter().enumerate() {
        part[i] &= *byte;
    }
}

// Makes each byte of a block 0xFF.
fn erase_block(held: &mut [u8], block: usize)
    requires { block * block_size + block_size ≤ length held.old }
    ensures made { held.new ≡ erased block held.old }
    ensures outside { Torn (block * block_size) block_size held.old held.new }
{
    let size = BLOCK_SIZE as usize;
    let start = block * size;
    held[start..start + size].fill(0xFF);
}
