// The stored bits: how they are read, and how they are stored.
ghost use Rattle.std.specs.Prelude.{◌≡◌, ◌+◌, ◌*◌, ◌/◌, ◌%◌, ◌^◌, ◌<◌, ◌-◌, ◌≤◌, is_err, length, take, Some, None, IfOk, IfSome, IsTrue};
ghost use Rattle.flash_dev.specs.Flash.{block_size};
ghost use Rattle.flash_dev.specs.Device.{IsChange};
ghost use Rattle.flash_dev.specs.Told.{Changes};
ghost use Rattle.flash_dev.specs.Ranges.{is_flash_size};
ghost use Rattle.flash_dev.specs.Operations.{Program, Erase};
ghost use Rattle.flash_ctl.specs.Locks.{no_locks};
ghost use Rattle.ec_model.specs.declared.live.AtBoot.{AtBoot};
ghost use Rattle.ec_model.specs.Stored.{stored};
ghost use Rattle.ec_model.specs.ProtectRow.{record_operations};
ghost use Rattle.flash_dev.specs.Costs.{Costs, HasBegun, hurt_of};
ghost use Rattle.flash_dev.specs.Counts.{RisesAtMost};
ghost use Rattle.flash_protect.specs.Setting.{IsLookedAt, IsPlaceIn, IsFew, IsRangeIn, record_place, operations_at, covering};

use crate::block::{self, MARK, READ_LENGTH};
use ec_model::AtBoot;
use flash_ctl::Ctl;
use flash_dev::{BLOCK_SIZE, DevErr, Failed, FlashDev};

/// What one read of the block found: the stored bits, and where the next record goes, if it has a place.
#[derive(Clone, Copy)]
pub struct Found {
    pub bits: AtBoot,
    pub place: Option<u32>,
}

/// Reads the block's records, in one read.
pub fn find<F: FlashDev>(ctl: &mut Ctl<F>) -> Result<Found, Failed>
    ensures looked { IsLookedAt (is_err result) ctl.old.device ctl.new.device }
    ensures locks { ctl.new.locks ≡ ctl.old.locks }
    ensures bits { IfOk result (λ found. IfSome ctl.old.device.held (λ flash. stored flash ≡ found.bits)) }
    ensures place { IfOk result (λ found. IfSome ctl.old.device.held (λ flash. record_place flash ≡ found.place)) }
    ensures inside { IfOk result (λ found. IsPlaceIn (ctl.old.device.extent / 2 - 4096) found.place) }
    ensures allowed { IsTrue (is_flash_size ctl.old.device.extent) }
    ensures whole { IfSome ctl.old.device.held (λ flash. length flash ≡ ctl.old.device.extent) }
{
    let (at, _size) = ctl.geometry().pstate();
    let mut bytes = [0u8; READ_LENGTH];
    match ctl.read(at, &mut bytes) {
        Ok(()) => Ok(Found {
            bits: block::bits(&bytes),
            place: block::place(at, &bytes),
        }),
        Err(error) => Err(error),
    }
}

// Erases a block, where none is locked.
fn erase_free<F: FlashDev>(ctl: &mut Ctl<F>, block: u32) -> Result<(), DevErr>
    requires inside { block * block_size + block_size ≤ ctl.old.device.extent }
    requires free { ctl.old.locks ≡ no_locks }
    ensures change { IsChange (Erase block) ctl.old.device ctl.new.device result }
    ensures locks { ctl.new.locks ≡ no_locks }
{
    ctl.erase_free(block)
}

// Programs bytes, where no block is locked.
fn program_free<F: FlashDev>(ctl: &mut Ctl<F>, at: u32, bytes: &[u8]) -> Result<(), DevErr>
    requires aligned { at % 4 ≡ 0 }
    requires whole { length bytes.now % 4 ≡ 0 }
    requires some { 4 ≤ length bytes.now }
    requires short { length bytes.now ≤ 64 }
    requires inside { at + length bytes.now ≤ ctl.old.device.extent }
    requires free { ctl.old.locks ≡ no_locks }
    ensures change { IsChange (Program at bytes.now) ctl.old.device ctl.new.device result }
    ensures locks { ctl.new.locks ≡ no_locks }
{
    ctl.program_free(at, bytes)
}

// Writes a record: its word, and then its gate. Gives how many operations were begun, too.
fn write_record<F: FlashDev>(
    ctl: &mut Ctl<F>,
    place: u32,
    bits: AtBoot,
) -> (u32, Result<(), DevErr>)
    requires aligned { place % 4 ≡ 0 }
    requires inside { place + 8 ≤ ctl.old.device.extent }
    requires small { place + 8 < 2 ^ 32 }
    requires free { ctl.old.locks ≡ no_locks }
    ensures ran { Changes (HasBegun result.0 (record_operations place bits) ctl.old.device ctl.new.device result.1) ctl.old.device.held ctl.new.device.held }
    ensures some { 1 ≤ result.0 }
    ensures few { result.0 ≤ 2 }
    ensures locks { ctl.new.locks ≡ no_locks }
    ensures wear { RisesAtMost result.0 ctl.old.device.wear ctl.new.device.wear }
    ensures spent { Costs (hurt_of result.1) 0 ctl.old.device ctl.new.device }
{
    let word = program_free(ctl, place, &block::word(bits));
    if word.is_err() {
        return (1, word);
    }
    (2, program_free(ctl, place + 4, &[0; 4]))
}

// Erases the block and begins it with its mark and a record. Gives how many operations were begun, too.
fn begin_anew<F: FlashDev>(ctl: &mut Ctl<F>, at: u32, bits: AtBoot) -> (u32, Result<(), DevErr>)
    requires aligned { at % 4 ≡ 0 }
    requires whole { at / block_size * block_size ≡ at }
    requires inside { at + block_size ≤ ctl.old.device.extent }
    requires small { at + block_size < 2 ^ 32 }
    requires free { ctl.old.locks ≡ no_locks }
    ensures ran { Changes (HasBegun result.0 (operations_at at None bits) ctl.old.device ctl.new.device result.1) ctl.old.device.held ctl.new.device.held }
    ensures some { 1 ≤ result.0 }
    ensures few { result.0 ≤ 4 }
    ensures locks { ctl.new.locks ≡ no_locks }
    ensures wear { RisesAtMost result.0 ctl.old.device.wear ctl.new.device.wear }
    ensures spent { Costs (hurt_of result.1) 0 ctl.old.device ctl.new.device }
{
    let erased = erase_free(ctl, at / BLOCK_SIZE);
    if erased.is_err() {
        return (1, erased);
    }
    let marked = program_free(ctl, at, &MARK);
    if marked.is_err() {
        return (2, marked);
    }
    let (begun, result) = write_record(ctl, at + 8, bits);
    (begun + 2, result)
}

/// Stores the bits in place of others, where no block is locked: a record is written in its place, or the block is begun anew.
/// Gives how many operations were begun, too.
pub fn store<F: FlashDev>(
    ctl: &mut Ctl<F>,
    place: Option<u32>,
    bits: AtBoot,
) -> (u32, Result<(), DevErr>)
    requires inside { IsPlaceIn (ctl.old.device.extent / 2 - 4096) place }
    requires free { ctl.old.locks ≡ no_locks }
    ensures ran { Changes (HasBegun result.0 (operations_at (ctl.old.device.extent / 2 - 4096) place bits)
        ctl.old.device ctl.new.device result.1) ctl.old.device.held ctl.new.device.held }
    ensures some { 1 ≤ result.0 }
    ensures few { IsFew place result.0 }
    ensures locks { ctl.new.locks ≡ no_locks }
    ensures wear { RisesAtMost result.0 ctl.old.device.wear ctl.new.device.wear }
    ensures spent { Costs (hurt_of result.1) 0 ctl.old.device ctl.new.device }
{
    let (at, _size) = ctl.geometry().pstate();
    match place {
        Some(place) => write_record(ctl, place, bits),
        None => begin_anew(ctl, at, bits),
    }
}

/// The smallest range that has those of the operations that were begun, in a block that begins at `at`.
pub fn begun_range(at: u32, place: Option<u32>, begun: u32) -> (u32, u32)
    requires inside { IsPlaceIn at place }
    requires whole { at / block_size * block_size ≡ at }
    requires some { 1 ≤ begun }
    requires few { IsFew place begun }
    ensures covers { (bits : AtBoot) → Some result ≡ covering (take begun (operations_at at place bits)) }
    ensures inside { IsRangeIn at result }
{
    match place {
        Some(place) => (place, 4 * begun),
        None => (at, BLOCK_SIZE),
    }
}
