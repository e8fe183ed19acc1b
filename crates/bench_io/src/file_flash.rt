// A flash over a file. Its bytes are read once, and held; what is written goes to the file first.
ghost use Rattle.std.specs.Prelude.{◌≡◌, ◌≤◌, ◌<◌, ◌+◌, ◌*◌, ◌%◌, ◌^◌, is_err, if◌then◌else◌, length, replicate, slice_range, IsOk, IfOk, IfErr, OnOk};
ghost use Rattle.flash_dev.specs.Flash.{and_bytes, overwritten, programmed, erased, block_size, Torn};
ghost use Rattle.flash_dev.specs.Counts.{HasFaults, raised_by};
ghost use Rattle.flash_dev.specs.Device.{IsRead};
ghost use Rattle.flash_dev.specs.Told.{told_is_whole};
ghost use Rattle.bench_io.specs.Files.{IsSized, file_device};

use flash_dev::{BLOCK_SIZE, DevErr, Failed, FlashDev, Geometry, Tear, and_into};
use std::alloc::Global;
use std::io::{self, Read, Seek, SeekFrom, Write};
use std::marker::Model;

/// A file as a flash. What a read gives is held in memory; a program, an erase and a poke write their range to the file,
/// and then hold it. A call whose write or seek answers an error is a fault: its range then holds what the file gives, as
/// far as that can be read.
#[derive(Drop)]
pub struct FileFlash<T: Read + Write + Seek> {
    file: T,
    bytes: Vec<u8>,
    faults: u64,
    wear: u64,
    fetched: u64,
}

impl<T: Read + Write + Seek> Model for FileFlash<T> {
    ghost use Rattle.std.specs.Prelude.{◌<◌, ◌^◌, length};
    ghost use Rattle.bench_io.specs.Files.{FileState};

    ghost Value = { FileState };

    ghost view = { λ flash. record {
      bytes = flash.bytes.items;
      faults = flash.faults;
      wear = flash.wear;
      fetched =
          flash.fetched;
    } };

    ghost invariant = { λ flash. length flash.bytes.items < 2 ^ 32 };
}

impl<T: Read + Write + Seek + Drop> FileFlash<T> {
    /// A flash of the file's bytes, or of none where a flash has no such size. An error is the file's, or memory's.
    pub fn new(alloc: Global, mut file: T) -> io::Result<FileFlash<T>>
        ensures counts { IfOk result (λ flash. flash ≡ record {
          bytes = flash.bytes;
          faults = 0;
          wear = 0;
          fetched = 0;
        }) }
        ensures size { IfOk result (λ flash. IsSized (length flash.bytes)) }
    {
        let size = flash_size(&mut file)?;
        let mut bytes = vec![in alloc; 0; size as usize]?;
        read_from(&mut file, 0, &mut bytes)?;
        Ok(FileFlash {
            file,
            bytes,
            faults: 0,
            wear: 0,
            fetched: 0,
        })
    }
}

impl<T: Read + Write + Seek> FileFlash<T> {
    // Writes a range. Where the file fails, that is a fault.
    fn put(&mut self, at: usize, bytes: &[u8]) -> Result<(), Failed>
        requires { at + length bytes.now ≤ length self.old.bytes }
        ensures done { OnOk result (self.new.bytes ≡ overwritten at bytes.now self.old.bytes) }
        ensures outside { Torn at (length bytes.now) self.old.bytes self.new.bytes }
        ensures later { self.old.faults ≤ self.new.faults }
        ensures counts { self.new ≡ record {
          bytes = self.new.bytes;
          faults = if is_err result then raised_by 1 self.old.faults else self.old.faults;
          wear = self.old.wear;
          fetched = self.old.fetched;
        } }
    {
        match write_through(&mut self.file, &mut self.bytes, at, bytes) {
            Ok(()) => Ok(()),
            Err(_) => {
                self.faults = self.faults.saturating_add(1);
                Err(Failed)
            }
        }
    }

    // Writes the range of a program or an erase, which wears.
    fn store(&mut self, at: usize, bytes: &[u8]) -> Result<(), DevErr>
        requires { at + length bytes.now ≤ length self.old.bytes }
        ensures done { OnOk result (self.new.bytes ≡ overwritten at bytes.now self.old.bytes) }
        ensures outside { Torn at (length bytes.now) self.old.bytes self.new.bytes }
        ensures failed { IfErr result (λ error. error ≡ DevErr.Failed) }
        ensures later { self.old.faults ≤ self.new.faults }
        ensures counts { self.new ≡ record {
          bytes = self.new.bytes;
          faults = if is_err result then raised_by 1 self.old.faults else self.old.faults;
          wear = raised_by 1 self.old.wear;
          fetched = self.old.fetched;
        } }
    {
        self.wear = self.wear.saturating_add(1);
        match self.put(at, bytes) {
            Ok(()) => Ok(()),
            Err(Failed) => Err(DevErr::Failed),
        }
    }
}

impl<T: Read + Write + Seek> FlashDev for FileFlash<T> {
    ghost seen = { file_device };

    fn size(&self) -> u32 {
        self.bytes.len() as u32
    }

    fn read(&mut self, at: u32, out: &mut [u8]) -> Result<(), Failed>
        requires { at + length out.old ≤ length self.old.bytes }
        ensures read { IsRead at out.old out.new (file_device self.old) (file_device self.new) result }
        // It never fails.
        ensures whole { IsOk result }
    {
        self.fetched = self.fetched.saturating_add(out.len() as u64);
        let start = at as usize;
        out.copy_from_slice(&self.bytes[start..start + out.len()]);
        Ok(())
    }

    fn program(&mut self, at: u32, bytes: &[u8]) -> Result<(), DevErr> {
        let mut room = [0; 64];
        let part = &mut room[..bytes.len()];
        let start = at as usize;
        part.copy_from_slice(&self.bytes[start..start + bytes.len()]);
        and_into(part, bytes);
        self.store(start, part)
    }

    fn erase(&mut self, block: u32) -> Result<(), DevErr> {
        self.store(
            block as usize * BLOCK_SIZE as usize,
            &[0xFF; BLOCK_SIZE as usize],
        )
    }

    ghost told_whole = { λ flash bytes same. told_is_whole flash.bytes bytes same };
}

impl<T: Read + Write + Seek> Tear for FileFlash<T> {
    fn poke(&mut self, at: u32, bytes: &[u8]) -> Result<(), Failed> {
        self.put(at as usize, bytes)
    }
}

// How many bytes a flash over this file has.
fn flash_size<T: Seek>(file: &mut T) -> io::Result<u32>
    ensures { IfOk result (λ size. IsSized size) }
{
    let length = file.seek(SeekFrom::End(0))?;
    match u32::try_from(length) {
        Ok(size) if Geometry::new(size).is_some() => Ok(size),
        _ => Ok(0),
    }
}

// Writes a range to the file, and then holds it. Where the file fails, what it has there is held, as far as it can be
// read.
fn write_through<T: Read + Write + Seek>(
    file: &mut T,
    held: &mut [u8],
    at: usize,
    bytes: &[u8],
) -> io::Result<()>
    requires { at + length bytes.now ≤ length held.old }
    ensures held { OnOk result (held.new ≡ overwritten at bytes.now held.old) }
    ensures outside { Torn at (length bytes.now) held.old held.new }
{
    let part = &mut held[at..at + bytes.len()];
    match write_to(file, at, bytes) {
        Ok(()) => {
            part.copy_from_slice(bytes);
            Ok(())
        }
        Err(error) => {
            let _ = read_from(file, at, part);
            Err(error)
        }
    }
}

fn read_from<T: Read + Seek>(file: &mut T, at: usize, out: &mut [u8]) -> io::Result<()> {
    file.seek(SeekFrom::Start(at as u64))?;
    file.read_exact(out)
}

fn write_to<T: Write + Seek>(file: &mut T, at: usize, bytes: &[u8]) -> io::Result<()> {
    file.seek(SeekFrom::Start(at as u64))?;
    file.write_all(bytes)
}
