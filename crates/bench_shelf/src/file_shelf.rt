// A shelf over the working folder. It tells no files, since nothing vouches for what a folder holds.
ghost use Rattle.std.specs.Prelude.{◌≡◌, ◌≤◌, None, IfOk, IfSome, if◌then◌else◌};
ghost use Rattle.flash_dev.specs.Counts.{raised_by};
ghost use Rattle.flash_dev.specs.Told.{Changes};
ghost use Rattle.bench_shelf.specs.Shelves.{Finds, IsGiven, IsWithin, FailsByFault, is_failed};

use crate::{Blob, Loaded, Shelf, ShelfErr};
use std::alloc::Global;
use std::fs::{File, OpenFile};
use std::io::Read;
use std::rt::Files;
use std::str;

/// How many bytes a file is asked for at a time.
const CHUNK: usize = 4096;

/// The files of the working folder, by the bytes of their paths. A name may be any path, also one that leaves the folder.
/// Each load opens the file and reads it to its end, and tries nothing again. A name that is no path (it is not UTF-8, or
/// has a byte of 0), a file that cannot be opened and one that cannot be read are faults; memory that is refused is none.
#[derive(Drop)]
pub struct FileShelf<R: Files> {
    files: R,
    faults: u64,
}

impl<R: Files> FileShelf<R> {
    /// Over these files. Nothing is counted yet.
    pub fn new(files: R) -> FileShelf<R>
        ensures { result ≡ record { files = files; faults = 0 } }
    {
        FileShelf { files, faults: 0 }
    }
}

impl<R: Files> Shelf for FileShelf<R> {
    ghost files = { λ shelf. None };

    ghost faults = { λ shelf. shelf.faults };

    fn load(&mut self, alloc: Global, name: &[u8], limit: usize) -> Result<Loaded, ShelfErr>
        ensures finds { Changes (Finds result name.now limit) None None }
        ensures within { IsWithin result limit }
        ensures later { self.old.faults ≤ self.new.faults }
        ensures cause { FailsByFault result self.old.faults self.new.faults }
        // It counts its failures, and nothing else.
        ensures counts { self.new ≡ record self.old {
          faults = if is_failed result then raised_by 1 self.old.faults else self.old.faults;
        } }
    {
        let loaded = load_file(&self.files, alloc, name, limit);
        if let Err(ShelfErr::Failed) = loaded {
            self.faults = self.faults.saturating_add(1);
        }
        loaded
    }
}

// The bytes of a file, where they are few enough. Room is made for as many as it says that it has, at most `limit`, and
// for more only where they come.
fn load_file<R: Files>(
    files: &R,
    alloc: Global,
    name: &[u8],
    limit: usize,
) -> Result<Loaded, ShelfErr>
    ensures within { IsWithin result limit }
{
    let Ok(path) = str::from_utf8(name) else {
        return Err(ShelfErr::Failed);
    };
    let mut file = File::open(files, path)?;
    let size = file.metadata()?.len().min(limit as u64);
    read_within(alloc, &mut file, size as usize, limit)
}

// All the bytes that a reader gives, where they are few enough. For `room` of them there is room from the start.
fn read_within<F: Read>(
    alloc: Global,
    reader: &mut F,
    room: usize,
    limit: usize,
) -> Result<Loaded, ShelfErr>
    ensures given { IfOk result (λ loaded. IfSome (F.remaining reader.old) (λ bytes. IsGiven loaded bytes limit)) }
    ensures within { IsWithin result limit }
{
    let mut bytes = Vec::with_capacity(alloc, room)?;
    let mut chunk = [0; CHUNK];
    loop {
        let count = reader.read(&mut chunk)?;
        if count == 0 {
            return Ok(Loaded::Whole(Blob::of(bytes)));
        }
        if count > limit - bytes.len() {
            return Ok(Loaded::TooLong);
        }
        bytes.extend_from_slice(&chunk[..count])?;
    }
}
