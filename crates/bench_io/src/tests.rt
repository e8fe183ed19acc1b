// What no clause says: that memory suffices, and what passes through the adapters.
use crate::{FileFlash, MemSink, MemSource, Sink, Source, StdSink, StdSource, put_all};
use flash_dev::{DevErr, Failed, FlashDev, Tear};
use std::alloc::Global;
use std::fs::{self, File};
use std::io::{self, Error, ErrorKind, Read, Seek, SeekFrom, Write};
use std::test::Fail;

/// A reader that always fails.
#[derive(Drop)]
struct Broken;

impl Read for Broken {
    fn read(&mut self, buf: &mut [u8]) -> io::Result<usize> {
        Err(Error::from(ErrorKind::BrokenPipe))
    }
}

/// A file whose first write fails in its middle.
#[derive(Drop)]
struct Weak {
    file: File,
    failed: bool,
}

impl Read for Weak {
    fn read(&mut self, buf: &mut [u8]) -> io::Result<usize> {
        self.file.read(buf)
    }
}

impl Write for Weak {
    fn write(&mut self, buf: &[u8]) -> io::Result<usize> {
        if self.failed {
            return self.file.write(buf);
        }
        self.failed = true;
        let (front, _) = buf.split_at(buf.len() / 2);
        self.file.write_all(front)?;
        Err(Error::from(ErrorKind::BrokenPipe))
    }

    fn flush(&mut self) -> io::Result<()> {
        self.file.flush()
    }
}

impl Seek for Weak {
    fn seek(&mut self, to: SeekFrom) -> io::Result<u64> {
        self.file.seek(to)
    }
}

/// A file of 65,536 bytes of 0x5A, to be read and written.
fn old_file(rt: &HostRuntime, name: &str) -> io::Result<File> {
    fs::write(rt, name, vec![in rt.alloc(); 0x5A; 65536]?)?;
    let mut options = File::options();
    options.read(true).write(true);
    options.open(rt, name)
}

/// What reads of a whole flash give.
fn held<T: Read + Write + Seek>(alloc: Global, flash: &mut FileFlash<T>) -> io::Result<Vec<u8>> {
    let mut bytes = vec![in alloc; 0; flash.size() as usize]?;
    match flash.read(0, &mut bytes) {
        Ok(()) => Ok(bytes),
        Err(Failed) => Err(Error::from(ErrorKind::Other)),
    }
}

fn first<S: Source>(source: &mut S) -> Result<usize, Failed> {
    let mut buf = [0; 3];
    source.next(&mut buf)
}

#[test]
fn memory_suffices(rt: HostRuntime) -> Result<(), Fail> {
    let mut source = MemSource::new(rt.alloc(), b"abcde", &[2])?;
    for want in [Ok(3), Err(Failed), Ok(2), Ok(0)] {
        assert_eq!(rt; first(&mut source), want);
    }
    assert_eq!(rt; source.taken(), 5);
    let mut sink = MemSink::new(rt.alloc(), 4, &[])?;
    assert_eq!(rt; put_all(&mut sink, b"abcde"), Err(Failed));
    assert_eq!(rt; sink.bytes(), b"abcd".as_slice());
    Ok(())
}

#[test]
fn source_passes_bytes_on(rt: HostRuntime) {
    let mut source = StdSource::new(b"abcd".as_slice());
    for want in [Ok(3), Ok(1), Ok(0)] {
        assert_eq!(rt; first(&mut source), want);
    }
    let mut broken = StdSource::new(Broken);
    assert!(rt; broken.error().is_none());
    assert_eq!(rt; first(&mut broken), Err(Failed));
    let kind = broken.error().map(Error::kind);
    assert_eq!(rt; kind, Some(ErrorKind::BrokenPipe));
}

#[test]
fn sink_passes_bytes_on(rt: HostRuntime) -> Result<(), Fail> {
    let mut out = Vec::new(rt.alloc());
    let mut sink = StdSink::new(&mut out);
    assert_eq!(rt; put_all(&mut sink, b"hi"), Ok(()));
    assert_eq!(rt; out.as_slice(), b"hi".as_slice());
    Ok(())
}

#[test]
fn a_write_of_nothing_is_a_fault(rt: HostRuntime) {
    let mut full = [0; 2];
    let mut sink = StdSink::new(full.as_mut_slice());
    assert_eq!(rt; sink.put(b"abc"), Ok(2));
    assert_eq!(rt; sink.put(b"c"), Err(Failed));
    let kind = sink.error().map(Error::kind);
    assert_eq!(rt; kind, Some(ErrorKind::WriteZero));
}

#[test]
fn what_is_written_reaches_the_file(rt: HostRuntime) -> Result<(), Fail> {
    let name = "what_is_written_reaches_the_file.bin";
    let mut flash = FileFlash::new(rt.alloc(), old_file(&rt, name)?)?;
    assert_eq!(rt; flash.size(), 65536);
    assert_eq!(rt; flash.erase(1), Ok(()));
    assert_eq!(rt; flash.program(8128, &[0x3C; 64]), Ok(()));
    assert_eq!(rt; flash.program(8192, &[0xF0; 64]), Ok(()));
    let mut want = vec![in rt.alloc(); 0x5A; 65536]?;
    want[4096..8128].fill(0xFF);
    want[8128..8192].fill(0x3C);
    want[8192..8256].fill(0x50);
    assert_eq!(rt; fs::read(&rt, name)?, want);
    assert_eq!(rt; held(rt.alloc(), &mut flash)?, want);
    let mut again = FileFlash::new(rt.alloc(), File::open(&rt, name)?)?;
    assert_eq!(rt; held(rt.alloc(), &mut again)?, want);
    fs::remove_file(&rt, name)?;
    Ok(())
}

#[test]
fn a_poke_reaches_the_file(rt: HostRuntime) -> Result<(), Fail> {
    let name = "a_poke_reaches_the_file.bin";
    let mut flash = FileFlash::new(rt.alloc(), old_file(&rt, name)?)?;
    assert_eq!(rt; flash.size(), 65536);
    assert_eq!(rt; flash.poke(4094, &[0xFF, 1, 2, 0xA5]), Ok(()));
    let mut want = vec![in rt.alloc(); 0x5A; 65536]?;
    want[4094..4098].copy_from_slice(&[0xFF, 1, 2, 0xA5]);
    assert_eq!(rt; fs::read(&rt, name)?, want);
    assert_eq!(rt; held(rt.alloc(), &mut flash)?, want);
    fs::remove_file(&rt, name)?;
    Ok(())
}

#[test]
fn a_write_fails(rt: HostRuntime) -> Result<(), Fail> {
    let name = "a_write_fails.bin";
    let file = Weak {
        file: old_file(&rt, name)?,
        failed: false,
    };
    let mut flash = FileFlash::new(rt.alloc(), file)?;
    assert_eq!(rt; flash.size(), 65536);
    assert_eq!(rt; flash.program(4096, &[0; 64]), Err(DevErr::Failed));
    let mut want = vec![in rt.alloc(); 0x5A; 65536]?;
    want[4096..4128].fill(0);
    assert_eq!(rt; fs::read(&rt, name)?, want);
    assert_eq!(rt; held(rt.alloc(), &mut flash)?, want);
    assert_eq!(rt; flash.size(), 65536);
    assert_eq!(rt; flash.program(4096, &[0; 64]), Ok(()));
    want[4096..4160].fill(0);
    assert_eq!(rt; fs::read(&rt, name)?, want);
    assert_eq!(rt; held(rt.alloc(), &mut flash)?, want);
    fs::remove_file(&rt, name)?;
    Ok(())
}

#[test]
fn a_file_of_another_size(rt: HostRuntime) -> Result<(), Fail> {
    let name = "a_file_of_another_size.bin";
    fs::write(&rt, name, b"hello")?;
    let flash = FileFlash::new(rt.alloc(), File::open(&rt, name)?)?;
    assert_eq!(rt; flash.size(), 0);
    fs::remove_file(&rt, name)?;
    Ok(())
}
