// What tests of whole runs share.
use crate::run::{Exit, run};
use bench_io::{MemSink, MemSource};
use bench_shelf::MemShelf;
use bench_words::Word;
use flash_dev::{FlashDev, MemFlash, Tear};
use std::process::Abort;
use std::test::Fail;

/// A flash of 64 KiB that is erased.
pub const ERASED: [u8; 65536] = [0xFF; 65536];

/// Puts bytes over those of a flash of 64 KiB, where it stores its protection.
pub fn store<R: Abort>(rt: &R, flash: &mut [u8], stored: &[u8; 8]) {
    assert!(rt; flash.len() >= 0x7008);
    flash[0x7000..0x7008].copy_from_slice(stored);
}

/// Runs a script over this flash, where these calls of the source and of the sink fail, and looks at the exit and at the
/// text. Answers how many entries the journal has.
pub fn plays<R: Abort + AllocGlobal, F: Tear + Drop>(
    rt: &R,
    flash: F,
    script: &[u8],
    fails: (&[u32], &[u32]),
    want: (Exit, &[u8]),
) -> Result<usize, Fail> {
    let mut source = MemSource::new(rt.alloc(), script, fails.0)?;
    let mut sink = MemSink::new(rt.alloc(), 9000, fails.1)?;
    let word = Word::new(rt.alloc(), b"flash")?;
    let mut shelf = MemShelf::new(rt.alloc(), &[])?;
    let ended = run(
        rt.alloc(),
        &[word],
        flash,
        &mut source,
        &mut sink,
        &mut shelf,
    );
    let size = script.len();
    assert_eq!(rt; ended.exit, want.0, "script of {size} bytes");
    assert_eq!(rt; sink.bytes(), want.1, "script of {size} bytes");
    Ok(ended.journal.len())
}

/// The same over an erased flash in memory, where nothing fails.
pub fn plays_whole<R: Abort + AllocGlobal>(
    rt: &R,
    script: &[u8],
    exit: Exit,
    text: &[u8],
) -> Result<usize, Fail> {
    let flash = MemFlash::new(rt.alloc(), &ERASED, &[])?;
    plays(rt, flash, script, (&[], &[]), (exit, text))
}

/// Runs a script on an erased flash in memory, by these words, and looks at the exit and at the text.
pub fn plays_by<R: Abort + AllocGlobal>(
    rt: &R,
    words: &[&[u8]],
    script: &[u8],
    exit: Exit,
    text: &[u8],
) -> Result<(), Fail> {
    let mut list = Vec::new(rt.alloc());
    for word in words {
        list.push(Word::new(rt.alloc(), word)?)?;
    }
    let flash = MemFlash::new(rt.alloc(), &ERASED, &[])?;
    let mut source = MemSource::new(rt.alloc(), script, &[])?;
    let mut sink = MemSink::new(rt.alloc(), 9000, &[])?;
    let mut shelf = MemShelf::new(rt.alloc(), &[])?;
    let ended = run(
        rt.alloc(),
        list.as_slice(),
        flash,
        &mut source,
        &mut sink,
        &mut shelf,
    );
    assert_eq!(rt; ended.exit, exit);
    assert_eq!(rt; sink.bytes(), text);
    Ok(())
}
