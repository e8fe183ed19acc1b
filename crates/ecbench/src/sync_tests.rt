// Lines that sync, in whole runs: on each bus, with images that do not fit, behind cuts, and where the flash or the shelf
// fails.
use crate::run::{Ended, Exit, run};
use crate::testing::ERASED;
use bench_io::{LineText, MemSink, MemSource};
use bench_shelf::MemShelf;
use bench_words::Word;
use flash_dev::MemFlash;
use std::alloc::{AllocError, Global};
use std::process::Abort;
use std::test::Fail;

const WRITTEN: &[u8] =
    b"sync: done, RW written, sha256 d119778520bee6a9e2675092d100c7d1981da51f179c21833033bb82162a467e\n";

const WRITTEN_AND_KEPT: &[u8] =
    b"sync: done, RW written, sha256 d119778520bee6a9e2675092d100c7d1981da51f179c21833033bb82162a467e\nsync: done, RW kept, sha256 d119778520bee6a9e2675092d100c7d1981da51f179c21833033bb82162a467e\nRO version:    \nRW version:    v2\nFirmware copy: RW\n";

// RO of a flash of 64 KiB that is erased.
const ERASED_RO: [u8; 32_768] = [0xFF; 32_768];

// An image of 1,000 bytes of version `v2`, with its reset vector at this byte of the flash.
fn image(vector: u32) -> [u8; 1000] {
    let mut bytes = [0x5A; 1000];
    bytes[..40].fill(0);
    bytes[4..8].copy_from_slice(&vector.to_le_bytes());
    bytes[8..10].copy_from_slice(b"v2");
    bytes
}

// Runs a script on this flash, by these words, with these images on the shelf, and looks at the exit and at the text.
fn syncs<R: Abort + AllocGlobal>(
    rt: &R,
    words: &[&[u8]],
    flash: MemFlash,
    images: &[(&[u8], &[u8])],
    script: &[u8],
    want: (Exit, &[u8]),
) -> Result<Ended<MemFlash>, Fail> {
    let mut list = Vec::new(rt.alloc());
    for word in words {
        list.push(Word::new(rt.alloc(), word)?)?;
    }
    let mut shelf = MemShelf::new(rt.alloc(), &[])?;
    for (name, bytes) in images {
        shelf.add(rt.alloc(), name, bytes)?;
    }
    let mut source = MemSource::new(rt.alloc(), script, &[])?;
    let mut sink = MemSink::new(rt.alloc(), 9000, &[])?;
    let ended = run(
        rt.alloc(),
        list.as_slice(),
        flash,
        &mut source,
        &mut sink,
        &mut shelf,
    );
    assert_eq!(rt; ended.exit, want.0);
    assert_eq!(rt; sink.bytes(), want.1);
    Ok(ended)
}

// An erased flash of 64 KiB, of which these calls fail.
fn erased(alloc: Global, fail: &[u32]) -> Result<MemFlash, AllocError> {
    MemFlash::new(alloc, &ERASED, fail)
}

#[test]
fn an_image_is_written_and_then_kept(rt: HostRuntime) -> Result<(), Fail> {
    for bus in [b"lpc".as_slice(), b"i2c", b"spi"] {
        let _ended = syncs(
            &rt,
            &[b"f", b"--bus", bus],
            erased(rt.alloc(), &[])?,
            &[(b"ec.bin", &image(0x8100))],
            b"sync ec.bin\nsync ec.bin\nversion",
            (Exit::Done, WRITTEN_AND_KEPT),
        )?;
    }
    Ok(())
}

#[test]
fn an_image_that_does_not_fit_leaves_the_flash(rt: HostRuntime) -> Result<(), Fail> {
    let fitting = image(0x8100);
    let outside = image(0x100);
    let long = [0xFF; 32_769];
    for (bytes, text) in [
        (&fitting[..7], b"sync: image too short\n".as_slice()),
        (long.as_slice(), b"sync: image too long\n"),
        (outside.as_slice(), b"sync: image vector outside RW\n"),
    ] {
        let ended = syncs(
            &rt,
            &[b"f"],
            erased(rt.alloc(), &[])?,
            &[(b"a", bytes)],
            b"sync a",
            (Exit::Done, text),
        )?;
        assert!(rt; ended.flash.bytes() == ERASED.as_slice());
    }
    Ok(())
}

#[test]
fn an_image_too_long_for_the_shelf_uses_no_bus(rt: HostRuntime) -> Result<(), Fail> {
    let bytes = vec![in rt.alloc(); 0xFF; 2_097_153]?;
    let text = b"sync: image too long\ntrace: 0 accesses, 0 ticks, 0 world events\n".as_slice();
    let _ended = syncs(
        &rt,
        &[b"f"],
        erased(rt.alloc(), &[])?,
        &[(b"a", bytes.as_slice())],
        b"sync a\ntrace",
        (Exit::Done, text),
    )?;
    Ok(())
}

#[test]
fn a_missing_image_ends_the_run(rt: HostRuntime) -> Result<(), Fail> {
    let ended = syncs(
        &rt,
        &[b"f"],
        erased(rt.alloc(), &[])?,
        &[(b"a", &image(0x8100))],
        b"pin on\nsync b\nhello",
        (Exit::ShelfFault, b"ok\n"),
    )?;
    assert_eq!(rt; ended.journal.len(), 4);
    Ok(())
}

#[test]
fn a_sync_is_done_behind_a_cut_in_any_operation(rt: HostRuntime) -> Result<(), Fail> {
    let mut text = Vec::new(rt.alloc());
    text.extend_from_slice(b"ok\nsync: no power\nok\n")?;
    text.extend_from_slice(WRITTEN)?;
    for operation in 1..25u32 {
        let mut script = LineText::new();
        script.append_number(b"cut ", operation);
        script.append(b" a5a5\nsync ec.bin\npower on\nsync ec.bin");
        let ended = syncs(
            &rt,
            &[b"f"],
            erased(rt.alloc(), &[])?,
            &[(b"ec.bin", &image(0x8100))],
            script.as_bytes(),
            (Exit::Done, text.as_slice()),
        )?;
        assert!(rt; ended.flash.bytes().starts_with(&ERASED_RO));
    }
    Ok(())
}

#[test]
fn a_sync_is_done_behind_a_fault_of_the_flash(rt: HostRuntime) -> Result<(), Fail> {
    for call in 1..400u32 {
        let _ended = syncs(
            &rt,
            &[b"f"],
            erased(rt.alloc(), &[call])?,
            &[(b"ec.bin", &image(0x8100))],
            b"sync ec.bin",
            (Exit::Done, WRITTEN),
        )?;
    }
    Ok(())
}

#[test]
fn a_flash_that_fails_disturbs_each_round(rt: HostRuntime) -> Result<(), Fail> {
    let mut calls = Vec::new(rt.alloc());
    for call in 2..2001u32 {
        calls.push(call)?;
    }
    let _ended = syncs(
        &rt,
        &[b"f"],
        erased(rt.alloc(), calls.as_slice())?,
        &[(b"ec.bin", &image(0x8100))],
        b"sync ec.bin",
        (Exit::Done, b"sync: disturbed\n"),
    )?;
    Ok(())
}
