// The hash by ticks and the two images, in whole runs: the bytes that are read and printed, which no clause counts.
use crate::run::{Exit, run};
use crate::testing::ERASED;
use bench_io::{MemSink, MemSource};
use bench_shelf::MemShelf;
use bench_words::Word;
use flash_dev::MemFlash;
use std::process::Abort;
use std::test::Fail;

// What `start` is long, and each of the 33 ticks behind it.
const START_LENGTH: usize = 16;

const TICK_LENGTH: usize = 7;

const SCRIPT: &[u8] =
    b"echash start rw\ntick 1\ntick 1\ntick 1\ntick 1\ntick 1\ntick 1\ntick 1\ntick 1\ntick 1\ntick 1\ntick 1\ntick 1\ntick 1\ntick 1\ntick 1\ntick 1\ntick 1\ntick 1\ntick 1\ntick 1\ntick 1\ntick 1\ntick 1\ntick 1\ntick 1\ntick 1\ntick 1\ntick 1\ntick 1\ntick 1\ntick 1\ntick 1\ntick 1\n";

// Plays a script on an erased flash in memory, looks at the text, and gives how many bytes were asked of the flash.
fn fetched_by<R: Abort + AllocGlobal>(
    rt: &R,
    script: &[u8],
    text: Option<&[u8]>,
) -> Result<u64, Fail> {
    let flash = MemFlash::new(rt.alloc(), &ERASED, &[])?;
    let mut source = MemSource::new(rt.alloc(), script, &[])?;
    let mut sink = MemSink::new(rt.alloc(), 9000, &[])?;
    let word = Word::new(rt.alloc(), b"flash")?;
    let mut shelf = MemShelf::new(rt.alloc(), &[])?;
    let ended = run(
        rt.alloc(),
        &[word],
        flash,
        &mut source,
        &mut sink,
        &mut shelf,
    );
    assert_eq!(rt; ended.exit, Exit::Done);
    if let Some(text) = text {
        assert_eq!(rt; sink.bytes(), text);
    }
    Ok(ended.flash.fetched())
}

// The script up to so many ticks.
fn ticking(ticks: u8) -> &'static [u8] {
    &SCRIPT[..(START_LENGTH + TICK_LENGTH * usize::from(ticks)).min(SCRIPT.len())]
}

#[test]
fn each_tick_reads_1024_bytes_of_a_hash(rt: HostRuntime) -> Result<(), Fail> {
    let start = fetched_by(&rt, ticking(0), Some(b"hash busy\n"))?;
    for ticks in [
        1u8, 2, 3, 4, 5, 6, 7, 8, 9, 10, 11, 12, 13, 14, 15, 16, 17, 18, 19, 20, 21, 22, 23, 24,
        25, 26, 27, 28, 29, 30, 31, 32, 33,
    ] {
        let fetched = fetched_by(&rt, ticking(ticks), None)?;
        let hashed = 1024 * u64::from(ticks.min(32));
        assert_eq!(rt; fetched.checked_sub(start), Some(hashed), "{ticks} ticks");
    }
    Ok(())
}

// Two messages of the standard, of two blocks each, and RW's 32,768 erased bytes.
#[test]
fn digests_are_those_of_the_standard(rt: HostRuntime) -> Result<(), Fail> {
    for (script, text) in [
        (
            b"flashwrite 0x8000 6162636462636465636465666465666765666768666768696768696a68696a6b696a6b6c6a6b6c6d6b6c6d6e6c6d6e6f6d6e6f706e6f7071\nechash range 0x8000 56\ntick 1\nechash".as_slice(),
            b"wrote 56 bytes\nhash busy\nok\nhash done offset 32768 size 56 sha256 248d6a61d20638b8e5c026930c3e6039a33ce45964ff2167f6ecedd419db06c1\n".as_slice(),
        ),
        (
            b"flashwrite 0x9000 61626364656667686263646566676869636465666768696a6465666768696a6b65666768696a6b6c666768696a6b6c6d6768696a6b6c6d6e68696a6b6c6d6e6f696a6b6c6d6e6f706a6b6c6d6e6f70716b6c6d6e6f7071726c6d6e6f707172736d6e6f70717273746e6f707172737475\nechash range 0x9000 112\ntick 1\nechash".as_slice(),
            b"wrote 112 bytes\nhash busy\nok\nhash done offset 36864 size 112 sha256 cf5b16a778af8380036ce59e7b0492370b249b11e8f07a51afac45037afee9d1\n".as_slice(),
        ),
        (
            b"tick 31\nechash\ntick 1\nechash".as_slice(),
            b"ok\nhash busy\nok\nhash done offset 32768 size 32768 sha256 2d864c0b789a43214eee8524d3182075125e5ca2cd527f3582ec87ffd94076bc\n".as_slice(),
        ),
    ] {
        fetched_by(&rt, script, Some(text))?;
    }
    Ok(())
}

#[test]
fn each_line_of_the_images_prints_its_text(rt: HostRuntime) -> Result<(), Fail> {
    for (script, text) in [
        (
            b"version\nsysinfo".as_slice(),
            b"RO version:    \nRW version:    \nFirmware copy: RO\nreset flags 0x00000008\ncopy RO\nflags 0x00000004\n".as_slice(),
        ),
        (
            b"echash\nechash abort\nechash\nechash start ro 00\nechash range 0 0".as_slice(),
            b"hash busy\nok\nhash none\nhash busy\nEC result 3 (INVALID_PARAM)\n".as_slice(),
        ),
        (
            b"reboot_ec cancel\nreboot_ec RO\nreboot_ec RW\nreboot_ec disable-jump\nsysinfo".as_slice(),
            b"ok\nok\nEC result 2 (ERROR)\nok\nreset flags 0x00000008\ncopy RO\nflags 0x00000000\n".as_slice(),
        ),
        (
            b"flashwrite 0x8000 0000000000810000763200\nflashwrite 0x8000 000000000081000076320000\nreboot_ec RW\nversion\nsysinfo\nreboot_ec RO".as_slice(),
            b"EC result 3 (INVALID_PARAM)\nwrote 12 bytes\nok\nRO version:    \nRW version:    v2\nFirmware copy: RW\nreset flags 0x00000408\ncopy RW\nflags 0x0000000c\nEC result 2 (ERROR)\n".as_slice(),
        ),
    ] {
        fetched_by(&rt, script, Some(text))?;
    }
    Ok(())
}
