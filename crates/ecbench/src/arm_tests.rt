// Cuts and events that are armed, and what `trace` counts, in whole runs.
ghost use Rattle.std.specs.Prelude.{◌≤◌, ◌+◌};

use crate::run::{Exit, run};
use crate::testing::{ERASED, plays_by, plays_whole};
use bench_io::{MemSink, MemSource};
use bench_shelf::MemShelf;
use bench_words::Word;
use flash_dev::MemFlash;
use std::process::Abort;
use std::test::Fail;

#[test]
fn a_cut_tears_the_stored_protection(rt: HostRuntime) -> Result<(), Fail> {
    let script = b"cut 2 5053543141000000\nflashprotect enable\npower on\nflashprotect".as_slice();
    let text =
        b"ok\nEC has no power\nok\nflags 0x0000004f valid 0x0000006f writable 0x00000000\n".as_slice();
    let _entries = plays_whole(&rt, script, Exit::Done, text)?;
    let script = b"cut 2 50535430\nflashprotect enable\npower on\nflashprotect".as_slice();
    let text =
        b"ok\nEC has no power\nok\nflags 0x00000008 valid 0x0000006f writable 0x00000041\n".as_slice();
    let _entries = plays_whole(&rt, script, Exit::Done, text)?;
    let script =
        b"flashprotect enable\ncut 1 40000000\nflashprotect bits 0x40 0x40\npower on\nflashprotect".as_slice();
    let text =
        b"flags 0x00000009 valid 0x0000006f writable 0x00000047\nok\nEC has no power\nok\nflags 0x0000000b valid 0x0000006f writable 0x00000004\n".as_slice();
    let _entries = plays_whole(&rt, script, Exit::Done, text)?;
    let script =
        b"flashprotect enable\ncut 2 00000000\nflashprotect bits 0x40 0x40\npower on\nflashprotect".as_slice();
    let text =
        b"flags 0x00000009 valid 0x0000006f writable 0x00000047\nok\nEC has no power\nok\nflags 0x0000004f valid 0x0000006f writable 0x00000000\n".as_slice();
    let _entries = plays_whole(&rt, script, Exit::Done, text)?;
    Ok(())
}

#[test]
fn a_cut_falls_before_its_operation(rt: HostRuntime) -> Result<(), Fail> {
    let script = b"cut 1\nflashwrite 0x8000 00000000\npower on\nflashread 0x8000 4".as_slice();
    let text = b"ok\nEC has no power\nok\nffffffff\n".as_slice();
    let _entries = plays_whole(&rt, script, Exit::Done, text)?;
    let script = b"cut 1\ncut 0\nflashwrite 0x8000 00000000".as_slice();
    let _entries = plays_whole(&rt, script, Exit::Done, b"ok\nok\nwrote 4 bytes\n")?;
    Ok(())
}

#[test]
fn armed_events_fall_before_their_calls(rt: HostRuntime) -> Result<(), Fail> {
    let script = b"at 1 power off\nhello\npower on\nhello".as_slice();
    let text = b"ok\nEC has no power\nok\nEC says hello!\n".as_slice();
    let _entries = plays_whole(&rt, script, Exit::Done, text)?;
    let script = b"at 1 pin off\nflashprotect".as_slice();
    let text = b"ok\nflags 0x00000000 valid 0x0000006f writable 0x00000041\n".as_slice();
    let _entries = plays_whole(&rt, script, Exit::Done, text)?;
    let script = b"at 2 byte 0x5a\nin 0x200 3\nin 0x200 1".as_slice();
    let _entries = plays_whole(&rt, script, Exit::Done, b"ok\n005aff\n00\n")?;
    let script = b"at 1 byte 0x5a\ntick 1\nin 0x200 1".as_slice();
    let _entries = plays_whole(&rt, script, Exit::Done, b"ok\nok\n00\n")?;
    Ok(())
}

#[test]
fn due_events_fall_in_the_order_of_arming(rt: HostRuntime) -> Result<(), Fail> {
    let script = b"at 1 power off\nat 1 power on\nhello".as_slice();
    let _entries = plays_whole(&rt, script, Exit::Done, b"ok\nok\nEC says hello!\n")?;
    let script = b"at 1 power on\nat 1 power off\nhello".as_slice();
    let _entries = plays_whole(&rt, script, Exit::Done, b"ok\nok\nEC has no power\n")?;
    Ok(())
}

#[test]
fn behind_a_changed_byte_a_command_is_tried_again(rt: HostRuntime) -> Result<(), Fail> {
    plays_by(
        &rt,
        &[b"f", b"--bus", b"spi"],
        b"at 16 byte 0xfa\nhello\nat 52 byte 0xfa\ntest 0 1 00\nhello",
        Exit::Done,
        b"ok\nEC says hello!\nok\nEC did not answer\nEC says hello!\n",
    )
}

#[test]
fn only_64_events_are_armed(rt: HostRuntime) -> Result<(), Fail> {
    let mut script = Vec::new(rt.alloc());
    let mut text = Vec::new(rt.alloc());
    for _ in 0..64u8 {
        script.extend_from_slice(b"at 9 reset pin\n")?;
        text.extend_from_slice(b"ok\n")?;
    }
    script.extend_from_slice(b"at 9 reset pin\n")?;
    text.extend_from_slice(b"too many armed events\n")?;
    let _entries = plays_whole(&rt, script.as_slice(), Exit::Done, text.as_slice())?;
    Ok(())
}

#[test]
fn trace_counts_the_line_before(rt: HostRuntime) -> Result<(), Fail> {
    let script = b"trace\nhello\n# nothing\n\ntrace\ntrace\nreset pin\ntrace".as_slice();
    let text =
        b"trace: 0 accesses, 0 ticks, 1 world events\nEC says hello!\ntrace: 28 accesses, 1 ticks, 0 world events\ntrace: 0 accesses, 0 ticks, 0 world events\nok\ntrace: 0 accesses, 0 ticks, 1 world events\n".as_slice();
    let _entries = plays_whole(&rt, script, Exit::Done, text)?;
    let script = b"at 2 pin off\ntick 3\ntrace".as_slice();
    let text = b"ok\nok\ntrace: 0 accesses, 3 ticks, 1 world events\n".as_slice();
    let _entries = plays_whole(&rt, script, Exit::Done, text)?;
    Ok(())
}

// What a cut in one of these operations tells: storing the bits takes 4 of them, writing 72 bytes takes 2, and erasing two
// blocks takes 2.
const CHANGES: &[u8] =
    b"\nflashprotect enable\nflashwrite 0x8000 000000000000000000000000000000000000000000000000000000000000000000000000000000000000000000000000000000000000000000000000000000000000000000000000\nout 0x800 03321300000008000090000000200000\nout 0x204 da\ntick 3\n";

// Where one of these operations begins, and how many bytes it changes.
fn place(operation: u8) -> (usize, usize)
    ensures inside { result.0 + result.1 ≤ 65536 }
{
    match operation {
        1 => (0x7000, 4096),
        2 => (0x7000, 8),
        3 => (0x7008, 4),
        4 => (0x700C, 4),
        5 => (0x8000, 64),
        6 => (0x8040, 8),
        7 => (0x9000, 4096),
        _ => (0xA000, 4096),
    }
}

// What one of these operations leaves in its range.
fn change(operation: u8, part: &mut [u8]) {
    match operation {
        2 => copy(part, b"PST2\0\0\0\0"),
        3 => copy(part, &[1, 0, 0, 0]),
        4 | 5 | 6 => part.fill(0),
        _ => part.fill(0xFF),
    }
}

// Copies as many bytes as fit.
fn copy(part: &mut [u8], bytes: &[u8]) {
    let count = part.len().min(bytes.len());
    part[..count].copy_from_slice(&bytes[..count]);
}

// Carries one of these operations out.
fn carry_out<R: Abort>(rt: &R, operation: u8, flash: &mut [u8]) {
    assert!(rt; flash.len() >= 65536);
    let (at, size) = place(operation);
    change(operation, &mut flash[at..at + size]);
}

// Leaves these bytes at the front of its range.
fn tear<R: Abort>(rt: &R, operation: u8, flash: &mut [u8], torn: &[u8]) {
    assert!(rt; flash.len() >= 65536);
    let (at, size) = place(operation);
    copy(&mut flash[at..at + size], torn);
}

// Cuts the power in one of these operations, and looks at the flash.
fn cuts<R: Abort + AllocGlobal>(
    rt: &R,
    operation: u8,
    line: &[u8],
    torn: &[u8],
) -> Result<(), Fail> {
    let mut flash = Vec::new(rt.alloc());
    flash.extend_from_slice(&ERASED)?;
    assert_eq!(rt; flash.len(), 65536);
    flash.as_mut_slice()[0x9000..0xB000].fill(0x5A);
    let held = MemFlash::new(rt.alloc(), flash.as_slice(), &[])?;
    for done in 1..operation {
        carry_out(rt, done, flash.as_mut_slice());
    }
    tear(rt, operation, flash.as_mut_slice(), torn);
    let mut script = Vec::new(rt.alloc());
    script.extend_from_slice(line)?;
    script.extend_from_slice(CHANGES)?;
    let mut source = MemSource::new(rt.alloc(), script.as_slice(), &[])?;
    let mut sink = MemSink::new(rt.alloc(), 9000, &[])?;
    let word = Word::new(rt.alloc(), b"flash")?;
    let mut shelf = MemShelf::new(rt.alloc(), &[])?;
    let ended = run(
        rt.alloc(),
        &[word],
        held,
        &mut source,
        &mut sink,
        &mut shelf,
    );
    assert_eq!(rt; ended.exit, Exit::Done);
    assert_eq!(rt;
        ended.flash.bytes() == flash.as_slice(),
        true,
        "operation {operation}"
    );
    Ok(())
}

#[test]
fn a_cut_falls_in_each_operation(rt: HostRuntime) -> Result<(), Fail> {
    cuts(&rt, 1, b"cut 1", b"")?;
    cuts(&rt, 1, b"cut 1 a5a5", &[0xA5, 0xA5])?;
    cuts(&rt, 2, b"cut 2", b"")?;
    cuts(&rt, 2, b"cut 2 a5a5", &[0xA5, 0xA5])?;
    cuts(&rt, 3, b"cut 3", b"")?;
    cuts(&rt, 3, b"cut 3 a5a5", &[0xA5, 0xA5])?;
    cuts(&rt, 4, b"cut 4", b"")?;
    cuts(&rt, 4, b"cut 4 a5a5a5a5a5", &[0xA5; 5])?;
    cuts(&rt, 5, b"cut 5", b"")?;
    cuts(&rt, 5, b"cut 5 a5a5", &[0xA5, 0xA5])?;
    cuts(&rt, 6, b"cut 6", b"")?;
    cuts(&rt, 6, b"cut 6 a5a5", &[0xA5, 0xA5])?;
    cuts(&rt, 7, b"cut 7", b"")?;
    cuts(&rt, 7, b"cut 7 a5a5", &[0xA5, 0xA5])?;
    cuts(&rt, 8, b"cut 8", b"")?;
    cuts(&rt, 8, b"cut 8 a5a5", &[0xA5, 0xA5])?;
    Ok(())
}
