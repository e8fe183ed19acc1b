// What no clause says: that memory suffices where there is enough, and the bytes that are printed and sent.
ghost use Rattle.std.specs.Prelude.{None};
ghost use Rattle.flash_dev.specs.Told.{untold_is_whole};

use crate::run::{Exit, run};
use crate::telling::{FaultyLine, FaultyWords, fault_of};
use crate::testing::{ERASED, plays, plays_whole, store};
use bench_io::{MemSink, MemSource};
use bench_shelf::MemShelf;
use bench_words::Word;
use ec_model::{Access, Entry, Event};
use ec_types::Why;
use flash_dev::{DevErr, Failed, FlashDev, MemFlash, Tear};
use std::process::Abort;
use std::test::Fail;

const GREETING: &[u8] = b"EC says hello!\n";

/// A flash of 64 KiB that is erased, and loses its power at each program and each erase. It tells no bytes.
#[derive(Drop)]
struct Dying {
    cuts: u64,
    fetched: u64,
}

impl FlashDev for Dying {
    ghost seen = { λ flash. record {
      held = None;
      extent = 65536;
      faults = 0;
      cuts = flash.cuts;
      own_cuts = flash.cuts;
      refusals = flash.cuts;
      begun = flash.cuts;
      armed = None;
      wear = 0;
      fetched = flash.fetched;
    } };

    fn size(&self) -> u32 {
        65536
    }

    fn read(&mut self, _at: u32, out: &mut [u8]) -> Result<(), Failed> {
        self.fetched = self.fetched.saturating_add(out.len() as u64);
        out.fill(0xFF);
        Ok(())
    }

    fn program(&mut self, _at: u32, _bytes: &[u8]) -> Result<(), DevErr> {
        self.cuts = self.cuts.saturating_add(1);
        Err(DevErr::PowerLost)
    }

    fn erase(&mut self, _block: u32) -> Result<(), DevErr> {
        self.cuts = self.cuts.saturating_add(1);
        Err(DevErr::PowerLost)
    }

    ghost told_whole = { λ flash bytes same. untold_is_whole 65536 bytes same };
}

impl Tear for Dying {
    fn poke(&mut self, _at: u32, _bytes: &[u8]) -> Result<(), Failed> {
        Ok(())
    }
}

#[test]
fn each_line_prints_its_text(rt: HostRuntime) -> Result<(), Fail> {
    for (script, text) in [
        (b"hello\n".as_slice(), GREETING),
        (b"hello".as_slice(), GREETING),
        (b" hello \r\n".as_slice(), GREETING),
        (b"# hello\n\n  \n#\r\nhello".as_slice(), GREETING),
        (b"flashread 0x8000 0".as_slice(), b"\n".as_slice()),
        (
            b"power off\nhello\npin off\nreset pin\npower on\nhello".as_slice(),
            b"ok\nEC has no power\nok\nok\nok\nEC says hello!\n".as_slice(),
        ),
        (
            b"flashprotect enable\nflashwrite 0x7ffc 00000000\nreset pin\nflashprotect\nflashwrite 0x7ffc 00000000".as_slice(),
            b"flags 0x00000009 valid 0x0000006f writable 0x00000047\nwrote 4 bytes\nok\nflags 0x0000000b valid 0x0000006f writable 0x00000004\nEC result 4 (ACCESS_DENIED)\n".as_slice(),
        ),
        (
            b"flashprotect enable\nflashprotect now\nflashwrite 0x8000 00000000".as_slice(),
            b"flags 0x00000009 valid 0x0000006f writable 0x00000047\nflags 0x0000000f valid 0x0000006f writable 0x00000000\nEC result 4 (ACCESS_DENIED)\n".as_slice(),
        ),
        (
            b"reset watchdog\nflashread 0x8000 2".as_slice(),
            b"ok\nffff\n".as_slice(),
        ),
        (
            b"chipinfo\nregioninfo active\ntest 5 4 00".as_slice(),
            b"vendor bench name ecbench revision 1\noffset 32768 size 32768\nEC result 5 (INVALID_RESPONSE)\n".as_slice(),
        ),
        (
            b"flashread 0xfffffffc 8".as_slice(),
            b"EC result 3 (INVALID_PARAM)\n".as_slice(),
        ),
        (
            b"flashwrite 0x8000 f0f0f0f0\nflashwrite 0x8000 3C3C3C3C\nflashread 0x8000 4\n".as_slice(),
            b"wrote 4 bytes\nwrote 4 bytes\n30303030\n".as_slice(),
        ),
        (
            b"flashwrite 0x0 00000000".as_slice(),
            b"EC result 4 (ACCESS_DENIED)\n".as_slice(),
        ),
        (
            b"flashwrite 0x8002 00000000".as_slice(),
            b"EC result 3 (INVALID_PARAM)\n".as_slice(),
        ),
    ] {
        let _entries = plays_whole(&rt, script, Exit::Done, text)?;
    }
    for script in [b"".as_slice(), b"# nothing\n\n  ".as_slice()] {
        let entries = plays_whole(&rt, script, Exit::Done, b"")?;
        assert_eq!(rt; entries, 1);
    }
    Ok(())
}

#[test]
fn a_long_read_is_put_together(rt: HostRuntime) -> Result<(), Fail> {
    // The second read begins 248 bytes behind the first one.
    let script = b"flashwrite 0x80f4 0102030405060708\nflashread 0x8000 600".as_slice();
    let mut text = Vec::new(rt.alloc());
    text.extend_from_slice(b"wrote 8 bytes\n")?;
    text.extend_from_slice(&[b'f'; 488])?;
    text.extend_from_slice(b"0102030405060708")?;
    text.extend_from_slice(&[b'f'; 696])?;
    text.push(b'\n')?;
    let _entries = plays_whole(&rt, script, Exit::Done, text.as_slice())?;
    Ok(())
}

#[test]
fn bus_lines_reach_the_bus(rt: HostRuntime) -> Result<(), Fail> {
    // A block is erased, while GET_COMMS_STATUS is put by hand and TEST_PROTOCOL is refused; eight are, for which HELLO waits; HELLO is
    // put by hand; and ports that nothing answers.
    for (script, text) in [
        (
            b"flashwrite 0x8000 00000000\nout 0x800 03521300000008000080000000100000\nout 0x204 da\ntick 1\nout 0x800 03f4090000000000\nout 0x204 da\ntick 1\nin 0x800 12\ntest 0 1 00\ntick 1\nout 0x800 03f4090000000000\nout 0x204 da\ntick 1\nin 0x800 12\nflashread 0x8000 4".as_slice(),
            b"wrote 4 bytes\nok\nok\nok\nok\nok\nok\n03f800000400000001000000\nEC result 16 (BUSY)\nok\nok\nok\nok\n03f900000400000000000000\nffffffff\n".as_slice(),
        ),
        (
            b"out 0x800 03e21300000008000080000000800000\nout 0x204 da\ntick 1\nin 0x200 1\nhello\ntrace\nresend\nresend\nflashread 0x8000 4".as_slice(),
            b"ok\nok\nok\n08\nEC says hello!\ntrace: 244 accesses, 18 ticks, 0 world events\nok\nEC result 9 (UNAVAILABLE)\nffffffff\n".as_slice(),
        ),
        (
            b"out 0x800 03fc010000000400ffffffff\nout 0x204 DA\ntick 1\nin 0x800 12".as_slice(),
            b"ok\nok\nok\n03f000000400000003030201\n".as_slice(),
        ),
        (
            b"out 65535 00\nin 0xfffe 2\npower off\ntick 3\nin 0x204 1\nout 0x204 da\npower on\nhello".as_slice(),
            b"ok\nffff\nok\nok\nff\nok\nok\nEC says hello!\n".as_slice(),
        ),
        (
            b"i2cw da03\ni2cr 3\nspi select\nspi 0300\nspi deselect\nhello".as_slice(),
            b"ok\nffffff\nok\nffff\nok\nEC says hello!\n".as_slice(),
        ),
    ] {
        let _entries = plays_whole(&rt, script, Exit::Done, text)?;
    }
    // The power-on, the mark and each wait.
    let entries = plays_whole(&rt, b"tick 100000", Exit::Done, b"ok\n")?;
    assert_eq!(rt; entries, 100_002);
    Ok(())
}

#[test]
fn a_faulty_line_ends_the_script(rt: HostRuntime) -> Result<(), Fail> {
    for (script, line, why, text) in [
        (b"hello\nhelo\nhello".as_slice(), 2, Why::Word, GREETING),
        (b"hello now".as_slice(), 1, Why::Count, b"".as_slice()),
        (
            b"\n\nflashread 0 4097\n".as_slice(),
            3,
            Why::Number,
            b"".as_slice(),
        ),
        (
            b"#\nflashwrite 0 012\n".as_slice(),
            2,
            Why::Hex,
            b"".as_slice(),
        ),
        (b"hello\n# \t".as_slice(), 2, Why::Ascii, GREETING),
        (b"tick 0".as_slice(), 1, Why::Number, b"".as_slice()),
        ([b'a'; 16_385].as_slice(), 1, Why::TooLong, b"".as_slice()),
    ] {
        let _entries = plays_whole(&rt, script, Exit::BadLine { line, why }, text)?;
    }
    Ok(())
}

#[test]
fn a_script_of_too_many_bytes_ends_behind_its_lines(rt: HostRuntime) -> Result<(), Fail> {
    let script = vec![in rt.alloc(); b'\n'; 16_777_217]?;
    let entries = plays_whole(&rt, script.as_slice(), Exit::ScriptTooLong, b"")?;
    assert_eq!(rt; entries, 1);
    Ok(())
}

#[test]
fn what_fails_is_told(rt: HostRuntime) -> Result<(), Fail> {
    for (source, sink, exit, text) in [
        (
            [1].as_slice(),
            [].as_slice(),
            Exit::SourceFault,
            b"".as_slice(),
        ),
        ([2].as_slice(), [].as_slice(), Exit::SourceFault, GREETING),
        (
            [].as_slice(),
            [1].as_slice(),
            Exit::SinkFault,
            b"".as_slice(),
        ),
        ([].as_slice(), [2].as_slice(), Exit::SinkFault, GREETING),
    ] {
        let flash = MemFlash::new(rt.alloc(), &ERASED, &[])?;
        let _entries = plays(&rt, flash, b"hello\nhello", (source, sink), (exit, text))?;
    }
    Ok(())
}

#[test]
fn stored_bits_of_version_1_are_read_and_migrated(rt: HostRuntime) -> Result<(), Fail> {
    let mut bytes = ERASED;
    store(&rt, &mut bytes, b"PST1\x01\0\0\0");
    let flash = MemFlash::new(rt.alloc(), &bytes, &[])?;
    let script =
        b"flashprotect\npin off\nreset pin\nflashprotect disable\nflashread 0x7000 16".as_slice();
    let text =
        b"flags 0x0000000b valid 0x0000006f writable 0x00000004\nok\nok\nflags 0x00000000 valid 0x0000006f writable 0x00000041\n50535432000000000000000000000000\n".as_slice();
    let _entries = plays(&rt, flash, script, (&[], &[]), (Exit::Done, text))?;
    Ok(())
}

#[test]
fn a_failing_flash_is_told_by_the_controller(rt: HostRuntime) -> Result<(), Fail> {
    let script = b"flashwrite 0x8000 00000000\nhello".as_slice();
    let flash = MemFlash::new(rt.alloc(), &ERASED, &[2])?;
    let failed = (
        Exit::Done,
        b"EC result 2 (ERROR)\nEC says hello!\n".as_slice(),
    );
    let _entries = plays(&rt, flash, script, (&[], &[]), failed)?;
    let unread = MemFlash::new(rt.alloc(), &ERASED, &[1])?;
    let locked = (
        Exit::Done,
        b"flags 0x0000002a valid 0x0000006f writable 0x00000000\n".as_slice(),
    );
    let _entries = plays(&rt, unread, b"flashprotect", (&[], &[]), locked)?;
    let dying = Dying {
        cuts: 0,
        fetched: 0,
    };
    let lost = (Exit::Done, b"EC has no power\nEC has no power\n".as_slice());
    let _entries = plays(&rt, dying, script, (&[], &[]), lost)?;
    Ok(())
}

#[test]
fn an_erase_that_does_not_end_is_told(rt: HostRuntime) -> Result<(), Fail> {
    // An erase of two blocks, the second of which fails.
    let script =
        b"out 0x800 03421300000008000080000000200000\nout 0x204 da\ntick 3\nresend\nresend\nhello";
    let flash = MemFlash::new(rt.alloc(), &ERASED, &[3])?;
    let failed = (
        Exit::Done,
        b"ok\nok\nok\nEC result 2 (ERROR)\nEC result 9 (UNAVAILABLE)\nEC says hello!\n".as_slice(),
    );
    let _entries = plays(&rt, flash, script, (&[], &[]), failed)?;
    // The same, with the power lost at its first block: the power-on does not go on with it.
    let script =
        b"out 0x800 03421300000008000080000000200000\nout 0x204 da\ntick 2\nhello\npower on\nhello\nresend";
    let dying = Dying {
        cuts: 0,
        fetched: 0,
    };
    let lost = (
        Exit::Done,
        b"ok\nok\nok\nEC has no power\nok\nEC says hello!\nEC result 9 (UNAVAILABLE)\n".as_slice(),
    );
    let _entries = plays(&rt, dying, script, (&[], &[]), lost)?;
    Ok(())
}

// A run with this word on this flash is refused before the script is read.
fn refuses<R: Abort + AllocGlobal>(
    rt: &R,
    word: &[u8],
    flash: MemFlash,
    exit: Exit,
) -> Result<(), Fail> {
    let mut source = MemSource::new(rt.alloc(), b"hello", &[])?;
    let mut sink = MemSink::new(rt.alloc(), 100, &[])?;
    let word = Word::new(rt.alloc(), word)?;
    let mut shelf = MemShelf::new(rt.alloc(), &[])?;
    let ended = run(
        rt.alloc(),
        &[word],
        flash,
        &mut source,
        &mut sink,
        &mut shelf,
    );
    assert_eq!(rt; ended.exit, exit);
    assert_eq!(rt; source.taken(), 0);
    Ok(())
}

#[test]
fn a_run_that_does_not_begin_is_refused(rt: HostRuntime) -> Result<(), Fail> {
    let odd = MemFlash::new(rt.alloc(), &[0xFF; 65535], &[])?;
    refuses(&rt, b"flash", odd, Exit::BadFlash)?;
    let flash = MemFlash::new(rt.alloc(), &ERASED, &[])?;
    refuses(&rt, b"-f", flash, Exit::BadWords)?;
    Ok(())
}

#[test]
fn the_packets_are_on_the_bus(rt: HostRuntime) -> Result<(), Fail> {
    let flash = MemFlash::new(rt.alloc(), &ERASED, &[])?;
    let mut source = MemSource::new(rt.alloc(), b"hello\n", &[])?;
    let mut sink = MemSink::new(rt.alloc(), 100, &[])?;
    let word = Word::new(rt.alloc(), b"flash")?;
    let mut shelf = MemShelf::new(rt.alloc(), &[])?;
    let ended = run(
        rt.alloc(),
        &[word],
        flash,
        &mut source,
        &mut sink,
        &mut shelf,
    );
    let mut request = Vec::new(rt.alloc());
    let mut response = Vec::new(rt.alloc());
    for i in 0..ended.journal.len() {
        if let Entry::Step { event, answer, .. } = ended.journal.get(i) {
            match event {
                Event::Access {
                    a: Access::PortOut { port, byte },
                } if port >= 0x800 => request.push(byte)?,
                Event::Access {
                    a: Access::PortIn { port },
                } if port >= 0x800 => response.push(answer)?,
                _ => {}
            }
        }
    }
    let asked = [3, 0x18, 1, 0, 0, 0, 4, 0, 0xD0, 0xC0, 0xB0, 0xA0];
    let said = [3, 0x0F, 0, 0, 4, 0, 0, 0, 0xD4, 0xC3, 0xB2, 0xA1];
    assert_eq!(rt; request.as_slice(), asked.as_slice());
    assert_eq!(rt; response.as_slice(), said.as_slice());
    Ok(())
}

// What is told of a line that has a fault.
fn told<R: Abort + AllocGlobal>(rt: &R, line: &[u8]) -> Result<String, Fail> {
    let fault = fault_of(line).ok_or("the line has a fault")?;
    let faulty = FaultyLine {
        number: 2,
        line,
        fault,
    };
    Ok(format!(in rt.alloc(); "{faulty}")?)
}

#[test]
fn the_place_of_a_fault_is_told(rt: HostRuntime) -> Result<(), Fail> {
    for (line, want) in [
        (
            b"flashread  0x8000 5000".as_slice(),
            "line 2, word 3: `5000` is not a number from 0 to 4096",
        ),
        (b" pin up", "line 2, word 2: `up` is not on or off"),
        (b"tick\t1", "line 2, byte 5: 0x09 is not printable ASCII"),
        (
            b" flashread  0 ",
            "line 2: `flashread` has 1 words behind it, not 2",
        ),
        (
            [b' '; 16_385].as_slice(),
            "line 2: the line has more than 16384 bytes",
        ),
    ] {
        assert_eq!(rt; told(&rt, line)?.as_str(), want);
    }
    Ok(())
}

#[test]
fn the_word_of_the_command_line_at_fault_is_told(rt: HostRuntime) -> Result<(), Fail> {
    let option = [Word::new(rt.alloc(), b"-f")?];
    let faulty = FaultyWords { words: &option };
    assert_eq!(rt;
        format!(in rt.alloc(); "{faulty}")?.as_str(),
        "word 1: `-f` is not a flash file, whose path is UTF-8 and does not begin with a hyphen"
    );
    Ok(())
}
