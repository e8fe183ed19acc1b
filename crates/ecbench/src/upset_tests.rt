// Changed bytes, resets, lost power and cuts in the calls and operations of lines, on each bus, in whole runs.
use crate::run::{Exit, run};
use crate::testing::ERASED;
use bench_io::{LineText, MemSink, MemSource};
use bench_shelf::MemShelf;
use bench_words::Word;
use flash_dev::MemFlash;
use std::alloc::Global;
use std::process::Abort;
use std::test::Fail;

// A bus: its word; the calls of a send around the bytes of its two packets, and whether the last of them reads no byte;
// the bytes of a full part of a write; and the operations of a write of two full parts and of 8 bytes.
struct Bus {
    word: &'static [u8],
    around: u32,
    closes: bool,
    part: u32,
    pieces: &'static [u32],
}

const BUSES: [Bus; 3] = [
    Bus {
        word: b"lpc",
        around: 5,
        closes: false,
        part: 240,
        pieces: &[64, 64, 64, 48, 64, 64, 64, 48, 8],
    },
    Bus {
        word: b"i2c",
        around: 6,
        closes: true,
        part: 112,
        pieces: &[64, 48, 64, 48, 8],
    },
    Bus {
        word: b"spi",
        around: 5,
        closes: true,
        part: 528,
        pieces: &[
            64, 64, 64, 64, 64, 64, 64, 64, 16, 64, 64, 64, 64, 64, 64, 64, 64, 16, 8,
        ],
    },
];

// What another try mends: a byte is changed, or the controller is reset.
const UPSETS: [&[u8]; 5] = [
    b"byte 0",
    b"byte 90",
    b"byte 255",
    b"reset pin",
    b"reset watchdog",
];

impl Bus {
    // The calls of a send, by the bytes of the two bodies.
    fn send(&self, request: u32, reply: u32) -> u32 {
        request
            .wrapping_add(reply)
            .wrapping_add(16)
            .wrapping_add(self.around)
    }

    // The call of a send at which its request is served.
    fn served(&self, request: u32) -> u32 {
        request.wrapping_add(11)
    }

    // What a line prints whose power is lost before this one of so many calls.
    fn without_power(&self, call: u32, calls: u32, success: &'static [u8]) -> &'static [u8] {
        if self.closes && call == calls {
            success
        } else {
            b"EC has no power"
        }
    }

    // How many bytes of a write of two full parts and of 8 bytes are there where the power is lost before this call.
    fn written(&self, call: u32) -> u32 {
        let request = self.part.wrapping_add(8);
        let send = self.send(request, 0);
        let two = send.wrapping_add(send);
        if call <= self.served(request) {
            0
        } else if call <= send.wrapping_add(self.served(request)) {
            self.part
        } else if call <= two.wrapping_add(self.served(16)) {
            self.part.wrapping_add(self.part)
        } else {
            self.part.wrapping_add(self.part).wrapping_add(8)
        }
    }
}

// A script, and what it prints.
#[derive(Drop)]
struct Play {
    script: Vec<u8>,
    text: Vec<u8>,
}

impl Play {
    // A line, and its text.
    fn line(&mut self, line: &[u8], text: &[u8]) -> Result<(), Fail> {
        self.script.extend_from_slice(line)?;
        self.script.extend_from_slice(b"\n")?;
        self.text.extend_from_slice(text)?;
        self.text.extend_from_slice(b"\n")?;
        Ok(())
    }

    // A cut in this operation from now.
    fn cut(&mut self, operation: u32) -> Result<(), Fail> {
        let mut digits = LineText::new();
        digits.append_number(b"cut ", operation);
        self.line(digits.as_bytes(), b"ok")
    }

    // An event before this call from now.
    fn at(&mut self, call: u32, event: &[u8]) -> Result<(), Fail> {
        let mut digits = LineText::new();
        digits.append_number(b"at ", call);
        self.script.extend_from_slice(digits.as_bytes())?;
        self.script.extend_from_slice(b" ")?;
        self.line(event, b"ok")
    }

    // So many bytes in what is printed.
    fn digits(&mut self, digit: &[u8], count: u32) -> Result<(), Fail> {
        for _ in 0..count {
            self.text.extend_from_slice(digit)?;
        }
        Ok(())
    }

    // A write of so many zeros to RW, and what it prints.
    fn write(&mut self, count: u32, text: &[u8]) -> Result<(), Fail> {
        self.script.extend_from_slice(b"flashwrite 0x8000 ")?;
        for _ in 0..count {
            self.script.extend_from_slice(b"00")?;
        }
        self.line(b"", text)
    }

    // A read of so many bytes there, of which the first ones are zeros, and an erase.
    fn read(&mut self, count: u32, zeros: u32) -> Result<(), Fail> {
        let mut digits = LineText::new();
        digits.append_number(b"", count);
        self.script.extend_from_slice(b"flashread 0x8000 ")?;
        self.digits(b"00", zeros)?;
        self.digits(b"ff", count.wrapping_sub(zeros))?;
        self.line(digits.as_bytes(), b"")?;
        self.line(b"flasherase 0x8000 4096", b"erased 4096 bytes")
    }

    // Runs it on this bus.
    fn runs<R: Abort + AllocGlobal>(&self, rt: &R, bus: &Bus) -> Result<(), Fail> {
        let mut words = Vec::new(rt.alloc());
        for word in [b"flash".as_slice(), b"--bus", bus.word] {
            words.push(Word::new(rt.alloc(), word)?)?;
        }
        let flash = MemFlash::new(rt.alloc(), &ERASED, &[])?;
        let mut source = MemSource::new(rt.alloc(), self.script.as_slice(), &[])?;
        let mut sink = MemSink::new(rt.alloc(), 1_000_000, &[])?;
        let mut shelf = MemShelf::new(rt.alloc(), &[])?;
        let ended = run(
            rt.alloc(),
            words.as_slice(),
            flash,
            &mut source,
            &mut sink,
            &mut shelf,
        );
        assert_eq!(rt; ended.exit, Exit::Done);
        assert!(rt; sink.bytes() == self.text.as_slice());
        Ok(())
    }
}

// An empty script.
fn nothing(alloc: Global) -> Play {
    Play {
        script: Vec::new(alloc),
        text: Vec::new(alloc),
    }
}

#[test]
fn hello_is_answered_behind_each_upset(rt: HostRuntime) -> Result<(), Fail> {
    for bus in &BUSES {
        let calls = bus.send(4, 4);
        for upset in UPSETS {
            let mut play = nothing(rt.alloc());
            for call in 1..calls.wrapping_add(1) {
                play.at(call, upset)?;
                play.line(b"hello", b"EC says hello!")?;
            }
            play.runs(&rt, bus)?;
        }
    }
    Ok(())
}

#[test]
fn hello_needs_power_at_each_call(rt: HostRuntime) -> Result<(), Fail> {
    for bus in &BUSES {
        let calls = bus.send(4, 4);
        let mut play = nothing(rt.alloc());
        for call in 1..calls.wrapping_add(1) {
            play.at(call, b"power off")?;
            play.line(b"hello", bus.without_power(call, calls, b"EC says hello!"))?;
            play.line(b"power on", b"ok")?;
        }
        play.runs(&rt, bus)?;
    }
    Ok(())
}

// The calls of a write of two full parts and of 8 bytes.
fn write_calls(bus: &Bus) -> u32 {
    let send = bus.send(bus.part.wrapping_add(8), 0);
    send.wrapping_add(send).wrapping_add(bus.send(16, 0))
}

// How many bytes it has, and what it prints.
fn write_text(bus: &Bus) -> (u32, &'static [u8]) {
    match bus.part {
        240 => (488, b"wrote 488 bytes"),
        112 => (232, b"wrote 232 bytes"),
        _ => (1064, b"wrote 1064 bytes"),
    }
}

// Whether a call of so many is tried: those around the headers of the first packets, the last ones, and some between.
fn is_tried(call: u32, calls: u32) -> bool {
    call <= 12 || call % 29 == 0 || calls <= call.wrapping_add(20)
}

#[test]
fn flashwrite_is_done_behind_upsets(rt: HostRuntime) -> Result<(), Fail> {
    for bus in &BUSES {
        let (size, text) = write_text(bus);
        let calls = write_calls(bus);
        for upset in [b"byte 90".as_slice(), b"reset pin"] {
            let mut play = nothing(rt.alloc());
            for call in 1..calls.wrapping_add(1) {
                if is_tried(call, calls) {
                    play.at(call, upset)?;
                    play.write(size, text)?;
                    play.read(size, size)?;
                }
            }
            play.runs(&rt, bus)?;
        }
    }
    Ok(())
}

#[test]
fn flashwrite_leaves_whole_parts_without_power(rt: HostRuntime) -> Result<(), Fail> {
    for bus in &BUSES {
        let (size, text) = write_text(bus);
        let calls = write_calls(bus);
        let mut play = nothing(rt.alloc());
        for call in 1..calls.wrapping_add(1) {
            if is_tried(call, calls) {
                play.at(call, b"power off")?;
                play.write(size, bus.without_power(call, calls, text))?;
                play.line(b"power on", b"ok")?;
                play.read(size, bus.written(call))?;
            }
        }
        play.runs(&rt, bus)?;
    }
    Ok(())
}

#[test]
fn flashwrite_leaves_whole_pieces_behind_a_cut(rt: HostRuntime) -> Result<(), Fail> {
    for bus in &BUSES {
        let (size, _text) = write_text(bus);
        let mut play = nothing(rt.alloc());
        let mut operation = 1u32;
        let mut written = 0u32;
        for piece in bus.pieces {
            play.cut(operation)?;
            play.write(size, b"EC has no power")?;
            play.line(b"power on", b"ok")?;
            play.read(size, written)?;
            operation = operation.wrapping_add(1);
            written = written.wrapping_add(*piece);
        }
        play.runs(&rt, bus)?;
    }
    Ok(())
}

const ERASE: &[u8] = b"flasherase 0x8000 8192";

// The calls of a turn of a poll.
fn turn_calls(bus: &Bus) -> u32 {
    bus.send(0, 4).wrapping_add(1)
}

// The calls of an erase of two blocks.
fn erase_calls(bus: &Bus) -> u32 {
    let turn = turn_calls(bus);
    bus.send(8, 0)
        .wrapping_add(turn)
        .wrapping_add(turn)
        .wrapping_add(bus.send(0, 0))
}

// What is left of 4 zeros in each of two blocks where the power is lost before this call of their erase.
fn left(bus: &Bus, call: u32) -> &'static [u8] {
    let first = bus.send(8, 0).wrapping_add(1);
    if call <= first {
        b"0000000000000000"
    } else if call <= first.wrapping_add(turn_calls(bus)) {
        b"ffffffff00000000"
    } else {
        b"ffffffffffffffff"
    }
}

#[test]
fn flasherase_is_done_behind_each_upset(rt: HostRuntime) -> Result<(), Fail> {
    for bus in &BUSES {
        for upset in UPSETS {
            let mut play = nothing(rt.alloc());
            for call in 1..erase_calls(bus).wrapping_add(1) {
                play.line(b"flashwrite 0x8ffc 0000000000000000", b"wrote 8 bytes")?;
                play.at(call, upset)?;
                play.line(ERASE, b"erased 8192 bytes")?;
                play.line(b"flashread 0x8ffc 8", b"ffffffffffffffff")?;
            }
            play.runs(&rt, bus)?;
        }
    }
    Ok(())
}

#[test]
fn flasherase_leaves_whole_blocks_without_power(rt: HostRuntime) -> Result<(), Fail> {
    for bus in &BUSES {
        let calls = erase_calls(bus);
        let mut play = nothing(rt.alloc());
        for call in 1..calls.wrapping_add(1) {
            play.line(b"flashwrite 0x8ffc 0000000000000000", b"wrote 8 bytes")?;
            play.at(call, b"power off")?;
            play.line(ERASE, bus.without_power(call, calls, b"erased 8192 bytes"))?;
            play.line(b"power on", b"ok")?;
            play.line(b"flashread 0x8ffc 8", left(bus, call))?;
        }
        for (operation, left) in [
            (1, b"0000000000000000".as_slice()),
            (2, b"ffffffff00000000"),
        ] {
            play.line(b"flashwrite 0x8ffc 0000000000000000", b"wrote 8 bytes")?;
            play.cut(operation)?;
            play.line(ERASE, b"EC has no power")?;
            play.line(b"power on", b"ok")?;
            play.line(b"flashread 0x8ffc 8", left)?;
        }
        play.runs(&rt, bus)?;
    }
    Ok(())
}
