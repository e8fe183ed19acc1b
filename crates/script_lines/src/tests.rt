// Lines of scripts, and what is wrong with others.
use crate::{BusLine, Line, parse};
use ec_model::{WorldEvent, WorldReset};
use ec_types::Why;
use script_words::{Fault, Wanted};

#[test]
fn events_are_read(rt: HostRuntime) {
    assert!(rt; matches!(parse(b""), Ok(Line::Nothing)));
    assert!(rt; matches!(parse(b"# pin on"), Ok(Line::Nothing)));
    assert!(rt; matches!(parse(b"hello"), Ok(Line::Tool)));
    assert!(rt; matches!(parse(b" pin  on "), Ok(Line::Pin { on: true })));
    assert!(rt; matches!(parse(b"power off"), Ok(Line::Power { on: false })));
    for (line, want) in [
        (b"reset pin".as_slice(), WorldReset::Pin),
        (b"reset watchdog", WorldReset::Watchdog),
    ] {
        match parse(line) {
            Ok(Line::Reset { cause }) => assert_eq!(rt; cause, want),
            _ => assert!(rt; false),
        }
    }
}

#[test]
fn some_lines_do_nothing(rt: HostRuntime) {
    for line in [
        b"".as_slice(),
        b"   ",
        b"#hello",
        b"# \x7E",
        &[b' '; 16_384],
    ] {
        assert!(rt; matches!(parse(line), Ok(Line::Nothing)));
    }
    assert!(rt; matches!(parse(b" #"), Ok(Line::Tool)));
    for (line, wanted) in [
        (b"#\t".as_slice(), Wanted::Printable),
        (&[b' '; 16_385], Wanted::ShortLine),
    ] {
        assert_eq!(rt; parse(line).err(), Some(Fault::of_line(wanted)));
    }
}

#[test]
fn ticks_and_ports_are_read(rt: HostRuntime) {
    assert!(rt;
        matches!(
            parse(b"tick 100000"),
            Ok(Line::Bus(BusLine::Tick { count: 100_000 }))
        )
    );
    for (line, want) in [
        (b"in 0x200 1".as_slice(), (0x200, 1)),
        (b"in 61440 0x1000", (61_440, 4096)),
        (b"in 65535 1", (65_535, 1)),
    ] {
        match parse(line) {
            Ok(Line::Bus(BusLine::PortsIn { port, count })) => assert_eq!(rt; (port, count), want),
            _ => assert!(rt; false),
        }
    }
    for (line, want) in [
        (b"out 0x204 dAdA".as_slice(), (0x204, [0xDA, 0xDA])),
        (b"out 65534 0a0B", (65_534, [0x0A, 0x0B])),
    ] {
        match parse(line) {
            Ok(Line::Bus(BusLine::PortsOut { port, bytes })) => {
                let mut decoded = [0; 2];
                assert_eq!(rt; bytes.len(), decoded.len());
                bytes.decode(0, &mut decoded);
                assert_eq!(rt; (port, decoded), want);
            }
            _ => assert!(rt; false),
        }
    }
}

#[test]
fn lines_of_i2c_and_spi_are_read(rt: HostRuntime) {
    assert!(rt; matches!(parse(b"i2cw dA"), Ok(Line::Bus(BusLine::I2cWrite { .. }))));
    assert!(rt;
        matches!(
            parse(b"i2cr 4096"),
            Ok(Line::Bus(BusLine::I2cRead { count: 4096 }))
        )
    );
    assert!(rt; matches!(parse(b"spi select"), Ok(Line::Bus(BusLine::SpiSelect))));
    assert!(rt; matches!(parse(b"spi deselect"), Ok(Line::Bus(BusLine::SpiDeselect))));
    assert!(rt; matches!(parse(b"spi 00ff"), Ok(Line::Bus(BusLine::SpiBytes { .. }))));
}

#[test]
fn what_is_armed_is_read(rt: HostRuntime) {
    for (line, want) in [(b"cut 0".as_slice(), (0, 0)), (b"cut 3 a5A5", (3, 2))] {
        match parse(line) {
            Ok(Line::Cut { operation, torn }) => assert_eq!(rt; (operation, torn.len()), want),
            _ => assert!(rt; false),
        }
    }
    for (line, want) in [
        (
            b"at 1 pin off".as_slice(),
            (1, WorldEvent::Pin { on: false }),
        ),
        (b"at 2 power on", (2, WorldEvent::Power { on: true })),
        (
            b"at 9 reset watchdog",
            (
                9,
                WorldEvent::Reset {
                    cause: WorldReset::Watchdog,
                },
            ),
        ),
        (b"at 16 byte 0xfa", (16, WorldEvent::Byte { byte: 0xFA })),
    ] {
        match parse(line) {
            Ok(Line::At { call, event }) => assert_eq!(rt; (call, event), want),
            _ => assert!(rt; false),
        }
    }
    assert!(rt; matches!(parse(b"trace"), Ok(Line::Trace)));
}

#[test]
fn the_first_fault_counts(rt: HostRuntime) {
    for (line, want) in [
        (b"pin".as_slice(), Why::Count),
        (b"pin on off", Why::Count),
        (b"pin up", Why::Word),
        (b"reset cold", Why::Word),
        (b"power\ton", Why::Ascii),
        (b"tick", Why::Count),
        (b"tick 0", Why::Number),
        (b"tick 100001", Why::Number),
        (b"cut", Why::Count),
        (b"cut x 0 0", Why::Count),
        (b"cut x 0", Why::Number),
        (b"cut 1 0", Why::Hex),
        (b"at 0 pin", Why::Count),
        (b"at 0 pins on", Why::Number),
        (b"at 1 pins on", Why::Word),
        (b"at 1 pin up", Why::Word),
        (b"at 1 reset cold", Why::Word),
        (b"at 1 byte 256", Why::Number),
        (b"sync", Why::Count),
        (b"sync a b/c", Why::Count),
        (b"sync b/c", Why::Hex),
        (b"drill 1", Why::Count),
        (b"drill x 65", Why::Number),
        (b"drill 0x100000000 1", Why::Number),
        (b"drill 1 0", Why::Number),
        (b"drill 1 65", Why::Number),
        (b"trace 1", Why::Count),
        (b"out 1", Why::Count),
        (b"out 0x10000 0", Why::Number),
        (b"out 65535 0", Why::Hex),
        (b"out 65535 0001", Why::Number),
        (b"in 1 2 3", Why::Count),
        (b"in 0x10000 1", Why::Number),
        (b"in 0 0", Why::Number),
        (b"in 0 4097", Why::Number),
        (b"in 65535 2", Why::Number),
        (b"i2cw", Why::Count),
        (b"i2cw 0", Why::Hex),
        (b"i2cr 0", Why::Number),
        (b"i2cr 4097", Why::Number),
        (b"spi", Why::Count),
        (b"spi select 00", Why::Count),
        (b"spi up", Why::Hex),
    ] {
        match parse(line) {
            Err(fault) => assert_eq!(rt; fault.why(), want),
            Ok(_) => assert!(rt; false),
        }
    }
}

#[test]
fn the_word_at_fault_is_told(rt: HostRuntime) {
    for (line, place, wanted) in [
        (b"pin up".as_slice(), 2, Wanted::Switch),
        (b"reset cold", 2, Wanted::Cause),
        (
            b"tick 0",
            2,
            Wanted::Number {
                least: 1,
                most: 100_000,
            },
        ),
        (
            b"in 65536 0",
            2,
            Wanted::Number {
                least: 0,
                most: 65_535,
            },
        ),
        (b"out 0 0", 3, Wanted::Bytes { most: 8192 }),
        (b"in 65535 2", 3, Wanted::Ports),
        (b"sync /a", 2, Wanted::Name),
        (b"at 1 pins on", 3, Wanted::WorldEvent),
        (b"at 1 pin up", 4, Wanted::Switch),
    ] {
        assert_eq!(rt; parse(line).err(), Some(Fault::of_word(place, wanted)));
    }
    let count = Wanted::Words { count: 2 };
    assert_eq!(rt; parse(b"in 0").err(), Some(Fault::of_line(count)));
    let count = Wanted::CutWords;
    assert_eq!(rt; parse(b"cut").err(), Some(Fault::of_line(count)));
}
