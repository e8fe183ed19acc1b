// Whole runs by the words of the command line: the three buses, the pin, and words outside the grammar.
use crate::run::Exit;
use crate::testing::plays_by;
use std::test::Fail;

#[test]
fn each_bus_greets_and_tells_its_limits(rt: HostRuntime) -> Result<(), Fail> {
    for (bus, text) in [
        (
            b"lpc".as_slice(),
            b"EC says hello!\nversions 0x00000008 request 256 response 256 flags 0x00000001\n".as_slice(),
        ),
        (
            b"i2c".as_slice(),
            b"EC says hello!\nversions 0x00000008 request 128 response 128 flags 0x00000001\n".as_slice(),
        ),
        (
            b"spi".as_slice(),
            b"EC says hello!\nversions 0x00000008 request 544 response 544 flags 0x00000001\n".as_slice(),
        ),
    ] {
        plays_by(
            &rt,
            &[b"f", b"--bus", bus],
            b"hello\nprotoinfo",
            Exit::Done,
            text,
        )?;
    }
    Ok(())
}

#[test]
fn a_request_is_put_on_spi_by_hand(rt: HostRuntime) -> Result<(), Fail> {
    plays_by(
        &rt,
        &[b"f", b"--bus=spi"],
        b"spi select\nspi 0318010000000400d0c0b0a0\nspi 0000\ntick 1\nspi 0000000000000000000000000000\nspi deselect",
        Exit::Done,
        b"ok\nf8f9f9f9f9f9f9f9f9f9f9f9\nfafa\nok\nec030f000004000000d4c3b2a1ed\nok\n",
    )
}

#[test]
fn the_words_name_the_pin(rt: HostRuntime) -> Result<(), Fail> {
    plays_by(
        &rt,
        &[b"f", b"--bus=i2c", b"--pin", b"off"],
        b"flashprotect",
        Exit::Done,
        b"flags 0x00000000 valid 0x0000006f writable 0x00000041\n",
    )
}

#[test]
fn words_outside_the_grammar_read_nothing(rt: HostRuntime) -> Result<(), Fail> {
    plays_by(
        &rt,
        &[b"f", b"--pin", b"on", b"--pin", b"on"],
        b"hello",
        Exit::BadWords,
        b"",
    )?;
    plays_by(
        &rt,
        &[b"--bus", b"spi", b"f"],
        b"hello",
        Exit::BadWords,
        b"",
    )?;
    plays_by(&rt, &[b"f", b"--"], b"hello", Exit::BadWords, b"")?;
    plays_by(
        &rt,
        &[b"f", b"--bus", b"usb"],
        b"hello",
        Exit::BadWords,
        b"",
    )
}
