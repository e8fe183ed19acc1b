// The words that are taken and those that are not, memory given, and what is said of those that are not.
use crate::{Expected, Word, WordFault, WordsErr, are_spelled, fault_of, read};
use ec_types::BusKind;
use std::alloc::{AllocError, Global};
use std::process::Abort;
use std::test::Fail;

fn words_of(alloc: Global, texts: &[&[u8]]) -> Result<Vec<Word>, AllocError> {
    let mut words = Vec::new(alloc);
    for text in texts {
        words.push(Word::new(alloc, text)?)?;
    }
    Ok(words)
}

// The bus and the pin of words whose FLASH is `f`.
fn options<R: Abort + AllocGlobal>(rt: &R, texts: &[&[u8]]) -> Result<(BusKind, bool), Fail> {
    let words = words_of(rt.alloc(), texts)?;
    let words = read(rt.alloc(), words.as_slice())?;
    assert_eq!(rt; words.flash, "f");
    Ok((words.bus, words.pin))
}

// The fault of words that are outside the grammar.
fn fault<R: Abort + AllocGlobal>(rt: &R, texts: &[&[u8]]) -> Result<(usize, Expected), Fail> {
    let words = words_of(rt.alloc(), texts)?;
    let words = words.as_slice();
    assert!(rt; !are_spelled(words));
    assert!(rt; matches!(read(rt.alloc(), words), Err(WordsErr::BadWords)));
    let fault = fault_of(words).ok_or("a fault")?;
    Ok((fault.word, fault.expected))
}

#[test]
fn good_words_are_read(rt: HostRuntime) -> Result<(), Fail> {
    assert_eq!(rt; options(&rt, &[b"f"])?, (BusKind::Lpc, true));
    assert_eq!(rt;
        options(&rt, &[b"f", b"--bus", b"i2c"])?,
        (BusKind::I2c, true)
    );
    assert_eq!(rt;
        options(&rt, &[b"f", b"--bus=spi", b"--pin", b"off"])?,
        (BusKind::Spi, false)
    );
    assert_eq!(rt;
        options(&rt, &[b"f", b"--pin=on", b"--bus", b"lpc"])?,
        (BusKind::Lpc, true)
    );
    Ok(())
}

#[test]
fn bad_words_are_refused(rt: HostRuntime) -> Result<(), Fail> {
    assert_eq!(rt; fault(&rt, &[])?, (1, Expected::Flash));
    assert_eq!(rt; fault(&rt, &[b""])?, (1, Expected::Flash));
    assert_eq!(rt; fault(&rt, &[b"-f"])?, (1, Expected::Flash));
    assert_eq!(rt; fault(&rt, &[b"\xFF"])?, (1, Expected::Flash));
    assert_eq!(rt;
        fault(&rt, &[b"--bus", b"spi", b"f"])?,
        (1, Expected::Flash)
    );
    for word in [
        b"--".as_slice(),
        b"g",
        b"-h",
        b"--help",
        b"--version",
        b"\xFF",
    ] {
        assert_eq!(rt; fault(&rt, &[b"f", word])?, (2, Expected::Option));
        assert_eq!(rt;
            fault(&rt, &[b"f", b"--bus=spi", word])?,
            (3, Expected::Option)
        );
    }
    Ok(())
}

#[test]
fn bad_options_are_refused(rt: HostRuntime) -> Result<(), Fail> {
    assert_eq!(rt;
        fault(&rt, &[b"f", b"--pin", b"on", b"--pin", b"on"])?,
        (4, Expected::Once)
    );
    assert_eq!(rt;
        fault(&rt, &[b"f", b"--bus=spi", b"--bus=spi"])?,
        (3, Expected::Once)
    );
    assert_eq!(rt; fault(&rt, &[b"f", b"--bus", b"usb"])?, (3, Expected::Bus));
    assert_eq!(rt; fault(&rt, &[b"f", b"--bus"])?, (3, Expected::Bus));
    assert_eq!(rt; fault(&rt, &[b"f", b"--bus="])?, (2, Expected::Bus));
    assert_eq!(rt; fault(&rt, &[b"f", b"--bus==spi"])?, (2, Expected::Bus));
    assert_eq!(rt;
        fault(&rt, &[b"f", b"--bu", b"spi"])?,
        (2, Expected::Option)
    );
    assert_eq!(rt; fault(&rt, &[b"f", b"--pin", b"-on"])?, (3, Expected::Pin));
    Ok(())
}

#[test]
fn a_fault_is_said(rt: HostRuntime) {
    let fault = WordFault {
        word: 3,
        expected: Expected::Bus,
    };
    let said = format!(in rt.alloc(); "{fault}").expect(&rt, "memory");
    assert_eq!(rt; said.as_str(), "word 3 is not lpc, i2c or spi");
}
