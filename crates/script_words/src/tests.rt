// What words are numbers, and which are bytes.
use crate::{HexBytes, number};
use std::test::Fail;

#[test]
fn numbers_have_two_bases(rt: HostRuntime) {
    assert_eq!(rt; number(b"4294967295"), Some(0xFFFF_FFFF));
    assert_eq!(rt; number(b"0xfFfFfFfF"), Some(0xFFFF_FFFF));
    assert_eq!(rt; number(b"0x000000000000000000001"), Some(1));
    for word in [b"4294967296".as_slice(), b"0X1", b"0x", b"+1", b"1a", b""] {
        assert_eq!(rt; number(word), None);
    }
}

#[test]
fn bytes_are_decoded_where_they_stand(rt: HostRuntime) -> Result<(), Fail> {
    let bytes = HexBytes::of(b"00fFA7", 3).ok_or("the word spells bytes")?;
    assert_eq!(rt; bytes.len(), 3);
    let mut part = [0; 2];
    bytes.decode(1, &mut part);
    assert_eq!(rt; part, [0xFF, 0xA7]);
    assert_eq!(rt; bytes.byte(1), 0xFF);
    assert_eq!(rt; HexBytes::none().len(), 0);
    for word in [b"".as_slice(), b"0", b"00fFA", b"0g", b"0x00", b"00fFA700"] {
        assert!(rt; HexBytes::of(word, 3).is_none());
    }
    Ok(())
}
