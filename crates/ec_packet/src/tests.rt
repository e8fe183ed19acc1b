// The packets of one HELLO, and what is refused.
use super::*;
use ec_types::{Status, status};
use std::test::Fail;

const HELLO: [u8; 12] = [3, 0x18, 1, 0, 0, 0, 4, 0, 0xD0, 0xC0, 0xB0, 0xA0];

const REPLY: [u8; 12] = [3, 0x0F, 0, 0, 4, 0, 0, 0, 0xD4, 0xC3, 0xB2, 0xA1];

#[test]
fn hello_is_spelled_so(rt: HostRuntime) {
    let mut out = Packet::new();
    assert!(rt; out.is_empty());
    assert_eq!(rt; encode_request(1, 0, &HELLO[8..], 12, &mut out), Ok(()));
    assert_eq!(rt; out.as_slice(), HELLO.as_slice());
    assert_eq!(rt; encode_response(0, &REPLY[8..], 12, &mut out), Ok(()));
    assert_eq!(rt; out.as_slice(), REPLY.as_slice());
    assert_eq!(rt; encode_response(1, &REPLY[8..], 11, &mut out), Err(TooLong));
    assert_eq!(rt; out.as_slice(), REPLY.as_slice());
    assert!(rt; is_response(&REPLY));
    assert!(rt; !is_response(&HELLO));
}

#[test]
fn requests_are_tested_in_order(rt: HostRuntime) -> Result<(), Fail> {
    let request = decode_request(&HELLO).ok().ok_or("HELLO is a request")?;
    assert_eq!(rt; request.command, 1);
    assert_eq!(rt; request.version, 0);
    assert_eq!(rt; request.body, &HELLO[8..]);
    for (bytes, refusal) in [
        ([4, 0, 0, 0, 0, 0, 0].as_slice(), status::REQUEST_TRUNCATED),
        ([4, 0, 0, 0, 0, 0, 4, 0].as_slice(), status::INVALID_HEADER),
        ([3, 0, 0, 0, 0, 1, 4, 0].as_slice(), status::INVALID_HEADER),
        (
            [3, 0, 0, 0, 0, 0, 4, 0].as_slice(),
            status::REQUEST_TRUNCATED,
        ),
        (
            [3, 0, 1, 0, 0, 0, 0xF9, 0].as_slice(),
            status::REQUEST_TRUNCATED,
        ),
        (
            [3, 0x19, 1, 0, 0, 0, 4, 0, 0xD0, 0xC0, 0xB0, 0xA0].as_slice(),
            status::INVALID_CHECKSUM,
        ),
    ] {
        match decode_request(bytes) {
            Ok(_) => assert!(rt; false, "refused with {refusal}"),
            Err(found) => assert_eq!(rt; found, Status(refusal)),
        }
    }
    Ok(())
}

#[test]
fn responses_are_tested_in_order(rt: HostRuntime) -> Result<(), Fail> {
    let response = decode_response(&REPLY).ok().ok_or("REPLY is a response")?;
    assert_eq!(rt; response.status, status::SUCCESS);
    assert_eq!(rt; response.body, &REPLY[8..]);
    for (bytes, why) in [
        ([4, 0, 0, 0, 4, 0, 1].as_slice(), BadReply::Short),
        ([4, 0, 0, 0, 4, 0, 1, 0].as_slice(), BadReply::Version),
        ([3, 0, 0, 0, 4, 0, 0, 1].as_slice(), BadReply::Reserved),
        ([3, 0, 0, 0, 4, 0, 0, 0].as_slice(), BadReply::Length),
        ([3, 0, 0, 0, 0, 0, 0, 0].as_slice(), BadReply::Sum),
    ] {
        match decode_response(bytes) {
            Ok(_) => assert!(rt; false, "refused with {why:?}"),
            Err(found) => assert_eq!(rt; found, why),
        }
    }
    Ok(())
}
