// Bodies as they stand in packets.
use super::*;
use ec_packet::Packet;
use std::test::Fail;

#[test]
fn an_erase_is_read_and_written(rt: HostRuntime) {
    let bytes = [0x00, 0x80, 0x00, 0x00, 0x00, 0x80, 0x00, 0x00];
    let ask = FlashEraseAsk {
        offset: 0x8000,
        size: 0x8000,
    };
    let mut out = Packet::new();
    ask.write(&mut out);
    assert_eq!(rt; out.as_slice(), bytes.as_slice());
    assert_eq!(rt; FlashEraseAsk::read(&bytes), Some(ask));
    assert_eq!(rt; FlashEraseAsk::read(&bytes[1..]), None);
}

#[test]
fn a_write_has_as_many_bytes_as_it_says(rt: HostRuntime) -> Result<(), Fail> {
    let bytes = [0x00, 0x80, 0, 0, 4, 0, 0, 0, 0xF0, 0xF1, 0xF2, 0xF3];
    let ask = FlashWriteAsk::read(&bytes).ok_or("a write")?;
    assert_eq!(rt; ask.offset, 0x8000);
    assert_eq!(rt; ask.bytes, &bytes[8..]);
    let mut out = Packet::new();
    ask.write(&mut out);
    assert_eq!(rt; out.as_slice(), bytes.as_slice());
    assert!(rt; FlashWriteAsk::read(&bytes[..11]).is_none());
    Ok(())
}

#[test]
fn texts_stand_one_after_the_other(rt: HostRuntime) -> Result<(), Fail> {
    let say = VersionSay {
        ro: [b'o'; 32],
        rw: [b'w'; 32],
        reserved: [0; 32],
        current: 2,
    };
    let mut out = Packet::new();
    say.write(&mut out);
    assert_eq!(rt; out.len(), 100);
    assert_eq!(rt; &out.as_slice()[96..], [2, 0, 0, 0].as_slice());
    assert_eq!(rt; VersionSay::read(out.as_slice()), Some(say));
    Ok(())
}

#[test]
fn some_commands_are_known(rt: HostRuntime) {
    assert_eq!(rt; known(command::HELLO), Some(1));
    assert_eq!(rt; known(command::FLASH_PROTECT), Some(2));
    assert_eq!(rt; known(command::FLASH_REGION_INFO), Some(2));
    assert_eq!(rt; known(command::GET_VERSION), Some(1));
    assert_eq!(rt; known(command::REBOOT_EC), Some(1));
    assert_eq!(rt; known(0xFFF), None);
}
