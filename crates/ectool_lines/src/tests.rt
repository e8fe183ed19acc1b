// Lines of scripts, and what is wrong with others; the bytes that are sent, and the texts of replies.
ghost use Rattle.std.specs.Prelude.{◌≡◌, ◌≤◌, length};
ghost use Rattle.ectool_lines.specs.Tools.{IsInRange};
ghost use Rattle.ectool_lines.specs.Requests.{command_of};

use crate::replies::add_reply;
use crate::text::close;
use crate::{Tool, parse};
use bench_io::LineText;
use ec_packet::Packet;
use ec_types::{ImageCopy, Why};
use flash_dev::Region;
use script_words::{Fault, HexBytes, Wanted};
use std::process::Abort;

fn kind(read: Result<Tool<'_>, Fault>) -> Option<Why> {
    match read {
        Ok(_) => None,
        Err(fault) => Some(fault.why()),
    }
}

#[test]
fn lines_are_read(rt: HostRuntime) {
    assert!(rt; matches!(parse(b"  hello "), Ok(Tool::Hello)));
    assert!(rt;
        matches!(
            parse(b"flashread 0xfffffffc 8"),
            Ok(Tool::FlashRead {
                at: 0xFFFF_FFFC,
                size: 8
            })
        )
    );
    assert!(rt;
        matches!(
            parse(b"flashread  007 4096"),
            Ok(Tool::FlashRead { at: 7, size: 4096 })
        )
    );
    assert!(rt;
        matches!(
            parse(b"flasherase 0x8000 0xffffffff"),
            Ok(Tool::FlashErase {
                at: 0x8000,
                size: u32::MAX
            })
        )
    );
    match parse(b"flashwrite 0x8000 f0F0f00f") {
        Ok(Tool::FlashWrite { at, bytes }) => {
            assert_eq!(rt; at, 0x8000);
            let mut decoded = [0; 4];
            assert_eq!(rt; bytes.len(), decoded.len());
            bytes.decode(0, &mut decoded);
            assert_eq!(rt; decoded, [0xF0, 0xF0, 0xF0, 0x0F]);
        }
        _ => assert!(rt; false),
    }
}

#[test]
fn questions_are_read(rt: HostRuntime) {
    assert!(rt; matches!(parse(b"chipinfo"), Ok(Tool::ChipInfo)));
    assert!(rt;
        matches!(
            parse(b"cmdversions 65535"),
            Ok(Tool::CmdVersions { number: 65535 })
        )
    );
    assert!(rt; matches!(parse(b"protoinfo"), Ok(Tool::ProtoInfo)));
    assert!(rt; matches!(parse(b"flashinfo"), Ok(Tool::FlashInfo)));
    assert!(rt;
        matches!(
            parse(b"regioninfo wp_ro"),
            Ok(Tool::RegionInfo {
                region: Region::WpRo
            })
        )
    );
    assert!(rt; matches!(parse(b"resend"), Ok(Tool::Resend)));
    match parse(b"test 0x10 4 0a0b") {
        Ok(
            Tool::Test {
                ec_result,
                ret_len,
                bytes,
            },
        ) => {
            assert_eq!(rt; ec_result, 16);
            assert_eq!(rt; ret_len, 4);
            let mut decoded = [0; 2];
            assert_eq!(rt; bytes.len(), decoded.len());
            bytes.decode(0, &mut decoded);
            assert_eq!(rt; decoded, [10, 11]);
        }
        _ => assert!(rt; false),
    }
}

#[test]
fn protection_has_five_forms(rt: HostRuntime) {
    for (line, want) in [
        (b"flashprotect".as_slice(), (0, 0)),
        (b"flashprotect now", (4, 4)),
        (b"flashprotect enable", (1, 1)),
        (b"flashprotect disable", (1, 0)),
        (b"flashprotect bits 0x40 64", (0x40, 64)),
    ] {
        match parse(line) {
            Ok(Tool::FlashProtect { mask, flags }) => assert_eq!(rt; (mask, flags), want),
            _ => assert!(rt; false),
        }
    }
    assert_eq!(rt; kind(parse(b"flashprotect now 1")), Some(Why::Count));
    assert_eq!(rt; kind(parse(b"flashprotect never")), Some(Why::Word));
    assert_eq!(rt; kind(parse(b"flashprotect bit 1 x")), Some(Why::Word));
    assert_eq!(rt; kind(parse(b"flashprotect bits x 1")), Some(Why::Number));
}

#[test]
fn the_hash_has_five_forms(rt: HostRuntime) {
    assert!(rt; matches!(parse(b"echash"), Ok(Tool::Hash)));
    assert!(rt; matches!(parse(b"echash abort"), Ok(Tool::HashAbort)));
    for (line, want) in [
        (b"echash start ro".as_slice(), (ImageCopy::Ro, 0)),
        (b"echash start rw", (ImageCopy::Rw, 0)),
        (b"echash start rw 0aFf", (ImageCopy::Rw, 2)),
    ] {
        match parse(line) {
            Ok(Tool::HashStart { copy, nonce }) => assert_eq!(rt; (copy, nonce.len()), want),
            _ => assert!(rt; false),
        }
    }
    assert!(rt;
        matches!(
            parse(b"echash range 0x8000 16"),
            Ok(Tool::HashRange {
                at: 0x8000,
                size: 16
            })
        )
    );
    for (line, why) in [
        (b"echash start".as_slice(), Why::Word),
        (b"echash abort ro", Why::Word),
        (b"echash start RO", Why::Word),
        (b"echash start x 0", Why::Word),
        (b"echash start ro 0", Why::Hex),
        (b"echash abort 1 2", Why::Word),
        (b"echash range x y", Why::Number),
        (b"echash range 0 4294967296", Why::Number),
        (b"echash range 0 1 2", Why::Count),
    ] {
        assert_eq!(rt; kind(parse(line)), Some(why));
    }
    let mut line = [b'0'; 146];
    line[..16].copy_from_slice(b"echash start ro ");
    assert!(rt; parse(&line[..144]).is_ok());
    assert_eq!(rt; kind(parse(&line)), Some(Why::Hex));
}

#[test]
fn reboots_have_five_words(rt: HostRuntime) {
    assert!(rt; matches!(parse(b"version"), Ok(Tool::Version)));
    assert!(rt; matches!(parse(b"reboot_ec cold"), Ok(Tool::RebootCold)));
    assert!(rt; matches!(parse(b"sysinfo"), Ok(Tool::Sysinfo)));
    for (line, want) in [
        (b"reboot_ec cancel".as_slice(), 0),
        (b"reboot_ec RO", 1),
        (b"reboot_ec RW", 2),
        (b"reboot_ec disable-jump", 5),
    ] {
        match parse(line) {
            Ok(Tool::Reboot { cmd }) => assert_eq!(rt; cmd, want),
            _ => assert!(rt; false),
        }
    }
    for (line, why) in [
        (b"reboot_ec".as_slice(), Why::Count),
        (b"reboot_ec RO RW", Why::Count),
        (b"reboot_ec ro", Why::Word),
        (b"reboot_ec Cold", Why::Word),
        (b"version 1", Why::Count),
        (b"sysinfo 1", Why::Count),
    ] {
        assert_eq!(rt; kind(parse(line)), Some(why));
    }
}

// Looks at the body of a line's command.
fn sends<R: Abort>(rt: &R, tool: &Tool<'_>, body: &[u8])
    requires { IsInRange tool.now }
{
    let mut sent = Packet::new();
    let _command = tool.command(256, 0, &mut sent);
    assert_eq!(rt; sent.as_slice(), body);
}

#[test]
fn parts_fit_the_bus(rt: HostRuntime) {
    let tool = Tool::FlashRead { at: 0, size: 4096 };
    assert_eq!(rt; tool.count(128), 35);
    assert_eq!(rt; tool.count(256), 17);
    assert_eq!(rt; tool.count(544), 8);
    let short = Tool::FlashRead { at: 0, size: 249 };
    assert_eq!(rt; short.count(128), 3);
    assert_eq!(rt; short.count(256), 2);
    assert_eq!(rt; short.count(544), 1);
}

#[test]
fn a_hash_is_asked_for_by_its_bytes(rt: HostRuntime) {
    let mut body = [0; 76];
    sends(&rt, &Tool::Hash, &body);
    body[0] = 1;
    sends(&rt, &Tool::HashAbort, &body);
    body[..14].copy_from_slice(&[2, 0, 2, 0, 0xFD, 0xFF, 0xFF, 0xFF, 0, 0, 0, 0, 0xAB, 0xCD]);
    match HexBytes::of(b"abcd", 64) {
        Some(nonce) => {
            let tool = Tool::HashStart {
                copy: ImageCopy::Rw,
                nonce,
            };
            sends(&rt, &tool, &body);
        }
        None => assert!(rt; false),
    }
    body = [0; 76];
    body[..12].copy_from_slice(&[2, 0, 0, 0, 0x00, 0x80, 0, 0, 0x10, 0, 0, 0]);
    let tool = Tool::HashRange {
        at: 0x8000,
        size: 16,
    };
    sends(&rt, &tool, &body);
    sends(&rt, &Tool::Reboot { cmd: 5 }, &[5, 0]);
}

// Looks at the text of a line that has this reply.
fn prints<R: Abort>(rt: &R, tool: &Tool<'_>, reply: &[u8], text: &[u8])
    requires sized { length reply.now ≡ (command_of 256 tool.now 0).want }
    requires few { length reply.now ≤ 248 }
{
    let mut printed = LineText::new();
    add_reply(&mut printed, tool, reply);
    close(&mut printed, tool);
    assert_eq!(rt; printed.as_bytes(), text);
}

#[test]
fn replies_have_their_texts(rt: HostRuntime) {
    let mut versions = [0; 100];
    versions[..5].copy_from_slice(b"1.0.3");
    versions[32..64].copy_from_slice(b"abcdefghijklmnopqrstuvwxyzabcdef");
    versions[96] = 1;
    prints(
        &rt,
        &Tool::Version,
        &versions,
        b"RO version:    1.0.3\nRW version:    abcdefghijklmnopqrstuvwxyzabcdef\nFirmware copy: RO\n",
    );
    let state = [8, 4, 0, 0, 2, 0, 0, 0, 0x0C, 0, 0, 0];
    prints(
        &rt,
        &Tool::Sysinfo,
        &state,
        b"reset flags 0x00000408\ncopy RW\nflags 0x0000000c\n",
    );
    let mut shown = [0; 76];
    prints(&rt, &Tool::Hash, &shown, b"hash none\n");
    shown[0] = 2;
    prints(&rt, &Tool::Hash, &shown, b"hash busy\n");
    shown[0] = 1;
    shown[5] = 0x80;
    shown[8] = 16;
    shown[12..44].copy_from_slice(&[0xA5; 32]);
    let whole = Tool::HashRange {
        at: 0x8000,
        size: 16,
    };
    prints(
        &rt,
        &whole,
        &shown,
        b"hash done offset 32768 size 16 sha256 a5a5a5a5a5a5a5a5a5a5a5a5a5a5a5a5a5a5a5a5a5a5a5a5a5a5a5a5a5a5a5a5\n",
    );
    prints(&rt, &Tool::HashAbort, &[], b"ok\n");
    prints(&rt, &Tool::Reboot { cmd: 2 }, &[], b"ok\n");
}

#[test]
fn the_first_fault_counts(rt: HostRuntime) {
    assert_eq!(rt; kind(parse(&[b'\t'; 16_385])), Some(Why::TooLong));
    assert_eq!(rt; kind(parse(&[b'a'; 16_385])), Some(Why::TooLong));
    assert_eq!(rt; kind(parse(&[b'a'; 16_384])), Some(Why::Word));
    assert_eq!(rt; kind(parse(b"helo\t")), Some(Why::Ascii));
    assert_eq!(rt; kind(parse(b"")), Some(Why::Word));
    assert_eq!(rt; kind(parse(b"Hello")), Some(Why::Word));
    assert_eq!(rt; kind(parse(b"hello x")), Some(Why::Count));
    assert_eq!(rt; kind(parse(b"flashread x")), Some(Why::Count));
    assert_eq!(rt; kind(parse(b"flashread 0 4097")), Some(Why::Number));
    assert_eq!(rt; kind(parse(b"flashread 4294967296 0")), Some(Why::Number));
    assert_eq!(rt; kind(parse(b"flashwrite 0x 0")), Some(Why::Number));
    assert_eq!(rt; kind(parse(b"flashwrite 0 012")), Some(Why::Hex));
    assert_eq!(rt; kind(parse(b"cmdversions 65536")), Some(Why::Number));
    assert_eq!(rt; kind(parse(b"regioninfo RO")), Some(Why::Word));
    assert_eq!(rt; kind(parse(b"regioninfo")), Some(Why::Count));
    assert_eq!(rt; kind(parse(b"test 0 33 x")), Some(Why::Number));
    assert_eq!(rt; kind(parse(b"test 0 32 x")), Some(Why::Hex));
}

#[test]
fn the_word_at_fault_is_told(rt: HostRuntime) {
    for (line, place, wanted) in [
        (b"helo".as_slice(), 1, Wanted::FirstWord),
        (b"regioninfo RO", 2, Wanted::Region),
        (b"flashprotect never", 2, Wanted::Protection),
        (b"flashprotect bit 1 2", 2, Wanted::Bits),
        (b"echash start", 2, Wanted::HashAbort),
        (b"echash range 1", 2, Wanted::HashStart),
        (b"echash abort ro 1", 2, Wanted::HashStartOrRange),
        (b"echash start all", 3, Wanted::Image),
        (b"echash start ro 0", 4, Wanted::Bytes { most: 64 }),
        (b"reboot_ec warm", 2, Wanted::Reboot),
        (
            b"flashread 0x8000 5000",
            3,
            Wanted::Number {
                least: 0,
                most: 4096,
            },
        ),
        (b"test 0 32 x", 4, Wanted::Bytes { most: 32 }),
    ] {
        assert_eq!(rt; parse(line).err(), Some(Fault::of_word(place, wanted)));
    }
    for (line, wanted) in [
        (b"hello x".as_slice(), Wanted::Words { count: 0 }),
        (b"test 0 32", Wanted::Words { count: 3 }),
        (b"flashprotect now 1", Wanted::ProtectWords),
        (b"echash start ro 00 00", Wanted::HashWords),
    ] {
        assert_eq!(rt; parse(line).err(), Some(Fault::of_line(wanted)));
    }
}
