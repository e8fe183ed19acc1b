// The commands that a line sends.
ghost use Rattle.std.specs.Prelude.{◌≡◌, ◌≤◌, ◌<◌, ◌+◌, ◌-◌, ◌*◌, [], length, take, drop, min};
ghost use Rattle.ectool_lines.specs.Tools.{IsInRange};
ghost use Rattle.ectool_lines.specs.Requests.{
  parts_of,
  count_of,
  command_of,
  hello_command,
  question,
  region_number,
  image_offset,
  hash_command,
  hash_start_command,
  test_command,
  read_command,
  write_command,
};
ghost use Rattle.ec_model.specs.Bodies.{cmd_versions_ask1, region_info_ask, flash_erase_ask, flash_protect_ask, reboot_ask};
ghost use Rattle.ec_model.specs.InfoRows.{zero_padded};
ghost use Rattle.ectool_lines.specs.Sending.{asked_of};

use crate::Tool;
use ec_packet::Packet;
use ec_params::command::{
    FLASH_ERASE, FLASH_INFO, FLASH_PROTECT, FLASH_READ, FLASH_REGION_INFO, FLASH_WRITE,
    GET_CHIP_INFO, GET_COMMAND_VERSIONS, GET_PROTOCOL_INFO, GET_VERSION, HELLO, REBOOT_EC,
    RESEND_RESPONSE, SYSINFO, TEST_PROTOCOL, VBOOT_HASH,
};
use ec_params::{
    CmdVersionsAsk1, FlashEraseAsk, FlashProtectAsk, FlashReadAsk, FlashWriteAsk, HelloAsk,
    RebootAsk, RegionInfoAsk, TestAsk, VbootHashAsk,
};
use ec_types::ImageCopy;
use flash_dev::Region;
use script_words::HexBytes;
use std::cmp::min;

/// The number that the host sends with HELLO.
const HELLO_NUMBER: u32 = 0xA0B0_C0D0;

/// A command as it is sent, but for its body.
#[derive(Clone, Copy)]
pub(crate) struct Command {
    pub number: u16,
    pub version: u8,
    /// How many bytes a reply has that is a success.
    pub want: usize,
}

impl<'a> Tool<'a> {
    /// How many commands the line sends on a bus with this packet limit, in bytes.
    pub(crate) fn count(&self, limit: u16) -> usize
        requires least { 128 ≤ limit }
        requires most { limit ≤ 544 }
        requires within { IsInRange self.now }
        ensures count { result ≡ count_of limit self.now }
    {
        let limit = usize::from(limit);
        match self {
            Tool::FlashRead { at: _, size } => parts(limit - 8, *size as usize),
            Tool::FlashWrite { at: _, bytes } => parts(limit - 16, bytes.len()),
            Tool::RebootCold => 2,
            _ => 1,
        }
    }

    /// Command `k` of the line, counted from 0; `body` becomes its body.
    pub(crate) fn command(&self, limit: u16, k: usize, body: &mut Packet) -> Command
        requires least { 128 ≤ limit }
        requires most { limit ≤ 544 }
        requires within { IsInRange self.now }
        requires there { k < count_of limit self.now }
        ensures asked { asked_of result body.new ≡ command_of limit self.now k }
    {
        body.clear();
        let limit = usize::from(limit);
        match self {
            Tool::Hello => hello(body),
            Tool::Version => question(GET_VERSION, 0, 100),
            Tool::ChipInfo => question(GET_CHIP_INFO, 0, 96),
            Tool::CmdVersions { number } => cmd_versions(*number, body),
            Tool::ProtoInfo => question(GET_PROTOCOL_INFO, 0, 12),
            Tool::FlashInfo => question(FLASH_INFO, 1, 24),
            Tool::RegionInfo { region } => region_info(*region, body),
            Tool::FlashErase { at, size } => flash_erase(*at, *size, body),
            Tool::FlashProtect { mask, flags } => flash_protect(*mask, *flags, body),
            Tool::Hash => hash(VbootHashAsk::GET, 76, body),
            Tool::HashAbort => hash(VbootHashAsk::ABORT, 0, body),
            Tool::HashStart { copy, nonce } => hash_start(image_offset(*copy), 0, nonce, body),
            Tool::HashRange { at, size } => hash_start(*at, *size, &HexBytes::none(), body),
            Tool::Sysinfo => question(SYSINFO, 0, 12),
            Tool::Reboot { cmd } => reboot(*cmd, body),
            Tool::RebootCold if k == 0 => reboot(RebootAsk::COLD, body),
            Tool::RebootCold => question(SYSINFO, 0, 12),
            Tool::Test {
                ec_result,
                ret_len,
                bytes,
            } => test(*ec_result, *ret_len, bytes, body),
            Tool::Resend => question(RESEND_RESPONSE, 0, 0),
            Tool::FlashRead { at, size } => read(*at, *size as usize, limit - 8, k, body),
            Tool::FlashWrite { at, bytes } => write(*at, bytes, limit - 16, k, body),
        }
    }
}

// In how many parts so many bytes go, with at most `most` in each; no bytes go in one.
fn parts(most: usize, size: usize) -> usize
    requires { 1 ≤ most }
    ensures { result ≡ parts_of most size }
{
    if size == 0 { 1 } else { (size - 1) / most + 1 }
}

// HELLO.
fn hello(body: &mut Packet) -> Command
    requires { body.old ≡ [] }
    ensures { asked_of result body.new ≡ hello_command }
{
    HelloAsk { x: HELLO_NUMBER }.write(body);
    Command {
        number: HELLO,
        version: 0,
        want: 4,
    }
}

// A command without a body.
fn question(number: u16, version: u8, want: usize) -> Command
    ensures { asked_of result [] ≡ question number version want }
{
    Command {
        number,
        version,
        want,
    }
}

// GET_CMD_VERSIONS.
fn cmd_versions(command: u16, body: &mut Packet) -> Command
    requires { body.old ≡ [] }
    ensures { asked_of result body.new ≡ record {
      command = 0x08;
      version = 1;
      body = cmd_versions_ask1 command;
      want
          = 4;
    } }
{
    CmdVersionsAsk1 { command }.write(body);
    Command {
        number: GET_COMMAND_VERSIONS,
        version: 1,
        want: 4,
    }
}

// The number of a region.
fn region_number(region: Region) -> u32
    ensures { result ≡ region_number region }
{
    match region {
        Region::Ro => 0,
        Region::Active => 1,
        Region::WpRo => 2,
        Region::Update => 3,
    }
}

// FLASH_REGION_INFO.
fn region_info(region: Region, body: &mut Packet) -> Command
    requires { body.old ≡ [] }
    ensures { asked_of result body.new ≡ record {
      command = 0x16;
      version = 1;
      body = region_info_ask
          (region_number region);
      want = 8;
    } }
{
    let ask = RegionInfoAsk {
        region: region_number(region),
    };
    ask.write(body);
    Command {
        number: FLASH_REGION_INFO,
        version: 1,
        want: 8,
    }
}

// FLASH_ERASE.
fn flash_erase(offset: u32, size: u32, body: &mut Packet) -> Command
    requires { body.old ≡ [] }
    ensures { asked_of result body.new ≡ record {
      command = 0x13;
      version = 0;
      body = flash_erase_ask offset size;
      want
          = 0;
    } }
{
    FlashEraseAsk { offset, size }.write(body);
    Command {
        number: FLASH_ERASE,
        version: 0,
        want: 0,
    }
}

// FLASH_PROTECT.
fn flash_protect(mask: u32, flags: u32, body: &mut Packet) -> Command
    requires { body.old ≡ [] }
    ensures { asked_of result body.new ≡ record {
      command = 0x15;
      version = 1;
      body = flash_protect_ask mask flags;
      want = 12;
    } }
{
    FlashProtectAsk { mask, flags }.write(body);
    Command {
        number: FLASH_PROTECT,
        version: 1,
        want: 12,
    }
}

// The offset by which VBOOT_HASH names an image.
fn image_offset(copy: ImageCopy) -> u32
    ensures { result ≡ image_offset copy }
{
    match copy {
        ImageCopy::Ro => VbootHashAsk::OFFSET_RO,
        ImageCopy::Rw => VbootHashAsk::OFFSET_RW,
    }
}

// VBOOT_HASH with a cmd that looks at no other field.
fn hash(cmd: u8, want: usize, body: &mut Packet) -> Command
    requires { body.old ≡ [] }
    ensures { asked_of result body.new ≡ hash_command cmd 0 0 [] want }
{
    let ask = VbootHashAsk {
        cmd,
        hash_type: VbootHashAsk::TYPE_SHA256,
        nonce_size: 0,
        reserved: 0,
        offset: 0,
        size: 0,
        nonce: [0; 64],
    };
    ask.write(body);
    Command {
        number: VBOOT_HASH,
        version: 0,
        want,
    }
}

// VBOOT_HASH that starts a hash of a range, behind a nonce.
fn hash_start(offset: u32, size: u32, nonce: &HexBytes<'_>, body: &mut Packet) -> Command
    requires short { length nonce.now ≤ 64 }
    requires empty { body.old ≡ [] }
    ensures { asked_of result body.new ≡ hash_start_command offset size nonce.now }
{
    let ask = VbootHashAsk {
        cmd: VbootHashAsk::START,
        hash_type: VbootHashAsk::TYPE_SHA256,
        nonce_size: nonce.len() as u8,
        reserved: 0,
        offset,
        size,
        nonce: padded(nonce),
    };
    ask.write(body);
    Command {
        number: VBOOT_HASH,
        version: 0,
        want: 76,
    }
}

// REBOOT_EC.
fn reboot(cmd: u8, body: &mut Packet) -> Command
    requires { body.old ≡ [] }
    ensures { asked_of result body.new ≡ record { command = 0xD2; version = 0; body = reboot_ask cmd 0; want = 0 } }
{
    RebootAsk { cmd, flags: 0 }.write(body);
    Command {
        number: REBOOT_EC,
        version: 0,
        want: 0,
    }
}

// Bytes with zeros behind them.
fn padded<const SIZE: usize>(bytes: &HexBytes<'_>) -> [u8; SIZE]
    requires { length bytes.now ≤ SIZE }
    ensures { result ≡ zero_padded SIZE bytes.now }
{
    let mut buf = [0; SIZE];
    bytes.decode(0, &mut buf[..bytes.len()]);
    buf
}

// TEST_PROTOCOL.
fn test(ec_result: u32, ret_len: u32, bytes: &HexBytes<'_>, body: &mut Packet) -> Command
    requires short { length bytes.now ≤ 32 }
    requires empty { body.old ≡ [] }
    ensures { asked_of result body.new ≡ test_command ec_result ret_len bytes.now }
{
    let ask = TestAsk {
        ec_result,
        ret_len,
        buf: padded(bytes),
    };
    ask.write(body);
    Command {
        number: TEST_PROTOCOL,
        version: 0,
        want: ret_len as usize,
    }
}

// FLASH_READ of part `k` of a range, with at most `most` bytes in each part.
fn read(at: u32, size: usize, most: usize, k: usize, body: &mut Packet) -> Command
    requires short { size ≤ 4096 }
    requires least { 100 ≤ most }
    requires most { most ≤ 544 }
    requires there { k < parts_of most size }
    requires empty { body.old ≡ [] }
    ensures { asked_of result body.new ≡ read_command (at + k * most) (min most (size - k * most)) }
{
    let done = k * most;
    let part = min(most, size - done);
    let ask = FlashReadAsk {
        offset: at.wrapping_add(done as u32),
        size: part as u32,
    };
    ask.write(body);
    Command {
        number: FLASH_READ,
        version: 0,
        want: part,
    }
}

// FLASH_WRITE of part `k` of some bytes, with at most `most` in each part.
fn write(at: u32, bytes: &HexBytes<'_>, most: usize, k: usize, body: &mut Packet) -> Command
    requires short { length bytes.now ≤ 4096 }
    requires least { 100 ≤ most }
    requires most { most ≤ 528 }
    requires there { k < parts_of most (length bytes.now) }
    requires empty { body.old ≡ [] }
    ensures { asked_of result body.new ≡ write_command (at + k * most) (take most (drop (k * most) bytes.now)) }
{
    let done = k * most;
    let mut buffer = [0; 528];
    let part = &mut buffer[..min(most, bytes.len() - done)];
    bytes.decode(done, part);
    let ask = FlashWriteAsk {
        offset: at.wrapping_add(done as u32),
        bytes: part,
    };
    ask.write(body);
    Command {
        number: FLASH_WRITE,
        version: 1,
        want: 0,
    }
}
