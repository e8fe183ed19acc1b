// The commands that only ask.
ghost use Rattle.std.specs.Prelude.{◌≡◌, ◌≤◌, length, is_some};
ghost use Rattle.flash_dev.specs.declared.hurt.Hurt.TheVariants.{Whole};
ghost use Rattle.ec_model.specs.Table.{Core};
ghost use Rattle.ec_model.specs.Bodies.{hello_ask, test_ask, region_info_ask};
ghost use Rattle.ec_model.specs.Answer.{Answered};
ghost use Rattle.ec_model.specs.InfoRows.{
  zero_padded,
  hello_row,
  chip_row,
  mask_told,
  comms_row,
  test_row,
  flash_info_row,
  region_info_row,
};
ghost use Rattle.ec_model.specs.Commands.{known};
ghost use Rattle.ec_model.specs.Handle.{row};
ghost use Rattle.command_table.specs.Asks.{question_command, question_body};

use crate::Reply;
use crate::asks::Question;
use ec_packet::Packet;
use ec_params::{
    ChipSay, CmdVersionsSay, CommsSay, ERASE_UNIT, FlashInfoSay0, FlashInfoSay1, HelloSay,
    IDEAL_WRITE, PROTECT_UNIT, ProtoInfoSay, ProtoSay, RegionInfoSay, TestAsk, TestSay, WRITE_UNIT,
    known,
};
use ec_types::status;
use flash_dev::{Geometry, Region};

// The results that TEST_PROTOCOL can be asked for: success, and each status up to the highest.
const RESULT_SUCCESS: u32 = status::SUCCESS as u32;

const HIGHEST_RESULT: u32 = status::DUPLICATE_UNAVAILABLE as u32;

// How many bytes TEST_PROTOCOL gives back at most.
const BUFFER_LENGTH: u32 = 32;

// How many bytes a text of GET_CHIP_INFO has.
const TEXT_LENGTH: usize = 32;

// HELLO.
fn hello(x: u32, reply: &mut Reply)
    ensures row { (core : Core) → hello_row core (hello_ask x) ≡ Answered core reply.new.status reply.new.body }
    ensures hurt { reply.new.hurt ≡ Whole }
    ensures short { length reply.new.body ≤ 96 }
{
    let say = HelloSay {
        x: x.wrapping_add(HelloSay::ADDED),
    };
    reply.succeed();
    say.write(&mut reply.body);
}

// A text with zeros behind it.
fn padded(text: &[u8]) -> [u8; TEXT_LENGTH]
    requires { length text.now ≤ 32 }
    ensures { result ≡ zero_padded 32 text.now }
{
    let mut bytes = [0; TEXT_LENGTH];
    bytes[..text.len()].copy_from_slice(text);
    bytes
}

// GET_CHIP_INFO.
fn chip(reply: &mut Reply)
    ensures row { (core : Core) → chip_row core ≡ Answered core reply.new.status reply.new.body }
    ensures hurt { reply.new.hurt ≡ Whole }
    ensures short { length reply.new.body ≤ 96 }
{
    let say = ChipSay {
        vendor: padded(b"bench"),
        name: padded(b"ecbench"),
        revision: padded(b"1"),
    };
    reply.succeed();
    say.write(&mut reply.body);
}

// GET_CMD_VERSIONS, of the command with this number.
fn cmd_versions(command: u16, reply: &mut Reply)
    ensures row { (core : Core) → mask_told core (known command) ≡ Answered core reply.new.status reply.new.body }
    ensures hurt { reply.new.hurt ≡ Whole }
    ensures short { length reply.new.body ≤ 96 }
{
    match known(command) {
        Some(mask) => {
            reply.succeed();
            CmdVersionsSay { mask }.write(&mut reply.body);
        }
        None => reply.end_with(status::INVALID_PARAMETER),
    }
}

// GET_COMMS_STATUS.
fn comms(erasing: bool, reply: &mut Reply)
    ensures row { (core : Core) → is_some core.live.erase ≡ erasing →
        comms_row core ≡ Answered core reply.new.status reply.new.body }
    ensures hurt { reply.new.hurt ≡ Whole }
    ensures short { length reply.new.body ≤ 96 }
{
    let say = CommsSay {
        flags: if erasing { CommsSay::PROCESSING } else { 0 },
    };
    reply.succeed();
    say.write(&mut reply.body);
}

// TEST_PROTOCOL.
fn test(ask: TestAsk, reply: &mut Reply)
    ensures row { (core : Core) →
        test_row core (test_ask ask.ec_result ask.ret_len ask.buf) ≡ Answered core reply.new.status reply.new.body }
    ensures hurt { reply.new.hurt ≡ Whole }
    ensures short { length reply.new.body ≤ 96 }
{
    match ask.ec_result {
        RESULT_SUCCESS => {
            let count = ask.ret_len.min(BUFFER_LENGTH) as usize;
            let mut bytes = Packet::new();
            bytes.extend(&ask.buf[..count]);
            reply.succeed();
            TestSay { bytes }.write(&mut reply.body);
        }
        wanted if wanted <= HIGHEST_RESULT => reply.end_with(wanted as u16),
        _ => reply.end_with(status::INVALID_PARAMETER),
    }
}

// FLASH_INFO.
fn flash_info(size: u32, version: u8, reply: &mut Reply)
    ensures row { (core : Core) → length core.flash ≡ size →
        flash_info_row core version ≡ Answered core reply.new.status reply.new.body }
    ensures hurt { reply.new.hurt ≡ Whole }
    ensures short { length reply.new.body ≤ 96 }
{
    if version == 0 {
        let say = FlashInfoSay0 {
            size,
            write: WRITE_UNIT,
            erase: ERASE_UNIT,
            protect: PROTECT_UNIT,
        };
        reply.succeed();
        say.write(&mut reply.body);
    } else {
        let say = FlashInfoSay1 {
            size,
            write: WRITE_UNIT,
            erase: ERASE_UNIT,
            protect: PROTECT_UNIT,
            ideal: IDEAL_WRITE,
            flags: 0,
        };
        reply.succeed();
        say.write(&mut reply.body);
    }
}

// FLASH_REGION_INFO.
fn region_info(region: u32, geometry: Geometry, reply: &mut Reply)
    ensures row { (core : Core) → length core.flash ≡ geometry →
        region_info_row core (region_info_ask region) ≡ Answered core reply.new.status reply.new.body }
    ensures hurt { reply.new.hurt ≡ Whole }
    ensures short { length reply.new.body ≤ 96 }
{
    match Region::of(region) {
        Some(region) => {
            let (offset, size) = geometry.range(region);
            reply.succeed();
            RegionInfoSay { offset, size }.write(&mut reply.body);
        }
        None => reply.end_with(status::INVALID_PARAMETER),
    }
}

/// Answers a question. `limit` is the most bytes of a packet on the bus, and `erasing` says that an erase is pending.
pub fn tell(
    question: Question,
    version: u8,
    limit: u16,
    geometry: Geometry,
    erasing: bool,
    reply: &mut Reply,
)
    ensures row { (core : Core) → length core.flash ≡ geometry → is_some core.live.erase ≡ erasing →
        row core limit (question_command question) version (question_body version question) ≡
        Answered core reply.new.status reply.new.body }
    ensures hurt { reply.new.hurt ≡ Whole }
    ensures short { length reply.new.body ≤ 96 }
{
    match question {
        Question::Proto => {
            reply.succeed();
            ProtoSay {
                version: ProtoSay::VERSION,
            }
            .write(&mut reply.body);
        }
        Question::Hello(ask) => hello(ask.x, reply),
        Question::Chip => chip(reply),
        Question::CmdVersions(command) => cmd_versions(command, reply),
        Question::Comms => comms(erasing, reply),
        Question::Test(ask) => test(ask, reply),
        Question::ProtoInfo => {
            let say = ProtoInfoSay {
                versions: ProtoInfoSay::VERSION_3,
                max_request: limit,
                max_response: limit,
                flags: ProtoInfoSay::IN_PROGRESS_SUPPORTED,
            };
            reply.succeed();
            say.write(&mut reply.body);
        }
        Question::FlashInfo => flash_info(geometry.size(), version, reply),
        Question::RegionInfo(ask) => region_info(ask.region, geometry, reply),
    }
}
