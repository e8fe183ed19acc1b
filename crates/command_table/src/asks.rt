// What a request asks: its command, with the fields of its body.
ghost use Rattle.std.specs.Prelude.{◌≡◌, ◌==◌, ◌↔◌, if◌then◌else◌, length, IsSome, IfSome};
ghost use Rattle.ec_model.specs.Commands.{line_of};
ghost use Rattle.command_table.specs.Asks.{named, IsAskOf};

use ec_params::{
    CmdVersionsAsk0, CmdVersionsAsk1, FlashEraseAsk, FlashProtectAsk, FlashReadAsk, FlashWriteAsk,
    HelloAsk, RebootAsk, RegionInfoAsk, TestAsk, VbootHashAsk, command,
};

/// The commands that only ask, and read no byte of the flash.
#[derive(Clone, Copy)]
pub enum Question {
    Proto,
    Hello(HelloAsk),
    Chip,
    /// Of the command with this number.
    CmdVersions(u16),
    Comms,
    Test(TestAsk),
    ProtoInfo,
    FlashInfo,
    RegionInfo(RegionInfoAsk),
}

/// The commands that are built.
#[derive(Clone, Copy)]
pub enum Ask<'a> {
    Question(Question),
    Version,
    FlashRead(FlashReadAsk),
    FlashWrite(FlashWriteAsk<'a>),
    FlashErase(FlashEraseAsk),
    FlashProtect(FlashProtectAsk),
    Sysinfo,
    Hash(VbootHashAsk),
    Reboot(RebootAsk),
    Resend,
}

// A command whose body is empty.
fn alone<'a>(body: &'a [u8], ask: Ask<'a>) -> Option<Ask<'a>>
    ensures some { IsSome result ↔ (length body.now ≡ 0) }
    ensures same { IfSome result (λ read. read ≡ ask.entry) }
{
    if body.is_empty() { Some(ask) } else { None }
}

// The command whose versions are asked for.
fn named(version: u8, body: &[u8]) -> Option<u16>
    ensures some { IsSome result ↔ (length body.now ≡ (if version == 0 then 1 else 2)) }
    ensures spelled { IfSome result (λ command. body.now ≡ named version command) }
{
    if version == 0 {
        Some(u16::from(CmdVersionsAsk0::read(body)?.command))
    } else {
        Some(CmdVersionsAsk1::read(body)?.command)
    }
}

/// What a body says to the command of a number; None where it is no spelling, and where no command has the number.
pub fn ask_of<'a>(command: u16, version: u8, body: &'a [u8]) -> Option<Ask<'a>>
    ensures { IsAskOf (line_of command) version body.now result }
{
    match command {
        command::PROTO_VERSION => alone(body, Ask::Question(Question::Proto)),
        command::HELLO => Some(Ask::Question(Question::Hello(HelloAsk::read(body)?))),
        command::GET_VERSION => alone(body, Ask::Version),
        command::GET_CHIP_INFO => alone(body, Ask::Question(Question::Chip)),
        command::GET_COMMAND_VERSIONS => Some(Ask::Question(Question::CmdVersions(named(
            version, body,
        )?))),
        command::GET_COMMS_STATUS => alone(body, Ask::Question(Question::Comms)),
        command::TEST_PROTOCOL => Some(Ask::Question(Question::Test(TestAsk::read(body)?))),
        command::GET_PROTOCOL_INFO => alone(body, Ask::Question(Question::ProtoInfo)),
        command::FLASH_INFO => alone(body, Ask::Question(Question::FlashInfo)),
        command::FLASH_READ => Some(Ask::FlashRead(FlashReadAsk::read(body)?)),
        command::FLASH_WRITE => Some(Ask::FlashWrite(FlashWriteAsk::read(body)?)),
        command::FLASH_ERASE => Some(Ask::FlashErase(FlashEraseAsk::read(body)?)),
        command::FLASH_PROTECT => Some(Ask::FlashProtect(FlashProtectAsk::read(body)?)),
        command::FLASH_REGION_INFO => Some(Ask::Question(Question::RegionInfo(RegionInfoAsk::read(
            body,
        )?))),
        command::SYSINFO => alone(body, Ask::Sysinfo),
        command::VBOOT_HASH => Some(Ask::Hash(VbootHashAsk::read(body)?)),
        command::REBOOT_EC => Some(Ask::Reboot(RebootAsk::read(body)?)),
        command::RESEND_RESPONSE => alone(body, Ask::Resend),
        _ => None,
    }
}
