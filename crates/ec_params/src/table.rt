// The commands and their versions.
ghost use Rattle.std.specs.Prelude.{◌≡◌};
ghost use Rattle.ec_model.specs.Commands.{known};

use crate::command;

// The masks of versions: bit v is set where version v is offered.
const VERSION_0: u32 = 1 << 0;

const VERSION_1: u32 = 1 << 1;

const VERSIONS_0_AND_1: u32 = VERSION_0 | VERSION_1;

/// The mask of a command's versions, with bit v set where version v is offered; None exactly where the command is not
/// in the table.
pub fn known(command: u16) -> Option<u32>
    ensures { result ≡ known command }
{
    match command {
        command::PROTO_VERSION
        | command::HELLO
        | command::GET_VERSION
        | command::GET_CHIP_INFO
        | command::GET_COMMS_STATUS
        | command::TEST_PROTOCOL
        | command::GET_PROTOCOL_INFO
        | command::FLASH_READ
        | command::FLASH_ERASE
        | command::SYSINFO
        | command::VBOOT_HASH
        | command::REBOOT_EC
        | command::RESEND_RESPONSE => Some(VERSION_0),
        command::GET_COMMAND_VERSIONS | command::FLASH_INFO | command::FLASH_WRITE => Some(
            VERSIONS_0_AND_1,
        ),
        command::FLASH_PROTECT | command::FLASH_REGION_INFO => Some(VERSION_1),
        _ => None,
    }
}
