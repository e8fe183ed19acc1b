// The ports of LPC, and the bits of the status that one of them shows.

/// The port that shows the low byte of the result. EC_LPC_ADDR_HOST_DATA
pub const DATA_PORT: u16 = 0x200;
/// The port that takes the command byte, and shows the status. EC_LPC_ADDR_HOST_CMD
pub const COMMAND_PORT: u16 = 0x204;
/// The first port of the window in which packets pass. EC_LPC_ADDR_HOST_PACKET
pub const PACKET_PORT: u16 = 0x800;
/// How many ports the window has. EC_LPC_HOST_PACKET_SIZE
pub const PACKET_SIZE: u16 = 256;

/// A result is there that was not read. EC_LPC_STATUS_TO_HOST
pub const TO_HOST: u8 = 0x01;
/// A command byte is there that was not taken. EC_LPC_STATUS_FROM_HOST
pub const FROM_HOST: u8 = 0x02;
/// The controller is at work on a command. EC_LPC_STATUS_PROCESSING
pub const PROCESSING: u8 = 0x04;
/// The bits of which either says that the controller is busy. EC_LPC_STATUS_BUSY_MASK
pub const BUSY_MASK: u8 = FROM_HOST | PROCESSING;
