// The statuses of the controller's replies.
ghost use Rattle.std.specs.Prelude.{◌≡◌};
ghost use Rattle.ec_types.specs.Tables.{status_name};

/// The command was carried out. EC_RES_SUCCESS
pub const SUCCESS: u16 = 0;
/// No command has this number. EC_RES_INVALID_COMMAND
pub const INVALID_COMMAND: u16 = 1;
/// A flash call failed. EC_RES_ERROR
pub const ERROR: u16 = 2;
/// The body is no spelling, or its fields name what there is not. EC_RES_INVALID_PARAM
pub const INVALID_PARAMETER: u16 = 3;
/// The range is protected, or holds the image that runs. EC_RES_ACCESS_DENIED
pub const ACCESS_DENIED: u16 = 4;
/// EC_RES_INVALID_RESPONSE
pub const INVALID_RESPONSE: u16 = 5;
/// The version of the command is not offered. EC_RES_INVALID_VERSION
pub const INVALID_VERSION: u16 = 6;
/// The bytes of a request have a wrong sum. EC_RES_INVALID_CHECKSUM
pub const INVALID_CHECKSUM: u16 = 7;
/// The work goes on behind the reply. EC_RES_IN_PROGRESS
pub const IN_PROGRESS: u16 = 8;
/// There is no status of work that ended. EC_RES_UNAVAILABLE
pub const UNAVAILABLE: u16 = 9;
/// EC_RES_TIMEOUT
pub const TIMEOUT: u16 = 10;
/// The reply would have more bytes than the bus carries. EC_RES_OVERFLOW
pub const OVERFLOW: u16 = 11;
/// The header of a request is none of version 3. EC_RES_INVALID_HEADER
pub const INVALID_HEADER: u16 = 12;
/// Bytes of a request are missing. EC_RES_REQUEST_TRUNCATED
pub const REQUEST_TRUNCATED: u16 = 13;
/// EC_RES_RESPONSE_TOO_BIG
pub const RESPONSE_TOO_BIG: u16 = 14;
/// EC_RES_BUS_ERROR
pub const BUS_ERROR: u16 = 15;
/// Other work is not done yet. EC_RES_BUSY
pub const BUSY: u16 = 16;
/// The highest status of the command set. EC_RES_DUP_UNAVAILABLE
pub const DUPLICATE_UNAVAILABLE: u16 = 20;

/// The status of a reply, a number of the command set: 0 is success.
#[derive(Clone, Copy, Debug, PartialEq, Eq)]
pub struct Status(pub u16);

impl Status {
    /// The name in the command set, without its prefix; `UNNAMED` above 16.
    pub fn name(self) -> &'static str
        ensures { result.now ≡ status_name self.0 }
    {
        match self.0 {
            SUCCESS => "SUCCESS",
            INVALID_COMMAND => "INVALID_COMMAND",
            ERROR => "ERROR",
            INVALID_PARAMETER => "INVALID_PARAM",
            ACCESS_DENIED => "ACCESS_DENIED",
            INVALID_RESPONSE => "INVALID_RESPONSE",
            INVALID_VERSION => "INVALID_VERSION",
            INVALID_CHECKSUM => "INVALID_CHECKSUM",
            IN_PROGRESS => "IN_PROGRESS",
            UNAVAILABLE => "UNAVAILABLE",
            TIMEOUT => "TIMEOUT",
            OVERFLOW => "OVERFLOW",
            INVALID_HEADER => "INVALID_HEADER",
            REQUEST_TRUNCATED => "REQUEST_TRUNCATED",
            RESPONSE_TOO_BIG => "RESPONSE_TOO_BIG",
            BUS_ERROR => "BUS_ERROR",
            BUSY => "BUSY",
            _ => "UNNAMED",
        }
    }
}
