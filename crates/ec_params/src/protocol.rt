// Which commands there are, and how packets pass.
ghost use Rattle.std.specs.Prelude.{◌≡◌, ◌≤◌, ◌<◌, ◌+◌, ◌^◌, ◌++◌, ◌↔◌, ℕ, length, Some, IsSome, IfSome};
ghost use Rattle.ec_model.specs.Bodies.{
  cmd_versions_ask0,
  cmd_versions_ask1,
  cmd_versions_say,
  comms_say,
  proto_info_say,
};

use crate::columns::{Columns, put_u16, put_u32};
use ec_packet::Packet;

/// GET_CMD_VERSIONS' request of version 0.
#[derive(Clone, Copy, Debug, PartialEq, Eq)]
pub struct CmdVersionsAsk0 {
    /// A command's number.
    pub command: u8,
}

impl CmdVersionsAsk0 {
    /// The fields that the bytes spell; None exactly where they are not 1 byte.
    pub fn read(bytes: &[u8]) -> Option<Self>
        ensures some { IsSome result ↔ (length bytes.now ≡ 1) }
        ensures spelled { IfSome result (λ ask. bytes.now ≡ cmd_versions_ask0 ask.command) }
        ensures back { (command : ℕ) → bytes.now ≡ cmd_versions_ask0 command →
            result ≡ Some (record { command = command }) }
    {
        let mut columns = Columns::of(bytes, 1)?;
        Some(CmdVersionsAsk0 {
            command: columns.u8(),
        })
    }

    /// Appends the byte that spells the fields.
    pub fn write(&self, out: &mut Packet)
        requires { length out.old < 544 }
        ensures { out.new ≡ out.old ++ cmd_versions_ask0 self.now.command }
    {
        out.push(self.command);
    }
}

/// GET_CMD_VERSIONS' request of version 1.
#[derive(Clone, Copy, Debug, PartialEq, Eq)]
pub struct CmdVersionsAsk1 {
    /// A command's number.
    pub command: u16,
}

impl CmdVersionsAsk1 {
    /// The fields that the bytes spell; None exactly where they are not 2 bytes.
    pub fn read(bytes: &[u8]) -> Option<Self>
        ensures some { IsSome result ↔ (length bytes.now ≡ 2) }
        ensures spelled { IfSome result (λ ask. bytes.now ≡ cmd_versions_ask1 ask.command) }
        ensures back { (command : ℕ) → command < 2 ^ 16 → bytes.now ≡ cmd_versions_ask1 command →
            result ≡ Some (record { command = command }) }
    {
        let mut columns = Columns::of(bytes, 2)?;
        Some(CmdVersionsAsk1 {
            command: columns.u16(),
        })
    }

    /// Appends the 2 bytes that spell the fields.
    pub fn write(&self, out: &mut Packet)
        requires { length out.old + 2 ≤ 544 }
        ensures { out.new ≡ out.old ++ cmd_versions_ask1 self.now.command }
    {
        put_u16(out, self.command);
    }
}

/// GET_CMD_VERSIONS' reply.
#[derive(Clone, Copy, Debug, PartialEq, Eq)]
pub struct CmdVersionsSay {
    /// Bit v is set where version v is offered.
    pub mask: u32,
}

impl CmdVersionsSay {
    /// The fields that 4 bytes spell.
    pub fn from_bytes(bytes: &[u8]) -> Self
        requires { length bytes.now ≡ 4 }
        ensures spelled { bytes.now ≡ cmd_versions_say result.mask }
        ensures back { (mask : ℕ) → mask < 2 ^ 32 → bytes.now ≡ cmd_versions_say mask →
            result ≡ record { mask = mask } }
    {
        let mut columns = Columns::new(bytes);
        CmdVersionsSay {
            mask: columns.u32(),
        }
    }

    /// The fields that the bytes spell; None exactly where they are not 4 bytes.
    pub fn read(bytes: &[u8]) -> Option<Self>
        ensures some { IsSome result ↔ (length bytes.now ≡ 4) }
        ensures spelled { IfSome result (λ say. bytes.now ≡ cmd_versions_say say.mask) }
        ensures back { (mask : ℕ) → mask < 2 ^ 32 → bytes.now ≡ cmd_versions_say mask →
            result ≡ Some (record { mask = mask }) }
    {
        if bytes.len() == 4 {
            Some(CmdVersionsSay::from_bytes(bytes))
        } else {
            None
        }
    }

    /// Appends the 4 bytes that spell the fields.
    pub fn write(&self, out: &mut Packet)
        requires { length out.old + 4 ≤ 544 }
        ensures { out.new ≡ out.old ++ cmd_versions_say self.now.mask }
    {
        put_u32(out, self.mask);
    }
}

/// GET_COMMS_STATUS' reply.
#[derive(Clone, Copy, Debug, PartialEq, Eq)]
pub struct CommsSay {
    /// `PROCESSING` while an erase is pending.
    pub flags: u32,
}

impl CommsSay {
    /// The bit that says that an erase is pending. EC_COMMS_STATUS_PROCESSING
    pub const PROCESSING: u32 = 0x01;

    /// The fields that the bytes spell; None exactly where they are not 4 bytes.
    pub fn read(bytes: &[u8]) -> Option<Self>
        ensures some { IsSome result ↔ (length bytes.now ≡ 4) }
        ensures spelled { IfSome result (λ say. bytes.now ≡ comms_say say.flags) }
        ensures back { (flags : ℕ) → flags < 2 ^ 32 → bytes.now ≡ comms_say flags →
            result ≡ Some (record { flags = flags }) }
    {
        let mut columns = Columns::of(bytes, 4)?;
        Some(CommsSay {
            flags: columns.u32(),
        })
    }

    /// Appends the 4 bytes that spell the fields.
    pub fn write(&self, out: &mut Packet)
        requires { length out.old + 4 ≤ 544 }
        ensures { out.new ≡ out.old ++ comms_say self.now.flags }
    {
        put_u32(out, self.flags);
    }
}

/// GET_PROTOCOL_INFO's reply.
#[derive(Clone, Copy, Debug, PartialEq, Eq)]
pub struct ProtoInfoSay {
    /// Bit v is set where version v of the protocol is spoken.
    pub versions: u32,
    /// The most bytes of a request packet.
    pub max_request: u16,
    /// The most bytes of a response packet.
    pub max_response: u16,
    /// `IN_PROGRESS_SUPPORTED`, or 0.
    pub flags: u32,
}

impl ProtoInfoSay {
    /// The mask of version 3 of the protocol, the one that is spoken.
    pub const VERSION_3: u32 = 1 << 3;
    /// A busy controller may answer that it is in progress. EC_PROTOCOL_INFO_IN_PROGRESS_SUPPORTED
    pub const IN_PROGRESS_SUPPORTED: u32 = 0x01;

    /// The fields that 12 bytes spell.
    pub fn from_bytes(bytes: &[u8]) -> Self
        requires { length bytes.now ≡ 12 }
        ensures spelled { bytes.now ≡
            proto_info_say result.versions result.max_request result.max_response result.flags }
        ensures back { (versions max_request max_response flags : ℕ) →
            versions < 2 ^ 32 → max_request < 2 ^ 16 → max_response < 2 ^ 16 → flags < 2 ^ 32 →
            bytes.now ≡ proto_info_say versions max_request max_response flags →
            result ≡ record {
              versions = versions;
              max_request = max_request;
              max_response = max_response;
              flags = flags;
            } }
    {
        let mut columns = Columns::new(bytes);
        ProtoInfoSay {
            versions: columns.u32(),
            max_request: columns.u16(),
            max_response: columns.u16(),
            flags: columns.u32(),
        }
    }

    /// The fields that the bytes spell; None exactly where they are not 12 bytes.
    pub fn read(bytes: &[u8]) -> Option<Self>
        ensures some { IsSome result ↔ (length bytes.now ≡ 12) }
        ensures spelled { IfSome result (λ say. bytes.now ≡
            proto_info_say say.versions say.max_request say.max_response say.flags) }
        ensures back { (versions max_request max_response flags : ℕ) →
            versions < 2 ^ 32 → max_request < 2 ^ 16 → max_response < 2 ^ 16 → flags < 2 ^ 32 →
            bytes.now ≡ proto_info_say versions max_request max_response flags →
            result ≡ Some (record {
              versions = versions;
              max_request = max_request;
              max_response = max_response;
              flags = flags;
            }) }
    {
        if bytes.len() == 12 {
            Some(ProtoInfoSay::from_bytes(bytes))
        } else {
            None
        }
    }

    /// Appends the 12 bytes that spell the fields.
    pub fn write(&self, out: &mut Packet)
        requires { length out.old + 12 ≤ 544 }
        ensures { out.new ≡ out.old ++
            proto_info_say self.now.versions self.now.max_request self.now.max_response self.now.flags }
    {
        put_u32(out, self.versions);
        put_u16(out, self.max_request);
        put_u16(out, self.max_response);
        put_u32(out, self.flags);
    }
}
