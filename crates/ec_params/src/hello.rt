// The protocol and a first word.
ghost use Rattle.std.specs.Prelude.{◌≡◌, ◌≤◌, ◌<◌, ◌+◌, ◌^◌, ◌++◌, ◌↔◌, ℕ, length, Some, IsSome, IfSome};
ghost use Rattle.ec_model.specs.Bodies.{proto_say, hello_ask, hello_say};

use crate::columns::{Columns, put_u32};
use ec_packet::Packet;

/// PROTO_VERSION's reply.
#[derive(Clone, Copy, Debug, PartialEq, Eq)]
pub struct ProtoSay {
    /// The protocol's version.
    pub version: u32,
}

impl ProtoSay {
    /// The version that is told for versions 2 and 3. EC_PROTO_VERSION
    pub const VERSION: u32 = 2;

    /// The fields that the bytes spell; None exactly where they are not 4 bytes.
    pub fn read(bytes: &[u8]) -> Option<Self>
        ensures some { IsSome result ↔ (length bytes.now ≡ 4) }
        ensures spelled { IfSome result (λ say. bytes.now ≡ proto_say say.version) }
        ensures back { (version : ℕ) → version < 2 ^ 32 → bytes.now ≡ proto_say version →
            result ≡ Some (record { version = version }) }
    {
        let mut columns = Columns::of(bytes, 4)?;
        Some(ProtoSay {
            version: columns.u32(),
        })
    }

    /// Appends the 4 bytes that spell the fields.
    pub fn write(&self, out: &mut Packet)
        requires { length out.old + 4 ≤ 544 }
        ensures { out.new ≡ out.old ++ proto_say self.now.version }
    {
        put_u32(out, self.version);
    }
}

/// HELLO's request.
#[derive(Clone, Copy, Debug, PartialEq, Eq)]
pub struct HelloAsk {
    /// Any number.
    pub x: u32,
}

impl HelloAsk {
    /// The fields that the bytes spell; None exactly where they are not 4 bytes.
    pub fn read(bytes: &[u8]) -> Option<Self>
        ensures some { IsSome result ↔ (length bytes.now ≡ 4) }
        ensures spelled { IfSome result (λ ask. bytes.now ≡ hello_ask ask.x) }
        ensures back { (x : ℕ) → x < 2 ^ 32 → bytes.now ≡ hello_ask x →
            result ≡ Some (record { x = x }) }
    {
        let mut columns = Columns::of(bytes, 4)?;
        Some(HelloAsk { x: columns.u32() })
    }

    /// Appends the 4 bytes that spell the fields.
    pub fn write(&self, out: &mut Packet)
        requires { length out.old + 4 ≤ 544 }
        ensures { out.new ≡ out.old ++ hello_ask self.now.x }
    {
        put_u32(out, self.x);
    }
}

/// HELLO's reply.
#[derive(Clone, Copy, Debug, PartialEq, Eq)]
pub struct HelloSay {
    /// The sum of the request's number and `ADDED`, wrapping.
    pub x: u32,
}

impl HelloSay {
    /// What the reply adds to the request's number.
    pub const ADDED: u32 = 0x0102_0304;

    /// The fields that the bytes spell; None exactly where they are not 4 bytes.
    pub fn read(bytes: &[u8]) -> Option<Self>
        ensures some { IsSome result ↔ (length bytes.now ≡ 4) }
        ensures spelled { IfSome result (λ say. bytes.now ≡ hello_say say.x) }
        ensures back { (x : ℕ) → x < 2 ^ 32 → bytes.now ≡ hello_say x →
            result ≡ Some (record { x = x }) }
    {
        let mut columns = Columns::of(bytes, 4)?;
        Some(HelloSay { x: columns.u32() })
    }

    /// Appends the 4 bytes that spell the fields.
    pub fn write(&self, out: &mut Packet)
        requires { length out.old + 4 ≤ 544 }
        ensures { out.new ≡ out.old ++ hello_say self.now.x }
    {
        put_u32(out, self.x);
    }
}
