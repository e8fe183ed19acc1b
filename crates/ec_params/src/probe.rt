// A command that shows whether the bus carries what it should.
ghost use Rattle.std.specs.Prelude.{◌≡◌, ◌≤◌, ◌<◌, ◌+◌, ◌^◌, ◌++◌, ◌↔◌, ℕ, List, length, Some, IsSome, IfSome};
ghost use Rattle.ec_model.specs.Bodies.{test_ask, test_say};

use crate::columns::{Columns, put_u32};
use ec_packet::Packet;

// How many bytes the buffer has.
const BUFFER_LENGTH: usize = 32;

/// TEST_PROTOCOL's request.
#[derive(Clone, Copy, Debug, PartialEq, Eq)]
pub struct TestAsk {
    /// The status that is wanted.
    pub ec_result: u32,
    /// How many bytes of the buffer are wanted back.
    pub ret_len: u32,
    /// The buffer.
    pub buf: [u8; BUFFER_LENGTH],
}

impl TestAsk {
    /// The fields that the bytes spell; None exactly where they are not 40 bytes.
    pub fn read(bytes: &[u8]) -> Option<Self>
        ensures some { IsSome result ↔ (length bytes.now ≡ 40) }
        ensures spelled { IfSome result (λ ask. bytes.now ≡ test_ask ask.ec_result ask.ret_len ask.buf) }
        ensures back { (ec_result ret_len : ℕ) (buf : List ℕ) →
            ec_result < 2 ^ 32 → ret_len < 2 ^ 32 → length buf ≡ 32 →
            bytes.now ≡ test_ask ec_result ret_len buf →
            result ≡ Some (record { ec_result = ec_result; ret_len = ret_len; buf = buf }) }
    {
        let mut columns = Columns::of(bytes, 40)?;
        Some(TestAsk {
            ec_result: columns.u32(),
            ret_len: columns.u32(),
            buf: columns.bytes(),
        })
    }

    /// Appends the 40 bytes that spell the fields.
    pub fn write(&self, out: &mut Packet)
        requires { length out.old + 40 ≤ 544 }
        ensures { out.new ≡ out.old ++ test_ask self.now.ec_result self.now.ret_len self.now.buf }
    {
        put_u32(out, self.ec_result);
        put_u32(out, self.ret_len);
        out.extend(&self.buf);
    }
}

/// TEST_PROTOCOL's reply: the buffer, cut to the length that was asked for.
#[derive(Drop)]
pub struct TestSay {
    /// At most 32 bytes.
    pub bytes: Packet,
}

impl TestSay {
    /// The bytes; None exactly where they are more than 32.
    pub fn read(bytes: &[u8]) -> Option<Self>
        ensures some { IsSome result ↔ (length bytes.now ≤ 32) }
        ensures spelled { IfSome result (λ say. bytes.now ≡ test_say say.bytes) }
    {
        if bytes.len() > BUFFER_LENGTH {
            return None;
        }
        Some(TestSay {
            bytes: Columns::new(bytes).rest(),
        })
    }

    /// Appends the bytes.
    pub fn write(&self, out: &mut Packet)
        requires fits { length out.old + length self.now.bytes ≤ 544 }
        requires short { length self.now.bytes ≤ 32 }
        ensures { out.new ≡ out.old ++ test_say self.now.bytes }
    {
        out.extend(self.bytes.as_slice());
    }
}
