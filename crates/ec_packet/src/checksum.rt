// What both encoders and both decoders share: the sum of a packet's bytes, and the checksum that makes it 0.
ghost use Rattle.std.specs.Prelude.{◌≡◌, ◌+◌, ◌≤◌, ◌<◌, ◌++◌, ◌↔◌, length, sum, IsTrue, slice_index, slice_set};
ghost use Rattle.ec_model.specs.Packet.{sums_to_zero, checksum_of};

use crate::{HEADER_LENGTH, Packet};

/// The packet would be longer than the limit.
#[derive(Clone, Copy, Debug, PartialEq, Eq)]
pub struct TooLong;

// The sum of some bytes.
fn byte_sum(bytes: &[u8]) -> u32
    requires { length bytes.now ≤ 544 }
    ensures { result ≡ sum bytes.now }
{
    bytes.iter().map(|byte| u32::from(*byte)).sum()
}

// Whether the bytes have the sum 0 modulo 256.
pub fn sums(bytes: &[u8]) -> bool
    requires { length bytes.now ≤ 544 }
    ensures { result ≡ sums_to_zero bytes.now }
{
    byte_sum(bytes) % 256 == 0
}

// Whether a body is too long for a packet of at most so many bytes.
pub fn is_too_long(body: &[u8], limit: u16) -> bool
    ensures { IsTrue result ↔ (limit < 8 + length body.now) }
{
    body.len().saturating_add(HEADER_LENGTH) > usize::from(limit)
}

// Writes a header, which has 0 in place of its checksum, with its checksum, and the body.
#[tactic(auto, using(crate::proofs::Sums::sum_append))]
pub fn seal(mut header: [u8; HEADER_LENGTH], body: &[u8], out: &mut Packet)
    requires unsealed { slice_index header 1 ≡ 0 }
    requires fits { length body.now ≤ 536 }
    ensures { out.new ≡ slice_set header 1 (checksum_of (header ++ body.now)) ++ body.now }
{
    let total = u64::from(byte_sum(&header)) + u64::from(byte_sum(body));
    header[1] = ((256 - total % 256) % 256) as u8;
    out.clear();
    out.extend(&header);
    out.extend(body);
}
