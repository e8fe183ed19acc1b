// The reset vector: the four bytes behind the stack word.
ghost use Rattle.std.specs.Prelude.{◌≡◌, ◌≤◌, ◌+◌, ◌-◌, ◌^◌};
ghost use Rattle.ec_types.specs.LittleEndian.{u32_at};
ghost use Rattle.ec_model.specs.Jump.{vector_in};

use byteorder::{ByteOrder, LittleEndian};

/// Whether the reset vector in the first 8 bytes of an image, an offset into the flash, lies in the region of `size`
/// bytes from `at` on.
pub fn vector_fits(head: &[u8; 8], at: u32, size: u32) -> bool
    requires { at + size ≤ 2 ^ 32 - 1 }
    ensures { result ≡ vector_in (record { at = at; size = size }) (u32_at 4 head.now) }
{
    let vector = LittleEndian::read_u32(&head[4..]);
    at <= vector && vector < at + size
}
