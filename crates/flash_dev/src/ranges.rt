// Whether ranges meet.
ghost use Rattle.std.specs.Prelude.{◌≡◌};
ghost use Rattle.flash_dev.specs.Ranges.{overlaps};

/// Whether two ranges have a byte in common, where neither is empty.
pub fn overlap(at: u32, size: u32, other_at: u32, other_size: u32) -> bool
    ensures { result ≡ overlaps (record { at = at; size = size }) (record { at = other_at; size = other_size }) }
{
    u64::from(at) < u64::from(other_at) + u64::from(other_size)
        && u64::from(other_at) < u64::from(at) + u64::from(size)
}
