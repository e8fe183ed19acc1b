// Why a jump is refused.

/// Why a jump from one image to the other is refused.
#[derive(Clone, Copy, Debug, PartialEq, Eq)]
pub enum JumpNo {
    /// RO is locked, and this is no first jump from RO to RW, or jumps were disabled.
    Denied,
    /// The reset vector of the target lies outside its region.
    Vector,
    /// The flash could not be read.
    Fault,
}
