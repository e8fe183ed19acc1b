// Images of the controller's firmware, and digests of them.

/// One of the two images in the flash: RO, which no update writes, or RW, which an update replaces.
#[derive(Clone, Copy, Debug, PartialEq, Eq)]
pub enum ImageCopy {
    Ro,
    Rw,
}

/// Whether an image can be installed, or the first reason why it cannot.
#[derive(Clone, Copy, Debug, PartialEq, Eq)]
pub enum Fit {
    Yes,
    /// It has fewer than 8 bytes, so it has no reset vector.
    Short,
    /// It is longer than the region.
    Long,
    /// Its reset vector lies outside the region.
    Vector,
}

/// A finished SHA-256 of `size` bytes of the flash from `at` on, as it is kept over a jump.
#[derive(Clone, Copy, Debug, PartialEq, Eq)]
pub struct KeptHash {
    pub at: u32,
    pub size: u32,
    pub digest: [u8; 32],
}
