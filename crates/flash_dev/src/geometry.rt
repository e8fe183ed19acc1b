// The sizes that a flash may have, and its regions.
ghost use Rattle.std.specs.Prelude.{◌≡◌, ◌↔◌, IsSome, IfSome, IsTrue};
ghost use Rattle.flash_dev.specs.Ranges.{is_flash_size, region_of, range_of, pstate_range};

use std::marker::Model;

/// How many bytes an erase block has.
pub const BLOCK_SIZE: u32 = 4096;

/// The regions of a flash, by their number in the command set.
#[derive(Clone, Copy, Debug, PartialEq, Eq)]
pub enum Region {
    /// The image that no update writes.
    Ro,
    /// The region that an update may write while the controller runs.
    Active,
    /// What write protection guards: RO and the block of the stored protection behind it.
    WpRo,
    /// The region that an update writes.
    Update,
}

impl Region {
    /// The region of a number from 0 to 3; there is none above.
    pub fn of(number: u32) -> Option<Region>
        ensures { result ≡ region_of number }
    {
        match number {
            0 => Some(Region::Ro),
            1 => Some(Region::Active),
            2 => Some(Region::WpRo),
            3 => Some(Region::Update),
            _ => None,
        }
    }
}

/// The size of a flash, which is one of a few. Contracts see it as the number of bytes.
#[derive(Clone, Copy, Debug, PartialEq, Eq)]
pub struct Geometry {
    size: u32,
}

impl Model for Geometry {
    ghost use Rattle.std.specs.Prelude.{ℕ, IsTrue};
    ghost use Rattle.flash_dev.specs.Ranges.{is_flash_size};

    ghost Value = { ℕ };

    ghost view = { λ geometry. geometry.size };

    ghost invariant = { λ geometry. IsTrue (is_flash_size geometry.size) };

    ghost inverse = { λ size. record { size = size } };
}

impl Geometry {
    /// A flash of so many bytes, where it is a size that a flash may have.
    pub fn new(size: u32) -> Option<Geometry>
        ensures allowed { IsSome result ↔ IsTrue (is_flash_size size) }
        ensures size { IfSome result (λ geometry. geometry ≡ size) }
    {
        match size {
            65536 | 131072 | 262144 | 524288 | 1048576 | 2097152 | 4194304 => Some(Geometry {
                size,
            }),
            _ => None,
        }
    }

    /// How many bytes the flash has.
    pub fn size(&self) -> u32
        ensures size { result ≡ self.now }
        ensures allowed { IsTrue (is_flash_size result) }
    {
        self.size
    }

    /// Where a region begins, and how many bytes it has.
    pub fn range(&self, region: Region) -> (u32, u32)
        ensures { let range = range_of region self.now in result ≡ (range.at, range.size) }
    {
        let half = self.size / 2;
        match region {
            Region::Ro => (0, half - BLOCK_SIZE),
            Region::WpRo => (0, half),
            Region::Active | Region::Update => (half, half),
        }
    }

    /// Where the block of the stored protection begins, and how many bytes it has.
    pub fn pstate(&self) -> (u32, u32)
        ensures { let range = pstate_range self.now in result ≡ (range.at, range.size) }
    {
        (self.size / 2 - BLOCK_SIZE, BLOCK_SIZE)
    }
}
