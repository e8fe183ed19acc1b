// How a sync ends, and what its parts give.
use ec_types::Fit;
use flash_dev::Geometry;

/// How a sync ended.
#[derive(Clone, Copy, Debug, PartialEq, Eq)]
pub enum SyncEnd {
    /// RW runs, with the SHA-256 that was aimed at. `wrote` says whether a round began to write RW.
    Done { wrote: bool },
    /// The image cannot be installed in the controller's flash.
    BadImage { fit: Fit },
    /// RW is to be written, but the whole flash is locked, and stays so over a restart. These are the bits of its
    /// protection.
    Locked { flags: u32 },
    /// The controller is off.
    NoPower,
    /// Each of three rounds was upset.
    Disturbed,
    /// The memory for the entries was refused, and nothing was sent.
    NoMemory,
}

/// Why a round stops before its end.
#[derive(Clone, Copy, Debug, PartialEq, Eq)]
pub enum Stop {
    /// What was answered is nothing that its step names.
    Lost,
    /// The controller is off.
    NoPower,
    /// The image cannot be installed in the controller's flash.
    Misfit(Fit),
    /// The whole flash is locked, and stays so over a restart. These are the bits of its protection.
    Locked(u32),
}

/// What a sync aims at.
#[derive(Clone, Copy)]
pub struct Aim {
    /// The controller's flash.
    pub geometry: Geometry,
    /// The SHA-256 that RW is to have.
    pub digest: [u8; 32],
}

/// What is to be done once all was asked.
#[derive(Clone, Copy)]
pub struct Plan {
    pub aim: Aim,
    /// Whether RW is to be written.
    pub rewrites: bool,
}

/// How the jump to RW was answered.
#[derive(Clone, Copy, Debug, PartialEq, Eq)]
pub enum Jump {
    /// RW runs.
    Jumped,
    /// Jumps are disabled until the next reset.
    Denied,
    /// RW has no vector that could be jumped to, or the flash failed.
    Failed,
}
