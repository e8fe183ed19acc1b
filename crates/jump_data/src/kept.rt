// What is kept over a jump.
use ec_types::KeptHash;

/// The two layouts of jump data with tags, which are its versions 2 and 3.
#[derive(Clone, Copy, Debug, PartialEq, Eq)]
pub enum TagLayout {
    V2,
    /// As version 2, and the size of what stands before the tags.
    V3,
}

/// What is kept over a jump.
#[derive(Clone, Copy, Debug, PartialEq, Eq)]
pub enum JumpData {
    /// Version 1, which keeps the reset flags alone.
    Old {
        flags: u32,
    },
    /// Version 2 or 3. The four bytes of `protect` are ro_now, all_now, bad and jump_off, each 0 or 1; `hash` is a
    /// finished one, and `saved` the status that a RESEND_RESPONSE gives.
    Tagged {
        layout: TagLayout,
        flags: u32,
        protect: [u8; 4],
        hash: Option<KeptHash>,
        saved: u16,
    },
}
