// What is wrong with a line of a script.
use thiserror::Error;

/// The most bytes of a script's line.
pub const LONGEST_LINE: usize = 16_384;

/// The first fault of a script's line. Each text fits behind "line N: ".
#[derive(Clone, Copy, Debug, PartialEq, Eq, Error)]
pub enum Why {
    #[error("the line has more than 16384 bytes")]
    TooLong,
    #[error("a byte is not printable ASCII")]
    Ascii,
    #[error("unknown word")]
    Word,
    #[error("wrong number of words")]
    Count,
    #[error("not a number, or out of its range")]
    Number,
    #[error("not hexadecimal bytes or a name, or too long")]
    Hex,
}
