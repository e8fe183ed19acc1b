//! The bodies of requests and replies: a struct for each, read from bytes and written as bytes. A request's struct is
//! named after its command with `Ask` behind it, a reply's with `Say`; an empty body has none. Beside them the numbers
//! of the commands, and which versions of each are offered.
//!
//! It stands on `ec_packet`, into which bodies are written, and on `ec_model`, whose definitions say how each is
//! spelled. The controller's commands and the host's lines stand on it, so that both speak of one spelling. The
//! contract that matters: `read` takes exactly the bytes of the right length, what it reads is spelled by those bytes,
//! and it reads back what `write` wrote.
#![tactic(auto)]

mod columns;
pub mod command;
mod flash;
mod hash;
mod hello;
mod identity;
mod probe;
mod protection;
mod protocol;
mod reboot;
mod table;

pub use flash::{
    ERASE_UNIT, FlashEraseAsk, FlashInfoSay0, FlashInfoSay1, FlashReadAsk, FlashReadSay,
    FlashReadSayRef, FlashWriteAsk, IDEAL_WRITE, LONGEST_WRITE_0, PROTECT_UNIT, WRITE_UNIT,
};
pub use hash::{VbootHashAsk, VbootHashSay};
pub use hello::{HelloAsk, HelloSay, ProtoSay};
pub use identity::{ChipSay, IMAGE_RO, IMAGE_RW, SysinfoSay, VersionSay};
pub use probe::{TestAsk, TestSay};
pub use protection::{FlashProtectAsk, FlashProtectSay, RegionInfoAsk, RegionInfoSay};
pub use protocol::{CmdVersionsAsk0, CmdVersionsAsk1, CmdVersionsSay, CommsSay, ProtoInfoSay};
pub use reboot::RebootAsk;
pub use table::known;

#[cfg(test)]
mod tests;
