//! What the bench reads from and writes to: traits that count their faults, forms in memory, and adapters over real
//! streams; and the text of a line, which is put together in a buffer and printed.
//!
//! It stands on `flash_dev` alone. `line_reader` reads from a `Source`, and the crates of lines print to a `Sink`. What
//! matters: a source and a sink give and take just the bytes they say, and a call answers `Failed` only where the count
//! of faults rose; `print` adds the whole text, or at a fault of the sink a front of it.
#![tactic(auto)]

mod adapters;
mod file_flash;
mod memory_sink;
mod memory_source;
mod printing;
mod sink;
mod source;
mod text;

pub use adapters::{StdSink, StdSource};
pub use file_flash::FileFlash;
pub use memory_sink::MemSink;
pub use memory_source::MemSource;
pub use printing::{PrintErr, print};
pub use sink::{Sink, put_all};
pub use source::Source;
pub use text::LineText;

#[cfg(test)]
mod tests;
