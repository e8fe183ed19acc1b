//! The line of a script that syncs: its image is loaded and synced, and how that ended is printed.
//!
//! Below stand `sync_engine`, which syncs, `bench_shelf`, which gives the image, and `bench_io`, which prints; above
//! stands `ecbench`, which has read the line. What matters, in `RunsSync`: the image is the shelf's, the text is that of
//! the end of a sync of it, and where the shelf fails or memory is refused, nothing happens.
#![tactic(auto)]

mod line;
mod text;

pub use line::{SyncLineErr, run};
