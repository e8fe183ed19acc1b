//! The lines of a script that call the bus itself: carried out, and printed.
//!
//! Below stand `ec_wire`, whose calls they make, and `bench_io`, which prints; above stands `ecbench`, which has read
//! the line. What matters, in `RunsBusLine`: just the line's calls are made, in their order, and `ok` or the bytes that the
//! host got are printed; where memory is refused, nothing happens.
#![tactic(auto)]

mod i2c;
mod lines;
mod ports;
mod spi;

pub use lines::run;
