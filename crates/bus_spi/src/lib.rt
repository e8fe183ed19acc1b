//! The controller's machine on SPI: what each access of the host does to it, and what it answers.
//!
//! It stands on `ec_wire`, whose trait `Bus` it meets, and knows neither the commands nor the flash: the controller
//! takes the request that waits, and gives the response back. The contract that matters is the trait's: each access
//! does and answers what `bus_step` says of the machine's state.
#![tactic(auto)]

mod phase;
mod spi;

pub use spi::Spi;
