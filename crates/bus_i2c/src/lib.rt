//! The controller's machine on I2C: what each access of the host does to it, and what it answers.
//!
//! It stands on `ec_wire`, whose trait `Bus` it meets, and knows neither the commands nor the flash: the controller
//! takes the request that is due, which is at once when the host begins to read, and gives the response back. The
//! contract that matters is the trait's: each access does and answers what `bus_step` says of the machine's state.
#![tactic(auto)]

mod i2c;
mod phase;

pub use i2c::I2c;
