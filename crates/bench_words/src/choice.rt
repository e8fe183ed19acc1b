// A choice on the command line.
use ec_types::BusKind;

/// An option and its value, and whether an equals sign joins the two in one word.
#[derive(Clone, Copy, Debug, PartialEq, Eq)]
pub enum Choice {
    /// The bus.
    Bus(BusKind, bool),
    /// Whether the pin is on.
    Pin(bool, bool),
}
