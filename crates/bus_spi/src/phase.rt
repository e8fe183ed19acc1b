// Where a transaction is.

/// Where a transaction on SPI is, as the controller sees it.
#[derive(Clone, Copy, PartialEq, Eq)]
pub enum Phase {
    Deselected,
    Receiving,
    /// The request says that it is longer than any is.
    Bad,
    /// The request is whole, and due at a tick.
    Waiting,
    Replied,
}
