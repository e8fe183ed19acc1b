// What the host is about.

/// What the host is about on I2C, as the controller sees it.
#[derive(Clone, Copy, PartialEq, Eq)]
pub enum Phase {
    Idle,
    Writing,
    /// A request was written, and a read of its reply began: it is due now.
    Asked,
    Reading,
}
