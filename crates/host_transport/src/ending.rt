// How a request that was sent once ended, and how a command did.
ghost use Rattle.std.specs.Prelude.{◌≡◌, ◌↔◌, IsTrue};

use ec_types::status;

/// How a request that was sent once ended.
#[derive(Clone, Copy, Debug, PartialEq, Eq)]
pub enum Once {
    /// A reply came, with this status.
    Status(u16),
    /// What came is no reply, or a success whose body has another length than was wanted.
    Bad,
    /// No reply came.
    Silent,
    /// The controller was off before the send or behind it.
    NoPower,
}

impl Once {
    /// Whether the request was answered with success.
    pub fn is_success(&self) -> bool
        ensures { IsTrue result ↔ (self.now ≡ Once.Status 0) }
    {
        matches!(self, Once::Status(status::SUCCESS))
    }
}

/// How a command ended.
#[derive(Clone, Copy, Debug, PartialEq, Eq)]
pub enum Said {
    /// It was answered with success.
    Ok,
    /// It was answered with another status; or, where it is `INVALID_PARAMETER`, one of three tries that say nothing was.
    Status(u16),
    /// The controller is off.
    NoPower,
    /// Three tries say nothing: whether the request was carried out is not known.
    Upset,
    /// There is too little room for another send.
    Short,
}
