// Bytes that were loaded.
ghost use Rattle.std.specs.Prelude.{◌≡◌, IfOk};

use std::alloc::{AllocError, Global};
use std::marker::Model;

/// Bytes that were loaded.
#[derive(Drop)]
pub struct Blob {
    bytes: Vec<u8>,
}

impl Model for Blob {
    ghost use Rattle.std.specs.Prelude.{ℕ, List};

    ghost Value = { List ℕ };

    ghost view = { λ blob. blob.bytes.items };
}

impl Blob {
    /// These bytes.
    pub fn new(alloc: Global, bytes: &[u8]) -> Result<Blob, AllocError>
        ensures { IfOk result (λ blob. blob ≡ bytes.now) }
    {
        Ok(Blob {
            bytes: bytes.to_vec(alloc)?,
        })
    }

    /// These bytes, with no copy made.
    pub fn of(bytes: Vec<u8>) -> Blob
        ensures { result ≡ bytes.items }
    {
        Blob { bytes }
    }

    /// Its bytes.
    pub fn as_slice(&self) -> &[u8]
        ensures { result.now ≡ self.now }
    {
        self.bytes.as_slice()
    }
}
