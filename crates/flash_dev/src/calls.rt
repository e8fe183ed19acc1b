// The calls of an object in memory: those whose numbers are listed fail.
ghost use Rattle.std.specs.Prelude.{◌≡◌, ◌≤◌, ◌||◌, ◌==◌, IfOk};
ghost use Rattle.std.specs.List.{list_any};
ghost use Rattle.flash_dev.specs.Calls.{is_next_failing, after_call};

use std::alloc::{AllocError, Global};
use std::marker::Model;

/// Counts calls and faults, and fails the calls whose numbers are listed. The first call has the number 1.
/// A count stands still at the last value of its type.
#[derive(Drop)]
pub struct FailingCalls {
    failing: Vec<u32>,
    made: u64,
    faults: u64,
}

impl Model for FailingCalls {
    ghost use Rattle.flash_dev.specs.Calls.{Calls};

    ghost Value = { Calls };

    ghost view = { λ calls. record { failing = calls.failing.items; made = calls.made; faults = calls.faults } };
}

// Whether one of the numbers is this one.
fn is_among(call: u64, numbers: &[u32]) -> bool
    ensures { result ≡ list_any (λ number. number == call) numbers.now }
{
    numbers.iter().any(|number| u64::from(*number) == call)
}

impl FailingCalls {
    /// With no call made.
    pub fn new(alloc: Global, failing: &[u32]) -> Result<FailingCalls, AllocError>
        ensures { IfOk result (λ calls. calls ≡ record { failing = failing.now; made = 0; faults = 0 }) }
    {
        Ok(FailingCalls {
            failing: failing.to_vec(alloc)?,
            made: 0,
            faults: 0,
        })
    }

    /// Counts a call, and says whether it fails: because it is listed, or because it is refused anyway.
    pub fn fails(&mut self, refused: bool) -> bool
        ensures answer { result ≡ refused || is_next_failing self.old }
        ensures state { self.new ≡ after_call result self.old }
        ensures later { self.old.faults ≤ self.new.faults }
    {
        self.made = self.made.saturating_add(1);
        let failed = refused || is_among(self.made, &self.failing);
        if failed {
            self.faults = self.faults.saturating_add(1);
        }
        failed
    }
}
