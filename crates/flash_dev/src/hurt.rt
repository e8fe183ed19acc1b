// What a flash call did.

/// What one flash call did inside an event: nothing failed, a call failed, or power was lost in one.
#[derive(Clone, Copy, Debug, PartialEq, Eq)]
pub enum Hurt {
    Whole,
    Failed,
    Cut,
}
