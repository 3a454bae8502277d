//! Hints at jobs that may be open.

ghost use Rattle.std.specs.Prelude.{◌≡◌};

use std::sync::Wait;

/// Hints of a worker: they keep the numbers of the jobs that it opened, and give numbers of jobs that may be open. What
/// tells the hints of one worker from those of another is their key.
///
/// Nothing is promised of which numbers come. A number of no open job does no harm, and none at all is a hint too.
pub trait Hints {
    ghost Key: { Type 0 };

    ghost key: { Self → Key };

    /// Keeps the number of a job that was opened.
    fn put(&mut self, number: u64)
        ensures { key self.new ≡ key self.old };

    /// The number of a job that may be open.
    fn next<R: Wait>(&mut self, rt: &R) -> Option<u64>
        ensures { key self.new ≡ key self.old };
}

/// Hints that keep no number and give none.
#[derive(Drop)]
pub struct NoHints;

impl Hints for NoHints {
    ghost use Rattle.std.specs.Prelude.{ℕ};

    ghost Key = { ℕ };

    ghost key = { λ hints. 0 };

    fn put(&mut self, _number: u64) {}

    fn next<R: Wait>(&mut self, _rt: &R) -> Option<u64> {
        None
    }
}
