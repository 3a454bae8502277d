//! What an adapter counts of the outside.

ghost use Rattle.std.specs.Prelude.{◌≡◌};
ghost use Rattle.cr_io.specs.Causes.{CountsFaults, HasCause};
ghost use Rattle.cr_io.specs.Tallies.{Answers, CountsBytes};

use crate::Failed;
use std::io;

/// How many bytes went through, and how many calls failed. Both stand still at a `u64`'s last value.
#[derive(Drop)]
pub struct Tally {
    pub bytes: u64,
    pub faults: u64,
}

impl Tally {
    /// Nothing is counted yet.
    pub fn new() -> Tally
        ensures bytes { result.bytes ≡ 0 }
        ensures faults { result.faults ≡ 0 }
    {
        Tally {
            bytes: 0,
            faults: 0,
        }
    }

    /// Counts one answer of the outside, and gives it on. An error is a fault, and so is a count below `least`.
    pub fn counted(&mut self, answer: io::Result<usize>, least: usize) -> Result<usize, Failed>
        ensures answer { Answers least answer result }
        ensures bytes { CountsBytes self.old.bytes self.new.bytes result }
        ensures faults { CountsFaults self.old.faults self.new.faults result }
        ensures cause { HasCause self.old.faults self.new.faults result }
    {
        match answer {
            Ok(count) if count >= least => {
                self.bytes = self.bytes.saturating_add(count as u64);
                Ok(count)
            }
            _ => {
                self.faults = self.faults.saturating_add(1);
                Err(Failed)
            }
        }
    }
}
