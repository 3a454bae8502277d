//! Calls that fail by a list of their numbers.

ghost use Rattle.std.specs.Prelude.{◌≡◌};
ghost use Rattle.cr_io.specs.Causes.{HasCause};
ghost use Rattle.cr_io.specs.Calls.{fresh_calls, IsOneCall};

use crate::Failed;
use std::marker::Model;

/// Which calls fail, how many were made, and how many failed.
#[derive(Drop)]
pub struct Schedule {
    fail: Vec<u64>,
    made: u64,
    faults: u64,
}

impl Model for Schedule {
    ghost use Rattle.cr_io.specs.Calls.{Calls};

    ghost Value = { Calls };

    ghost view = { λ s. record { fail = s.fail.items; made = s.made; faults = s.faults } };
}

impl Schedule {
    /// The calls with these numbers, from 1, fail.
    pub fn new(fail: Vec<u64>) -> Schedule
        ensures { result ≡ fresh_calls fail.items }
    {
        Schedule {
            fail,
            made: 0,
            faults: 0,
        }
    }

    /// Counts one call, and fails where it has to.
    pub fn call(&mut self) -> Result<(), Failed>
        ensures counted { IsOneCall self.old self.new result }
        ensures cause { HasCause self.old.faults self.new.faults result }
    {
        let Some(number) = self.made.checked_add(1) else {
            return Ok(());
        };
        self.made = number;
        if self.fail.contains(&number) {
            self.faults = self.faults.saturating_add(1);
            return Err(Failed);
        }
        Ok(())
    }

    /// How many calls failed.
    pub fn faults(&self) -> u64
        ensures { result ≡ self.now.faults }
    {
        self.faults
    }
}
