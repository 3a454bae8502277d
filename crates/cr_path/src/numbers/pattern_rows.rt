//! How many rows of one lead fit each pattern.

ghost use Rattle.std.specs.Prelude.{◌≡◌, ◌≤◌, [], length, get_or, map};
ghost use Rattle.cr_model.specs.Limits.{most_patterns};

use crate::numbers::rung_patterns::Fitting;
use cr_model::limits::MOST_PATTERNS;
use std::marker::Model;

/// How many rows of one lead fit each pattern, in the order of the patterns. It takes no memory.
#[derive(Drop)]
pub struct PatternRows {
    numbers: [u8; MOST_PATTERNS],
    // How many of them there are.
    count: usize,
}

impl Model for PatternRows {
    ghost use Rattle.std.specs.Prelude.{◌≡◌, ◌≤◌, ℕ, List, length, take};
    ghost use Rattle.cr_model.specs.Limits.{most_patterns};

    ghost Value = { List ℕ };

    ghost view = { λ f. take f.count f.numbers };

    ghost invariant = { λ f. (length f.numbers ≡ most_patterns) × (f.count ≤ most_patterns) };
}

impl PatternRows {
    /// Those of no patterns.
    pub fn none() -> PatternRows
        ensures { result ≡ [] }
    {
        PatternRows {
            numbers: [0; MOST_PATTERNS],
            count: 0,
        }
    }

    /// Takes those of the lead at a place. They are written where they are read, since a copy of them would have to wait
    /// for each of them.
    #[inline(always)]
    pub fn take(&mut self, fittings: &[Fitting], place: usize)
        requires { length fittings.now ≤ most_patterns }
        ensures { self.new ≡ map (λ fitting. get_or fitting place 0) fittings.now }
    {
        for index in 0..fittings.len() {
            self.numbers[index] = fittings[index].at(place) as u8;
        }
        self.count = fittings.len();
    }

    /// The numbers.
    pub fn numbers(&self) -> &[u8]
        ensures { result.now ≡ self.now }
    {
        &self.numbers[..self.count]
    }
}
