//! How many bells ring.

ghost use Rattle.std.specs.Prelude.{◌≡◌, ℕ, ◌≤◌, ◌↔◌, IsSome, IfSome};

use std::marker::Model;

/// A number of bells, from 3 to 16. Contracts see the number.
#[derive(Debug, Clone, Copy, PartialEq, Eq)]
pub struct Stage {
    number: u8,
}

impl Model for Stage {
    ghost Value = { ℕ };

    ghost view = { λ s. s.number };

    ghost invariant = { λ s. (3 ≤ s.number) × (s.number ≤ 16) };

    ghost inverse = { λ n. record { number = n } };
}

impl Stage {
    /// The stage of a number of bells. None exactly outside 3 to 16.
    pub fn new(number: u8) -> Option<Stage>
        ensures is { IfSome result (λ s. s ≡ number) }
        ensures some { IsSome result ↔ ((3 ≤ number) × (number ≤ 16)) }
    {
        if number < 3 || number > 16 {
            return None;
        }
        Some(Stage { number })
    }

    /// The number of bells.
    pub fn number(self) -> u8
        ensures is { result ≡ self }
        ensures at_least { 3 ≤ result }
        ensures at_most { result ≤ 16 }
    {
        self.number
    }

    // The stage of a number that is known to be one.
    pub(crate) fn of(number: u8) -> Stage
        requires at_least { 3 ≤ number }
        requires at_most { number ≤ 16 }
        ensures { result ≡ number }
    {
        Stage { number }
    }
}
