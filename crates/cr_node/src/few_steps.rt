//! Few step numbers, which lie in the value itself.

ghost use Rattle.std.specs.Prelude.{◌≡◌, ◌≤◌, length};

use std::marker::Model;

/// At most so many.
pub const ROOM: usize = 30;

/// At most 30 step numbers.
#[derive(Drop)]
pub struct FewSteps {
    number: u8,
    places: [u8; ROOM],
}

impl Model for FewSteps {
    ghost use Rattle.std.specs.Prelude.{ℕ, ◌≡◌, ◌≤◌, List, length, take};

    ghost Value = { List ℕ };

    ghost view = { λ few. take few.number few.places };

    ghost invariant = { λ few. (few.number ≤ 30) × (length few.places ≡ 30) };
}

impl FewSteps {
    /// These steps.
    pub fn of(steps: &[u8]) -> FewSteps
        requires { length steps.now ≤ 30 }
        ensures { result ≡ steps.now }
    {
        let mut places = [0; ROOM];
        places[..steps.len()].copy_from_slice(steps);
        FewSteps {
            number: steps.len() as u8,
            places,
        }
    }

    /// The steps.
    pub fn as_slice(&self) -> &[u8]
        ensures { result.now ≡ self.now }
    {
        &self.places[..usize::from(self.number)]
    }
}
