//! Few step numbers, which lie in the value itself.

ghost use Rattle.std.specs.Prelude.{◌≡◌, ◌+◌, ◌≤◌, [], ◌++◌, length};

use std::marker::Model;

/// At most so many.
pub const ROOM: usize = 46;

/// At most 46 step numbers.
#[derive(Drop)]
pub struct FewSteps {
    count: u8,
    steps: [u8; ROOM],
}

impl Model for FewSteps {
    ghost use Rattle.std.specs.Prelude.{ℕ, ◌≡◌, ◌≤◌, List, length, take};

    ghost Value = { List ℕ };

    ghost view = { λ few. take few.count few.steps };

    ghost invariant = { λ few. (few.count ≤ 46) × (length few.steps ≡ 46) };
}

impl FewSteps {
    /// No steps.
    pub fn new() -> FewSteps
        ensures { result ≡ [] }
    {
        FewSteps {
            count: 0,
            steps: [0; ROOM],
        }
    }

    /// The steps.
    pub fn as_slice(&self) -> &[u8]
        ensures is { result.now ≡ self.now }
        ensures few { length self.now ≤ 46 }
    {
        &self.steps[..usize::from(self.count)]
    }

    /// Appends these steps.
    pub fn append(&mut self, more: &[u8])
        requires { length self.old + length more.now ≤ 46 }
        ensures { self.new ≡ self.old ++ more.now }
    {
        let start = usize::from(self.count);
        let end = start + more.len();
        self.steps[start..end].copy_from_slice(more);
        self.count = end as u8;
    }
}
