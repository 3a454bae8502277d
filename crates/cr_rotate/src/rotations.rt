//! Words that turn back, and rotations of callings.

ghost use Rattle.std.specs.Prelude.{◌≡◌, ◌≤◌, ◌++◌, ℕ, ◌↔◌, List, length, take, drop, IsTrue, IfOk};
ghost use Rattle.cr_model.specs.LeastRotations.{TurnsBack};

use cr_model::Calling;
use cr_row::NoMemory;
use std::alloc::Global;

/// Whether some proper suffix of the word, not empty, is less than the prefix of the same length.
/// Looks at each step once.
pub fn turns_back(word: &[u8]) -> bool
    ensures { IsTrue result ↔ TurnsBack word.now }
{
    let mut period = 1;
    for place in 1..word.len() {
        let before = word[place - period];
        if word[place] < before {
            return true;
        }
        if word[place] > before {
            period = place + 1;
        }
    }
    false
}

/// The rotation of a calling that starts after so many of its leads. Err where no memory is left.
pub fn turned(alloc: Global, calling: &Calling, by: u64) -> Result<Calling, NoMemory>
    requires { by ≤ length calling.now }
    ensures { IfOk result (λ rotation. rotation ≡ drop by calling.now ++ take by calling.now) }
{
    let (front, back) = calling.steps().split_at(by as usize);
    let mut steps = Vec::with_capacity(alloc, front.len() + back.len())?;
    steps.extend_from_slice(back)?;
    steps.extend_from_slice(front)?;
    match Calling::new(steps) {
        Ok(rotation) => Ok(rotation),
        Err(_) => unreachable!(),
    }
}
