//! Lists of step numbers.

ghost use Rattle.std.specs.Prelude.{◌≡◌, ◌+◌, ◌≤◌, [], ◌++◌, length, IsTrue, IfOk, IfErr};
ghost use Rattle.cr_model.specs.StepLists.{steps_at};

use crate::few_steps::{FewSteps, ROOM};
use cr_row::NoMemory;
use std::alloc::Global;
use std::marker::Model;

/// A list of step numbers. Up to 46 of them lie in the list itself, and only more take memory of their own.
///
/// A book has millions of such lists, and most are short. A list has 48 bytes, where one of the kit's `smallvec` with room
/// for 40 steps has 56.
pub struct StepList {
    place: Place,
    alloc: Global,
}

// Where the steps of a list lie.
#[derive(Drop)]
enum Place {
    Inside(FewSteps),
    Outside(Vec<u8>),
}

const _: () = prove!(size_of::<StepList>() == 48);

// A drop of its own is one call for whoever lets a list go. A derived one would be seen by the proofs of all those as two
// cases, one for each place.
impl Drop for StepList {
    #[inline(always)]
    fn drop(self) {
        let StepList { place, alloc: _ } = self;
        match place {
            Place::Inside(_) => (),
            Place::Outside(steps) => drop(steps),
        }
    }
}

impl Model for StepList {
    ghost use Rattle.std.specs.Prelude.{ℕ, List};
    ghost use Rattle.cr_model.specs.StepLists.{steps_at};

    ghost Value = { List ℕ };

    ghost view = { λ list. steps_at list.place };
}

impl StepList {
    /// The list of no steps. It takes no memory.
    pub fn new(alloc: Global) -> StepList
        ensures { result ≡ [] }
    {
        StepList {
            place: Place::Inside(FewSteps::new()),
            alloc,
        }
    }

    /// The list of no steps, with room for so many. It takes memory only for more than 46 steps; Err where there is none.
    pub fn with_capacity(alloc: Global, steps: usize) -> Result<StepList, NoMemory>
        ensures { IfOk result (λ list. list ≡ []) }
    {
        if steps <= ROOM {
            return Ok(StepList::new(alloc));
        }
        let place = Place::Outside(Vec::with_capacity(alloc, steps)?);
        Ok(StepList { place, alloc })
    }

    /// The same steps. It takes no memory.
    pub fn from_vec(steps: Vec<u8>) -> StepList
        ensures { result ≡ steps.items }
    {
        let alloc = *steps.allocator();
        let place = if steps.len() <= ROOM {
            Place::Inside(few_of(&steps))
        } else {
            Place::Outside(steps)
        };
        StepList { place, alloc }
    }

    /// The same steps. It takes memory only for more than 46; Err where there is none.
    pub fn from_slice(alloc: Global, steps: &[u8]) -> Result<StepList, NoMemory>
        ensures { IfOk result (λ list. list ≡ steps.now) }
    {
        let place = if steps.len() <= ROOM {
            Place::Inside(few_of(steps))
        } else {
            Place::Outside(steps.to_vec(alloc)?)
        };
        Ok(StepList { place, alloc })
    }

    /// Appends these steps. It takes memory only where there are more than 46 then, and no more than they need; Err where
    /// there is none, and the list is as it was.
    #[inline(always)]
    pub fn extend_from_slice(&mut self, more: &[u8]) -> Result<(), NoMemory>
        ensures is { IfOk result (λ _. self.new ≡ self.old ++ more.now) }
        ensures stays { IfErr result (λ _. self.new ≡ self.old) }
    {
        match &mut self.place {
            Place::Inside(few) => {
                if more.len() <= ROOM - few.as_slice().len() {
                    few.append(more);
                } else {
                    self.place = Place::Outside(joined(self.alloc, few.as_slice(), more)?);
                }
            }
            Place::Outside(steps) => {
                steps.reserve_exact(more.len())?;
                steps.extend_from_slice(more)?;
            }
        }
        Ok(())
    }

    /// The steps.
    #[inline(always)]
    pub fn as_slice(&self) -> &[u8]
        ensures { result.now ≡ self.now }
    {
        match &self.place {
            Place::Inside(few) => few.as_slice(),
            Place::Outside(steps) => steps.as_slice(),
        }
    }
}

// At most 46 steps, to lie in a list itself.
fn few_of(steps: &[u8]) -> FewSteps
    requires { length steps.now ≤ 46 }
    ensures { result ≡ steps.now }
{
    let mut few = FewSteps::new();
    few.append(steps);
    few
}

// Some steps and more, in memory of their own. Err where there is none.
#[cold]
#[inline(never)]
fn joined(alloc: Global, steps: &[u8], more: &[u8]) -> Result<Vec<u8>, NoMemory>
    ensures { IfOk result (λ all. all.items ≡ steps.now ++ more.now) }
{
    let mut all = Vec::with_capacity(alloc, steps.len().saturating_add(more.len()))?;
    all.extend_from_slice(steps)?;
    all.extend_from_slice(more)?;
    Ok(all)
}
