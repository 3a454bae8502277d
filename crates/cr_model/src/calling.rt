//! Callings, as lists of step numbers.

ghost use Rattle.std.specs.Prelude.{◌≡◌, ◌↔◌, ◌+◌, ◌*◌, ◌≤◌, [], ◌++◌, length, IsOk, IfOk, IfErr, vec_len};
ghost use Rattle.cr_model.specs.Limits.{most_leads};
ghost use Rattle.cr_model.specs.Queries.{repeated};

use crate::limits::MOST_LEADS;
use crate::step_list::StepList;
use cr_row::NoMemory;
use std::alloc::Global;
use std::marker::Model;

/// A list of at most 1,024 step numbers: the leads of a touch, in the order in which they are rung.
#[derive(Drop)]
pub struct Calling {
    steps: StepList,
}

impl Model for Calling {
    ghost use Rattle.std.specs.Prelude.{ℕ, ◌≤◌, List, length};
    ghost use Rattle.cr_model.specs.Limits.{most_leads};

    ghost Value = { List ℕ };

    ghost view = { λ calling. calling.steps };

    ghost invariant = { λ calling. length calling.steps ≤ most_leads };
}

impl Calling {
    /// The steps as a calling. The list comes back exactly where it has more than 1,024 steps.
    pub fn new(steps: Vec<u8>) -> Result<Calling, Vec<u8>>
        ensures accepts { IsOk result ↔ (vec_len steps ≤ most_leads) }
        ensures is { IfOk result (λ calling. calling ≡ steps.items) }
        ensures back { IfErr result (λ list. list.items ≡ steps.items) }
    {
        if steps.len() <= MOST_LEADS {
            Ok(Calling {
                steps: StepList::from_vec(steps),
            })
        } else {
            Err(steps)
        }
    }

    /// These steps so many times over. It takes memory only for more than 46 steps; Err where there is none.
    #[tactic(auto, using(crate::proofs::Repeating::repeated_more))]
    pub fn repeated(alloc: Global, steps: &[u8], times: usize) -> Result<Calling, NoMemory>
        requires { times * length steps.now ≤ most_leads }
        ensures { IfOk result (λ calling. calling ≡ repeated times steps.now) }
    {
        let mut all = StepList::with_capacity(alloc, times * steps.len())?;
        for _time in 0..times {
            all.extend_from_slice(steps)?;
        }
        Ok(Calling { steps: all })
    }

    /// The calling of no steps. It takes no memory.
    #[inline(always)]
    pub fn empty(alloc: Global) -> Calling
        ensures { result ≡ [] }
    {
        Calling {
            steps: StepList::new(alloc),
        }
    }

    /// Appends these steps. It takes memory only where there are more than 46 then, and no more than they need; Err where
    /// there is none, and the calling is as it was.
    #[inline(always)]
    pub fn extend_from_slice(&mut self, steps: &[u8]) -> Result<(), NoMemory>
        requires { length self.old + length steps.now ≤ most_leads }
        ensures is { IfOk result (λ _. self.new ≡ self.old ++ steps.now) }
        ensures stays { IfErr result (λ _. self.new ≡ self.old) }
    {
        self.steps.extend_from_slice(steps)?;
        Ok(())
    }

    /// Its step numbers.
    pub fn steps(&self) -> &[u8]
        ensures is { result.now ≡ self.now }
        ensures few { length self.now ≤ most_leads }
    {
        self.steps.as_slice()
    }

    /// The same calling again.
    pub fn copy(&self, alloc: Global) -> Result<Calling, NoMemory>
        ensures { IfOk result (λ calling. calling ≡ self.now) }
    {
        let steps = StepList::from_slice(alloc, self.steps.as_slice())?;
        Ok(Calling { steps })
    }
}
