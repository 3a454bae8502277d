//! Where the leads of a node end.

ghost use Rattle.std.specs.Prelude.{◌≡◌, ◌+◌, ◌-◌, ◌<◌, ◌≤◌, ℕ, List, [], ◌∷◌, length, take, IfOk};
ghost use Rattle.cr_model.specs.Problems.{ProblemParts};
ghost use Rattle.cr_model.specs.Callings.{head_of, length_of};
ghost use Rattle.cr_model.specs.Sizes.{child};
ghost use Rattle.cr_prune.specs.Ends.{end_of, AreEnds};

use cr_row::{NoMemory, Row};
use std::alloc::Global;
use std::marker::Model;

// The most ends: one before all leads, and one for each of 1,024 leads.
const ROOM: usize = 1025;

/// Where a lead ends: the row there, and how many rows have been rung so far.
#[derive(Clone, Copy)]
pub struct LeadEnd {
    pub head: Row,
    pub rung: u64,
}

/// The ends of a node's leads, with one before all of them.
///
/// It is seen as their list.
#[derive(Drop)]
pub struct Ends {
    ends: Vec<LeadEnd>,
}

impl Model for Ends {
    ghost use Rattle.std.specs.Prelude.{ℕ, ◌<◌, ◌≤◌, List, length, vec_capacity};
    ghost use Rattle.cr_prune.specs.declared.ends.LeadEnd.{LeadEnd};

    ghost Value = { List LeadEnd };

    ghost view = { λ e. e.ends.items };

    ghost invariant = { λ e. (0 < length e.ends.items) × (1025 ≤ vec_capacity e.ends) };
}

impl Ends {
    /// The end before all leads: this row. All memory that 1,024 leads need is taken here.
    pub fn new(alloc: Global, rounds: Row) -> Result<Ends, NoMemory>
        ensures { IfOk result (λ ends. ends ≡ record { head = rounds; rung = 0 } ∷ []) }
    {
        let mut ends = Vec::with_capacity(alloc, ROOM)?;
        ends.push(LeadEnd {
            head: rounds,
            rung: 0,
        })?;
        Ok(Ends { ends })
    }

    /// The last end.
    pub fn last(&self) -> LeadEnd
        ensures { (p : ProblemParts) (node : List ℕ) → AreEnds p node self.now → result ≡ end_of p node }
    {
        self.ends[self.ends.len() - 1]
    }

    /// Appends an end.
    pub fn push(&mut self, end: LeadEnd)
        requires { length self.old < 1025 }
        ensures { (p : ProblemParts) (node : List ℕ) (step : ℕ) → AreEnds p node self.old → end ≡ end_of p (child node step)
            → AreEnds p (child node step) self.new }
    {
        match self.ends.push(end) {
            Ok(()) => (),
            Err(_) => unreachable!(),
        }
    }

    /// Removes the last end.
    pub fn pop(&mut self)
        requires { 1 < length self.old }
        ensures { (p : ProblemParts) (node : List ℕ) → 0 < length node → AreEnds p node self.old
            → AreEnds p (take (length node - 1) node) self.new }
    {
        self.ends.truncate(self.ends.len() - 1);
    }
}
