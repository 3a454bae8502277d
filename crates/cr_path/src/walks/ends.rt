//! Where the leads of a node end, by numbers.

ghost use Rattle.std.specs.Prelude.{◌≡◌, ◌+◌, ◌-◌, ◌<◌, ◌≤◌, ℕ, List, length, take, IfOk};
ghost use Rattle.cr_model.specs.Problems.{ProblemParts};
ghost use Rattle.cr_model.specs.Sizes.{child};
ghost use Rattle.cr_path.specs.Numbers.{NumberParts};
ghost use Rattle.cr_path.specs.Ends.{final_step, IsEnd, HasEnds};
ghost use Rattle.cr_path.specs.Sets.{AreUncut};
ghost use Rattle.cr_model.specs.Limits.{most_leads};

use cr_model::limits::MOST_LEADS;
use cr_row::NoMemory;
use std::alloc::Global;
use std::marker::Model;

// The most ends: one before all leads, and one after each.
const ROOM: usize = MOST_LEADS + 1;

/// Where a lead ends.
#[derive(Clone, Copy, Drop)]
pub struct LeadEnd {
    /// Where the records of the head there start.
    pub base: u32,
    /// How many changes have been rung so far.
    pub rung: u32,
    /// The steps of the children that are not cut and not tried yet.
    pub left: u32,
    /// 1 where the head, as often as the query has parts, leads to rounds, and else 0: a number, so that there are no gaps
    /// in an end, which would be copied one by one.
    pub round: u32,
}

/// The ends of a node's leads, with one before all of them. How many they are, the node tells.
///
/// They are seen as the last one and a list that begins with those before it.
#[derive(Drop)]
pub struct Ends {
    // The last one, which is at hand.
    last: LeadEnd,
    // Those before it, and as many more as a node may have: these are of no node.
    before: Vec<LeadEnd>,
}

impl Model for Ends {
    ghost use Rattle.std.specs.Prelude.{◌≡◌, ◌+◌, length};
    ghost use Rattle.cr_model.specs.Limits.{most_leads};
    ghost use Rattle.cr_path.specs.Ends.{EndsParts};

    ghost Value = { EndsParts };

    ghost view = { λ e. record { before = e.before.items; last = e.last } };

    ghost invariant = { λ e. length e.before.items ≡ most_leads + 1 };
}

impl Ends {
    /// The end before all leads, at the first head, of which no child is left. All memory that 1,024 leads need is
    /// taken here.
    pub fn new(alloc: Global) -> Result<Ends, NoMemory>
        ensures { IfOk result (λ ends. ends.last ≡ record { base = 0; rung = 0; left = 0; round = 1 }) }
    {
        let last = LeadEnd {
            base: 0,
            rung: 0,
            left: 0,
            round: 1,
        };
        let before = Vec::from_elem(alloc, last, ROOM)?;
        Ok(Ends { last, before })
    }

    /// The last end.
    #[inline(always)]
    pub fn last(&self) -> LeadEnd
        ensures is { (p : ProblemParts) (t : NumberParts) (node : List ℕ) (next : ℕ) → HasEnds p t node next self.now → IsEnd p t node result }
        ensures left { (p : ProblemParts) (t : NumberParts) (node : List ℕ) (next : ℕ) → HasEnds p t node next self.now → AreUncut p node next result.left }
    {
        self.last
    }

    /// Appends an end to those of a node with so many leads, and keeps of the one before it which children are left.
    #[inline(always)]
    pub fn push(&mut self, leads: usize, left: u32, end: LeadEnd)
        requires { leads ≤ most_leads }
        ensures { (p : ProblemParts) (t : NumberParts) (node : List ℕ) (next step after : ℕ) → leads ≡ length node → HasEnds p t node next self.old
            → AreUncut p node (step + 1) left → IsEnd p t (child node step) end → AreUncut p (child node step) after end.left
            → HasEnds p t (child node step) after self.new }
    {
        self.before[leads] = LeadEnd { left, ..self.last };
        self.last = end;
    }

    /// Removes the last end of those of a node, which has so many leads then.
    #[inline(always)]
    pub fn pop(&mut self, leads: usize)
        requires { leads ≤ most_leads }
        ensures { (p : ProblemParts) (t : NumberParts) (node : List ℕ) (next : ℕ) → leads + 1 ≡ length node → HasEnds p t node next self.old
            → HasEnds p t (take (length node - 1) node) (final_step node + 1) self.new }
    {
        self.last = self.before[leads];
    }

    /// Keeps which children of the last end are left.
    #[inline(always)]
    pub fn keep_left(&mut self, left: u32)
        ensures { (p : ProblemParts) (t : NumberParts) (node : List ℕ) (next after : ℕ) → HasEnds p t node next self.old → AreUncut p node after left
            → HasEnds p t node after self.new }
    {
        self.last.left = left;
    }
}
