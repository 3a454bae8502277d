//! A walk through the nodes of a problem.

ghost use Rattle.std.specs.Prelude.{◌≡◌, ◌+◌, ◌-◌, ◌<◌, ◌≤◌, ◌↔◌, ℕ, Bool, true, false, not, ◌||◌, nat_lt, [], ◌∷◌, ◌++◌, length, take, get_or, All, Some, List, IsTrue, IfOk, IfSome};
ghost use Rattle.cr_row.specs.Rows.{rounds};
ghost use Rattle.cr_model.specs.Problems.{ProblemParts};
ghost use Rattle.cr_model.specs.Callings.{changes_at, changes_of, rows_from, last_of, rows_of, length_of, head_of, HasSteps};
ghost use Rattle.cr_model.specs.Queries.{part_cap};
ghost use Rattle.cr_model.specs.OneTurn.{touch_of};
ghost use Rattle.cr_model.specs.Decided.{rows_differ};
ghost use Rattle.cr_model.specs.Dead.{parts_of, is_round, is_too_many, is_too_few};
ghost use Rattle.cr_model.specs.Sizes.{child};
ghost use Rattle.cr_model.specs.Sound.{IsSound};
ghost use Rattle.cr_model.specs.LeastRotations.{TurnsBack, IsLeastRotation};
ghost use Rattle.cr_leads.specs.Tables.{lead_table};
ghost use Rattle.cr_false.specs.Sets.{IsFalseTable};
ghost use Rattle.cr_query.specs.declared.meter.Hopeless.TheVariants.{TooMany, TooFew};
ghost use Rattle.cr_query.specs.Meeting.{MeetsCounts, MeetsMethodCounts};
ghost use Rattle.cr_query.specs.Meters.{is_hopeless_by_leads};
ghost use Rattle.cr_prune.specs.Rung.{room_of};

use crate::ends::Ends;
use crate::first::FirstLeads;
use crate::further_parts::{bring_new_rows, parts_to_ring};
use cr_false::FalseTable;
use cr_leads::LeadTable;
use cr_model::laws::joined_callings_multiply;
use cr_model::{Lead, Problem};
use cr_query::{Hopeless, Meter};
use cr_rotate::Period;
use cr_row::{Change, NoMemory, Row};
use std::alloc::Global;
use std::marker::Model;

/// A walk from node to node of a problem, a step on or a step back at a time.
///
/// It is seen as the problem and the node. All memory is taken in `new`, and what it tells of its node takes a
/// time that does not grow with the node.
#[derive(Drop)]
pub struct Walk<'a> {
    problem: &'a Problem,
    leads: &'a LeadTable,
    // The node.
    steps: Period,
    ends: Ends,
    first: FirstLeads<'a>,
    meter: Meter,
}

impl<'a> Model for Walk<'a> {
    ghost use Rattle.cr_prune.specs.Walks.{WalkParts, walk_from, IsWalk};

    ghost Value = { WalkParts };

    ghost view = { λ w. walk_from w.problem.now w.steps };

    ghost invariant = { λ w. IsWalk w.problem.now w.leads.now w.steps w.ends w.first.held w.first.fresh w.meter };
}

impl<'a> Walk<'a> {
    /// The walk at the node of no steps. It takes all its room here: a row stack without a table, a list of lead heads
    /// with one. Err where no memory is left.
    pub fn new(
        alloc: Global,
        problem: &'a Problem,
        leads: &'a LeadTable,
        table: Option<&'a FalseTable>,
    ) -> Result<Walk<'a>, NoMemory>
        requires leads { leads.now ≡ lead_table problem.now }
        requires table { IfSome table (λ table. IsFalseTable leads.now table.now) }
        ensures { IfOk result (λ walk. walk ≡ record { problem = problem.now; node = [] }) }
    {
        let steps = Period::new(alloc)?;
        let ends = Ends::new(alloc, Row::rounds(problem.stage()))?;
        let first = FirstLeads::new(alloc, problem, leads, table)?;
        let meter = Meter::new(alloc, problem)?;
        Ok(Walk {
            problem,
            leads,
            steps,
            ends,
            first,
            meter,
        })
    }

    /// Goes to the child by this step. It takes no memory.
    pub fn go(&mut self, step: u8)
        requires step { step < length self.old.problem.leads }
        requires few { length self.old.node < 1024 }
        requires short { length_of self.old.problem self.old.node ≤ part_cap self.old.problem }
        ensures { self.new ≡ record { problem = self.old.problem; node = child self.old.node step } }
    {
        let leads = self.leads;
        let from = self.ends.last();
        let end = self
            .first
            .ring(self.problem, leads, self.steps.steps(), from, step);
        self.ends.push(end);
        self.meter.add_lead(leads, step, &from.head);
        self.steps.push(step);
    }

    /// Goes back to the node without the last step. It takes no memory.
    pub fn back(&mut self)
        requires { 0 < length self.old.node }
        ensures { self.new ≡ record { problem = self.old.problem; node = take (length self.old.node - 1) self.old.node } }
    {
        let leads = self.leads;
        let number = self.steps.steps().len();
        let step = self.steps.steps()[number - 1];
        self.ends.pop();
        let before = self.ends.last();
        self.first.take_back(number, before.rung);
        self.meter.take_back(leads, step, &before.head);
        self.steps.pop();
    }

    /// The steps of the node.
    pub fn steps(&self) -> &[u8]
        ensures is { result.now ≡ self.now.node }
        ensures few { length self.now.node ≤ 1024 }
        ensures known { HasSteps self.now.problem self.now.node }
    {
        self.steps.steps()
    }

    /// The last row of the node, or rounds where it has no steps.
    #[tactic(auto, using(crate::proofs::Limits::head_long))]
    pub fn head(&self) -> Row
        ensures is { result ≡ head_of self.now.problem self.now.node }
        ensures same_stage { length result ≡ self.now.problem.stage }
    {
        self.ends.last().head
    }

    /// The number of rows of the node.
    pub fn length(&self) -> u64
        ensures is { result ≡ length_of self.now.problem self.now.node }
        ensures within { result ≤ room_of self.now.problem }
        ensures few { result ≤ 12128 }
    {
        // A problem keeps all of its checks, so that the room is small.
        let _ = self.problem.stage();
        self.ends.last().rung
    }

    /// Whether a row of the node stands twice.
    pub fn has_repeat(&self) -> bool
        ensures { result ≡ not (rows_differ (rows_of self.now.problem self.now.node)) }
    {
        self.first.has_repeat(self.steps.steps().len())
    }

    /// Whether all rows of the node's touch differ, where those of the node do and the touch comes round. It takes no
    /// memory, goes through half of the parts, and stops at the first lead that brings a row of the node again.
    pub fn parts_differ(&self) -> bool
        requires fresh { rows_differ (rows_of self.now.problem self.now.node) ≡ true }
        requires round { head_of self.now.problem (touch_of self.now.problem self.now.node) ≡ rounds self.now.problem.stage }
        ensures { result ≡ rows_differ (rows_of self.now.problem (touch_of self.now.problem self.now.node)) }
    {
        let head = self.ends.last().head;
        let parts = parts_to_ring(self.problem);
        let node = self.steps.steps();
        bring_new_rows(&self.first, self.problem, self.leads, node, head, parts)
    }

    /// Whether no rotation of the node is less than it.
    pub fn is_least(&self) -> bool
        ensures { IsTrue result ↔ IsLeastRotation self.now.node }
    {
        self.steps.is_least()
    }

    /// Whether the node's touch, which is so many times the node as the query has parts, meets each count of marks
    /// and of methods.
    pub fn meets_counts(&self) -> bool
        ensures { IsTrue result ↔ (MeetsCounts self.now.problem (touch_of self.now.problem self.now.node)
            × MeetsMethodCounts self.now.problem (touch_of self.now.problem self.now.node)) }
    {
        self.meter.meets_counts()
    }

    /// Whether the node turns back.
    pub(crate) fn turns_back(&self) -> bool
        ensures { IsTrue result ↔ TurnsBack self.now.node }
    {
        self.steps.turns_back()
    }

    /// Whether the child by this step turns back.
    pub(crate) fn turns_back_with(&self, step: u8) -> bool
        ensures { IsTrue result ↔ TurnsBack (child self.now.node step) }
    {
        self.steps.turns_back_with(step)
    }

    /// Whether the node has too many or too few of what the query counts.
    pub(crate) fn hopeless(&self) -> Option<Hopeless>
        ensures many { (result ≡ Some TooMany) ↔ (is_too_many self.now.problem self.now.node ≡ true) }
        ensures few { (result ≡ Some TooFew)
            ↔ ((is_too_many self.now.problem self.now.node ≡ false) × (is_too_few self.now.problem self.now.node ≡ true)) }
    {
        self.meter.hopeless()
    }

    /// Whether the child by this step has so by its leads alone.
    pub(crate) fn is_hopeless_with(&self, step: u8) -> bool
        requires { step < length self.now.problem.leads }
        ensures { result ≡ is_hopeless_by_leads self.now.problem (child self.now.node step) }
    {
        self.meter.is_hopeless_with(step)
    }

    /// Whether rounds comes too early in a node whose rows differ: before its last row, or there where there are
    /// several parts.
    pub(crate) fn is_round(&self, several: bool) -> bool
        requires differ { rows_differ (rows_of self.now.problem self.now.node) ≡ true }
        requires several { several ≡ nat_lt 1 (parts_of self.now.problem) }
        ensures { result ≡ is_round self.now.problem self.now.node }
    {
        let rounds = Row::rounds(self.problem.stage());
        match self.first.round(&rounds) {
            Some(place) => is_early(place, self.length(), several),
            None => false,
        }
    }
}

// Whether a place is before the last of so many, or there are several parts.
fn is_early(place: u64, length: u64, several: bool) -> bool
    requires { place < length }
    ensures { result ≡ (several || nat_lt (place + 1) length) }
{
    several || place + 1 < length
}

/// The changes of a step.
pub fn changes_of(problem: &Problem, step: u8) -> &[Change]
    requires { step < length problem.now.leads }
    ensures is { result.now ≡ changes_of problem.now step }
    ensures staged { All (λ change. change.stage ≡ problem.now.stage) result.now }
    ensures few { length result.now ≤ 128 }
    ensures sound { IsSound problem.now }
{
    changes_at(problem.leads(), step)
}

// The changes of the lead with this number.
#[tactic(auto, using(cr_model::specs::Callings::changes_at_is))]
fn changes_at(leads: &[Lead], step: u8) -> &[Change]
    requires { step < length leads.now }
    ensures { result.now ≡ changes_at leads.now step }
{
    let lead = &leads[usize::from(step)];
    lead.changes.as_slice()
}

/// The head after one more lead that is rung from a head.
pub fn head_after(leads: &LeadTable, head: Row, step: u8) -> Row
    requires step { step < length leads.now.leads }
    requires same_stage { length head ≡ leads.now.stage }
    ensures is { (p : ProblemParts) (node : List ℕ) → leads.now ≡ lead_table p → head ≡ head_of p node
        → result ≡ head_of p (child node step) }
    ensures last { (p : ProblemParts) → leads.now ≡ lead_table p → result ≡ last_of head (rows_from head (changes_of p step)) }
{
    joined_callings_multiply();
    head.times(&leads.head_of(step))
}
