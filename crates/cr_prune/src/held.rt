//! The leads of a node, kept as rows on a stack, or as heads beside a falseness table.

ghost use Rattle.std.specs.Prelude.{◌≡◌, ◌+◌, ◌-◌, ◌<◌, ◌≤◌, ℕ, [], List, length, take, All, IfOk, IfSome};
ghost use Rattle.cr_row.specs.Rows.{rounds};
ghost use Rattle.cr_model.specs.Problems.{ProblemParts};
ghost use Rattle.cr_model.specs.Callings.{changes_of, rows_of, length_of};
ghost use Rattle.cr_leads.specs.Tables.{lead_table};
ghost use Rattle.cr_false.specs.Sets.{IsFalseTable};
ghost use Rattle.cr_prune.specs.Ends.{end_of};
ghost use Rattle.cr_prune.specs.Heads.{IsFound};
ghost use Rattle.cr_prune.specs.Holding.{IsHeld, IsOf, CanRing, Rings, HasMore};
ghost use Rattle.cr_prune.specs.Parts.{RingsPast};
ghost use Rattle.cr_prune.specs.Rung.{room_of};

use crate::ends::LeadEnd;
use crate::heads::Heads;
use crate::passing::ring_past;
use crate::rows::ring_lead;
use crate::walk::{changes_of, head_after};
use cr_false::FalseTable;
use cr_leads::LeadTable;
use cr_model::Problem;
use cr_model::limits::MOST_LEAD_CHANGES;
use cr_row::{Change, NoMemory, Row};
use cr_rowset::RowStack;
use std::alloc::Global;

/// Leads of a problem, rung one after another from rounds, by which it is told whether one more brings a row of theirs
/// again.
#[derive(Drop)]
pub enum Held<'a> {
    /// Their rows.
    Rows(RowStack),
    /// Their heads, and a falseness table.
    Heads(Heads<'a>),
}

impl<'a> Held<'a> {
    /// No leads. All memory is taken here: for the rows of a node, or for its heads where there is a table.
    pub fn new(
        alloc: Global,
        problem: &'a Problem,
        leads: &'a LeadTable,
        table: Option<&'a FalseTable>,
    ) -> Result<Held<'a>, NoMemory>
        requires leads { leads.now ≡ lead_table problem.now }
        requires table { IfSome table (λ table. IsFalseTable leads.now table.now) }
        ensures { IfOk result (λ held. IsHeld problem.now [] held) }
    {
        match table {
            Some(table) => {
                let heads = Heads::new(alloc, problem, leads, table)?;
                Ok(Held::Heads(heads))
            }
            None => {
                let stack = RowStack::with_many_buckets(alloc, room_of(problem))?;
                Ok(Held::Rows(stack))
            }
        }
    }

    /// Where rounds, which is this row, stands among the rows of the leads, counted from 0. None where it stands
    /// nowhere.
    pub fn round(&self, row: &Row) -> Option<u64>
        ensures { (p : ProblemParts) (leads : List ℕ) → row.now ≡ rounds p.stage → IsHeld p leads self.now
            → IsFound (rows_of p leads) (rounds p.stage) result }
    {
        match self {
            Held::Rows(stack) => stack.place_of(row),
            Held::Heads(heads) => heads.round(),
        }
    }

    /// Rings one more lead, of these changes, from the end of the others, unless it brings a row again. Gives its
    /// last row, or None where a row comes again.
    pub fn ring(&mut self, from: LeadEnd, step: u8, changes: &[Change]) -> Option<Row>
        requires can { CanRing self.old from step (length changes.now) }
        requires staged { All (λ change. change.stage ≡ length from.head) changes.now }
        ensures { (p : ProblemParts) (leads : List ℕ) → IsHeld p leads self.old → from ≡ end_of p leads
            → changes.now ≡ changes_of p step → Rings p leads step self.old result self.new }
    {
        match self {
            Held::Rows(stack) => ring_lead(stack, from.head, changes),
            Held::Heads(heads) => heads.ring(from, step),
        }
    }

    /// Takes the last lead back, before which there are so many rows.
    pub fn take_back(&mut self, rung: u64)
        requires { HasMore self.old rung }
        ensures { (p : ProblemParts) (leads : List ℕ) → rung ≡ length_of p (take (length leads - 1) leads)
            → IsHeld p leads self.old → IsHeld p (take (length leads - 1) leads) self.new }
    {
        match self {
            Held::Rows(stack) => stack.cut_to(rung),
            Held::Heads(heads) => heads.take_back(),
        }
    }

    /// Rings a lead from a row, as long as no row comes that the leads have, and gives the last row.
    pub fn ring_past(
        &self,
        problem: &Problem,
        leads: &LeadTable,
        from: Row,
        step: u8,
    ) -> Option<Row>
        requires table { leads.now ≡ lead_table problem.now }
        requires of_problem { IsOf problem.now self.now }
        requires same_stage { length from ≡ problem.now.stage }
        requires step { step < length problem.now.leads }
        ensures past { (held : List ℕ) → IsHeld problem.now held self.now
            → RingsPast (rows_of problem.now held) from (changes_of problem.now step) result }
        ensures same_stage { IfSome result (λ last. length last ≡ problem.now.stage) }
    {
        match self {
            Held::Rows(stack) => ring_past(stack, from, changes_of(problem, step)),
            Held::Heads(heads) => {
                if heads.are_new(&from, step) {
                    Some(head_after(leads, from, step))
                } else {
                    None
                }
            }
        }
    }
}

// The most rows of a node that a walk goes to: one lead more than a part may have.
fn room_of(problem: &Problem) -> u64
    ensures { result ≡ room_of problem.now }
{
    // A problem keeps all of its checks, so that the room is small.
    let _ = problem.stage();
    problem.part_cap() + MOST_LEAD_CHANGES as u64
}
