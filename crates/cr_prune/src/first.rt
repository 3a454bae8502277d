//! The first leads of a node, as many as bring no row again.

ghost use Rattle.std.specs.Prelude.{◌≡◌, ◌-◌, ◌<◌, ◌≤◌, ℕ, not, [], List, length, take, IfOk, IfSome};
ghost use Rattle.cr_row.specs.Rows.{rounds};
ghost use Rattle.cr_model.specs.Problems.{ProblemParts};
ghost use Rattle.cr_model.specs.Callings.{changes_of, rows_of, length_of};
ghost use Rattle.cr_model.specs.Queries.{part_cap};
ghost use Rattle.cr_model.specs.Decided.{rows_differ};
ghost use Rattle.cr_model.specs.Sizes.{child};
ghost use Rattle.cr_leads.specs.Tables.{lead_table};
ghost use Rattle.cr_false.specs.Sets.{IsFalseTable};
ghost use Rattle.cr_prune.specs.Ends.{end_of};
ghost use Rattle.cr_prune.specs.Heads.{IsFound};
ghost use Rattle.cr_prune.specs.Holding.{AreFirst, IsOf, HasMore};
ghost use Rattle.cr_prune.specs.Parts.{RingsPast};
ghost use Rattle.cr_prune.specs.Rung.{room_of};

use crate::ends::LeadEnd;
use crate::held::Held;
use crate::walk::{changes_of, head_after};
use cr_false::FalseTable;
use cr_leads::LeadTable;
use cr_model::Problem;
use cr_row::{NoMemory, Row};
use std::alloc::Global;

/// The first leads of a node, as many as bring no row again.
#[derive(Drop)]
pub struct FirstLeads<'a> {
    held: Held<'a>,
    // How many leads these are.
    fresh: usize,
}

impl<'a> FirstLeads<'a> {
    /// No leads. All memory is taken here: for the rows of a node, or for its heads where there is a falseness table.
    pub fn new(
        alloc: Global,
        problem: &'a Problem,
        leads: &'a LeadTable,
        table: Option<&'a FalseTable>,
    ) -> Result<FirstLeads<'a>, NoMemory>
        requires leads { leads.now ≡ lead_table problem.now }
        requires table { IfSome table (λ table. IsFalseTable leads.now table.now) }
        ensures { IfOk result (λ first. AreFirst problem.now [] first.held first.fresh) }
    {
        let held = Held::new(alloc, problem, leads, table)?;
        Ok(FirstLeads { held, fresh: 0 })
    }

    /// Whether one of so many leads brings a row again.
    pub fn has_repeat(&self, leads: usize) -> bool
        ensures { (p : ProblemParts) (node : List ℕ) → leads ≡ length node → AreFirst p node self.now.held self.now.fresh
            → result ≡ not (rows_differ (rows_of p node)) }
    {
        self.fresh != leads
    }

    /// Where rounds, which is this row, stands among the rows of these leads, counted from 0. None where it stands
    /// nowhere.
    pub fn round(&self, row: &Row) -> Option<u64>
        ensures { (p : ProblemParts) (node : List ℕ) → row.now ≡ rounds p.stage → AreFirst p node self.now.held self.now.fresh
            → IsFound (rows_of p (take self.now.fresh node)) (rounds p.stage) result }
    {
        self.held.round(row)
    }

    /// Rings one more lead from the end of the node, and gives the end after it.
    pub fn ring(
        &mut self,
        problem: &Problem,
        leads: &LeadTable,
        node: &[u8],
        from: LeadEnd,
        step: u8,
    ) -> LeadEnd
        requires table { leads.now ≡ lead_table problem.now }
        requires first { AreFirst problem.now node.now self.old.held self.old.fresh }
        requires from { from ≡ end_of problem.now node.now }
        requires step { step < length problem.now.leads }
        requires few { length node.now < 1024 }
        requires short { length_of problem.now node.now ≤ part_cap problem.now }
        ensures end { result ≡ end_of problem.now (child node.now step) }
        ensures within { length_of problem.now (child node.now step) ≤ room_of problem.now }
        ensures first { AreFirst problem.now (child node.now step) self.new.held self.new.fresh }
    {
        let start = from.head;
        let changes = changes_of(problem, step);
        let rung = from.rung + changes.len() as u64;
        if self.fresh == node.len() {
            if let Some(head) = self.held.ring(from, step, changes) {
                self.fresh = node.len() + 1;
                return LeadEnd { head, rung };
            }
        }
        let head = head_after(leads, start, step);
        LeadEnd { head, rung }
    }

    /// Takes the last of so many leads back, before which there are so many rows.
    pub fn take_back(&mut self, leads: usize, rung: u64)
        requires some { 0 < leads }
        requires more { self.old.fresh ≡ leads → HasMore self.old.held rung }
        ensures { (p : ProblemParts) (node : List ℕ) → leads ≡ length node → rung ≡ length_of p (take (leads - 1) node)
            → AreFirst p node self.old.held self.old.fresh
            → AreFirst p (take (leads - 1) node) self.new.held self.new.fresh }
    {
        if self.fresh == leads {
            self.held.take_back(rung);
            self.fresh = leads - 1;
        }
    }

    /// Rings a lead from a row, as long as no row comes that these leads have, and gives the last row.
    pub fn ring_past(
        &self,
        problem: &Problem,
        leads: &LeadTable,
        from: Row,
        step: u8,
    ) -> Option<Row>
        requires table { leads.now ≡ lead_table problem.now }
        requires of_problem { IsOf problem.now self.now.held }
        requires same_stage { length from ≡ problem.now.stage }
        requires step { step < length problem.now.leads }
        ensures past { (node : List ℕ) → AreFirst problem.now node self.now.held self.now.fresh
            → RingsPast (rows_of problem.now (take self.now.fresh node)) from (changes_of problem.now step) result }
        ensures same_stage { IfSome result (λ last. length last ≡ problem.now.stage) }
    {
        self.held.ring_past(problem, leads, from, step)
    }
}
