//! Leads by their heads, with a falseness table.

ghost use Rattle.std.specs.Prelude.{◌≡◌, ◌+◌, ◌-◌, ◌<◌, ◌≤◌, ◌↔◌, ℕ, true, false, List, [], ◌∷◌, ◌++◌, length, vec_capacity, Contains, IfOk, IfSome, IsTrue, IsNone};
ghost use Rattle.cr_row.specs.Rows.{IsRow, IsInverse, rounds};
ghost use Rattle.cr_model.specs.Problems.{ProblemParts};
ghost use Rattle.cr_model.specs.Callings.{changes_of, rows_from, rows_of, head_of, length_of, AllDiffer};
ghost use Rattle.cr_model.specs.Sizes.{child};
ghost use Rattle.cr_leads.specs.Tables.{lead_table, lead_rows};
ghost use Rattle.cr_rowset.specs.Pushing.{StandsAt};
ghost use Rattle.cr_false.specs.Sets.{IsFalseTable, ShareARow};
ghost use Rattle.cr_prune.specs.Heads.{heads_from, IsFound};
ghost use Rattle.cr_prune.specs.Ends.{end_of};
ghost use Rattle.cr_prune.specs.Parts.{AreNew};
ghost use Rattle.cr_prune.specs.Walks.{parent};

use crate::ends::LeadEnd;
use crate::walk::head_after;
use cr_false::FalseTable;
use cr_false::laws::a_clash_is_a_shared_row;
use cr_leads::LeadTable;
use cr_model::Problem;
use cr_row::{NoMemory, Row};
use std::alloc::Global;
use std::marker::Model;

// The most leads of a node.
const ROOM: usize = 1024;

/// A lead of a node.
#[derive(Clone, Copy)]
pub struct Earlier {
    step: u8,
    // The inverse of the head from which it is rung.
    inverse: Row,
    // The place where rounds stands among the rows up to its end, counted from 0. None where it stands nowhere.
    round: Option<u64>,
}

/// Leads of a problem, rung one after another from rounds, by their heads.
///
/// It is seen as the problem and the leads.
#[derive(Drop)]
pub struct Heads<'a> {
    problem: &'a Problem,
    leads: &'a LeadTable,
    table: &'a FalseTable,
    earlier: Vec<Earlier>,
}

impl<'a> Model for Heads<'a> {
    ghost use Rattle.std.specs.Prelude.{◌≤◌, vec_capacity};
    ghost use Rattle.cr_prune.specs.Heads.{HeadsParts, heads_from, steps_of, AreHeads};

    ghost Value = { HeadsParts };

    ghost view = { λ h. heads_from h.problem.now (steps_of h.earlier.items) };

    ghost invariant = { λ h. AreHeads h.problem.now h.leads.now h.table.now h.earlier.items × (1024 ≤ vec_capacity h.earlier) };
}

impl<'a> Heads<'a> {
    /// No leads. All memory that 1,024 of them need is taken here.
    pub fn new(
        alloc: Global,
        problem: &'a Problem,
        leads: &'a LeadTable,
        table: &'a FalseTable,
    ) -> Result<Heads<'a>, NoMemory>
        requires leads { leads.now ≡ lead_table problem.now }
        requires table { IsFalseTable leads.now table.now }
        ensures { IfOk result (λ heads. heads ≡ heads_from problem.now []) }
    {
        let earlier = Vec::with_capacity(alloc, ROOM)?;
        Ok(Heads {
            problem,
            leads,
            table,
            earlier,
        })
    }

    /// Where rounds stands among the rows of the leads, counted from 0. None where it stands nowhere.
    pub fn round(&self) -> Option<u64>
        ensures { IsFound (rows_of self.now.problem self.now.leads) (rounds self.now.problem.stage) result }
    {
        match self.earlier.last() {
            Some(last) => last.round,
            None => None,
        }
    }

    /// Whether a lead of a step that is rung from a row brings no row of the leads again.
    pub fn are_new(&self, from: &Row, step: u8) -> bool
        requires same_stage { length from.now ≡ self.now.problem.stage }
        requires step { step < length self.now.problem.leads }
        ensures { IsTrue result ↔ AreNew (rows_of self.now.problem self.now.leads) (rows_from from.now (changes_of self.now.problem step)) }
    {
        for earlier in &self.earlier {
            if clash(self.table, earlier, from, step) {
                return false;
            }
        }
        true
    }

    /// Rings one more lead from the end of the others, unless it brings a row again. Gives its last row, or None
    /// where a row comes again.
    pub fn ring(&mut self, from: LeadEnd, step: u8) -> Option<Row>
        requires from { from ≡ end_of self.old.problem self.old.leads }
        requires step { step < length self.old.problem.leads }
        requires few { length self.old.leads < 1024 }
        requires short { from.rung ≤ 12000 }
        ensures last { IfSome result (λ last. last ≡ head_of self.old.problem (child self.old.leads step)) }
        ensures some { IfSome result (λ _. self.new ≡ heads_from self.old.problem (child self.old.leads step)) }
        ensures differ { IfSome result (λ _. AllDiffer (rows_of self.old.problem self.old.leads)
            → AllDiffer (rows_of self.old.problem (child self.old.leads step))) }
        ensures none { IsNone result → self.new ≡ self.old }
        ensures again { IsNone result → AllDiffer (rows_of self.old.problem (child self.old.leads step)) → ⊥ }
    {
        let head = from.head;
        if !self.stay_different(&head, step) {
            return None;
        }
        self.add(from, step);
        Some(head_after(self.leads, head, step))
    }

    /// Takes the last lead back.
    pub fn take_back(&mut self)
        requires { 0 < length self.old.leads }
        ensures { self.new ≡ heads_from self.old.problem (parent self.old.leads) }
    {
        self.earlier.truncate(self.earlier.len() - 1);
    }

    // Whether the rows of the leads still differ with a lead more, if they do now.
    fn stay_different(&self, from: &Row, step: u8) -> bool
        requires from { from.now ≡ head_of self.now.problem self.now.leads }
        requires step { step < length self.now.problem.leads }
        ensures yes { result ≡ true → AllDiffer (rows_of self.now.problem self.now.leads)
            → AllDiffer (rows_of self.now.problem (child self.now.leads step)) }
        ensures no { result ≡ false → AllDiffer (rows_of self.now.problem (child self.now.leads step)) → ⊥ }
    {
        !self.table.self_false(step) && self.are_new(from, step)
    }

    // Adds a lead that is rung from the end of the others.
    fn add(&mut self, from: LeadEnd, step: u8)
        requires from { from ≡ end_of self.old.problem self.old.leads }
        requires step { step < length self.old.problem.leads }
        requires few { length self.old.leads < 1024 }
        requires short { from.rung ≤ 12000 }
        ensures { self.new ≡ heads_from self.old.problem (child self.old.leads step) }
    {
        let inverse = inverse_of(&from.head);
        let round = self.round_with(from, step, &inverse);
        push(
            &mut self.earlier,
            Earlier {
                step,
                inverse,
                round,
            },
        );
    }

    // Where rounds stands among the rows of the leads and one more, which is rung from the end of the others. The row is
    // the inverse of the head there.
    fn round_with(&self, from: LeadEnd, step: u8, inverse: &Row) -> Option<u64>
        requires from { from ≡ end_of self.now.problem self.now.leads }
        requires step { step < length self.now.problem.leads }
        requires short { from.rung ≤ 12000 }
        requires inverse { IsInverse from.head inverse.now }
        ensures { IsFound (rows_of self.now.problem (child self.now.leads step)) (rounds self.now.problem.stage) result }
    {
        match self.round() {
            Some(place) => Some(place),
            None => self.round_in(step, inverse, from.rung),
        }
    }

    // The place of a row in a lead, counted on from a number. None where it stands nowhere there.
    fn round_in(&self, step: u8, row: &Row, before: u64) -> Option<u64>
        requires step { step < length self.now.problem.leads }
        requires short { before ≤ 12000 }
        ensures some { IfSome result (λ place. (before ≤ place) × StandsAt (lead_rows (lead_table self.now.problem) step) row.now (place - before)) }
        ensures none { IsNone result → Contains (lead_rows (lead_table self.now.problem) step) row.now → ⊥ }
    {
        place_of(self.leads.rows_of(step), row, before)
    }
}

// The row between a head and rounds.
fn inverse_of(head: &Row) -> Row
    ensures { IsInverse head.now result }
{
    head.inverse()
}

// Whether an earlier lead and a lead of a step that is rung from a row share a row.
fn clash(table: &FalseTable, earlier: &Earlier, from: &Row, step: u8) -> bool
    requires known { earlier.now.step < length table.now.twice }
    requires step { step < length table.now.twice }
    requires same_stage { length earlier.now.inverse ≡ length from.now }
    ensures { (p : ProblemParts) (head : List ℕ) → IsFalseTable (lead_table p) table.now → IsRow head → length head ≡ p.stage
        → length from.now ≡ p.stage → IsInverse head earlier.now.inverse
        → IsTrue result ↔ ShareARow (rows_from head (changes_of p earlier.now.step)) (rows_from from.now (changes_of p step)) }
{
    a_clash_is_a_shared_row();
    // It tells that the bells are those of a row.
    let _ = from.stage();
    table.clash(earlier.step, step, &earlier.inverse.times(from))
}

// The place of a row among these, counted on from a number. None where it is none of them.
fn place_of(rows: &[Row], row: &Row, before: u64) -> Option<u64>
    requires few { before + length rows.now ≤ 13000 }
    ensures some { IfSome result (λ place. (before ≤ place) × StandsAt rows.now row.now (place - before)) }
    ensures none { IsNone result → Contains rows.now row.now → ⊥ }
{
    for index in 0..rows.len() {
        if rows[index] == *row {
            return Some(before + index as u64);
        }
    }
    None
}

// Appends a lead, for which there is room.
fn push(leads: &mut Vec<Earlier>, lead: Earlier)
    requires { length leads.old.items < vec_capacity leads.old }
    ensures items { leads.new.items ≡ leads.old.items ++ lead ∷ [] }
    ensures capacity { vec_capacity leads.old ≤ vec_capacity leads.new }
{
    match leads.push(lead) {
        Ok(()) => (),
        Err(_) => unreachable!(),
    }
}
