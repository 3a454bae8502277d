//! The leads of a problem, rung from any head.

ghost use Rattle.std.specs.Prelude.{◌≡◌, ℕ, ◌+◌, ◌*◌, ◌^◌, ◌<◌, ◌≤◌, Bool, ◌||◌, ◌&&◌, not, nat_lt, nat_eq, nat_abs, List, [], ◌∷◌, length, take, drop, All, IfOk};
ghost use Rattle.std.specs.List.{list_any};
ghost use Rattle.cr_row.specs.Rows.{rounds, IsInverse};
ghost use Rattle.cr_model.specs.Callings.{rows_of, changes_at, lead_length, shortest};
ghost use Rattle.cr_model.specs.Levels.{at_least, is_listed};
ghost use Rattle.cr_model.specs.Dead.{has_rounds};
ghost use Rattle.cr_model.specs.Sizes.{most_rows};
ghost use Rattle.cr_model.specs.Right.{FitsStage, pattern_at};
ghost use Rattle.cr_leads.specs.Tables.{lead_table};
ghost use Rattle.cr_reach.specs.Tables.{reach_table};
ghost use Rattle.cr_path.specs.Numbers.{lead_from, head_after, brings_round, dies_after, power, comes_round};
ghost use Rattle.cr_path.specs.PathLimits.{has_row_twice};
ghost use Rattle.cr_path.specs.Rung.{IsReached};
ghost use Rattle.cr_false.specs.Telling.{AreTelling};

use crate::numbers::path_limits::PathLimits;
use cr_false::TellingRows;
use cr_leads::LeadTable;
use cr_model::{Lead, Pattern, Problem, Query};
use cr_reach::ReachTable;
use cr_row::{NoMemory, Row, Stage};
use std::alloc::Global;
use std::marker::Model;

// From how many bells on few rows of each lead are looked for. Below, there are so few rows that all of them may stand for
// each other, which leaves fewer.
const FEW_FROM: u8 = 8;

/// The leads of a problem, and what is known of each before it is rung from a head.
///
/// It is seen as the problem.
#[derive(Drop)]
pub struct Leads<'a> {
    problem: &'a Problem,
    leads: &'a LeadTable,
    reach: &'a ReachTable,
    path_limits: PathLimits,
}

impl<'a> Model for Leads<'a> {
    ghost use Rattle.std.specs.Prelude.{◌≡◌};
    ghost use Rattle.cr_model.specs.Problems.{ProblemParts};
    ghost use Rattle.cr_model.specs.Sizes.{most_rows};
    ghost use Rattle.cr_leads.specs.Tables.{lead_table};
    ghost use Rattle.cr_reach.specs.Tables.{reach_table};
    ghost use Rattle.cr_path.specs.PathLimits.{ArePathLimits};

    ghost Value = { ProblemParts };

    ghost view = { λ l. l.problem.now };

    ghost invariant = { λ l. (l.leads.now ≡ lead_table l.problem.now) × (l.reach.now ≡ reach_table l.problem.now most_rows) × ArePathLimits l.problem.now l.path_limits };
}

impl<'a> Leads<'a> {
    /// The leads of a problem. Err where no memory is left.
    pub fn new(
        alloc: Global,
        problem: &'a Problem,
        leads: &'a LeadTable,
        reach: &'a ReachTable,
    ) -> Result<Leads<'a>, NoMemory>
        requires leads { leads.now ≡ lead_table problem.now }
        requires reach { reach.now ≡ reach_table problem.now most_rows }
        ensures { IfOk result (λ made. made ≡ problem.now) }
    {
        let path_limits = PathLimits::of(alloc, problem, leads)?;
        Ok(Leads {
            problem,
            leads,
            reach,
            path_limits,
        })
    }

    /// The number of steps.
    pub fn count(&self) -> u8
        ensures is { result ≡ length self.now.leads }
        ensures some { 0 < result }
        ensures few { result ≤ 24 }
    {
        // A problem keeps all of its checks.
        let _ = self.problem.stage();
        self.leads.count()
    }

    /// The number of changes of the shortest lead.
    pub fn shortest(&self) -> u64
        ensures is { result ≡ shortest self.now }
        ensures some { 1 ≤ result }
        ensures few { result ≤ 128 }
    {
        self.path_limits.shortest
    }

    /// Rounds, from which they are rung first.
    pub fn rounds(&self) -> Row
        ensures is { result ≡ rounds self.now.stage }
        ensures same_stage { length result ≡ self.now.stage }
    {
        Row::rounds(self.problem.stage())
    }

    /// The stage.
    pub fn stage(&self) -> Stage
        ensures { result ≡ self.now.stage }
    {
        self.problem.stage()
    }

    /// The patterns of the query.
    pub fn patterns(&self) -> &[Pattern]
        ensures is { result.now ≡ self.now.query.patterns }
        ensures fit { (i : ℕ) → i < length result.now → FitsStage self.now.stage (pattern_at result.now i).cells }
    {
        patterns_of(self.problem.query())
    }

    /// The rows of a step that is rung from rounds.
    #[tactic(auto, using(cr_leads::specs::Tables::leads_counted))]
    pub fn rows_of(&self, step: u8) -> &[Row]
        requires { step < length self.now.leads }
        ensures is { result.now ≡ rows_of self.now (step ∷ []) }
        ensures same_stage { All (λ row. length row ≡ self.now.stage) result.now }
        ensures few { length result.now ≤ 128 }
    {
        self.leads.rows_of(step)
    }

    /// The head after a step that is rung from a head.
    #[tactic(auto, using(cr_leads::specs::Tables::leads_counted))]
    pub fn head_after(&self, head: &Row, step: u8) -> Row
        requires step { step < length self.now.leads }
        requires same_stage { length head.now ≡ self.now.stage }
        ensures is { result ≡ head_after self.now head.now step }
        ensures same_stage { length result ≡ self.now.stage }
    {
        head.times(&self.leads.head_of(step))
    }

    /// Whether a head leads to rounds as often as the query has parts.
    pub fn comes_round(&self, head: &Row) -> bool
        requires { length head.now ≡ self.now.stage }
        ensures { result ≡ comes_round self.now head.now }
    {
        let stage = self.problem.stage();
        power(stage, head, self.problem.parts()) == Row::rounds(stage)
    }

    /// The rows that tell the leads apart: all of them, and from eight bells on few of each. Err where no memory is left.
    pub fn telling_rows(&self, alloc: Global) -> Result<TellingRows, NoMemory>
        ensures { IfOk result (λ told. AreTelling (lead_table self.now) told) }
    {
        if self.stage().number() < FEW_FROM {
            TellingRows::all(alloc, self.leads)
        } else {
            TellingRows::new(alloc, self.leads)
        }
    }

    /// Whether the lead of a step brings rounds, rung from the head of which this is the inverse.
    pub fn has_round(&self, step: u8, inverse: &Row) -> bool
        requires { step < length self.now.leads }
        ensures { (head : List ℕ) → IsReached self.now head → IsInverse head inverse.now
            → result ≡ has_rounds self.now (lead_from self.now head step) }
    {
        has_row(self.rows_of(step), inverse)
    }

    /// Whether it brings rounds before its last row, or there where there are several parts.
    pub fn brings_round(&self, step: u8, inverse: &Row) -> bool
        requires { step < length self.now.leads }
        ensures { (head : List ℕ) → IsReached self.now head → IsInverse head inverse.now
            → result ≡ brings_round self.now (lead_from self.now head step) }
    {
        let rows = self.rows_of(step);
        let last = rows.len().saturating_sub(1);
        has_row(&rows[..last], inverse)
            || (has_row(&rows[last..], inverse) && self.path_limits.several)
    }

    /// How many leads a head is from rounds at least.
    pub fn at_least(&self, head: &Row) -> u32
        ensures { result ≡ at_least self.now most_rows head.now }
    {
        self.reach.at_least(head)
    }

    /// The length below which a node may have a live child by this step, of which it is given how many leads the head after
    /// it is from rounds at least, and whether it brings rounds too early. It is 0 where no node may.
    pub fn limit(&self, step: u8, level: u32, round: bool) -> u16
        requires { step < length self.now.leads }
        ensures { (head : List ℕ) → level ≡ at_least self.now most_rows (head_after self.now head step)
            → round ≡ brings_round self.now (lead_from self.now head step)
            → (rung : ℕ) → nat_lt rung result ≡ not (dies_after self.now head step rung) }
    {
        if round || self.has_row_twice(step) {
            return 0;
        }
        let length = u64::from(self.length_of(step));
        let round = self.least_to_rounds(level);
        room_beside(self.path_limits.part_cap, length).min(room_beside(
            self.path_limits.cap,
            length + round,
        ))
    }

    /// Whether the lead of a step has a row twice.
    #[tactic(auto, using(crate::proofs::Lives::twice_at, crate::proofs::Lives::twice_counted))]
    pub fn has_row_twice(&self, step: u8) -> bool
        requires { step < length self.now.leads }
        ensures { result ≡ has_row_twice self.now step }
    {
        self.path_limits.twice[usize::from(step)]
    }

    /// The number of changes of a step.
    #[tactic(auto, using(crate::proofs::Bounds::lead_few, crate::proofs::Children::some_changes))]
    pub fn length_of(&self, step: u8) -> u8
        requires { step < length self.now.leads }
        ensures is { result ≡ lead_length self.now step }
        ensures some { 0 < result }
        ensures few { result ≤ 128 }
    {
        lead_length(self.problem.leads(), step) as u8
    }

    // The least number of changes that may lead to rounds from a head that is so many leads away at least.
    fn least_to_rounds(&self, level: u32) -> u64
        ensures is { result ≡ shortest self.now * level }
        ensures few { result < 2 ^ 40 }
    {
        self.path_limits.shortest * u64::from(level)
    }
}

// The patterns of a query.
fn patterns_of(query: &Query) -> &[Pattern]
    ensures { result.now ≡ query.now.patterns }
{
    query.patterns.as_slice()
}

// Whether a row is one of these.
fn has_row(rows: &[Row], row: &Row) -> bool
    ensures { result ≡ is_listed rows.now row.now }
{
    rows.iter().any(|other| *other == *row)
}

// Rounds by a row, so many times.
fn power(stage: Stage, row: &Row, number: u64) -> Row
    requires { length row.now ≡ stage }
    ensures is { result ≡ power stage row.now number }
    ensures same_stage { length result ≡ stage }
{
    let mut product = Row::rounds(stage);
    for _part in 0..number {
        product = product.times(row);
    }
    product
}

// The number of changes of a lead.
#[tactic(auto, using(cr_model::specs::Callings::changes_at_is))]
fn lead_length(leads: &[Lead], step: u8) -> u64
    requires { step < length leads.now }
    ensures { result ≡ length (changes_at leads.now step) }
{
    let lead = &leads[usize::from(step)];
    lead.changes.len() as u64
}

// One more than the greatest number that makes with another no more than the most, or 0 where none does.
fn room_beside(most: u64, other: u64) -> u16
    requires { most ≤ 12000 }
    ensures { (number : ℕ) → nat_lt number result ≡ not (nat_lt most (number + other)) }
{
    (most + 1).saturating_sub(other) as u16
}
