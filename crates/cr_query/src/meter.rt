//! Meters: whether a node that grows and shrinks at its end can still come to a touch that meets the query.

ghost use Rattle.std.specs.Prelude.{◌≡◌, ◌-◌, ◌<◌, ◌≤◌, ◌↔◌, ◌||◌, ℕ, true, false, List, [], length, get_or, Some, IsTrue, IfOk};
ghost use Rattle.cr_leads.specs.Tables.{lead_table};
ghost use Rattle.cr_model.specs.Callings.{head_of, length_of};
ghost use Rattle.cr_model.specs.Dead.{is_too_many, is_too_few};
ghost use Rattle.cr_model.specs.OneTurn.{touch_of};
ghost use Rattle.cr_model.specs.Queries.{cap};
ghost use Rattle.cr_model.specs.Sizes.{child};
ghost use Rattle.cr_query.specs.Hits.{AreAlike};
ghost use Rattle.cr_query.specs.Sets.{has_step};
ghost use Rattle.cr_query.specs.Meeting.{MeetsCounts, MeetsMethodCounts};
ghost use Rattle.cr_query.specs.Meters.{meter_from, parent, item_numbers, rows_fitting_after, has_too_many_leads, has_too_few_leads, has_too_few_rows, is_hopeless_by_leads, is_hopeless_by_rows};
ghost use Rattle.cr_query.specs.declared.meter.Hopeless.TheVariants.{TooMany, TooFew};

use crate::compiling::{fittings_of, kinds_of, step_count};
use crate::hits::{Hits, hits_of};
use crate::kinds::Kind;
use crate::leads::LeadCounts;
use crate::meeting::patterns_of;
use crate::nodes::kind_at;
use crate::numbers::{Numbers, numbers_of};
use crate::pattern_limits::{
    Fitting, raise_counted, raise_rows, rows_at, some_are_out, some_have_fewer, some_have_more,
};
use crate::rooms::{room_at, rooms_of};
use crate::step_sets::{first_steps, with_step};
use crate::tallies::{all_in, leads_at};
use cr_leads::LeadTable;
use cr_model::Problem;
use cr_model::laws::{joined_callings_multiply, ringing_on};
use cr_row::{NoMemory, Row};
use std::alloc::Global;
use std::marker::Model;

/// Why no touch that meets the query begins with a node: it has more than a limit allows, or it can't come to
/// what a limit asks for.
#[derive(Clone, Copy, Debug, PartialEq, Eq)]
pub enum Hopeless {
    TooMany,
    TooFew,
}

/// A node of a problem, with the counts that the query's limits are on. It is seen as the problem and the node.
///
/// What is counted is kept of each front of the node, so to go back is to forget the last step. All memory is taken in
/// `new`. No call takes a time that grows with the node, and each is next to nothing where the query has no counts, no
/// patterns and no limits on changes of method.
#[derive(Drop)]
pub struct Meter {
    problem: Problem,
    numbers: Numbers,
    // Of each step.
    kinds: Vec<Kind>,
    // Of each length of a part.
    rooms: Vec<u16>,
    // Of each count of leads.
    hits: Hits,
    // Of each front of the node.
    leads: LeadCounts,
    patterns: Vec<Fitting>,
}

impl Model for Meter {
    ghost use Rattle.std.specs.Prelude.{◌≤◌, length, vec_capacity};
    ghost use Rattle.cr_query.specs.Gauges.{HasSmallNumbers, HasFewRows};
    ghost use Rattle.cr_query.specs.Hits.{AreHits};
    ghost use Rattle.cr_query.specs.Meters.{MeterParts, meter_from, IsCompiled, AreCounted, HaveFittings, AreSmall};
    ghost use Rattle.cr_query.specs.Tallies.{fittings_at};

    ghost Value = { MeterParts };

    ghost view = { λ m. meter_from m.problem m.leads.steps.items };

    ghost invariant = { λ m.
        IsCompiled m.problem m.kinds.items m.numbers m.rooms.items
        × AreCounted m.problem m.leads.steps.items m.leads
        × HaveFittings m.problem m.leads.steps.items m.patterns.items
        × HasSmallNumbers m.numbers
        × AreSmall m.leads
        × HasFewRows (fittings_at (length m.leads.steps.items) m.patterns.items)
        × (1024 ≤ vec_capacity m.leads.steps)
        × AreHits m.problem m.hits };
}

impl Meter {
    /// The meter of a problem, at the node of no steps. Err where no memory is left.
    pub fn new(alloc: Global, problem: &Problem) -> Result<Meter, NoMemory>
        ensures { IfOk result (λ meter. meter ≡ record { problem = problem.now; node = [] }) }
    {
        let numbers = numbers_of(problem);
        let kinds = kinds_of(alloc, problem)?;
        let rooms = rooms_of(alloc, numbers)?;
        let hits = hits_of(alloc, problem)?;
        let leads = LeadCounts::new(alloc, problem, numbers.parts)?;
        let patterns = fittings_of(alloc, problem.stage(), patterns_of(problem.query()))?;
        let problem = problem.copy(alloc)?;
        Ok(Meter {
            problem,
            numbers,
            kinds,
            rooms,
            hits,
            leads,
            patterns,
        })
    }

    /// Goes to the node with this step more. The row is the node's last one, from which the lead is rung. It
    /// takes no memory.
    pub fn add_lead(&mut self, leads: &LeadTable, step: u8, from: &Row)
        requires table { leads.now ≡ lead_table self.old.problem }
        requires step { step < length self.old.problem.leads }
        requires from { from.now ≡ head_of self.old.problem self.old.node }
        requires few { length self.old.node < 1024 }
        ensures { self.new ≡ record { problem = self.old.problem; node = child self.old.node step } }
    {
        joined_callings_multiply();
        let front = self.leads.front();
        self.leads.add(&self.kinds, step);
        raise_rows(&mut self.patterns, front, from, leads.rows_of(step));
    }

    /// Goes to the node with this step more, where it is known how many rows of its lead fit each pattern. It takes
    /// no memory, and rings nothing.
    #[inline(always)]
    pub fn add_counted(&mut self, step: u8, fitting: &[u8])
        requires step { step < length self.old.problem.leads }
        requires few { length self.old.node < 1024 }
        requires fitting { fitting.now ≡ rows_fitting_after self.old.problem self.old.node step }
        ensures { self.new ≡ record { problem = self.old.problem; node = child self.old.node step } }
    {
        joined_callings_multiply();
        let front = self.leads.front();
        self.leads.add(&self.kinds, step);
        raise_counted(&mut self.patterns, front, fitting);
    }

    /// Goes back to the node without its last step, which is this one. The row is the last one of the node that
    /// is left. It takes no memory. What is counted of that node is there still, so nothing is rung, and neither the
    /// leads nor the step nor the row is looked at.
    pub fn take_back(&mut self, leads: &LeadTable, step: u8, from: &Row)
        requires table { leads.now ≡ lead_table self.old.problem }
        requires last { self.old.node ≡ child (parent self.old.node) step }
        requires from { from.now ≡ head_of self.old.problem (parent self.old.node) }
        ensures { self.new ≡ record { problem = self.old.problem; node = parent self.old.node } }
    {
        self.take_last();
    }

    /// Goes back to the node without its last step. It takes no memory, and rings nothing.
    #[inline(always)]
    pub fn take_last(&mut self)
        requires { 0 < length self.old.node }
        ensures { self.new ≡ record { problem = self.old.problem; node = parent self.old.node } }
    {
        self.leads.take_last();
    }

    /// Whether the node has too many leads, rows or changes of method for the query, or too few that are left.
    pub fn hopeless(&self) -> Option<Hopeless>
        ensures many { (result ≡ Some TooMany) ↔ (is_too_many self.now.problem self.now.node ≡ true) }
        ensures few { (result ≡ Some TooFew)
            ↔ ((is_too_many self.now.problem self.now.node ≡ false) × (is_too_few self.now.problem self.now.node ≡ true)) }
    {
        if self.has_too_many() {
            Some(Hopeless::TooMany)
        } else if self.has_too_few() {
            Some(Hopeless::TooFew)
        } else {
            None
        }
    }

    /// Whether the node with this step more is so by its leads alone: rows that fit patterns are not looked at.
    pub fn is_hopeless_with(&self, step: u8) -> bool
        requires { step < length self.now.problem.leads }
        ensures { result ≡ is_hopeless_by_leads self.now.problem (child self.now.node step) }
    {
        if self.asks_nothing_of_leads() {
            return false;
        }
        ringing_on();
        let kind = kind_at(&self.kinds, step);
        let left = room_at(&self.rooms, self.leads.length() + u64::from(kind.length));
        self.leads
            .is_hopeless_with(self.numbers, &self.kinds, kind, left)
    }

    /// The steps, a bit for each, with one more of which the node is so by its leads alone. No other bit is set.
    #[inline(always)]
    pub fn hopeless_steps(&self) -> u32
        ensures each { (step : ℕ) → step < length self.now.problem.leads
            → has_step result step ≡ is_hopeless_by_leads self.now.problem (child self.now.node step) }
        ensures others { (step : ℕ) → length self.now.problem.leads ≤ step → has_step result step ≡ false }
    {
        if self.asks_nothing_of_leads() {
            return 0;
        }
        match self.hits.length {
            Some(long) => self.hopeless_alike(long),
            None => self.hopeless_one_by_one(),
        }
    }

    // The same where all steps have so many changes, and changes of method no limits: all steps are asked at once.
    #[inline(always)]
    fn hopeless_alike(&self, long: u8) -> u32
        requires { AreAlike self.now.problem long }
        ensures each { (step : ℕ) → step < length self.now.problem.leads
            → has_step result step ≡ is_hopeless_by_leads self.now.problem (child self.now.node step) }
        ensures others { (step : ℕ) → length self.now.problem.leads ≤ step → has_step result step ≡ false }
    {
        ringing_on();
        let left = room_at(&self.rooms, self.leads.length() + u64::from(long));
        first_steps(
            self.leads.out_steps(&self.hits, left),
            step_count(&self.problem),
        )
    }

    // The same where each step is asked by itself.
    fn hopeless_one_by_one(&self) -> u32
        ensures each { (step : ℕ) → step < length self.now.problem.leads
            → has_step result step ≡ is_hopeless_by_leads self.now.problem (child self.now.node step) }
        ensures others { (step : ℕ) → length self.now.problem.leads ≤ step → has_step result step ≡ false }
    {
        let mut set = 0;
        for step in 0..step_count(&self.problem) {
            set = with_step(set, step, self.is_hopeless_with(step));
        }
        set
    }

    /// Whether the node has too many or too few rows that fit a pattern.
    #[inline(always)]
    pub fn is_hopeless_by_rows(&self) -> bool
        ensures is { result ≡ is_hopeless_by_rows self.now.problem self.now.node }
        ensures whole { is_hopeless_by_leads self.now.problem self.now.node ≡ false
            → result ≡ (is_too_many self.now.problem self.now.node || is_too_few self.now.problem self.now.node) }
    {
        some_are_out(&self.patterns, self.leads.front(), self.rows_left())
    }

    /// How much the node has of the item at an index: the items are the query's counts of marks, then its counts of
    /// methods, then its patterns. Of a count it is a number of leads, of a pattern of rows that fit.
    #[inline(always)]
    pub fn item_number(&self, item: usize) -> u32
        requires { item < length (item_numbers self.now.problem self.now.node) }
        ensures { result ≡ get_or (item_numbers self.now.problem self.now.node) item 0 }
    {
        let front = self.leads.front();
        let marks = self.leads.marks.len();
        let letters = self.leads.letters.len();
        if item < marks {
            leads_at(&self.leads.marks, item, front)
        } else if item - marks < letters {
            leads_at(&self.leads.letters, item - marks, front)
        } else {
            rows_at(&self.patterns, item - marks - letters, front)
        }
    }

    /// Whether the node's touch, which is so many times the node as the query has parts, meets each count of
    /// marks and of methods.
    pub fn meets_counts(&self) -> bool
        ensures { IsTrue result ↔ (MeetsCounts self.now.problem (touch_of self.now.problem self.now.node)
            × MeetsMethodCounts self.now.problem (touch_of self.now.problem self.now.node)) }
    {
        self.meets_mark_counts() && self.meets_method_counts()
    }

    fn meets_mark_counts(&self) -> bool
        ensures { IsTrue result ↔ MeetsCounts self.now.problem (touch_of self.now.problem self.now.node) }
    {
        all_in(&self.leads.marks, self.leads.front())
    }

    fn meets_method_counts(&self) -> bool
        ensures { IsTrue result ↔ MeetsMethodCounts self.now.problem (touch_of self.now.problem self.now.node) }
    {
        all_in(&self.leads.letters, self.leads.front())
    }

    fn has_too_many(&self) -> bool
        ensures { result ≡ is_too_many self.now.problem self.now.node }
    {
        self.has_too_many_leads() || some_have_more(&self.patterns, self.leads.front())
    }

    fn has_too_few(&self) -> bool
        ensures { result ≡ is_too_few self.now.problem self.now.node }
    {
        self.has_too_few_leads() || self.has_too_few_rows()
    }

    fn has_too_many_leads(&self) -> bool
        ensures { result ≡ has_too_many_leads self.now.problem self.now.node }
    {
        self.leads.has_too_many(self.numbers)
    }

    fn has_too_few_leads(&self) -> bool
        ensures { result ≡ has_too_few_leads self.now.problem self.now.node }
    {
        if self.asks_nothing_of_leads() {
            return false;
        }
        let left = room_at(&self.rooms, self.leads.length());
        self.leads.has_too_few(self.numbers, left)
    }

    fn has_too_few_rows(&self) -> bool
        ensures { result ≡ has_too_few_rows self.now.problem self.now.node }
    {
        some_have_fewer(&self.patterns, self.leads.front(), self.rows_left())
    }

    // How many rows are left of the greatest length.
    #[inline(always)]
    fn rows_left(&self) -> u64
        ensures is { result ≡ cap self.now.problem - length_of self.now.problem self.now.node }
        ensures few { result ≤ 12000 }
    {
        self.numbers.most.saturating_sub(self.leads.length())
    }

    // Whether the query has no counts and no limits on changes of method.
    fn asks_nothing_of_leads(&self) -> bool
        ensures { result ≡ true → (node : List ℕ)
            → (has_too_many_leads self.now.problem node ≡ false) × (has_too_few_leads self.now.problem node ≡ false) }
    {
        self.leads.marks.is_empty() && self.leads.letters.is_empty() && self.numbers.com.is_none()
    }
}
