//! What is counted of a node, where the query asks for it.

ghost use Rattle.std.specs.Prelude.{◌≡◌, ◌<◌, ◌↔◌, ℕ, List, true, false, not, nat_eq, [], length, get_or, IsTrue, IfOk, IfSome};
ghost use Rattle.cr_model.specs.OneTurn.{touch_of};
ghost use Rattle.cr_model.specs.Problems.{ProblemParts};
ghost use Rattle.cr_model.specs.Sizes.{child};
ghost use Rattle.cr_query.specs.Meeting.{MeetsCounts, MeetsMethodCounts};
ghost use Rattle.cr_query.specs.Meters.{parent, meter_from, item_numbers, is_hopeless_by_leads};
ghost use Rattle.cr_path.specs.Counted.{AsksNothing, IsIdle, IsCounted, AreHopeless, CanCount};
ghost use Rattle.cr_path.specs.Living.{is_hopeless};
ghost use Rattle.cr_model.specs.Limits.{most_leads};

use crate::numbers::pattern_rows::PatternRows;
use crate::numbers::table::NumberTable;
use cr_model::{Problem, Query};
use cr_query::Meter;
use cr_query::step_sets::no_steps;
use cr_row::NoMemory;
use std::alloc::Global;

/// What is counted of a node.
///
/// What each turn asks is told as a constant whether anything is counted: `COUNTS` is 0 where nothing is, and the calls
/// are no code then.
#[derive(Drop)]
pub struct Counting {
    // None where nothing is asked.
    pub meter: Option<Meter>,
    // Whether there are patterns.
    pub patterns: bool,
    // The steps with which the node has too many or too few leads, a bit for each, where the last move went on.
    pub hopeless: Option<u32>,
    // How many rows of the lead that is told fit each pattern.
    pub fits: PatternRows,
}

impl Counting {
    /// What is counted of the node of no steps. All memory is taken here. Err where no memory is left.
    pub fn new(alloc: Global, problem: &Problem) -> Result<Counting, NoMemory>
        ensures counted { IfOk result (λ counting. IsCounted problem.now [] counting) }
        ensures idle { IfOk result (λ counting. AsksNothing problem.now.query → IsIdle counting) }
    {
        let query = problem.query();
        let patterns = has_patterns(query);
        if asks_nothing(query) {
            return Ok(Counting {
                meter: None,
                patterns,
                hopeless: None,
                fits: PatternRows::none(),
            });
        }
        let meter = Meter::new(alloc, problem)?;
        Ok(Counting {
            meter: Some(meter),
            patterns,
            hopeless: None,
            fits: PatternRows::none(),
        })
    }

    /// Goes to the node with this step more, whose lead is the one at this place.
    #[inline(always)]
    pub fn add_lead<const COUNTS: usize>(&mut self, numbers: &NumberTable, place: usize, step: u8)
        requires idle { COUNTS ≡ 0 → IsIdle self.old }
        requires few { IfSome self.old.meter (λ meter. length meter.node < most_leads) }
        requires lead { IfSome self.old.meter (λ meter. CanCount numbers.now place step meter.node meter) }
        ensures counted { (p : ProblemParts) (node : List ℕ) → IsCounted p node self.old → IsCounted p (child node step) self.new }
        ensures idle { COUNTS ≡ 0 → IsIdle self.new }
    {
        if COUNTS == 0 {
            return;
        }
        if let Some(meter) = &mut self.meter {
            self.hopeless = Some(count_lead(meter, &mut self.fits, numbers, place, step));
        }
    }

    /// Goes back to the node without its last step.
    #[inline(always)]
    pub fn take_back<const COUNTS: usize>(&mut self)
        requires idle { COUNTS ≡ 0 → IsIdle self.old }
        requires some { IfSome self.old.meter (λ meter. 0 < length meter.node) }
        ensures counted { (p : ProblemParts) (node : List ℕ) → IsCounted p node self.old → IsCounted p (parent node) self.new }
        ensures idle { COUNTS ≡ 0 → IsIdle self.new }
    {
        if COUNTS == 0 {
            return;
        }
        if let Some(meter) = &mut self.meter {
            take_last(meter);
            self.hopeless = None;
        }
    }

    /// The steps with which the node has too many or too few leads for the query, a bit for each.
    #[inline(always)]
    pub fn hopeless_steps<const COUNTS: usize>(&self) -> u32
        requires { COUNTS ≡ 0 → IsIdle self.now }
        ensures { (p : ProblemParts) (node : List ℕ) → IsCounted p node self.now → AreHopeless p node result }
    {
        if COUNTS == 0 {
            return no_steps();
        }
        match &self.meter {
            Some(meter) => match self.hopeless {
                Some(steps) => steps,
                None => hopeless_steps(meter),
            },
            None => no_steps(),
        }
    }

    /// Whether the node, which is not hopeless by its leads, has too many or too few rows that fit a pattern.
    #[inline(always)]
    pub fn is_hopeless<const COUNTS: usize>(&self) -> bool
        requires { COUNTS ≡ 0 → IsIdle self.now }
        ensures { (p : ProblemParts) (node : List ℕ) → IsCounted p node self.now → is_hopeless_by_leads p node ≡ false
            → result ≡ is_hopeless p node }
    {
        if COUNTS == 0 || !self.patterns {
            return false;
        }
        match &self.meter {
            Some(meter) => is_hopeless_now(meter),
            None => false,
        }
    }

    /// How much the node has of the item at an index, as a meter says.
    #[inline(always)]
    pub fn item_number(&self, item: usize) -> u32
        requires { IfSome self.now.meter (λ meter. item < length (item_numbers meter.problem meter.node)) }
        ensures { (p : ProblemParts) (node : List ℕ) → IsCounted p node self.now → result ≡ get_or (item_numbers p node) item 0 }
    {
        match &self.meter {
            Some(meter) => meter.item_number(item),
            // Nothing is asked, so that there are no items.
            None => 0,
        }
    }

    /// Whether the node's touch meets each count of marks and of methods.
    #[inline(always)]
    pub fn meets_counts(&self) -> bool
        ensures { (p : ProblemParts) (node : List ℕ) → IsCounted p node self.now
            → IsTrue result ↔ (MeetsCounts p (touch_of p node) × MeetsMethodCounts p (touch_of p node)) }
    {
        match &self.meter {
            Some(meter) => meter.meets_counts(),
            None => true,
        }
    }
}

// Tells a meter of a step more, whose lead is the one at this place, and gives the steps with which the node after it
// has too many or too few leads.
#[inline(always)]
fn count_lead(
    meter: &mut Meter,
    fits: &mut PatternRows,
    numbers: &NumberTable,
    place: usize,
    step: u8,
) -> u32
    requires few { length meter.old.node < most_leads }
    requires lead { CanCount numbers.now place step meter.old.node meter.old }
    ensures meter { meter.new ≡ meter_from meter.old.problem (child meter.old.node step) }
    ensures steps { AreHopeless meter.new.problem meter.new.node result }
{
    numbers.take_fits(place, fits);
    meter.add_counted(step, fits.numbers());
    meter.hopeless_steps()
}

// Takes the last step of a meter back.
#[inline(always)]
fn take_last(meter: &mut Meter)
    requires { 0 < length meter.old.node }
    ensures { meter.new ≡ meter_from meter.old.problem (parent meter.old.node) }
{
    meter.take_last();
}

// The steps with which the node of a meter has too many or too few leads.
#[inline(always)]
fn hopeless_steps(meter: &Meter) -> u32
    ensures { AreHopeless meter.now.problem meter.now.node result }
{
    meter.hopeless_steps()
}

// Whether the node of a meter has too many or too few leads, or rows that fit a pattern.
#[inline(always)]
fn is_hopeless_now(meter: &Meter) -> bool
    ensures { is_hopeless_by_leads meter.now.problem meter.now.node ≡ false → result ≡ is_hopeless meter.now.problem meter.now.node }
{
    meter.is_hopeless_by_rows()
}

/// Whether the query of a problem has counts, patterns or limits on changes of method.
pub fn is_counted(problem: &Problem) -> bool
    ensures { result ≡ false ↔ AsksNothing problem.now.query }
{
    !asks_nothing(problem.query())
}

// Whether the query has no counts, no patterns and no limits on changes of method.
fn asks_nothing(query: &Query) -> bool
    ensures { IsTrue result ↔ AsksNothing query.now }
{
    query.counts.is_empty()
        && query.method_counts.is_empty()
        && !has_patterns(query)
        && query.com.is_none()
}

// Whether the query has patterns.
fn has_patterns(query: &Query) -> bool
    ensures { result ≡ not (nat_eq (length query.now.patterns) 0) }
{
    !query.patterns.is_empty()
}
