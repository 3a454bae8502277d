//! The lead heads and the representative rows of a problem by numbers, and of each head and step a record of the lead.

ghost use Rattle.std.specs.Prelude.{◌≡◌, ◌+◌, ◌*◌, ◌/◌, ◌<◌, ◌≤◌, ◌↔◌, ℕ, List, IsTrue, false, [], length, get_or, take, drop, map, IfOk, IfSome};
ghost use Rattle.cr_leads.specs.Tables.{lead_table};
ghost use Rattle.cr_model.specs.Problems.{ProblemParts};
ghost use Rattle.cr_model.specs.Limits.{most_patterns};
ghost use Rattle.cr_model.specs.Sizes.{most_rows};
ghost use Rattle.cr_reach.specs.Tables.{reach_table};
ghost use Rattle.cr_model.specs.Callings.{HasSteps};
ghost use Rattle.cr_path.specs.Best.{IsBest};
ghost use Rattle.cr_path.specs.Numbers.{numbers_of, IsBase, StartsHead, IsNumbered, AreNextHeads};
ghost use Rattle.cr_model.specs.Limits.{most_leads};

use crate::numbers::covers::cover_of;
use crate::numbers::leads::Leads;
use crate::numbers::pattern_rows::PatternRows;
use crate::numbers::records::{next_heads_of, records_of, round_heads_of, twice_of};
use crate::numbers::representatives::Representatives;
use crate::numbers::room::Room;
use crate::numbers::rotated_patterns::is_best;
use crate::numbers::row_numbers::RowNumbers;
use crate::numbers::rung_leads::LeadNumbers;
use crate::numbers::rung_patterns::{Fitting, fittings_of};
use crate::numbers::stopped::Stopped;
use crate::numbers::told_rows::ToldRows;
use cr_leads::LeadTable;
use cr_model::Problem;
use cr_reach::ReachTable;
use cr_row::{NoMemory, Row};
use std::alloc::Global;
use std::marker::Model;

/// What is known of the lead of a step that is rung from a head.
#[derive(Debug, Drop, Clone, Copy, PartialEq, Eq)]
pub struct LeadRecord {
    /// Where the records of the head after it start: that head's number times the steps.
    pub next: u32,
    /// The child may live only where its node has fewer changes than this: the child is then not too long, has no row
    /// twice in its last lead, does not bring rounds too early, and rounds is not too far from it.
    pub limit: u16,
    /// Its number of changes.
    pub length: u8,
    /// Whether a touch may end after it: the head after it, as often as the query has parts, leads to rounds.
    pub round: bool,
}

/// The lead heads that leads reach from rounds and the representative rows of all leads rung from them, by numbers, with a
/// record of each head and step. Two leads have a row in common exactly where they have a number in common, and a lead has
/// rounds exactly where it has number 0.
///
/// It is seen as the number of steps, the heads, how many representative rows there are, the records, how many numbers each lead
/// has and these numbers of its representative rows, which leads have a row twice, and of each pattern how many rows of each lead fit it.
#[derive(Drop)]
pub struct NumberTable {
    steps: u8,
    heads: Vec<Row>,
    // How many representative rows there are.
    rows: usize,
    // The record of a head and a step stands at head * steps + step.
    records: Vec<LeadRecord>,
    // As many as the lead with most representative rows has. A lead with fewer has its first one again.
    width: usize,
    // Those of the lead at a place start at place * width.
    numbers: Vec<u32>,
    // By step number, whether the lead has a row twice in itself.
    twice: Vec<bool>,
    // Of each pattern, in the order of the records.
    fittings: Vec<Fitting>,
}

impl Model for NumberTable {
    ghost use Rattle.cr_path.specs.Numbers.{NumberParts, AreKept};

    ghost Value = { NumberParts };

    ghost view = { λ t. record {
      steps = t.steps;
      heads = t.heads.items;
      rows = t.rows;
      records = t.records.items;
      width = t.width;
      numbers = t.numbers.items;
      twice = t.twice.items;
      fittings = t.fittings.items;
    } };

    ghost invariant = { λ t. AreKept (record {
      steps = t.steps;
      heads = t.heads.items;
      rows = t.rows;
      records = t.records.items;
      width = t.width;
      numbers = t.numbers.items;
      twice = t.twice.items;
      fittings = t.fittings.items;
    }) };
}

impl NumberTable {
    /// The numbers of a problem. None where they have no room: where there are more heads, or the leads from all heads take more
    /// than its bytes, each 48 and 12 for each row that tells it (all of its rows, or from eight bells on few of them), or these
    /// rows are more than its rows, or than 4,194,304, or those of the lead with fewest, from all heads, more than twice as many;
    /// or where there are more than 67,108,864 numbers (256 MiB), of which each lead has as many as the least width that has
    /// room for the lead with most representative rows, or so many patterns that their numbers would take more than 16 MiB.
    /// Err where no memory is left.
    pub fn new(
        alloc: Global,
        problem: &Problem,
        leads: &LeadTable,
        reach: &ReachTable,
        room: Room,
    ) -> Result<Option<NumberTable>, NoMemory>
        requires leads { leads.now ≡ lead_table problem.now }
        requires reach { reach.now ≡ reach_table problem.now most_rows }
        ensures { IfOk result (λ table. IfSome table (λ t. IsNumbered problem.now t)) }
    {
        let given = Leads::new(alloc, problem, leads, reach)?;
        match table_of(alloc, &given, room) {
            Ok(table) => Ok(Some(table)),
            Err(Stopped::TooMany) => Ok(None),
            Err(Stopped::NoMemory) => Err(NoMemory),
        }
    }

    /// The lead heads, each at its number.
    pub fn heads(&self) -> &[Row]
        ensures { result.now ≡ self.now.heads }
    {
        &self.heads
    }

    /// By head and step, head after head, the number of the head that the step leads to. Err where no memory is left.
    pub fn next_heads(&self, alloc: Global) -> Result<Vec<u32>, NoMemory>
        ensures { IfOk result (λ next. (p : ProblemParts) → IsNumbered p self.now → AreNextHeads p self.now.heads next.items) }
    {
        next_heads_of(alloc, &self.records, self.steps)
    }

    /// The number of the head whose records start here.
    #[inline(always)]
    pub(crate) fn number_of(&self, base: u32) -> u32
        ensures { (row : List ℕ) → IsBase self.now row base → (result < length self.now.heads) × (get_or self.now.heads result [] ≡ row) }
    {
        divided(base, self.steps)
    }

    /// Whether the head with this number is this row.
    #[inline(always)]
    pub(crate) fn has_head(&self, number: u32, row: &Row) -> bool
        ensures { IsTrue result ↔ ((number < length self.now.heads) × (get_or self.now.heads number [] ≡ row.now)) }
    {
        match self.heads.get(number as usize) {
            Some(head) => *head == *row,
            None => false,
        }
    }

    /// The number of representative rows.
    pub(crate) fn row_count(&self) -> usize
        ensures { result ≡ self.now.rows }
    {
        self.rows
    }

    /// The head whose records start here.
    pub(crate) fn head_at(&self, base: u32) -> Row
        requires { StartsHead self.now base }
        ensures { (row : List ℕ) → IsBase self.now row base → result ≡ row }
    {
        self.head(divided(base, self.steps) as usize)
    }

    // The head with this number.
    fn head(&self, number: usize) -> Row
        requires { number < length self.now.heads }
        ensures { result ≡ get_or self.now.heads number [] }
    {
        self.heads[number]
    }

    /// The place of the lead of a step from the head whose records start here.
    #[inline(always)]
    pub(crate) fn place(&self, base: u32, step: u8) -> usize
        requires base { StartsHead self.now base }
        requires step { step < self.now.steps }
        ensures is { result ≡ base + step }
        ensures within { result < length self.now.records }
    {
        // A table keeps that each head has its records.
        let _ = self.records.len();
        base as usize + usize::from(step)
    }

    /// The record of the lead at a place.
    #[inline(always)]
    pub(crate) fn lead_at(&self, place: usize) -> LeadRecord
        requires { place < length self.now.records }
        ensures { result ≡ get_or self.now.records place result }
    {
        self.records[place]
    }

    /// The numbers of the representative rows of the lead at a place, as many for each lead.
    #[inline(always)]
    pub(crate) fn numbers_at<const WIDTH: usize>(&self, place: usize) -> &[u32]
        requires place { place < length self.now.records }
        requires width { self.now.width ≡ WIDTH }
        ensures { result.now ≡ numbers_of self.now place }
    {
        numbers_in::<WIDTH>(&self.numbers, place)
    }

    /// The records of all leads.
    pub(crate) fn records(&self) -> &[LeadRecord]
        ensures { result.now ≡ self.now.records }
    {
        &self.records
    }

    /// The numbers of the representative rows of all leads.
    pub(crate) fn numbers(&self) -> &[u32]
        ensures are { result.now ≡ self.now.numbers }
        ensures all { length self.now.numbers ≡ length self.now.records * self.now.width }
    {
        &self.numbers
    }

    /// How many numbers each lead has: 2, 3, 4, 6, 8, 12, 16, 24, 32, 64 or 128.
    pub fn width(&self) -> usize
        ensures { result ≡ self.now.width }
    {
        self.width
    }

    /// Whether the lead of a step has a row twice in itself.
    pub(crate) fn has_row_twice(&self, step: u8) -> bool
        requires { step < length self.now.twice }
        ensures { result ≡ get_or self.now.twice step false }
    {
        self.twice[usize::from(step)]
    }

    /// How many rows of the leads fit the pattern at an index.
    pub(crate) fn fitting(&self, pattern: usize) -> &Fitting
        requires { pattern < length self.now.fittings }
        ensures { result.now ≡ get_or self.now.fittings pattern [] }
    {
        &self.fittings[pattern]
    }

    /// Takes how many rows of the lead at a place fit each pattern.
    #[inline(always)]
    pub(crate) fn take_fits(&self, place: usize, fits: &mut PatternRows)
        requires { length self.now.fittings ≤ most_patterns }
        ensures { fits.new ≡ map (λ fitting. get_or fitting place 0) self.now.fittings }
    {
        fits.take(&self.fittings, place);
    }

    /// Whether a calling of the problem meets each pattern, and no rotation that is less does. Nothing is rung, and no
    /// memory is taken: each step is looked up once for each pattern and each rotation that is less.
    pub fn is_best(&self, problem: &Problem, calling: &[u8]) -> bool
        requires numbered { IsNumbered problem.now self.now }
        requires steps { HasSteps problem.now calling.now }
        requires few { length calling.now ≤ most_leads }
        ensures { IsTrue result ↔ IsBest problem.now calling.now }
    {
        is_best(problem, self, calling)
    }
}

// The table of leads that are rung from at most so many heads and have at most so many rows.
fn table_of(alloc: Global, leads: &Leads, room: Room) -> Result<NumberTable, Stopped>
    ensures { IfOk result (λ table. IsNumbered leads.now table) }
{
    let told = leads.telling_rows(alloc)?;
    let told_rows = ToldRows::of(alloc, leads, &told)?;
    let made = LeadNumbers::of(alloc, leads, &told_rows, room)?;
    let cover = cover_of(alloc, leads, &told, &made)?;
    let representatives = Representatives::of(alloc, &made.rows, &cover)?;
    let named = RowNumbers::of(alloc, &made, &cover, &representatives)?;
    let found = made.heads;
    let heads = found.rows;
    let round_heads = round_heads_of(alloc, leads, &heads)?;
    let records = records_of(alloc, &made.records, leads.count(), &round_heads)?;
    let twice = twice_of(alloc, leads)?;
    let fittings = fittings_of(alloc, leads, &heads)?;
    Ok(NumberTable {
        steps: leads.count(),
        heads,
        rows: representatives.rows.len(),
        records,
        width: named.width,
        numbers: named.numbers,
        twice,
        fittings,
    })
}

// A number of records by the number of steps. Two or three steps, as most problems have, are constants here: to divide by a
// number that is not known when this is compiled takes five times as long.
#[inline(always)]
fn divided(base: u32, steps: u8) -> u32
    requires { 0 < steps }
    ensures { result ≡ base / steps }
{
    match steps {
        2 => base / 2,
        3 => base / 3,
        _ => base / u32::from(steps),
    }
}

// So many numbers, of which those of the first places stand before.
#[inline(always)]
pub(crate) fn numbers_in<const WIDTH: usize>(numbers: &[u32], place: usize) -> &[u32]
    requires { place * WIDTH + WIDTH ≤ length numbers.now }
    ensures { result.now ≡ take WIDTH (drop (place * WIDTH) numbers.now) }
{
    // That they are so many is known when this is compiled, so that a loop over them is none.
    let start = place * WIDTH;
    &numbers[start..start + WIDTH]
}
