//! Reach tables.

ghost use Rattle.std.specs.Prelude.{◌≡◌, ◌≢◌, ℕ, ◌+◌, ◌-◌, ◌*◌, ◌<◌, ◌≤◌, ◌^◌, ◌++◌, true, [], length, replicate, IfOk};
ghost use Rattle.cr_model.specs.Problems.{ProblemParts};
ghost use Rattle.cr_model.specs.Levels.{depth, level, at_least};
ghost use Rattle.cr_leads.specs.Tables.{lead_table};
ghost use Rattle.cr_reach.specs.Tables.{reach_table};

use crate::inverses::inverse_heads;
use crate::spreading::push_level;
use cr_leads::LeadTable;
use cr_model::laws::{levels_list_rows, no_fewer_leads_lead_to_rounds, the_depth_is_greatest};
use cr_row::{NoMemory, Row, product_of_rows, rounds_is_neutral};
use cr_rowset::RowStack;
use std::alloc::Global;
use std::marker::Model;

// For so many rows there is room at first. Most problems have fewer heads, and room for many takes a while to clear.
const FEW_ROWS: u64 = 8_192;

/// The rows that are few leads from rounds, each with the least number of leads that lead to rounds from it.
///
/// It is seen as its depth, its rows and the level of each. All rows of the levels up to the depth are
/// in it.
#[derive(Drop)]
pub struct ReachTable {
    rows: RowStack,
    // The level of the row at each place.
    levels: Vec<u32>,
    depth: u32,
}

impl Model for ReachTable {
    ghost use Rattle.cr_reach.specs.Tables.{ReachParts, AreKept};

    ghost Value = { ReachParts };

    ghost view = { λ t. record { depth = t.depth; rows = t.rows.rows; levels = t.levels.items } };

    ghost invariant = { λ t. AreKept t.depth t.rows.rows t.levels.items };
}

impl ReachTable {
    /// The table of a problem, given by its leads: as many whole levels as hold at most so many rows
    /// together, none of them empty. Err where no memory is left.
    pub fn new(alloc: Global, leads: &LeadTable, most_rows: u64) -> Result<ReachTable, NoMemory>
        requires some { 1 ≤ most_rows }
        requires few { most_rows < 2 ^ 32 }
        ensures { IfOk result (λ table. (p : ProblemParts) → leads.now ≡ lead_table p → table ≡ reach_table p most_rows) }
    {
        the_depth_is_greatest();
        let few = most_rows.min(FEW_ROWS);
        let listing = list_levels(alloc, leads, few)?;
        if listing.is_all || few == most_rows {
            return Ok(listing.table);
        }
        let listing = list_levels(alloc, leads, most_rows)?;
        Ok(listing.table)
    }

    /// The greatest level that is listed.
    pub fn depth(&self) -> u32
        ensures is { result ≡ self.now.depth }
        ensures of_problem { (p : ProblemParts) (most : ℕ) → self.now ≡ reach_table p most → result ≡ depth p most }
    {
        self.depth
    }

    /// How many leads the row is from rounds at least: its level where it is listed, and else one more than
    /// the depth. It takes no memory.
    pub fn at_least(&self, head: &Row) -> u32
        ensures { (p : ProblemParts) (most : ℕ) → self.now ≡ reach_table p most → result ≡ at_least p most head.now }
    {
        levels_list_rows();
        no_fewer_leads_lead_to_rounds();
        match self.rows.place_of(head) {
            Some(place) => self.levels[place as usize],
            None => self.depth + 1,
        }
    }
}

// A table, and whether it is known that it has all rows from which leads lead to rounds.
#[derive(Drop)]
struct Listing {
    table: ReachTable,
    is_all: bool,
}

// The levels that hold at most so many rows together.
fn list_levels(alloc: Global, leads: &LeadTable, most_rows: u64) -> Result<Listing, NoMemory>
    requires some { 1 ≤ most_rows }
    requires few { most_rows < 2 ^ 32 }
    ensures table { IfOk result (λ listing. (p : ProblemParts) → leads.now ≡ lead_table p → listing.table ≡ reach_table p most_rows) }
    ensures all { IfOk result (λ listing. listing.is_all ≡ true → (p : ProblemParts) → leads.now ≡ lead_table p → level p (depth p most_rows + 1) ≡ []) }
{
    rounds_is_neutral();
    product_of_rows();
    the_depth_is_greatest();
    let inverses = inverse_heads(alloc, leads)?;
    let mut rows = RowStack::with_room(alloc, most_rows)?;
    rows.push(Row::rounds(leads.stage()));
    let mut levels = Vec::new(alloc);
    levels.push(0)?;
    let mut depth = 0;
    let mut start = 0;
    while push_level(&mut rows, start, &inverses) {
        start = levels.len() as u64;
        depth += 1;
        fill(&mut levels, rows.len(), depth)?;
    }
    let number = rows.len();
    let steps = leads.count();
    let is_all = has_room_for_all(number, number - start, steps, most_rows);
    let table = ReachTable {
        rows: fitted(alloc, &rows)?,
        levels,
        depth,
    };
    Ok(Listing { table, is_all })
}

// Whether there is room for so many rows, and for one more from each of the last ones and each step.
fn has_room_for_all(rows: u64, last: u64, steps: u8, room: u64) -> bool
    requires rows { rows < 2 ^ 32 }
    requires last { last < 2 ^ 32 }
    ensures { result ≡ true → rows + last * steps ≤ room }
{
    rows + last * u64::from(steps) <= room
}

// The same rows in a stack that has room for no more, so that a look-up in few rows touches little memory.
fn fitted(alloc: Global, rows: &RowStack) -> Result<RowStack, NoMemory>
    ensures { IfOk result (λ stack. stack.rows ≡ rows.now.rows) }
{
    let number = rows.len();
    let mut stack = RowStack::with_room(alloc, number)?;
    for place in 0..number {
        stack.push(rows.row_at(place));
    }
    Ok(stack)
}

// Appends the level for each row that has none yet.
fn fill(levels: &mut Vec<u32>, len: u64, level: u32) -> Result<(), NoMemory>
    requires { length levels.old.items ≤ len }
    ensures { IfOk result (λ _. levels.new.items ≡ levels.old.items ++ replicate (len - length levels.old.items) level) }
{
    while (levels.len() as u64) < len {
        levels.push(level)?;
    }
    Ok(())
}
