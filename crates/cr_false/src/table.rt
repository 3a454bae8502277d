//! Falseness tables.

ghost use Rattle.std.specs.Prelude.{◌≡◌, ◌↔◌, ◌<◌, length, Contains, IsTrue, IfOk};
ghost use Rattle.cr_leads.specs.Tables.{TableParts, lead_rows};
ghost use Rattle.cr_false.specs.Sets.{IsFalse, IsFalseTable, HasTwice};
ghost use Rattle.cr_false.specs.Answers.{IsBuilt};

use crate::built::Built;
use crate::step_pairs::{numbers_of, sets_of, total};
use crate::twice::leads_with_twice;
use cr_leads::LeadTable;
use cr_model::limits::MOST_STEPS;
use cr_row::{NoMemory, Row, Stage};
use cr_rowset::RowStack;
use std::alloc::Global;
use std::marker::Model;
use std::thread::Threads;

/// Of each ordered pair of steps the rows between two heads from which the leads share a row.
///
/// It is seen as the stage, the sets, and of each step whether it has a row twice. It takes 16 to 20 bytes for each
/// row of its sets: with 4,000,000 rows in one set 65 MB, and in many sets some 72 MB, or 80 MB at most.
#[derive(Drop)]
pub struct FalseTable {
    stage: Stage,
    // The set of a pair (a, b) stands at 24 a + b.
    sets: Vec<RowStack>,
    twice: Vec<bool>,
}

impl Model for FalseTable {
    ghost use Rattle.std.specs.Prelude.{map};
    ghost use Rattle.cr_false.specs.Sets.{FalseParts, AreKept};

    ghost Value = { FalseParts };

    ghost view = { λ t. record { stage = t.stage; sets = map (λ set. set.rows) t.sets.items; twice = t.twice.items } };

    ghost invariant = { λ t. AreKept t.sets.items t.twice.items };
}

impl FalseTable {
    /// The table of some leads, made by many threads, or the number of its rows where they are more than
    /// the most. Err where no memory is left.
    pub fn new(
        rt: &(impl Threads + Sync),
        alloc: Global,
        leads: &LeadTable,
        most: u64,
    ) -> Result<Built, NoMemory>
        ensures { IfOk result (IsBuilt leads.now most) }
    {
        let stage = leads.stage();
        let numbers = numbers_of(rt, alloc, leads)?;
        let number = total(&numbers);
        if number > most {
            return Ok(Built::Wide(number));
        }
        let sets = sets_of(rt, alloc, leads, &numbers)?;
        let twice = leads_with_twice(alloc, leads)?;
        Ok(Built::Table(FalseTable { stage, sets, twice }))
    }

    /// The number of steps.
    pub fn count(&self) -> u8
        ensures { result ≡ length self.now.twice }
    {
        self.twice.len() as u8
    }

    /// Whether a lead of step a from one head and a lead of step b from another share a row, where the row
    /// between the heads is the first one's inverse times the second. It takes no memory.
    pub fn clash(&self, a: u8, b: u8, between: &Row) -> bool
        requires a { a < length self.now.twice }
        requires b { b < length self.now.twice }
        ensures { (table : TableParts) → IsFalseTable table self.now
            → IsTrue result ↔ IsFalse (lead_rows table a) (lead_rows table b) between.now }
    {
        let pair = MOST_STEPS * usize::from(a) + usize::from(b);
        has(&self.sets[pair], between)
    }

    /// Whether a lead of the step has a row twice. It takes no memory.
    pub fn self_false(&self, a: u8) -> bool
        requires { a < length self.now.twice }
        ensures { (table : TableParts) → IsFalseTable table self.now → IsTrue result ↔ HasTwice (lead_rows table a) }
    {
        self.twice[usize::from(a)]
    }
}

/// Whether a row is one of the set.
pub fn has(set: &RowStack, row: &Row) -> bool
    ensures { IsTrue result ↔ Contains set.now.rows row.now }
{
    set.place_of(row).is_some()
}
