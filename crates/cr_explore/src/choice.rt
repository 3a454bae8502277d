//! The choice of a search, by the size of the falseness table.

ghost use Rattle.std.specs.Prelude.{◌≡◌, IfOk, IfSome};
ghost use Rattle.cr_explore.specs.Searches.{searched, HasTableWhereItFits};

use crate::narrow::NarrowSearch;
use crate::row_search::RowSearch;
use crate::table_search::TableSearch;
use crate::tables::Tables;
use cr_false::{Built, FalseTable};
use cr_leads::LeadTable;
use cr_model::Problem;
use cr_node::{Done, Explorer, Node};
use cr_path::Room;
use cr_row::NoMemory;
use std::alloc::Global;
use std::thread::Threads;

// How many rows a falseness table holds at most.
const MOST_FALSE_ROWS: u64 = 4_000_000;

/// A search of either kind. Both find and leave the same.
#[derive(Drop)]
pub enum Search {
    /// Without a falseness table.
    Rows(RowSearch),
    /// With one.
    Table(TableSearch),
}

/// The search of a problem: with a falseness table, which many threads make, exactly where the table holds at most
/// 4,000,000 rows. Err where no memory is left.
pub fn make_search(
    rt: &(impl Threads + Sync),
    alloc: Global,
    problem: &Problem,
) -> Result<Search, NoMemory>
    ensures problem { IfOk result (λ search. searched search ≡ problem.now) }
    ensures table { IfOk result (HasTableWhereItFits problem.now) }
{
    let leads = LeadTable::new(alloc, problem)?;
    match FalseTable::new(rt, alloc, &leads, MOST_FALSE_ROWS)? {
        Built::Wide(_) => Ok(Search::Rows(RowSearch::with_leads(alloc, problem, leads)?)),
        Built::Table(table) => Ok(Search::Table(TableSearch::with_leads(
            alloc, problem, leads, table,
        )?)),
    }
}

impl Search {
    /// Whether it has no numbers, so that it rings each lead. No clause speaks of it: what it finds and leaves is the same.
    pub fn rings(&self) -> bool {
        self.tables().numbers.is_none()
    }

    /// The same search with numbers that have so much room, for one that turns out to be long: it goes ten times as fast
    /// from then on. None where this one goes by numbers already, or they have no room, or no memory is left.
    pub fn with_more_room(&self, alloc: Global, room: Room) -> Option<Search>
        ensures { IfSome result (λ search. searched search ≡ searched self.now) }
    {
        match self.tables().with_more_room(alloc, room) {
            Ok(Some(tables)) => Some(Search::Rows(RowSearch { tables })),
            Ok(None) | Err(NoMemory) => None,
        }
    }

    /// The same search for who counts no turns: it passes by the nodes that cannot come to what the query asks. None where
    /// this one has no numbers, or where the tables of what can still come would have more than 256 MB. Err where no memory is
    /// left.
    pub fn looking_ahead(&self, alloc: Global) -> Result<Option<NarrowSearch<'_>>, NoMemory>
        ensures { IfOk result (λ made. IfSome made (λ search. search ≡ searched self.now)) }
    {
        NarrowSearch::new(alloc, self.tables())
    }

    // The tables.
    fn tables(&self) -> &Tables
        ensures { result.now ≡ searched self.now }
    {
        match self {
            Search::Rows(search) => &search.tables,
            Search::Table(search) => &search.tables,
        }
    }
}

impl Explorer for Search {
    ghost use Rattle.cr_model.specs.Sizes.{most_rows};
    ghost use Rattle.cr_explore.specs.Turns.{after_turns};

    ghost explores = { searched };

    // Found, rest and used are those of the definition.
    ghost gives = { λ s job turns done. record { found = done.found; rest = done.rest; used = done.used } ≡ after_turns (searched s) most_rows job turns };

    fn problem(&self) -> &Problem {
        match self {
            Search::Rows(search) => search.problem(),
            Search::Table(search) => search.problem(),
        }
    }

    fn explore(&self, alloc: Global, job: &[Node], turns: u64) -> Result<Done, NoMemory> {
        match self {
            Search::Rows(search) => search.explore(alloc, job, turns),
            Search::Table(search) => search.explore(alloc, job, turns),
        }
    }
}
