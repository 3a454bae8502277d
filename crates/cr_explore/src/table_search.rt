//! The search with a falseness table.

ghost use Rattle.std.specs.Prelude.{◌≡◌, IfOk, IfSome};
ghost use Rattle.cr_false.specs.Sets.{IsFalseTable};
ghost use Rattle.cr_leads.specs.Tables.{lead_table};

use crate::tables::Tables;
use cr_false::FalseTable;
use cr_leads::LeadTable;
use cr_model::Problem;
use cr_node::{Done, Explorer, Node};
use cr_row::NoMemory;
use std::alloc::Global;
use std::marker::Model;

/// The search of a problem that has a falseness table of its leads.
///
/// It looks up rows by their numbers, where those have room, and else it rings each lead: a walk that asks the table
/// whether two leads share a row was slower wherever that could be told (docs/DECISIONS.md).
///
/// It is seen as the problem.
#[derive(Drop)]
pub struct TableSearch {
    pub(crate) tables: Tables,
    pub(crate) table: FalseTable,
    // Whether a walk without numbers asks the table.
    pub(crate) asks_table: bool,
}

impl Model for TableSearch {
    ghost use Rattle.cr_model.specs.Problems.{ProblemParts};
    ghost use Rattle.cr_false.specs.Sets.{IsFalseTable};
    ghost use Rattle.cr_leads.specs.Tables.{lead_table};

    ghost Value = { ProblemParts };

    ghost view = { λ s. s.tables };

    ghost invariant = { λ s. IsFalseTable (lead_table s.tables) s.table };
}

impl TableSearch {
    /// The search of a problem with this table, which is that of its leads. Err where no memory is left.
    pub fn new(alloc: Global, problem: &Problem, table: FalseTable) -> Result<TableSearch, NoMemory>
        requires { IsFalseTable (lead_table problem.now) table }
        ensures { IfOk result (λ search. search ≡ problem.now) }
    {
        let leads = LeadTable::new(alloc, problem)?;
        TableSearch::with_leads(alloc, problem, leads, table)
    }

    /// The search of a problem whose leads are rung, with this table of them. Err where no memory is left.
    pub fn with_leads(
        alloc: Global,
        problem: &Problem,
        leads: LeadTable,
        table: FalseTable,
    ) -> Result<TableSearch, NoMemory>
        requires leads { leads ≡ lead_table problem.now }
        requires table { IsFalseTable (lead_table problem.now) table }
        ensures { IfOk result (λ search. search ≡ problem.now) }
    {
        let tables = Tables::with_leads(alloc, problem, leads)?;
        Ok(TableSearch {
            tables,
            table,
            asks_table: false,
        })
    }

    // The table, where it is asked.
    fn asked(&self) -> Option<&FalseTable>
        ensures { IfSome result (λ t. IsFalseTable (lead_table self.now) t.now) }
    {
        if self.asks_table {
            Some(&self.table)
        } else {
            None
        }
    }
}

impl Explorer for TableSearch {
    ghost use Rattle.cr_model.specs.Sizes.{most_rows};
    ghost use Rattle.cr_explore.specs.Turns.{after_turns};

    ghost explores = { λ p. p };

    // Found, rest and used are those of the definition.
    ghost gives = { λ p job turns done. record { found = done.found; rest = done.rest; used = done.used } ≡ after_turns p most_rows job turns };

    fn problem(&self) -> &Problem {
        self.tables.problem()
    }

    fn explore(&self, alloc: Global, job: &[Node], turns: u64) -> Result<Done, NoMemory> {
        self.tables.explore(alloc, self.asked(), job, turns)
    }
}
