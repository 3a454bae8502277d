//! The search over rows.

ghost use Rattle.std.specs.Prelude.{◌≡◌, IfOk};
ghost use Rattle.cr_leads.specs.Tables.{lead_table};

use crate::tables::Tables;
use cr_leads::LeadTable;
use cr_model::Problem;
use cr_node::{Done, Explorer, Node};
use cr_row::NoMemory;
use std::alloc::Global;
use std::marker::Model;

/// The search of a problem that compares the rows of its leads: by their numbers, where those have room, and else by
/// ringing each lead.
///
/// It is seen as the problem.
#[derive(Drop)]
pub struct RowSearch {
    pub(crate) tables: Tables,
}

impl Model for RowSearch {
    ghost use Rattle.cr_model.specs.Problems.{ProblemParts};

    ghost Value = { ProblemParts };

    ghost view = { λ s. s.tables };
}

impl RowSearch {
    /// The search of a problem. It makes the tables of its leads, of the rows that are few leads from rounds, and of
    /// its heads and rows by numbers. Err where no memory is left.
    pub fn new(alloc: Global, problem: &Problem) -> Result<RowSearch, NoMemory>
        ensures { IfOk result (λ search. search ≡ problem.now) }
    {
        let tables = Tables::new(alloc, problem)?;
        Ok(RowSearch { tables })
    }

    /// The search of a problem whose leads are rung. Err where no memory is left.
    pub fn with_leads(
        alloc: Global,
        problem: &Problem,
        leads: LeadTable,
    ) -> Result<RowSearch, NoMemory>
        requires { leads ≡ lead_table problem.now }
        ensures { IfOk result (λ search. search ≡ problem.now) }
    {
        let tables = Tables::with_leads(alloc, problem, leads)?;
        Ok(RowSearch { tables })
    }
}

impl Explorer for RowSearch {
    ghost use Rattle.cr_model.specs.Sizes.{most_rows};
    ghost use Rattle.cr_explore.specs.Turns.{after_turns};

    ghost explores = { λ p. p };

    // Found, rest and used are those of the definition.
    ghost gives = { λ p job turns done. record { found = done.found; rest = done.rest; used = done.used } ≡ after_turns p most_rows job turns };

    fn problem(&self) -> &Problem {
        self.tables.problem()
    }

    fn explore(&self, alloc: Global, job: &[Node], turns: u64) -> Result<Done, NoMemory> {
        self.tables.explore(alloc, None, job, turns)
    }
}
