//! The tables of a problem's search, and turns over them.

ghost use Rattle.std.specs.Prelude.{◌≡◌, ◌<◌, ◌≤◌, ◌⊎◌, [], length, get_or, All, IfOk, IfSome};
ghost use Rattle.cr_false.specs.Sets.{IsFalseTable};
ghost use Rattle.cr_leads.specs.Tables.{lead_table};
ghost use Rattle.cr_model.specs.Callings.{HasSteps};
ghost use Rattle.cr_model.specs.Checks.{TellsFirst};
ghost use Rattle.cr_model.specs.Nodes.{IsValid};
ghost use Rattle.cr_model.specs.Sizes.{most_rows};
ghost use Rattle.cr_model.specs.Touches.{Kept};
ghost use Rattle.cr_node.specs.Work.{IsDone, IsJob};
ghost use Rattle.cr_path.specs.Counted.{AsksNothing};
ghost use Rattle.cr_path.specs.Numbers.{IsNumbered};
ghost use Rattle.cr_reach.specs.Tables.{reach_table};
ghost use Rattle.cr_explore.specs.Turns.{after_turns};

use crate::laws::turns_are_finished_work;
use crate::number_path::NumberPath;
use crate::search::{Explored, take_turns};
use crate::unkept::{first_by_numbers, first_by_ringing};
use crate::walk_path::WalkPath;
use crate::widths::{by_steps, by_width};
use cr_false::FalseTable;
use cr_leads::LeadTable;
use cr_model::{Calling, Problem};
use cr_node::{Done, Node};
use cr_path::{NumberTable, Room, is_counted};
use cr_reach::ReachTable;
use cr_row::NoMemory;
use std::alloc::Global;
use std::marker::Model;

// How many rows the table of levels holds at most.
const MOST_ROWS: u64 = 200_000;

// For a search that may be short: what is made in this room takes less than half a second.
const FIRST_ROOM: Room = Room {
    bytes: 48_000_000,
    heads: 1 << 16,
    rows: 1 << 20,
};

/// For a search that is long: what is made in this room takes about a second. All heads of ten bells have room in it.
pub const LONG_ROOM: Room = Room {
    bytes: 512_000_000,
    heads: 1 << 19,
    rows: 1 << 22,
};

/// For one that is longer still: up to some ten seconds. The heads of Grandsire Cinques have room in it.
pub const LONGEST_ROOM: Room = Room {
    bytes: 512_000_000,
    heads: 1 << 23,
    rows: 1 << 22,
};

/// The tables of a problem: its leads, the rows that are few leads from rounds, and, where they have room, its heads and
/// rows by numbers.
///
/// They are seen as the problem.
#[derive(Drop)]
pub struct Tables {
    problem: Problem,
    leads: LeadTable,
    reach: ReachTable,
    pub(crate) numbers: Option<NumberTable>,
}

impl Model for Tables {
    ghost use Rattle.cr_model.specs.Problems.{ProblemParts};
    ghost use Rattle.cr_explore.specs.Searches.{AreTables};

    ghost Value = { ProblemParts };

    ghost view = { λ t. t.problem };

    ghost invariant = { λ t. AreTables t.problem t.leads t.reach t.numbers };
}

impl Tables {
    /// The tables of a problem. Err where no memory is left.
    pub fn new(alloc: Global, problem: &Problem) -> Result<Tables, NoMemory>
        ensures { IfOk result (λ tables. tables ≡ problem.now) }
    {
        Tables::with_leads(alloc, problem, LeadTable::new(alloc, problem)?)
    }

    /// The tables of a problem whose leads are rung. Err where no memory is left.
    pub fn with_leads(
        alloc: Global,
        problem: &Problem,
        leads: LeadTable,
    ) -> Result<Tables, NoMemory>
        requires { leads ≡ lead_table problem.now }
        ensures { IfOk result (λ tables. tables ≡ problem.now) }
    {
        Tables::with_room(alloc, problem, leads, FIRST_ROOM)
    }

    // The same, where numbers have so much room.
    fn with_room(
        alloc: Global,
        problem: &Problem,
        leads: LeadTable,
        room: Room,
    ) -> Result<Tables, NoMemory>
        requires { leads ≡ lead_table problem.now }
        ensures { IfOk result (λ tables. tables ≡ problem.now) }
    {
        let problem = problem.copy(alloc)?;
        let reach = reach_of(alloc, &problem, &leads)?;
        let numbers = NumberTable::new(alloc, &problem, &leads, &reach, room)?;
        Ok(Tables {
            problem,
            leads,
            reach,
            numbers,
        })
    }

    /// The same tables with numbers, where these have none and they have so much room. Else None. Err where no memory is
    /// left.
    pub fn with_more_room(&self, alloc: Global, room: Room) -> Result<Option<Tables>, NoMemory>
        ensures { IfOk result (λ more. IfSome more (λ tables. tables ≡ self.now)) }
    {
        if self.numbers.is_some() {
            return Ok(None);
        }
        let leads = LeadTable::new(alloc, &self.problem)?;
        let tables = Tables::with_room(alloc, &self.problem, leads, room)?;
        if tables.numbers.is_none() {
            return Ok(None);
        }
        Ok(Some(tables))
    }

    /// The problem.
    pub fn problem(&self) -> &Problem
        ensures { result.now ≡ self.now }
    {
        &self.problem
    }

    /// The leads.
    pub fn leads(&self) -> &LeadTable
        ensures { result.now ≡ lead_table self.now }
    {
        &self.leads
    }

    /// The rows that are few leads from rounds.
    pub fn reach(&self) -> &ReachTable
        ensures { result.now ≡ reach_table self.now most_rows }
    {
        &self.reach
    }

    /// The numbers, where there are some.
    pub fn numbers(&self) -> Option<&NumberTable>
        ensures { IfSome result (λ numbers. IsNumbered self.now numbers.now) }
    {
        self.numbers.as_ref()
    }

    /// Explores a job: takes at most so many turns, by numbers where there are some, and else by a walk that asks the
    /// falseness table, if there is one. Err where no memory is left.
    pub fn explore(
        &self,
        alloc: Global,
        table: Option<&FalseTable>,
        job: &[Node],
        turns: u64,
    ) -> Result<Done, NoMemory>
        requires table { IfSome table (λ t. IsFalseTable (lead_table self.now) t.now) }
        requires job { IsJob self.now job.now }
        ensures problem { IfOk result (λ done. done.problem ≡ self.now) }
        ensures job { IfOk result (λ done. done.job ≡ job.now) }
        ensures turns { IfOk result (λ done. done.used ≤ turns) }
        ensures ends { IfOk result (λ done. (done.rest ≡ []) ⊎ (done.used ≡ turns)) }
        ensures own { IfOk result (λ done. record { found = done.found; rest = done.rest; used = done.used }
            ≡ after_turns self.now most_rows job.now turns) }
    {
        turns_are_finished_work();
        let _ = self.problem.stage();
        let explored = self.take_turns(alloc, table, job, turns)?;
        finished(alloc, &self.problem, job, explored)
    }

    /// The first of some touches that is not kept, told by numbers where there are some, and else by a walk that rings. Err
    /// where no memory is left.
    pub fn first_unkept(
        &self,
        alloc: Global,
        touches: &[Calling],
    ) -> Result<Option<usize>, NoMemory>
        requires { All (HasSteps self.now) touches.now }
        ensures { IfOk result (TellsFirst (λ i. Kept self.now (get_or touches.now i [])) (length touches.now)) }
    {
        let problem = &self.problem;
        let leads = &self.leads;
        let Some(numbers) = &self.numbers else {
            return first_by_ringing(alloc, problem, leads, touches);
        };
        by_width!(
            numbers.width(),
            first_by_numbers(alloc, problem, leads, numbers, touches),
            first_by_ringing(alloc, problem, leads, touches)
        )
    }

    // Turns on a job, by numbers where there are some, and else by a walk.
    fn take_turns(
        &self,
        alloc: Global,
        table: Option<&FalseTable>,
        job: &[Node],
        turns: u64,
    ) -> Result<Explored, NoMemory>
        requires table { IfSome table (λ t. IsFalseTable (lead_table self.now) t.now) }
        requires job { All (IsValid self.now) job.now }
        ensures { IfOk result (λ done. record { found = done.found.items; rest = done.rest.items; used = done.used }
            ≡ after_turns self.now most_rows job.now turns) }
    {
        let problem = &self.problem;
        let leads = &self.leads;
        let Some(numbers) = &self.numbers else {
            return turns_by_walk(alloc, problem, leads, &self.reach, table, job, turns);
        };
        by_width!(
            numbers.width(),
            turns_by_numbers(alloc, problem, leads, numbers, job, turns),
            turns_by_walk(alloc, problem, leads, &self.reach, table, job, turns)
        )
    }
}

// The rows that are few leads from rounds.
fn reach_of(alloc: Global, problem: &Problem, leads: &LeadTable) -> Result<ReachTable, NoMemory>
    requires { leads.now ≡ lead_table problem.now }
    ensures { IfOk result (λ reach. reach ≡ reach_table problem.now most_rows) }
{
    let reach = ReachTable::new(alloc, leads, MOST_ROWS)?;
    Ok(reach)
}

// Turns on a job by numbers, of which each lead has so many.
fn turns_by_numbers<const WIDTH: usize>(
    alloc: Global,
    problem: &Problem,
    leads: &LeadTable,
    numbers: &NumberTable,
    job: &[Node],
    turns: u64,
) -> Result<Explored, NoMemory>
    requires leads { leads.now ≡ lead_table problem.now }
    requires numbers { IsNumbered problem.now numbers.now }
    requires width { numbers.now.width ≡ WIDTH }
    requires job { All (IsValid problem.now) job.now }
    ensures { IfOk result (λ done. record { found = done.found.items; rest = done.rest.items; used = done.used }
        ≡ after_turns problem.now most_rows job.now turns) }
{
    by_steps!(
        is_counted(problem),
        leads.count(),
        turns_on_path::<WIDTH>(alloc, problem, leads, numbers, job, turns)
    )
}

// The same, where the query counts something, or nothing, and where the number of steps is known when this is compiled,
// or 0 stands for it.
fn turns_on_path<const WIDTH: usize, const COUNTS: usize, const STEPS: usize>(
    alloc: Global,
    problem: &Problem,
    leads: &LeadTable,
    numbers: &NumberTable,
    job: &[Node],
    turns: u64,
) -> Result<Explored, NoMemory>
    requires leads { leads.now ≡ lead_table problem.now }
    requires numbers { IsNumbered problem.now numbers.now }
    requires width { numbers.now.width ≡ WIDTH }
    requires counted { COUNTS ≡ 0 → AsksNothing problem.now.query }
    requires steps { 0 < STEPS → STEPS ≡ length problem.now.leads }
    requires job { All (IsValid problem.now) job.now }
    ensures { IfOk result (λ done. record { found = done.found.items; rest = done.rest.items; used = done.used }
        ≡ after_turns problem.now most_rows job.now turns) }
{
    let _ = problem.stage();
    let path: NumberPath<WIDTH, COUNTS, STEPS> = NumberPath::new(alloc, problem, leads, numbers)?;
    take_turns(alloc, path, job, turns)
}

// Turns on a job by a walk that asks the falseness table, if there is one, and else keeps the rows.
fn turns_by_walk(
    alloc: Global,
    problem: &Problem,
    leads: &LeadTable,
    reach: &ReachTable,
    table: Option<&FalseTable>,
    job: &[Node],
    turns: u64,
) -> Result<Explored, NoMemory>
    requires leads { leads.now ≡ lead_table problem.now }
    requires reach { reach.now ≡ reach_table problem.now most_rows }
    requires table { IfSome table (λ t. IsFalseTable (lead_table problem.now) t.now) }
    requires job { All (IsValid problem.now) job.now }
    ensures { IfOk result (λ done. record { found = done.found.items; rest = done.rest.items; used = done.used }
        ≡ after_turns problem.now most_rows job.now turns) }
{
    let _ = problem.stage();
    let path = WalkPath::new(alloc, problem, leads, reach, table)?;
    take_turns(alloc, path, job, turns)
}

// The finished work of these turns on a job.
fn finished(
    alloc: Global,
    problem: &Problem,
    job: &[Node],
    explored: Explored,
) -> Result<Done, NoMemory>
    requires { IsDone problem.now job.now explored.found.items explored.rest.items explored.used }
    ensures { IfOk result (λ done. done ≡ record {
      problem = problem.now;
      job = job.now;
      found = explored.found.items;
      rest = explored.rest.items;
      used = explored.used;
    }) }
{
    let problem = problem.copy(alloc)?;
    let job = copied(alloc, job)?;
    Ok(Done::new(problem, job, explored.found, explored.rest, explored.used))
}

// The same nodes again.
fn copied(alloc: Global, nodes: &[Node]) -> Result<Vec<Node>, NoMemory>
    ensures { IfOk result (λ copies. copies.items ≡ nodes.now) }
{
    let mut copies = Vec::with_capacity(alloc, nodes.len())?;
    for node in nodes {
        copies.push(node.copy(alloc)?)?;
    }
    Ok(copies)
}
