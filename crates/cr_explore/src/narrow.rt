//! The search that counts no turns.

ghost use Rattle.std.specs.Prelude.{◌≡◌, ℕ, ◌+◌, ◌<◌, ◌≤◌, ◌↔◌, ◌⊎◌, [], length, All, IsTrue, IfOk, IfSome};
ghost use Rattle.cr_ahead.specs.Outlooks.{IsOutlook};
ghost use Rattle.cr_leads.specs.Tables.{lead_table};
ghost use Rattle.cr_model.specs.Nodes.{IsValid, Splits};
ghost use Rattle.cr_model.specs.Sizes.{most_rows, size_of_all};
ghost use Rattle.cr_node.specs.Work.{IsJob};
ghost use Rattle.cr_path.specs.Counted.{AsksNothing};
ghost use Rattle.cr_path.specs.Numbers.{IsNumbered};
ghost use Rattle.cr_reach.specs.Tables.{reach_table};

use crate::all_touches::find_all;
use crate::changing_path::ChangingPath;
use crate::narrow_path::NarrowPath;
use crate::path::Path;
use crate::search::Explored;
use crate::tables::Tables;
use crate::walk_path::WalkPath;
use crate::widths::{by_steps, by_width};
use cr_ahead::Outlook;
use cr_leads::LeadTable;
use cr_model::Problem;
use cr_model::laws::a_lead_rung_from_a_row;
use cr_node::Node;
use cr_path::{NumberTable, is_counted};
use cr_reach::ReachTable;
use cr_row::{NoMemory, Row, rounds_is_neutral};
use std::alloc::Global;
use std::marker::Model;

// How many bytes the tables of what can still come have at most: 256 MB.
const MOST_BYTES: u64 = 256_000_000;

/// The search of a problem by numbers for who counts no turns: it passes by the nodes that cannot come to what the query
/// asks. What it finds of a job is the same as what a search finds that takes every turn.
///
/// It is seen as the problem.
#[derive(Drop)]
pub struct NarrowSearch<'a> {
    tables: &'a Tables,
    numbers: &'a NumberTable,
    outlook: Outlook,
}

impl<'a> Model for NarrowSearch<'a> {
    ghost use Rattle.cr_model.specs.Problems.{ProblemParts};
    ghost use Rattle.cr_explore.specs.Searches.{IsNarrow};

    ghost Value = { ProblemParts };

    ghost view = { λ s. s.tables.now };

    ghost invariant = { λ s. IsNarrow s.tables.now s.numbers.now s.outlook };
}

impl<'a> NarrowSearch<'a> {
    /// The search over these tables of a problem. None where they have no numbers, or where the tables of what can still come
    /// would have more than 256 MB. Err where no memory is left.
    pub(crate) fn new(
        alloc: Global,
        tables: &'a Tables,
    ) -> Result<Option<NarrowSearch<'a>>, NoMemory>
        ensures { IfOk result (λ made. IfSome made (λ search. search ≡ tables.now)) }
    {
        let Some(numbers) = tables.numbers() else {
            return Ok(None);
        };
        match outlook_of(alloc, tables.problem(), numbers)? {
            Some(outlook) => Ok(Some(NarrowSearch {
                tables,
                numbers,
                outlook,
            })),
            None => Ok(None),
        }
    }

    /// The problem.
    pub fn problem(&self) -> &Problem
        ensures { result.now ≡ self.now }
    {
        self.tables.problem()
    }

    /// At most so many turns on a job, where a node that cannot come to what is asked is one turn, and what is below it is
    /// passed by. Err where no memory is left.
    pub fn find_all(&self, alloc: Global, job: &[Node], turns: u64) -> Result<Explored, NoMemory>
        requires job { IsJob self.now job.now }
        ensures splits { IfOk result (λ done. Splits self.now job.now done.found.items done.rest.items) }
        ensures smaller { IfOk result (λ done. size_of_all self.now most_rows done.rest.items + done.used
            ≤ size_of_all self.now most_rows job.now) }
        ensures few { IfOk result (λ done. done.used ≤ turns) }
        ensures ends { IfOk result (λ done. (done.rest.items ≡ []) ⊎ (done.used ≡ turns)) }
    {
        let problem = self.tables.problem();
        let leads = self.tables.leads();
        let numbers = self.numbers;
        let outlook = &self.outlook;
        by_width!(
            numbers.width(),
            find_by_numbers(alloc, problem, leads, numbers, outlook, job, turns),
            find_by_walk(alloc, problem, leads, self.tables.reach(), job, turns)
        )
    }

    /// How many nodes of a job have nothing kept below them, as far as it is known. Where no memory is left it is 0.
    pub fn passed_by(&self, alloc: Global, job: &[Node]) -> usize
        requires { IsJob self.now job.now }
    {
        let problem = self.tables.problem();
        let leads = self.tables.leads();
        let numbers = self.numbers;
        let outlook = &self.outlook;
        by_width!(
            numbers.width(),
            passed_by_numbers(alloc, problem, leads, numbers, outlook, job),
            0
        )
    }
}

// The outlook of a problem from the heads of its numbers. None where its tables have no room.
fn outlook_of(
    alloc: Global,
    problem: &Problem,
    numbers: &NumberTable,
) -> Result<Option<Outlook>, NoMemory>
    requires { IsNumbered problem.now numbers.now }
    ensures { IfOk result (λ made. IfSome made (λ outlook. IsOutlook problem.now numbers.now.heads outlook)) }
{
    a_lead_rung_from_a_row();
    rounds_is_neutral();
    let heads = numbers.heads();
    if !are_few(heads) {
        return Ok(None);
    }
    let next = numbers.next_heads(alloc)?;
    Outlook::new(alloc, problem, heads, &next, MOST_BYTES)
}

// Whether so many heads can have numbers of 32 bits.
fn are_few(heads: &[Row]) -> bool
    ensures { IsTrue result ↔ (length heads.now ≤ 4294967296) }
{
    heads.len() as u64 <= 4_294_967_296
}

// Turns on a job by numbers, of which each lead has so many.
fn find_by_numbers<const WIDTH: usize>(
    alloc: Global,
    problem: &Problem,
    leads: &LeadTable,
    numbers: &NumberTable,
    outlook: &Outlook,
    job: &[Node],
    turns: u64,
) -> Result<Explored, NoMemory>
    requires leads { leads.now ≡ lead_table problem.now }
    requires numbers { IsNumbered problem.now numbers.now }
    requires width { numbers.now.width ≡ WIDTH }
    requires outlook { IsOutlook problem.now numbers.now.heads outlook.now }
    requires job { IsJob problem.now job.now }
    ensures splits { IfOk result (λ done. Splits problem.now job.now done.found.items done.rest.items) }
    ensures smaller { IfOk result (λ done. size_of_all problem.now most_rows done.rest.items + done.used
        ≤ size_of_all problem.now most_rows job.now) }
    ensures few { IfOk result (λ done. done.used ≤ turns) }
    ensures ends { IfOk result (λ done. (done.rest.items ≡ []) ⊎ (done.used ≡ turns)) }
{
    if outlook.has_com() {
        return find_changing::<WIDTH>(alloc, problem, leads, numbers, outlook, job, turns);
    }
    by_steps!(
        is_counted(problem),
        leads.count(),
        find_on_path::<WIDTH>(alloc, problem, leads, numbers, outlook, job, turns)
    )
}

// The same, where the query counts something, or nothing, and where the number of steps is known when this is compiled,
// or 0 stands for it.
fn find_on_path<const WIDTH: usize, const COUNTS: usize, const STEPS: usize>(
    alloc: Global,
    problem: &Problem,
    leads: &LeadTable,
    numbers: &NumberTable,
    outlook: &Outlook,
    job: &[Node],
    turns: u64,
) -> Result<Explored, NoMemory>
    requires leads { leads.now ≡ lead_table problem.now }
    requires numbers { IsNumbered problem.now numbers.now }
    requires width { numbers.now.width ≡ WIDTH }
    requires counted { COUNTS ≡ 0 → AsksNothing problem.now.query }
    requires steps { 0 < STEPS → STEPS ≡ length problem.now.leads }
    requires outlook { IsOutlook problem.now numbers.now.heads outlook.now }
    requires job { IsJob problem.now job.now }
    ensures splits { IfOk result (λ done. Splits problem.now job.now done.found.items done.rest.items) }
    ensures smaller { IfOk result (λ done. size_of_all problem.now most_rows done.rest.items + done.used
        ≤ size_of_all problem.now most_rows job.now) }
    ensures few { IfOk result (λ done. done.used ≤ turns) }
    ensures ends { IfOk result (λ done. (done.rest.items ≡ []) ⊎ (done.used ≡ turns)) }
{
    let _ = problem.stage();
    let path: NarrowPath<WIDTH, COUNTS, STEPS> = NarrowPath::new(
        alloc, problem, leads, numbers, outlook,
    )?;
    find_all(alloc, path, job, turns)
}

// The same, where changes of method are looked at.
fn find_changing<const WIDTH: usize>(
    alloc: Global,
    problem: &Problem,
    leads: &LeadTable,
    numbers: &NumberTable,
    outlook: &Outlook,
    job: &[Node],
    turns: u64,
) -> Result<Explored, NoMemory>
    requires leads { leads.now ≡ lead_table problem.now }
    requires numbers { IsNumbered problem.now numbers.now }
    requires width { numbers.now.width ≡ WIDTH }
    requires outlook { IsOutlook problem.now numbers.now.heads outlook.now }
    requires job { IsJob problem.now job.now }
    ensures splits { IfOk result (λ done. Splits problem.now job.now done.found.items done.rest.items) }
    ensures smaller { IfOk result (λ done. size_of_all problem.now most_rows done.rest.items + done.used
        ≤ size_of_all problem.now most_rows job.now) }
    ensures few { IfOk result (λ done. done.used ≤ turns) }
    ensures ends { IfOk result (λ done. (done.rest.items ≡ []) ⊎ (done.used ≡ turns)) }
{
    let _ = problem.stage();
    let path: ChangingPath<WIDTH> = ChangingPath::new(alloc, problem, leads, numbers, outlook)?;
    find_all(alloc, path, job, turns)
}

// Turns on a job by a walk that rings, which passes nothing by.
fn find_by_walk<'a>(
    alloc: Global,
    problem: &'a Problem,
    leads: &'a LeadTable,
    reach: &'a ReachTable,
    job: &[Node],
    turns: u64,
) -> Result<Explored, NoMemory>
    requires leads { leads.now ≡ lead_table problem.now }
    requires reach { reach.now ≡ reach_table problem.now most_rows }
    requires job { IsJob problem.now job.now }
    ensures splits { IfOk result (λ done. Splits problem.now job.now done.found.items done.rest.items) }
    ensures smaller { IfOk result (λ done. size_of_all problem.now most_rows done.rest.items + done.used
        ≤ size_of_all problem.now most_rows job.now) }
    ensures few { IfOk result (λ done. done.used ≤ turns) }
    ensures ends { IfOk result (λ done. (done.rest.items ≡ []) ⊎ (done.used ≡ turns)) }
{
    let _ = problem.stage();
    let path = WalkPath::new(alloc, problem, leads, reach, None)?;
    find_all(alloc, path, job, turns)
}

// How many nodes of a job an outlook passes by.
fn passed_by_numbers<const WIDTH: usize>(
    alloc: Global,
    problem: &Problem,
    leads: &LeadTable,
    numbers: &NumberTable,
    outlook: &Outlook,
    job: &[Node],
) -> usize
    requires leads { leads.now ≡ lead_table problem.now }
    requires numbers { IsNumbered problem.now numbers.now }
    requires width { numbers.now.width ≡ WIDTH }
    requires outlook { IsOutlook problem.now numbers.now.heads outlook.now }
    requires job { IsJob problem.now job.now }
{
    let _ = problem.stage();
    let path: Result<ChangingPath<WIDTH>, NoMemory> = ChangingPath::new(
        alloc, problem, leads, numbers, outlook,
    );
    match path {
        Ok(path) => count_passed(path, job),
        Err(NoMemory) => 0,
    }
}

// How many nodes of a job a path knows to have nothing kept below them.
fn count_passed<P: Path>(path: P, job: &[Node]) -> usize
    requires { All (IsValid (P.problem_of path)) job.now }
{
    let mut path = path;
    let mut passed: usize = 0;
    for node in job {
        path = path.gone_to(node.steps());
        if path.has_none_below() {
            passed = passed.saturating_add(1);
        }
    }
    passed
}
