//! Whether a search looks ahead.

ghost use Rattle.std.specs.Prelude.{◌≡◌, None, All, IfOk, IfSome};
ghost use Rattle.cr_node.specs.Work.{IsJob};
ghost use Rattle.cr_explore.specs.Searches.{searched};

use cr_explore::laws::what_is_left_is_a_job;
use cr_explore::{NarrowSearch, Search};
use cr_node::{Done, Explorer, Node};
use cr_row::NoMemory;
use std::alloc::Global;

// How many jobs are tried at most, and how many turns each has.
const TRIED_JOBS: usize = 8;

const TRIAL_TURNS: u64 = 1 << 14;

// It serves where of the nodes that trials leave more than one of so many has nothing kept below it.
const ONE_OF: usize = 16;

/// The search that passes by nodes below which nothing is kept, where turns are not counted and it serves to search these
/// jobs so. None where it does not, has no room or no memory is left.
pub fn looking_ahead<'a>(
    alloc: Global,
    search: &'a Search,
    turns: Option<u64>,
    jobs: &[Vec<Node>],
) -> Option<NarrowSearch<'a>>
    requires { All (λ job. IsJob (searched search.now) job.items) jobs.now }
    ensures { IfSome result (λ narrow. (turns ≡ None) × (narrow ≡ searched search.now)) }
{
    if turns.is_some() {
        return None;
    }
    match if_it_serves(alloc, search, jobs) {
        Ok(narrow) => narrow,
        Err(NoMemory) => None,
    }
}

// The search that looks ahead, where it serves. It is not made where a few turns leave nothing.
fn if_it_serves<'a>(
    alloc: Global,
    search: &'a Search,
    jobs: &[Vec<Node>],
) -> Result<Option<NarrowSearch<'a>>, NoMemory>
    requires { All (λ job. IsJob (searched search.now) job.items) jobs.now }
    ensures { IfOk result (λ made. IfSome made (λ narrow. narrow ≡ searched search.now)) }
{
    let trials = trials_of(alloc, search, jobs)?;
    if left_by(&trials) == 0 {
        return Ok(None);
    }
    let Some(narrow) = search.looking_ahead(alloc)? else {
        return Ok(None);
    };
    if serves(alloc, &narrow, &trials) {
        Ok(Some(narrow))
    } else {
        Ok(None)
    }
}

// A few turns on each of the first jobs.
fn trials_of(alloc: Global, search: &Search, jobs: &[Vec<Node>]) -> Result<Vec<Done>, NoMemory>
    requires { All (λ job. IsJob (searched search.now) job.items) jobs.now }
    ensures { IfOk result (λ trials. All (λ done. done.problem ≡ searched search.now) trials.items) }
{
    let mut trials = Vec::new(alloc);
    for index in 0..jobs.len().min(TRIED_JOBS) {
        trials.push(search.explore(alloc, &jobs[index], TRIAL_TURNS)?)?;
    }
    Ok(trials)
}

// How many nodes the trials left.
fn left_by(trials: &[Done]) -> usize {
    let mut nodes: usize = 0;
    for done in trials {
        nodes = nodes.saturating_add(done.rest().len());
    }
    nodes
}

// Whether looking ahead serves. No clause speaks of it: what is found is the same.
fn serves(alloc: Global, narrow: &NarrowSearch, trials: &[Done]) -> bool
    requires { All (λ done. done.problem ≡ narrow.now) trials.now }
{
    let mut passed: usize = 0;
    for done in trials {
        passed = passed.saturating_add(passed_by(alloc, narrow, done));
    }
    passed.saturating_mul(ONE_OF) > left_by(trials)
}

// How many of the nodes that a trial left are passed by.
fn passed_by(alloc: Global, narrow: &NarrowSearch, done: &Done) -> usize
    requires { done.now.problem ≡ narrow.now }
{
    what_is_left_is_a_job();
    let rest = done.rest();
    if rest.is_empty() {
        return 0;
    }
    narrow.passed_by(alloc, rest)
}
