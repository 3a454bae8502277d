//! Openings of a search of the plain hunt, and its board.

ghost use Rattle.std.specs.Prelude.{◌≡◌, ◌≤◌, [], ◌∷◌, map, IfOk};
ghost use Rattle.cr_board.specs.Boards.{opened};
ghost use Rattle.cr_hunter.specs.Hunts.{hunt_from, second_step, both_steps};

use crate::hunts::plain_hunts;
use crate::nodes::lone_node;
use cr_board::{Board, Opening};
use cr_node::Node;
use cr_row::NoMemory;
use std::alloc::Global;
use std::test::Fail;

/// The opening of a search of the plain hunt: step 1 is job 0 and step 0 is job 1. Err where no memory is left.
pub fn both_begun(alloc: Global, budget: Option<u64>, workers: u32) -> Result<Opening, Fail>
    requires some { 1 ≤ workers }
    requires few { workers ≤ 64 }
    ensures { IfOk result (λ o. o ≡ hunt_from both_steps budget workers) }
{
    let problem = plain_hunts(alloc)?;
    let jobs = both_jobs(alloc)?;
    Ok(Opening::new(problem, Vec::new(alloc), jobs, budget, workers))
}

/// The opening of a search of the plain hunt: step 1 is its one job. Err where no memory is left.
pub fn second_begun(alloc: Global, budget: Option<u64>, workers: u32) -> Result<Opening, Fail>
    requires some { 1 ≤ workers }
    requires few { workers ≤ 64 }
    ensures { IfOk result (λ o. o ≡ hunt_from second_step budget workers) }
{
    let problem = plain_hunts(alloc)?;
    let jobs = second_job(alloc)?;
    Ok(Opening::new(problem, Vec::new(alloc), jobs, budget, workers))
}

/// The board of both steps. Err where no memory is left.
pub fn board_of_both(alloc: Global, budget: Option<u64>, workers: u32) -> Result<Board, Fail>
    requires some { 1 ≤ workers }
    requires few { workers ≤ 64 }
    ensures { IfOk result (λ b. b ≡ opened (hunt_from both_steps budget workers)) }
{
    Ok(Board::open(alloc, both_begun(alloc, budget, workers)?)?)
}

// The jobs of step 1 and of step 0.
fn both_jobs(alloc: Global) -> Result<Vec<Vec<Node>>, NoMemory>
    ensures { IfOk result (λ jobs. map (λ job. job.items) jobs.items ≡ both_steps) }
{
    let mut jobs = Vec::new(alloc);
    jobs.push(lone_node(alloc, 1)?)?;
    jobs.push(lone_node(alloc, 0)?)?;
    Ok(jobs)
}

// The job of step 1 alone.
fn second_job(alloc: Global) -> Result<Vec<Vec<Node>>, NoMemory>
    ensures { IfOk result (λ jobs. map (λ job. job.items) jobs.items ≡ second_step) }
{
    let mut jobs = Vec::new(alloc);
    jobs.push(lone_node(alloc, 1)?)?;
    Ok(jobs)
}
