//! Copies of nodes, callings and jobs.

ghost use Rattle.std.specs.Prelude.{◌≡◌, ℕ, ◌+◌, [], ◌∷◌, map, IfOk};
ghost use Rattle.cr_board.specs.Jobs.{numbered};

use crate::job::LaneJob;
use cr_model::Calling;
use cr_node::Node;
use cr_row::NoMemory;
use std::alloc::Global;

/// The same nodes again. Err where no memory is left.
pub fn copy_nodes(alloc: Global, nodes: &[Node]) -> Result<Vec<Node>, NoMemory>
    ensures { IfOk result (λ copy. copy.items ≡ nodes.now) }
{
    let mut copy = Vec::with_capacity(alloc, nodes.len())?;
    for node in nodes {
        copy.push(node.copy(alloc)?)?;
    }
    Ok(copy)
}

/// The same callings again. Err where no memory is left.
pub fn copy_callings(alloc: Global, callings: &[Calling]) -> Result<Vec<Calling>, NoMemory>
    ensures { IfOk result (λ copy. copy.items ≡ callings.now) }
{
    let mut copy = Vec::with_capacity(alloc, callings.len())?;
    for calling in callings {
        copy.push(calling.copy(alloc)?)?;
    }
    Ok(copy)
}

/// The same jobs again. Err where no memory is left.
pub fn copy_jobs(alloc: Global, jobs: &[Vec<Node>]) -> Result<Vec<Vec<Node>>, NoMemory>
    ensures { IfOk result (λ copy. map (λ job. job.items) copy.items ≡ map (λ job. job.items) jobs.now) }
{
    let mut copy = Vec::with_capacity(alloc, jobs.len())?;
    for job in jobs {
        copy.push(copy_nodes(alloc, job)?)?;
    }
    Ok(copy)
}

/// The job of the root alone. Err where no memory is left.
pub fn root_job(alloc: Global) -> Result<Vec<Vec<Node>>, NoMemory>
    ensures { IfOk result (λ jobs. map (λ job. job.items) jobs.items ≡ ([] ∷ []) ∷ []) }
{
    let mut job = Vec::with_capacity(alloc, 1)?;
    job.push(Node::root(alloc))?;
    let mut jobs = Vec::with_capacity(alloc, 1)?;
    jobs.push(job)?;
    Ok(jobs)
}

/// Copies of the jobs, numbered from 0. Err where no memory is left.
pub fn number_jobs(alloc: Global, jobs: &[Vec<Node>]) -> Result<Vec<LaneJob>, NoMemory>
    ensures { IfOk result (λ lane. lane.items ≡ numbered 0 (map (λ job. job.items) jobs.now)) }
{
    let mut lane = Vec::with_capacity(alloc, jobs.len())?;
    for job in jobs {
        let number = lane.len() as u64;
        let nodes = copy_nodes(alloc, job)?;
        lane.push(LaneJob { number, nodes })?;
    }
    Ok(lane)
}
