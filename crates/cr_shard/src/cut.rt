//! One search cut into many checkpoints.

ghost use Rattle.std.specs.Prelude.{◌≡◌, ◌+◌, ◌%◌, ◌<◌, ◌≤◌, ◌++◌, length, map, IfOk};
ghost use Rattle.cr_model.specs.ProblemFiles.{ProblemFile};
ghost use Rattle.cr_model.specs.Checkpoints.{CanGoOn, checkpoint_text, nodes_of_jobs};
ghost use Rattle.cr_store.specs.Written.{lists};
ghost use Rattle.cr_shard.specs.Deals.{dealt_found, dealt_nodes, as_jobs, shard_text, nodes_seen, jobs_seen, IsCut};

use cr_model::{Calling, Problem};
use cr_node::Node;
use cr_row::NoMemory;
use cr_store::{put_block, write_parts};
use std::alloc::Global;

/// The found touches and the nodes of a search dealt to so many checkpoints, which are written as blocks, one after
/// another.
///
/// The nodes of all jobs are counted from 0, and shard i has those at i, i + `into`, i + 2 `into` and so on, as one
/// job; it has no job where there are none. All found touches stand in shard 0. Err where no memory is left.
pub fn cut_blocks(
    alloc: Global,
    problem: &Problem,
    problem_bytes: &[u8],
    found: &[Calling],
    jobs: &[Vec<Node>],
    into: u32,
) -> Result<Vec<u8>, NoMemory>
    requires file { ProblemFile problem_bytes.now problem.now }
    requires goes_on { CanGoOn problem.now found.now (lists jobs.now) }
    requires some { 1 ≤ into }
    ensures { IfOk result (λ text. IsCut problem.now problem_bytes.now found.now (lists jobs.now) into text.items) }
{
    let nodes = all_nodes(alloc, jobs)?;
    let mut text = Vec::new(alloc);
    for shard in 0..into {
        let body = shard_of(alloc, problem, problem_bytes, found, &nodes, into, shard)?;
        put_block(&mut text, &body)?;
    }
    Ok(text)
}

// The checkpoint of a shard. Its nodes stay where they are, and the list of them is let go before its block needs memory.
fn shard_of(
    alloc: Global,
    problem: &Problem,
    problem_bytes: &[u8],
    found: &[Calling],
    nodes: &[&Node],
    into: u32,
    shard: u32,
) -> Result<Vec<u8>, NoMemory>
    requires file { ProblemFile problem_bytes.now problem.now }
    requires inside { shard < into }
    requires goes_on { CanGoOn problem.now (dealt_found shard found.now) (as_jobs (dealt_nodes into shard (nodes_seen nodes.now))) }
    ensures { IfOk result (λ body. body.items ≡ checkpoint_text problem.now problem_bytes.now (dealt_found shard found.now) (as_jobs (dealt_nodes into shard (nodes_seen nodes.now)))) }
{
    let touches = touches_of(found, shard);
    let dealt = nodes_of(alloc, nodes, into, shard)?;
    let jobs = one_job(alloc, dealt)?;
    let body = write_parts(alloc, problem, problem_bytes, touches, &jobs)?;
    Ok(body)
}

// The nodes of all jobs, in order.
fn all_nodes<'a>(alloc: Global, jobs: &'a [Vec<Node>]) -> Result<Vec<&'a Node>, NoMemory>
    ensures { IfOk result (λ nodes. nodes_seen nodes.items ≡ nodes_of_jobs (lists jobs.now)) }
{
    let mut nodes = Vec::with_capacity(alloc, number_of_nodes(jobs))?;
    for job in jobs {
        add_nodes(&mut nodes, job)?;
    }
    Ok(nodes)
}

// How many nodes there are in all; where they are more than a number can tell, the greatest.
fn number_of_nodes(jobs: &[Vec<Node>]) -> usize {
    let mut number: usize = 0;
    for job in jobs {
        number = number.saturating_add(job.len());
    }
    number
}

// Appends the nodes of a job.
fn add_nodes<'a>(nodes: &mut Vec<&'a Node>, job: &'a [Node]) -> Result<(), NoMemory>
    ensures { IfOk result (λ _. nodes_seen nodes.new.items ≡ nodes_seen nodes.old.items ++ job.now) }
{
    for node in job {
        nodes.push(node)?;
    }
    Ok(())
}

// The found touches of a shard.
fn touches_of(found: &[Calling], shard: u32) -> &[Calling]
    ensures { result.now ≡ dealt_found shard found.now }
{
    if shard == 0 { found } else { &[] }
}

// The nodes of a shard.
fn nodes_of<'a>(
    alloc: Global,
    nodes: &[&'a Node],
    into: u32,
    shard: u32,
) -> Result<Vec<&'a Node>, NoMemory>
    requires { shard < into }
    ensures { IfOk result (λ dealt. nodes_seen dealt.items ≡ dealt_nodes into shard (nodes_seen nodes.now)) }
{
    let mut dealt = Vec::with_capacity(alloc, nodes.len() / into as usize + 1)?;
    let mut place = shard as usize;
    while place < nodes.len() {
        dealt.push(nodes[place])?;
        place += into as usize;
    }
    Ok(dealt)
}

// Nodes as one job, or as no job where there are none.
fn one_job<'a>(alloc: Global, nodes: Vec<&'a Node>) -> Result<Vec<Vec<&'a Node>>, NoMemory>
    ensures { IfOk result (λ jobs. jobs_seen jobs.items ≡ as_jobs (nodes_seen nodes.entry.items)) }
{
    let mut jobs = Vec::new(alloc);
    if !nodes.is_empty() {
        jobs.push(nodes)?;
    }
    Ok(jobs)
}
