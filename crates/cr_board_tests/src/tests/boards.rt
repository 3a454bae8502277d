//! Boards of one job, and finished work of no turns.

ghost use Rattle.std.specs.Prelude.{◌≡◌, [], ◌∷◌, map, All, IfOk};
ghost use Rattle.cr_model.specs.Nodes.{IsValid};
ghost use Rattle.cr_node.specs.Work.{IsJob};

use cr_board::{Board, Opening};
use cr_hunter::copy_nodes;
use cr_model::{Calling, Problem};
use cr_node::laws::work_goes_on;
use cr_node::{Done, Node, independent};
use cr_row::NoMemory;
use std::alloc::Global;
use std::test::Fail;

/// Finished work of no turns, of which nothing is found.
pub fn not_begun(alloc: Global, problem: &Problem, nodes: &[Node]) -> Result<Done, Fail> {
    check_job(alloc, problem, nodes)?;
    work_goes_on();
    let problem = problem.copy(alloc)?;
    let job = copy_nodes(alloc, nodes)?;
    let rest = copy_nodes(alloc, nodes)?;
    Ok(Done::new(problem, job, Vec::new(alloc), rest, 0))
}

/// A board of three workers with these nodes as its only job.
pub fn board_of_one(
    alloc: Global,
    problem: &Problem,
    nodes: &[Node],
    budget: Option<u64>,
) -> Result<Board, Fail>
    ensures { IfOk result (λ b. b.opening.workers ≡ 3) }
{
    check_job(alloc, problem, nodes)?;
    let jobs = lone_job(alloc, nodes)?;
    let opening = Opening::new(problem.copy(alloc)?, Vec::new(alloc), jobs, budget, 3);
    Ok(Board::open(alloc, opening)?)
}

// The job of these nodes alone.
fn lone_job(alloc: Global, nodes: &[Node]) -> Result<Vec<Vec<Node>>, NoMemory>
    ensures { IfOk result (λ jobs. map (λ job. job.items) jobs.items ≡ nodes.now ∷ []) }
{
    let mut jobs = Vec::new(alloc);
    jobs.push(copy_nodes(alloc, nodes)?)?;
    Ok(jobs)
}

// Err where the nodes are no job of the problem.
fn check_job(alloc: Global, problem: &Problem, nodes: &[Node]) -> Result<(), Fail>
    ensures { IfOk result (λ _. IsJob problem.now nodes.now) }
{
    if nodes.is_empty() {
        return Err(Fail::from("there is no node"));
    }
    check_nodes(alloc, problem, nodes)?;
    match independent(alloc, problem, &[], nodes)? {
        Some(_) => Err(Fail::from("the nodes overlap")),
        None => Ok(()),
    }
}

// Err where a node is not valid.
fn check_nodes(alloc: Global, problem: &Problem, nodes: &[Node]) -> Result<(), Fail>
    ensures { IfOk result (λ _. All (IsValid problem.now) nodes.now) }
{
    for node in nodes {
        check_node(alloc, problem, node)?;
    }
    Ok(())
}

fn check_node(alloc: Global, problem: &Problem, node: &Node) -> Result<(), Fail>
    ensures { IfOk result (λ _. IsValid problem.now node.now) }
{
    if !problem.has_steps(node.steps()) {
        return Err(Fail::from("a step is unknown"));
    }
    let Ok(calling) = Calling::new(node.steps().to_vec(alloc)?) else {
        return Err(Fail::from("the node has many steps"));
    };
    if problem.length_of(&calling) > problem.part_cap() {
        return Err(Fail::from("the node is long"));
    }
    Ok(())
}
