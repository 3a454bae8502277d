//! The nodes of a checkpoint's text, handed on one after another.

ghost use Rattle.std.specs.Prelude.{◌≡◌, ◌↔◌, ℕ, List, [], ◌∷◌, ◌++◌, codes, IsTrue, IfOk};
ghost use Rattle.cr_model.specs.Problems.{ProblemParts};
ghost use Rattle.cr_model.specs.Callings.{HasSteps};
ghost use Rattle.cr_store.specs.Handing.{IsHanded, HandsNode, HandsNodes, HandsJob, HandsJobs};

use crate::checking::length_of;
use crate::reading::read_node;
use crate::shape::job_line;
use crate::shape_lines::{take_node, take_number};
use cr_model::Problem;
use cr_node::Node;
use cr_row::NoMemory;
use std::alloc::Global;

/// What takes the nodes of a problem one after another.
pub trait NodeSink {
    /// It has taken these nodes of a problem.
    ghost took: { Self → ProblemParts → List (List ℕ) → Type 0 };

    /// Takes one node more. False where it takes no more; Err where no memory is left.
    fn take(&mut self, alloc: Global, problem: &Problem, node: &Node) -> Result<bool, NoMemory>
        requires { HasSteps problem.now node.now }
        ensures { IfOk result (λ going. IsTrue going → (nodes : List (List ℕ)) → took self.old problem.now nodes → took self.new problem.now (nodes ++ node.now ∷ [])) };
}

// A place in the lines of nodes, and the node before it.
#[derive(Drop)]
struct NodeLines<'a> {
    rest: &'a [u8],
    last: Node,
}

/// Hands the nodes of a checkpoint to a sink, job by job, from the text that stands behind the lines of its found touches,
/// in version 2. No node is kept.
///
/// True exactly where that text is of jobs and the end, no job is empty, no node is longer than a part may be, and the
/// sink took all nodes. Err where no memory is left.
pub fn each_node<S: NodeSink>(
    alloc: Global,
    problem: &Problem,
    text: &[u8],
    sink: &mut S,
) -> Result<bool, NoMemory>
    ensures { IfOk result (λ whole. IsTrue whole → IsHanded problem.now text.now (S.took sink.old problem.now) (S.took sink.new problem.now)) }
{
    let Some((jobs, rest)) = take_number(text, b"jobs ") else {
        return Ok(false);
    };
    let last = Node::root(alloc);
    let mut lines = NodeLines { rest, last };
    if !hand_jobs(alloc, problem, jobs, &mut lines, sink)? {
        return Ok(false);
    }
    Ok(is_end(lines.rest))
}

// Whether this is the last line, and nothing after it.
fn is_end(text: &[u8]) -> bool
    ensures { IsTrue result ↔ (text.now ≡ codes "end\n") }
{
    text == b"end\n".as_slice()
}

// Hands the nodes of so many jobs to a sink, and goes past their lines.
fn hand_jobs<S: NodeSink>(
    alloc: Global,
    problem: &Problem,
    jobs: u64,
    lines: &mut NodeLines,
    sink: &mut S,
) -> Result<bool, NoMemory>
    requires { HasSteps problem.now lines.old.last }
    ensures { IfOk result (λ going. IsTrue going → HandsJobs problem.now lines.old.rest.now lines.old.last lines.new.rest.now lines.new.last (S.took sink.old problem.now) (S.took sink.new problem.now) jobs) }
{
    for _done in 0..jobs {
        if !hand_job(alloc, problem, lines, sink)? {
            return Ok(false);
        }
    }
    Ok(true)
}

// Hands the nodes of the next job to a sink, and goes past its lines.
fn hand_job<S: NodeSink>(
    alloc: Global,
    problem: &Problem,
    lines: &mut NodeLines,
    sink: &mut S,
) -> Result<bool, NoMemory>
    requires { HasSteps problem.now lines.old.last }
    ensures { IfOk result (λ going. IsTrue going → HandsJob problem.now lines.old.rest.now lines.old.last lines.new.rest.now lines.new.last (S.took sink.old problem.now) (S.took sink.new problem.now)) }
{
    let Some((nodes, rest)) = job_line(lines.rest) else {
        return Ok(false);
    };
    lines.rest = rest;
    hand_nodes(alloc, problem, nodes, lines, sink)
}

// Hands so many nodes to a sink, and goes past their lines.
fn hand_nodes<S: NodeSink>(
    alloc: Global,
    problem: &Problem,
    nodes: u64,
    lines: &mut NodeLines,
    sink: &mut S,
) -> Result<bool, NoMemory>
    requires { HasSteps problem.now lines.old.last }
    ensures { IfOk result (λ going. IsTrue going → HandsNodes problem.now lines.old.rest.now lines.old.last lines.new.rest.now lines.new.last (S.took sink.old problem.now) (S.took sink.new problem.now) nodes) }
{
    for _done in 0..nodes {
        if !hand_node(alloc, problem, lines, sink)? {
            return Ok(false);
        }
    }
    Ok(true)
}

// Hands the next node to a sink, and goes past its line.
fn hand_node<S: NodeSink>(
    alloc: Global,
    problem: &Problem,
    lines: &mut NodeLines,
    sink: &mut S,
) -> Result<bool, NoMemory>
    requires { HasSteps problem.now lines.old.last }
    ensures { IfOk result (λ going. IsTrue going → HandsNode problem.now lines.old.rest.now lines.old.last lines.new.rest.now lines.new.last (S.took sink.old problem.now) (S.took sink.new problem.now)) }
{
    let Some((line, rest)) = take_node(2, lines.rest) else {
        return Ok(false);
    };
    let Some(node) = read_node(alloc, problem, 2, lines.last.steps(), &line)? else {
        return Ok(false);
    };
    if length_of(alloc, problem, &node)? > problem.part_cap() {
        return Ok(false);
    }
    let going = sink.take(alloc, problem, &node)?;
    lines.rest = rest;
    lines.last = node;
    Ok(going)
}
