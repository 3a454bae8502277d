//! Found touches and nodes, read from their lines.

ghost use Rattle.std.specs.Prelude.{◌≡◌, ◌↔◌, [], map, All, IsTrue, IfOk};
ghost use Rattle.cr_model.specs.Callings.{HasSteps, length_of};
ghost use Rattle.cr_store.specs.ShapeReads.{found_parts, node_parts, shape_parts};
ghost use Rattle.cr_query.specs.Meeting.{HasParts};
ghost use Rattle.cr_store.specs.Lines.{left_out, node_lines_of};
ghost use Rattle.cr_store.specs.Reading.{TellsCalling, TellsTouch, TellsSteps, TellsJoined, TellsNode, ReadsTouches, ReadsNodes, AddsNodes};

use crate::shape::{FoundLine, NodeLine, Shape};
use crate::texts::{last_of, shared_steps};
use cr_book::laws::callings_differ_in_their_texts;
use cr_book::{CallingFault, read_calling};
use cr_model::{Calling, Problem};
use cr_node::Node;
use cr_query::has_parts;
use cr_row::NoMemory;
use std::alloc::Global;

// The calling of a text, if it is that of one.
fn calling_of(alloc: Global, problem: &Problem, text: &[u8]) -> Result<Option<Calling>, NoMemory>
    ensures { IfOk result (TellsCalling problem.now text.now) }
{
    match read_calling(alloc, problem, text) {
        Ok(calling) => Ok(Some(calling)),
        Err(CallingFault::At(_)) => Ok(None),
        Err(CallingFault::NoMemory) => Err(NoMemory),
    }
}

// The touch of a line, if it is that of one.
fn read_touch(
    alloc: Global,
    problem: &Problem,
    line: &FoundLine,
) -> Result<Option<Calling>, NoMemory>
    ensures { IfOk result (TellsTouch problem.now (found_parts line.now)) }
{
    callings_differ_in_their_texts();
    let _ = problem.query();
    let Some(touch) = calling_of(alloc, problem, line.calling)? else {
        return Ok(None);
    };
    if is_told(problem, line, &touch) {
        Ok(Some(touch))
    } else {
        Ok(None)
    }
}

// Whether a line tells a calling's length, and the calling is as many equal words as the query has parts.
fn is_told(problem: &Problem, line: &FoundLine, touch: &Calling) -> bool
    requires { HasSteps problem.now touch.now }
    ensures { IsTrue result ↔ ((line.now.length ≡ length_of problem.now touch.now) × HasParts problem.now touch.now) }
{
    problem.length_of(touch) == line.length && has_parts(problem, touch.steps())
}

/// Reads touches from their lines, up to the first line that is that of none, and answers whether all were read.
pub fn read_touches(
    alloc: Global,
    problem: &Problem,
    lines: &[FoundLine],
    found: &mut Vec<Calling>,
) -> Result<bool, NoMemory>
    requires { found.old.items ≡ [] }
    ensures { IfOk result (ReadsTouches problem.now (map found_parts lines.now) found.new.items) }
{
    for line in lines {
        match read_touch(alloc, problem, line)? {
            Some(touch) => found.push(touch)?,
            None => return Ok(false),
        }
    }
    Ok(true)
}

// The steps of a text, if it is `-` or that of a calling.
fn read_steps(alloc: Global, problem: &Problem, text: &[u8]) -> Result<Option<Vec<u8>>, NoMemory>
    ensures { IfOk result (TellsSteps problem.now text.now) }
{
    if text == b"-".as_slice() {
        return Ok(Some(Vec::new(alloc)));
    }
    match calling_of(alloc, problem, text)? {
        Some(calling) => Ok(Some(calling.steps().to_vec(alloc)?)),
        None => Ok(None),
    }
}

// So many steps of a node, if it has them, and others.
fn join_steps(
    alloc: Global,
    before: &[u8],
    shared: u64,
    rest: &[u8],
) -> Result<Option<Vec<u8>>, NoMemory>
    ensures { IfOk result (TellsJoined before.now shared rest.now) }
{
    if shared > before.len() as u64 {
        return Ok(None);
    }
    let mut steps = before[..shared as usize].to_vec(alloc)?;
    steps.extend_from_slice(rest)?;
    Ok(Some(steps))
}

// Whether the line of a node after another leaves out so many steps: in version 1 none, and else all that both share.
fn is_left_out(version: u64, before: &[u8], steps: &[u8], shared: u64) -> bool
    ensures { IsTrue result ↔ (shared ≡ left_out version before.now steps.now) }
{
    if version == 1 {
        shared == 0
    } else {
        shared == shared_steps(before, steps) as u64
    }
}

/// The node of a line after another node, if it is that of one.
pub fn read_node(
    alloc: Global,
    problem: &Problem,
    version: u64,
    before: &[u8],
    line: &NodeLine,
) -> Result<Option<Node>, NoMemory>
    requires { HasSteps problem.now before.now }
    ensures { IfOk result (TellsNode problem.now version before.now (node_parts line.now)) }
{
    callings_differ_in_their_texts();
    let _ = problem.query();
    let Some(rest) = read_steps(alloc, problem, line.steps)? else {
        return Ok(None);
    };
    let Some(steps) = join_steps(alloc, before, line.shared, &rest)? else {
        return Ok(None);
    };
    if !is_left_out(version, before, &steps, line.shared) {
        return Ok(None);
    }
    match Node::new(steps) {
        Ok(node) => Ok(Some(node)),
        Err(_) => Ok(None),
    }
}

// Reads the nodes of a job from their lines, up to the first line that is that of none, and answers whether all were
// read.
fn read_job(
    alloc: Global,
    problem: &Problem,
    version: u64,
    lines: &[NodeLine],
    nodes: &mut Vec<Node>,
) -> Result<bool, NoMemory>
    requires { All (HasSteps problem.now) nodes.old.items }
    ensures { IfOk result (AddsNodes problem.now version (map node_parts lines.now) nodes.old.items nodes.new.items) }
{
    for line in lines {
        let read = read_node(alloc, problem, version, last_of(&[], nodes), line)?;
        match read {
            Some(node) => nodes.push(node)?,
            None => return Ok(false),
        }
    }
    Ok(true)
}

/// Reads nodes from their lines, up to the first line that is that of none, and answers whether all were read.
pub fn read_nodes(
    alloc: Global,
    problem: &Problem,
    shape: &Shape,
    nodes: &mut Vec<Node>,
) -> Result<bool, NoMemory>
    requires { nodes.old.items ≡ [] }
    ensures { IfOk result (ReadsNodes problem.now shape.now.version [] (node_lines_of (shape_parts shape.now)) nodes.new.items) }
{
    for lines in &shape.jobs {
        if !read_job(alloc, problem, shape.version, lines, nodes)? {
            return Ok(false);
        }
    }
    Ok(true)
}
