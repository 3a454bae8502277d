//! Found touches and nodes, read and checked.

ghost use Rattle.std.specs.Prelude.{◌≡◌, ◌^◌, ◌<◌, length, MatchResult};
ghost use Rattle.cr_model.specs.Checks.{TellsFirst};
ghost use Rattle.cr_store.specs.ShapeReads.{shape_parts};
ghost use Rattle.cr_store.specs.Lines.{HasItems, last_in, outline_of};
ghost use Rattle.cr_store.specs.Reading.{AreOutlined, outline_parts};
ghost use Rattle.cr_store.specs.Faults.{OrNoMemory, IsUnread, IsKeptAt, AnswersFor, AnswersForAll, lengths_check, kept_check, order_check, overlap_check, item_checks};

use crate::checking::{first_long, first_out_of_order};
use crate::fault::CheckFault;
use crate::lines::line_of;
use crate::outline::Outline;
use crate::reading::{read_nodes, read_touches};
use crate::shape::Shape;
use cr_book::laws::callings_differ_in_their_texts;
use cr_model::{Calling, Problem};
use cr_node::{Node, independent};
use std::alloc::Global;

/// Found touches and nodes.
#[derive(Drop)]
pub struct Items {
    pub found: Vec<Calling>,
    pub nodes: Vec<Node>,
}

/// The found touches and nodes of all lines.
pub fn read_items(
    alloc: Global,
    problem: &Problem,
    shape: &Shape,
    outline: &Outline,
) -> Result<Items, CheckFault>
    requires few { last_in (outline_parts outline.now) < 2 ^ 64 }
    requires outline { outline_parts outline.now ≡ outline_of (shape_parts shape.now) }
    ensures { MatchResult result (λ items. HasItems problem.now (shape_parts shape.now) items.found.items items.nodes.items)
        (OrNoMemory (IsUnread problem.now (shape_parts shape.now))) }
{
    callings_differ_in_their_texts();
    let _ = problem.query();
    let mut found = Vec::with_capacity(alloc, shape.found.len())?;
    if !read_touches(alloc, problem, &shape.found, &mut found)? {
        return Err(CheckFault::Calling(line_of(outline, found.len())));
    }
    let mut nodes = Vec::with_capacity(alloc, number_of_nodes(shape))?;
    if !read_nodes(alloc, problem, shape, &mut nodes)? {
        let item = found.len() + nodes.len();
        return Err(CheckFault::Calling(line_of(outline, item)));
    }
    Ok(Items { found, nodes })
}

// How many lines of nodes there are in all; where they are more than a number can tell, the greatest.
fn number_of_nodes(shape: &Shape) -> usize {
    let mut number: usize = 0;
    for job in &shape.jobs {
        number = number.saturating_add(job.len());
    }
    number
}

/// Checks the found touches and nodes of all lines, where it is known which touch is the first that is not kept.
pub fn check_items(
    alloc: Global,
    problem: &Problem,
    outline: &Outline,
    items: &Items,
    unkept: Option<usize>,
) -> Result<(), CheckFault>
    requires outlined { AreOutlined problem.now (outline_parts outline.now) items.now.found.items items.now.nodes.items }
    requires unkept { TellsFirst (IsKeptAt problem.now items.now.found.items) (length items.now.found.items) unkept }
    ensures { AnswersForAll (item_checks problem.now (outline_parts outline.now) items.now.found.items items.now.nodes.items) result }
{
    check_lengths(alloc, problem, outline, items)?;
    check_kept(problem, outline, items, unkept)?;
    check_order(problem, outline, items)?;
    check_overlaps(alloc, problem, outline, items)
}

// No node is longer than a part may be.
fn check_lengths(
    alloc: Global,
    problem: &Problem,
    outline: &Outline,
    items: &Items,
) -> Result<(), CheckFault>
    requires { AreOutlined problem.now (outline_parts outline.now) items.now.found.items items.now.nodes.items }
    ensures { AnswersFor (lengths_check problem.now (outline_parts outline.now) items.now.found.items items.now.nodes.items) result }
{
    match first_long(alloc, problem, &items.nodes)? {
        Some(node) => {
            let line = line_of(outline, items.found.len() + node);
            Err(CheckFault::NodeLong(line))
        }
        None => Ok(()),
    }
}

// Each found touch is kept.
fn check_kept(
    problem: &Problem,
    outline: &Outline,
    items: &Items,
    unkept: Option<usize>,
) -> Result<(), CheckFault>
    requires outlined { AreOutlined problem.now (outline_parts outline.now) items.now.found.items items.now.nodes.items }
    requires unkept { TellsFirst (IsKeptAt problem.now items.now.found.items) (length items.now.found.items) unkept }
    ensures { AnswersFor (kept_check problem.now (outline_parts outline.now) items.now.found.items) result }
{
    match unkept {
        Some(touch) => Err(CheckFault::NotKept(line_of(outline, touch))),
        None => Ok(()),
    }
}

// Each found touch comes after the one before it.
fn check_order(problem: &Problem, outline: &Outline, items: &Items) -> Result<(), CheckFault>
    requires { AreOutlined problem.now (outline_parts outline.now) items.now.found.items items.now.nodes.items }
    ensures { AnswersFor (order_check problem.now (outline_parts outline.now) items.now.found.items) result }
{
    match first_out_of_order(problem, &items.found) {
        Some(touch) => Err(CheckFault::FoundOrder(line_of(outline, touch))),
        None => Ok(()),
    }
}

// No two lines overlap.
fn check_overlaps(
    alloc: Global,
    problem: &Problem,
    outline: &Outline,
    items: &Items,
) -> Result<(), CheckFault>
    requires { AreOutlined problem.now (outline_parts outline.now) items.now.found.items items.now.nodes.items }
    ensures { AnswersFor (overlap_check problem.now (outline_parts outline.now) items.now.found.items items.now.nodes.items) result }
{
    match independent(alloc, problem, &items.found, &items.nodes)? {
        Some((earlier, later)) => {
            let first = line_of(outline, earlier as usize);
            let second = line_of(outline, later as usize);
            Err(CheckFault::Overlap(first, second))
        }
        None => Ok(()),
    }
}
