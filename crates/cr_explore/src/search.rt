//! The loop of turns over a path.
//!
//! A live child is taken at once, so no lead is rung twice on the way down. The nodes that are left are made only at
//! the end, from where the path stands. What each turn asks is part of the loop, and what few turns ask is a call.

ghost use Rattle.std.specs.Prelude.{◌≡◌, ℕ, ◌≤◌, [], ◌∷◌, ◌++◌, List, All, length, take, reverse, IfOk, IsErr, IsTrue, false};
ghost use Rattle.cr_model.specs.Nodes.{IsValid};
ghost use Rattle.cr_model.specs.OneTurn.{touch_of, touch_found};
ghost use Rattle.cr_model.specs.Sizes.{most_rows};
ghost use Rattle.cr_model.specs.Sound.{IsSound};
ghost use Rattle.cr_explore.specs.Stacks.{place_at, stack_of, IsPlace, IsTaken, IsPathEnded};
ghost use Rattle.cr_explore.specs.Turns.{after_turns};

use crate::path::Path;
use crate::touches::{add_touch, node_from};
use cr_model::laws::a_child_is_longer;
use cr_model::{Calling, Problem};
use cr_node::Node;
use cr_row::NoMemory;
use std::alloc::Global;

/// What turns on a job found, what they left of it, and how many they were.
#[derive(Drop)]
pub struct Explored {
    /// The kept touches that were found.
    pub found: Vec<Calling>,
    /// The nodes that are left.
    pub rest: Vec<Node>,
    /// The turns that were taken.
    pub used: u64,
}

/// At most so many turns on a job, from the last node on: fewer where nothing of the job is left then. Err where no
/// memory is left.
pub fn take_turns<P: Path>(
    alloc: Global,
    path: P,
    job: &[Node],
    turns: u64,
) -> Result<Explored, NoMemory>
    requires sound { IsSound (P.problem_of path) }
    requires node { IsValid (P.problem_of path) (P.node_of path) }
    requires tried { P.next_of path ≡ length (P.problem_of path).leads }
    requires job { All (IsValid (P.problem_of path)) job.now }
    ensures { IfOk result (λ done. record { found = done.found.items; rest = done.rest.items; used = done.used }
        ≡ after_turns (P.problem_of path) most_rows job.now turns) }
{
    // The path is handed on as a whole to what few turns ask, and lent to nothing that stays a call: so what each turn
    // asks of it needs no memory of its own.
    let mut path = path;
    // How many nodes of the job are not taken yet, and how many steps the last one taken has.
    let mut left = job.len();
    let mut base = path.node().len();
    let mut found = Vec::new(alloc);
    let mut used = 0;
    while used < turns {
        if !descend(&mut path, base) {
            if left == 0 {
                break;
            }
            left -= 1;
            let steps = job[left].steps();
            base = steps.len();
            path = path.gone_to(steps);
        }
        if find_touch(alloc, &path, &mut found).is_err() {
            return without_memory(path);
        }
        used += 1;
    }
    let rest = nodes_left(alloc, path, left, base, job)?;
    Ok(Explored { found, rest, used })
}

// No memory is left. The path is let go.
#[inline(never)]
pub(crate) fn without_memory<P: Drop>(_path: P) -> Result<Explored, NoMemory>
    ensures { IsErr result }
{
    Err(NoMemory)
}

// Goes to the last node that is left on a path from a node with so many steps on. False where none is.
#[inline(always)]
pub(crate) fn descend<P: Path>(path: &mut P, base: usize) -> bool
    requires { IsPlace (P.problem_of path.old) (place_at 0 base (P.next_of path.old)) (P.node_of path.old) }
    ensures problem { P.problem_of path.new ≡ P.problem_of path.old }
    ensures place { IsPlace (P.problem_of path.new) (place_at 0 base (P.next_of path.new)) (P.node_of path.new) }
    ensures goes { IsTrue result → (left : ℕ) (job : List (List ℕ))
        → IsTaken (P.problem_of path.old) most_rows job (place_at left base (P.next_of path.old)) (P.node_of path.old)
        (place_at left base (P.next_of path.new)) (P.node_of path.new) }
    ensures ends { result ≡ false → (left : ℕ) (job : List (List ℕ))
        → IsPathEnded (P.problem_of path.old) most_rows job (place_at left base (P.next_of path.old)) (P.node_of path.old)
        (place_at left base (P.next_of path.new)) (P.node_of path.new) }
{
    a_child_is_longer();
    while path.down().is_none() {
        if path.node().len() == base {
            return false;
        }
        path.up();
    }
    true
}

// Appends the touch of the path's node, if it is kept.
#[inline(always)]
pub(crate) fn find_touch<P: Path>(
    alloc: Global,
    path: &P,
    found: &mut Vec<Calling>,
) -> Result<(), NoMemory>
    requires { IsValid (P.problem_of path.now) (P.node_of path.now) }
    ensures { IfOk result (λ _. found.new.items
        ≡ found.old.items ++ touch_found (P.problem_of path.now) (P.node_of path.now)) }
{
    if path.is_kept(alloc)? {
        return add_touch(alloc, path.problem(), path.node(), found);
    }
    Ok(())
}

// The nodes that are left: of the job, and on the path.
#[inline(never)]
pub(crate) fn nodes_left<P: Path>(
    alloc: Global,
    path: P,
    left: usize,
    base: usize,
    job: &[Node],
) -> Result<Vec<Node>, NoMemory>
    requires place { IsPlace (P.problem_of path) (place_at 0 base (P.next_of path)) (P.node_of path) }
    requires left { left ≤ length job.now }
    ensures { IfOk result (λ nodes. nodes.items ≡ stack_of (P.problem_of path) most_rows job.now (place_at left base (P.next_of path)) (P.node_of path)) }
{
    let mut path = path;
    let mut nodes = Vec::new(alloc);
    take_path(alloc, &mut path, base, &mut nodes)?;
    for index in 0..left {
        nodes.push(job[left - 1 - index].copy(alloc)?)?;
    }
    nodes.reverse();
    Ok(nodes)
}

// Appends the nodes that are left on the path, from the last one on.
fn take_path<P: Path>(
    alloc: Global,
    path: &mut P,
    base: usize,
    nodes: &mut Vec<Node>,
) -> Result<(), NoMemory>
    requires { IsPlace (P.problem_of path.old) (place_at 0 base (P.next_of path.old)) (P.node_of path.old) }
    ensures { IfOk result (λ _. (left : ℕ) (job : List (List ℕ))
        → stack_of (P.problem_of path.old) most_rows job (place_at left base (P.next_of path.old)) (P.node_of path.old) ++ reverse nodes.old.items
        ≡ take left job ++ reverse nodes.new.items) }
{
    while descend(path, base) {
        nodes.push(node_from(alloc, path.problem(), path.node())?)?;
        path.pass();
    }
    Ok(())
}
