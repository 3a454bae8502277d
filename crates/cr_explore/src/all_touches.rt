//! The loop of turns that counts none: what is known to be below nothing that is kept is passed by.
//!
//! It goes from node to node as [`take_turns`](crate::take_turns) does. What it finds is the same; what it leaves, and how
//! many turns it takes, is told by what the path knows.

ghost use Rattle.std.specs.Prelude.{◌≡◌, ◌+◌, ◌≤◌, ◌⊎◌, [], length, IfOk};
ghost use Rattle.cr_model.specs.Nodes.{IsValid, Splits};
ghost use Rattle.cr_model.specs.Sizes.{most_rows, size_of_all};
ghost use Rattle.cr_model.specs.Sound.{IsSound};
ghost use Rattle.cr_node.specs.Work.{IsJob};
ghost use Rattle.cr_explore.specs.Passing.{IsDealtWith};

use crate::laws::{a_turn_goes_on_with_a_split, nodes_with_none_below_may_be_left_out};
use crate::path::Path;
use crate::search::{Explored, descend, find_touch, nodes_left, without_memory};
use cr_model::Calling;
use cr_node::Node;
use cr_node::laws::work_goes_on;
use cr_row::NoMemory;
use std::alloc::Global;

/// At most so many turns on a job, from the last node on, as [`take_turns`](crate::take_turns) takes them, but what is
/// below a node of which it is known that nothing is kept there is passed by: such a node is one turn. Err where no memory
/// is left.
pub fn find_all<P: Path>(
    alloc: Global,
    path: P,
    job: &[Node],
    turns: u64,
) -> Result<Explored, NoMemory>
    requires sound { IsSound (P.problem_of path) }
    requires node { IsValid (P.problem_of path) (P.node_of path) }
    requires tried { P.next_of path ≡ length (P.problem_of path).leads }
    requires job { IsJob (P.problem_of path) job.now }
    ensures splits { IfOk result (λ done. Splits (P.problem_of path) job.now done.found.items done.rest.items) }
    ensures smaller { IfOk result (λ done. size_of_all (P.problem_of path) most_rows done.rest.items + done.used
        ≤ size_of_all (P.problem_of path) most_rows job.now) }
    ensures few { IfOk result (λ done. done.used ≤ turns) }
    ensures ends { IfOk result (λ done. (done.rest.items ≡ []) ⊎ (done.used ≡ turns)) }
{
    a_turn_goes_on_with_a_split();
    nodes_with_none_below_may_be_left_out();
    work_goes_on();
    // As in `take_turns`, the path is lent to nothing that stays a call.
    let mut path = path;
    // How many nodes of the job are not taken yet, and how many steps the last one taken has.
    let mut left = job.len();
    let mut base = path.node().len();
    let mut found = Vec::new(alloc);
    let mut used = 0;
    while used < turns {
        if !descend(&mut path, base) {
            if left == 0 {
                break;
            }
            left -= 1;
            let steps = job[left].steps();
            base = steps.len();
            path = path.gone_to(steps);
        }
        if deal_with(alloc, &mut path, &mut found).is_err() {
            return without_memory(path);
        }
        used += 1;
    }
    let rest = nodes_left(alloc, path, left, base, job)?;
    Ok(Explored { found, rest, used })
}

// Passes the path's node by, if it is known that nothing is kept below it, and else appends its touch, if that is kept.
#[inline(always)]
fn deal_with<P: Path>(alloc: Global, path: &mut P, found: &mut Vec<Calling>) -> Result<(), NoMemory>
    requires { IsValid (P.problem_of path.old) (P.node_of path.old) }
    ensures problem { P.problem_of path.new ≡ P.problem_of path.old }
    ensures node { P.node_of path.new ≡ P.node_of path.old }
    ensures turn { IfOk result (λ _. IsDealtWith (P.problem_of path.old) (P.node_of path.old) found.old.items (P.next_of path.old)
        found.new.items (P.next_of path.new)) }
{
    if path.has_none_below() {
        path.pass();
        return Ok(());
    }
    find_touch(alloc, &*path, found)
}
