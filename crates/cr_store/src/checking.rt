//! Checks of found touches and nodes, each answering the first that is wrong.

ghost use Rattle.std.specs.Prelude.{◌≡◌, ◌↔◌, length, All, IsTrue, IfOk};
ghost use Rattle.std.specs.declared.cmp.Ordering.TheVariants.{Less};
ghost use Rattle.cr_model.specs.Callings.{HasSteps, length_of as changes_in};
ghost use Rattle.cr_model.specs.Books.{book_order};
ghost use Rattle.cr_model.specs.Checks.{TellsFirst};
ghost use Rattle.cr_store.specs.Faults.{IsShortNode, Follows};

use cr_model::{Calling, Problem};
use cr_node::Node;
use cr_row::NoMemory;
use std::alloc::Global;

/// The number of changes of a node.
pub fn length_of(alloc: Global, problem: &Problem, node: &Node) -> Result<u64, NoMemory>
    requires { HasSteps problem.now node.now }
    ensures { IfOk result (λ long. long ≡ changes_in problem.now node.now) }
{
    match Calling::new(node.steps().to_vec(alloc)?) {
        Ok(calling) => Ok(problem.length_of(&calling)),
        Err(_) => unreachable!(),
    }
}

/// The first node that is longer than a part may be.
pub fn first_long(
    alloc: Global,
    problem: &Problem,
    nodes: &[Node],
) -> Result<Option<usize>, NoMemory>
    requires { All (HasSteps problem.now) nodes.now }
    ensures { IfOk result (TellsFirst (IsShortNode problem.now nodes.now) (length nodes.now)) }
{
    let most = problem.part_cap();
    for (index, node) in nodes.iter().enumerate() {
        if length_of(alloc, problem, node)? > most {
            return Ok(Some(index));
        }
    }
    Ok(None)
}

// Whether a touch comes before another by length and then by calling.
fn comes_before(problem: &Problem, touch: &Calling, other: &Calling) -> bool
    requires touch { HasSteps problem.now touch.now }
    requires other { HasSteps problem.now other.now }
    ensures { IsTrue result ↔ (book_order problem.now touch.now other.now ≡ Less) }
{
    problem
        .length_of(touch)
        .cmp(&problem.length_of(other))
        .then(touch.steps().cmp(other.steps()))
        .is_lt()
}

/// The first touch that does not come after the one before it.
pub fn first_out_of_order(problem: &Problem, found: &[Calling]) -> Option<usize>
    requires { All (HasSteps problem.now) found.now }
    ensures { TellsFirst (Follows problem.now found.now) (length found.now) result }
{
    for index in 1..found.len() {
        if !comes_before(problem, &found[index - 1], &found[index]) {
            return Some(index);
        }
    }
    None
}
