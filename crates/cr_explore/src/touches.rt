//! Nodes and touches of the steps of a path.

ghost use Rattle.std.specs.Prelude.{◌≡◌, ℕ, ◌*◌, ◌≤◌, List, [], ◌∷◌, ◌++◌, length, IfOk};
ghost use Rattle.cr_model.specs.Nodes.{IsValid};
ghost use Rattle.cr_model.specs.OneTurn.{touch_of};
ghost use Rattle.cr_model.specs.Dead.{parts_of};
ghost use Rattle.cr_model.specs.Sound.{IsSound};

use cr_model::{Calling, Problem};
use cr_node::Node;
use cr_row::NoMemory;
use std::alloc::Global;

/// The touch of a node: its steps as often as the query has parts. Err where no memory is left.
#[inline(always)]
pub fn touch_of(alloc: Global, problem: &Problem, node: &[u8]) -> Result<Calling, NoMemory>
    requires { IsValid problem.now node.now }
    ensures { IfOk result (λ calling. calling ≡ touch_of problem.now node.now) }
{
    Calling::repeated(alloc, node, problem.parts() as usize)
}

/// Appends the touch of a node to others. Where that is the node itself, it is written where it stands. Err where no
/// memory is left.
#[inline(never)]
pub fn add_touch(
    alloc: Global,
    problem: &Problem,
    node: &[u8],
    touches: &mut Vec<Calling>,
) -> Result<(), NoMemory>
    requires { IsValid problem.now node.now }
    ensures { IfOk result (λ _. touches.new.items ≡ touches.old.items ++ touch_of problem.now node.now ∷ []) }
{
    if problem.parts() == 1 {
        return add_node(alloc, problem, node, touches);
    }
    touches.push(touch_of(alloc, problem, node)?)?;
    Ok(())
}

// Appends a node as a calling.
#[inline(always)]
fn add_node(
    alloc: Global,
    problem: &Problem,
    node: &[u8],
    touches: &mut Vec<Calling>,
) -> Result<(), NoMemory>
    requires { IsValid problem.now node.now }
    ensures { IfOk result (λ _. touches.new.items ≡ touches.old.items ++ node.now ∷ []) }
{
    let _problem = problem.stage();
    let last = touches.len();
    touches.push(Calling::empty(alloc))?;
    touches[last].extend_from_slice(node)?;
    Ok(())
}

/// The steps as a node. Err where no memory is left.
pub fn node_from(alloc: Global, problem: &Problem, steps: &[u8]) -> Result<Node, NoMemory>
    requires { IsValid problem.now steps.now }
    ensures { IfOk result (λ node. node ≡ steps.now) }
{
    let _problem = problem.stage();
    Node::from_slice(alloc, steps)
}
