//! Nodes, jobs and touches of the plain hunt.

ghost use Rattle.std.specs.Prelude.{◌≡◌, [], ◌∷◌, IfOk};

use cr_model::Calling;
use cr_node::Node;
use cr_row::NoMemory;
use std::alloc::Global;

/// The node of one step. Err where no memory is left.
pub fn step_node(alloc: Global, step: u8) -> Result<Node, NoMemory>
    ensures { IfOk result (λ node. node ≡ step ∷ []) }
{
    match Node::new([step].to_vec(alloc)?) {
        Ok(node) => Ok(node),
        Err(_) => Err(NoMemory),
    }
}

/// The calling of one step. Err where no memory is left.
pub fn step_calling(alloc: Global, step: u8) -> Result<Calling, NoMemory>
    ensures { IfOk result (λ calling. calling ≡ step ∷ []) }
{
    match Calling::new([step].to_vec(alloc)?) {
        Ok(calling) => Ok(calling),
        Err(_) => Err(NoMemory),
    }
}

/// The job of the node of one step. Err where no memory is left.
pub fn lone_node(alloc: Global, step: u8) -> Result<Vec<Node>, NoMemory>
    ensures { IfOk result (λ job. job.items ≡ (step ∷ []) ∷ []) }
{
    let mut job = Vec::new(alloc);
    job.push(step_node(alloc, step)?)?;
    Ok(job)
}

/// The job of the nodes of step 1 and of step 0. Err where no memory is left.
pub fn both_nodes(alloc: Global) -> Result<Vec<Node>, NoMemory>
    ensures { IfOk result (λ job. job.items ≡ (1 ∷ []) ∷ (0 ∷ []) ∷ []) }
{
    let mut job = Vec::new(alloc);
    job.push(step_node(alloc, 1)?)?;
    job.push(step_node(alloc, 0)?)?;
    Ok(job)
}

/// The same nodes again. Err where no memory is left.
pub fn copy_nodes(alloc: Global, nodes: &[Node]) -> Result<Vec<Node>, NoMemory>
    ensures { IfOk result (λ copy. copy.items ≡ nodes.now) }
{
    let mut copy = Vec::new(alloc);
    for node in nodes {
        copy.push(node.copy(alloc)?)?;
    }
    Ok(copy)
}
