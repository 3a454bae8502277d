//! Nodes, as lists of step numbers.

ghost use Rattle.std.specs.Prelude.{◌≡◌, ◌↔◌, ◌≤◌, [], length, IsTrue, IsOk, IfOk, IfErr, vec_len};
ghost use Rattle.cr_model.specs.Limits.{most_leads};
ghost use Rattle.cr_model.specs.Nodes.{is_prefix};
ghost use Rattle.cr_model.specs.Touches.{IsLess};

use crate::few_steps::{FewSteps, ROOM};
use cr_model::limits::MOST_LEADS;
use cr_row::NoMemory;
use std::alloc::Global;
use std::marker::Model;

/// A list of at most 1,024 step numbers: how the touches below it begin.
///
/// Up to 30 of them lie in the node itself, and only more take memory of their own. Each job is a list of nodes, which
/// is copied when it is taken and when it is handed in; and a checkpoint may have millions. A node has 32 bytes.
pub struct Node {
    place: Place,
}

// Where the steps of a node lie.
#[derive(Drop)]
enum Place {
    Inside(FewSteps),
    Outside(Vec<u8>),
}

const _: () = prove!(size_of::<Node>() == 32);

// A drop of its own is one call for whoever lets a node go. A derived one would be seen by their proofs as two cases.
impl Drop for Node {
    #[inline(always)]
    fn drop(self) {
        let Node { place } = self;
        match place {
            Place::Inside(_) => (),
            Place::Outside(steps) => drop(steps),
        }
    }
}

impl Model for Node {
    ghost use Rattle.std.specs.Prelude.{ℕ, ◌≤◌, List, length};
    ghost use Rattle.cr_model.specs.Limits.{most_leads};
    ghost use Rattle.cr_node.specs.Places.{steps_at};

    ghost Value = { List ℕ };

    ghost view = { λ node. steps_at node.place };

    ghost invariant = { λ node. length (steps_at node.place) ≤ most_leads };
}

impl Node {
    /// The node without steps, which is above every touch. It takes no memory.
    pub fn root(_alloc: Global) -> Node
        ensures { result ≡ [] }
    {
        Node {
            place: Place::Inside(FewSteps::of(&[])),
        }
    }

    /// The steps as a node. The list comes back exactly where it has more than 1,024 steps.
    pub fn new(steps: Vec<u8>) -> Result<Node, Vec<u8>>
        ensures accepts { IsOk result ↔ (vec_len steps ≤ most_leads) }
        ensures is { IfOk result (λ node. node ≡ steps.items) }
        ensures back { IfErr result (λ list. list ≡ steps) }
    {
        if steps.len() > MOST_LEADS {
            return Err(steps);
        }
        let place = if steps.len() <= ROOM {
            Place::Inside(FewSteps::of(&steps))
        } else {
            Place::Outside(steps)
        };
        Ok(Node { place })
    }

    /// The same steps as a node. It takes memory only for more than 30; Err where there is none.
    pub fn from_slice(alloc: Global, steps: &[u8]) -> Result<Node, NoMemory>
        requires { length steps.now ≤ most_leads }
        ensures { IfOk result (λ node. node ≡ steps.now) }
    {
        let place = if steps.len() <= ROOM {
            Place::Inside(FewSteps::of(steps))
        } else {
            Place::Outside(steps.to_vec(alloc)?)
        };
        Ok(Node { place })
    }

    /// Its step numbers.
    pub fn steps(&self) -> &[u8]
        ensures is { result.now ≡ self.now }
        ensures few { length self.now ≤ most_leads }
    {
        match &self.place {
            Place::Inside(few) => few.as_slice(),
            Place::Outside(steps) => steps.as_slice(),
        }
    }

    /// The same node again.
    pub fn copy(&self, alloc: Global) -> Result<Node, NoMemory>
        ensures { IfOk result (λ node. node ≡ self.now) }
    {
        Node::from_slice(alloc, self.steps())
    }
}

/// Whether the first node is lexicographically less, by step numbers.
#[tactic(auto, using(crate::proofs::Order::less_test))]
pub fn less(a: &Node, b: &Node) -> bool
    ensures { IsTrue result ↔ IsLess a.now b.now }
{
    a.steps().cmp(b.steps()).is_lt()
}

/// Whether the second node begins with the steps of the first.
#[tactic(auto, using(crate::proofs::Order::prefix_test))]
pub fn is_prefix(a: &Node, b: &Node) -> bool
    ensures { result ≡ is_prefix a.now b.now }
{
    b.steps().starts_with(a.steps())
}
