//! The words of found touches and of nodes, as items that are compared.

ghost use Rattle.std.specs.Prelude.{◌≡◌, ◌↔◌, IsTrue, IfOk, map};
ghost use Rattle.cr_model.specs.Nodes.{part_of};
ghost use Rattle.cr_model.specs.Touches.{IsLess};
ghost use Rattle.cr_node.specs.Overlaps.{of_found, of_node, items, begins, overlaps, item_of, items_of};

use crate::node::Node;
use cr_model::{Calling, Problem};
use cr_row::NoMemory;
use std::alloc::Global;

/// The word of a found touch or of a node. Words stand in lexicographic order, and of equal words those of nodes
/// come first.
#[derive(Clone, Copy, PartialEq, Eq, PartialOrd, Ord)]
pub struct Word<'a> {
    pub steps: &'a [u8],
    pub is_found: bool,
}

impl<'a> Word<'a> {
    /// Whether it is a node's, and begins the other.
    #[tactic(auto, using(crate::proofs::Order::prefix_test))]
    pub fn begins(&self, other: &Word<'a>) -> bool
        ensures { result ≡ begins (item_of self.now) (item_of other.now) }
    {
        !self.is_found && other.steps.starts_with(self.steps)
    }

    /// Whether one of both is a node's, and begins the other.
    pub fn overlaps(&self, other: &Word<'a>) -> bool
        ensures { result ≡ overlaps (item_of self.now) (item_of other.now) }
    {
        self.begins(other) || other.begins(self)
    }

    /// Whether its steps are lexicographically less.
    #[tactic(auto, using(crate::proofs::Order::less_test))]
    pub fn is_less(&self, other: &Word<'a>) -> bool
        ensures { IsTrue result ↔ IsLess (item_of self.now).word (item_of other.now).word }
    {
        self.steps.cmp(other.steps).is_lt()
    }
}

// The first of the equal words of a touch.
fn part_of<'a>(problem: &Problem, calling: &'a Calling) -> &'a [u8]
    ensures { result.now ≡ part_of problem.now calling.now }
{
    let steps = calling.steps();
    let parts = problem.query().parts.unsigned_abs() as usize;
    &steps[..steps.len() / parts]
}

fn word_of_found<'a>(problem: &Problem, calling: &'a Calling) -> Word<'a>
    ensures { item_of result ≡ of_found problem.now calling.now }
{
    Word {
        steps: part_of(problem, calling),
        is_found: true,
    }
}

fn word_of_node<'a>(node: &'a Node) -> Word<'a>
    ensures { item_of result ≡ of_node node.now }
{
    Word {
        steps: node.steps(),
        is_found: false,
    }
}

/// The words of the found touches, and then those of the nodes.
pub fn words_of<'a>(
    alloc: Global,
    problem: &Problem,
    found: &'a [Calling],
    nodes: &'a [Node],
) -> Result<Vec<Word<'a>>, NoMemory>
    ensures { IfOk result (λ words. items_of words.items ≡ items problem.now found.now nodes.now) }
{
    let mut words = Vec::with_capacity(alloc, found.len().saturating_add(nodes.len()))?;
    for calling in found {
        words.push(word_of_found(problem, calling))?;
    }
    for node in nodes {
        words.push(word_of_node(node))?;
    }
    Ok(words)
}
