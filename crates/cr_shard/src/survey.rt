//! What a cut will need, found by going through the nodes once.

ghost use Rattle.std.specs.Prelude.{◌≡◌, ◌≢◌, ◌+◌, ◌<◌, ◌≤◌, ⊤};

use crate::hashes::hash_of;
use cr_model::Problem;
use cr_node::Node;
use cr_row::NoMemory;
use cr_store::{NodeSink, shared_steps};
use std::alloc::Global;

/// The hashes of the nodes that were taken, and how much room the lines of each shard need. Nothing is promised of either:
/// a hash that is wrong ends the cut, and room that is missing is taken later.
#[derive(Drop)]
pub struct Survey {
    pub hashes: Vec<u64>,
    extents: Vec<Extent>,
    next: usize,
}

// The last node of a shard, and how many bytes its lines have.
#[derive(Drop)]
struct Extent {
    last: Node,
    size: usize,
}

impl Survey {
    /// Nothing, for so many shards. Err where no memory is left.
    pub fn new(alloc: Global, into: u32) -> Result<Survey, NoMemory> {
        let mut extents = Vec::with_capacity(alloc, into as usize)?;
        for _shard in 0..into {
            extents.push(Extent {
                last: Node::root(alloc),
                size: 0,
            })?;
        }
        Ok(Survey {
            hashes: Vec::new(alloc),
            extents,
            next: 0,
        })
    }

    /// How many bytes the lines of a shard have; 0 where there is no such shard.
    pub fn size_of(&self, shard: usize) -> usize {
        match self.extents.get(shard) {
            Some(extent) => extent.size,
            None => 0,
        }
    }
}

impl Extent {
    // Adds the line of a node: a number, a space, its other steps, and a line feed.
    fn add(&mut self, alloc: Global, problem: &Problem, node: &Node) -> Result<(), NoMemory> {
        let shared = shared_steps(self.last.steps(), node.steps());
        let width = if problem.letters().len() == 1 { 1 } else { 2 };
        let steps = (node.steps().len() - shared).max(1);
        self.size = self
            .size
            .saturating_add(digits_of(shared) + 2 + width * steps);
        self.last = node.copy(alloc)?;
        Ok(())
    }
}

// How many digits a number has that is at most 1,024.
fn digits_of(number: usize) -> usize
    ensures { result ≤ 4 }
{
    if number < 10 {
        1
    } else if number < 100 {
        2
    } else if number < 1000 {
        3
    } else {
        4
    }
}

/// The shard after one of so many, and after the last one the first.
pub fn after(shard: usize, number: usize) -> usize
    requires { shard < number }
    ensures last { shard + 1 ≡ number → result ≡ 0 }
    ensures others { shard + 1 ≢ number → result ≡ shard + 1 }
{
    if shard + 1 == number { 0 } else { shard + 1 }
}

impl NodeSink for Survey {
    ghost took = { λ _ _ _. ⊤ };

    fn take(&mut self, alloc: Global, problem: &Problem, node: &Node) -> Result<bool, NoMemory> {
        let number = self.extents.len();
        if self.next >= number {
            return Ok(false);
        }
        self.hashes.push(hash_of(node.steps()))?;
        self.extents[self.next].add(alloc, problem, node)?;
        self.next = after(self.next, number);
        Ok(true)
    }
}
