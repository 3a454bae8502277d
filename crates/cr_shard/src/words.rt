//! The words of what shards found and of their nodes, as items that are compared.

ghost use Rattle.std.specs.Prelude.{◌≡◌, ◌++◌, IfOk};
ghost use Rattle.cr_model.specs.Nodes.{part_of};
ghost use Rattle.cr_model.specs.Checkpoints.{nodes_of_jobs};
ghost use Rattle.cr_node.specs.Overlaps.{of_found, of_node};
ghost use Rattle.cr_store.specs.Written.{lists};
ghost use Rattle.cr_shard.specs.Reads.{clashes, item_of, items_of, shard_items, all_items, found_items, node_items};

use cr_model::{Calling, Problem};
use cr_node::Node;
use cr_row::NoMemory;
use cr_store::Checkpoint;
use std::alloc::Global;

/// The word of a found touch, which is its part, or of a node. Words stand in lexicographic order, and of equal words
/// those of nodes come first.
#[derive(Clone, Copy, PartialEq, Eq, PartialOrd, Ord)]
pub struct Word<'a> {
    pub steps: &'a [u8],
    pub is_found: bool,
}

impl<'a> Word<'a> {
    /// Whether it is a node's and begins the other, or both are those of found touches and the same.
    #[tactic(auto, using(crate::proofs::Meeting::prefix_of_steps))]
    pub fn clashes(&self, other: &Word<'a>) -> bool
        ensures { result ≡ clashes (item_of self.now) (item_of other.now) }
    {
        (!self.is_found && other.steps.starts_with(self.steps))
            || (self.is_found && (other.is_found && self.steps == other.steps))
    }
}

/// The words of what some shards found and of their nodes, shard by shard.
pub fn add_words<'a>(
    words: &mut Vec<Word<'a>>,
    problem: &Problem,
    shards: &'a [Checkpoint],
) -> Result<(), NoMemory>
    ensures { IfOk result (λ _. items_of words.new.items ≡ items_of words.old.items ++ all_items problem.now shards.now) }
{
    for shard in shards {
        add_shard(words, problem, shard)?;
    }
    Ok(())
}

// Appends the words of what a shard found, and then those of its nodes.
fn add_shard<'a>(
    words: &mut Vec<Word<'a>>,
    problem: &Problem,
    shard: &'a Checkpoint,
) -> Result<(), NoMemory>
    ensures { IfOk result (λ _. items_of words.new.items ≡ items_of words.old.items ++ shard_items problem.now shard.now) }
{
    add_found(words, problem, found_of(shard))?;
    add_jobs(words, jobs_of(shard))?;
    Ok(())
}

/// What a shard found.
pub fn found_of(shard: &Checkpoint) -> &[Calling]
    ensures { result.now ≡ shard.now.found }
{
    &shard.found
}

/// The jobs of a shard.
pub fn jobs_of(shard: &Checkpoint) -> &[Vec<Node>]
    ensures { lists result.now ≡ shard.now.jobs }
{
    &shard.jobs
}

// Appends the words of found touches.
fn add_found<'a>(
    words: &mut Vec<Word<'a>>,
    problem: &Problem,
    found: &'a [Calling],
) -> Result<(), NoMemory>
    ensures { IfOk result (λ _. items_of words.new.items ≡ items_of words.old.items ++ found_items problem.now found.now) }
{
    for calling in found {
        words.push(word_of_found(problem, calling))?;
    }
    Ok(())
}

// Appends the words of the nodes of jobs.
fn add_jobs<'a>(words: &mut Vec<Word<'a>>, jobs: &'a [Vec<Node>]) -> Result<(), NoMemory>
    ensures { IfOk result (λ _. items_of words.new.items ≡ items_of words.old.items ++ node_items (nodes_of_jobs (lists jobs.now))) }
{
    for job in jobs {
        add_nodes(words, job)?;
    }
    Ok(())
}

// Appends the words of nodes.
fn add_nodes<'a>(words: &mut Vec<Word<'a>>, nodes: &'a [Node]) -> Result<(), NoMemory>
    ensures { IfOk result (λ _. items_of words.new.items ≡ items_of words.old.items ++ node_items nodes.now) }
{
    for node in nodes {
        words.push(word_of_node(node))?;
    }
    Ok(())
}

/// The first of the equal words of a touch.
pub fn part_of<'a>(problem: &Problem, calling: &'a Calling) -> &'a [u8]
    ensures { result.now ≡ part_of problem.now calling.now }
{
    let steps = calling.steps();
    let parts = problem.query().parts.unsigned_abs() as usize;
    &steps[..steps.len() / parts]
}

fn word_of_found<'a>(problem: &Problem, calling: &'a Calling) -> Word<'a>
    ensures { item_of result ≡ of_found problem.now calling.now }
{
    Word {
        steps: part_of(problem, calling),
        is_found: true,
    }
}

fn word_of_node<'a>(node: &'a Node) -> Word<'a>
    ensures { item_of result ≡ of_node node.now }
{
    Word {
        steps: node.steps(),
        is_found: false,
    }
}
