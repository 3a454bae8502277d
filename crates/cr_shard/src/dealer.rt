//! The lines of shards, as nodes are dealt to them one after another.

ghost use Rattle.std.specs.Prelude.{◌<◌, ◌++◌, ◌∷◌, [], ℕ, List, false, IsTrue, IfOk};
ghost use Rattle.cr_model.specs.Problems.{ProblemParts};
ghost use Rattle.cr_model.specs.Callings.{HasSteps};
ghost use Rattle.cr_shard.specs.Dealers.{AreLinesOf, AreDealt, IsDealing};

use crate::hashes::Known;
use crate::survey::{Survey, after};
use crate::way::Way;
use cr_model::Problem;
use cr_node::Node;
use cr_row::NoMemory;
use cr_store::{NodeSink, write_node};
use std::alloc::Global;

/// The last line of a checkpoint.
pub const END: &[u8] = b"end\n";

/// The lines of some nodes in a checkpoint, and how many there are.
#[derive(Drop)]
pub struct NodeLines {
    pub text: Vec<u8>,
    pub nodes: u64,
    // The last of the nodes, or the root.
    last: Node,
}

impl NodeLines {
    // The lines of no node, with room for so many bytes. Err where no memory is left.
    fn with_room(alloc: Global, room: usize) -> Result<NodeLines, NoMemory>
        ensures { IfOk result (λ lines. (p : ProblemParts) → AreLinesOf p [] lines) }
    {
        Ok(NodeLines {
            text: Vec::with_capacity(alloc, room)?,
            nodes: 0,
            last: Node::root(alloc),
        })
    }

    // Appends the line of a node. False where the nodes are more than a number can tell.
    fn add(&mut self, alloc: Global, problem: &Problem, node: &Node) -> Result<bool, NoMemory>
        requires { HasSteps problem.now node.now }
        ensures { IfOk result (λ going. IsTrue going → (nodes : List (List ℕ)) → AreLinesOf problem.now nodes self.old → AreLinesOf problem.now (nodes ++ node.now ∷ []) self.new) }
    {
        let Some(nodes) = self.nodes.checked_add(1) else {
            return Ok(false);
        };
        write_node(
            alloc,
            &mut self.text,
            problem,
            self.last.steps(),
            node.steps(),
        )?;
        self.last = node.copy(alloc)?;
        self.nodes = nodes;
        Ok(true)
    }
}

/// The lines of each shard, and to which of them the next node comes.
#[derive(Drop)]
pub struct Shards {
    pub lines: Vec<NodeLines>,
    next: usize,
}

impl Shards {
    // So many shards without nodes, with the room that they need. Err where no memory is left.
    fn new(alloc: Global, into: u32, survey: &Survey) -> Result<Shards, NoMemory>
        requires { 0 < into }
        ensures { IfOk result (λ shards. (p : ProblemParts) → AreDealt p [] shards) }
    {
        let mut lines = Vec::with_capacity(alloc, into as usize)?;
        for shard in 0..into {
            let room = survey.size_of(shard as usize).saturating_add(END.len());
            lines.push(NodeLines::with_room(alloc, room)?)?;
        }
        Ok(Shards { lines, next: 0 })
    }

    // Deals a node to the next shard. False where there is none.
    fn deal(&mut self, alloc: Global, problem: &Problem, node: &Node) -> Result<bool, NoMemory>
        requires { HasSteps problem.now node.now }
        ensures { IfOk result (λ going. IsTrue going → (nodes : List (List ℕ)) → AreDealt problem.now nodes self.old → AreDealt problem.now (nodes ++ node.now ∷ []) self.new) }
    {
        let at = self.next;
        let number = self.lines.len();
        if at >= number || !self.lines[at].add(alloc, problem, node)? {
            return Ok(false);
        }
        self.next = after(at, number);
        Ok(true)
    }
}

/// Deals the nodes that it takes to shards, as long as no two of them overlap.
#[derive(Drop)]
pub struct Dealer {
    /// The hashes of all nodes.
    pub known: Known,
    way: Way,
    /// The lines of each shard.
    pub shards: Shards,
}

impl Dealer {
    /// A dealer to so many shards of nodes with these hashes, none of which was come to. Err where no memory is left.
    pub fn new(alloc: Global, known: Known, into: u32, survey: &Survey) -> Result<Dealer, NoMemory>
        requires { 0 < into }
        ensures { IfOk result (λ dealer. (p : ProblemParts) → IsDealing p dealer []) }
    {
        let shards = Shards::new(alloc, into, survey)?;
        Ok(Dealer {
            known,
            way: Way::new(alloc),
            shards,
        })
    }
}

impl NodeSink for Dealer {
    ghost took = { λ dealer p nodes. IsDealing p dealer nodes };

    fn take(&mut self, alloc: Global, problem: &Problem, node: &Node) -> Result<bool, NoMemory> {
        if !self.way.go_to(&self.known, node.steps())? {
            return Ok(false);
        }
        if !self.known.come_to(self.way.hash()) {
            return Ok(false);
        }
        self.shards.deal(alloc, problem, node)
    }
}
