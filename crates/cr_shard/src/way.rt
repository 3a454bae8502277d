//! The way to a node: the hashes of the nodes that it goes through.

ghost use Rattle.std.specs.Prelude.{◌≡◌, ◌≤◌, ◌++◌, ◌∷◌, [], List, ℕ, length, take, IsTrue, IfOk};
ghost use Rattle.cr_shard.specs.Hashes.{hash_of, IsMissing, IsClean};

use crate::hashes::{Known, hash_after};
use cr_row::NoMemory;
use std::alloc::Global;
use std::marker::Model;

/// A step of a way, and the hash of the node that it comes to.
#[derive(Clone, Copy, Drop)]
pub struct Front {
    step: u8,
    hash: u64,
}

/// The way from the root to a node. It is seen as the node's steps.
#[derive(Drop)]
pub struct Way {
    fronts: Vec<Front>,
}

impl Model for Way {
    ghost use Rattle.std.specs.Prelude.{ℕ, List};
    ghost use Rattle.cr_shard.specs.Ways.{steps_of, AreHashed};

    ghost Value = { List ℕ };

    ghost view = { λ way. steps_of way.fronts.items };

    ghost invariant = { λ way. AreHashed 0 way.fronts.items };
}

impl Way {
    /// The way to the root. It takes no memory.
    pub fn new(alloc: Global) -> Way
        ensures { result ≡ [] }
    {
        Way {
            fronts: Vec::new(alloc),
        }
    }

    /// The hash of the node.
    pub fn hash(&self) -> u64
        ensures { result ≡ hash_of self.now }
    {
        match self.fronts.last() {
            Some(front) => front.hash,
            None => 0,
        }
    }

    /// Goes on to another node from where the ways part. False where it comes through a node whose hash is known. Err where
    /// no memory is left.
    pub fn go_to(&mut self, known: &Known, node: &[u8]) -> Result<bool, NoMemory>
        ensures { IfOk result (λ going. IsTrue going → IsClean known.now.hashes self.old → (self.new ≡ node.now) × IsClean known.now.hashes node.now) }
    {
        let shared = self.shared(node);
        self.fronts.truncate(shared);
        self.go_on(known, node, shared)
    }

    // With how many steps the node and another one begin alike.
    fn shared(&self, node: &[u8]) -> usize
        ensures few { result ≤ length self.now }
        ensures fits { result ≤ length node.now }
        ensures same { take result self.now ≡ take result node.now }
    {
        let most = self.fronts.len().min(node.len());
        for index in 0..most {
            if self.fronts[index].step != node[index] {
                return index;
            }
        }
        most
    }

    // Goes on to a node that the way has begun with so many steps.
    fn go_on(&mut self, known: &Known, node: &[u8], begun: usize) -> Result<bool, NoMemory>
        requires fits { begun ≤ length node.now }
        requires begins { self.old ≡ take begun node.now }
        ensures { IfOk result (λ going. IsTrue going → IsClean known.now.hashes self.old → (self.new ≡ node.now) × IsClean known.now.hashes node.now) }
    {
        for index in begun..node.len() {
            if !self.step_on(known, node[index])? {
                return Ok(false);
            }
        }
        Ok(true)
    }

    // Goes on by a step. False where the hash of the node before it is known.
    fn step_on(&mut self, known: &Known, step: u8) -> Result<bool, NoMemory>
        ensures { IfOk result (λ going. IsTrue going → (self.new ≡ self.old ++ step ∷ []) × IsMissing known.now.hashes (hash_of self.old)) }
    {
        let hash = self.hash();
        if known.has(hash) {
            return Ok(false);
        }
        let hash = hash_after(hash, step);
        self.fronts.push(Front { step, hash })?;
        Ok(true)
    }
}
