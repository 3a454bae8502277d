//! Hashes of nodes, and which of the nodes were come to.

ghost use Rattle.std.specs.Prelude.{◌≡◌, ◌<◌, ⊤, length, get_or, IsTrue, IsFalse, IfSome, IfNone};
ghost use Rattle.cr_shard.specs.Hashes.{hash_after as after_step, hash_of as of_steps, Rise, IsMissing, ComesTo};

use cr_row::NoMemory;
use std::alloc::Global;
use std::marker::Model;

// An odd number near 2^64 over the golden ratio.
const SPREAD: u64 = 0x9E37_79B9_7F4A_7C15;

/// The hash after a step.
pub fn hash_after(hash: u64, step: u8) -> u64
    ensures { result ≡ after_step hash step }
{
    hash.wrapping_mul(SPREAD).wrapping_add(u64::from(step) + 1)
}

/// The hash of steps.
pub fn hash_of(steps: &[u8]) -> u64
    ensures { result ≡ of_steps steps.now }
{
    let mut hash = 0;
    for step in steps {
        hash = hash_after(hash, *step);
    }
    hash
}

/// Different hashes, ascending, and which of their nodes were come to.
#[derive(Drop)]
pub struct Known {
    hashes: Vec<u64>,
    seen: Vec<bool>,
}

impl Model for Known {
    ghost use Rattle.std.specs.Prelude.{◌≡◌, length};
    ghost use Rattle.cr_shard.specs.Hashes.{KnownParts, Rise};

    ghost Value = { KnownParts };

    ghost view = { λ known. record { hashes = known.hashes.items; seen = known.seen.items } };

    ghost invariant = { λ known. Rise known.hashes.items × (length known.seen.items ≡ length known.hashes.items) };
}

impl Known {
    /// These hashes, none of which was come to. None where two are the same; Err where no memory is left.
    pub fn new(alloc: Global, mut hashes: Vec<u64>) -> Result<Option<Known>, NoMemory> {
        hashes.sort_unstable();
        if !rise(&hashes) {
            return Ok(None);
        }
        let seen = Vec::from_elem(alloc, false, hashes.len())?;
        Ok(Some(Known { hashes, seen }))
    }

    /// Whether a hash is one of them.
    pub fn has(&self, hash: u64) -> bool
        ensures { IsFalse result → IsMissing self.now.hashes hash }
    {
        place_of(&self.hashes, hash).is_some()
    }

    /// Comes to the node of a hash. False where the hash is none of them, or its node was come to before.
    pub fn come_to(&mut self, hash: u64) -> bool
        ensures { IsTrue result → ComesTo self.old hash self.new }
    {
        let Some(place) = place_of(&self.hashes, hash) else {
            return false;
        };
        if self.seen[place] {
            return false;
        }
        self.seen[place] = true;
        true
    }
}

// Whether each number is less than the one after it.
fn rise(numbers: &[u64]) -> bool
    ensures { IsTrue result → Rise numbers.now }
{
    for index in 1..numbers.len() {
        if numbers[index - 1] >= numbers[index] {
            return false;
        }
    }
    true
}

// The place of a hash.
fn place_of(hashes: &[u64], hash: u64) -> Option<usize>
    requires { Rise hashes.now }
    ensures some { IfSome result (λ place. (place < length hashes.now) × (get_or hashes.now place 0 ≡ hash)) }
    ensures none { IfNone result (IsMissing hashes.now hash) }
{
    match hashes.binary_search(&hash) {
        Ok(place) => Some(place),
        Err(_) => None,
    }
}
