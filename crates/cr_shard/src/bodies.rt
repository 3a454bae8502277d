//! The bodies of a text of blocks, and the checkpoints that they are.

ghost use Rattle.std.specs.Prelude.{◌≡◌, ◌⊎◌, ◌+◌, ◌≤◌, length, get_or, take, drop, MatchResult};
ghost use Rattle.cr_store.specs.Blocks.{IsBody};
ghost use Rattle.cr_shard.specs.Joins.{IsRead, AreRead};
ghost use Rattle.cr_shard.specs.JoinFaults.{AreBodies, HasBodies, FirstJoinFault};
ghost use Rattle.cr_shard.specs.Reads.{bytes_seen, OrNoMemory, IsRefused, AreRefused};

use crate::fault::JoinFault;
use cr_store::{CheckFault, Checkpoint, Next, next_block, read_checkpoint};
use std::alloc::Global;

// At most so many bodies are joined.
const MOST: usize = 1024;

/// The bodies of a text, 1 to 1,024.
pub fn bodies_of(alloc: Global, text: &[u8]) -> Result<Vec<&[u8]>, JoinFault>
    ensures { MatchResult result (λ bodies. HasBodies text.now (bytes_seen bodies.items)) (OrNoMemory (FirstJoinFault text.now)) }
{
    let bodies = all_bodies(alloc, text)?;
    if bodies.is_empty() || bodies.len() > MOST {
        return Err(JoinFault::Blocks(bodies.len() as u64));
    }
    Ok(bodies)
}

// The bodies of a text, however many.
fn all_bodies(alloc: Global, text: &[u8]) -> Result<Vec<&[u8]>, JoinFault>
    ensures { MatchResult result (λ bodies. AreBodies text.now (bytes_seen bodies.items)) (OrNoMemory (FirstJoinFault text.now)) }
{
    let mut bodies = Vec::new(alloc);
    let mut at = 0;
    loop {
        match next_block(text, at) {
            Next::Block(place, size) => {
                bodies.push(body_at(text, place, size))?;
                at = place + size;
            }
            Next::End => return Ok(bodies),
            Next::Torn => return Err(JoinFault::Form(text.len() as u64)),
            Next::Form(place) => return Err(JoinFault::Form(place)),
        }
    }
}

// So many bytes from a place on.
fn body_at(text: &[u8], place: u64, size: u64) -> &[u8]
    requires { place + size ≤ length text.now }
    ensures { result.now ≡ take size (drop place text.now) }
{
    &text[place as usize..(place + size) as usize]
}

/// What the bodies hold, each of which is a checkpoint.
pub fn read_bodies(alloc: Global, bodies: &[&[u8]]) -> Result<Vec<Checkpoint>, JoinFault>
    ensures { MatchResult result (λ shards. AreRead (bytes_seen bodies.now) shards.items) (OrNoMemory (AreRefused (bytes_seen bodies.now))) }
{
    let mut shards = Vec::new(alloc);
    for index in 0..bodies.len() {
        match read_body(alloc, bodies[index], index as u64) {
            Ok(shard) => shards.push(shard)?,
            Err(why) => return Err(why),
        }
    }
    Ok(shards)
}

// What the body of a number holds.
fn read_body(alloc: Global, body: &[u8], index: u64) -> Result<Checkpoint, JoinFault>
    ensures { MatchResult result (IsRead body.now) (OrNoMemory (IsRefused body.now index)) }
{
    match read_checkpoint(alloc, body) {
        Ok(shard) => Ok(shard),
        Err(why) => match why {
            CheckFault::NoMemory => Err(JoinFault::NoMemory),
            _ => Err(JoinFault::Check(index, why)),
        },
    }
}
