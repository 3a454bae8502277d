//! Many checkpoints joined into one.

ghost use Rattle.std.specs.Prelude.{◌≡◌, ◌≢◌, ◌⊎◌, ◌<◌, ℕ, List, length, All, IfOk, IfErr, MatchResult};
ghost use Rattle.cr_shard.specs.declared.fault.JoinFault.{JoinFault};
ghost use Rattle.cr_shard.specs.declared.fault.JoinFault.TheVariants as fault;
ghost use Rattle.cr_shard.specs.Joins.{AreOfOne, NoneOverlap};
ghost use Rattle.cr_shard.specs.JoinFaults.{AreOneFile, HasShards, IsJoin, FirstJoinFault, bytes_at};
ghost use Rattle.cr_shard.specs.Reads.{CanJoin, CanMeet, IsHeld, IsJoinOf, IsUnjoinable, OrNoMemory};

use crate::bodies::{bodies_of, read_bodies};
use crate::fault::JoinFault;
use crate::joining::join_shards;
use crate::laws::texts_have_one_answer;
use crate::overlap::first_overlap;
use crate::problems::{other_problem, problem_of};
use cr_model::Problem;
use cr_read::bytes_have_one_answer;
use cr_store::Checkpoint;
use std::alloc::Global;

/// The checkpoints that the blocks of a text hold, 1 to 1,024 of one problem and in any order, as one checkpoint: what
/// all found, in the book's order, and the jobs of all, body by body.
///
/// A text is joined exactly where its bodies belong together, and each fault comes exactly where it is that of the first
/// check that does not hold, but for `NoMemory`, which comes where no memory is left and says nothing of the text. To see
/// that no two bodies overlap takes n log n comparisons for n found touches and nodes in all.
pub fn join_blocks(alloc: Global, text: &[u8]) -> Result<Vec<u8>, JoinFault>
    ensures joined { IfOk result (λ joined. IsJoin text.now joined.items) }
    ensures fault { IfErr result (λ why. why ≢ fault.NoMemory → FirstJoinFault text.now why) }
    ensures accepts { (joined : List ℕ) → IsJoin text.now joined
        → MatchResult result (λ made. made.items ≡ joined) (λ why. why ≡ fault.NoMemory) }
    ensures refuses { (why : JoinFault) → FirstJoinFault text.now why
        → MatchResult result (λ _. ⊥) (λ told. (told ≡ why) ⊎ (told ≡ fault.NoMemory)) }
{
    // By this law nothing else is right of a text that was answered.
    texts_have_one_answer();
    join_whole(alloc, text)
}

// The same, in one clause.
fn join_whole(alloc: Global, text: &[u8]) -> Result<Vec<u8>, JoinFault>
    ensures { MatchResult result (λ joined. IsJoin text.now joined.items) (OrNoMemory (FirstJoinFault text.now)) }
{
    let mut shards = shards_of(alloc, text)?;
    match join_read(alloc, &mut shards) {
        Ok(joined) => Ok(joined),
        Err(why) => Err(why),
    }
}

// What the bodies of a text hold.
fn shards_of(alloc: Global, text: &[u8]) -> Result<Vec<Checkpoint>, JoinFault>
    ensures { MatchResult result (λ shards. HasShards text.now shards.items) (OrNoMemory (FirstJoinFault text.now)) }
{
    let bodies = bodies_of(alloc, text)?;
    match read_bodies(alloc, &bodies) {
        Ok(shards) => Ok(shards),
        Err(why) => Err(why),
    }
}

// Shards that were read, as one checkpoint. What they found is moved out of them.
fn join_read(alloc: Global, shards: &mut [Checkpoint]) -> Result<Vec<u8>, JoinFault>
    requires some { 0 < length shards.old }
    requires held { All IsHeld shards.old }
    ensures { MatchResult result (λ joined. IsJoinOf shards.old joined.items) (OrNoMemory (IsUnjoinable shards.old)) }
{
    check_shards(alloc, shards)?;
    let joined = join_shards(alloc, shards)?;
    Ok(joined)
}

// Whether shards that were read are of one problem, and no two of them overlap.
fn check_shards(alloc: Global, shards: &[Checkpoint]) -> Result<(), JoinFault>
    requires some { 0 < length shards.now }
    requires held { All IsHeld shards.now }
    ensures { MatchResult result (λ _. CanJoin shards.now) (OrNoMemory (IsUnjoinable shards.now)) }
{
    // By this law equal bytes are the file of one problem.
    bytes_have_one_answer();
    check_problems(shards)?;
    let first = &shards[0];
    check_overlaps(alloc, problem_of(first), shards)?;
    Ok(())
}

// Whether all shards have the problem's bytes of the first.
fn check_problems(shards: &[Checkpoint]) -> Result<(), JoinFault>
    ensures { MatchResult result (λ _. AreOneFile shards.now) (OrNoMemory (IsUnjoinable shards.now)) }
{
    match other_problem(shards) {
        Some((shard, place)) => Err(JoinFault::OtherProblem(shard, place)),
        None => Ok(()),
    }
}

// Whether no two shards of one problem overlap.
fn check_overlaps(alloc: Global, problem: &Problem, shards: &[Checkpoint]) -> Result<(), JoinFault>
    requires of_one { AreOfOne (bytes_at shards.now 0) problem.now shards.now }
    requires can_meet { CanMeet problem.now shards.now }
    ensures { MatchResult result (λ _. NoneOverlap problem.now shards.now) (OrNoMemory (IsUnjoinable shards.now)) }
{
    let pair = first_overlap(alloc, problem, shards)?;
    match pair {
        Some(found) => Err(JoinFault::Overlap(found.0, found.1)),
        None => Ok(()),
    }
}
