//! Whether shards are of one problem.

ghost use Rattle.std.specs.Prelude.{◌≡◌, ◌<◌, ◌≤◌, length, get_or, IfSome, IfNone};
ghost use Rattle.cr_shard.specs.JoinFaults.{DifferFirstAt, IsOtherProblem, AreOneFile, bytes_at};

use cr_model::Problem;
use cr_store::Checkpoint;

/// The first shard whose problem's bytes are not those of the first one, and the first byte at which they differ, or
/// the length of the shorter ones. None where all have the same.
pub fn other_problem(shards: &[Checkpoint]) -> Option<(u64, u64)>
    ensures some { IfSome result (λ pair. IsOtherProblem shards.now pair.0 pair.1) }
    ensures none { IfNone result (AreOneFile shards.now) }
{
    for index in 1..shards.len() {
        if let Some(place) = first_difference(file_of(&shards[0]), file_of(&shards[index])) {
            return Some((index as u64, place as u64));
        }
    }
    None
}

/// The problem's bytes of a shard.
pub fn file_of(shard: &Checkpoint) -> &[u8]
    ensures { result.now ≡ shard.now.bytes }
{
    &shard.problem_bytes
}

/// The problem of a shard.
pub fn problem_of(shard: &Checkpoint) -> &Problem
    ensures { result.now ≡ shard.now.problem }
{
    &shard.problem
}

// The first place where both differ, or the length of the shorter one. None where they are the same.
fn first_difference(one: &[u8], other: &[u8]) -> Option<usize>
    ensures some { IfSome result (DifferFirstAt one.now other.now) }
    ensures none { IfNone result (one.now ≡ other.now) }
{
    let most = one.len().min(other.len());
    for index in 0..most {
        if one[index] != other[index] {
            return Some(index);
        }
    }
    if one.len() == other.len() {
        None
    } else {
        Some(most)
    }
}
