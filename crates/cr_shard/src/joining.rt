//! Shards written as one checkpoint.

ghost use Rattle.std.specs.Prelude.{◌≡◌, ◌<◌, ◌++◌, List, ℕ, length, map, All, IfOk};
ghost use Rattle.std.specs.List.Sorted.{IsPermutation, IsSorted};
ghost use Rattle.cr_model.specs.Books.{book_order};
ghost use Rattle.cr_model.specs.Callings.{HasSteps};
ghost use Rattle.cr_model.specs.Checkpoints.{CanGoOn};
ghost use Rattle.cr_model.specs.ProblemFiles.{ProblemFile};
ghost use Rattle.cr_store.specs.Written.{lists, jobs_seen, IsTextOfLeft};
ghost use Rattle.cr_shard.specs.Joins.{all_found, all_jobs};
ghost use Rattle.cr_shard.specs.Reads.{CanJoin, IsJoinOf, without_found};

use crate::problems::{file_of, problem_of};
use crate::words::jobs_of;
use cr_book::sort_found;
use cr_model::{Calling, Problem};
use cr_node::Node;
use cr_row::NoMemory;
use cr_store::{Checkpoint, write_parts};
use std::alloc::Global;
use std::mem;

/// Shards of one problem, no two of which overlap, as one checkpoint: what all found, in the book's order, and their
/// jobs, shard by shard. The touches are moved out of the shards, and the nodes are written where they lie. Err where no
/// memory is left.
pub fn join_shards(alloc: Global, shards: &mut [Checkpoint]) -> Result<Vec<u8>, NoMemory>
    requires some { 0 < length shards.old }
    requires can { CanJoin shards.old }
    ensures { IfOk result (λ text. IsJoinOf shards.old text.items) }
{
    let found = take_found(alloc, shards)?;
    let rest: &[Checkpoint] = shards;
    let jobs = jobs_of_all(alloc, rest)?;
    let first = &rest[0];
    let text = write_in_order(alloc, problem_of(first), file_of(first), found, &jobs)?;
    Ok(text)
}

// Takes what all shards found out of them, shard by shard.
fn take_found(alloc: Global, shards: &mut [Checkpoint]) -> Result<Vec<Calling>, NoMemory>
    ensures found { IfOk result (λ found. found.items ≡ all_found shards.old) }
    ensures left { IfOk result (λ _. shards.new ≡ map without_found shards.old) }
{
    let mut found = Vec::new(alloc);
    for shard in shards.iter_mut() {
        take_from(alloc, &mut found, shard)?;
    }
    Ok(found)
}

// Moves what a shard found behind some touches.
fn take_from(
    alloc: Global,
    found: &mut Vec<Calling>,
    shard: &mut Checkpoint,
) -> Result<(), NoMemory>
    ensures found { IfOk result (λ _. found.new.items ≡ found.old.items ++ shard.old.found) }
    ensures left { IfOk result (λ _. shard.new ≡ without_found shard.old) }
{
    let mut more = mem::replace(&mut shard.found, Vec::new(alloc));
    found.append(&mut more)?;
    Ok(())
}

// The jobs of all shards, shard by shard. Their nodes stay where they are.
fn jobs_of_all(alloc: Global, shards: &[Checkpoint]) -> Result<Vec<&[Node]>, NoMemory>
    ensures { IfOk result (λ jobs. jobs_seen jobs.items ≡ all_jobs shards.now) }
{
    let mut jobs = Vec::new(alloc);
    for shard in shards {
        add_jobs(&mut jobs, jobs_of(shard))?;
    }
    Ok(jobs)
}

// Appends some jobs.
fn add_jobs<'a>(jobs: &mut Vec<&'a [Node]>, more: &'a [Vec<Node>]) -> Result<(), NoMemory>
    ensures { IfOk result (λ _. jobs_seen jobs.new.items ≡ jobs_seen jobs.old.items ++ lists more.now) }
{
    for job in more {
        jobs.push(job)?;
    }
    Ok(())
}

// The checkpoint of found touches, which it has in the book's order, and of jobs.
fn write_in_order(
    alloc: Global,
    problem: &Problem,
    problem_bytes: &[u8],
    found: Vec<Calling>,
    jobs: &[&[Node]],
) -> Result<Vec<u8>, NoMemory>
    requires file { ProblemFile problem_bytes.now problem.now }
    requires touches { All (HasSteps problem.now) found.items }
    requires goes_on { (book : List (List ℕ)) → IsPermutation found.items book → IsSorted (book_order problem.now) book
        → CanGoOn problem.now book (jobs_seen jobs.now) }
    ensures { IfOk result (λ text. IsTextOfLeft problem.now problem_bytes.now found.items (jobs_seen jobs.now) text.items) }
{
    let book = sort_found(alloc, problem, found)?;
    let text = write_parts(alloc, problem, problem_bytes, &book, jobs)?;
    Ok(text)
}
