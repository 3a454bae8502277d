//! Shards written as blocks, in pieces, from the lines of their nodes.

ghost use Rattle.std.specs.Prelude.{◌≡◌, ◌++◌, ℕ, List, cond, nat_eq, length, IfOk};
ghost use Rattle.cr_model.specs.Problems.{ProblemParts};
ghost use Rattle.cr_model.specs.Checkpoints.{nodes_of_jobs};
ghost use Rattle.cr_book.specs.Pieces.{pieces_joined};
ghost use Rattle.cr_store.specs.Blocks.{block};
ghost use Rattle.cr_store.specs.Written.{front_text, tail_text};
ghost use Rattle.cr_shard.specs.Deals.{as_jobs, IsCut};
ghost use Rattle.cr_shard.specs.Dealers.{AreLinesOf, HaveLines, job_head};

use crate::dealer::{END, NodeLines};
use cr_model::Problem;
use cr_row::NoMemory;
use cr_store::{write_count, write_front};
use std::alloc::Global;
use std::mem;

/// The shards whose nodes have these lines, as blocks, in pieces that follow one another. The lines are moved out of them.
/// `front` is what stands before the jobs in the first one.
pub fn pieces_of(
    alloc: Global,
    problem: &Problem,
    problem_bytes: &[u8],
    front: &[u8],
    shards: &mut [NodeLines],
) -> Result<Vec<Vec<u8>>, NoMemory>
    ensures { IfOk result (λ pieces. (found : List (List ℕ)) (jobs : List (List (List ℕ))) → front.now ≡ front_text problem.now problem_bytes.now found
        → HaveLines problem.now (nodes_of_jobs jobs) shards.old → IsCut problem.now problem_bytes.now found jobs (length shards.old) (pieces_joined pieces.items)) }
{
    let bare = write_front(alloc, problem, problem_bytes, &[])?;
    let mut pieces = Vec::new(alloc);
    for shard in 0..shards.len() {
        add_shard(
            alloc,
            &mut pieces,
            front_for(shard, front, &bare),
            &mut shards[shard],
        )?;
    }
    Ok(pieces)
}

// What stands before the jobs in a shard: in the first all found touches, and none in the others.
fn front_for<'a>(shard: usize, front: &'a [u8], bare: &'a [u8]) -> &'a [u8]
    ensures { result.now ≡ cond (nat_eq shard 0) front.now bare.now }
{
    if shard == 0 { front } else { bare }
}

// Appends the block of a shard: what stands before the lines of its nodes, and these.
fn add_shard(
    alloc: Global,
    pieces: &mut Vec<Vec<u8>>,
    front: &[u8],
    lines: &mut NodeLines,
) -> Result<(), NoMemory>
    ensures { IfOk result (λ _. (p : ProblemParts) (nodes : List (List ℕ)) → AreLinesOf p nodes lines.old
        → pieces_joined pieces.new.items ≡ pieces_joined pieces.old.items ++ block (front.now ++ tail_text p (as_jobs nodes))) }
{
    let head = head_of(alloc, front, lines.nodes)?;
    let mut text = mem::replace(&mut lines.text, Vec::new(alloc));
    text.extend_from_slice(END)?;
    let mut first = Vec::new(alloc);
    write_count(&mut first, b"block", head.len() as u64 + text.len() as u64)?;
    first.extend_from_slice(&head)?;
    pieces.push(first)?;
    pieces.push(text)?;
    Ok(())
}

// What stands before the lines of so many nodes, which are one job, or none.
fn head_of(alloc: Global, front: &[u8], nodes: u64) -> Result<Vec<u8>, NoMemory>
    ensures { IfOk result (λ head. head.items ≡ front.now ++ job_head nodes) }
{
    let mut head = front.to_vec(alloc)?;
    if nodes == 0 {
        write_count(&mut head, b"jobs", 0)?;
    } else {
        write_count(&mut head, b"jobs", 1)?;
        write_count(&mut head, b"job", nodes)?;
    }
    Ok(head)
}
