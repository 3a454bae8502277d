//! A checkpoint cut as its text is read, without a list of its nodes.

ghost use Rattle.std.specs.Prelude.{◌≡◌, ◌≤◌, ◌<◌, ◌++◌, ℕ, List, length, IsTrue, IfOk, IfSome, All};
ghost use Rattle.std.specs.List.Sorted.{IsStrictlySortedBy};
ghost use Rattle.cr_model.specs.Touches.{Kept};
ghost use Rattle.cr_model.specs.Books.{book_order};
ghost use Rattle.cr_model.specs.ProblemFiles.{ProblemFile};
ghost use Rattle.cr_book.specs.Pieces.{pieces_joined};
ghost use Rattle.cr_shard.specs.Joins.{IsRead};
ghost use Rattle.cr_shard.specs.Hashes.{IsClear};
ghost use Rattle.cr_shard.specs.Dealers.{AreClear, IsDealtText, IsTextCut};

use crate::dealer::{Dealer, NodeLines};
use crate::hashes::{Known, hash_after};
use crate::pieces::pieces_of;
use crate::problems::{file_of, problem_of};
use crate::survey::Survey;
use crate::words::{found_of, part_of};
use cr_model::{Calling, Problem};
use cr_row::NoMemory;
use cr_store::{CheckFault, Checkpoint, each_node, read_checkpoint, write_front};
use std::alloc::Global;
use std::mem;

// A list of nodes takes up to 46 bytes for each. That is less than twice a line of so many.
const SHORT: usize = 24;

/// The shards of a checkpoint, as [`cut_blocks`](crate::cut_blocks) gives them, cut as its text is read, in pieces that
/// follow one another.
///
/// The nodes stay in the text: beside it and the shards a cut takes 9 bytes for each node. None says nothing of the text.
/// It comes where that is no checkpoint of version 2, where what stands before its jobs is more than three quarters of
/// it, where its lines are so long that a list of its nodes takes no more than twice the text, and where two nodes
/// overlap or have one hash. Err where no memory is left.
pub fn cut_text(alloc: Global, text: &[u8], into: u32) -> Result<Option<Vec<Vec<u8>>>, NoMemory>
    requires { 1 ≤ into }
    ensures { IfOk result (λ cut. IfSome cut (λ pieces. IsTextCut text.now into (pieces_joined pieces.items))) }
{
    match head_of(alloc, text)? {
        Some(head) => cut_behind(
            alloc,
            problem_of(&head),
            file_of(&head),
            found_of(&head),
            text,
            into,
        ),
        None => Ok(None),
    }
}

// The place behind the line feed before the last line of a text that begins as `jobs` does.
fn jobs_at(text: &[u8]) -> Option<usize>
    ensures { IfSome result (λ place. place ≤ length text.now) }
{
    for back in 1..=text.len() {
        let place = text.len() - back;
        if text[place..].starts_with(b"\njobs ") {
            return Some(place + 1);
        }
    }
    None
}

// Whether the lines of a text have fewer than so many bytes on the whole.
fn are_short(text: &[u8]) -> bool {
    let lines = text.iter().filter(|byte| **byte == b'\n').count();
    lines.saturating_mul(SHORT) > text.len()
}

// What a checkpoint says before its jobs, as a checkpoint without jobs. None where it is none, or where a cut that reads its
// nodes from the text is not worth while.
fn head_of(alloc: Global, text: &[u8]) -> Result<Option<Checkpoint>, NoMemory>
    ensures { IfOk result (λ head. IfSome head (λ c. (body : List ℕ) × IsRead body c)) }
{
    let Some(place) = jobs_at(text) else {
        return Ok(None);
    };
    if place > text.len() / 4 * 3 || !are_short(&text[place..]) {
        return Ok(None);
    }
    let mut front = text[..place].to_vec(alloc)?;
    front.extend_from_slice(b"jobs 0\nend\n")?;
    match read_checkpoint(alloc, &front) {
        Ok(head) => Ok(Some(head)),
        Err(CheckFault::NoMemory) => Err(NoMemory),
        Err(_) => Ok(None),
    }
}

// The shards of a text that says this before its jobs. None where it says something else.
fn cut_behind(
    alloc: Global,
    problem: &Problem,
    problem_bytes: &[u8],
    found: &[Calling],
    text: &[u8],
    into: u32,
) -> Result<Option<Vec<Vec<u8>>>, NoMemory>
    requires some { 1 ≤ into }
    requires file { ProblemFile problem_bytes.now problem.now }
    requires kept { All (Kept problem.now) found.now }
    requires ascending { IsStrictlySortedBy (book_order problem.now) found.now }
    ensures { IfOk result (λ cut. IfSome cut (λ pieces. IsTextCut text.now into (pieces_joined pieces.items))) }
{
    let front = write_front(alloc, problem, problem_bytes, found)?;
    let Some(lines) = behind(text, &front) else {
        return Ok(None);
    };
    let Some(mut shards) = dealt(alloc, problem, found, lines, into)? else {
        return Ok(None);
    };
    let pieces = pieces_of(alloc, problem, problem_bytes, &front, &mut shards)?;
    Ok(Some(pieces))
}

// What comes after a front that a text begins with.
fn behind<'a>(text: &'a [u8], front: &[u8]) -> Option<&'a [u8]>
    ensures { IfSome result (λ rest. text.now ≡ front.now ++ rest.now) }
{
    text.strip_prefix(front)
}

// The nodes of the text behind found touches, dealt to so many shards. None where it is no such text, and where two nodes
// overlap or have one hash, or a node is above a found touch or has the hash of one that is.
fn dealt(
    alloc: Global,
    problem: &Problem,
    found: &[Calling],
    text: &[u8],
    into: u32,
) -> Result<Option<Vec<NodeLines>>, NoMemory>
    requires some { 1 ≤ into }
    requires kept { All (Kept problem.now) found.now }
    requires ascending { IsStrictlySortedBy (book_order problem.now) found.now }
    ensures { IfOk result (λ dealt. IfSome dealt (λ shards. IsDealtText problem.now found.now text.now into shards.items)) }
{
    let mut survey = Survey::new(alloc, into)?;
    if !each_node(alloc, problem, text, &mut survey)? {
        return Ok(None);
    }
    let hashes = mem::replace(&mut survey.hashes, Vec::new(alloc));
    let Some(known) = Known::new(alloc, hashes)? else {
        return Ok(None);
    };
    let mut dealer = Dealer::new(alloc, known, into, &survey)?;
    if !each_node(alloc, problem, text, &mut dealer)? {
        return Ok(None);
    }
    let Dealer { known, shards, .. } = dealer;
    if are_clear(&known, problem, found) && shards.lines.len() == into as usize {
        Ok(Some(shards.lines))
    } else {
        Ok(None)
    }
}

// Whether no node whose hash is known is above a found touch.
fn are_clear(known: &Known, problem: &Problem, found: &[Calling]) -> bool
    ensures { IsTrue result → AreClear problem.now known.now.hashes found.now }
{
    for calling in found {
        if !is_clear(known, part_of(problem, calling)) {
            return false;
        }
    }
    true
}

// Whether the hash of no node is known through which these steps go.
fn is_clear(known: &Known, steps: &[u8]) -> bool
    ensures { IsTrue result → IsClear known.now.hashes steps.now }
{
    let mut hash = 0;
    for step in steps {
        if known.has(hash) {
            return false;
        }
        hash = hash_after(hash, *step);
    }
    !known.has(hash)
}
