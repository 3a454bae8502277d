//! Checkpoints written whole.

ghost use Rattle.std.specs.Prelude.{◌≡◌, ◌++◌, ◌+◌, ◌∷◌, [], codes, length, map, All, IfOk};
ghost use Rattle.std.specs.List.Sorted.{IsPermutation};
ghost use Rattle.cr_model.specs.Callings.{HasSteps};
ghost use Rattle.cr_model.specs.ProblemFiles.{ProblemFile};
ghost use Rattle.cr_model.specs.Checkpoints.{CanGoOn, CheckFile, checkpoint_text, nodes_of_jobs};
ghost use Rattle.cr_book.specs.Pieces.{pieces_joined};
ghost use Rattle.cr_store.specs.Written.{head_text, front_text, tail_text, IsWritten, IsTextOfLeft};

use crate::collecting::{found_in_order, jobs_of};
use crate::job::Job;
use crate::texts::{write_count, write_jobs};
use cr_board::Board;
use cr_book::{BookPieces, line_pieces, write_lines};
use cr_model::{Calling, Problem};
use cr_row::NoMemory;
use std::alloc::Global;
use std::thread::Threads;

/// The checkpoint, in version 2, of a problem's file, found touches and jobs from which a search can go on. Reading it
/// gives the same again. The nodes are read where they lie. Err where no memory is left.
pub fn write_parts<J: Job>(
    alloc: Global,
    problem: &Problem,
    problem_bytes: &[u8],
    found: &[Calling],
    jobs: &[J],
) -> Result<Vec<u8>, NoMemory>
    requires file { ProblemFile problem_bytes.now problem.now }
    requires goes_on { CanGoOn problem.now found.now (map J.nodes jobs.now) }
    ensures text { IfOk result (λ text. text.items ≡ checkpoint_text problem.now problem_bytes.now found.now (map J.nodes jobs.now)) }
    ensures file { IfOk result (λ text. CheckFile text.items problem_bytes.now problem.now found.now (map J.nodes jobs.now)) }
{
    let mut text = write_front(alloc, problem, problem_bytes, found)?;
    write_tail(alloc, &mut text, problem, jobs)?;
    Ok(text)
}

/// What stands before the jobs in a checkpoint, in version 2: a problem's file and the lines of found touches. Err where no
/// memory is left.
pub fn write_front(
    alloc: Global,
    problem: &Problem,
    problem_bytes: &[u8],
    found: &[Calling],
) -> Result<Vec<u8>, NoMemory>
    requires { All (HasSteps problem.now) found.now }
    ensures { IfOk result (λ text. text.items ≡ front_text problem.now problem_bytes.now found.now) }
{
    let mut text = head_of(alloc, problem_bytes, found.len() as u64)?;
    write_lines(&mut text, problem, found)?;
    Ok(text)
}

/// The checkpoint, in version 2, of a problem's file, of found touches in any order, which it has in the book's, and of
/// jobs: in pieces that follow one another, and with them the touches, again in any order. The touches' lines are put in
/// order and written as `line_pieces` of cr_book does, by at most so many threads. Err where no memory is left.
pub fn checkpoint_pieces<R: Threads + Sync, J: Job>(
    rt: &R,
    alloc: Global,
    threads: usize,
    problem: &Problem,
    problem_bytes: &[u8],
    found: Vec<Calling>,
    handed: &[u64],
    jobs: &[J],
) -> Result<BookPieces, NoMemory>
    requires touches { All (HasSteps problem.now) found.items }
    requires nodes { All (HasSteps problem.now) (nodes_of_jobs (map J.nodes jobs.now)) }
    ensures text { IfOk result (λ made. IsTextOfLeft problem.now problem_bytes.now found.items (map J.nodes jobs.now) (pieces_joined made.pieces.items)) }
    ensures spent { IfOk result (λ made. IsPermutation found.items made.spent.items) }
{
    let head = head_of(alloc, problem_bytes, found.len() as u64)?;
    let mut tail = Vec::new(alloc);
    write_tail(alloc, &mut tail, problem, jobs)?;
    let BookPieces { pieces, spent } = line_pieces(rt, alloc, threads, problem, found, handed)?;
    let pieces = between(alloc, head, pieces, tail)?;
    Ok(BookPieces { pieces, spent })
}

// Pieces between a first and a last one.
fn between(
    alloc: Global,
    head: Vec<u8>,
    mut pieces: Vec<Vec<u8>>,
    tail: Vec<u8>,
) -> Result<Vec<Vec<u8>>, NoMemory>
    ensures { IfOk result (λ all. pieces_joined all.items ≡ head.items ++ pieces_joined pieces.items ++ tail.items) }
{
    let mut all = Vec::new(alloc);
    all.push(head)?;
    all.append(&mut pieces)?;
    all.push(tail)?;
    Ok(all)
}

// What stands before the lines of so many found touches.
fn head_of(alloc: Global, problem_bytes: &[u8], touches: u64) -> Result<Vec<u8>, NoMemory>
    ensures { IfOk result (λ text. text.items ≡ head_text problem_bytes.now touches) }
{
    let mut text = Vec::new(alloc);
    write_count(&mut text, b"ringsearch checkpoint", 2)?;
    write_count(&mut text, b"problem", problem_bytes.len() as u64)?;
    text.extend_from_slice(problem_bytes)?;
    text.push(b'\n')?;
    write_count(&mut text, b"found", touches)?;
    Ok(text)
}

/// Appends what stands behind the lines of found touches: jobs, of which the first comes after the root, and the end. Err
/// where no memory is left.
pub fn write_tail<J: Job>(
    alloc: Global,
    text: &mut Vec<u8>,
    problem: &Problem,
    jobs: &[J],
) -> Result<(), NoMemory>
    requires { All (HasSteps problem.now) (nodes_of_jobs (map J.nodes jobs.now)) }
    ensures { IfOk result (λ _. text.new.items ≡ text.old.items ++ tail_text problem.now (map J.nodes jobs.now)) }
{
    write_count(text, b"jobs", jobs.len() as u64)?;
    write_jobs(alloc, text, problem, jobs)?;
    text.extend_from_slice(b"end\n")?;
    Ok(())
}

/// The checkpoint, in version 2, of what a board leaves: what it found, in the book's order, the jobs of its lanes, in
/// the order of the workers, and then those that are held. The touches are copied, to put them in order, and the nodes are
/// not. Err where no memory is left.
pub fn write_checkpoint(
    alloc: Global,
    problem_bytes: &[u8],
    board: &Board,
) -> Result<Vec<u8>, NoMemory>
    requires { ProblemFile problem_bytes.now board.now.opening.problem }
    ensures { IfOk result (λ text. IsWritten problem_bytes.now board.now text.items) }
{
    let found = found_in_order(alloc, board)?;
    let jobs = jobs_of(alloc, board)?;
    write_parts(
        alloc,
        board.opening().problem(),
        problem_bytes,
        &found,
        &jobs,
    )
}
