//! Checkpoints read whole.

ghost use Rattle.std.specs.Prelude.{◌≡◌, ◌≢◌, ◌⊎◌, ◌≤◌, ℕ, List, length, take, drop, Ok, Err, IfOk, IfErr, MatchResult};
ghost use Rattle.cr_model.specs.Checkpoints.{CheckFile};
ghost use Rattle.cr_model.specs.Checks.{TellsFirst};
ghost use Rattle.cr_model.specs.ProblemFiles.{ProblemFile};
ghost use Rattle.cr_store.specs.declared.fault.CheckFault.{CheckFault};
ghost use Rattle.cr_store.specs.declared.fault.CheckFault.TheVariants as fault;
ghost use Rattle.cr_store.specs.Lines.{in_all};
ghost use Rattle.cr_store.specs.Progress.{Progress, AreJobs, IsMadeOf};
ghost use Rattle.cr_store.specs.Reading.{AreOutlined, outline_parts};
ghost use Rattle.cr_store.specs.Faults.{FirstCheckFault, OrNoMemory, AreRead, IsKeptAt, IsProblemFaultOf};
ghost use Rattle.cr_store.specs.Written.{lists};

use crate::fault::CheckFault;
use crate::items::{Items, check_items, read_items};
use crate::laws::bytes_have_one_answer;
use crate::outline::Outline;
use crate::shape::read_shape;
use cr_explore::{first_unkept, first_unkept_by};
use cr_model::{Calling, Problem, ProblemFault};
use cr_node::Node;
use cr_read::read_problem;
use cr_row::NoMemory;
use std::alloc::Global;
use std::marker::Model;
use std::mem;
use std::thread::Threads;

/// What a checkpoint holds: the bytes of the problem's file and the problem that they are, the found touches, in the
/// book's order, and the jobs that are left, each a list of nodes that is not empty.
#[derive(Drop)]
pub struct Checkpoint {
    /// The bytes of the problem's file.
    pub problem_bytes: Vec<u8>,
    /// The problem.
    pub problem: Problem,
    /// The found touches, ascending by length and then by calling.
    pub found: Vec<Calling>,
    /// The jobs, each a list of nodes that is not empty.
    pub jobs: Vec<Vec<Node>>,
}

impl Model for Checkpoint {
    ghost use Rattle.cr_store.specs.Progress.{Progress};
    ghost use Rattle.cr_store.specs.Written.{lists};

    ghost Value = { Progress };

    ghost view = { λ c. record { bytes = c.problem_bytes.items; problem = c.problem; found = c.found.items; jobs = lists c.jobs.items } };
}

// What the lines of a checkpoint say: the bytes of the problem's file, the problem, how many lines there are, and found
// touches and nodes.
#[derive(Drop)]
struct Lines {
    problem_bytes: Vec<u8>,
    problem: Problem,
    outline: Outline,
    items: Items,
}

/// The checkpoint that the bytes are, in version 1 or 2.
///
/// The bytes are accepted exactly where they are a checkpoint, with its one problem, found touches and jobs. Each fault
/// comes exactly where it is that of the first check that does not hold, but for `NoMemory`, which comes where no
/// memory is left and says nothing of the bytes.
///
/// Each line is looked at once for each check, and overlaps take n log n comparisons for n lines.
pub fn read_checkpoint(alloc: Global, bytes: &[u8]) -> Result<Checkpoint, CheckFault>
    ensures checkpoint { IfOk result (λ c. CheckFile bytes.now c.bytes c.problem c.found c.jobs) }
    ensures fault { IfErr result (λ why. why ≢ fault.NoMemory → FirstCheckFault bytes.now why) }
    ensures accepts { (c : Progress) → CheckFile bytes.now c.bytes c.problem c.found c.jobs
        → (result ≡ Ok c) ⊎ (result ≡ Err fault.NoMemory) }
    ensures refuses { (why : CheckFault) → FirstCheckFault bytes.now why
        → (result ≡ Err why) ⊎ (result ≡ Err fault.NoMemory) }
{
    // By this law nothing else is right of bytes that the reader has answered.
    bytes_have_one_answer();
    read_whole(alloc, bytes)
}

/// The same as [`read_checkpoint`]: found touches, where they are many, are looked at by so many threads.
pub fn read_checkpoint_by<R: Threads + Sync>(
    rt: &R,
    alloc: Global,
    bytes: &[u8],
    threads: usize,
) -> Result<Checkpoint, CheckFault>
    ensures checkpoint { IfOk result (λ c. CheckFile bytes.now c.bytes c.problem c.found c.jobs) }
    ensures fault { IfErr result (λ why. why ≢ fault.NoMemory → FirstCheckFault bytes.now why) }
    ensures accepts { (c : Progress) → CheckFile bytes.now c.bytes c.problem c.found c.jobs
        → (result ≡ Ok c) ⊎ (result ≡ Err fault.NoMemory) }
    ensures refuses { (why : CheckFault) → FirstCheckFault bytes.now why
        → (result ≡ Err why) ⊎ (result ≡ Err fault.NoMemory) }
{
    bytes_have_one_answer();
    read_whole_by(rt, alloc, bytes, threads)
}

// The same, without a word on other answers.
fn read_whole(alloc: Global, bytes: &[u8]) -> Result<Checkpoint, CheckFault>
    ensures { MatchResult result (λ c. CheckFile bytes.now c.bytes c.problem c.found c.jobs) (OrNoMemory (FirstCheckFault bytes.now)) }
{
    let lines = read_lines(alloc, bytes)?;
    let unkept = first_unkept(alloc, &lines.problem, &lines.items.found)?;
    checked(alloc, lines, unkept)
}

// The same, where so many threads look at found touches.
fn read_whole_by<R: Threads + Sync>(
    rt: &R,
    alloc: Global,
    bytes: &[u8],
    threads: usize,
) -> Result<Checkpoint, CheckFault>
    ensures { MatchResult result (λ c. CheckFile bytes.now c.bytes c.problem c.found c.jobs) (OrNoMemory (FirstCheckFault bytes.now)) }
{
    let lines = read_lines(alloc, bytes)?;
    let unkept = first_unkept_by(rt, alloc, &lines.problem, &lines.items.found, threads)?;
    checked(alloc, lines, unkept)
}

// What the lines of a checkpoint say, before it is checked that a search can go on from it. Err of what is wrong with them
// first, and where no memory is left.
fn read_lines(alloc: Global, bytes: &[u8]) -> Result<Lines, CheckFault>
    ensures { MatchResult result
        (λ lines. AreRead bytes.now lines.problem_bytes.items lines.problem (outline_parts lines.outline) lines.items.found.items lines.items.nodes.items)
        (OrNoMemory (FirstCheckFault bytes.now)) }
{
    let shape = read_shape(alloc, bytes)?;
    let problem = problem_of(alloc, shape.problem)?;
    let outline = Outline::of(alloc, &shape)?;
    let items = read_items(alloc, &problem, &shape, &outline)?;
    let problem_bytes = shape.problem.to_vec(alloc)?;
    Ok(Lines {
        problem_bytes,
        problem,
        outline,
        items,
    })
}

// The checkpoint of lines from which a search can go on, where it is known which found touch is the first that is not kept.
fn checked(alloc: Global, lines: Lines, unkept: Option<usize>) -> Result<Checkpoint, CheckFault>
    requires outlined { AreOutlined lines.problem (outline_parts lines.outline) lines.items.found.items lines.items.nodes.items }
    requires unkept { TellsFirst (IsKeptAt lines.problem lines.items.found.items) (length lines.items.found.items) unkept }
    ensures { (bytes : List ℕ)
        → AreRead bytes lines.problem_bytes.items lines.problem (outline_parts lines.outline) lines.items.found.items lines.items.nodes.items
        → MatchResult result (λ c. CheckFile bytes c.bytes c.problem c.found c.jobs) (OrNoMemory (FirstCheckFault bytes)) }
{
    check_items(alloc, &lines.problem, &lines.outline, &lines.items, unkept)?;
    checkpoint_of(alloc, lines)
}

// The problem of a file.
fn problem_of(alloc: Global, bytes: &[u8]) -> Result<Problem, CheckFault>
    ensures { MatchResult result (ProblemFile bytes.now) (OrNoMemory (IsProblemFaultOf bytes.now)) }
{
    match read_problem(alloc, bytes) {
        Ok(problem) => Ok(problem),
        Err(why) => match why {
            ProblemFault::NoMemory => Err(CheckFault::NoMemory),
            _ => Err(CheckFault::Problem(why)),
        },
    }
}

// The checkpoint of all that was read.
fn checkpoint_of(alloc: Global, lines: Lines) -> Result<Checkpoint, CheckFault>
    requires { in_all lines.outline.sizes.items ≡ length lines.items.nodes.items }
    ensures { MatchResult result
        (IsMadeOf lines.problem_bytes.items lines.problem lines.outline.sizes.items lines.items.found.items lines.items.nodes.items)
        (λ why. why ≡ fault.NoMemory) }
{
    let Lines {
        problem_bytes,
        problem,
        outline,
        items,
    } = lines;
    let Items { found, nodes } = items;
    let jobs = into_jobs(alloc, &outline.sizes, nodes)?;
    Ok(Checkpoint {
        problem_bytes,
        problem,
        found,
        jobs,
    })
}

// The nodes as jobs of these sizes.
fn into_jobs(alloc: Global, sizes: &[usize], nodes: Vec<Node>) -> Result<Vec<Vec<Node>>, NoMemory>
    requires { in_all sizes.now ≡ length nodes.items }
    ensures { IfOk result (λ jobs. AreJobs sizes.now nodes.items (lists jobs.items)) }
{
    let mut jobs = Vec::with_capacity(alloc, sizes.len())?;
    let mut left = nodes;
    let mut index = sizes.len();
    while index > 0 {
        index -= 1;
        let at = left.len() - sizes[index];
        jobs.push(nodes_from(alloc, &mut left, at)?)?;
    }
    jobs.reverse();
    Ok(jobs)
}

// Takes the nodes from a place on. All of them are taken as they stand. Else they are moved to memory of their own, and
// what the others don't need is given back, so that no node has two places.
fn nodes_from(alloc: Global, nodes: &mut Vec<Node>, at: usize) -> Result<Vec<Node>, NoMemory>
    requires { at ≤ length nodes.old.items }
    ensures taken { IfOk result (λ job. job.items ≡ drop at nodes.old.items) }
    ensures left { IfOk result (λ _. nodes.new.items ≡ take at nodes.old.items) }
{
    if at == 0 {
        return Ok(mem::replace(nodes, Vec::new(alloc)));
    }
    let job = nodes.split_off(at)?;
    nodes.shrink_to_fit();
    Ok(job)
}
