//! What an input says.

ghost use Rattle.std.specs.Prelude.{◌≡◌, ◌≢◌, ℕ, [], ◌∷◌, IfOk, IfErr};
ghost use Rattle.cr_model.specs.ProblemFiles.{ProblemFile};
ghost use Rattle.cr_model.specs.Checkpoints.{CanGoOn, CheckFile, IsCheckpoint};
ghost use Rattle.cr_store.specs.declared.fault.CheckFault.TheVariants as fault;
ghost use Rattle.cr_store.specs.Faults.{FirstCheckFault};
ghost use Rattle.cr_store.specs.Written.{lists};
ghost use Rattle.cr_top.specs.Refused.{StartsFrom};

use crate::refusal::Refusal;
use cr_model::{Problem, ProblemFault};
use cr_node::Node;
use cr_node::laws::work_goes_on;
use cr_read::read_problem;
use cr_row::NoMemory;
use cr_store::{CheckFault, Checkpoint, Remaining, read_checkpoint, read_checkpoint_by};
use std::alloc::Global;
use std::thread::Threads;

/// What an input says: the problem's bytes, the problem, and what is left of its search.
#[derive(Drop)]
pub struct Start {
    pub bytes: Vec<u8>,
    pub problem: Problem,
    pub left: Remaining,
}

/// What an input says, or why it is none.
pub fn start_of(alloc: Global, input: Vec<u8>) -> Result<Start, Refusal>
    ensures { StartsFrom input.items result }
{
    if input.starts_with(b"ringsearch checkpoint ") {
        let bytes: &[u8] = &input;
        resumed(bytes, read_checkpoint(alloc, bytes))
    } else {
        opened(alloc, input)
    }
}

/// The same: the found touches of a checkpoint are looked at by so many threads.
pub fn start_of_by<R: Threads + Sync>(
    rt: &R,
    alloc: Global,
    input: Vec<u8>,
    threads: usize,
) -> Result<Start, Refusal>
    ensures { StartsFrom input.items result }
{
    if input.starts_with(b"ringsearch checkpoint ") {
        let bytes: &[u8] = &input;
        resumed(bytes, read_checkpoint_by(rt, alloc, bytes, threads))
    } else {
        opened(alloc, input)
    }
}

// What bytes say that were read as a checkpoint.
fn resumed(bytes: &[u8], read: Result<Checkpoint, CheckFault>) -> Result<Start, Refusal>
    requires begins { IsCheckpoint bytes.now }
    requires checkpoint { IfOk read (λ c. CheckFile bytes.now c.bytes c.problem c.found c.jobs) }
    requires fault { IfErr read (λ why. why ≢ fault.NoMemory → FirstCheckFault bytes.now why) }
    ensures { StartsFrom bytes.now result }
{
    match read {
        Ok(checkpoint) => Ok(Start {
            bytes: checkpoint.problem_bytes,
            problem: checkpoint.problem,
            left: Remaining {
                found: checkpoint.found,
                jobs: checkpoint.jobs,
            },
        }),
        Err(CheckFault::NoMemory) => Err(Refusal::NoMemory),
        Err(fault) => Err(Refusal::Checkpoint(fault)),
    }
}

// What a problem's file says.
fn opened(alloc: Global, input: Vec<u8>) -> Result<Start, Refusal>
    requires { IsCheckpoint input.items → ⊥ }
    ensures { StartsFrom input.items result }
{
    match read_problem(alloc, &input) {
        Ok(problem) => begun(alloc, input, problem),
        Err(ProblemFault::NoMemory) => Err(Refusal::NoMemory),
        Err(fault) => Err(Refusal::Problem(fault)),
    }
}

// A search that has not begun.
fn begun(alloc: Global, input: Vec<u8>, problem: Problem) -> Result<Start, Refusal>
    requires begins { IsCheckpoint input.items → ⊥ }
    requires file { ProblemFile input.items problem }
    ensures { StartsFrom input.items result }
{
    let left = all_of(alloc, &problem)?;
    Ok(Start {
        bytes: input,
        problem,
        left,
    })
}

/// What is left of a search that has not begun: nothing is found, and the only job is the root. Err where no memory is
/// left.
pub fn all_of(alloc: Global, problem: &Problem) -> Result<Remaining, NoMemory>
    ensures found { IfOk result (λ left. left.found.items ≡ []) }
    ensures jobs { IfOk result (λ left. lists left.jobs.items ≡ ([] ∷ []) ∷ []) }
    ensures goes_on { IfOk result (λ left. CanGoOn problem.now left.found.items (lists left.jobs.items)) }
{
    work_goes_on();
    let jobs = root_job(alloc)?;
    Ok(Remaining {
        found: Vec::new(alloc),
        jobs,
    })
}

// The job of the root alone. Err where no memory is left.
fn root_job(alloc: Global) -> Result<Vec<Vec<Node>>, NoMemory>
    ensures { IfOk result (λ jobs. lists jobs.items ≡ ([] ∷ []) ∷ []) }
{
    let mut job = Vec::with_capacity(alloc, 1)?;
    job.push(Node::root(alloc))?;
    let mut jobs = Vec::with_capacity(alloc, 1)?;
    jobs.push(job)?;
    Ok(jobs)
}
