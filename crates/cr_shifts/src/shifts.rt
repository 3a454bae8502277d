//! Shifts, one after another, until no node is left.

ghost use Rattle.std.specs.Prelude.{◌≡◌, ◌<◌, ◌≤◌, ◌++◌, [], None, List, length, map, All, Ok, IfOk};
ghost use Rattle.cr_model.specs.Checkpoints.{CanGoOn, nodes_of_jobs};
ghost use Rattle.cr_model.specs.Nodes.{IsValid, Independent, Splits};
ghost use Rattle.cr_model.specs.Sizes.{most_rows, size_of_all};
ghost use Rattle.cr_node.specs.Work.{IsJob};
ghost use Rattle.cr_store.specs.Written.{lists};
ghost use Rattle.cr_trail.specs.Runs.{RunsOn};
ghost use Rattle.cr_shifts.specs.Shifts.{IsPartDone, GoesOn, found_by, left_by};

use crate::finder::{Finder, Findings};
use cr_book::each_in_a_thread;
use cr_explore::laws::a_split_in_any_order;
use cr_model::Calling;
use cr_model::laws::{a_split_among_others, sizes_are_sums, splits_follow_one_another};
use cr_node::Node;
use cr_row::NoMemory;
use cr_store::Remaining;
use cr_trail::RunProgress;
use std::alloc::Global;
use std::thread::Threads;

// About how many turns each job of the first shift takes, and of the later ones at most. Few at first, so that few nodes soon
// become many.
const FIRST_TURNS: u64 = 1 << 10;

const MOST_TURNS: u64 = 1 << 20;

// How many times as many turns a job of the next shift takes.
const GROWTH: u64 = 4;

// How many jobs a shift has for each of several workers, and how many at most: each is a thread.
const JOBS_FOR_A_WORKER: usize = 4;

const MOST_JOBS: usize = 256;

/// Goes on from where a search went, by about so many threads, until no node is left. What it finds comes behind what was
/// found before, in whatever order that is. Err where no memory is left.
pub fn find_in_shifts<R: AllocGlobal + Threads + Sync, F: Finder + Sync>(
    rt: &R,
    workers: u32,
    finder: &F,
    before: RunProgress,
) -> Result<RunProgress, NoMemory>
    requires { CanGoOn (F.finds finder.now) [] (lists before.left.jobs.items) }
    ensures run { IfOk result (λ now. RunsOn (F.finds finder.now) before.left.found.items (lists before.left.jobs.items) None
        now.left.found.items (lists now.left.jobs.items)) }
    ensures whole { IfOk result (λ now. now.left.jobs.items ≡ []) }
{
    sizes_are_sums();
    let alloc = rt.alloc();
    let RunProgress { left, mut handed } = before;
    let Remaining { mut found, jobs } = left;
    find_all(rt, workers, finder, jobs, &mut found, &mut handed)?;
    let left = Remaining {
        found,
        jobs: Vec::new(alloc),
    };
    Ok(RunProgress { left, handed })
}

// Puts all kept touches below the nodes of some jobs behind what was found before. How many each job of a shift found that
// found any comes behind the numbers.
fn find_all<R: AllocGlobal + Threads + Sync, F: Finder + Sync>(
    rt: &R,
    workers: u32,
    finder: &F,
    jobs: Vec<Vec<Node>>,
    found: &mut Vec<Calling>,
    handed: &mut Vec<u64>,
) -> Result<(), NoMemory>
    requires filled { All (λ job. 0 < length job) (lists jobs.items) }
    requires valid { All (IsValid (F.finds finder.now)) (nodes_of_jobs (lists jobs.items)) }
    requires independent { Independent (F.finds finder.now) [] (nodes_of_jobs (lists jobs.items)) }
    ensures { IfOk result (λ _. GoesOn (F.finds finder.now) (nodes_of_jobs (lists jobs.items)) found.old.items found.new.items []) }
{
    splits_follow_one_another();
    let alloc = rt.alloc();
    let mut left = jobs;
    let mut turns = FIRST_TURNS;
    while !left.is_empty() {
        let done = one_shift(rt, workers, finder, left, turns)?;
        left = put_together(alloc, done, found, handed)?;
        turns = (GROWTH * turns).min(MOST_TURNS);
    }
    Ok(())
}

// One shift: what each job found and left. A job has nodes of one of those before alone: so no touch that was found lies
// between two that a job finds, and what all hand in is in order as it stands.
fn one_shift<R: AllocGlobal + Threads + Sync, F: Finder + Sync>(
    rt: &R,
    workers: u32,
    finder: &F,
    left: Vec<Vec<Node>>,
    turns: u64,
) -> Result<Vec<Findings>, NoMemory>
    requires some { 0 < length left.items }
    requires turns { 0 < turns }
    requires filled { All (λ job. 0 < length job) (lists left.items) }
    requires valid { All (IsValid (F.finds finder.now)) (nodes_of_jobs (lists left.items)) }
    requires independent { Independent (F.finds finder.now) [] (nodes_of_jobs (lists left.items)) }
    ensures splits { IfOk result (λ done. Splits (F.finds finder.now) (nodes_of_jobs (lists left.items)) (found_by done.items) (left_by done.items)) }
    ensures smaller { IfOk result (λ done. size_of_all (F.finds finder.now) most_rows (left_by done.items)
        < size_of_all (F.finds finder.now) most_rows (nodes_of_jobs (lists left.items))) }
{
    a_split_among_others();
    a_split_in_any_order();
    sizes_are_sums();
    splits_follow_one_another();
    let alloc = rt.alloc();
    let jobs = in_jobs(alloc, left, most_jobs(workers))?;
    let find = |job: Vec<Node>| -> Result<Findings, NoMemory>
        requires { IsJob (F.finds finder.now) job.items × (0 < turns) }
        ensures { IfOk result (IsPartDone (F.finds finder.entry.now) job.items) }
    { finder.find(alloc, &job, turns) };
    let results = each_in_a_thread(rt, jobs, &find)?;
    all_made(alloc, results)
}

// How many jobs a shift has at most. One worker needs no more than one.
fn most_jobs(workers: u32) -> usize
    ensures { 0 < result }
{
    if workers < 2 {
        1
    } else {
        (JOBS_FOR_A_WORKER * workers as usize).min(MOST_JOBS)
    }
}

// What was made, where each was.
fn all_made(
    alloc: Global,
    results: Vec<Result<Findings, NoMemory>>,
) -> Result<Vec<Findings>, NoMemory>
    ensures { IfOk result (λ made. results.items ≡ map Ok made.items) }
{
    let mut made = Vec::with_capacity(alloc, results.len())?;
    for result in results {
        made.push(result?)?;
    }
    Ok(made)
}

// Puts what jobs found behind what was found before, and gives what each left that left any.
fn put_together(
    alloc: Global,
    done: Vec<Findings>,
    found: &mut Vec<Calling>,
    handed: &mut Vec<u64>,
) -> Result<Vec<Vec<Node>>, NoMemory>
    ensures found { IfOk result (λ _. found.new.items ≡ found.old.items ++ found_by done.items) }
    ensures left { IfOk result (λ left. nodes_of_jobs (lists left.items) ≡ left_by done.items) }
    ensures filled { IfOk result (λ left. All (λ job. 0 < length job) (lists left.items)) }
{
    let mut left = Vec::new(alloc);
    for one in done {
        let Findings {
            found: mut more,
            rest,
        } = one;
        if !more.is_empty() {
            handed.push(more.len() as u64)?;
        }
        found.append(&mut more)?;
        if !rest.is_empty() {
            left.push(rest)?;
        }
    }
    Ok(left)
}

// The jobs cut into about so many, where there are fewer. None is empty.
fn in_jobs(alloc: Global, left: Vec<Vec<Node>>, most: usize) -> Result<Vec<Vec<Node>>, NoMemory>
    requires filled { All (λ job. 0 < length job) (lists left.items) }
    ensures all { IfOk result (λ jobs. nodes_of_jobs (lists jobs.items) ≡ nodes_of_jobs (lists left.items)) }
    ensures filled { IfOk result (λ jobs. All (λ job. 0 < length job) (lists jobs.items)) }
{
    let pieces = most.div_ceil(left.len().max(1));
    let mut jobs = Vec::new(alloc);
    for nodes in left {
        cut(&mut jobs, nodes, pieces)?;
    }
    Ok(jobs)
}

// Appends the nodes of a job in so many jobs at most: each of the first ones by itself, since these have most below them, and
// the others together.
fn cut(jobs: &mut Vec<Vec<Node>>, nodes: Vec<Node>, pieces: usize) -> Result<(), NoMemory>
    requires some { 0 < length nodes.items }
    requires filled { All (λ job. 0 < length job) (lists jobs.old.items) }
    ensures all { IfOk result (λ _. nodes_of_jobs (lists jobs.new.items) ≡ nodes_of_jobs (lists jobs.old.items) ++ nodes.items) }
    ensures filled { IfOk result (λ _. All (λ job. 0 < length job) (lists jobs.new.items)) }
{
    let mut job = nodes;
    let mut left = pieces;
    while left > 1 && job.len() > 1 {
        let rest = job.split_off(1)?;
        jobs.push(job)?;
        job = rest;
        left -= 1;
    }
    jobs.push(job)?;
    Ok(())
}
