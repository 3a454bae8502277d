//! What a board leaves, as lists.

ghost use Rattle.std.specs.Prelude.{◌≡◌, ◌↔◌, ◌+◌, ◌++◌, ℕ, List, [], ◌∷◌, map, flat_map, option_map, All, IfOk};
ghost use Rattle.std.specs.List.Sorted.{IsPermutation};
ghost use Rattle.cr_model.specs.Touches.{Kept};
ghost use Rattle.cr_model.specs.Nodes.{Covers};
ghost use Rattle.cr_model.specs.Sizes.{most_rows, size_of_all};
ghost use Rattle.cr_model.specs.Checkpoints.{CanGoOn, nodes_of_jobs};
ghost use Rattle.cr_board.specs.Jobs.{opening_nodes};
ghost use Rattle.cr_board.specs.Boards.{held_jobs, board_jobs};
ghost use Rattle.cr_store.specs.Searches.{WentOn};
ghost use Rattle.cr_store.specs.Written.{lists, jobs_seen, nodes_held};

use cr_board::laws::{each_touch_stands_once, partitions_follow_one_another};
use cr_board::{Board, LaneJob};
use cr_book::laws::what_is_sorted_is_the_book;
use cr_book::sort_found;
use cr_model::{Calling, Problem};
use cr_node::Node;
use cr_row::NoMemory;
use std::alloc::Global;

/// What is left of a search: the touches that it found, and the jobs that it has.
#[derive(Drop)]
pub struct Remaining {
    /// The found touches. What this crate gives has them ascending by length and then by calling.
    pub found: Vec<Calling>,
    /// The jobs, each a list of nodes that is not empty.
    pub jobs: Vec<Vec<Node>>,
}

/// What a board leaves: what it found, in the book's order, and the jobs of its lanes, in the order of the workers, and
/// then those that are held. They are moved out of the board, and not copied. A search can go on from there, which covers
/// what the board was opened from; each turn that was spent took one off the size. Err where no memory is left.
pub fn remaining_of(alloc: Global, board: Board) -> Result<Remaining, NoMemory>
    ensures jobs { IfOk result (λ left. lists left.jobs.items ≡ board_jobs board) }
    ensures found { IfOk result (λ left. IsPermutation board.found left.found.items) }
    ensures goes_on { IfOk result (λ left. CanGoOn board.opening.problem left.found.items (lists left.jobs.items)) }
    ensures covers { IfOk result (λ left. (calling : List ℕ) → Covers board.opening.problem left.found.items (nodes_of_jobs (lists left.jobs.items)) calling ↔ Covers board.opening.problem board.opening.found (opening_nodes board.opening) calling) }
    ensures size { IfOk result (λ left. size_of_all board.opening.problem most_rows (nodes_of_jobs (lists left.jobs.items)) + board.spent ≡ size_of_all board.opening.problem most_rows (opening_nodes board.opening)) }
{
    let parts = board.into_parts(alloc)?;
    let found = parts.found;
    let jobs = parts.jobs;
    let left = remaining_in_order(alloc, parts.opening.problem(), found, jobs)?;
    Ok(left)
}

/// What is left of a search that found these touches and has these jobs, with the touches in the book's order. They are
/// moved, and not copied. Where the search went on from other found touches and jobs, a search can go on from there, and
/// covers the same. Err where no memory is left.
pub fn remaining_in_order(
    alloc: Global,
    problem: &Problem,
    found: Vec<Calling>,
    jobs: Vec<Vec<Node>>,
) -> Result<Remaining, NoMemory>
    requires { All (Kept problem.now) found.items }
    ensures jobs { IfOk result (λ left. lists left.jobs.items ≡ lists jobs.items) }
    ensures found { IfOk result (λ left. IsPermutation found.items left.found.items) }
    ensures goes_on { IfOk result (λ left. (before : List (List ℕ)) (begun : List (List (List ℕ))) (spent : ℕ)
        → WentOn problem.now before begun found.items (lists jobs.items) spent
        → CanGoOn problem.now left.found.items (lists left.jobs.items)) }
    ensures covers { IfOk result (λ left. (before : List (List ℕ)) (begun : List (List (List ℕ))) (spent : ℕ)
        → WentOn problem.now before begun found.items (lists jobs.items) spent → (calling : List ℕ)
        → Covers problem.now left.found.items (nodes_of_jobs (lists left.jobs.items)) calling
        ↔ Covers problem.now before (nodes_of_jobs begun) calling) }
{
    let found = in_order(alloc, problem, found)?;
    Ok(Remaining { found, jobs })
}

// Found touches in the book's order. Where a search that found them has some jobs left, one can go on from these and
// them, and covers what that search went on from.
fn in_order(alloc: Global, problem: &Problem, found: Vec<Calling>) -> Result<Vec<Calling>, NoMemory>
    requires { All (Kept problem.now) found.items }
    ensures same { IfOk result (λ sorted. IsPermutation found.items sorted.items) }
    ensures goes_on { IfOk result (λ sorted. (before : List (List ℕ)) (begun left : List (List (List ℕ))) (spent : ℕ)
        → WentOn problem.now before begun found.items left spent → CanGoOn problem.now sorted.items left) }
    ensures covers { IfOk result (λ sorted. (before : List (List ℕ)) (begun left : List (List (List ℕ))) (spent : ℕ)
        → WentOn problem.now before begun found.items left spent → (calling : List ℕ)
        → Covers problem.now sorted.items (nodes_of_jobs left) calling ↔ Covers problem.now before (nodes_of_jobs begun) calling) }
{
    each_touch_stands_once();
    partitions_follow_one_another();
    what_is_sorted_is_the_book();
    let sorted = sort_found(alloc, problem, found)?;
    Ok(sorted)
}

/// A copy of what a board found, in the book's order. A search can go on from it and the board's jobs. Err where no
/// memory is left.
pub fn found_in_order(alloc: Global, board: &Board) -> Result<Vec<Calling>, NoMemory>
    ensures same { IfOk result (λ found. IsPermutation board.now.found found.items) }
    ensures goes_on { IfOk result (λ found. CanGoOn board.now.opening.problem found.items (board_jobs board.now)) }
{
    let copy = copy_callings(alloc, board.found())?;
    let found = in_order(alloc, board.opening().problem(), copy)?;
    Ok(found)
}

// The same callings again.
fn copy_callings(alloc: Global, callings: &[Calling]) -> Result<Vec<Calling>, NoMemory>
    ensures { IfOk result (λ copy. copy.items ≡ callings.now) }
{
    let mut copy = Vec::with_capacity(alloc, callings.len())?;
    for calling in callings {
        copy.push(calling.copy(alloc)?)?;
    }
    Ok(copy)
}

/// The jobs of a board: those of the lanes, and then those that are held. Their nodes stay where they are. Err where no
/// memory is left.
pub fn jobs_of(alloc: Global, board: &Board) -> Result<Vec<&[Node]>, NoMemory>
    ensures { IfOk result (λ jobs. jobs_seen jobs.items ≡ board_jobs board.now) }
{
    let mut jobs = Vec::new(alloc);
    add_lanes(&mut jobs, board)?;
    add_held(&mut jobs, board)?;
    Ok(jobs)
}

// Appends a job.
fn add_job<'a>(jobs: &mut Vec<&'a [Node]>, job: &'a LaneJob) -> Result<(), NoMemory>
    ensures { IfOk result (λ _. jobs_seen jobs.new.items ≡ jobs_seen jobs.old.items ++ job.now.nodes ∷ []) }
{
    jobs.push(&job.nodes)?;
    Ok(())
}

// Appends the jobs of a lane.
fn add_lane<'a>(jobs: &mut Vec<&'a [Node]>, lane: &'a [LaneJob]) -> Result<(), NoMemory>
    ensures { IfOk result (λ _. jobs_seen jobs.new.items ≡ jobs_seen jobs.old.items ++ map (λ job. job.nodes) lane.now) }
{
    for job in lane {
        add_job(jobs, job)?;
    }
    Ok(())
}

// Appends the jobs of all lanes.
fn add_lanes<'a>(jobs: &mut Vec<&'a [Node]>, board: &'a Board) -> Result<(), NoMemory>
    ensures { IfOk result (λ _. jobs_seen jobs.new.items ≡ jobs_seen jobs.old.items ++ map (λ job. job.nodes) (flat_map (λ lane. lane) board.now.lanes)) }
{
    for worker in 0..board.opening().workers() {
        add_lane(jobs, board.lane(worker))?;
    }
    Ok(())
}

// Appends the job that a worker holds, if it holds one.
fn add_held_job<'a>(jobs: &mut Vec<&'a [Node]>, held: Option<&'a LaneJob>) -> Result<(), NoMemory>
    ensures { IfOk result (λ _. jobs_seen jobs.new.items ≡ jobs_seen jobs.old.items ++ nodes_held (option_map (λ job. job.now) held.entry)) }
{
    if let Some(job) = held {
        add_job(jobs, job)?;
    }
    Ok(())
}

// Appends the jobs that are held.
fn add_held<'a>(jobs: &mut Vec<&'a [Node]>, board: &'a Board) -> Result<(), NoMemory>
    ensures { IfOk result (λ _. jobs_seen jobs.new.items ≡ jobs_seen jobs.old.items ++ map (λ job. job.nodes) (flat_map held_jobs board.now.held)) }
{
    for worker in 0..board.opening().workers() {
        add_held_job(jobs, board.held(worker))?;
    }
    Ok(())
}
