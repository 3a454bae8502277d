//! A board taken apart.

ghost use Rattle.std.specs.Prelude.{◌≡◌, ◌∷◌, ◌++◌, [], map, flat_map, reverse, IfOk};
ghost use Rattle.cr_board.specs.Boards.{held_jobs, jobs_in, jobs_of};
ghost use Rattle.cr_board.specs.Partitions.{IsKept};
ghost use Rattle.cr_board.specs.Rooms.{jobs_on, nodes_on};

use crate::board::Board;
use crate::held::Held;
use crate::job::LaneJob;
use crate::opening::Opening;
use crate::state::State;
use cr_model::Calling;
use cr_node::Node;
use cr_row::NoMemory;
use std::alloc::Global;

/// What a board had when it was taken apart: from what it was opened, what it found, and its jobs.
#[derive(Drop)]
pub struct Parts {
    /// From what the board was opened.
    pub opening: Opening,
    /// The touches that were found, in the board's order.
    pub found: Vec<Calling>,
    /// The jobs of the lanes, in the order of the workers, and then those that are held, each a list of nodes.
    pub jobs: Vec<Vec<Node>>,
}

impl Board {
    /// Takes the board apart. What it found and the nodes of its jobs are moved, and not copied; only the list of the
    /// jobs is made anew. Err where no memory is left for it.
    pub fn into_parts(self, alloc: Global) -> Result<Parts, NoMemory>
        ensures opening { IfOk result (λ parts. parts.opening ≡ self.opening) }
        ensures found { IfOk result (λ parts. parts.found.items ≡ self.found) }
        ensures jobs { IfOk result (λ parts. map (λ job. job.items) parts.jobs.items ≡ map (λ job. job.nodes) (jobs_of self)) }
        ensures kept { IsKept self }
    {
        let Board { opening, state } = self;
        let State {
            lanes,
            held,
            resigned: _,
            found,
            spent: _,
            next: _,
            journal: _,
        } = state;
        let jobs = moved_jobs(alloc, lanes, held)?;
        Ok(Parts {
            opening,
            found,
            jobs,
        })
    }
}

// The jobs of all lanes, and then those that are held.
fn moved_jobs(
    alloc: Global,
    lanes: Vec<Vec<LaneJob>>,
    held: Vec<Option<Held>>,
) -> Result<Vec<Vec<Node>>, NoMemory>
    ensures { IfOk result (λ jobs. nodes_on jobs.items ≡ map (λ job. job.nodes) (jobs_in (jobs_on lanes.items) held.items)) }
{
    let mut jobs = Vec::new(alloc);
    move_held(&mut jobs, held)?;
    move_lanes(&mut jobs, lanes)?;
    jobs.reverse();
    Ok(jobs)
}

// Appends the nodes of a job.
fn move_job(jobs: &mut Vec<Vec<Node>>, job: LaneJob) -> Result<(), NoMemory>
    ensures { IfOk result (λ _. nodes_on jobs.new.items ≡ nodes_on jobs.old.items ++ job.nodes ∷ []) }
{
    let LaneJob { number: _, nodes } = job;
    jobs.push(nodes)?;
    Ok(())
}

// Appends the jobs of a lane, the last first.
fn move_lane(jobs: &mut Vec<Vec<Node>>, mut lane: Vec<LaneJob>) -> Result<(), NoMemory>
    ensures { IfOk result (λ _. nodes_on jobs.new.items ≡ nodes_on jobs.old.items ++ reverse (map (λ job. job.nodes) lane.items)) }
{
    while let Some(job) = lane.pop() {
        move_job(jobs, job)?;
    }
    Ok(())
}

// Appends the jobs of all lanes, the last first.
fn move_lanes(jobs: &mut Vec<Vec<Node>>, mut lanes: Vec<Vec<LaneJob>>) -> Result<(), NoMemory>
    ensures { IfOk result (λ _. nodes_on jobs.new.items ≡ nodes_on jobs.old.items ++ reverse (map (λ job. job.nodes) (flat_map (λ lane. lane) (jobs_on lanes.items)))) }
{
    while let Some(lane) = lanes.pop() {
        move_lane(jobs, lane)?;
    }
    Ok(())
}

// Appends the job that a worker holds, if it holds one.
fn move_held_job(jobs: &mut Vec<Vec<Node>>, held: Option<Held>) -> Result<(), NoMemory>
    ensures { IfOk result (λ _. nodes_on jobs.new.items ≡ nodes_on jobs.old.items ++ reverse (map (λ job. job.nodes) (held_jobs held))) }
{
    if let Some(held) = held {
        let Held { job, grant: _ } = held;
        move_job(jobs, job)?;
    }
    Ok(())
}

// Appends the jobs that are held, the last worker's first.
fn move_held(jobs: &mut Vec<Vec<Node>>, mut held: Vec<Option<Held>>) -> Result<(), NoMemory>
    ensures { IfOk result (λ _. nodes_on jobs.new.items ≡ nodes_on jobs.old.items ++ reverse (map (λ job. job.nodes) (flat_map held_jobs held.items))) }
{
    while let Some(mine) = held.pop() {
        move_held_job(jobs, mine)?;
    }
    Ok(())
}
