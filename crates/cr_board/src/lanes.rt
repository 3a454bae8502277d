//! Work on lanes and on what is held, without a word on the rest of the board.

ghost use Rattle.std.specs.Prelude.{◌≡◌, ◌≢◌, ℕ, ◌+◌, ◌<◌, ◌≤◌, [], ◌∷◌, ◌++◌, None, Some, length, set, get_or, remove, replicate, IfOk, OnOk, vec_len, vec_capacity};
ghost use Rattle.cr_board.specs.Boards.{lane_at, held_at};
ghost use Rattle.cr_board.specs.Choices.{job_at};
ghost use Rattle.cr_board.specs.Rooms.{jobs_on, HasRoom};

use crate::held::Held;
use crate::job::LaneJob;
use crate::place::Place;
use cr_row::NoMemory;
use std::alloc::Global;
use std::mem;

/// Appends an item to a list that has room for it.
pub fn put<T: Drop>(list: &mut Vec<T>, item: T)
    requires { vec_len list.old < vec_capacity list.old }
    ensures items { list.new.items ≡ list.old.items ++ item ∷ [] }
    ensures len { vec_len list.new ≡ vec_len list.old + 1 }
    ensures room { vec_capacity list.old ≤ vec_capacity list.new }
{
    match list.push(item) {
        Ok(()) => (),
        Err(_) => unreachable!(),
    }
}

/// So many lanes, of which the first has these jobs. Err where no memory is left.
pub fn lanes_from(
    alloc: Global,
    workers: usize,
    first: Vec<LaneJob>,
) -> Result<Vec<Vec<LaneJob>>, NoMemory>
    requires { 1 ≤ workers }
    ensures { IfOk result (λ lanes. jobs_on lanes.items ≡ set (replicate workers []) 0 first.items) }
{
    let mut lanes = Vec::with_capacity(alloc, workers)?;
    lanes.push(first)?;
    for _ in 1..workers {
        lanes.push(Vec::new(alloc))?;
    }
    Ok(lanes)
}

/// So many workers that hold nothing. Err where no memory is left.
pub fn no_holdings(alloc: Global, workers: usize) -> Result<Vec<Option<Held>>, NoMemory>
    ensures { IfOk result (λ held. held.items ≡ replicate workers None) }
{
    let mut held = Vec::with_capacity(alloc, workers)?;
    for _ in 0..workers {
        held.push(None)?;
    }
    Ok(held)
}

/// Takes the job at a place out of its lane.
pub fn take_job(lanes: &mut Vec<Vec<LaneJob>>, place: Place) -> LaneJob
    requires lane { place.lane < vec_len lanes.old }
    requires inside { place.place < length (lane_at (jobs_on lanes.old.items) place.lane) }
    ensures job { result ≡ job_at (jobs_on lanes.old.items) place }
    ensures lanes { jobs_on lanes.new.items ≡ set (jobs_on lanes.old.items) place.lane (remove (lane_at (jobs_on lanes.old.items) place.lane) place.place) }
    ensures room { (lane more : ℕ) → HasRoom lanes.old.items lane more → HasRoom lanes.new.items lane more }
{
    lanes[place.lane].remove(place.place)
}

/// Makes room for so many jobs more in a lane. The room of all lanes stays. Err where no memory is left.
pub fn reserve_lane(
    lanes: &mut Vec<Vec<LaneJob>>,
    worker: usize,
    more: usize,
) -> Result<(), NoMemory>
    requires { worker < vec_len lanes.old }
    ensures same { jobs_on lanes.new.items ≡ jobs_on lanes.old.items }
    ensures kept { (lane some : ℕ) → HasRoom lanes.old.items lane some → HasRoom lanes.new.items lane some }
    ensures room { OnOk result (HasRoom lanes.new.items worker more) }
{
    lanes[worker].reserve(more)?;
    Ok(())
}

/// Puts a job at the end of a lane that has room for it.
pub fn push_job(lanes: &mut Vec<Vec<LaneJob>>, worker: usize, job: LaneJob)
    requires inside { worker < vec_len lanes.old }
    requires room { HasRoom lanes.old.items worker 1 }
    ensures lanes { jobs_on lanes.new.items ≡ set (jobs_on lanes.old.items) worker (lane_at (jobs_on lanes.old.items) worker ++ job ∷ []) }
    ensures others { (lane more : ℕ) → lane ≢ worker → HasRoom lanes.old.items lane more → HasRoom lanes.new.items lane more }
    ensures own { (more : ℕ) → HasRoom lanes.old.items worker (more + 1) → HasRoom lanes.new.items worker more }
    ensures len { vec_len lanes.new ≡ vec_len lanes.old }
{
    put(&mut lanes[worker], job);
}

/// Lets a worker hold a job.
pub fn take_hold(held: &mut Vec<Option<Held>>, worker: usize, mine: Held)
    requires { worker < vec_len held.old }
    ensures { held.new.items ≡ set held.old.items worker (Some mine) }
{
    held[worker] = Some(mine);
}

/// Takes from a worker what it holds.
pub fn let_go(held: &mut Vec<Option<Held>>, worker: usize) -> Option<Held>
    requires { worker < vec_len held.old }
    ensures is { result ≡ held_at held.old.items worker }
    ensures held { held.new.items ≡ set held.old.items worker None }
    ensures len { vec_len held.new ≡ vec_len held.old }
{
    mem::replace(&mut held[worker], None)
}
