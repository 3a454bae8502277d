//! Where jobs stand, and who holds one.

ghost use Rattle.std.specs.Prelude.{◌≡◌, ℕ, ◌<◌, ◌≤◌, length, find, option_map, IfSome};
ghost use Rattle.cr_board.specs.Boards.{lane_at};
ghost use Rattle.cr_board.specs.Choices.{is_busy, is_holding, has_number, place_in, place_at, round, first_from};
ghost use Rattle.cr_board.specs.Rooms.{jobs_on};

use crate::held::Held;
use crate::job::LaneJob;
use crate::place::Place;

/// The first lane that has a job, from one lane on and before another.
pub fn first_busy(lanes: &[Vec<LaneJob>], from: usize, end: usize) -> Option<usize>
    requires { end ≤ length lanes.now }
    ensures { result ≡ first_from (is_busy (jobs_on lanes.now)) from end }
{
    for lane in from..end {
        if !lanes[lane].is_empty() {
            return Some(lane);
        }
    }
    None
}

/// The lane of a worker's next job: its own where that has a job, else the next one that has, upwards and round.
pub fn next_lane(lanes: &[Vec<LaneJob>], worker: usize) -> Option<usize>
    requires { worker < length lanes.now }
    ensures { result ≡ find (is_busy (jobs_on lanes.now)) (round worker (length lanes.now)) }
{
    match first_busy(lanes, worker, lanes.len()) {
        Some(lane) => Some(lane),
        None => first_busy(lanes, 0, worker),
    }
}

/// The least worker that holds a job.
pub fn first_holding(held: &[Option<Held>]) -> Option<usize>
    ensures is { result ≡ first_from (is_holding held.now) 0 (length held.now) }
    ensures inside { IfSome result (λ worker. worker < length held.now) }
{
    for worker in 0..held.len() {
        if held[worker].is_some() {
            return Some(worker);
        }
    }
    None
}

/// The place of a lane's job of this number.
pub fn place_in(lane: &[LaneJob], number: u64) -> Option<usize>
    ensures { result ≡ place_in lane.now number }
{
    for place in 0..lane.len() {
        let job = &lane[place];
        if job.number == number {
            return Some(place);
        }
    }
    None
}

// The first lane where a job has this number.
fn lane_with(lanes: &[Vec<LaneJob>], number: u64) -> Option<usize>
    ensures is { result ≡ first_from (has_number (jobs_on lanes.now) number) 0 (length lanes.now) }
    ensures inside { IfSome result (λ lane. lane < length lanes.now) }
{
    for lane in 0..lanes.len() {
        if place_in(&lanes[lane], number).is_some() {
            return Some(lane);
        }
    }
    None
}

/// The place of the job of this number.
pub fn place_of(lanes: &[Vec<LaneJob>], number: u64) -> Option<Place>
    ensures { result ≡ place_at (jobs_on lanes.now) number (first_from (has_number (jobs_on lanes.now) number) 0 (length lanes.now)) }
{
    let lane = lane_with(lanes, number)?;
    let place = place_in(&lanes[lane], number)?;
    Some(Place { lane, place })
}
