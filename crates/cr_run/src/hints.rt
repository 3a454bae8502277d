//! Hints from lanes.

ghost use Rattle.std.specs.Prelude.{◌≡◌, ◌<◌, ◌≤◌, ℕ, List, [], length, map, vec_len, All, IfOk, IsTrue};
ghost use Rattle.cr_run.specs.Keys.{IsLast};
ghost use Rattle.cr_run.specs.Keys.{lane_key};

use cr_desk::Hints;
use cr_lanes::{LaneEnd, Lanes, Thief};
use std::sync::Wait;

/// The hints of one worker: the end of its own lane, and a thief that steals from the others.
#[derive(Drop)]
pub struct LaneHints<'a> {
    lanes: &'a Lanes,
    end: LaneEnd,
    thief: Thief,
    last: Option<u64>,
    ghost last_is: { IsLast last end.put },
    ghost lane: { end.lane < length lanes.now },
    ghost theirs: { thief.names ≡ lanes.now },
}

impl<'a> LaneHints<'a> {
    /// The hints of a worker that has put nothing yet.
    pub fn new(lanes: &'a Lanes, end: LaneEnd, thief: Thief) -> LaneHints<'a>
        requires lane { end.lane < length lanes.now }
        requires theirs { thief.names ≡ lanes.now }
        requires nothing { end.put ≡ [] }
        ensures { lane_key result.lanes.now result.end result.thief ≡ lane_key lanes.now end thief }
    {
        LaneHints {
            lanes,
            end,
            thief,
            last: None,
        }
    }

    /// The end and the thief.
    pub fn into_parts(self) -> (LaneEnd, Thief)
        ensures { lane_key self.entry.lanes.now result.0 result.1 ≡ lane_key self.entry.lanes.now self.entry.end self.entry.thief }
    {
        let LaneHints {
            lanes: _,
            end,
            thief,
            last: _,
        } = self;
        (end, thief)
    }
}

impl<'a> Hints for LaneHints<'a> {
    ghost use Rattle.cr_run.specs.Keys.{LaneKey, lane_key};

    ghost Key = { LaneKey };

    ghost key = { λ h. lane_key h.lanes.now h.end h.thief };

    /// Puts a number at the end of the worker's own lane, if it is above all that were put there and the lane has room.
    fn put(&mut self, number: u64) {
        if !is_above(self.last, number) {
            return;
        }
        if let Ok(()) = self.end.put(number) {
            self.last = Some(number);
        }
    }

    /// The last number of the worker's own lane, else the first of the next lane that gives one, counted upwards and round.
    fn next<R: Wait>(&mut self, rt: &R) -> Option<u64> {
        if let Some(number) = self.end.take() {
            return Some(number);
        }
        let workers = self.lanes.workers();
        let own = self.end.lane();
        for step in 1..workers {
            let lane = (own + step) % workers;
            if let Some(number) = self.lanes.steal(rt, &mut self.thief, lane) {
                return Some(number);
            }
        }
        None
    }
}

// Whether a number is above the last one, and so above all that were put.
fn is_above(last: Option<u64>, number: u64) -> bool
    ensures { IsTrue result → (put : List ℕ) → IsLast last put → All (λ x. x < number) put }
{
    match last {
        Some(last) => number > last,
        None => true,
    }
}
