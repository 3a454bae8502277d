//! Lanes, from their opening to their close.

ghost use Rattle.std.specs.Prelude.{◌≡◌, ◌<◌, ◌≤◌, ℕ, List, [], ◌∷◌, ◌++◌, length, map, replicate, slice_index_or, slice_set, sum_by, vec_len, All, IfOk, IfNone, IfSome, OnOk, MatchOption};
ghost use Rattle.std.specs.List.{range_with_len};
ghost use Rattle.cr_lanes.specs.Steps.{HeldAtMost, ThiefKnows};
ghost use Rattle.crossbeam_deque.specs.Handles.{stealer_deque};
ghost use Rattle.cr_lanes.specs.Ends.{EndParts, IsNewEnd, lent_by};
ghost use Rattle.cr_lanes.specs.Lanes.{AreAll};

use crate::end::{Front, LaneEnd};
use crate::thief::Thief;
use cr_row::NoMemory;
use std::alloc::Global;
use std::marker::Model;
use std::sync::Wait;

/// Lanes of numbers: each has an end, at which its owner puts numbers and takes the last one, and thieves take the first.
#[derive(Drop)]
pub struct Lanes {
    fronts: Vec<Front>,
}

impl Model for Lanes {
    ghost use Rattle.std.specs.Prelude.{List, ◌≤◌, length, map};
    ghost use Rattle.crossbeam_deque.specs.Handles.{stealer_deque};
    ghost use Rattle.cr_lanes.specs.Ends.{LaneName};

    ghost Value = { List LaneName };

    ghost view = { λ l. map stealer_deque l.fronts.items };

    ghost invariant = { λ l. length l.fronts.items ≤ 64 };
}

impl Lanes {
    /// A lane for each worker, with room for so many numbers; the ends of the lanes, in their order; and as many thieves,
    /// each of which can steal from every lane. Nothing is put, taken or stolen. Err where no memory is left.
    pub fn new(
        alloc: Global,
        workers: u32,
        room: u64,
    ) -> Result<(Lanes, Vec<LaneEnd>, Vec<Thief>), NoMemory>
        requires workers { (1 ≤ workers) × (workers ≤ 64) }
        requires room { (1 ≤ room) × (room ≤ 65536) }
        ensures lanes { IfOk result (λ made. length made.0 ≡ workers) }
        ensures ends { IfOk result (λ made. map (λ e. e.name) made.1.items ≡ made.0) }
        ensures numbers { IfOk result (λ made. map (λ e. e.lane) made.1.items ≡ range_with_len 0 workers) }
        ensures new { IfOk result (λ made. All (IsNewEnd room workers) made.1.items) }
        ensures thieves { IfOk result (λ made. vec_len made.2 ≡ workers) }
        ensures theirs { IfOk result (λ made. All (λ t. t.names ≡ made.0) made.2.items) }
        ensures nothing { IfOk result (λ made. All (λ t. t.stolen ≡ replicate workers []) made.2.items) }
    {
        let (fronts, mut ends) = open_ends(alloc, workers, room)?;
        let thieves = thieves_of(alloc, workers, &mut ends)?;
        Ok((Lanes { fronts }, ends, thieves))
    }

    /// How many lanes there are: one for each worker.
    pub fn workers(&self) -> u32
        ensures count { result ≡ length self.now }
        ensures few { result ≤ 64 }
    {
        self.fronts.len() as u32
    }

    /// Steals the first number of a lane, which is greater than all that this thief stole from it before: so each thief
    /// finds a lane's numbers in the order in which they were put. It tries again while others take, and so may wait. None
    /// where the lane held at most one number at one moment of the call, the one that its end was taking; of this a clause
    /// can say only that by the rule of lanes one that holds so few may have such a thief. Then nothing is changed.
    pub fn steal<R: Wait>(&self, rt: &R, thief: &mut Thief, lane: u32) -> Option<u64>
        requires thief { thief.old.names ≡ self.now }
        requires lane { lane < length self.now }
        ensures names { thief.new.names ≡ thief.old.names }
        ensures stolen { MatchOption result (thief.new.stolen ≡ thief.old.stolen) (λ x. thief.new.stolen ≡ slice_set thief.old.stolen lane (slice_index_or thief.old.stolen lane [] ++ x ∷ [])) }
        ensures above { IfSome result (λ x. All (λ y. y < x) (slice_index_or thief.old.stolen lane [])) }
        ensures none { IfNone result (HeldAtMost 1 (ThiefKnows (slice_index_or thief.old.stolen lane []))) }
    {
        let lane = lane as usize;
        let front = &self.fronts[lane];
        thief.steal(rt, front, lane)
    }

    /// Takes all ends and thieves of these lanes back, and tells how many numbers are left in all lanes: of each lane, the
    /// numbers that were put are those that are left, those that its end took and those that were stolen, each once. No
    /// memory is taken.
    pub fn close(self, ends: Vec<LaneEnd>, thieves: Vec<Thief>) -> u64
        requires ends { map (λ e. e.name) ends.items ≡ self }
        requires thieves { All (λ t. t.names ≡ self) thieves.items }
        requires all { All (λ e. e.lent ≡ vec_len thieves) ends.items }
        requires none { All (λ e. e.gone ≡ []) ends.items }
        ensures { (left : List (List ℕ)) × AreAll ends.items thieves.items left × (result ≡ sum_by length left) }
    {
        let _ = &self.fronts;
        let mut ends = ends;
        for thief in thieves {
            thief.give_back(&mut ends);
        }
        let mut left = 0;
        for end in ends {
            left += end.left();
        }
        left
    }
}

// The ends of new lanes, and a handle on the front of each.
fn open_ends(alloc: Global, workers: u32, room: u64) -> Result<(Vec<Front>, Vec<LaneEnd>), NoMemory>
    requires { room ≤ 65536 }
    ensures count { IfOk result (λ made. length made.1.items ≡ workers) }
    ensures names { IfOk result (λ made. map stealer_deque made.0.items ≡ map (λ e. e.name) made.1.items) }
    ensures numbers { IfOk result (λ made. map (λ e. e.lane) made.1.items ≡ range_with_len 0 workers) }
    ensures new { IfOk result (λ made. All (IsNewEnd room 0) made.1.items) }
{
    let mut fronts = Vec::new(alloc);
    let mut ends = Vec::new(alloc);
    for lane in 0..workers {
        let end = LaneEnd::new(alloc, lane, room)?;
        fronts.push(end.front()?)?;
        ends.push(end)?;
    }
    Ok((fronts, ends))
}

// So many thieves of the lanes of these ends.
fn thieves_of(alloc: Global, workers: u32, ends: &mut Vec<LaneEnd>) -> Result<Vec<Thief>, NoMemory>
    ensures count { IfOk result (λ thieves. vec_len thieves ≡ workers) }
    ensures theirs { IfOk result (λ thieves. All (λ t. t.names ≡ map (λ e. e.name) ends.old.items) thieves.items) }
    ensures nothing { IfOk result (λ thieves. All (λ t. t.stolen ≡ replicate (vec_len ends.old) []) thieves.items) }
    ensures len { OnOk result (vec_len ends.new ≡ vec_len ends.old) }
    ensures each { OnOk result ((k : ℕ) (d : EndParts) → k < vec_len ends.old → slice_index_or ends.new.items k d ≡ lent_by workers (slice_index_or ends.old.items k d)) }
{
    let mut thieves = Vec::new(alloc);
    for _ in 0..workers {
        let thief = Thief::new(alloc, ends)?;
        thieves.push(thief)?;
    }
    Ok(thieves)
}
