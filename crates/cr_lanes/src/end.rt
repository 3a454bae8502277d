//! The end of a lane, which its owner has.

ghost use Rattle.std.specs.Prelude.{◌≡◌, ◌+◌, ◌-◌, ◌<◌, ◌≤◌, ℕ, List, [], ◌∷◌, ◌++◌, length, All, IfOk, IfNone, IfSome, MatchOption, MatchResult};
ghost use Rattle.crossbeam_deque.specs.Handles.{view, IsPassOf, stealer_deque};
ghost use Rattle.cr_lanes.specs.Lane.{times, Ascends, untaken, thief, IsThiefs, IsGreatest};
ghost use Rattle.cr_lanes.specs.Steps.{HeldAtMost};
ghost use Rattle.cr_lanes.specs.Ends.{EndKnows, IsNewEnd, lent_more, taken_back};

use crate::known::Known;
use crate::rule::{Lane, Lends, Puts, Remaining, Returns, Takes};
use cr_row::NoMemory;
use crossbeam_deque::{Pass, Stealer, Worker};
use std::alloc::Global;
use std::marker::Model;

/// A number that was not put, given back: the end has already put as many as its lane has room for.
#[derive(Debug, Drop, Clone, Copy, PartialEq, Eq)]
pub struct Full(pub u64);

/// A handle on the front of a lane, where thieves take.
pub(crate) type Front = Stealer<u64, Global, Known, Lane>;

/// The end of a lane, at which its owner puts numbers and takes the last one.
#[derive(Drop)]
pub struct LaneEnd {
    worker: Worker<u64, Global, Known, Lane>,
    lane: u32,
    room: u64,
    count: u64,
}

impl Model for LaneEnd {
    ghost use Rattle.crossbeam_deque.specs.Handles.{worker_deque, worker_view};
    ghost use Rattle.cr_lanes.specs.Ends.{EndParts, end_parts};

    ghost Value = { EndParts };

    ghost use Rattle.cr_lanes.specs.EndInvariant.{IsEnd};

    ghost view = { λ e. end_parts (worker_deque e.worker) e.lane e.room (worker_view e.worker) };

    ghost invariant = { IsEnd };
}

impl LaneEnd {
    /// The end of a new lane. Err where no memory is left.
    pub(crate) fn new(alloc: Global, lane: u32, room: u64) -> Result<LaneEnd, NoMemory>
        requires { room ≤ 65536 }
        ensures lane { IfOk result (λ e. e.lane ≡ lane) }
        ensures new { IfOk result (IsNewEnd room 0) }
    {
        let worker = Worker::<u64, Global, Known, Lane>::lifo_as(alloc, room as usize)?;
        Ok(LaneEnd {
            worker,
            lane,
            room,
            count: 0,
        })
    }

    /// The number of the lane.
    pub fn lane(&self) -> u32
        ensures { result ≡ self.now.lane }
    {
        self.lane
    }

    /// Puts a number, which is greater than all that this end has put before, behind the others in the lane. Full, with the
    /// number, exactly where this end has put as many as the lane has room for, wherever these are now; then nothing is
    /// changed. No memory is taken.
    pub fn put(&mut self, number: u64) -> Result<(), Full>
        requires { All (λ x. x < number) self.old.put }
        ensures put { MatchResult result (λ _. self.new ≡ record self.old { put = self.old.put ++ number ∷ [] }) (λ full. (full ≡ record { 0 = number }) × (self.new ≡ self.old)) }
        ensures full { MatchResult result (λ _. length self.old.put < self.old.room) (λ _. length self.old.put ≡ self.old.room) }
    {
        if self.count >= self.room {
            return Err(Full(number));
        }
        match self.worker.push_as::<Puts>(number) {
            Ok(()) => {
                self.count += 1;
                Ok(())
            }
            Err(_) => unreachable!(),
        }
    }

    /// Takes the last number of the lane, which is the greatest that this end has put and not taken before. None where the
    /// lane held nothing at one moment of the call; of this a clause can say only that by the rule of lanes one that holds
    /// nothing may have such an end. Then nothing is changed.
    pub fn take(&mut self) -> Option<u64>
        ensures taken { MatchOption result (self.new ≡ self.old) (λ x. self.new ≡ record self.old { taken = self.old.taken ++ x ∷ [] }) }
        ensures last { IfSome result (λ x. IsGreatest x (untaken self.old.put self.old.taken)) }
        ensures none { IfNone result (HeldAtMost 0 (EndKnows self.old)) }
    {
        self.worker.pop_as::<Takes>()
    }

    /// A handle on the front of the lane. Err where no memory is left.
    pub(crate) fn front(&self) -> Result<Front, NoMemory>
        ensures { IfOk result (λ s. stealer_deque s ≡ self.now.name) }
    {
        Ok(self.worker.stealer()?)
    }

    /// Makes the pass of a thief, which has stolen nothing.
    pub(crate) fn lend(&mut self) -> Pass<u64, Known>
        ensures pass { IsPassOf self.old.name result × (view result ≡ thief []) }
        ensures lent { self.new ≡ lent_more self.old }
    {
        self.worker.another::<Lends>()
    }

    /// Takes the pass of a thief back.
    pub(crate) fn take_back(&mut self, pass: Pass<u64, Known>)
        requires table { IsPassOf self.old.name pass }
        requires thief { IsThiefs (view pass) }
        ensures { self.new ≡ taken_back self.old (view pass).stolen }
    {
        self.worker.absorb::<Returns>(pass);
    }

    /// How many numbers are left in the lane, once all passes of thieves are back.
    pub(crate) fn left(self) -> u64
        requires { self.lent ≡ 0 }
        ensures few { result ≤ 65536 }
        ensures rises { Ascends self.put }
        ensures left { (items : List ℕ) × (length items ≡ result) × ((x : ℕ) → times x self.put ≡ times x items + times x self.taken + times x self.gone) }
    {
        let LaneEnd {
            mut worker,
            lane: _,
            room: _,
            count: _,
        } = self;
        worker.len_as::<Remaining>() as u64
    }
}
