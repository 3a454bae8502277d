//! Taking jobs.

ghost use Rattle.std.specs.Prelude.{◌≡◌, ℕ, ◌+◌, ◌-◌, ◌<◌, ◌≤◌, option_map, sum_by, IfOk, IfSome, OnOk, OnErr, vec_len, vec_capacity};
ghost use Rattle.cr_board.specs.Jobs.{OpeningParts};
ghost use Rattle.cr_board.specs.Boards.{held_at, held_grant, promised};
ghost use Rattle.cr_board.specs.Choices.{refusal_of, refusal_to, next_place, next_answer, answer_by, claim_place, claim_answer, claimed_by, ticket_at, grant_now, waits_for, first_from, is_holding, Stands, UnlessTaken, UnlessClaimed};
ghost use Rattle.cr_board.specs.Partitions.{IsKept};
ghost use Rattle.cr_board.specs.Moves.{taken_at, after_ask, after_next, after_claim};
ghost use Rattle.cr_board.specs.Rooms.{jobs_on, parts_of, holding, HasRoom, HasRooms};

use crate::board::Board;
use crate::copies::copy_nodes;
use crate::entry::Entry;
use crate::held::Held;
use crate::job::Ticket;
use crate::lanes::{put, reserve_lane, take_hold, take_job};
use crate::place::Place;
use crate::places::{first_holding, next_lane, place_of};
use crate::refusal::Refusal;
use crate::state::State;
use crate::taken::{Claimed, Taken};
use cr_row::NoMemory;
use std::alloc::Global;

// The most turns that one take grants.
const MOST_GRANTED: u64 = 4096;

impl Board {
    /// Asks for a worker's next job. The answers are the first that applies; after a job, it has left its lane, the
    /// worker holds it, and the journal has one Take more. After any other answer the board is as it was. Err where no
    /// memory is left, and then the board is as it was.
    pub fn next_job(&mut self, alloc: Global, worker: u32) -> Result<Taken, NoMemory>
        ensures answer { IfOk result (λ taken. taken ≡ next_answer self.old worker) }
        ensures board { OnOk result (self.new ≡ after_next self.old worker) }
        ensures unchanged { IfOk result (λ taken. UnlessTaken taken (self.new ≡ self.old)) }
        ensures err { OnErr result (self.new ≡ self.old) }
    {
        match self.refusal(worker) {
            Some(Refusal::Stranger) => Ok(Taken::Stranger),
            Some(Refusal::Holding(number)) => Ok(Taken::Holding(number)),
            Some(Refusal::Spent) => Ok(Taken::Spent),
            None => self.take_next(alloc, worker),
        }
    }

    /// Asks for the job of a number, from wherever it stands in a lane. The answers are the first that applies; after a
    /// job, it has left its lane, the worker holds it, and the journal has one Take more. After any other answer the
    /// board is as it was. Err where no memory is left, and then the board is as it was.
    pub fn claim(&mut self, alloc: Global, worker: u32, number: u64) -> Result<Claimed, NoMemory>
        ensures answer { IfOk result (λ claimed. claimed ≡ claim_answer self.old worker number) }
        ensures board { OnOk result (self.new ≡ after_claim self.old worker number) }
        ensures unchanged { IfOk result (λ claimed. UnlessClaimed claimed (self.new ≡ self.old)) }
        ensures err { OnErr result (self.new ≡ self.old) }
    {
        match self.refusal(worker) {
            Some(Refusal::Stranger) => Ok(Claimed::Stranger),
            Some(Refusal::Holding(number)) => Ok(Claimed::Holding(number)),
            Some(Refusal::Spent) => Ok(Claimed::Spent),
            None => self.take_claimed(alloc, worker, number),
        }
    }
}

impl Board {
    // The first reason why a worker gets no job, whatever stands in the lanes.
    fn refusal(&self, worker: u32) -> Option<Refusal>
        ensures { result ≡ refusal_of self.now worker }
    {
        if worker >= self.opening.workers() || self.state.resigned[worker as usize] {
            return Some(Refusal::Stranger);
        }
        match &self.state.held[worker as usize] {
            Some(held) => Some(Refusal::Holding(held.job.number)),
            None => self.spent_out(),
        }
    }

    // The refusal of a worker that holds nothing.
    fn spent_out(&self) -> Option<Refusal>
        ensures { result ≡ refusal_to self.now None }
    {
        if self.turns_left() == Some(0) {
            Some(Refusal::Spent)
        } else {
            None
        }
    }

    // What the budget leaves beside what is spent and granted.
    fn turns_left(&self) -> Option<u64>
        ensures is { result ≡ option_map (λ budget. budget - promised self.now) self.now.opening.budget }
        ensures within { IfSome self.now.opening.budget (λ budget. promised self.now ≤ budget) }
    {
        match self.opening.budget() {
            Some(budget) => Some(budget - promised_turns(&self.state, budget)),
            None => None,
        }
    }

    // The grant of the next take.
    fn grant(&self) -> u64
        ensures { result ≡ grant_now self.now }
    {
        match self.turns_left() {
            Some(left) => left.min(MOST_GRANTED),
            None => MOST_GRANTED,
        }
    }

    // The next job of a worker that may take one.
    fn take_next(&mut self, alloc: Global, worker: u32) -> Result<Taken, NoMemory>
        requires { refusal_of self.old worker ≡ None }
        ensures answer { IfOk result (λ taken. taken ≡ answer_by self.old None (next_place self.old worker)) }
        ensures board { OnOk result (self.new ≡ after_ask self.old worker None (next_place self.old worker)) }
        ensures unchanged { IfOk result (λ taken. UnlessTaken taken (self.new ≡ self.old)) }
        ensures err { OnErr result (self.new ≡ self.old) }
    {
        match self.next_place(worker) {
            Some(place) => Ok(Taken::Job(self.take(alloc, worker, place)?)),
            None => Ok(self.waiting()),
        }
    }

    // The job of a number for a worker that may take one.
    fn take_claimed(&mut self, alloc: Global, worker: u32, number: u64) -> Result<Claimed, NoMemory>
        requires { refusal_of self.old worker ≡ None }
        ensures answer { IfOk result (λ claimed. claimed ≡ claimed_by self.old None (claim_place self.old number)) }
        ensures board { OnOk result (self.new ≡ after_ask self.old worker None (claim_place self.old number)) }
        ensures unchanged { IfOk result (λ claimed. UnlessClaimed claimed (self.new ≡ self.old)) }
        ensures err { OnErr result (self.new ≡ self.old) }
    {
        match self.claim_place(number) {
            Some(place) => Ok(Claimed::Job(self.take(alloc, worker, place)?)),
            None => Ok(Claimed::Stale),
        }
    }

    // Where a worker's next job stands.
    fn next_place(&self, worker: u32) -> Option<Place>
        requires { worker < self.now.opening.workers }
        ensures is { result ≡ next_place self.now worker }
        ensures kept { IsKept self.now }
    {
        let own = worker as usize;
        let lane = next_lane(&self.state.lanes, own)?;
        let place = if lane == own {
            self.state.lanes[lane].len() - 1
        } else {
            0
        };
        Some(Place { lane, place })
    }

    // Where the job of a number stands.
    fn claim_place(&self, number: u64) -> Option<Place>
        ensures is { result ≡ claim_place self.now number }
        ensures kept { IsKept self.now }
    {
        place_of(&self.state.lanes, number)
    }

    // What a worker waits for where no lane has a job.
    fn waiting(&self) -> Taken
        ensures { result ≡ waits_for (first_from (is_holding self.now.held) 0 self.now.opening.workers) }
    {
        match first_holding(&self.state.held) {
            Some(worker) => Taken::Wait(worker as u32),
            None => Taken::Empty,
        }
    }

    // Takes the job at a place for a worker that may take one.
    fn take(&mut self, alloc: Global, worker: u32, place: Place) -> Result<Ticket, NoMemory>
        requires free { refusal_of self.old worker ≡ None }
        requires stands { Stands self.old.lanes place }
        ensures ticket { IfOk result (λ ticket. ticket ≡ ticket_at self.old place) }
        ensures board { OnOk result (self.new ≡ taken_at self.old worker place) }
        ensures err { OnErr result (self.new ≡ self.old) }
    {
        let grant = self.grant();
        let job = &self.state.lanes[place.lane][place.place];
        let number = job.number;
        let nodes = copy_nodes(alloc, &job.nodes)?;
        make_room(&mut self.state, worker as usize)?;
        hold(&mut self.state, worker, place, grant);
        Ok(Ticket {
            number,
            grant,
            nodes,
        })
    }
}

// The turns that are spent or granted, which are no more than some number.
fn promised_turns(state: &State, most: u64) -> u64
    requires { state.now.spent + sum_by held_grant state.now.held.items ≤ most }
    ensures { result ≡ state.now.spent + sum_by held_grant state.now.held.items }
{
    let mut turns = state.spent as u64;
    for held in &state.held {
        turns += grant_of(held);
    }
    turns
}

// The grant of what a worker holds, if anything.
fn grant_of(held: &Option<Held>) -> u64
    ensures { result ≡ held_grant held.now }
{
    match held {
        Some(held) => held.grant,
        None => 0,
    }
}

// Makes the room that a worker's take and its Back need. Err where no memory is left.
fn make_room(state: &mut State, worker: usize) -> Result<(), NoMemory>
    requires { worker < vec_len state.old.lanes }
    ensures same { (o : OpeningParts) → parts_of o state.new ≡ parts_of o state.old }
    ensures kept { HasRooms state.old → HasRooms state.new }
    ensures lane { OnOk result (HasRoom state.new.lanes.items worker 1) }
    ensures journal { OnOk result (vec_len state.new.journal + holding state.new.held.items + 2 ≤ vec_capacity state.new.journal) }
{
    reserve_lane(&mut state.lanes, worker, 1)?;
    state.journal.reserve(state.held.len() + 2)?;
    Ok(())
}

// Moves the job at a place to a worker, with a grant, and tells the journal.
fn hold(state: &mut State, worker: u32, place: Place, grant: u64)
    requires worker { worker < vec_len state.old.held }
    requires idle { held_at state.old.held.items worker ≡ None }
    requires stands { Stands (jobs_on state.old.lanes.items) place }
    requires few { vec_len state.old.lanes ≤ 64 }
    requires lane { HasRoom state.old.lanes.items worker 1 }
    requires journal { vec_len state.old.journal + holding state.old.held.items + 2 ≤ vec_capacity state.old.journal }
    requires rooms { HasRooms state.old }
    ensures is { (o : OpeningParts) → grant ≡ grant_now (parts_of o state.old) → parts_of o state.new ≡ taken_at (parts_of o state.old) worker place }
    ensures rooms { HasRooms state.new }
{
    let job = take_job(&mut state.lanes, place);
    let entry = Entry::Take {
        worker,
        lane: place.lane as u32,
        job: job.number,
        grant,
    };
    put(&mut state.journal, entry);
    take_hold(&mut state.held, worker as usize, Held { job, grant });
}
