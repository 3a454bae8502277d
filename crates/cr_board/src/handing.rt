//! Handing in finished work.

ghost use Rattle.std.specs.Prelude.{◌≡◌, ◌≢◌, ℕ, ◌+◌, ◌^◌, ◌<◌, ◌≤◌, ◌++◌, length, set, option_map, IfOk, IfErr, IsTrue, OnOk, vec_len, vec_capacity};
ghost use Rattle.cr_node.specs.Work.{Work};
ghost use Rattle.cr_board.specs.Jobs.{OpeningParts, numbered};
ghost use Rattle.cr_board.specs.Boards.{lane_at, held_at};
ghost use Rattle.cr_board.specs.Choices.{is_holding};
ghost use Rattle.cr_board.specs.Partitions.{IsKept};
ghost use Rattle.cr_board.specs.Moves.{IsDue, Judges, HandsIn, handed_in, halves, opened_jobs};
ghost use Rattle.cr_board.specs.Rooms.{jobs_on, parts_of, HasRoom, HasRooms, HasHandRoom, IsHanding};

use crate::board::Board;
use crate::entry::Entry;
use crate::handed::Handed;
use crate::held::Held;
use crate::job::LaneJob;
use crate::lanes::{let_go, push_job, put, reserve_lane};
use crate::opened::{Handing, Opened, halve};
use crate::same::same_nodes;
use crate::state::State;
use crate::verdict::Verdict;
use cr_model::Calling;
use cr_model::laws::a_split_among_others;
use cr_node::{Done, DoneParts};
use cr_row::NoMemory;

impl Board {
    /// Hands in finished work on the job of a number that a worker holds. Where it is taken, the found touches are
    /// appended to those of the board, the turns are spent, and the worker holds nothing. The nodes that are left are
    /// opened as new jobs at the end of the worker's own lane: none, one of one node, or two halves of which the second
    /// has the odd node. The journal has one Hand more. After any other answer the board is as it was, and the work
    /// comes back.
    pub fn hand_in(&mut self, worker: u32, number: u64, done: Done) -> Handed
        ensures { HandsIn self.old worker number done result self.new }
    {
        match self.judge(worker, number, &done) {
            Verdict::NotHeld(other) => Handed::NotHeld(done, other),
            Verdict::OtherProblem => Handed::OtherProblem(done),
            Verdict::OtherJob => Handed::OtherJob(done, number),
            Verdict::Over(grant) => Handed::Over(done, grant),
            Verdict::Due => self.accept(worker, number, done),
        }
    }

    // What finished work on the job of a number deserves.
    fn judge(&self, worker: u32, number: u64, done: &Done) -> Verdict
        ensures { Judges self.now worker number done.now result }
    {
        let Some(held) = self.held_by(worker) else {
            return Verdict::NotHeld(None);
        };
        let job = &held.job;
        if job.number != number {
            return Verdict::NotHeld(Some(job.number));
        }
        if !self.opening.problem().same(done.problem()) {
            return Verdict::OtherProblem;
        }
        if !same_nodes(done.job(), &job.nodes) {
            return Verdict::OtherJob;
        }
        if done.used() > held.grant {
            return Verdict::Over(held.grant);
        }
        Verdict::Due
    }

    /// What a worker of any number holds.
    pub(crate) fn held_by(&self, worker: u32) -> Option<&Held>
        ensures is { option_map (λ held. held.now) result ≡ held_at self.now.held worker }
        ensures kept { IsKept self.now }
    {
        match self.state.held.get(worker as usize) {
            Some(Some(held)) => Some(held),
            Some(None) => None,
            None => None,
        }
    }

    // Takes finished work that deserves it.
    fn accept(&mut self, worker: u32, number: u64, done: Done) -> Handed
        requires { IsDue self.old worker number done }
        ensures is { HandsIn self.old worker number done result self.new }
        ensures numbers { result ≡ Handed.In → self.old.next + 2 < 2 ^ 64 }
        ensures turns { result ≡ Handed.In → self.old.spent + 2 ^ 64 ≤ 2 ^ 128 }
    {
        a_split_among_others();
        if make_hand_room(&mut self.state, worker as usize, done.found().len()).is_err() {
            return Handed::NoMemory(done);
        }
        match take_apart(done) {
            Ok(handing) => {
                hand_over(&mut self.state, worker, number, handing);
                Handed::In
            }
            Err(done) => Handed::NoMemory(done),
        }
    }
}

// What of finished work is handed in. The work comes back where no memory is left.
fn take_apart(done: Done) -> Result<Handing, Done>
    ensures used { IfOk result (λ handing. handing.used ≡ done.used) }
    ensures found { IfOk result (λ handing. handing.found.items ≡ done.found) }
    ensures opened { IfOk result (λ handing. opened_jobs handing.opened ≡ halves done.rest) }
    ensures back { IfErr result (λ back. back ≡ done) }
{
    let DoneParts {
        problem,
        job,
        found,
        rest,
        used,
    } = done.into_parts();
    match halve(rest) {
        Ok(opened) => Ok(Handing {
            used,
            found,
            opened,
        }),
        Err(rest) => Err(Done::new(problem, job, found, rest, used)),
    }
}

// Makes the room that a hand-in needs beside the room of a Back. Err where no memory is left, and where numbers or turns
// would not fit, which no memory could hold a journal for.
fn make_hand_room(state: &mut State, worker: usize, touches: usize) -> Result<(), NoMemory>
    requires { worker < vec_len state.old.lanes }
    ensures same { (o : OpeningParts) → parts_of o state.new ≡ parts_of o state.old }
    ensures kept { HasRooms state.old → HasRooms state.new }
    ensures room { OnOk result (HasHandRoom state.new worker touches) }
{
    if state.next > u64::MAX - 2 || state.spent > u128::MAX - u128::from(u64::MAX) {
        return Err(NoMemory);
    }
    state.found.reserve(touches)?;
    reserve_lane(&mut state.lanes, worker, 2)?;
    Ok(())
}

// Moves what is handed in to where it belongs, and tells the journal.
fn hand_over(state: &mut State, worker: u32, number: u64, handing: Handing)
    requires worker { worker < vec_len state.old.held }
    requires lane { worker < vec_len state.old.lanes }
    requires holds { IsTrue (is_holding state.old.held.items worker) }
    requires rooms { HasRooms state.old }
    requires room { HasHandRoom state.old worker (vec_len handing.found) }
    ensures is { (o : OpeningParts) (work : Work) → IsHanding handing work → parts_of o state.new ≡ handed_in (parts_of o state.old) worker number work }
    ensures rooms { HasRooms state.new }
{
    let Handing {
        used,
        found,
        opened,
    } = handing;
    let_go(&mut state.held, worker as usize);
    let touches = found.len() as u64;
    append(&mut state.found, found);
    let opened = push_opened(&mut state.lanes, worker as usize, state.next, opened);
    let entry = Entry::Hand {
        worker,
        job: number,
        used,
        touches,
        opened,
    };
    put(&mut state.journal, entry);
    state.next += opened;
    state.spent += u128::from(used);
}

// Puts new jobs at the end of a lane that has room for them, and tells how many.
fn push_opened(lanes: &mut Vec<Vec<LaneJob>>, worker: usize, next: u64, opened: Opened) -> u64
    requires inside { worker < vec_len lanes.old }
    requires room { HasRoom lanes.old.items worker 2 }
    requires next { next + 2 < 2 ^ 64 }
    ensures count { result ≡ length (opened_jobs opened) }
    ensures lanes { jobs_on lanes.new.items ≡ set (jobs_on lanes.old.items) worker (lane_at (jobs_on lanes.old.items) worker ++ numbered next (opened_jobs opened)) }
    ensures others { (lane more : ℕ) → lane ≢ worker → HasRoom lanes.old.items lane more → HasRoom lanes.new.items lane more }
{
    match opened {
        Opened::Nothing => 0,
        Opened::Whole(nodes) => {
            push_job(
                lanes,
                worker,
                LaneJob {
                    number: next,
                    nodes,
                },
            );
            1
        }
        Opened::Halves(first, second) => {
            let number = next + 1;
            push_job(
                lanes,
                worker,
                LaneJob {
                    number: next,
                    nodes: first,
                },
            );
            push_job(
                lanes,
                worker,
                LaneJob {
                    number,
                    nodes: second,
                },
            );
            2
        }
    }
}

// Appends touches to a list that has room for them.
fn append(found: &mut Vec<Calling>, more: Vec<Calling>)
    requires { vec_len found.old + vec_len more ≤ vec_capacity found.old }
    ensures { found.new.items ≡ found.old.items ++ more.items }
{
    let mut more = more;
    match found.append(&mut more) {
        Ok(()) => (),
        Err(_) => unreachable!(),
    }
}
