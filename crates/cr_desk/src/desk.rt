//! The desk: how it is opened and closed, and the work at a seat.

ghost use Rattle.std.specs.Prelude.{◌≡◌, ◌≤◌, [], length, map, sum_by, vec_len, All, IfOk, IfSome};
ghost use Rattle.std.specs.List.{range_with_len};
ghost use Rattle.std.specs.Sync.Mutex.{mutex_guard_value};
ghost use Rattle.cr_model.specs.Problems.{ProblemParts};
ghost use Rattle.cr_node.specs.Work.{IsJob};
ghost use Rattle.cr_board.specs.Partitions.{IsKept};
ghost use Rattle.cr_desk.specs.Asks.{IfExplore, IfLeave, HasNoWork};

use crate::duty::Duty;
use crate::hints::{Hints, NoHints};
use crate::locked::Locked;
use crate::seat::{Seat, merged, seats_of};
use cr_board::{Board, Claimed, Handed, Taken, Ticket};
use cr_node::{Done, Explorer};
use cr_row::NoMemory;
use std::alloc::Global;
use std::hint::spin_loop;
use std::sync::ledger::{Blank, Ledger};
use std::sync::{Condvar, Mutex, MutexGuard, Wait};
use std::thread::yield_now;

// How often a worker looks whether the lock is free before it sleeps. The lock is held for some microseconds at a time, and
// to sleep and be woken takes ten times as long.
const LOOKS: u32 = 1_000;

// After so many looks it lets others run between two, such as the one that has the lock.
const LOOKS_AT_ONCE: u32 = 200;

// How many stale hints in a row a worker claims before it asks for any job: after the first it asks for 65 more, so that
// each of 64 lanes may give one.
const MOST_STALE: u32 = 66;

/// A board under a lock, for workers that explore its jobs side by side, and a signal for those that wait for a job.
///
/// Whenever the lock is free the board keeps the facts of its type, and its journal has as many entries as the shares of
/// all seats count together.
#[derive(Drop)]
pub struct Desk<L: Ledger> {
    locked: Mutex<Locked<L>>,
    changed: Condvar,
}

impl<L: Ledger> Desk<L> {
    /// A desk over a board with an empty journal, and a seat for each of its workers, in order, with one part of the
    /// ledger that the blank opens. Err where no memory is left.
    pub fn open(
        alloc: Global,
        board: Board,
        blank: Blank,
    ) -> Result<(Desk<L>, Vec<Seat<L>>), NoMemory>
        requires empty { board.journal ≡ [] }
        requires name { blank.name ≡ L.name }
        requires parts { blank.parts ≡ L.parts }
        requires workers { blank.parts ≡ board.opening.workers }
        ensures count { IfOk result (λ opened. vec_len opened.1 ≡ board.opening.workers) }
        ensures workers { IfOk result (λ opened. map (λ s. s.worker) opened.1.items ≡ range_with_len 0 board.opening.workers) }
        ensures parts { IfOk result (λ opened. All (λ s. s.share.parts ≡ 1) opened.1.items) }
        ensures nothing { IfOk result (λ opened. All (λ s. s.share.amount ≡ 0) opened.1.items) }
    {
        let workers = board.opening().workers();
        let (book, mut all) = blank.open::<L>();
        let nothing = all.empty();
        let seats = seats_of(alloc, workers, all)?;
        let locked = Locked {
            board,
            book,
            nothing,
        };
        let desk = Desk {
            locked: Mutex::new(locked),
            changed: Condvar::new(),
        };
        Ok((desk, seats))
    }

    /// Works at a seat until there is nothing to do any more: takes jobs, explores them outside the lock and hands them in,
    /// and waits where no lane has a job while another worker holds one.
    ///
    /// It returns where the board is of another problem than the explorer's, and then it has taken no job; where no job is
    /// left, the budget is spent, or the worker is none of the board's or resigned. Where it finds no memory, or the board
    /// refuses its work, it resigns, so that its job goes back.
    pub fn work<R: Wait, E: Explorer>(
        &self,
        rt: &R,
        alloc: Global,
        explorer: &E,
        seat: &mut Seat<L>,
    )
        ensures worker { seat.new.worker ≡ seat.old.worker }
        ensures parts { seat.new.share.parts ≡ seat.old.share.parts }
        ensures amount { seat.old.share.amount ≤ seat.new.share.amount }
    {
        self.work_by(rt, alloc, explorer, seat, &mut NoHints);
    }

    /// Works at a seat as [`Desk::work`] does, but first claims the job of a number that its hints give. Where they give
    /// none, or only numbers of no open job for a while, it takes its next job as the board tells it. Its hints get the
    /// numbers of the jobs that it opened.
    pub fn work_by<R: Wait, E: Explorer, H: Hints>(
        &self,
        rt: &R,
        alloc: Global,
        explorer: &E,
        seat: &mut Seat<L>,
        hints: &mut H,
    )
        ensures worker { seat.new.worker ≡ seat.old.worker }
        ensures parts { seat.new.share.parts ≡ seat.old.share.parts }
        ensures amount { seat.old.share.amount ≤ seat.new.share.amount }
        ensures key { H.key hints.new ≡ H.key hints.old }
    {
        drop(self.worked(rt, alloc, explorer, seat, hints));
        // Whoever waits, waits for one that holds a job. That one asks again, until it leaves: it may have held the last
        // job, or leave one behind.
        self.changed.notify_all();
    }

    /// Gives the board back, with the number of entries that the shares of all seats count together, which are those of
    /// its journal. It takes no memory.
    pub fn close(self, seats: Vec<Seat<L>>) -> (Board, u64)
        requires { sum_by (λ s. s.share.parts) seats.items ≡ L.parts }
        ensures number { result.1 ≡ sum_by (λ s. s.share.amount) seats.items }
        ensures entries { length result.0.journal ≡ result.1 }
        ensures kept { IsKept result.0 }
    {
        let Desk { locked, changed: _ } = self;
        let Locked {
            board,
            mut book,
            nothing,
        } = locked.into_inner();
        let mut all = merged(nothing, seats);
        book.audit(&mut all);
        let entries = board.journal().len() as u64;
        (board, entries)
    }

    // Takes the lock, and stays awake for it for a while.
    fn lock<R: Wait>(&self, rt: &R) -> MutexGuard<'_, Locked<L>> {
        for look in 0..LOOKS {
            if let Some(locked) = self.locked.try_lock() {
                return locked;
            }
            if look < LOOKS_AT_ONCE {
                spin_loop();
            } else {
                yield_now();
            }
        }
        self.locked.lock(rt)
    }

    // Works at a seat until there is nothing to do for it any more, and gives the lock under which that is so.
    fn worked<'a, R: Wait, E: Explorer, H: Hints>(
        &'a self,
        rt: &R,
        alloc: Global,
        explorer: &E,
        seat: &mut Seat<L>,
        hints: &mut H,
    ) -> MutexGuard<'a, Locked<L>>
        ensures none { HasNoWork (mutex_guard_value result).board (E.explores explorer.now) seat.old.worker }
        ensures worker { seat.new.worker ≡ seat.old.worker }
        ensures parts { seat.new.share.parts ≡ seat.old.share.parts }
        ensures amount { seat.old.share.amount ≤ seat.new.share.amount }
        ensures key { H.key hints.new ≡ H.key hints.old }
    {
        for _ in rt.forever() {
            let (locked, duty) = self.ask_by(rt, alloc, explorer, seat, hints);
            match duty {
                Duty::Explore(ticket) => {
                    drop(locked);
                    if !self.explore(rt, alloc, explorer, seat, &ticket, hints) {
                        return resigned(self.lock(rt), seat);
                    }
                }
                Duty::Resign => return resigned(locked, seat),
                Duty::Leave => return locked,
            }
        }
        unreachable!()
    }

    // Claims the jobs that its hints give, until an answer that is not stale; after none, or too many stale ones, asks for a
    // worker's next job. The lock is the one under which the answer was given.
    fn ask_by<'a, R: Wait, E: Explorer, H: Hints>(
        &'a self,
        rt: &R,
        alloc: Global,
        explorer: &E,
        seat: &mut Seat<L>,
        hints: &mut H,
    ) -> (MutexGuard<'a, Locked<L>>, Duty)
        ensures job { IfExplore result.1 (λ ticket. IsJob (E.explores explorer.now) ticket.nodes) }
        ensures none { IfLeave result.1 (HasNoWork (mutex_guard_value result.0).board (E.explores explorer.now) seat.old.worker) }
        ensures worker { seat.new.worker ≡ seat.old.worker }
        ensures parts { seat.new.share.parts ≡ seat.old.share.parts }
        ensures amount { seat.old.share.amount ≤ seat.new.share.amount }
        ensures key { H.key hints.new ≡ H.key hints.old }
    {
        for _ in 0..MOST_STALE {
            let Some(number) = hints.next(rt) else {
                break;
            };
            if let Some(answer) = self.claim(rt, alloc, explorer, seat, number) {
                return answer;
            }
        }
        self.ask(rt, alloc, explorer, seat)
    }

    // Claims the job of a number. None where the number is stale, else the lock under which the answer was given.
    fn claim<'a, R: Wait, E: Explorer>(
        &'a self,
        rt: &R,
        alloc: Global,
        explorer: &E,
        seat: &mut Seat<L>,
        number: u64,
    ) -> Option<(MutexGuard<'a, Locked<L>>, Duty)>
        ensures job { IfSome result (λ answer. IfExplore answer.1 (λ ticket. IsJob (E.explores explorer.now) ticket.nodes)) }
        ensures none { IfSome result (λ answer. IfLeave answer.1 (HasNoWork (mutex_guard_value answer.0).board (E.explores explorer.now) seat.old.worker)) }
        ensures worker { seat.new.worker ≡ seat.old.worker }
        ensures parts { seat.new.share.parts ≡ seat.old.share.parts }
        ensures amount { seat.old.share.amount ≤ seat.new.share.amount }
    {
        let mut locked = self.lock(rt);
        match locked.claim(
            alloc,
            explorer.problem(),
            seat.worker,
            number,
            &mut seat.share,
        ) {
            Ok(Some(Claimed::Job(ticket))) => Some((locked, Duty::Explore(ticket))),
            Ok(Some(Claimed::Stale)) => None,
            Ok(Some(Claimed::Holding(_))) | Err(NoMemory) => Some((locked, Duty::Resign)),
            Ok(None | Some(Claimed::Stranger | Claimed::Spent)) => Some((locked, Duty::Leave)),
        }
    }

    // Asks for a worker's next job until the answer is not to wait. The lock is the one under which it was given.
    fn ask<'a, R: Wait, E: Explorer>(
        &'a self,
        rt: &R,
        alloc: Global,
        explorer: &E,
        seat: &mut Seat<L>,
    ) -> (MutexGuard<'a, Locked<L>>, Duty)
        ensures job { IfExplore result.1 (λ ticket. IsJob (E.explores explorer.now) ticket.nodes) }
        ensures none { IfLeave result.1 (HasNoWork (mutex_guard_value result.0).board (E.explores explorer.now) seat.old.worker) }
        ensures worker { seat.new.worker ≡ seat.old.worker }
        ensures parts { seat.new.share.parts ≡ seat.old.share.parts }
        ensures amount { seat.old.share.amount ≤ seat.new.share.amount }
    {
        let mut locked = self.lock(rt);
        for _ in rt.forever() {
            match locked.ask(alloc, explorer.problem(), seat.worker, &mut seat.share) {
                Ok(Some(Taken::Job(ticket))) => return (locked, Duty::Explore(ticket)),
                Ok(Some(Taken::Wait(_))) => locked = self.changed.wait(rt, locked),
                Ok(Some(Taken::Holding(_))) | Err(NoMemory) => return (locked, Duty::Resign),
                Ok(None | Some(Taken::Stranger | Taken::Spent | Taken::Empty)) => {
                    return (locked, Duty::Leave);
                }
            }
        }
        unreachable!()
    }

    // Explores a job that a worker holds, and hands it in. False where it finds no memory or the board refuses it.
    fn explore<R: Wait, E: Explorer, H: Hints>(
        &self,
        rt: &R,
        alloc: Global,
        explorer: &E,
        seat: &mut Seat<L>,
        ticket: &Ticket,
        hints: &mut H,
    ) -> bool
        requires { IsJob (E.explores explorer.now) ticket.now.nodes }
        ensures worker { seat.new.worker ≡ seat.old.worker }
        ensures parts { seat.new.share.parts ≡ seat.old.share.parts }
        ensures amount { seat.old.share.amount ≤ seat.new.share.amount }
        ensures key { H.key hints.new ≡ H.key hints.old }
    {
        let Ok(done) = explorer.explore(alloc, &ticket.nodes, ticket.grant) else {
            return false;
        };
        self.hand_in(rt, seat, ticket.number, done, hints)
    }

    // Hands in finished work on a job that a worker holds, and gives its hints the numbers of the jobs that it opened. False
    // where the board refuses it.
    fn hand_in<R: Wait, H: Hints>(
        &self,
        rt: &R,
        seat: &mut Seat<L>,
        number: u64,
        done: Done,
        hints: &mut H,
    ) -> bool
        ensures worker { seat.new.worker ≡ seat.old.worker }
        ensures parts { seat.new.share.parts ≡ seat.old.share.parts }
        ensures amount { seat.old.share.amount ≤ seat.new.share.amount }
        ensures key { H.key hints.new ≡ H.key hints.old }
    {
        // What is left is opened as two jobs at most.
        let opened = done.rest().len().min(2);
        let mut locked = self.lock(rt);
        let handed = locked.hand_in(seat.worker, number, done, &mut seat.share);
        let taken = matches!(handed, Handed::In);
        if taken {
            put_last(&locked.board, seat.worker, opened, hints);
        }
        drop(locked);
        // Of two jobs this worker takes one, and one that waits the other.
        if taken && opened > 1 {
            self.changed.notify_one();
        }
        taken
    }
}

// Gives hints the numbers of the last jobs of a worker's lane, so many of them.
fn put_last<H: Hints>(board: &Board, worker: u32, count: usize, hints: &mut H)
    ensures { H.key hints.new ≡ H.key hints.old }
{
    if worker >= board.opening().workers() {
        return;
    }
    let lane = board.lane(worker);
    let first = lane.len().saturating_sub(count);
    for job in &lane[first..] {
        hints.put(job.number);
    }
}

// The lock after a seat's worker resigned.
fn resigned<'a, L: Ledger>(
    locked: MutexGuard<'a, Locked<L>>,
    seat: &mut Seat<L>,
) -> MutexGuard<'a, Locked<L>>
    ensures none { (p : ProblemParts) → HasNoWork (mutex_guard_value result).board p seat.old.worker }
    ensures worker { seat.new.worker ≡ seat.old.worker }
    ensures parts { seat.new.share.parts ≡ seat.old.share.parts }
    ensures amount { seat.old.share.amount ≤ seat.new.share.amount }
{
    let mut locked = locked;
    locked.resign(seat.worker, &mut seat.share);
    locked
}
