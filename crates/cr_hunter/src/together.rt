//! A desk opened over a board, all its workers at work in threads of their own, and the desk closed.

ghost use Rattle.std.specs.Prelude.{◌≡◌, ◌<◌, [], length, vec_len, All, IfOk, OnOk};
ghost use Rattle.cr_board.specs.Partitions.{IsKept};

use cr_board::Board;
use cr_desk::{Desk, Hints, Seat};
use cr_node::Explorer;
use cr_row::NoMemory;
use std::alloc::Global;
use std::marker::Brand;
use std::sync::Wait;
use std::sync::ledger::{Blank, Ledger};
use std::thread;
use std::thread::Threads;

/// The board after all its workers have worked at a desk, in a thread each where one can be started, and the number of
/// entries that their seats counted. Err where no memory is left.
pub fn run_all<R: Threads + Wait + Sync, E: Explorer + Sync>(
    rt: &R,
    alloc: Global,
    board: Board,
    explorer: &E,
) -> Result<(Board, u64), NoMemory>
    requires { board.journal ≡ [] }
    ensures entries { IfOk result (λ closed. length closed.0.journal ≡ closed.1) }
    ensures kept { IfOk result (λ closed. IsKept closed.0) }
{
    let blank = Blank::new(u64::from(board.opening().workers()));
    at_desk::<Brand, R, E>(rt, alloc, board, blank, explorer)
}

// The same at a desk of one ledger.
#[tactic(auto, using(cr_desk::proofs::Ones::sum_of_ones))]
fn at_desk<L: Ledger + Send + Sync, R: Threads + Wait + Sync, E: Explorer + Sync>(
    rt: &R,
    alloc: Global,
    board: Board,
    blank: Blank,
    explorer: &E,
) -> Result<(Board, u64), NoMemory>
    requires empty { board.journal ≡ [] }
    requires name { blank.name ≡ L.name }
    requires parts { blank.parts ≡ L.parts }
    requires workers { blank.parts ≡ board.opening.workers }
    ensures entries { IfOk result (λ closed. length closed.0.journal ≡ closed.1) }
    ensures kept { IfOk result (λ closed. IsKept closed.0) }
{
    let workers = board.opening().workers() as usize;
    let (desk, mut seats) = Desk::<L>::open(alloc, board, blank)?;
    work_all(rt, alloc, &desk, explorer, &mut seats, workers);
    Ok(desk.close(seats))
}

// Each seat's worker works, in a thread of its own where one can be made.
fn work_all<L: Ledger + Send + Sync, R: Threads + Wait + Sync, E: Explorer + Sync>(
    rt: &R,
    alloc: Global,
    desk: &Desk<L>,
    explorer: &E,
    seats: &mut Vec<Seat<L>>,
    threads: usize,
)
    requires some { 0 < threads }
    requires one { All (λ s. s.share.parts ≡ 1) seats.old.items }
    ensures one { All (λ s. s.share.parts ≡ 1) seats.new.items }
    ensures len { vec_len seats.new ≡ vec_len seats.old }
{
    thread::for_each_mut(
        rt,
        seats.as_mut_slice(),
        threads,
        &|_, seat: &mut Seat<L>|
            ensures { seat.new.share.parts ≡ seat.old.share.parts }
        { desk.work(rt, alloc, explorer, seat) },
    );
}

/// The board after the last of its workers has worked at a desk by hints, and the number of entries that the seats counted.
/// Err where no memory is left.
pub fn run_by<R: Wait, E: Explorer, H: Hints>(
    rt: &R,
    alloc: Global,
    board: Board,
    explorer: &E,
    hints: &mut H,
) -> Result<(Board, u64), NoMemory>
    requires { board.journal ≡ [] }
    ensures entries { IfOk result (λ closed. length closed.0.journal ≡ closed.1) }
    ensures kept { IfOk result (λ closed. IsKept closed.0) }
{
    let blank = Blank::new(u64::from(board.opening().workers()));
    at_desk_by::<Brand, R, E, H>(rt, alloc, board, blank, explorer, hints)
}

// The same at a desk of one ledger.
#[tactic(auto, using(cr_desk::proofs::Ones::sum_of_ones))]
fn at_desk_by<L: Ledger, R: Wait, E: Explorer, H: Hints>(
    rt: &R,
    alloc: Global,
    board: Board,
    blank: Blank,
    explorer: &E,
    hints: &mut H,
) -> Result<(Board, u64), NoMemory>
    requires empty { board.journal ≡ [] }
    requires name { blank.name ≡ L.name }
    requires parts { blank.parts ≡ L.parts }
    requires workers { blank.parts ≡ board.opening.workers }
    ensures entries { IfOk result (λ closed. length closed.0.journal ≡ closed.1) }
    ensures kept { IfOk result (λ closed. IsKept closed.0) }
{
    let (desk, mut seats) = Desk::<L>::open(alloc, board, blank)?;
    work_last(rt, alloc, &desk, explorer, &mut seats, hints)?;
    Ok(desk.close(seats))
}

// The worker of the last seat works.
fn work_last<L: Ledger, R: Wait, E: Explorer, H: Hints>(
    rt: &R,
    alloc: Global,
    desk: &Desk<L>,
    explorer: &E,
    seats: &mut Vec<Seat<L>>,
    hints: &mut H,
) -> Result<(), NoMemory>
    requires one { All (λ s. s.share.parts ≡ 1) seats.old.items }
    ensures one { OnOk result (All (λ s. s.share.parts ≡ 1) seats.new.items) }
    ensures len { OnOk result (vec_len seats.new ≡ vec_len seats.old) }
{
    let Some(mut seat) = seats.pop() else {
        return Err(NoMemory);
    };
    desk.work_by(rt, alloc, explorer, &mut seat, hints);
    seats.push(seat)?;
    Ok(())
}
