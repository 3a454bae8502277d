//! Many workers on a board.

ghost use Rattle.std.specs.Prelude.{◌≡◌, ◌≤◌, [], false, get_or, flat_map, IfOk};
ghost use Rattle.cr_board.specs.Boards.{held_jobs};
ghost use Rattle.cr_run.specs.Runs.{IsRun};

use crate::alone::run_alone;
use crate::crew::{all_worked, hinted, hints_of};
use crate::laws::boards_at_rest;
use cr_board::laws::events_only_append;
use cr_board::{Board, Opening};
use cr_desk::Desk;
use cr_lanes::Lanes;
use cr_node::Explorer;
use cr_row::NoMemory;
use std::alloc::Global;
use std::marker::Brand;
use std::sync::Wait;
use std::sync::ledger::{Blank, Ledger};
use std::thread::Threads;

// For how many numbers of jobs all lanes have room together. A deque is made with all its room, 32 bytes for each number, and
// to touch a fresh page takes some microseconds. Numbers that find no room are not lost: the board tells its jobs too.
const ROOM: u64 = 4_096;

// The most for which one lane has room, 64 KB. Once it has let go a list above 128 KB, glibc's allocator keeps lists of that
// size in its heap, where those that grow are copied.
const LANE_ROOM: u64 = 2_048;

/// Opens a board and runs it to its end, by its workers side by side, in a thread each where one can be started, until no
/// job is left or all turns of the budget are spent. What they leave, as where one of them found no memory, one worker
/// finishes alone. It waits for the threads. Err where no memory is left.
pub fn run_workers<R: Threads + Wait + Sync, E: Explorer + Sync>(
    rt: &R,
    alloc: Global,
    opening: Opening,
    explorer: &E,
) -> Result<Board, NoMemory>
    requires { E.explores explorer.now ≡ opening.problem }
    ensures { IfOk result (IsRun opening) }
{
    let room = room_of_each(opening.workers());
    run_workers_with_room(rt, alloc, opening, explorer, room)
}

// For how many numbers the lane of each of so many workers has room.
fn room_of_each(workers: u32) -> u64
    ensures { (1 ≤ result) × (result ≤ 2048) }
{
    (ROOM / u64::from(workers.max(1))).clamp(1, LANE_ROOM)
}

/// The same with this room in the lanes, in which the workers keep numbers of the jobs that they opened.
pub fn run_workers_with_room<R: Threads + Wait + Sync, E: Explorer + Sync>(
    rt: &R,
    alloc: Global,
    opening: Opening,
    explorer: &E,
    room: u64,
) -> Result<Board, NoMemory>
    requires problem { E.explores explorer.now ≡ opening.problem }
    requires room { (1 ≤ room) × (room ≤ 65536) }
    ensures { IfOk result (IsRun opening) }
{
    let given = opening.copy(alloc)?;
    let board = Board::open(alloc, opening)?;
    let board = together(rt, alloc, board, explorer, room)?;
    let board = at_rest(alloc, board, given)?;
    run_alone(alloc, board, explorer)
}

// The board with its held jobs back in the lanes, where it is one of this opening. Else a new one: no clause says that
// what a lock gives back is what went in.
fn at_rest(alloc: Global, board: Board, opening: Opening) -> Result<Board, NoMemory>
    ensures opening { IfOk result (λ b. b.opening ≡ opening) }
    ensures idle { IfOk result (λ b. flat_map held_jobs b.held ≡ []) }
    ensures stays { IfOk result (λ b. get_or b.resigned 0 false ≡ false) }
{
    boards_at_rest();
    events_only_append();
    if !board.same_opening(&opening) {
        return Board::open(alloc, opening);
    }
    let mut board = board;
    board.recall_all();
    Ok(board)
}

// The board that is at a desk after all its workers have worked at it, by hints from lanes of this room.
fn together<R: Threads + Wait + Sync, E: Explorer + Sync>(
    rt: &R,
    alloc: Global,
    board: Board,
    explorer: &E,
    room: u64,
) -> Result<Board, NoMemory>
    requires empty { board.journal ≡ [] }
    requires room { (1 ≤ room) × (room ≤ 65536) }
{
    let blank = Blank::new(u64::from(board.opening().workers()));
    at_desk::<Brand, R, E>(rt, alloc, board, blank, explorer, room)
}

// The same at a desk of one ledger.
#[tactic(auto, using(cr_desk::proofs::Ones::sum_of_ones))]
fn at_desk<L: Ledger + Send + Sync, R: Threads + Wait + Sync, E: Explorer + Sync>(
    rt: &R,
    alloc: Global,
    board: Board,
    blank: Blank,
    explorer: &E,
    room: u64,
) -> Result<Board, NoMemory>
    requires empty { board.journal ≡ [] }
    requires name { blank.name ≡ L.name }
    requires parts { blank.parts ≡ L.parts }
    requires workers { blank.parts ≡ board.opening.workers }
    requires room { (1 ≤ room) × (room ≤ 65536) }
{
    let workers = board.opening().workers();
    let (desk, seats) = Desk::<L>::open(alloc, board, blank)?;
    let (lanes, ends, thieves) = Lanes::new(alloc, workers, room)?;
    let hints = hints_of(alloc, &lanes, ends, thieves)?;
    let places = hinted(alloc, seats, hints)?;
    let (seats, ends, thieves) = all_worked(rt, alloc, &desk, explorer, places)?;
    lanes.close(ends, thieves);
    let (board, _) = desk.close(seats);
    Ok(board)
}
