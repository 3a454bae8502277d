//! The lock round the board: many workers at one desk, each with a seat of its own.
//!
//! A desk keeps a board behind a lock. A worker takes a job under the lock, explores it outside, and hands it in
//! under the lock; it waits where no lane has a job while somebody holds one. The seats share a ledger, the kit's
//! counter that costs nothing at run time: together they count the entries of the board's journal, so no entry is
//! lost.
//!
//! - [`Desk::open`]: a desk over a board with an empty journal, and a seat for each of its workers.
//! - [`Desk::work`]: works at a seat until there is nothing to do any more. A worker that finds no memory resigns,
//!   and its job goes back.
//! - [`Desk::work_by`]: the same, by [`Hints`] at jobs that may be open, which it claims by their numbers.
//! - [`Desk::close`]: gives the board back, and how many entries its journal has.
//! - [`Seat`]: a worker's place, which only that worker's thread has.
//!
//! ```rust
//! // `L` is the ledger of the blank, which has as many parts as there are workers.
//! let workers = board.opening().workers() as usize;
//! let blank = Blank::new(workers as u64);
//! let (desk, mut seats) = Desk::<L>::open(alloc, board, blank)?;
//! thread::for_each_mut(
//!     rt,
//!     seats.as_mut_slice(),
//!     workers,
//!     &|_, seat: &mut Seat<L>|
//!         ensures { seat.new.share.parts ≡ seat.old.share.parts }
//!     { desk.work(rt, alloc, &search, seat) },
//! );
//! let (board, entries) = desk.close(seats);
//! ```
#![tactic(auto)]

mod desk;
mod duty;
mod hints;
mod locked;
mod seat;

pub use desk::Desk;
pub use hints::{Hints, NoHints};
pub use seat::Seat;
