//! The board: the scheduler of many workers as a state machine over events, without a thread or a lock.
//!
//! A board has what was found, a lane of jobs for each worker, and the job that each worker holds. Workers take jobs
//! and hand them in; each event that changes the board appends an entry to its journal. Whatever the events are, what
//! the board has found and what its jobs cover stay what its opening covers.
//!
//! - [`Opening`]: where a board begins: a problem, found touches, jobs, a budget of turns, and the number of workers.
//! - [`Board::open`]: deals the jobs of an opening to the lanes.
//! - [`Board::next_job`]: gives a worker a job and a grant of turns, from its own lane or from another ([`Taken`]).
//! - [`Board::claim`]: the same for the job of a number ([`Claimed`]).
//! - [`Board::hand_in`]: takes finished work, and opens what is left of the job as new jobs ([`Handed`]).
//! - [`Board::resign`], [`Board::recall_all`]: jobs that are held go back to their lanes.
//! - [`Board::journal`]: what happened ([`Entry`]).
//! - [`Board::into_parts`]: takes a board apart into what was found and the jobs that are left ([`Parts`]).
//!
//! The functions of [`laws`] do nothing, but for one that is told a board; the contract of each is what is proved of
//! boards and journals.
#![tactic(auto)]

mod board;
mod copies;
mod entry;
mod event;
mod handed;
mod handing;
mod held;
mod job;
mod lanes;
pub mod laws;
mod opened;
mod opening;
mod place;
mod places;
mod playing;
mod recalling;
mod refusal;
mod same;
mod state;
mod taken;
mod taken_apart;
mod taking;
mod verdict;

pub use board::Board;
pub use entry::Entry;
pub use event::Event;
pub use handed::Handed;
pub use job::{LaneJob, Ticket};
pub use opening::Opening;
pub use taken::{Claimed, Taken};
pub use taken_apart::Parts;
