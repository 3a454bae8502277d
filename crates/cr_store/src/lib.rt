//! Checkpoints: what a search has found and what is left of it, written and read back.
//!
//! A search that stops early writes a checkpoint: the bytes of its problem file, the found touches, and the jobs
//! that are left. A search that goes on from it covers what the first one covered, and so both come to one book. A
//! checkpoint is checked as it is read: a text that is none, or from which no search can go on, is refused with its
//! first fault.
//!
//! - [`remaining_of`], [`remaining_in_order`]: what a board leaves, with the touches in the book's order
//!   ([`Remaining`]).
//! - [`write_checkpoint`], [`write_parts`]: the checkpoint of what a board leaves, and of found touches and jobs.
//! - [`checkpoint_pieces`]: the checkpoint of touches in any order and jobs, sorted and written by several threads.
//! - [`Job`]: what these read jobs from, which may have their nodes or refer to them.
//! - [`read_checkpoint`]: the checkpoint that some bytes are ([`Checkpoint`]), or why they are none
//!   ([`CheckFault`]). [`read_checkpoint_by`]: the same by several threads.
//! - [`each_node`]: the nodes of a checkpoint's text, handed to a [`NodeSink`] one after another, and none kept.
//! - [`write_front`], [`write_node`], [`write_count`], [`write_tail`]: a checkpoint written part by part, and
//!   [`shared_steps`]: what the line of a node leaves out.
//! - [`put_block`], [`next_block`]: texts one after another in one file, each a block with its length ([`Next`]).
//!
//! Writing fails only where no memory is left.
//!
//! ```rust
//! // `file` is the problem file of the board's problem.
//! let problem = board.opening().problem().copy(alloc)?;
//! let left = remaining_of(alloc, board)?;
//! let text = write_parts(alloc, &problem, &file, &left.found, &left.jobs)?;
//!
//! let again = read_checkpoint(alloc, &text)?;
//! assert!(rt; again.problem.same(&problem));
//! assert_eq!(rt; again.jobs.len(), left.jobs.len());
//! ```
#![tactic(auto)]

pub mod block_laws;
mod blocks;
mod checking;
mod checkpoint;
mod collecting;
mod fault;
mod handing;
mod items;
mod job;
pub mod laws;
mod lines;
mod outline;
mod reading;
mod shape;
pub mod shape_laws;
mod shape_lines;
mod shape_numbers;
mod shape_stop;
mod texts;
mod writing;

pub use blocks::{Next, next_block, put_block};
pub use checkpoint::{Checkpoint, read_checkpoint, read_checkpoint_by};
pub use collecting::{Remaining, remaining_in_order, remaining_of};
pub use fault::CheckFault;
pub use handing::{NodeSink, each_node};
pub use job::Job;
pub use texts::{shared_steps, write_count, write_node};
pub use writing::{checkpoint_pieces, write_checkpoint, write_front, write_parts, write_tail};
