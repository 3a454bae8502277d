//! Cutting: a walk through the nodes of a search, and why a node is dead.
//!
//! A node is dead where no kept touch begins with its leads, for one of eight reasons: it is too long, a row comes
//! twice, rounds comes too early or can't come in time, the query has too much or can't have enough, or a rotation
//! is less. A search does not go below a dead node. A [`Walk`] goes from node to node, and a [`Pruner`] tells why
//! its node is dead.
//!
//! - [`Walk::new`]: the walk at the root; with a falseness table it keeps lead heads, and else rows. All its memory
//!   is taken here.
//! - [`Walk::go`], [`Walk::back`]: a lead on, and a lead back.
//! - [`Walk::head`], [`Walk::length`], [`Walk::has_repeat`]: the node's last row, its length, and whether a row is
//!   twice.
//! - [`Pruner::new`]: the pruner of a problem.
//! - [`Pruner::dead`]: the first reason why the walk's node is dead, if it is.
//! - [`Pruner::dies_unrung`], [`Pruner::dies_rung`]: the same in two steps, of which the first rings nothing.
//!
//! ```rust
//! let leads = LeadTable::new(alloc, &problem)?;
//! let reach = ReachTable::new(alloc, &leads, 200_000)?;
//! let pruner = Pruner::new(&leads, &reach, &problem);
//!
//! let mut walk = Walk::new(alloc, &problem, &leads, None)?;
//! if !pruner.dies_unrung(&walk, 0) {
//!     walk.go(0);
//!     let reason: Option<Reason> = pruner.dead(&walk);
//!     walk.back();
//! }
//! ```
#![tactic(auto)]

mod ends;
mod first;
mod further_parts;
mod heads;
mod held;
pub mod laws;
mod passing;
mod prune_limits;
mod pruner;
mod repeats;
mod rows;
mod walk;

pub use pruner::Pruner;
pub use walk::Walk;
