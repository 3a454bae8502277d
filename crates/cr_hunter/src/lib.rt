//! A small explorer for tests: that of the plain hunt on three bells, whose two leads are a touch each.
//!
//! - [`Hunter`]: explores the plain hunt, turn by turn. [`make_hunter`] makes one.
//! - [`plain_hunts`] and [`hunts_within`]: its problem.
//! - [`both_begun`], [`second_begun`] and [`board_of_both`]: openings of its search, and a board.
//! - [`lone_node`], [`both_nodes`] and [`copy_nodes`]: jobs.
//! - [`run_all`]: a board's workers at a desk, with any explorer. [`run_by`]: one worker, by any hints.
//!
//! ```rust
//! let hunter = make_hunter(alloc)?;
//! let board = board_of_both(alloc, None, 3)?;
//! let (board, entries) = run_all(&rt, alloc, board, &hunter)?;
//! ```
#![tactic(auto)]

mod hunter;
mod hunts;
mod nodes;
mod openings;
mod together;

pub use hunter::{Hunter, make_hunter};
pub use hunts::{hunts_within, plain_hunts};
pub use nodes::{both_nodes, copy_nodes, lone_node};
pub use openings::{board_of_both, both_begun, second_begun};
pub use together::{run_all, run_by};
