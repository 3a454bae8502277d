//! A trail: the checkpoints of one long search, one after another in one text, as blocks. A machine that dies loses no
//! more than the turns since the last one.
//!
//! - [`run_trail`]: goes on with a search, and writes a checkpoint at the start, after each so many turns, and at the
//!   end. [`TrailEnd`] says how that ended.
//! - [`last_block`]: where the last whole body stands in what is left of such a text, and how many bytes it has, or why
//!   there is none ([`TrailFault`]). It takes no memory.
//! - [`run_boards`]: a search on boards that are opened one after another, with a trail or without. [`run_on`]: the same
//!   from where another run left it ([`RunProgress`]), with what was found before, in whatever order that is.
//! - [`Runner`], [`ByCall`]: what runs a board to its end; one is made of a closure.
//!
//! ```rust
//! let call = |opening: Opening| run_alone(alloc, Board::open(alloc, opening)?, &explorer);
//! let runner = ByCall { problem: &problem, call };
//! let end = run_trail(rt, 1, &runner, &bytes, left, 100_000_000, &mut sink);
//!
//! // Of a text that was cut anywhere.
//! let last = last_block(sink.bytes().unwrap_or_default());
//! ```
#![tactic(auto)]

mod boards;
mod last;
pub mod last_laws;
pub mod laws;
mod runner;
#[cfg(test)]
mod tests;
mod trail;

pub use boards::{BOARD_TURNS, RunProgress, run_boards, run_on};
pub use last::{TrailFault, last_block};
pub use runner::{ByCall, Runner};
pub use trail::{TrailEnd, run_trail};
