//! A stack of different rows, which tells at once whether a row stands in it.
//!
//! It has 20 bytes at most for each row of its room, all taken when it is made. A push and a look take the same time
//! however many rows there are.
//!
//! - [`RowStack::with_room`]: an empty stack with room for so many rows.
//! - [`RowStack::push`]: puts a row last, unless it stands in the stack or there is no room ([`Pushed`]).
//! - [`RowStack::place_of`], [`RowStack::row_at`]: where a row stands, and which row stands there.
//! - [`RowStack::cut_to`]: removes the rows above the first ones.
//!
//! The other public functions are laws: each does nothing, and its contract is what is proved of stacks.
//!
//! ```rust
//! let mut rows = RowStack::with_room(alloc, 24)?;
//! let _ = rows.push(Row::rounds(stage));
//! assert_eq!(rt; rows.len(), 1);
//! ```
#![tactic(auto)]

mod keys;
mod laws;
mod pushed;
mod stack;

pub use laws::{a_push_has_one_answer, rows_stay_different};
pub use pushed::Pushed;
pub use stack::RowStack;

#[cfg(test)]
mod tests;
