//! What can still come: the least and the greatest gain of all ways to the end of a part.
//!
//! A search goes from place to place. From each place each step leads to one place; a step has a length, and gains
//! something by place and step. A way is a list of steps that leads to an end of a part, with the length of the part in
//! a range. From what the ways from a node's last place can gain at least and at most it is seen whether the node can
//! still become what is asked for.
//!
//! - [`Moves::new`]: where the steps lead, how long they are, what they gain, and where a part ends.
//! - [`Ahead::new`]: the table of these moves, for a range of lengths.
//! - [`Ahead::at`]: for a place and the length of a part there, the least and the greatest gain of all ways
//!   ([`Gains`]), or that there is none. It takes constant time and no memory.
//!
//! - [`Outlook::new`]: the tables of a problem, from its lead heads: one for each count, and in one part one for each
//!   pattern, and one for the limit on changes of method. Lengths are in units of so many changes as each lead has a
//!   multiple of.
//! - [`Outlook::cannot_come`]: whether a node has no way home, or none that meets the min, or none that meets the max, of
//!   one of these items. It takes no memory.
//! - [`changes_of_method`], [`last_method`] and [`change_after`]: what it asks of a node's methods, lead by lead.
//! - [`Outlook::cannot_come_by_heads`] and [`Outlook::cannot_change`]: the same by all but changes of method, and by these alone.
//! - [`Outlook::in_units`] and [`Outlook::cannot_meet`]: a node's length in units, and whether it cannot meet one item, for who asks
//!   item by item.
//!
//! The functions of [`laws`] do nothing: the contract of each is what is proved of ways, and of the ways home of a
//! problem, on which a node of a search that cannot come to what is asked has no kept touch below it.
//!
//! ```rust
//! // Two places, of which the first is an end, and one step, which leads to the other place and gains 1 on its way home.
//! let next = Vec::from_slice(alloc, &[1, 0])?;
//! let gains = Vec::from_slice(alloc, &[0, 1])?;
//! let lengths = Vec::from_slice(alloc, &[10])?;
//! let ends = Vec::from_slice(alloc, &[true, false])?;
//! let moves = Moves::new(next, gains, lengths, ends).ok_or("the lists hang together")?;
//! let ahead = Ahead::new(alloc, &moves, 20, 40)?;
//! assert_eq!(rt; ahead.at(0, 0), Some(Gains { least: 1, greatest: 2 }));
//! assert_eq!(rt; ahead.at(1, 40), None);
//! ```
#![tactic(auto)]

mod ahead;
mod by_method;
mod changed;
mod ends;
mod gains;
mod item_gains;
mod item_tables;
pub mod laws;
mod lead_moves;
mod moves;
mod outlook;
mod problem_steps;
mod refusing;
mod rows;
mod units;

pub use ahead::Ahead;
pub use changed::{change_after, changes_of_method, last_method};
pub use gains::Gains;
pub use moves::Moves;
pub use outlook::Outlook;

#[cfg(test)]
mod tests;
