//! How many leads a row is from rounds at least.
//!
//! A node can't come round in time where its last row is more leads from rounds than may still be rung. The table lists
//! the rows level by level, backwards from rounds, as many whole levels as a limit of rows allows.
//!
//! - [`ReachTable::new`]: the table of a problem's leads.
//! - [`ReachTable::at_least`]: the number of leads of a row, or one more than the depth where it is not listed. It
//!   takes no memory.
//! - [`ReachTable::depth`]: the greatest level that is listed whole.
#![tactic(auto)]

mod inverses;
mod spreading;
mod table;

pub use table::ReachTable;
