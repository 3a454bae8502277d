//! Which leads share a row, by the rows between their heads.
//!
//! Whether a lead from one head and a lead from another have a row in common depends on their steps and on the quotient
//! of the heads alone. The table has these quotients for each pair of steps.
//!
//! - [`FalseTable::new`]: the table of some leads, made by many threads, or the number of its rows where they are more
//!   than a limit ([`Built`]).
//! - [`FalseTable::clash`]: whether two leads share a row, by the row between their heads. It takes no memory.
//! - [`FalseTable::self_false`]: whether a lead has a row twice.
//! - [`TellingRows::new`]: few rows of each lead by which two leads are told apart, from whatever heads of callings they
//!   are rung. [`TellingRows::all`]: all rows.
//!
//! The functions of [`laws`] do nothing; the contract of each is what is proved of quotients and of
//! telling rows.
#![tactic(auto)]

mod built;
mod common;
pub mod laws;
mod proposed;
mod sets;
mod step_pairs;
mod table;
mod telling;
mod told_apart;
mod twice;

pub use built::Built;
pub use table::FalseTable;
pub use telling::TellingRows;
