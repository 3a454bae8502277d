//! Whether callings meet the query, which of their rotations is kept, and a meter of nodes.
//!
//! The query limits the length, the parts, the leads by mark and by method, the rows that fit patterns, and the changes
//! of method. A touch that meets it is kept where no rotation that meets it is less.
//!
//! - [`meets`]: whether a calling meets the query.
//! - [`is_kept`]: whether a calling is a touch of the book.
//! - [`turn_free`]: whether all rotations of a touch meet the query, or none.
//! - [`Meter`]: counts what the query limits while a node grows and shrinks, and tells whether any touch below the node
//!   can still meet it ([`Hopeless`]). All its memory is taken in [`Meter::new`].
//! - [`Shape`]: a pattern, compiled to the bells that it fixes.
//! - [`step_sets`]: small sets of steps.
//!
//! The functions of [`laws`] do nothing; the contract of each is what is proved of queries.
#![tactic(auto)]

mod compiling;
mod equal_words;
mod fixing;
mod free_rotations;
mod fronts;
mod gauges;
mod hits;
mod keeping;
mod kinds;
pub mod laws;
mod lead_counts;
mod leads;
mod limits;
mod meeting;
mod meter;
mod nodes;
mod numbers;
mod pattern_limits;
mod rooms;
mod shape;
pub mod step_sets;
mod tallies;

pub use equal_words::has_parts;
pub use free_rotations::turn_free;
pub use keeping::is_kept;
pub use meeting::meets;
pub use meter::{Hopeless, Meter};
pub use shape::Shape;
