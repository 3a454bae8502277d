//! A search that counts no turns, in shifts.
//!
//! In a shift the nodes that are left are cut into jobs, each of which takes turns in a thread of its own, and what they found
//! and left is put together. So nobody waits for another but at the end of a shift, and no lock is taken. A board counts each
//! turn; here nobody does, so what takes the turns may pass by nodes below which nothing is kept.
//!
//! - [`Finder`]: what takes turns on a job, and says what they found and left ([`Findings`]), as a search that looks ahead
//!   does (`NarrowSearch` of cr_explore).
//! - [`find_in_shifts`]: goes on from where a search went until no node is left.
//!
//! ```rust
//! // `finder` takes turns on jobs of a problem, of which a search went so far.
//! let end = find_in_shifts(&rt, 4, &finder, went)?;
//! assert_eq!(rt; end.left.jobs.len(), 0);
//! ```
#![tactic(auto)]

mod finder;
mod narrow;
mod shifts;

pub use finder::{Finder, Findings};
pub use shifts::find_in_shifts;
