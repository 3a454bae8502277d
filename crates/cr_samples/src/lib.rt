//! Problems in short, for tests.
//!
//! - [`Draft`]: a problem in short. [`DOUBLES`], [`MINIMUS`], [`MINIMUS_WITH_SINGLES`], [`SPLICED`] and [`MINOR`] are
//!   drafts that tests begin with.
//! - [`problem_of`]: the problem of a draft.
//! - [`changes_of`] and [`query_of`]: its parts.
//!
//! ```rust
//! let short = Draft { length: (1, 20), ..DOUBLES };
//! let problem = problem_of(alloc, &short)?;
//! ```
#![tactic(auto)]

mod draft;
mod problem;

pub use draft::{DOUBLES, Draft, MINIMUS, MINIMUS_WITH_SINGLES, MINOR, SPLICED};
pub use problem::{changes_of, problem_of, query_of};
