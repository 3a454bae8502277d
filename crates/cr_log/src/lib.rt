//! The log of a whole search, and the book that it proves.
//!
//! A log has a line for each node that a search of the problem comes to, the root's first: `open`, or why no kept touch
//! is below it. Of a node the first verdict that holds is written, so that a problem has one log. Who does not trust a
//! search can read its log, and check each line with the definitions of `cr_audit` alone.
//!
//! - [`log_run`]: the log of a problem, and its book ([`Logged`]).
//!
//! A node is judged by its rows, which stand on a stack, and by its steps; nothing of the search is asked, and no node is
//! rung from rounds. The levels of rows that a search looks at beside are not looked at here, so that a log is longer
//! than the search's tree.
//!
//! ```rust
//! // `problem` is Plain Bob Minimus.
//! let run = log_run(alloc, &problem)?;
//! assert_eq!(rt; run.book.len(), 1);
//! assert_eq!(rt; run.lines.len(), 5);
//! ```
#![tactic(auto)]

mod counting;
mod finding;
mod items;
mod judging;
pub mod laws;
mod limits;
mod logging;
mod ringing;
mod shapes;

pub use logging::{Logged, log_run};
