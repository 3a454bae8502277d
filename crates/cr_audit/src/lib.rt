//! Logs of a whole search, and what they prove.
//!
//! A log has a line for each node that a search came to: `open`, or why no kept touch is below it. Where every verdict
//! holds, the kept touches of the open nodes are all there are: the log proves the problem's book. Nothing here is
//! shared with the search, so a log is checked by other code than wrote it.
//!
//! - [`audit`]: how many touches a book has, where it is what a log proves; else the first fault ([`AuditFault`]).
//! - [`LogLine`]: a line, a node and the verdict on it ([`Verdict`], [`Item`]).
//! - [`log_text`]: lines as they are written.
//!
//! The functions of [`laws`] do nothing; the contract of each is what is proved of logs.
#![tactic(auto)]

mod auditing;
mod booking;
mod counting;
mod differing;
mod digits;
mod fault;
mod fitting;
mod judging;
mod keeping;
pub mod laws;
mod limits;
mod line;
mod lines;
mod nodes;
mod path;
mod places;
mod reading;
mod touches;
mod verdict;
mod walk;
mod writing;

pub use auditing::audit;
pub use fault::AuditFault;
pub use line::LogLine;
pub use verdict::{Item, Verdict};
pub use writing::log_text;
