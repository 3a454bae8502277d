//! Problems and callings, and the definitions that the engine rests on.
//!
//! A problem has a stage, the letters of its methods, its leads and a query, and each value of [`Problem`] is right:
//! what makes one checks everything. A calling is the leads of a touch by their step numbers. The definitions in
//! `specs/` say what a true touch is, which of its rotations is kept, what a problem's book is, and which nodes a
//! search may drop; docs/definitions.md goes through them.
//!
//! - [`Problem::new`]: a problem of its parts, or the first that is wrong ([`PartFault`]).
//! - [`Problem::cap`], [`Problem::parts`], [`Problem::length_of`]: the greatest length, the number of parts, and how
//!   many changes a calling has.
//! - [`Lead`], [`Step`], [`Query`]: what a problem is made of.
//! - [`Calling`]: the steps of a touch or of a part.
//! - [`ProblemFault`], [`NotationFault`]: why a file is no problem and a text no notation; the crates that read them
//!   answer these.
//! - [`Reason`]: why no kept touch is below a node.
//! - [`common_front`]: with how many equal steps two lists begin.
//!
//! The functions of [`laws`] do nothing; the contract of each is what is proved of the definitions.
#![tactic(auto)]

mod calling;
mod checks;
mod copies;
mod count_checks;
mod fault;
mod few_steps;
mod file_fault;
mod fronts;
mod given;
pub mod laws;
mod lead;
mod lead_checks;
mod lengths;
mod letter_checks;
pub mod limits;
mod notation;
mod pattern_checks;
mod problem;
mod query;
mod reason;
mod step_list;

pub use calling::Calling;
pub use fault::{CountAt, PartFault};
pub use file_fault::{KeyPath, ProblemFault, Whose};
pub use fronts::common_front;
pub use lead::{Lead, PLAIN, Step};
pub use letter_checks::first_wrong_letter;
pub use notation::NotationFault;
pub use problem::Problem;
pub use query::{Cell, Com, Count, MethodCount, Pattern, Query};
pub use reason::Reason;
