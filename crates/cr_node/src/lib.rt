//! Nodes, finished work on them, and what explores them.
//!
//! A node is a list of steps, and stands for all callings that begin with it. A job is a list of nodes. Who is given a
//! job explores it in so many turns, and brings back what was found and which nodes are left.
//!
//! - [`Node`]: a node; [`less`] and [`is_prefix`] compare two.
//! - [`Explorer`]: the trait of all that explores jobs.
//! - [`Done`]: finished work, which is right by its type: what was found and what is left cover what the job covered.
//! - [`independent`]: the first two of some found touches and nodes that overlap, or none.
//!
//! The functions of [`laws`] do nothing; the contract of each is what is proved of work and of overlaps.
#![tactic(auto)]

mod done;
mod explorer;
mod few_steps;
mod independence;
pub mod laws;
mod node;
mod words;

pub use done::{Done, DoneParts};
pub use explorer::Explorer;
pub use independence::independent;
pub use node::{Node, is_prefix, less};

#[cfg(test)]
mod tests;
