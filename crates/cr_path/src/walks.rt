//! Walks through the nodes of a problem by its numbers.

pub mod borrowed_lists;
pub mod ends;
pub mod marks;
pub mod node_counts;
pub mod path;
pub mod repeats;
pub mod walk;
