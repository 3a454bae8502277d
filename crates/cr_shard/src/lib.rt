//! Shards: one search cut into many checkpoints, which are searched apart, and joined again without loss.
//!
//! `cut_blocks` deals what a search has found and the nodes that are left of it to so many checkpoints, and writes
//! these as blocks, one after another. `join_blocks` reads such blocks, in any order and at any state of their
//! searches, and makes one checkpoint of them; it tells which of them do not belong together.
//!
//! `cut_text` cuts a checkpoint as its text is read, where that has mostly nodes: it keeps no list of them.
//!
//! ```text
//! let text = cut_blocks(alloc, &problem, problem_bytes, &found, &jobs, 7)?;
//! let whole = join_blocks(alloc, &text)?;
//! ```
#![tactic(auto)]

mod bodies;
mod cut;
mod dealer;
mod fault;
mod hashes;
mod join;
mod joining;
pub mod laws;
mod overlap;
mod pieces;
mod problems;
mod survey;
mod text_cut;
mod way;
mod words;

pub use cut::cut_blocks;
pub use fault::JoinFault;
pub use join::join_blocks;
pub use text_cut::cut_text;
