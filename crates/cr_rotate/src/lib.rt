//! Rotations of words of steps: which words turn back, and which are the least of their rotations.
//!
//! A touch can be begun at each of its leads, and its book has the least of these rotations. A word turns back where
//! some end of it is less than its front of that length; then no word that it begins is the least of its rotations, and
//! a search drops it.
//!
//! - [`Period`]: a word that grows and shrinks at its end, and tells at once whether it turns back, whether it would
//!   with a step more, and whether it is the least of its rotations. All its memory is taken in [`Period::new`].
//! - [`turns_back`]: whether a whole word turns back.
//! - [`turned`]: the rotation of a calling that begins after so many leads.
//!
//! The functions of [`laws`] do nothing; the contract of each is what is proved of rotations.
#![tactic(auto)]

pub mod laws;
mod period;
mod rotations;

pub use period::Period;
pub use rotations::{turned, turns_back};

#[cfg(test)]
mod tests;
