//! Place notation: texts that spell changes.
//!
//! A text like `x14x14,12` spells the changes of a lead. What is behind a comma, and what is before it, is rung
//! forwards and then backwards without the last change again.
//!
//! - [`read_notation`]: the changes that a text spells, or its first fault (`cr_model::NotationFault`).
//! - [`write_notation`]: the one spelling of some changes that is written everywhere.
//!
//! Both fail for want of memory too. The other public functions are laws: each does nothing, and its contract is what
//! is proved of texts.
//!
//! ```rust
//! let stage = Stage::new(4).ok_or("4 bells are a stage")?;
//! let changes = read_notation(alloc, stage, "x14x14,12")?;
//! let text = write_notation(alloc, stage, &changes)?;
//! ```
#![tactic(auto)]

mod kept;
mod laws;
mod reader;
mod writer;

pub use laws::{
    a_canonical_text_spells_its_changes, a_text_has_one_first_fault, a_text_is_taken_or_refused,
    a_text_spells_one_list, no_text_is_taken_and_refused, spelled_changes_are_changes,
};
pub use reader::read_notation;
pub use writer::write_notation;

#[cfg(test)]
mod tests;
