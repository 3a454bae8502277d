//! Rows and changes of change ringing, on 3 to 16 bells.
//!
//! A row is an order of the bells, and a change says which neighbours of a row exchange their places. The bells of a
//! stage are numbered from 1, and so are the places. No call of this crate takes memory.
//!
//! - [`Stage`]: the number of bells.
//! - [`Row`]: [`Row::rounds`], the row after a change ([`Row::then`]), products and inverses ([`Row::times`],
//!   [`Row::inverse`]), and a number that tells rows of one stage apart ([`Row::key`]).
//! - [`Change`]: made of the places at which a bell stays ([`Change::from_places`]), or refused with the first fault of
//!   these places ([`PlaceFault`]).
//! - [`symbol`], [`bell_of`]: a bell's letter in print, and the bell of a letter.
//! - [`NoMemory`]: the one error of all crates above for want of memory.
//!
//! The other public functions are laws: each does nothing, and its contract is what is proved of rows.
//!
//! ```rust
//! let stage = Stage::new(4).ok_or("4 bells are a stage")?;
//! let cross = Change::from_places(stage, &[])?;
//! let row = Row::rounds(stage).then(&cross);
//! assert_eq!(rt; row.bell_at(1), 2);
//! ```
#![tactic(auto)]

mod changes;
mod faults;
mod laws;
mod memory;
mod rows;
mod stages;
mod symbols;

pub use changes::Change;
pub use faults::PlaceFault;
pub use laws::{
    change_after_product, change_of_a_row, change_swaps_neighbours, change_twice,
    inverse_is_unique, inverse_on_one_side, keys_tell_rows_apart, place_fault_is_unique,
    product_associates, product_of_rows, rounds_is_neutral, rows_cancel,
};
pub use memory::NoMemory;
pub use rows::Row;
pub use stages::Stage;
pub use symbols::{bell_of, symbol};

#[cfg(test)]
mod tests;
