//! Pieces of a line.

use cr_model::NotationFault;

/// A piece of a line.
#[derive(Drop, Clone, Copy)]
pub enum Piece<'a> {
    /// These bytes.
    Text(&'a [u8]),
    /// A number in decimal.
    Number(u64),
    /// A number in decimal, which may be negative.
    Signed(i64),
    /// These bytes as they are printed.
    Shown(&'a [u8]),
    /// The name and the place of a fault of a notation.
    Wrong(NotationFault),
}
