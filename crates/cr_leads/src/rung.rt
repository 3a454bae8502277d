//! What ringing a calling tells.

use cr_row::Row;

/// The rows of a calling, in their order, and what is told of them.
#[derive(Drop)]
pub struct Rung {
    /// The rows after each change. The rounds that the calling starts from are not among them.
    pub rows: Vec<Row>,
    /// Whether there is a last row and it is rounds.
    pub round: bool,
    /// Whether all rows differ.
    pub distinct: bool,
}
