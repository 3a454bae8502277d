//! What the making of a table answers.

use crate::table::FalseTable;

/// A falseness table, or how many rows it would hold.
#[derive(Drop)]
pub enum Built {
    /// The sets hold so many rows in all, which are more than were allowed.
    Wide(u64),
    /// The table: its sets hold no more rows than were allowed.
    Table(FalseTable),
}
