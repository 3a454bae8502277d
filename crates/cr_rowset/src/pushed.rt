//! What a push answers.

/// What a row stack did with a row.
#[derive(Debug, Drop, Clone, Copy, PartialEq, Eq)]
pub enum Pushed {
    /// The row stood nowhere, and is now the last one.
    Fresh,
    /// The row stands at this place already, counted from 0. Nothing is changed.
    Again(u64),
    /// The row stands nowhere, and there is no room for it. Nothing is changed.
    Full,
}
