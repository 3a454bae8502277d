//! Verdicts on nodes.

/// An item of a query, by its index from 0: a count of a mark, a count of a method, a pattern, or the limit on changes of
/// method.
#[derive(Clone, Copy, Debug, PartialEq, Eq)]
pub enum Item {
    /// An item of `counts`.
    Count(u64),
    /// An item of `method_counts`.
    Leads(u64),
    /// An item of `patterns`.
    Rows(u64),
    /// The limit on changes of method.
    Com,
}

/// What a line of a log says of its node. Places of rows and indexes count from 0.
#[derive(Clone, Copy, Debug, PartialEq, Eq)]
pub enum Verdict {
    /// The node is valid, and the lines of its children come next.
    Open,
    /// It is longer than a part may be.
    Long,
    /// Its rows at these two places are equal.
    Again(u64, u64),
    /// Its row at this place is rounds, too early.
    Home(u64),
    /// It has more than this item allows.
    Many(Item),
    /// It can't come to have what this item asks for.
    Few(Item),
    /// Its steps from this one on are less than as many at its beginning.
    Back(u64),
}
