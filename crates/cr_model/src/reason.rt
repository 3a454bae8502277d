//! Reasons why no kept touch is below a node.

/// Why a node is dead: no kept touch has it above it. They are looked at in this order.
#[derive(Clone, Copy, Debug, PartialEq, Eq)]
pub enum Reason {
    /// The node is longer than a part may be.
    Long,
    /// Its last lead has a row twice.
    SelfFalse,
    /// It has a row twice.
    Again,
    /// It comes round too early.
    Home,
    /// It can't come round in time.
    Far,
    /// It has too many leads, rows or changes of method that are counted.
    TooMany,
    /// It can't have enough of them in time.
    TooFew,
    /// A rotation of what it begins is less.
    TurnsBack,
}
