//! What a problem is made of, in short.

use cr_model::{Cell, Com, Count, MethodCount};

/// A problem in short.
#[derive(Clone, Copy)]
pub struct Draft {
    pub stage: u8,
    /// The letters of the methods, in their order.
    pub letters: &'static [u8],
    /// Of each lead the method, the mark and the changes, as [`crate::changes_of`] reads them.
    pub leads: &'static [(u8, u8, &'static [u8])],
    /// The least and the greatest length, in changes.
    pub length: (i64, i64),
    pub parts: i64,
    pub counts: &'static [Count],
    pub method_counts: &'static [MethodCount],
    /// The cells of the one pattern. Where there are none, there is no pattern.
    pub cells: &'static [Cell],
    /// How many rows fit the cells, at least and at most.
    pub fitting: (i64, i64),
    /// How often the method changes, at least and at most.
    pub com: Option<Com>,
}

/// Plain Bob Doubles with bobs, of at most 120 changes.
pub const DOUBLES: Draft = Draft {
    stage: 5,
    letters: b"A",
    leads: &[
        (0, b'p', b"5.1.5.1.5.1.5.1.5.125"),
        (0, b'b', b"5.1.5.1.5.1.5.1.5.145"),
    ],
    length: (1, 120),
    parts: 1,
    counts: &[],
    method_counts: &[],
    cells: &[],
    fitting: (1, 12_000),
    com: None,
};

/// Plain Bob Minimus with the plain lead alone, of at most 24 changes.
pub const MINIMUS: Draft = Draft {
    stage: 4,
    leads: &[(0, b'p', b"x.14.x.14.x.14.x.12")],
    length: (1, 24),
    ..DOUBLES
};

/// The same with a call that makes all places, in whose lead a row stands twice.
pub const MINIMUS_WITH_SINGLES: Draft = Draft {
    leads: &[
        (0, b'p', b"x.14.x.14.x.14.x.12"),
        (0, b's', b"x.14.x.14.x.14.x.1234"),
    ],
    ..MINIMUS
};

/// Two methods of the same changes, A and C, of 24 changes.
pub const SPLICED: Draft = Draft {
    letters: b"AC",
    leads: &[
        (0, b'p', b"x.14.x.14.x.14.x.12"),
        (1, b'p', b"x.14.x.14.x.14.x.12"),
    ],
    length: (24, 24),
    ..MINIMUS
};

/// Plain Bob Minor with bobs and singles, of at most 72 changes.
pub const MINOR: Draft = Draft {
    stage: 6,
    leads: &[
        (0, b'p', b"x.16.x.16.x.16.x.16.x.16.x.12"),
        (0, b'b', b"x.16.x.16.x.16.x.16.x.16.x.14"),
        (0, b's', b"x.16.x.16.x.16.x.16.x.16.x.1234"),
    ],
    length: (1, 72),
    ..DOUBLES
};
