//! The parts of a problem file and the keys of their tables, in their order.

use cr_model::limits::{MOST_COUNTS, MOST_METHODS, MOST_PATTERNS};

/// What may stand at a key.
#[derive(Clone, Copy, Drop)]
pub enum Kind {
    Text,
    Number,
    /// One or more of the methods' letters, each once.
    Letters,
}

/// A key that a table may have, or must have where it is needed.
#[derive(Clone, Copy, Drop)]
pub struct Key {
    pub name: &'static str,
    pub kind: Kind,
    pub needed: bool,
}

/// What a part is.
#[derive(Clone, Copy, Drop)]
pub enum Shape {
    /// An array of a number of tables, from the least to the most. It may be absent where it may have none.
    Several(usize, usize),
    /// A table, needed or not.
    Single(bool),
}

/// A part of the file: its name in the top, and the keys of each of its tables.
#[derive(Clone, Copy, Drop)]
pub struct Part {
    pub name: &'static str,
    pub shape: Shape,
    pub keys: &'static [Key],
}

const LETTER: Key = Key {
    name: "letter",
    kind: Kind::Text,
    needed: true,
};

const MARK: Key = Key {
    name: "mark",
    kind: Kind::Text,
    needed: true,
};

const NOTATION: Key = Key {
    name: "notation",
    kind: Kind::Text,
    needed: true,
};

const NAME: Key = Key {
    name: "name",
    kind: Kind::Text,
    needed: false,
};

const OVER: Key = Key {
    name: "over",
    kind: Kind::Number,
    needed: false,
};

const METHODS: Key = Key {
    name: "methods",
    kind: Kind::Letters,
    needed: false,
};

const PATTERN: Key = Key {
    name: "pattern",
    kind: Kind::Text,
    needed: true,
};

const LEAST: Key = Key {
    name: "min",
    kind: Kind::Number,
    needed: true,
};

const MOST: Key = Key {
    name: "max",
    kind: Kind::Number,
    needed: true,
};

const MIN: Key = Key {
    name: "min",
    kind: Kind::Number,
    needed: false,
};

const MAX: Key = Key {
    name: "max",
    kind: Kind::Number,
    needed: false,
};

const COPIES: Key = Key {
    name: "parts",
    kind: Kind::Number,
    needed: false,
};

/// The parts.
pub const PARTS: &[Part] = &[
    Part {
        name: "method",
        shape: Shape::Several(1, MOST_METHODS),
        keys: &[LETTER, NOTATION, NAME],
    },
    Part {
        name: "call",
        shape: Shape::Several(0, 23),
        keys: &[MARK, NOTATION, OVER, METHODS],
    },
    Part {
        name: "query",
        shape: Shape::Single(true),
        keys: &[LEAST, MOST, COPIES],
    },
    Part {
        name: "count",
        shape: Shape::Several(0, MOST_COUNTS),
        keys: &[MARK, MIN, MAX],
    },
    Part {
        name: "leads",
        shape: Shape::Several(0, MOST_COUNTS),
        keys: &[LETTER, MIN, MAX],
    },
    Part {
        name: "rows",
        shape: Shape::Several(0, MOST_PATTERNS),
        keys: &[PATTERN, MIN, MAX],
    },
    Part {
        name: "com",
        shape: Shape::Single(false),
        keys: &[MIN, MAX],
    },
];

/// The key of the top that is no part.
pub const STAGE: Key = Key {
    name: "stage",
    kind: Kind::Number,
    needed: true,
};
