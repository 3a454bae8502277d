//! The tables of the command line: its options, and the modes that `--do` names.

ghost use Rattle.std.specs.Prelude.{◌≡◌, map, Some};
ghost use Rattle.cr_words.specs.Values.{Assigned, every_of, into_of, is_among, mode_for, number_for, search_with};

use crate::Mode;

/// An option beside `--do`, and its value where it is not given.
#[derive(Clone, Copy, Drop)]
pub struct Choice {
    pub name: &'static str,
    pub default: Option<&'static str>,
}

/// The options beside `--do`.
pub const CHOICES: &[Choice] = &[
    Choice {
        name: "workers",
        default: Some("1"),
    },
    Choice {
        name: "turns",
        default: None,
    },
    Choice {
        name: "number",
        default: Some("0"),
    },
    Choice {
        name: "every",
        default: None,
    },
    Choice {
        name: "into",
        default: Some("1"),
    },
];

/// What `--do` names, without the numbers that its mode may carry.
#[derive(Clone, Copy, Drop)]
pub enum Kind {
    Search,
    Make,
    Last,
    Cut,
    Join,
    Log,
    Audit,
}

// The mode of a search, with a trail where it is said after how many turns each checkpoint comes.
fn search_with(every: Option<u64>) -> Mode
    ensures { result ≡ search_with every }
{
    match every {
        Some(every) => Mode::Trail(every),
        None => Mode::Search,
    }
}

impl Kind {
    /// The mode of this kind.
    pub fn mode(self, number: u32, every: Option<u64>, into: u32) -> Mode
        ensures { (a : Assigned) → number_for a ≡ Some number → every_of a ≡ Some every → into_of a ≡ Some into
            → mode_for a self ≡ Some result }
    {
        match self {
            Kind::Search => search_with(every),
            Kind::Make => Mode::Make(number),
            Kind::Last => Mode::Last,
            Kind::Cut => Mode::Cut(into),
            Kind::Join => Mode::Join,
            Kind::Log => Mode::Log,
            Kind::Audit => Mode::Audit,
        }
    }
}

/// What `--do` may name: the name, what that is, and the options that it uses.
#[derive(Clone, Copy, Drop)]
pub struct Task {
    pub name: &'static str,
    pub kind: Kind,
    pub uses: &'static [&'static str],
}

/// All that `--do` may name.
pub const TASKS: &[Task] = &[
    Task {
        name: "search",
        kind: Kind::Search,
        uses: &["workers", "turns", "every"],
    },
    Task {
        name: "make",
        kind: Kind::Make,
        uses: &["workers", "number"],
    },
    Task {
        name: "last",
        kind: Kind::Last,
        uses: &[],
    },
    Task {
        name: "cut",
        kind: Kind::Cut,
        uses: &["into"],
    },
    Task {
        name: "join",
        kind: Kind::Join,
        uses: &[],
    },
    Task {
        name: "log",
        kind: Kind::Log,
        uses: &[],
    },
    Task {
        name: "audit",
        kind: Kind::Audit,
        uses: &[],
    },
];

/// Whether a name is one of these.
pub fn is_among(names: &[&str], name: &str) -> bool
    ensures { result ≡ is_among (map (λ s. s.now) names.now) name.now }
{
    for other in names {
        if *other == name {
            return true;
        }
    }
    false
}
