//! The limits that each problem keeps to.

/// Methods of a problem.
pub const MOST_METHODS: usize = 8;

/// Steps of a problem: the plain lead and the calls of each method, together.
pub const MOST_STEPS: usize = 24;

/// Changes of a lead.
pub const MOST_LEAD_CHANGES: usize = 128;

/// Changes of a touch, and the greatest number that any limit may say.
pub const MOST_CHANGES: i64 = 12_000;

/// Leads of a calling.
pub const MOST_LEADS: usize = 1_024;

/// Parts of a touch.
pub const MOST_PARTS: i64 = 64;

/// Counts of marks, and counts of methods.
pub const MOST_COUNTS: usize = 16;

/// Patterns of a query.
pub const MOST_PATTERNS: usize = 32;
