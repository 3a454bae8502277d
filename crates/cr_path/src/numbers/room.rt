//! How much room numbers have.

ghost use Rattle.std.specs.Prelude.{◌≤◌, length};

use cr_false::TellingRows;

/// The most rows that are numbered, whatever is asked for: 10 bells have 3,628,800.
pub const MOST_ROWS: u32 = 1 << 22;

/// The most heads that are numbered.
pub const MOST_HEADS: u32 = 2 * MOST_ROWS;

// How many bytes a lead takes while numbers are made, and how many each row that tells it: of these rows and of the
// representative ones, and for the leads in which a row stands.
const RECORD_BYTES: u64 = 48;

const NUMBER_BYTES: u64 = 12;

/// How much the numbers of a problem may take while they are made.
#[derive(Clone, Copy)]
pub struct Room {
    /// The bytes of the records and numbers of all heads.
    pub bytes: u64,
    /// The heads.
    pub heads: u32,
    /// The rows. Each takes some 24 bytes more.
    pub rows: u32,
}

impl Room {
    /// How many rows get numbers at most.
    pub fn row_limit(self) -> u32
        ensures { result ≤ MOST_ROWS }
    {
        self.rows.min(MOST_ROWS)
    }

    /// How many heads get numbers at most: no more than have room, also with the rows that tell the leads of so many steps, and
    /// than whose rows, of the step with fewest, are twice the most. For often two leads make one row.
    pub fn head_limit(self, told: &TellingRows, steps: u8) -> u32
        requires { steps ≤ length told.now }
        ensures { result ≤ MOST_HEADS }
    {
        let mut bytes: u64 = 0;
        let mut fewest = u64::from(MOST_ROWS);
        for step in 0..steps {
            let rows = told.rows_of(step).len() as u64;
            bytes = bytes.saturating_add(RECORD_BYTES + NUMBER_BYTES * rows);
            fewest = fewest.min(rows);
        }
        let by_rows = u64::from(2 * self.row_limit()) / fewest.max(1);
        let by_bytes = self.bytes / bytes.max(1);
        by_rows.min(by_bytes).min(u64::from(self.heads)) as u32
    }
}
