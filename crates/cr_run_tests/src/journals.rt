//! Journals of one worker that finds both touches of the plain hunt.

use cr_board::Entry;

// The journal of worker 0 that works on each of these jobs whole, one after another, and finds a touch with one turn in each.
macro_rules! worked_whole {
    ($($job:literal),*) => {
        &[
            $(
                Entry::Take {
                    worker: 0,
                    lane: 0,
                    job: $job,
                    grant: 4096,
                },
                Entry::Hand {
                    worker: 0,
                    job: $job,
                    used: 1,
                    touches: 1,
                    opened: 0,
                },
            )*
        ]
    };
}

/// Job 0 first.
pub const FIRST_FIRST: &[Entry] = worked_whole!(0, 1);

/// Job 1 first, as without hints.
pub const SECOND_FIRST: &[Entry] = worked_whole!(1, 0);
