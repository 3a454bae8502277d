//! Running a board to its end.
//!
//! A board is run until no job is left, or all turns of its budget are spent: by one worker, or by all its workers
//! side by side. Either way the board that comes back has found what it covers, or still has jobs for the rest.
//! [`laws`] says when a run finishes.
//!
//! - [`run_alone`]: runs an open board by its first worker. It waits for nobody.
//! - [`run_workers`]: opens a board and runs it by as many threads as it has workers, then finishes alone what they
//!   leave. Each worker keeps numbers of the jobs that it opened in a lane of its own and steals from the others', so that
//!   it need not look for a job under the board's lock ([`LaneHints`]).
//!
//! Both fail only where no memory is left.
//!
//! ```rust
//! // `search` is an explorer of `problem`.
//! let opening = Opening::fresh(alloc, problem, None, 4)?;
//! let board = run_workers(&rt, alloc, opening, &search)?;
//! assert!(rt; board.is_done());
//! let touches = board.found().len();
//! ```
#![tactic(auto)]

mod alone;
mod crew;
mod hints;
pub mod laws;
mod places;
mod workers;

pub use alone::run_alone;
pub use crew::hints_of;
pub use hints::LaneHints;
pub use workers::{run_workers, run_workers_with_room};
