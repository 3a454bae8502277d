//! The search of a job, turn by turn.
//!
//! A turn takes one node: its touch is found if it is kept, and its children that are not dead are put in its
//! place. The search of a problem takes turns on a job until nothing of it is left, or as many as it may. A
//! [`Path`] goes from node to node: by numbers where those have room, and else by ringing each lead. All searches
//! of a problem find and leave the same.
//!
//! - [`make_search`]: the search of a problem, which is an `Explorer`. It makes the tables, and takes their memory.
//!   [`Search::with_more_room`]: the same search with larger tables, for one that rings and is long ([`LONG_ROOM`]) or longer
//!   still ([`LONGEST_ROOM`]).
//! - [`RowSearch`], [`TableSearch`]: a search without a falseness table, and one with it. A [`Search`] is either.
//! - [`take_turns`]: the loop of turns over any path, and what it found and left ([`Explored`]).
//! - [`find_all`]: the same loop for who counts no turns: it passes by the nodes below which a path knows that nothing is
//!   kept.
//!   [`Search::looking_ahead`]: the search ([`NarrowSearch`]) that does so.
//! - [`NumberPath`], [`WalkPath`]: the paths. [`NarrowPath`]: one by numbers that knows what can still come.
//! - [`first_unkept`]: the first of some touches that is not kept, told at the speed of the search.
//!   [`first_unkept_by`]: the same by several threads.
//!
//! ```rust
//! // `problem` is Plain Bob Minimus, whose tree has four nodes.
//! let search = make_search(&rt, alloc, &problem)?;
//! let mut job = Vec::new(alloc);
//! job.push(Node::root(alloc))?;
//!
//! let done = search.explore(alloc, &job, 4096)?;
//! assert_eq!(rt; done.found().len(), 1);
//! assert_eq!(rt; done.rest().len(), 0);
//! assert_eq!(rt; done.used(), 4);
//! ```
#![tactic(auto)]

mod all_touches;
mod changing_path;
mod choice;
mod coming_round;
mod in_threads;
mod keeping;
pub mod laws;
mod narrow;
mod narrow_path;
mod number_path;
mod path;
mod row_search;
mod search;
mod slices;
mod standing;
mod table_search;
mod tables;
mod touches;
mod unkept;
mod walk_path;
mod walking;
mod widths;

pub use all_touches::find_all;
pub use choice::{Search, make_search};
pub use cr_path::Room;
pub use in_threads::first_unkept_by;
pub use narrow::NarrowSearch;
pub use narrow_path::NarrowPath;
pub use number_path::NumberPath;
pub use path::Path;
pub use row_search::RowSearch;
pub use search::{Explored, take_turns};
pub use table_search::TableSearch;
pub use tables::{LONG_ROOM, LONGEST_ROOM};
pub use unkept::first_unkept;
pub use walk_path::WalkPath;
