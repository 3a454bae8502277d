//! Paths by numbers: where the lead heads of a problem can be numbered, a walk through its nodes rings nothing.
//!
//! The leads of many problems come to few lead heads. This crate rings them all once, before the search, and gives
//! numbers to the heads and to rows that tell the leads apart: two leads have a row in common exactly where they
//! have such a representative row in common. A walk then looks up what another walk would ring.
//!
//! - [`NumberTable::new`]: the numbers of a problem, or `None` where there are too many of them.
//! - [`NumberTable::width`]: how many numbers each lead has.
//! - [`NumberTable::heads`], [`NumberTable::next_heads`]: the lead heads, and to which of them each step leads.
//! - [`is_counted`]: whether the query counts anything.
//! - [`NumberWalk::new`]: the walk at the root. All its memory is taken here. Its constants are the width of the
//!   table, 0 only where nothing is counted, and the number of steps, or 0.
//! - [`NumberWalk::go_to`]: goes to a node.
//! - [`NumberWalk::go_down`], [`NumberWalk::go_up`]: to the next child that is not dead, and back.
//! - [`NumberWalk::head_number`], [`NumberWalk::item_number`]: the number of the node's head, and how much the node has so
//!   far of what the query limits.
//! - [`NumberWalk::comes_round`], [`NumberWalk::is_least`]: whether the node's touch ends in rounds, and whether no
//!   rotation of the node is less.
//!
//! ```rust
//! let leads = LeadTable::new(alloc, &problem)?;
//! let reach = ReachTable::new(alloc, &leads, 200_000)?;
//! if let Some(numbers) = NumberTable::new(alloc, &problem, &leads, &reach, 1_000)? {
//!     // Each lead of this problem has three numbers.
//!     let mut walk: NumberWalk<3, 1, 0> = NumberWalk::new(alloc, &problem, &leads, &numbers)?;
//!     walk.go_to(&[]);
//!     if let Some(step) = walk.go_down() {
//!         let node: &[u8] = walk.steps();
//!         walk.go_up();
//!     }
//! }
//! ```
#![tactic(auto)]

mod laws;
mod numbers;
mod walks;

pub use laws::{
    a_row_in_common_is_told, heads_lead_to_heads, leads_die_at_the_edges,
    plain_bob_minimus_has_its_numbers,
};
pub use numbers::room::Room;
pub use numbers::table::NumberTable;
pub use walks::node_counts::is_counted;
pub use walks::walk::NumberWalk;
