//! Lanes of numbers without a lock: each has an end, at which its owner puts numbers and takes the last one, and
//! thieves steal the first.
//!
//! They are meant for workers that share no lock: each worker has the end of its own lane, and a thief that steals
//! from every lane. The numbers of a lane ascend. Whatever the threads do, each number that was put is left, taken
//! or stolen, once. All memory is taken in [`Lanes::new`].
//!
//! - [`Lanes::new`]: a lane for each of 1 to 64 workers, with its end, and as many thieves.
//! - [`LaneEnd::put`]: puts a number behind the others, or gives it back where the lane had its fill ([`Full`]).
//! - [`LaneEnd::take`]: takes the last number of the lane.
//! - [`Lanes::steal`]: steals the first number of a lane. It tries again while others take, and so may wait.
//! - [`Lanes::close`]: takes all ends and thieves back, and tells how many numbers are left.
//!
//! ```rust
//! let (lanes, mut ends, mut thieves) = Lanes::new(alloc, 1, 4)?;
//! for number in 1..5u64 {
//!     assert_eq!(rt; ends[0].put(number), Ok(()));
//! }
//! assert_eq!(rt; ends[0].put(5), Err(Full(5)));
//!
//! assert_eq!(rt; lanes.steal(&rt, &mut thieves[0], 0), Some(1));
//! assert_eq!(rt; ends[0].take(), Some(4));
//! assert_eq!(rt; lanes.close(ends, thieves), 2);
//! ```
#![tactic(auto)]

mod end;
mod known;
mod lanes;
mod laws;
mod rule;
mod thief;

pub use end::{Full, LaneEnd};
pub use lanes::Lanes;
pub use laws::{
    a_new_lane_is_empty, an_end_alone_takes_all, closes_by_example, each_number_is_in_one_place,
    lists_by_example, rules_by_example,
};
pub use thief::Thief;

#[cfg(test)]
mod tests;
