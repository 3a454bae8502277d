//! The rule of a lane, and what each step tells its pass.

use crate::known::Known;
use crossbeam_deque::protocol::{Join, Lesson, Outcome, Protocol, Split};

/// The rule of a lane.
pub struct Lane;

impl Protocol<u64, Known> for Lane {
    ghost use Rattle.std.specs.Prelude.{[]};
    ghost use Rattle.cr_lanes.specs.Lane.{LaneRule, end, spent};

    ghost holds = { LaneRule };

    ghost first = { end [] [] [] 0 };

    ghost guest = { spent };
}

/// A number was put.
pub struct Puts;

impl Outcome<u64, Known> for Puts {
    ghost use Rattle.std.specs.Prelude.{◌≡◌};
    ghost use Rattle.cr_lanes.specs.Lane.{with_put};

    ghost then = { λ v xs w. w ≡ with_put v xs };
}

/// The last number was taken.
pub struct Takes;

impl Outcome<u64, Known> for Takes {
    ghost use Rattle.cr_lanes.specs.Steps.{HadAtMost, Took};

    ghost then = { Took };

    ghost empty = { HadAtMost 0 };
}

/// The first number was stolen.
pub struct Steals;

impl Outcome<u64, Known> for Steals {
    ghost use Rattle.cr_lanes.specs.Steps.{HadAtMost, Stole};

    ghost then = { Stole };

    ghost empty = { HadAtMost 1 };
}

/// A thief's pass is made.
pub struct Lends;

impl Split<Known> for Lends {
    ghost use Rattle.std.specs.Prelude.{[]};
    ghost use Rattle.cr_lanes.specs.Lane.{with_lent, thief};

    ghost left = { with_lent };

    ghost right = { λ v. thief [] };
}

/// A thief's pass comes back.
pub struct Returns;

impl Join<Known> for Returns {
    ghost use Rattle.cr_lanes.specs.Lane.{with_back, spent};

    ghost both = { with_back };

    ghost spent = { spent };
}

/// What is left once all passes are back.
pub struct Remaining;

impl Lesson<u64, Known> for Remaining {
    ghost use Rattle.cr_lanes.specs.Steps.{IsAllOf};

    ghost fact = { IsAllOf };
}
