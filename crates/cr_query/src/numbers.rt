//! Numbers of a problem that are found once.

ghost use Rattle.std.specs.Prelude.{◌≡◌, ◌+◌, ◌-◌, ◌*◌, ◌≤◌};
ghost use Rattle.cr_query.specs.Gauges.{HasSmallNumbers};
ghost use Rattle.cr_query.specs.Meters.{HasNumbers};

use crate::meeting::com_of;
use cr_model::{Com, Problem};

/// The number of parts, the greatest lengths of a touch and of a part, the length of the shortest lead, and the
/// limits on changes of method.
#[derive(Clone, Copy)]
pub struct Numbers {
    pub parts: u64,
    pub most: u64,
    pub part_most: u64,
    pub shortest: u64,
    pub com: Option<Com>,
}

/// The numbers of a problem.
pub fn numbers_of(problem: &Problem) -> Numbers
    ensures is { HasNumbers problem.now result }
    ensures small { HasSmallNumbers result }
{
    Numbers {
        parts: problem.parts(),
        most: problem.cap(),
        part_most: problem.part_cap(),
        shortest: problem.shortest(),
        com: com_of(problem.query()),
    }
}

/// So many in each of the parts.
pub fn in_parts(parts: u64, number: u64) -> u64
    requires parts { parts ≤ 64 }
    requires few { number ≤ 1048576 }
    ensures is { result ≡ parts * number }
    ensures few { result ≤ 67108864 }
{
    parts * number
}

/// So many in each of the parts, and one at each join of two parts.
pub fn with_joins(parts: u64, number: u64) -> u64
    requires some { 1 ≤ parts }
    requires parts { parts ≤ 64 }
    requires few { number ≤ 1048576 }
    ensures { result ≡ parts * number + parts - 1 }
{
    in_parts(parts, number) + parts - 1
}
