//! Where a part of a problem's touches ends.

ghost use Rattle.std.specs.Prelude.{◌≡◌, ◌≢◌, ℕ, ◌<◌, ◌≤◌, ◌↔◌, List, length, map, All, nat_eq, IsTrue, IfOk};
ghost use Rattle.std.specs.Cmp.Lexicographic.{pointwise};
ghost use Rattle.cr_row.specs.Rows.{rounds};
ghost use Rattle.cr_model.specs.Dead.{parts_of};
ghost use Rattle.cr_ahead.specs.Home.{power, is_part_end, IsPartEnd};

use cr_model::Problem;
use cr_row::{NoMemory, Row};
use std::alloc::Global;

/// Of each head whether a part ends at it. Err where no memory is left.
pub fn ends_of(alloc: Global, problem: &Problem, heads: &[Row]) -> Result<Vec<bool>, NoMemory>
    requires { All (λ head. length head ≡ problem.now.stage) heads.now }
    ensures { IfOk result (λ ends. ends.items ≡ map (is_part_end problem.now) heads.now) }
{
    let mut ends = Vec::with_capacity(alloc, heads.len())?;
    for head in heads {
        ends.push(is_end(problem, head))?;
    }
    Ok(ends)
}

// Whether a part ends at a head.
fn is_end(problem: &Problem, head: &Row) -> bool
    requires { length head.now ≡ problem.now.stage }
    ensures { result ≡ is_part_end problem.now head.now }
{
    let mut power = Row::rounds(problem.stage());
    for passed in 0..problem.parts() - 1 {
        power = head.times(&power);
        if is_rounds(&power) {
            return false;
        }
    }
    is_rounds(&head.times(&power))
}

// Whether a row is rounds.
fn is_rounds(row: &Row) -> bool
    ensures { result ≡ pointwise nat_eq row.now (rounds (length row.now)) }
{
    *row == Row::rounds(row.stage())
}
