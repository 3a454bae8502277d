//! The moves of a problem from lead head to lead head.

ghost use Rattle.std.specs.Prelude.{◌≡◌, ◌*◌, ◌<◌, ◌≤◌, length, replicate, IfOk};
ghost use Rattle.cr_ahead.specs.Units.{IsRange};
ghost use Rattle.cr_ahead.specs.Outlooks.{AreLeadHeads, AreGround};

use crate::ends::ends_of;
use crate::moves::Moves;
use crate::units::{Range, lengths_in_units};
use cr_model::Problem;
use cr_row::{NoMemory, Row};
use std::alloc::Global;

/// The moves between these heads, with lengths in units. They gain nothing. Err where no memory is left.
pub fn moves_of(
    alloc: Global,
    problem: &Problem,
    heads: &[Row],
    next: &[u32],
    range: Range,
) -> Result<Moves, NoMemory>
    requires leads { AreLeadHeads problem.now heads.now next.now }
    requires range { IsRange problem.now range.unit range.least range.greatest }
    ensures ground { IfOk result (λ moves. AreGround problem.now heads.now range moves) }
    ensures next { IfOk result (λ moves. moves.next ≡ next.now) }
    ensures gains { IfOk result (λ moves. moves.gains ≡ replicate (length heads.now * length problem.now.leads) 0) }
{
    let _ = problem.stage();
    let lengths = lengths_in_units(alloc, problem, range.unit)?;
    let ends = ends_of(alloc, problem, heads)?;
    let gains = Vec::from_elem(alloc, 0, next.len())?;
    let next = next.to_vec(alloc)?;
    match Moves::new(next, gains, lengths, ends) {
        Some(moves) => Ok(moves),
        None => unreachable!(),
    }
}
