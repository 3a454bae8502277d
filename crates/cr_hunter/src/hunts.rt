//! The plain hunt on three bells.

ghost use Rattle.std.specs.Prelude.{◌≡◌, [], ◌∷◌, IfOk};
ghost use Rattle.cr_board.specs.Examples.{on_three, hunt, hunts};

use cr_model::{Lead, Problem, Query, Step};
use cr_row::{Change, Stage};
use std::alloc::Global;
use std::test::Fail;

/// The plain hunt on three bells, from the front and from behind, up to six changes. Err where no memory is left.
pub fn plain_hunts(alloc: Global) -> Result<Problem, Fail>
    ensures { IfOk result (λ p. p ≡ hunts) }
{
    hunts_within(alloc, 6)
}

/// The same up to some number of changes. Err where that is no length, or no memory is left.
pub fn hunts_within(alloc: Global, max: i64) -> Result<Problem, Fail>
    ensures { IfOk result (λ p. p ≡ record hunts { query = record hunts.query { max = max } }) }
{
    let stage = Stage::new(3).ok_or("the stage is from 3 to 16")?;
    let mut leads = Vec::new(alloc);
    leads.push(plain_hunt(alloc, b'p', 3, 1)?)?;
    leads.push(plain_hunt(alloc, b'b', 1, 3)?)?;
    let query = Query {
        min: 1,
        max,
        parts: 1,
        counts: Vec::new(alloc),
        method_counts: Vec::new(alloc),
        patterns: Vec::new(alloc),
        com: None,
    };
    match Problem::new(stage, [b'A'].to_vec(alloc)?, leads, query) {
        Ok(problem) => Ok(problem),
        Err(_) => Err(Fail::from("the parts are refused")),
    }
}

// Six changes on three bells, of two places in turn.
fn plain_hunt(alloc: Global, mark: u8, first: u8, second: u8) -> Result<Lead, Fail>
    ensures { IfOk result (λ lead. lead ≡ hunt mark first second) }
{
    let one = change(first)?;
    let other = change(second)?;
    let changes = [one, other, one, other, one, other].to_vec(alloc)?;
    let step = Step { method: 0, mark };
    Ok(Lead { step, changes })
}

// The change on three bells that makes one place.
fn change(place: u8) -> Result<Change, Fail>
    ensures { IfOk result (λ change. change ≡ on_three (place ∷ [])) }
{
    let stage = Stage::new(3).ok_or("the stage is from 3 to 16")?;
    match Change::from_places(stage, &[place]) {
        Ok(change) => Ok(change),
        Err(_) => Err(Fail::from("the place is that of a change")),
    }
}
