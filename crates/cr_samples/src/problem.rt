//! The problem of a draft.

use crate::draft::Draft;
use cr_model::{Lead, Pattern, Problem, Query, Step};
use cr_row::{Change, Stage};
use std::alloc::Global;
use std::test::Fail;

/// The changes of a text: a dot stands between two, and each is its places, `0` for the tenth, or `x` for none. Err
/// where the places are those of no change of the stage, or no memory is left.
pub fn changes_of(alloc: Global, stage: Stage, text: &[u8]) -> Result<Vec<Change>, Fail> {
    let mut changes = Vec::new(alloc);
    for group in text.split(|byte| *byte == b'.') {
        let mut places = Vec::new(alloc);
        for byte in group {
            if *byte != b'x' {
                places.push(place_of(*byte))?;
            }
        }
        let change = Change::from_places(stage, &places).ok();
        changes.push(change.ok_or("the places are those of a change")?)?;
    }
    Ok(changes)
}

// The place that a digit names.
fn place_of(digit: u8) -> u8 {
    match digit {
        b'0' => 10,
        _ => digit.saturating_sub(b'0'),
    }
}

/// What a draft asks for. Err where no memory is left.
pub fn query_of(alloc: Global, draft: &Draft) -> Result<Query, Fail> {
    let mut patterns = Vec::new(alloc);
    if !draft.cells.is_empty() {
        patterns.push(Pattern {
            cells: draft.cells.to_vec(alloc)?,
            min: draft.fitting.0,
            max: draft.fitting.1,
        })?;
    }
    Ok(Query {
        min: draft.length.0,
        max: draft.length.1,
        parts: draft.parts,
        counts: draft.counts.to_vec(alloc)?,
        method_counts: draft.method_counts.to_vec(alloc)?,
        patterns,
        com: draft.com,
    })
}

/// The problem of a draft. Err where its parts are no problem's, or no memory is left.
pub fn problem_of(alloc: Global, draft: &Draft) -> Result<Problem, Fail> {
    let stage = Stage::new(draft.stage).ok_or("the stage is from 3 to 16")?;
    let letters = draft.letters.to_vec(alloc)?;
    let mut leads = Vec::new(alloc);
    for (method, mark, text) in draft.leads {
        let step = Step {
            method: *method,
            mark: *mark,
        };
        let changes = changes_of(alloc, stage, text)?;
        leads.push(Lead { step, changes })?;
    }
    match Problem::new(stage, letters, leads, query_of(alloc, draft)?) {
        Ok(problem) => Ok(problem),
        Err(_) => Err(Fail::from("the parts are refused")),
    }
}
