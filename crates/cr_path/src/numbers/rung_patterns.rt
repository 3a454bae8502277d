//! How many rows of the leads rung from all heads fit the patterns of a problem.

ghost use Rattle.std.specs.Prelude.{◌≡◌, ◌<◌, ◌≤◌, ◌++◌, List, length, get_or, map, flat_map, All, IfOk};
ghost use Rattle.cr_model.specs.declared.query.Cell.{Cell};
ghost use Rattle.cr_model.specs.Right.{FitsStage};
ghost use Rattle.cr_query.specs.Shapes.{shape_of};
ghost use Rattle.cr_path.specs.Numbers.{lead_fitting, leads_fitting, all_fitting};

use crate::numbers::leads::Leads;
use crate::numbers::stopped::Stopped;
use cr_model::Pattern;
use cr_query::Shape;
use cr_row::{NoMemory, Row};
use std::alloc::Global;
use std::marker::Model;

// The most bytes that are kept of all patterns.
const MOST_BYTES: usize = 1 << 24;

/// Of each lead that is rung from a head, of the first head's steps first, how many of its rows fit a pattern.
#[derive(Drop)]
pub struct Fitting {
    numbers: Vec<u8>,
}

impl Model for Fitting {
    ghost use Rattle.std.specs.Prelude.{ℕ, List};

    ghost Value = { List ℕ };

    ghost view = { λ f. f.numbers.items };
}

impl Fitting {
    /// How many rows of the lead at a place fit, or 0 where there is no lead.
    pub fn at(&self, place: usize) -> u64
        ensures is { result ≡ get_or self.now place 0 }
        ensures few { result ≤ 255 }
    {
        if place < self.numbers.len() {
            u64::from(self.numbers[place])
        } else {
            0
        }
    }
}

/// Those of all patterns of the problem, for leads from these heads. TooMany where they would take more than 16 MiB.
pub fn fittings_of(alloc: Global, leads: &Leads, heads: &[Row]) -> Result<Vec<Fitting>, Stopped>
    requires { All (λ head. length head ≡ leads.now.stage) heads.now }
    ensures { IfOk result (λ fittings. fittings.items ≡ map (all_fitting leads.now heads.now) leads.now.query.patterns) }
{
    let patterns = leads.patterns();
    let room = heads.len().saturating_mul(usize::from(leads.count()));
    if room.saturating_mul(patterns.len()) > MOST_BYTES {
        return Err(Stopped::TooMany);
    }
    let mut fittings = Vec::with_capacity(alloc, patterns.len())?;
    for pattern in patterns {
        fittings.push(fitting_of(alloc, leads, heads, pattern, room)?)?;
    }
    Ok(fittings)
}

// Those of one pattern, with room for so many leads.
fn fitting_of(
    alloc: Global,
    leads: &Leads,
    heads: &[Row],
    pattern: &Pattern,
    room: usize,
) -> Result<Fitting, NoMemory>
    requires heads { All (λ head. length head ≡ leads.now.stage) heads.now }
    requires cells { FitsStage leads.now.stage pattern.now.cells }
    ensures { IfOk result (λ fitting. fitting ≡ all_fitting leads.now heads.now pattern.now) }
{
    let shape = Shape::new(alloc, leads.stage(), &pattern.cells)?;
    let mut numbers = Vec::with_capacity(alloc, room)?;
    for head in heads {
        add_leads(&mut numbers, leads, &shape, head)?;
    }
    Ok(Fitting { numbers })
}

// Adds how many rows of each step that is rung from a head have a shape.
fn add_leads(
    numbers: &mut Vec<u8>,
    leads: &Leads,
    shape: &Shape,
    head: &Row,
) -> Result<(), NoMemory>
    requires shape { shape.now.stage ≡ leads.now.stage }
    requires head { length head.now ≡ leads.now.stage }
    ensures { IfOk result (λ _. (cells : List Cell) → FitsStage leads.now.stage cells → shape.now ≡ shape_of leads.now.stage cells
        → numbers.new.items ≡ numbers.old.items ++ leads_fitting leads.now cells head.now) }
{
    for step in 0..leads.count() {
        numbers.push(count_rows(leads, shape, head, step))?;
    }
    Ok(())
}

// How many rows of a step that is rung from a head have a shape.
fn count_rows(leads: &Leads, shape: &Shape, head: &Row, step: u8) -> u8
    requires shape { shape.now.stage ≡ leads.now.stage }
    requires head { length head.now ≡ leads.now.stage }
    requires step { step < length leads.now.leads }
    ensures { (cells : List Cell) → FitsStage leads.now.stage cells → shape.now ≡ shape_of leads.now.stage cells
        → result ≡ lead_fitting leads.now cells head.now step }
{
    shape.count_lead(head, leads.rows_of(step)) as u8
}
