//! The table of changes of method, from places by lead head and by the method of the last lead.

ghost use Rattle.std.specs.Prelude.{◌≡◌, ◌+◌, ◌*◌, ◌<◌, ◌≤◌, ◌^◌, List, [], length, get_or, All, IfOk};
ghost use Rattle.cr_model.specs.Callings.{method_of};
ghost use Rattle.cr_model.specs.Dead.{parts_of};
ghost use Rattle.cr_ahead.specs.Exact.{exact_com};
ghost use Rattle.cr_ahead.specs.Units.{IsRange};
ghost use Rattle.cr_ahead.specs.ByMethod.{places_each, method_number, place_by, last_at, spread_heads, spread_place, spread_next, changing_gains};
ghost use Rattle.cr_ahead.specs.Outlooks.{AreLeadHeads, IsTableByMethod, IsComTable};

use crate::ahead::Ahead;
use crate::item_tables::table_by;
use crate::lead_moves::moves_of;
use crate::outlook::ItemTable;
use crate::problem_steps::{changing_gain, method_count, method_of, step_count};
use crate::units::Range;
use cr_model::{Com, Problem};
use cr_row::{NoMemory, Row};
use std::alloc::Global;

/// How many places each head has: one for no last method, and one for each method.
pub fn places_each(problem: &Problem) -> u8
    ensures is { result ≡ places_each problem.now }
    ensures few { result ≤ 9 }
{
    method_count(problem) + 1
}

/// Of so many places for each head, the one with this last method, or with none.
pub fn place_by(each: u8, place: u32, last: Option<u8>) -> u32
    requires { place_by each place last < 2 ^ 32 }
    ensures { result ≡ place_by each place last }
{
    place * u32::from(each) + method_number(last)
}

// The number of a last method, or of none.
fn method_number(last: Option<u8>) -> u32
    ensures { result ≡ method_number last }
{
    match last {
        Some(method) => u32::from(method) + 1,
        None => 0,
    }
}

// The last method at a place, of so many for each head.
fn last_at(each: u8, place: usize) -> Option<u8>
    requires { 0 < each }
    ensures { result ≡ last_at each place }
{
    let number = place % usize::from(each);
    if number == 0 {
        None
    } else {
        Some((number - 1) as u8)
    }
}

/// The limit on changes of method in one part, if there is one.
pub fn limit_of(problem: &Problem) -> Option<Com>
    ensures { result ≡ exact_com problem.now }
{
    if problem.parts() == 1 {
        problem.query().com
    } else {
        None
    }
}

/// The table of changes of method, where there is a limit on them in one part. Err where no memory is left.
pub fn com_table(
    alloc: Global,
    problem: &Problem,
    heads: &[Row],
    next: &[u32],
    range: Range,
) -> Result<Option<ItemTable>, NoMemory>
    requires leads { AreLeadHeads problem.now heads.now next.now }
    requires range { IsRange problem.now range.unit range.least range.greatest }
    requires few { length heads.now * places_each problem.now ≤ 4294967296 }
    ensures { IfOk result (λ table. IsComTable problem.now heads.now range.unit (exact_com problem.now) table) }
{
    match limit_of(problem) {
        Some(limits) => {
            let table = table_by_method(alloc, problem, heads, next, range)?;
            Ok(Some(limit_table(limits, table)))
        }
        None => Ok(None),
    }
}

// A table with its limits.
fn limit_table(limits: Com, table: Ahead) -> ItemTable
    ensures min { result.min ≡ limits.min }
    ensures max { result.max ≡ limits.max }
    ensures table { result.table ≡ table }
{
    ItemTable {
        min: limits.min,
        max: limits.max,
        table,
    }
}

// The table of what the steps add to the changes of method, in one part.
fn table_by_method(
    alloc: Global,
    problem: &Problem,
    heads: &[Row],
    next: &[u32],
    range: Range,
) -> Result<Ahead, NoMemory>
    requires one { parts_of problem.now ≡ 1 }
    requires leads { AreLeadHeads problem.now heads.now next.now }
    requires range { IsRange problem.now range.unit range.least range.greatest }
    requires few { length heads.now * places_each problem.now ≤ 4294967296 }
    ensures { IfOk result (λ table. IsTableByMethod problem.now heads.now range.unit table) }
{
    let _ = problem.stage();
    let each = places_each(problem);
    let places = heads.len() * usize::from(each);
    let spread = spread_heads(alloc, heads, each)?;
    let led = spread_next(alloc, problem, next, heads.len(), each)?;
    let gains = changing_gains(alloc, problem, each, places)?;
    let mut moves = moves_of(alloc, problem, &spread, &led, range)?;
    let table = table_by(alloc, range, &mut moves, gains)?;
    Ok(table)
}

// Each head so often, head after head.
fn spread_heads(alloc: Global, heads: &[Row], each: u8) -> Result<Vec<Row>, NoMemory>
    requires some { 0 < each }
    requires few { length heads.now * each ≤ 4294967296 }
    ensures { IfOk result (λ spread. spread.items ≡ spread_heads each heads.now) }
{
    let size = usize::from(each);
    let places = heads.len() * size;
    let mut spread = Vec::with_capacity(alloc, places)?;
    for place in 0..places {
        spread.push(heads[place / size])?;
    }
    Ok(spread)
}

// To which of these places each step leads from each of them.
fn spread_next(
    alloc: Global,
    problem: &Problem,
    next: &[u32],
    heads: usize,
    each: u8,
) -> Result<Vec<u32>, NoMemory>
    requires each { each ≡ places_each problem.now }
    requires few { heads * each ≤ 4294967296 }
    requires counted { length next.now ≡ heads * length problem.now.leads }
    requires there { All (λ head. head < heads) next.now }
    ensures { IfOk result (λ led. led.items ≡ spread_next problem.now each (heads * each) next.now) }
{
    let steps = usize::from(step_count(problem));
    let entries = heads * usize::from(each) * steps;
    let mut led = Vec::with_capacity(alloc, entries)?;
    for entry in 0..entries {
        led.push(spread_place(problem, next, heads, each, entry / steps, entry % steps))?;
    }
    Ok(led)
}

// To which of these places a step leads from one of them.
fn spread_place(
    problem: &Problem,
    next: &[u32],
    heads: usize,
    each: u8,
    place: usize,
    step: usize,
) -> u32
    requires each { each ≡ places_each problem.now }
    requires few { heads * each ≤ 4294967296 }
    requires counted { length next.now ≡ heads * length problem.now.leads }
    requires there { All (λ head. head < heads) next.now }
    requires place { place < heads * each }
    requires step { step < length problem.now.leads }
    ensures { result ≡ spread_place problem.now each next.now place step }
{
    let steps = usize::from(step_count(problem));
    let to = next[place / usize::from(each) * steps + step];
    place_by(each, to, Some(method_of(problem, step as u8)))
}

// What each step adds to the changes of method, from each of these places.
fn changing_gains(
    alloc: Global,
    problem: &Problem,
    each: u8,
    places: usize,
) -> Result<Vec<u16>, NoMemory>
    requires some { 0 < each }
    requires few { places ≤ 4294967296 }
    ensures { IfOk result (λ gains. gains.items ≡ changing_gains problem.now each places) }
{
    let steps = usize::from(step_count(problem));
    let entries = places * steps;
    let mut gains = Vec::with_capacity(alloc, entries)?;
    for entry in 0..entries {
        gains.push(changing_gain(problem, last_at(each, entry / steps), (entry % steps) as u8))?;
    }
    Ok(gains)
}
