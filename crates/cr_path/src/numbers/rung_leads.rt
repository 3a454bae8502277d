//! The leads of a problem, rung from all heads, with a number for each of their rows.

ghost use Rattle.std.specs.Prelude.{◌≡◌, ℕ, ◌+◌, ◌*◌, ◌<◌, ◌≤◌, ◌++◌, ◌∷◌, [], List, cond, length, get_or, map, All, IfOk};
ghost use Rattle.cr_row.specs.Rows.{product};
ghost use Rattle.cr_model.specs.Problems.{ProblemParts};
ghost use Rattle.cr_leads.specs.Tables.{lead_table};
ghost use Rattle.cr_false.specs.Telling.{AreTelling};
ghost use Rattle.cr_path.specs.RungLeads.{AreNumbered, IsBegun};
ghost use Rattle.cr_path.specs.Heads.{AreAllHeads, IsNamed};
ghost use Rattle.cr_path.specs.ToldRows.{ArePlaces, AreToldRows};
ghost use Rattle.cr_path.specs.Begun.{numbers_in};
ghost use Rattle.cr_path.specs.Rung.{IsHeld, rung_numbers, IsRung};

use crate::numbers::growing::{narrow, number};
use crate::numbers::heads::Heads;
use crate::numbers::leads::Leads;
use crate::numbers::room::{MOST_HEADS, Room};
use crate::numbers::stopped::Stopped;
use crate::numbers::told_rows::{ToldRows, rows_within};
use cr_row::{NoMemory, Row};
use cr_rowset::RowStack;
use std::alloc::Global;

/// What is known of the lead of a step that is rung from a head.
#[derive(Debug, Drop, Clone, Copy)]
pub struct RungLead {
    /// The number of the head after it.
    pub next: u32,
    /// Where the numbers of its rows start.
    pub start: u32,
    /// Where they end.
    pub end: u32,
    /// The child may live only where its node has fewer changes than this.
    pub limit: u16,
    /// Its number of changes.
    pub length: u8,
}

impl RungLead {
    /// The numbers of its rows, of those of all leads.
    pub fn numbers_in(self, numbers: &[u32]) -> &[u32]
        requires { IsHeld (length numbers.now) self }
        ensures { result.now ≡ rung_numbers numbers.now self }
    {
        &numbers[self.start as usize..self.end as usize]
    }
}

/// Heads and rows at their numbers, a record of each lead that was rung so far, and the numbers of the rows of these.
#[derive(Drop)]
pub struct LeadNumbers {
    pub heads: Heads,
    pub rows: RowStack,
    pub records: Vec<RungLead>,
    pub numbers: Vec<u32>,
}

impl LeadNumbers {
    /// The numbers of all leads that are rung from heads to which leads lead from rounds, by the rows that tell them apart.
    /// TooMany where the heads or the rows have no room.
    pub fn of(
        alloc: Global,
        leads: &Leads,
        told: &ToldRows,
        room: Room,
    ) -> Result<LeadNumbers, Stopped>
        requires telling { AreTelling (lead_table leads.now) told.now.told }
        requires rows { AreToldRows leads.now told.now (length leads.now.leads) }
        ensures { IfOk result (λ made. IsRung leads.now told.now.told (numbers_in leads.now made)) }
    {
        let row_limit = room.row_limit();
        let heads = Heads::of(alloc, leads, room.head_limit(told.told(), leads.count()))?;
        let mut made = begin(alloc, leads, told, heads, row_limit)?;
        let mut names = Vec::new(alloc);
        let mut place = 0;
        while place < made.heads.rows.len() {
            number_leads(alloc, &mut made, &mut names, leads, told, place, row_limit)?;
            place += 1;
        }
        Ok(made)
    }
}

// With these heads, before any lead is rung. Rounds is the first row.
fn begin(
    alloc: Global,
    leads: &Leads,
    told: &ToldRows,
    heads: Heads,
    row_limit: u32,
) -> Result<LeadNumbers, Stopped>
    requires heads { AreAllHeads leads.now heads }
    requires few { length heads.rows.items ≤ MOST_HEADS }
    requires telling { AreTelling (lead_table leads.now) told.now.told }
    ensures begun { IfOk result (λ made. IsBegun leads.now told.now.told (numbers_in leads.now made) 0) }
    ensures heads { IfOk result (λ made. made.heads ≡ heads) }
{
    let number_of_heads = heads.rows.len();
    let rows_of_a_head = rows_of_all(leads, told);
    // Often two heads make one row. The stack gets more room where it needs some.
    let room = (told.rows().len() as u64).saturating_mul(number_of_heads as u64) / 2;
    let mut rows = RowStack::with_room(alloc, (room + 1).min(u64::from(row_limit)))?;
    number(alloc, &mut rows, leads.rounds(), row_limit)?;
    // It tells that the rows differ.
    let _ = rows.len();
    Ok(LeadNumbers {
        heads,
        rows,
        records: Vec::with_capacity(alloc, number_of_heads * usize::from(leads.count()))?,
        numbers: Vec::with_capacity(alloc, number_of_heads * rows_of_a_head)?,
    })
}

// The number of rows that tell the leads of all steps.
fn rows_of_all(leads: &Leads, told: &ToldRows) -> usize
    requires { AreTelling (lead_table leads.now) told.now.told }
    ensures { result ≤ 3072 }
{
    let mut rows = 0;
    for step in 0..leads.count() {
        rows += rows_within(leads, told.told(), step).len();
    }
    rows
}

// Numbers the leads of all steps from the head at a place. The names are those of the rows of the head before.
fn number_leads(
    alloc: Global,
    made: &mut LeadNumbers,
    names: &mut Vec<u32>,
    leads: &Leads,
    told: &ToldRows,
    place: usize,
    row_limit: u32,
) -> Result<(), Stopped>
    requires telling { AreTelling (lead_table leads.now) told.now.told }
    requires rows { AreToldRows leads.now told.now (length leads.now.leads) }
    requires heads { AreAllHeads leads.now made.old.heads }
    requires begun { IsBegun leads.now told.now.told (numbers_in leads.now made.old) (place * length leads.now.leads) }
    requires place { place < length made.old.heads.rows.items }
    ensures begun { IfOk result (λ _. IsBegun leads.now told.now.told (numbers_in leads.now made.new) ((place + 1) * length leads.now.leads)) }
    ensures heads { IfOk result (λ _. made.new.heads ≡ made.old.heads) }
{
    let head = made.heads.head(place);
    number_told(alloc, made, names, told.rows(), head, row_limit)?;
    let inverse = head.inverse();
    for step in 0..leads.count() {
        number_lead(made, leads, told, names, &inverse, place, step)?;
    }
    Ok(())
}

// Numbers the rows that tell leads, which are rung from a head: these numbers are the names.
fn number_told(
    alloc: Global,
    made: &mut LeadNumbers,
    names: &mut Vec<u32>,
    told: &[Row],
    head: Row,
    row_limit: u32,
) -> Result<(), Stopped>
    requires { All (λ row. length row ≡ length head) told.now }
    ensures names { IfOk result (λ _. ArePlaces made.new.rows.rows (map (product head) told.now) names.new.items) }
    ensures begun { IfOk result (λ _. (p : ProblemParts) (telling : List (List (List ℕ))) (done : ℕ)
        → IsBegun p telling (numbers_in p made.old) done → IsBegun p telling (numbers_in p made.new) done) }
    ensures heads { IfOk result (λ _. made.new.heads ≡ made.old.heads) }
{
    names.clear();
    number_rows(alloc, &mut made.rows, names, head, told, row_limit)?;
    // It tells that the rows differ.
    let _ = made.rows.len();
    Ok(())
}

// Numbers the lead of a step from the head at a place, of which the inverse is given, by the names of rows that are rung from
// this head.
fn number_lead(
    made: &mut LeadNumbers,
    leads: &Leads,
    told: &ToldRows,
    names: &[u32],
    inverse: &Row,
    place: usize,
    step: u8,
) -> Result<(), Stopped>
    requires telling { AreTelling (lead_table leads.now) told.now.told }
    requires rows { AreToldRows leads.now told.now (length leads.now.leads) }
    requires begun { IsBegun leads.now told.now.told (numbers_in leads.now made.old) (place * length leads.now.leads + step) }
    requires named { IsNamed leads.now made.old.heads place inverse.now told.now.rows made.old.rows.rows names.now }
    requires step { step < length leads.now.leads }
    ensures begun { IfOk result (λ _. IsBegun leads.now told.now.told (numbers_in leads.now made.new) (place * length leads.now.leads + step + 1)) }
    ensures named { IfOk result (λ _. IsNamed leads.now made.new.heads place inverse.now told.now.rows made.new.rows.rows names.now) }
    ensures heads { IfOk result (λ _. made.new.heads ≡ made.old.heads) }
{
    let start = made.numbers.len();
    add_named(&mut made.numbers, names, told.places_of(step))?;
    add_first_if(&mut made.numbers, leads.has_round(step, inverse))?;
    let next = made.heads.next_of(leads, place, step);
    let level = made.heads.level_of(leads, next);
    made.records.push(RungLead {
        next,
        start: narrow(start)?,
        end: narrow(made.numbers.len())?,
        limit: leads.limit(step, level, leads.brings_round(step, inverse)),
        length: leads.length_of(step),
    })?;
    Ok(())
}

// The number at a place.
fn number_at(numbers: &[u32], place: usize) -> u32
    requires { place < length numbers.now }
    ensures { result ≡ get_or numbers.now place 0 }
{
    numbers[place]
}

// Appends the names at some places.
fn add_named(numbers: &mut Vec<u32>, names: &[u32], places: &[u32]) -> Result<(), NoMemory>
    requires { All (λ place. place < length names.now) places.now }
    ensures { IfOk result (λ _. numbers.new.items ≡ numbers.old.items ++ map (λ place. get_or names.now place 0) places.now) }
{
    for place in places {
        numbers.push(number_at(names, *place as usize))?;
    }
    Ok(())
}

// Appends number 0, that of rounds, if a lead has rounds.
fn add_first_if(numbers: &mut Vec<u32>, has_round: bool) -> Result<(), NoMemory>
    ensures { IfOk result (λ _. numbers.new.items ≡ numbers.old.items ++ cond has_round (0 ∷ []) []) }
{
    if has_round {
        numbers.push(0)?;
    }
    Ok(())
}

// Appends the numbers of some rows of a lead, which is rung from a head.
fn number_rows(
    alloc: Global,
    rows: &mut RowStack,
    numbers: &mut Vec<u32>,
    head: Row,
    lead: &[Row],
    most: u32,
) -> Result<(), Stopped>
    requires { All (λ row. length row ≡ length head) lead.now }
    ensures { IfOk result (λ _. AreNumbered rows.old.rows numbers.old.items (map (product head) lead.now) rows.new.rows numbers.new.items) }
{
    for row in lead {
        numbers.push(number(alloc, rows, head.times(row), most)?)?;
    }
    Ok(())
}
