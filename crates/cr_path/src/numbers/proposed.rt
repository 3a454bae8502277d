//! A cover that is proposed. Nothing is said of it: it has to be checked.
//!
//! Which rows of a lead stand wherever another one does depends on their places in it and on its step, and not on the head
//! from which it is rung, since the heads are a group. So only the leads of the first head are looked at.

ghost use Rattle.std.specs.Prelude.{◌≡◌, length, All, IfOk};
ghost use Rattle.std.specs.List.{range_with_len};
ghost use Rattle.cr_leads.specs.Tables.{lead_table};
ghost use Rattle.cr_false.specs.Telling.{AreTelling};
ghost use Rattle.cr_path.specs.Rung.{IsHeld};

use crate::numbers::growing::narrow;
use crate::numbers::leads::Leads;
use crate::numbers::rung_leads::LeadNumbers;
use crate::numbers::stopped::Stopped;
use crate::numbers::told_rows::counts_of;
use cr_false::TellingRows;
use std::alloc::Global;

/// Of each row the number of the one that stands in most leads among those that stand wherever it does, and of these
/// the first.
pub fn proposed_cover(
    alloc: Global,
    leads: &Leads,
    told: &TellingRows,
    made: &LeadNumbers,
) -> Result<Vec<u32>, Stopped>
    requires telling { AreTelling (lead_table leads.now) told.now }
    requires held { All (IsHeld (length made.now.numbers.items)) made.now.records.items }
{
    let counts = counts_of(alloc, leads, told)?;
    let mut cover = each_itself(alloc, made.rows.len())?;
    let choices = Choices::of(alloc, made, &counts)?;
    choices.cover_all(made, &mut cover);
    put(&mut cover, 0, 0);
    Ok(cover)
}

/// The cover by which all rows are representative.
pub fn each_itself(alloc: Global, rows: u64) -> Result<Vec<u32>, Stopped>
    ensures { IfOk result (λ cover. cover.items ≡ range_with_len 0 rows) }
{
    let rows = narrow(rows as usize)?;
    let mut cover = Vec::with_capacity(alloc, rows as usize)?;
    for row in 0..rows {
        cover.push(row)?;
    }
    Ok(cover)
}

// A row of a lead, by its place there, and which of the places are those of rows that may cover it.
#[derive(Drop, Clone, Copy)]
struct Choice {
    row: u32,
    start: u32,
    end: u32,
}

// The rows of leads that others may cover.
#[derive(Drop)]
struct Choices {
    rows: Vec<Choice>,
    // Where the rows of each step's lead start, and after the last step where they end.
    starts: Vec<u32>,
    // The places of those that may cover a row.
    places: Vec<u32>,
}

impl Choices {
    // Those of the leads of the first head.
    fn of(alloc: Global, made: &LeadNumbers, counts: &[u32]) -> Result<Choices, Stopped>
        requires { All (IsHeld (length made.now.numbers.items)) made.now.records.items }
    {
        let holders = Holders::of(alloc, made, counts)?;
        let mut seen = Vec::from_elem(alloc, 0, made.rows.len() as usize)?;
        let mut choices = Choices {
            rows: Vec::new(alloc),
            starts: Vec::with_capacity(alloc, counts.len().saturating_add(1))?,
            places: Vec::new(alloc),
        };
        for step in 0..narrow(counts.len())? {
            choices.starts.push(narrow(choices.rows.len())?)?;
            choices.add_lead(&holders, made, counts, step, &mut seen)?;
        }
        choices.starts.push(narrow(choices.rows.len())?)?;
        Ok(choices)
    }

    // Adds the rows of a step's lead.
    fn add_lead(
        &mut self,
        holders: &Holders,
        made: &LeadNumbers,
        counts: &[u32],
        step: u32,
        seen: &mut [u32],
    ) -> Result<(), Stopped>
        requires { All (IsHeld (length made.now.numbers.items)) made.now.records.items }
    {
        let lead = told_of(made, step, step, counts);
        for row in 0..narrow(lead.len())? {
            let end = holders.see(at(lead, row), made, counts, seen);
            self.add_row(holders, lead, row, end, seen)?;
        }
        Ok(())
    }

    // Adds a row, unless it alone may cover itself: the rows that stand wherever it does were seen up to this end.
    fn add_row(
        &mut self,
        holders: &Holders,
        lead: &[u32],
        row: u32,
        end: u32,
        seen: &[u32],
    ) -> Result<(), Stopped> {
        let most = holders.most_leads(lead, end, seen);
        let first = narrow(self.places.len())?;
        for place in 0..narrow(lead.len())? {
            let other = at(lead, place);
            if at(seen, other) == end && holders.count(other) == most {
                self.places.push(place)?;
            }
        }
        let last = narrow(self.places.len())?;
        if last.wrapping_sub(first) != 1 || at(&self.places, first) != row {
            self.rows.push(Choice {
                row,
                start: first,
                end: last,
            })?;
        }
        Ok(())
    }

    // Has rows covered in all leads.
    fn cover_all(&self, made: &LeadNumbers, cover: &mut [u32])
        requires { All (IsHeld (length made.now.numbers.items)) made.now.records.items }
    {
        if self.rows.is_empty() {
            return;
        }
        let mut step: u32 = 0;
        for lead in &made.records {
            self.cover_lead(step, lead.numbers_in(&made.numbers), cover);
            step = self.step_after(step);
        }
    }

    // The step after one, or the first.
    fn step_after(&self, step: u32) -> u32 {
        let next = step.wrapping_add(1);
        if (next as usize) < self.starts.len().saturating_sub(1) {
            next
        } else {
            0
        }
    }

    // Has rows of a step's lead covered.
    fn cover_lead(&self, step: u32, lead: &[u32], cover: &mut [u32]) {
        for index in at(&self.starts, step)..at(&self.starts, step.wrapping_add(1)) {
            if let Some(choice) = self.rows.get(index as usize) {
                put(cover, at(lead, choice.row), self.first(choice, lead));
            }
        }
    }

    // The first of the rows of a lead that may cover one.
    fn first(&self, choice: &Choice, lead: &[u32]) -> u32 {
        let mut first = NONE;
        for index in choice.start..choice.end {
            let row = at(lead, at(&self.places, index));
            if row < first {
                first = row;
            }
        }
        first
    }
}

// After all rows.
const NONE: u32 = u32::MAX;

// A row that stands in a lead.
#[derive(Drop, Clone, Copy)]
struct Held {
    row: u32,
    lead: u32,
}

// The leads in which the rows stand that tell those of the first head.
#[derive(Drop)]
struct Holders {
    // By row, where its leads start, and after the last row where they end.
    starts: Vec<u32>,
    leads: Vec<u32>,
}

impl Holders {
    // Those of the leads that were rung.
    fn of(alloc: Global, made: &LeadNumbers, counts: &[u32]) -> Result<Holders, Stopped>
        requires { All (IsHeld (length made.now.numbers.items)) made.now.records.items }
    {
        let held = held_in(alloc, made, counts)?;
        let rows = made.rows.len() as usize;
        let mut starts = Vec::from_elem(alloc, 0, rows.saturating_add(1))?;
        for one in &held {
            let count = at(&starts, one.row);
            put(&mut starts, one.row, count.wrapping_add(1));
        }
        sum_up(&mut starts);
        // Each row's place is now where its leads end. They are put before it.
        let mut leads = Vec::from_elem(alloc, 0, held.len())?;
        for one in &held {
            let place = at(&starts, one.row).wrapping_sub(1);
            put(&mut starts, one.row, place);
            put(&mut leads, place, one.lead);
        }
        Ok(Holders { starts, leads })
    }

    // In how many leads a row stands.
    fn count(&self, row: u32) -> u32 {
        at(&self.starts, row.wrapping_add(1)).wrapping_sub(at(&self.starts, row))
    }

    // Sees of each row up to which of the places of one row's leads all of them have it. Answers where these places end.
    fn see(&self, row: u32, made: &LeadNumbers, counts: &[u32], seen: &mut [u32]) -> u32
        requires { All (IsHeld (length made.now.numbers.items)) made.now.records.items }
    {
        let start = at(&self.starts, row);
        let end = at(&self.starts, row.wrapping_add(1));
        for place in start..end {
            let lead = at(&self.leads, place);
            let rows = told_of(made, lead, step_of(lead, counts), counts);
            see_rows(rows, place, place == start, seen);
        }
        end
    }

    // In how many leads the one stands that stands in most, of those rows that were seen up to an end.
    fn most_leads(&self, lead: &[u32], end: u32, seen: &[u32]) -> u32 {
        let mut most = 0;
        for row in lead {
            let count = self.count(*row);
            if at(seen, *row) == end && count > most {
                most = count;
            }
        }
        most
    }
}

// The rows that tell the leads of the first head, with each lead that they tell, the first lead first.
fn held_in(alloc: Global, made: &LeadNumbers, counts: &[u32]) -> Result<Vec<Held>, Stopped>
    requires { All (IsHeld (length made.now.numbers.items)) made.now.records.items }
{
    let steps = narrow(counts.len())?;
    let mut is_first = Vec::from_elem(alloc, false, made.rows.len() as usize)?;
    for step in 0..steps {
        note_rows(told_of(made, step, step, counts), &mut is_first);
    }
    let mut held = Vec::new(alloc);
    let mut step = 0;
    for lead in 0..narrow(made.records.len())? {
        add_held(
            lead,
            told_of(made, lead, step, counts),
            &is_first,
            &mut held,
        )?;
        step = if step < steps.saturating_sub(1) {
            step + 1
        } else {
            0
        };
    }
    Ok(held)
}

// Notes that these rows are some of those that are looked at.
fn note_rows(rows: &[u32], are: &mut [bool]) {
    for row in rows {
        if (*row as usize) < are.len() {
            are[*row as usize] = true;
        }
    }
}

// Adds those rows of a lead that are looked at.
fn add_held(lead: u32, rows: &[u32], are: &[bool], held: &mut Vec<Held>) -> Result<(), Stopped> {
    for row in rows {
        if (*row as usize) < are.len() && are[*row as usize] {
            held.push(Held { row: *row, lead })?;
        }
    }
    Ok(())
}

// The step of a lead.
fn step_of(lead: u32, counts: &[u32]) -> u32 {
    match u32::try_from(counts.len()) {
        Ok(steps) if steps > 0 => lead % steps,
        _ => 0,
    }
}

// The numbers of the rows that tell a lead of a step, without that of rounds behind them.
fn told_of<'a>(made: &'a LeadNumbers, lead: u32, step: u32, counts: &[u32]) -> &'a [u32]
    requires { All (IsHeld (length made.now.numbers.items)) made.now.records.items }
{
    let numbers = numbers_of(made, lead);
    let count = at(counts, step) as usize;
    if count < numbers.len() {
        &numbers[..count]
    } else {
        numbers
    }
}

// Notes of the rows of a lead that they stand in it, if they stand in all leads before it.
fn see_rows(lead: &[u32], place: u32, is_first: bool, seen: &mut [u32]) {
    for row in lead {
        if is_first || at(seen, *row) == place {
            put(seen, *row, place.wrapping_add(1));
        }
    }
}

// Makes of each number the sum of those up to it.
fn sum_up(numbers: &mut [u32]) {
    let mut sum: u32 = 0;
    for number in numbers {
        sum = sum.wrapping_add(*number);
        *number = sum;
    }
}

// The numbers of a lead's rows, or none.
fn numbers_of(made: &LeadNumbers, lead: u32) -> &[u32]
    requires { All (IsHeld (length made.now.numbers.items)) made.now.records.items }
{
    match made.records.get(lead as usize) {
        Some(rung) => rung.numbers_in(&made.numbers),
        None => &made.numbers[..0],
    }
}

// The number at a place, or 0.
fn at(numbers: &[u32], place: u32) -> u32 {
    match numbers.get(place as usize) {
        Some(number) => *number,
        None => 0,
    }
}

// Puts a number at a place, if it is there.
fn put(numbers: &mut [u32], place: u32, number: u32) {
    if (place as usize) < numbers.len() {
        numbers[place as usize] = number;
    }
}
