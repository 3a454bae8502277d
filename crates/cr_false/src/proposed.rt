//! Rows of leads that are proposed to tell them apart. Nothing is said of them: it has to be checked.

ghost use Rattle.std.specs.Prelude.{◌≡◌, length, All};
ghost use Rattle.cr_false.specs.Sets.{AreAlike};

use crate::common::Common;
use crate::telling::number_of_rows;
use crate::twice::has_twice;
use cr_leads::LeadTable;
use cr_row::{NoMemory, Row};
use cr_rowset::{Pushed, RowStack};
use std::alloc::Global;

// No name.
const NONE: usize = usize::MAX;

/// Of the rows of all leads, one lead's after another's, which are to be kept. One after another is left out, if each
/// row between two leads has another pair of rows that gives it. Of a lead that has a row twice all are kept.
pub fn proposed_rows(
    alloc: Global,
    leads: &LeadTable,
    common: &Common,
) -> Result<Vec<bool>, NoMemory> {
    let mut pairs = Pairs::of(alloc, leads, common)?;
    let mut number: usize = 0;
    for step in 0..leads.count() {
        let rows = leads.rows_of(step);
        let end = number.wrapping_add(rows.len());
        if !has_twice(alloc, rows)? {
            pairs.leave_out(number, end);
        }
        number = end;
    }
    Ok(pairs.kept)
}

// The pairs of rows of all leads. Those of the same two leads that give the same row between their heads have one name.
#[derive(Drop)]
struct Pairs {
    // How many rows there are.
    count: usize,
    // By the number of the one row times the count and the number of the other.
    names: Vec<usize>,
    // By name, how many pairs have it whose rows are both kept.
    numbers: Vec<u32>,
    kept: Vec<bool>,
}

// The rows of a lead, and the number of the first one.
#[derive(Clone, Copy)]
struct Lead<'a> {
    rows: &'a [Row],
    first: usize,
}

// The rows between two leads, by their names from the first one on.
#[derive(Drop)]
struct Names {
    base: usize,
    rows: RowStack,
}

impl Pairs {
    // Those of some leads, whose rows are all kept.
    fn of(alloc: Global, leads: &LeadTable, common: &Common) -> Result<Pairs, NoMemory> {
        let count = number_of_rows(leads);
        let mut pairs = Pairs {
            count,
            names: Vec::from_elem(alloc, NONE, count.wrapping_mul(count))?,
            numbers: Vec::new(alloc),
            kept: Vec::from_elem(alloc, true, count)?,
        };
        let mut first: usize = 0;
        for step in 0..leads.count() {
            let rows = leads.rows_of(step);
            let mut second: usize = 0;
            for other in 0..leads.count() {
                let others = leads.rows_of(other);
                pairs.add_leads(alloc, common, Lead { rows, first }, others, second)?;
                second = second.wrapping_add(others.len());
            }
            first = first.wrapping_add(rows.len());
        }
        Ok(pairs)
    }

    // Names the pairs of the rows of two leads. Those of the second have numbers from this one on.
    fn add_leads(
        &mut self,
        alloc: Global,
        common: &Common,
        lead: Lead,
        others: &[Row],
        second: usize,
    ) -> Result<(), NoMemory>
        requires { AreAlike lead.rows.now others.now }
    {
        let room = (lead.rows.len() as u64).wrapping_mul(others.len() as u64);
        let mut names = Names {
            base: self.numbers.len(),
            rows: RowStack::with_room(alloc, room)?,
        };
        for index in 0..others.len() {
            let number = second.wrapping_add(index);
            self.add_row(&mut names, common, lead, &others[index].inverse(), number)?;
        }
        Ok(())
    }

    // Names the pairs of the rows of a lead with the row of a number, whose inverse this is.
    fn add_row(
        &mut self,
        names: &mut Names,
        common: &Common,
        lead: Lead,
        inverse: &Row,
        number: usize,
    ) -> Result<(), NoMemory>
        requires { All (λ row. length row ≡ length inverse.now) lead.rows.now }
    {
        for index in 0..lead.rows.len() {
            let between = lead.rows[index].times(inverse);
            if common.may_lie_between(&between) {
                let name = self.name_of(names, between)?;
                let row = lead.first.wrapping_add(index);
                put(
                    &mut self.names,
                    row.wrapping_mul(self.count).wrapping_add(number),
                    name,
                );
            }
        }
        Ok(())
    }

    // The name of one more pair, which gives this row.
    fn name_of(&mut self, names: &mut Names, between: Row) -> Result<usize, NoMemory> {
        match names.rows.push(between) {
            Pushed::Fresh => {
                let name = self.numbers.len();
                self.numbers.push(1)?;
                Ok(name)
            }
            Pushed::Again(place) => {
                let name = names.base.wrapping_add(place as usize);
                self.add(name, 1);
                Ok(name)
            }
            Pushed::Full => Ok(NONE),
        }
    }

    // Leaves out the rows of these numbers, each if it can be.
    fn leave_out(&mut self, start: usize, end: usize) {
        for row in start..end {
            self.add_pairs(row, u32::MAX);
            if self.has_all_names(row) {
                put(&mut self.kept, row, false);
            } else {
                self.add_pairs(row, 1);
            }
        }
    }

    // Adds to the numbers of pairs those of a row, each so many times.
    fn add_pairs(&mut self, row: usize, times: u32) {
        for other in 0..self.count {
            if self.is_kept(other) {
                let name = self.name(row, other);
                self.add(name, times);
                if other != row {
                    let turned = self.name(other, row);
                    self.add(turned, times);
                }
            }
        }
    }

    // Whether each name that a row's pairs have is still that of some pair.
    fn has_all_names(&self, row: usize) -> bool {
        for other in 0..self.count {
            if self.is_kept(other)
                && (self.is_lost(self.name(row, other)) || self.is_lost(self.name(other, row)))
            {
                return false;
            }
        }
        true
    }

    // Whether no pair has a name any more.
    fn is_lost(&self, name: usize) -> bool {
        match self.numbers.get(name) {
            Some(number) => *number == 0,
            None => false,
        }
    }

    fn is_kept(&self, row: usize) -> bool {
        match self.kept.get(row) {
            Some(is_kept) => *is_kept,
            None => false,
        }
    }

    // The name of a pair.
    fn name(&self, row: usize, other: usize) -> usize {
        match self
            .names
            .get(row.wrapping_mul(self.count).wrapping_add(other))
        {
            Some(name) => *name,
            None => NONE,
        }
    }

    // Adds to the number of a name.
    fn add(&mut self, name: usize, number: u32) {
        if name < self.numbers.len() {
            self.numbers[name] = self.numbers[name].wrapping_add(number);
        }
    }
}

// Puts an item at a place, if it is there.
fn put<T: Copy>(items: &mut [T], place: usize, item: T) {
    if place < items.len() {
        items[place] = item;
    }
}
