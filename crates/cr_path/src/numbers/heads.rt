//! The lead heads of a problem, numbered as they are come to.

ghost use Rattle.std.specs.Prelude.{◌≡◌, ◌+◌, ◌*◌, ◌<◌, ◌≤◌, [], length, get_or, map, IfOk};
ghost use Rattle.cr_model.specs.Levels.{at_least};
ghost use Rattle.cr_model.specs.Sizes.{most_rows};
ghost use Rattle.cr_rowset.specs.Pushing.{StandsAt};
ghost use Rattle.cr_path.specs.Numbers.{head_after};
ghost use Rattle.cr_path.specs.Heads.{AreNext, AreAllHeads};
ghost use Rattle.cr_path.specs.RungLeads.{AreHeads};

use crate::numbers::growing::{number, rows_of};
use crate::numbers::leads::Leads;
use crate::numbers::stopped::Stopped;
use cr_row::{NoMemory, Row};
use cr_rowset::RowStack;
use std::alloc::Global;

// The room that the stack begins with.
const FIRST_ROOM: u32 = 512;

/// The heads to which leads lead from rounds, each at its number.
#[derive(Drop)]
pub struct Heads {
    pub rows: Vec<Row>,
    /// By head and step, head after head, the number of the head after the step.
    pub next: Vec<u32>,
    /// How many leads each is from rounds at least.
    pub levels: Vec<u32>,
}

impl Heads {
    /// Those of a problem, the heads of fewer leads first. TooMany where they are more than the most.
    pub fn of(alloc: Global, leads: &Leads, most: u32) -> Result<Heads, Stopped>
        ensures are { IfOk result (λ heads. AreAllHeads leads.now heads) }
        ensures few { IfOk result (λ heads. length heads.rows.items ≤ most) }
    {
        let mut stack = rounds_alone(alloc, leads, most)?;
        let mut next = Vec::new(alloc);
        let mut place = 0;
        while place < stack.len() {
            add_heads(alloc, &mut stack, &mut next, leads, place, most)?;
            place += 1;
        }
        let rows = rows_of(alloc, &stack)?;
        let levels = levels_of(alloc, leads, &rows)?;
        Ok(Heads { rows, next, levels })
    }

    /// The head at a place.
    pub fn head(&self, place: usize) -> Row
        requires { place < length self.now.rows.items }
        ensures { result ≡ get_or self.now.rows.items place [] }
    {
        self.rows[place]
    }

    /// The number of the head after a step from the head at a place.
    pub fn next_of(&self, leads: &Leads, place: usize, step: u8) -> u32
        requires heads { AreAllHeads leads.now self.now }
        requires place { place < length self.now.rows.items }
        requires step { step < length leads.now.leads }
        ensures { StandsAt self.now.rows.items (head_after leads.now (get_or self.now.rows.items place []) step) result }
    {
        self.next[place * usize::from(leads.count()) + usize::from(step)]
    }

    /// How many leads the head with this number is from rounds at least.
    pub fn level_of(&self, leads: &Leads, number: u32) -> u32
        requires heads { AreAllHeads leads.now self.now }
        requires number { number < length self.now.rows.items }
        ensures { result ≡ at_least leads.now most_rows (get_or self.now.rows.items number []) }
    {
        // The leads are those of the problem.
        let _ = leads.count();
        self.levels[number as usize]
    }
}

// The head that is there before any lead.
fn rounds_alone(alloc: Global, leads: &Leads, most: u32) -> Result<RowStack, Stopped>
    ensures are { IfOk result (λ heads. AreHeads leads.now heads.rows) }
    ensures few { IfOk result (λ heads. length heads.rows ≤ most) }
{
    let mut heads = RowStack::with_room(alloc, u64::from(most.min(FIRST_ROOM)))?;
    number(alloc, &mut heads, leads.rounds(), most)?;
    Ok(heads)
}

// Adds the heads to which one lead leads from the head at a place, and their numbers.
fn add_heads(
    alloc: Global,
    heads: &mut RowStack,
    next: &mut Vec<u32>,
    leads: &Leads,
    place: u64,
    most: u32,
) -> Result<(), Stopped>
    requires are { AreHeads leads.now heads.old.rows }
    requires next { AreNext leads.now heads.old.rows next.old.items (place * length leads.now.leads) }
    requires place { place < length heads.old.rows }
    requires few { length heads.old.rows ≤ most }
    ensures are { IfOk result (λ _. AreHeads leads.now heads.new.rows) }
    ensures next { IfOk result (λ _. AreNext leads.now heads.new.rows next.new.items ((place + 1) * length leads.now.leads)) }
    ensures place { IfOk result (λ _. place < length heads.new.rows) }
    ensures few { IfOk result (λ _. length heads.new.rows ≤ most) }
{
    let head = heads.row_at(place);
    for step in 0..leads.count() {
        next.push(number(alloc, heads, leads.head_after(&head, step), most)?)?;
    }
    Ok(())
}

// How many leads each head is from rounds at least.
fn levels_of(alloc: Global, leads: &Leads, heads: &[Row]) -> Result<Vec<u32>, NoMemory>
    ensures { IfOk result (λ levels. levels.items ≡ map (at_least leads.now most_rows) heads.now) }
{
    let mut levels = Vec::with_capacity(alloc, heads.len())?;
    for head in heads {
        levels.push(leads.at_least(head))?;
    }
    Ok(levels)
}
