//! The rows of leads that tell them apart.

ghost use Rattle.std.specs.Prelude.{◌≡◌, ◌++◌, ◌∷◌, ◌<◌, ◌≤◌, ℕ, [], List, cond, length, get_or, Contains, IfOk};
ghost use Rattle.cr_leads.specs.Tables.{lead_rows};
ghost use Rattle.cr_false.specs.Telling.{AreSome, AreOfLeads, AreTelling};

use crate::common::Common;
use crate::proposed::proposed_rows;
use crate::told_apart::tell_apart;
use cr_leads::LeadTable;
use cr_row::{NoMemory, Row};
use std::alloc::Global;
use std::marker::Model;

// With more rows than these in all leads, all of them are taken.
const MOST_ROWS: usize = 1024;

// Rows of one lead.
#[derive(Drop)]
struct LeadRows {
    rows: Vec<Row>,
}

impl Model for LeadRows {
    ghost use Rattle.std.specs.Prelude.{ℕ, List};

    ghost Value = { List (List ℕ) };

    ghost view = { λ l. l.rows.items };
}

/// Of each step some rows of its lead, rung from rounds, by which two leads are told apart as by all of their rows,
/// from whatever heads of callings they are rung.
///
/// It is seen as the lists of rows, by step number.
#[derive(Drop)]
pub struct TellingRows {
    leads: Vec<LeadRows>,
}

impl Model for TellingRows {
    ghost use Rattle.std.specs.Prelude.{ℕ, List};

    ghost Value = { List (List (List ℕ)) };

    ghost view = { λ t. t.leads.items };
}

impl TellingRows {
    /// Those of some leads: few rows of each, or all where the leads have more than 1,024 rows. Err where no memory is left.
    pub fn new(alloc: Global, leads: &LeadTable) -> Result<TellingRows, NoMemory>
        ensures { IfOk result (λ told. AreTelling leads.now told) }
    {
        if number_of_rows(leads) > MOST_ROWS {
            return TellingRows::all(alloc, leads);
        }
        let common = Common::of(alloc, leads)?;
        let proposed = proposed_rows(alloc, leads, &common)?;
        let told = TellingRows::some(alloc, leads, &proposed)?;
        if tell_apart(alloc, leads, &told, &common)? {
            return Ok(told);
        }
        TellingRows::all(alloc, leads)
    }

    /// The rows of a step, in the order in which they are rung.
    pub fn rows_of(&self, step: u8) -> &[Row]
        requires { step < length self.now }
        ensures { result.now ≡ get_or self.now step [] }
    {
        &self.leads[usize::from(step)].rows
    }

    /// All rows of each lead. Err where no memory is left.
    pub fn all(alloc: Global, leads: &LeadTable) -> Result<TellingRows, NoMemory>
        ensures { IfOk result (λ told. AreTelling leads.now told) }
    {
        let mut told = Vec::new(alloc);
        for step in 0..leads.count() {
            told.push(all_rows(alloc, leads.rows_of(step))?)?;
        }
        Ok(TellingRows { leads: told })
    }

    // Some rows of each lead: those that are kept, by their number among all.
    fn some(alloc: Global, leads: &LeadTable, kept: &[bool]) -> Result<TellingRows, NoMemory>
        ensures { IfOk result (λ told. AreOfLeads leads.now told) }
    {
        let mut told = Vec::new(alloc);
        let mut start: usize = 0;
        for step in 0..leads.count() {
            let rows = leads.rows_of(step);
            told.push(some_rows(alloc, rows, kept, start)?)?;
            start = start.wrapping_add(rows.len());
        }
        Ok(TellingRows { leads: told })
    }
}

// Some rows of a lead: those that are kept, by their number counted on from a first one.
fn some_rows(alloc: Global, rows: &[Row], kept: &[bool], start: usize) -> Result<LeadRows, NoMemory>
    ensures { IfOk result (λ told. AreSome rows.now told) }
{
    let mut told = Vec::new(alloc);
    for index in 0..rows.len() {
        let is_kept = is_kept(kept, start.wrapping_add(index));
        add_if(&mut told, rows[index], is_kept)?;
    }
    Ok(LeadRows { rows: told })
}

// All rows of a lead.
fn all_rows(alloc: Global, rows: &[Row]) -> Result<LeadRows, NoMemory>
    ensures { IfOk result (λ all. all ≡ rows.now) }
{
    let mut all = Vec::with_capacity(alloc, rows.len())?;
    for row in rows {
        all.push(*row)?;
    }
    Ok(LeadRows { rows: all })
}

// Whether the row of a number is kept.
fn is_kept(kept: &[bool], number: usize) -> bool {
    match kept.get(number) {
        Some(is_kept) => *is_kept,
        None => false,
    }
}

// Adds a row if it is kept.
fn add_if(rows: &mut Vec<Row>, row: Row, is_kept: bool) -> Result<(), NoMemory>
    ensures { IfOk result (λ _. rows.new.items ≡ rows.old.items ++ cond is_kept (row ∷ []) []) }
{
    if is_kept {
        rows.push(row)?;
    }
    Ok(())
}

/// How many rows all leads have.
pub fn number_of_rows(leads: &LeadTable) -> usize {
    let mut number: usize = 0;
    for step in 0..leads.count() {
        number = number.wrapping_add(leads.rows_of(step).len());
    }
    number
}
