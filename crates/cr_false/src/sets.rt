//! The different rows between two leads.

ghost use Rattle.std.specs.Prelude.{◌≡◌, ◌⊎◌, ◌*◌, ◌≤◌, length, map, All, Contains, IfOk};
ghost use Rattle.cr_row.specs.Rows.{product};
ghost use Rattle.cr_leads.specs.Tables.{lead_rows, AreRows};
ghost use Rattle.cr_rowset.specs.Stacks.{AllDiffer};
ghost use Rattle.cr_false.specs.Sets.{IsFalse, IsFalsePair, IsSetOf, IsRoomFor, Adds, AreAlike};

use cr_leads::LeadTable;
use cr_model::limits::MOST_STEPS;
use cr_row::{NoMemory, Row, product_associates, product_of_rows, rounds_is_neutral, rows_cancel};
use cr_rowset::{Pushed, RowStack, rows_stay_different};
use std::alloc::Global;

/// The false rows of a pair of steps, each once, in a stack with this room, which is enough for them.
/// Err where no memory is left.
pub fn set_of(
    alloc: Global,
    leads: &LeadTable,
    pair: usize,
    room: u64,
) -> Result<RowStack, NoMemory>
    requires { IsRoomFor (IsFalsePair leads.now pair) room }
    ensures { IfOk result (λ set. IsSetOf (IsFalsePair leads.now pair) set.rows) }
{
    let rows = rows_of(leads, pair / MOST_STEPS);
    let others = rows_of(leads, pair % MOST_STEPS);
    false_rows(alloc, rows, others, room)
}

/// The rows that are false of some rows and others, each once. Err where no memory is left.
pub fn set_between(alloc: Global, rows: &[Row], others: &[Row]) -> Result<RowStack, NoMemory>
    requires alike { AreAlike rows.now others.now }
    requires rows { length rows.now ≤ 128 }
    requires others { length others.now ≤ 128 }
    ensures { IfOk result (λ set. IsSetOf (IsFalse rows.now others.now) set.rows) }
{
    rows_cancel();
    let most = pairs_of(rows, others);
    false_rows(alloc, rows, others, most)
}

/// How many pairs of rows a pair of steps has: that is room enough for its false rows.
pub fn most_of(leads: &LeadTable, pair: usize) -> u64
    ensures room { IsRoomFor (IsFalsePair leads.now pair) result }
    ensures few { result ≤ 16384 }
{
    rows_cancel();
    let rows = rows_of(leads, pair / MOST_STEPS);
    let others = rows_of(leads, pair % MOST_STEPS);
    pairs_of(rows, others)
}

// How many pairs of rows there are.
fn pairs_of(rows: &[Row], others: &[Row]) -> u64
    requires rows { length rows.now ≤ 128 }
    requires others { length others.now ≤ 128 }
    ensures is { result ≡ length others.now * length rows.now }
    ensures few { result ≤ 16384 }
{
    others.len() as u64 * rows.len() as u64
}

// The rows of a step, or none where there is no such step.
fn rows_of(leads: &LeadTable, step: usize) -> &[Row]
    ensures is { result.now ≡ lead_rows leads.now step }
    ensures are_rows { AreRows leads.now.stage result.now }
    ensures few { length result.now ≤ 128 }
{
    if step < usize::from(leads.count()) {
        leads.rows_of(step as u8)
    } else {
        &[]
    }
}

// The products of the rows with the inverses of the others, each once.
fn false_rows(alloc: Global, rows: &[Row], others: &[Row], room: u64) -> Result<RowStack, NoMemory>
    requires alike { AreAlike rows.now others.now }
    requires room { IsRoomFor (IsFalse rows.now others.now) room }
    ensures { IfOk result (λ set. IsSetOf (IsFalse rows.now others.now) set.rows) }
{
    product_associates();
    product_of_rows();
    rounds_is_neutral();
    rows_cancel();
    let mut set = RowStack::with_room(alloc, room)?;
    for other in others {
        push_products(&mut set, rows, other.inverse());
    }
    Ok(set)
}

// Adds the products of the rows with a row. There is room for them.
fn push_products(set: &mut RowStack, rows: &[Row], inverse: Row)
    requires long { All (λ row. length row ≡ length inverse) rows.now }
    requires differ { AllDiffer set.old.rows }
    requires room { IsRoomFor (λ g. Contains set.old.rows g ⊎ Contains (map (λ row. product row inverse) rows.now) g) set.old.room }
    ensures adds { Adds set.old.rows (map (λ row. product row inverse) rows.now) set.new.rows }
    ensures same_room { set.new.room ≡ set.old.room }
{
    rows_stay_different();
    for row in rows {
        if let Pushed::Full = set.push(row.times(&inverse)) {
            unreachable!();
        }
    }
}
