//! Whether some rows of leads tell them apart.

ghost use Rattle.std.specs.Prelude.{◌≡◌, ◌<◌, ◌≤◌, ℕ, true, List, [], length, get_or, All, Contains, IfOk};
ghost use Rattle.cr_leads.specs.Tables.{TableParts, lead_rows};
ghost use Rattle.cr_false.specs.Sets.{HasTwice, AreAlike};
ghost use Rattle.cr_false.specs.Telling.{MayLieBetween, TellsApart, AreOfLeads, IsTold, AreTelling, AreCommon, HasFalse};

use crate::common::Common;
use crate::sets::set_between;
use crate::table::has;
use crate::telling::TellingRows;
use crate::twice::has_twice;
use cr_leads::LeadTable;
use cr_row::{NoMemory, Row, product_associates, product_of_rows, rounds_is_neutral, rows_cancel};
use cr_rowset::RowStack;
use std::alloc::Global;

/// Whether these rows tell all leads apart. Err where no memory is left.
pub fn tell_apart(
    alloc: Global,
    leads: &LeadTable,
    told: &TellingRows,
    common: &Common,
) -> Result<bool, NoMemory>
    requires of_leads { AreOfLeads leads.now told.now }
    requires common { AreCommon leads.now common.now.bells.items common.now.even }
    ensures { IfOk result (λ tell. tell ≡ true → AreTelling leads.now told.now) }
{
    for step in 0..leads.count() {
        let passes = is_told(alloc, leads, told, common, step)?;
        if !passes {
            return Ok(false);
        }
    }
    Ok(true)
}

// Whether its rows tell the lead of a step from all leads, and whether it has a row twice.
fn is_told(
    alloc: Global,
    leads: &LeadTable,
    told: &TellingRows,
    common: &Common,
    step: u8,
) -> Result<bool, NoMemory>
    requires of_leads { AreOfLeads leads.now told.now }
    requires common { AreCommon leads.now common.now.bells.items common.now.even }
    requires step { step < length leads.now.leads }
    ensures { IfOk result (λ is_told. is_told ≡ true → IsTold leads.now told.now step) }
{
    let rows = leads.rows_of(step);
    let told_rows = told.rows_of(step);
    let twice = tells_twice(alloc, rows, told_rows)?;
    if !twice {
        return Ok(false);
    }
    for other in 0..leads.count() {
        let passes = tells_pair(alloc, leads, told, common, step, other)?;
        if !passes {
            return Ok(false);
        }
    }
    Ok(true)
}

// Whether a row stands twice among some rows, if it does among all.
fn tells_twice(alloc: Global, rows: &[Row], told: &[Row]) -> Result<bool, NoMemory>
    ensures { IfOk result (λ tells. tells ≡ true → HasTwice rows.now → HasTwice told.now) }
{
    if !has_twice(alloc, rows)? {
        return Ok(true);
    }
    has_twice(alloc, told)
}

// Whether their rows tell the leads of two steps apart.
fn tells_pair(
    alloc: Global,
    leads: &LeadTable,
    told: &TellingRows,
    common: &Common,
    step: u8,
    other: u8,
) -> Result<bool, NoMemory>
    requires of_leads { AreOfLeads leads.now told.now }
    requires common { AreCommon leads.now common.now.bells.items common.now.even }
    requires step { step < length leads.now.leads }
    requires other { other < length leads.now.leads }
    ensures { IfOk result (λ tells. tells ≡ true
        → TellsApart leads.now (lead_rows leads.now step) (lead_rows leads.now other) (get_or told.now step []) (get_or told.now other [])) }
{
    let rows = leads.rows_of(step);
    let others = leads.rows_of(other);
    let told_rows = told.rows_of(step);
    let told_others = told.rows_of(other);
    let set = set_between(alloc, told_rows, told_others)?;
    Ok(has_all(&set, rows, others, common))
}

// Whether a set has all rows that are false of two leads and may lie between heads.
fn has_all(set: &RowStack, rows: &[Row], others: &[Row], common: &Common) -> bool
    requires { AreAlike rows.now others.now }
    ensures { result ≡ true → (i : ℕ) → i < length others.now
        → HasFalse set.now.rows rows.now (get_or others.now i []) common.now.bells.items common.now.even }
{
    for other in others {
        if !has_false(set, rows, other, common) {
            return false;
        }
    }
    true
}

// The same for one row of the second lead.
fn has_false(set: &RowStack, rows: &[Row], other: &Row, common: &Common) -> bool
    requires { All (λ row. length row ≡ length other.now) rows.now }
    ensures { result ≡ true → HasFalse set.now.rows rows.now other.now common.now.bells.items common.now.even }
{
    product_associates();
    product_of_rows();
    rounds_is_neutral();
    rows_cancel();
    let inverse = other.inverse();
    for row in rows {
        if !is_in_or_apart(set, &row.times(&inverse), common) {
            return false;
        }
    }
    // It tells that the bells are those of a row.
    let _ = other.stage();
    true
}

// Whether a row is in a set, or can't lie between heads.
fn is_in_or_apart(set: &RowStack, between: &Row, common: &Common) -> bool
    ensures { result ≡ true → (table : TableParts) → AreCommon table common.now.bells.items common.now.even
        → length between.now ≡ table.stage → MayLieBetween table between.now → Contains set.now.rows between.now }
{
    !common.may_lie_between(between) || has(set, between)
}
