//! What the lead heads have in common.

ghost use Rattle.std.specs.Prelude.{◌≡◌, ◌+◌, ◌<◌, ◌≤◌, ◌↔◌, ◌++◌, ◌∷◌, [], ℕ, true, cond, length, get_or, drop, IsTrue, IfOk};
ghost use Rattle.cr_leads.specs.Tables.{TableParts};
ghost use Rattle.cr_false.specs.Telling.{lower, falling, IsEven, IsHome, AllHeads, MayLieBetween, AreCommon};

use cr_leads::LeadTable;
use cr_row::{NoMemory, Row};
use std::alloc::Global;

/// Which bells stand at home in all lead heads, and whether all of these are even.
///
/// The same holds of each head of a calling, and so of each row between two of them.
#[derive(Drop)]
pub struct Common {
    pub bells: Vec<u8>,
    pub even: bool,
}

impl Common {
    /// That of some leads. Err where no memory is left.
    pub fn of(alloc: Global, leads: &LeadTable) -> Result<Common, NoMemory>
        ensures { IfOk result (λ common. AreCommon leads.now common.bells.items common.even) }
    {
        let mut bells = Vec::new(alloc);
        let stage = leads.stage().number();
        for bell in 1..stage + 1 {
            let is_common = stands_at_home(leads, bell);
            add_if(&mut bells, bell, is_common)?;
        }
        let even = are_even(leads);
        Ok(Common { bells, even })
    }

    /// Whether a row may lie between two heads, by what these have in common.
    pub fn may_lie_between(&self, row: &Row) -> bool
        ensures { (table : TableParts) → AreCommon table self.now.bells.items self.now.even → length row.now ≡ table.stage
            → MayLieBetween table row.now → result ≡ true }
    {
        for bell in &self.bells {
            if !is_home(row, *bell) {
                return false;
            }
        }
        !self.even || is_even(row)
    }
}

// Adds a bell if all lead heads have it at home.
fn add_if(bells: &mut Vec<u8>, bell: u8, is_common: bool) -> Result<(), NoMemory>
    ensures { IfOk result (λ _. bells.new.items ≡ bells.old.items ++ cond is_common (bell ∷ []) []) }
{
    if is_common {
        bells.push(bell)?;
    }
    Ok(())
}

// Whether a bell stands at home in all lead heads.
fn stands_at_home(leads: &LeadTable, bell: u8) -> bool
    ensures { result ≡ true → AllHeads (IsHome bell) leads.now }
{
    for step in 0..leads.count() {
        if !is_home(&leads.head_of(step), bell) {
            return false;
        }
    }
    true
}

// Whether all lead heads are even.
fn are_even(leads: &LeadTable) -> bool
    ensures { result ≡ true → AllHeads IsEven leads.now }
{
    for step in 0..leads.count() {
        if !is_even(&leads.head_of(step)) {
            return false;
        }
    }
    true
}

// Whether a bell of a row stands at home.
fn is_home(row: &Row, bell: u8) -> bool
    ensures yes { result ≡ true → IsHome bell row.now }
    ensures no { 0 < bell → bell ≤ length row.now → IsHome bell row.now → result ≡ true }
{
    if bell == 0 || bell > row.stage().number() {
        return false;
    }
    row.bell_at(bell) == bell
}

// Whether a row is even.
fn is_even(row: &Row) -> bool
    ensures { IsTrue result ↔ IsEven row.now }
{
    pairs_that_fall(row) % 2 == 0
}

// How many pairs of the bells stand in falling order.
fn pairs_that_fall(row: &Row) -> u32
    ensures { result ≡ falling row.now }
{
    let mut count = 0;
    for index in 0..row.stage().number() {
        count += lower_behind(row, index);
    }
    count
}

// How many bells behind an index are lower than the one that stands there.
fn lower_behind(row: &Row, index: u8) -> u32
    requires { index < length row.now }
    ensures is { result ≡ lower (get_or row.now index 0) (drop (index + 1) row.now) }
    ensures few { result ≤ 16 }
{
    let stage = row.stage().number();
    let bell = row.bell_at(index + 1);
    let mut count = 0;
    for other in index + 1..stage {
        count += one_if(row.bell_at(other + 1) < bell);
    }
    count
}

// One for what is so, and else none.
fn one_if(is_so: bool) -> u32
    ensures is { result ≡ cond {A = ℕ} is_so 1 0 }
    ensures few { result ≤ 1 }
{
    if is_so { 1 } else { 0 }
}
