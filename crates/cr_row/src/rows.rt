//! Rows, four bits a bell.

ghost use Rattle.std.specs.Prelude.{IsTrue, ◌≡◌, ℕ, ◌+◌, ◌-◌, ◌*◌, ◌/◌, ◌%◌, ◌<◌, ◌≤◌, ◌↔◌, ◌^◌, List, length, get_or, IsSome, IfSome};
ghost use Rattle.std.specs.List.{Contains};
ghost use Rattle.cr_row.specs.Rows.{IsRow, rounds, product, IsInverse, Places, after};
ghost use Rattle.cr_row.specs.Packed.{bells_of, key_of, AreBells, Undone};

use crate::changes::Change;
use crate::stages::Stage;
use crate::symbols::symbol;
use std::cmp::Ordering;
use std::fmt;
use std::fmt::Write;
use std::marker::Model;

/// A row on 3 to 16 bells. Contracts see the list of its bells, from the first place on.
#[derive(Clone, Copy)]
#[tactic(auto, using(crate::specs::Packed::packed_back, crate::specs::Packed::bells_length))]
pub struct Row {
    // One less than each bell, the first place lowest.
    bits: u64,
    stage: u8,
}

impl Model for Row {
    ghost use Rattle.std.specs.Prelude.{◌≡◌, ℕ, ◌<◌, ◌≤◌, ◌^◌, List, length};
    ghost use Rattle.cr_row.specs.Packed.{bells_of, key_of, IsPacked, packed_back, bells_length};

    ghost Value = { List ℕ };

    ghost view = { λ r. bells_of r.stage r.bits };

    ghost invariant = { λ r. IsPacked r.stage r.bits };

    ghost inverse = { λ bells. record { bits = key_of bells; stage = length bells } };

    ghost inverse_ok = { λ a h i. record { bits = packed_back a.stage a.bits h.fits i; stage = bells_length a.stage a.bits i } };
}

#[tactic(auto, using(crate::specs::Packed::bells_length))]
impl Row {
    /// Rounds: 1, 2, and so on to the stage.
    pub fn rounds(stage: Stage) -> Row
        ensures is { result ≡ rounds stage }
        ensures same_stage { length result ≡ stage }
    {
        let stage = stage.number();
        Row {
            bits: ROUNDS & (u64::MAX >> (64 - 4 * stage)),
            stage,
        }
    }

    /// The row of these bells. None exactly where they are not each of 1 to their number once, with
    /// 3 to 16 of them.
    pub fn of(bells: &[u8]) -> Option<Row>
        ensures is { IfSome result (λ row. row ≡ bells.now) }
        ensures some { IsSome result ↔ (IsRow bells.now × (3 ≤ length bells.now) × (length bells.now ≤ 16)) }
    {
        if bells.len() < 3 || bells.len() > 16 {
            return None;
        }
        if is_row(bells) {
            Some(Row::made(bells))
        } else {
            None
        }
    }

    /// The row of a stage with this key. It is for who keeps keys of rows: nothing is looked at.
    pub fn with_key(stage: Stage, key: u64) -> Row
        requires fits { key < 16 ^ stage }
        requires row { IsRow (bells_of stage key) }
        ensures { result ≡ bells_of stage key }
    {
        Row {
            bits: key,
            stage: stage.number(),
        }
    }

    /// The stage.
    pub fn stage(&self) -> Stage
        ensures is { result ≡ length self.now }
        ensures at_least { 3 ≤ result }
        ensures at_most { result ≤ 16 }
        ensures is_row { IsRow self.now }
    {
        Stage::of(self.stage)
    }

    /// The bell at a place, from 1 to the stage.
    pub fn bell_at(&self, place: u8) -> u8
        requires from { 1 ≤ place }
        requires to { place ≤ length self.now }
        ensures bell { result ≡ get_or self.now (place - 1) 0 }
        ensures in_range { (1 ≤ result) × (result ≤ length self.now) }
    {
        nibble(self.bits, place - 1) as u8 + 1
    }

    /// The row after a change.
    pub fn then(&self, change: &Change) -> Row
        requires { length self.now ≡ change.now.stage }
        ensures is { result ≡ after change.now self.now }
        ensures same_stage { length result ≡ length self.now }
    {
        Row {
            bits: change.moved(self.bits),
            stage: self.stage,
        }
    }

    /// The product: at each place, the bell of this row at the place that the other has there.
    pub fn times(&self, other: &Row) -> Row
        requires { length self.now ≡ length other.now }
        ensures is { result ≡ product self.now other.now }
        ensures same_stage { length result ≡ length self.now }
    {
        Row {
            bits: composed(self.bits, other.bits, self.stage),
            stage: self.stage,
        }
    }

    /// The row that undoes this one: their product is rounds, on both sides.
    pub fn inverse(&self) -> Row
        ensures same_stage { length result ≡ length self.now }
        ensures undoes { IsInverse self.now result }
    {
        Row {
            bits: inverted(self.bits, self.stage),
            stage: self.stage,
        }
    }

    /// The row in one number: four bits a bell, the first place lowest, each one less than its bell.
    /// Rows of one stage are one exactly where their keys are.
    pub fn key(&self) -> u64
        ensures is { result ≡ key_of self.now }
        ensures fits { result < 16 ^ length self.now }
    {
        self.bits
    }

    // The row of these bells.
    fn made(bells: &[u8]) -> Row
        requires row { IsRow bells.now }
        requires at_least { 3 ≤ length bells.now }
        requires at_most { length bells.now ≤ 16 }
        ensures { result ≡ bells.now }
    {
        Row {
            bits: packed(bells),
            stage: bells.len() as u8,
        }
    }
}

/// The symbols of its bells, as `2143`.
impl fmt::Debug for Row {
    fn fmt<W: fmt::Write>(&self, f: &mut fmt::Formatter<W>) -> fmt::Result {
        for place in 1..self.stage().number() + 1 {
            write!(f, "{}", char::from(symbol(self.bell_at(place))))?;
        }
        Ok(())
    }
}

impl PartialEq for Row {
    ghost use Rattle.std.specs.Prelude.{nat_eq};
    ghost use Rattle.std.specs.Cmp.{partial_equiv_from_equiv};
    ghost use Rattle.std.specs.Cmp.Lexicographic.{pointwise};
    ghost use Rattle.std.proofs.lemmas.Cmp.{nat_list_eq_equiv};

    ghost eq = { pointwise nat_eq };

    ghost laws = { partial_equiv_from_equiv nat_list_eq_equiv };

    fn eq(&self, other: &Row) -> bool {
        self.bits == other.bits && self.stage == other.stage
    }
}

impl Eq for Row {
    ghost use Rattle.std.proofs.lemmas.Cmp.{nat_list_eq_equiv};

    ghost laws = { nat_list_eq_equiv };
}

/// Rows stand in order by their stage, and then by their bells from the last place back.
impl Ord for Row {
    ghost use Rattle.std.specs.Prelude.{refl};
    ghost use Rattle.cr_row.specs.Order.{row_cmp, row_cmp_total, row_eq_ties};

    ghost cmp = { row_cmp };

    ghost total = { row_cmp_total };

    ghost matches_partial_cmp = { λ _ _. refl };

    ghost matches_eq = { row_eq_ties };

    fn cmp(&self, other: &Row) -> Ordering {
        self.stage
            .cmp(&other.stage)
            .then(self.bits.cmp(&other.bits))
    }
}

impl PartialOrd for Row {
    ghost use Rattle.std.specs.Prelude.{refl};
    ghost use Rattle.std.specs.Cmp.{partial_order_from_agreeing_total};
    ghost use Rattle.std.specs.Ordering.{as_partial_cmp};
    ghost use Rattle.cr_row.specs.Order.{row_cmp, row_cmp_total, row_eq_ties};

    ghost partial_cmp = { as_partial_cmp row_cmp };

    ghost laws = { partial_order_from_agreeing_total row_cmp row_cmp_total (λ _ _. refl) row_eq_ties };

    fn partial_cmp(&self, other: &Row) -> Option<Ordering> {
        Some(self.cmp(other))
    }
}

// Whether the bells are each of 1 to their number once: as many as there are, each is among them.
fn is_row(bells: &[u8]) -> bool
    requires { length bells.now ≤ 16 }
    ensures { IsTrue result ↔ IsRow bells.now }
{
    for bell in 1..bells.len() as u8 + 1 {
        if !has(bells, bell) {
            return false;
        }
    }
    true
}

// Whether a bell is one of these.
fn has(bells: &[u8], bell: u8) -> bool
    ensures { IsTrue result ↔ Contains bells.now bell }
{
    bells.contains(&bell)
}

// Rounds on 16 bells, four bits a bell.
const ROUNDS: u64 = 0xFEDC_BA98_7654_3210;

// Four bits of a packed row: one less than the bell at a place, counted from 0.
fn nibble(bits: u64, place: u8) -> u64
    requires { place < 16 }
    ensures is { result ≡ bits / 2 ^ (4 * place) % 16 }
    ensures small { result < 16 }
{
    (bits >> (4 * place)) & 15
}

// The product of two packed rows.
fn composed(first: u64, second: u64, stage: u8) -> u64
    requires few { stage ≤ 16 }
    requires first { IsRow (bells_of stage first) }
    requires second { IsRow (bells_of stage second) }
    ensures bells { bells_of stage result ≡ product (bells_of stage first) (bells_of stage second) }
    ensures row { IsRow (bells_of stage result) }
    ensures fits { result < 16 ^ stage }
{
    let mut bits = 0;
    let mut left = stage;
    while left > 0 {
        left -= 1;
        bits = 16 * bits + nibble(first, nibble(second, left) as u8);
    }
    bits
}

// The inverse of a packed row.
fn inverted(bits: u64, stage: u8) -> u64
    requires few { stage ≤ 16 }
    requires row { IsRow (bells_of stage bits) }
    ensures undone { Undone (bells_of stage bits) (bells_of stage result) }
    ensures fits { result < 16 ^ stage }
{
    let mut result = 0;
    for place in 0..stage {
        result += u64::from(place) << (4 * nibble(bits, place));
    }
    result
}

// The bells in one number.
fn packed(bells: &[u8]) -> u64
    requires few { length bells.now ≤ 16 }
    requires bells { AreBells bells.now }
    ensures bells { bells_of (length bells.now) result ≡ bells.now }
    ensures fits { result < 16 ^ length bells.now }
{
    let mut bits: u64 = 0;
    let mut left = bells.len();
    while left > 0 {
        left -= 1;
        bits = 16 * bits + u64::from(bells[left] - 1);
    }
    bits
}
