//! What a node of a search can still come to.

ghost use Rattle.std.specs.Prelude.{◌≡◌, ℕ, ◌+◌, ◌*◌, ◌/◌, ◌<◌, ◌≤◌, ◌↔◌, true, false, List, length, get_or, map, All, is_none, is_some, IsTrue, IfOk, IfSome};
ghost use Rattle.std.specs.List.{list_any};
ghost use Rattle.cr_model.specs.Problems.{ProblemParts};
ghost use Rattle.cr_model.specs.Callings.{length_of};
ghost use Rattle.cr_model.specs.Queries.{changes_of_method};
ghost use Rattle.cr_ahead.specs.ByMethod.{places_each, place_by};
ghost use Rattle.cr_ahead.specs.Exact.{exact_com, head_items, cannot_come_by, cannot_come_by_heads};
ghost use Rattle.cr_ahead.specs.Items.{com_items, cannot_meet};
ghost use Rattle.cr_ahead.specs.LeadMoves.{IsPlaceOf, last_method};
ghost use Rattle.cr_ahead.specs.Outlooks.{AreLeadHeads, IsOutlook, IsSomeRefused, is_refused, head_item};

use crate::ahead::Ahead;
use crate::by_method::{com_table, limit_of, place_by, places_each};
use crate::gains::Gains;
use crate::item_tables::{home_table, item_tables, table_count};
use crate::lead_moves::moves_of;
use crate::problem_steps::method_count;
use crate::refusing::refuses;
use crate::units::range_of;
use cr_model::Problem;
use cr_row::{NoMemory, Row};
use std::alloc::Global;
use std::marker::Model;

/// The limits of an item, and what of it can still come.
#[derive(Drop)]
pub struct ItemTable {
    pub min: i64,
    pub max: i64,
    pub table: Ahead,
}

/// What a node of a search for touches of a problem can still come to: whether there is a way home, and of each count, and
/// in one part of each pattern and of changes of method, whether some way home meets its min and some its max.
///
/// It is seen as the unit of length, the number of parts, of places and of methods, and the tables. Each table has 8 bytes
/// for each lead head and each number of units that a part may have; that of changes of method has so many for each method,
/// and once more for no last method.
#[derive(Drop)]
pub struct Outlook {
    unit: u32,
    parts: u64,
    places: usize,
    methods: u8,
    // The table of ways home alone, where there are no items of which the head tells all.
    home: Option<Ahead>,
    items: Vec<ItemTable>,
    // The table of changes of method, where they have limits in one part.
    changing: Option<ItemTable>,
}

impl Model for Outlook {
    ghost use Rattle.cr_ahead.specs.Outlooks.{OutlookParts, IsKept};

    ghost Value = { OutlookParts };

    ghost view = { λ o. record { unit = o.unit; parts = o.parts; places = o.places; methods = o.methods; home = o.home; items = o.items.items; changing = o.changing } };

    ghost invariant = { λ o. IsKept o.unit o.parts o.places o.methods o.home o.items.items o.changing };
}

impl Outlook {
    /// The outlook of a problem from some lead heads, where `next` says by place and step, place after place, at which place the
    /// head stands that the step leads to. None where its tables would have more than so many bytes. Err where no memory is left.
    pub fn new(
        alloc: Global,
        problem: &Problem,
        heads: &[Row],
        next: &[u32],
        most_bytes: u64,
    ) -> Result<Option<Outlook>, NoMemory>
        requires { AreLeadHeads problem.now heads.now next.now }
        ensures { IfOk result (λ made. IfSome made (λ outlook. IsOutlook problem.now heads.now outlook)) }
    {
        let range = range_of(problem);
        if !has_room(problem, heads.len(), range.greatest, most_bytes) {
            return Ok(None);
        }
        let changing = com_table(alloc, problem, heads, next, range)?;
        let mut moves = moves_of(alloc, problem, heads, next, range)?;
        let home = home_table(alloc, problem, heads, range, &moves)?;
        let items = item_tables(alloc, problem, heads, range, &mut moves)?;
        Ok(Some(Outlook {
            unit: range.unit,
            parts: problem.parts(),
            places: heads.len(),
            methods: method_count(problem),
            home,
            items,
            changing,
        }))
    }

    /// How many lead heads there are.
    #[inline(always)]
    pub fn places(&self) -> usize
        ensures { result ≡ self.now.places }
    {
        self.places
    }

    /// How many methods there are.
    pub fn methods(&self) -> u8
        ensures { result ≡ self.now.methods }
    {
        self.methods
    }

    /// Whether changes of method are looked at.
    pub fn has_com(&self) -> bool
        ensures { result ≡ is_some self.now.changing }
    {
        self.changing.is_some()
    }

    /// How many items there are of which the head tells all: all counts, and in one part the patterns.
    #[inline(always)]
    pub fn items(&self) -> usize
        ensures { result ≡ length self.now.items }
    {
        self.items.len()
    }

    /// Whether a node cannot come to what is asked: its head stands at the place, it has so many changes, and it has so much
    /// so far of each item of which the head tells all: of the counts of marks, then of those of methods, and in one part of
    /// the patterns; its last lead is of this method, and it changes method so often. It takes no memory, and constant time
    /// for each item.
    pub fn cannot_come(
        &self,
        place: u32,
        changes: u32,
        so_far: &[u32],
        last: Option<u8>,
        changed: u32,
    ) -> bool
        requires place { place < self.now.places }
        requires so_far { length so_far.now ≡ length self.now.items }
        requires last { IfSome last (λ method. method < self.now.methods) }
        ensures { (p : ProblemParts) (heads : List (List ℕ)) (node : List ℕ) → IsOutlook p heads self.now → IsPlaceOf p heads place node
            → changes ≡ length_of p node → so_far.now ≡ map (λ item. item.number_of node) (head_items p)
            → last ≡ last_method p node → changed ≡ changes_of_method p node → result ≡ cannot_come_by p node }
    {
        self.cannot_come_by_heads(place, changes, so_far)
            || self.cannot_change(place, changes, last, changed)
    }

    /// Whether a node, of which the same is known, cannot meet the limit on changes of method, where it is looked at.
    pub fn cannot_change(&self, place: u32, changes: u32, last: Option<u8>, changed: u32) -> bool
        requires place { place < self.now.places }
        requires last { IfSome last (λ method. method < self.now.methods) }
        ensures { (p : ProblemParts) (heads : List (List ℕ)) (node : List ℕ) → IsOutlook p heads self.now → IsPlaceOf p heads place node
            → changes ≡ length_of p node → last ≡ last_method p node → changed ≡ changes_of_method p node
            → result ≡ list_any (cannot_meet p node) (com_items p (exact_com p)) }
    {
        match &self.changing {
            Some(of_item) => {
                let units = changes / self.unit;
                let by_method = place_by(self.methods + 1, place, last);
                is_refused(of_item, self.parts, by_method, units, changed)
            }
            None => false,
        }
    }

    /// How many units of length so many changes are.
    #[inline(always)]
    pub fn in_units(&self, changes: u32) -> u32
        ensures { result ≡ changes / self.now.unit }
    {
        divided(changes, self.unit)
    }

    /// Whether a node cannot meet the limits of the item at an index, of those of which the head tells all: its head stands at
    /// the place, it has so many units of length, and so much of the item so far. It takes no memory, and constant time.
    #[inline(always)]
    pub fn cannot_meet(&self, item: usize, place: u32, units: u32, so_far: u32) -> bool
        requires item { item < length self.now.items }
        requires place { place < self.now.places }
        ensures { (p : ProblemParts) (heads : List (List ℕ)) (node : List ℕ) → IsOutlook p heads self.now → IsPlaceOf p heads place node
            → units ≡ length_of p node / self.now.unit → so_far ≡ (head_item p item).number_of node
            → result ≡ cannot_meet p node (head_item p item) }
    {
        is_refused(&self.items[item], self.parts, place, units, so_far)
    }

    /// The same as [`cannot_come`](Outlook::cannot_come), where changes of method are not looked at.
    #[inline(always)]
    pub fn cannot_come_by_heads(&self, place: u32, changes: u32, so_far: &[u32]) -> bool
        requires place { place < self.now.places }
        requires so_far { length so_far.now ≡ length self.now.items }
        ensures { (p : ProblemParts) (heads : List (List ℕ)) (node : List ℕ) → IsOutlook p heads self.now → IsPlaceOf p heads place node
            → changes ≡ length_of p node → so_far.now ≡ map (λ item. item.number_of node) (head_items p)
            → result ≡ cannot_come_by_heads p node }
    {
        let units = changes / self.unit;
        match &self.home {
            Some(home) => is_nowhere(home.at(place, units)),
            None => some_is_refused(&self.items, self.parts, place, units, so_far),
        }
    }
}

// How many units so many changes are. The units of most methods are constants here: to divide by a number that is not known
// when this is compiled takes five times as long.
#[inline(always)]
fn divided(changes: u32, unit: u32) -> u32
    requires { 1 ≤ unit }
    ensures { result ≡ changes / unit }
{
    match unit {
        12 => changes / 12,
        16 => changes / 16,
        20 => changes / 20,
        24 => changes / 24,
        32 => changes / 32,
        40 => changes / 40,
        _ => changes / unit,
    }
}

// Whether there is no way home.
#[inline(always)]
fn is_nowhere(gains: Option<Gains>) -> bool
    ensures { result ≡ is_none gains }
{
    gains.is_none()
}

// Whether some item is refused.
#[inline(always)]
fn some_is_refused(items: &[ItemTable], parts: u64, place: u32, units: u32, so_far: &[u32]) -> bool
    requires parts { parts ≤ 64 }
    requires places { All (λ of_item. place < of_item.table.places) items.now }
    requires so_far { length so_far.now ≡ length items.now }
    ensures { IsSomeRefused parts place units items.now so_far.now result }
{
    for index in 0..items.len() {
        if is_refused(&items[index], parts, place, units, so_far[index]) {
            return true;
        }
    }
    false
}

// Whether an item is refused.
#[inline(always)]
fn is_refused(of_item: &ItemTable, parts: u64, place: u32, units: u32, so_far: u32) -> bool
    requires parts { parts ≤ 64 }
    requires place { place < of_item.now.table.places }
    ensures { result ≡ is_refused parts place units of_item.now so_far }
{
    refuses(
        of_item.min,
        of_item.max,
        parts,
        so_far,
        of_item.table.at(place, units),
    )
}

// Whether the tables have no more than so many bytes, 8 for each cell, and their places numbers of 32 bits.
fn has_room(problem: &Problem, places: usize, greatest: u16, most_bytes: u64) -> bool
    requires { places ≤ 4294967296 }
    ensures { IsTrue result → places * places_each problem.now ≤ 4294967296 }
{
    let places = places as u64;
    let each = u64::from(places_each(problem));
    let cells = places * (u64::from(greatest) + 1) * tables_of(problem);
    8 * cells <= most_bytes && places * each <= 4_294_967_296
}

// How many places of tables each head has: one for each item of which the head tells all, or for the way home, and those by
// method where changes of method are looked at.
fn tables_of(problem: &Problem) -> u64
    ensures { result ≤ 73 }
{
    let by_method = match limit_of(problem) {
        Some(_) => u64::from(places_each(problem)),
        None => 0,
    };
    table_count(problem).max(1) + by_method
}
