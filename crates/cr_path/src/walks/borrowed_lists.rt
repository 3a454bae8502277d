//! The numbers of a problem, with their lists at hand.

ghost use Rattle.std.specs.Prelude.{◌≡◌, ◌+◌, ◌*◌, ◌<◌, ◌≤◌, ℕ, List, [], length, get_or, false};
ghost use Rattle.cr_path.specs.Numbers.{numbers_of, IsBase, StartsHead};

use crate::numbers::table::{LeadRecord, NumberTable, numbers_in};
use cr_row::Row;
use std::marker::Model;

/// A table of numbers with its lists at hand. Where these lie is not read again from the table after each mark that is
/// set.
///
/// It is seen as the table.
#[derive(Drop)]
pub struct BorrowedNumbers<'a> {
    table: &'a NumberTable,
    records: &'a [LeadRecord],
    numbers: &'a [u32],
}

impl<'a> Model for BorrowedNumbers<'a> {
    ghost use Rattle.std.specs.Prelude.{◌≡◌, ◌*◌, length};
    ghost use Rattle.cr_path.specs.Numbers.{NumberParts};

    ghost Value = { NumberParts };

    ghost view = { λ n. n.table.now };

    ghost invariant = { λ n. (n.records.now ≡ n.table.now.records) × (n.numbers.now ≡ n.table.now.numbers)
        × (length n.table.now.numbers ≡ length n.table.now.records * n.table.now.width) };
}

impl<'a> BorrowedNumbers<'a> {
    /// The lists of a table.
    pub fn of(table: &'a NumberTable) -> BorrowedNumbers<'a>
        ensures { result ≡ table.now }
    {
        BorrowedNumbers {
            table,
            records: table.records(),
            numbers: table.numbers(),
        }
    }

    /// The table.
    #[inline(always)]
    pub fn table(&self) -> &NumberTable
        ensures { result.now ≡ self.now }
    {
        self.table
    }

    /// The place of the lead of a step from the head whose records start here.
    #[inline(always)]
    pub fn place(&self, base: u32, step: u8) -> usize
        requires base { StartsHead self.now base }
        requires step { step < self.now.steps }
        ensures is { result ≡ base + step }
        ensures within { result < length self.now.records }
    {
        self.table.place(base, step)
    }

    /// The record of the lead at a place.
    #[inline(always)]
    pub fn lead_at(&self, place: usize) -> LeadRecord
        requires { place < length self.now.records }
        ensures { result ≡ get_or self.now.records place result }
    {
        record_in(self.records, place)
    }

    /// The numbers of the representative rows of the lead at a place, as many for each lead.
    #[inline(always)]
    pub fn numbers_at<const WIDTH: usize>(&self, place: usize) -> &[u32]
        requires place { place < length self.now.records }
        requires width { self.now.width ≡ WIDTH }
        ensures { result.now ≡ numbers_of self.now place }
    {
        numbers_in::<WIDTH>(self.numbers, place)
    }

    /// The head whose records start here.
    pub fn head_at(&self, base: u32) -> Row
        requires { StartsHead self.now base }
        ensures { (row : List ℕ) → IsBase self.now row base → result ≡ row }
    {
        self.table.head_at(base)
    }

    /// The number of the head whose records start here.
    #[inline(always)]
    pub fn number_of(&self, base: u32) -> u32
        ensures { (row : List ℕ) → IsBase self.now row base → (result < length self.now.heads) × (get_or self.now.heads result [] ≡ row) }
    {
        self.table.number_of(base)
    }

    /// Whether the lead of a step has a row twice in itself.
    pub fn has_row_twice(&self, step: u8) -> bool
        requires { step < length self.now.twice }
        ensures { result ≡ get_or self.now.twice step false }
    {
        self.table.has_row_twice(step)
    }
}

// The record at a place.
#[inline(always)]
fn record_in(records: &[LeadRecord], place: usize) -> LeadRecord
    requires { place < length records.now }
    ensures { result ≡ get_or records.now place result }
{
    records[place]
}
