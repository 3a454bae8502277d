//! Whether rows all differ.

ghost use Rattle.std.specs.Prelude.{◌≡◌, ◌<◌, ◌↔◌, [], length, get_or, take, IsTrue, Contains};
ghost use Rattle.cr_model.specs.Callings.{AllDiffer};
ghost use Rattle.cr_audit.specs.Marks.{AreMarked, bucket, bucket_count};

use cr_row::{NoMemory, Row};
use std::alloc::Global;
use std::marker::Model;

// So many that few rows of a touch share one.
const BUCKETS: usize = 1 << 19;

// An odd number near 2^64 over the golden ratio: it spreads keys over the buckets.
const SPREAD: u64 = 0x9E37_79B9_7F4A_7C15;

/// A mark for each bucket of rows.
///
/// Each look at rows has a mark of its own, which it puts at the bucket of each row. A row whose bucket has not that mark
/// stands nowhere before; only for the others the rows before are looked through.
#[derive(Drop)]
pub struct Marks {
    at: Vec<u8>,
    last: u8,
}

impl Model for Marks {
    ghost use Rattle.std.specs.Prelude.{◌≡◌, ℕ, List, length};
    ghost use Rattle.cr_audit.specs.Marks.{bucket_count};

    ghost Value = { List ℕ };

    ghost view = { λ marks. marks.at.items };

    ghost invariant = { λ marks. length marks.at.items ≡ bucket_count };
}

impl Marks {
    /// No marks.
    pub fn new(alloc: Global) -> Result<Marks, NoMemory> {
        let at = Vec::from_elem(alloc, 0, bucket_number())?;
        Ok(Marks { at, last: 0 })
    }

    /// Whether no row stands twice.
    pub fn differ(&mut self, rows: &[Row]) -> bool
        ensures { IsTrue result ↔ AllDiffer rows.now }
    {
        if self.last == u8::MAX {
            self.at.fill(0);
            self.last = 0;
        }
        self.last += 1;
        differ(&mut self.at, self.last, rows)
    }
}

// How many buckets there are.
#[tactic(auto, unfolding(crate::specs::Marks::bucket_count))]
fn bucket_number() -> usize
    ensures { result ≡ bucket_count }
{
    BUCKETS
}

fn differ(at: &mut [u8], mark: u8, rows: &[Row]) -> bool
    requires { length at.old ≡ bucket_count }
    ensures differ { IsTrue result ↔ AllDiffer rows.now }
    ensures same { length at.new ≡ bucket_count }
{
    for place in 0..rows.len() {
        if comes_again(at, mark, rows, place) {
            return false;
        }
        at[bucket_of(&rows[place])] = mark;
    }
    true
}

// Whether the row at a place stands before that too, where the bucket of each row before it has the mark.
fn comes_again(at: &[u8], mark: u8, rows: &[Row], place: usize) -> bool
    requires at { length at.now ≡ bucket_count }
    requires place { place < length rows.now }
    requires marked { AreMarked at.now mark (take place rows.now) }
    ensures { IsTrue result ↔ Contains (take place rows.now) (get_or rows.now place []) }
{
    at[bucket_of(&rows[place])] == mark && stands_before(rows, place)
}

fn stands_before(rows: &[Row], place: usize) -> bool
    requires { place < length rows.now }
    ensures { IsTrue result ↔ Contains (take place rows.now) (get_or rows.now place []) }
{
    rows[..place].contains(&rows[place])
}

// The bucket of a row.
#[tactic(auto, unfolding(crate::specs::Marks::bucket, crate::specs::Marks::bucket_count))]
fn bucket_of(row: &Row) -> usize
    ensures is { result ≡ bucket row.now }
    ensures within { result < bucket_count }
{
    (row.key().wrapping_mul(SPREAD) >> 40) as usize % BUCKETS
}
