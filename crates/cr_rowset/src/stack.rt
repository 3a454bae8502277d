//! The rows of a stack, by their keys, in chains.

ghost use Rattle.std.specs.Prelude.{◌≡◌, ◌≢◌, ℕ, ◌<◌, ◌≤◌, ◌^◌, List, [], length, take, get_or, replicate, Contains, IfOk, IfSome, IsErr, IsNone};
ghost use Rattle.cr_rowset.specs.Stacks.{AllDiffer};
ghost use Rattle.cr_rowset.specs.Chains.{bucket, bucket_count, IsChained, Seeks};
ghost use Rattle.cr_rowset.specs.Pushing.{Pushes, StandsAt};

use crate::keys::{key_of, row_of};
use crate::pushed::Pushed;
use cr_row::{NoMemory, Row};
use std::alloc::Global;
use std::marker::Model;

// The greatest room: of each place in it 32 bits hold one more than its number.
const MOST_ROWS: u64 = 0xFFFF_FFFF;

// An odd number near 2^64 over the golden ratio: it spreads keys over the buckets.
const SPREAD: u64 = 0x9E37_79B9_7F4A_7C15;

/// A stack of different rows, with a room that never changes.
///
/// It is seen as the list of its rows, the first pushed first, and its room. A push looks at the rows
/// of one bucket alone, and a cut takes constant time for each row that goes. Of memory it takes 12 bytes
/// a row and 4 a bucket. `with_room` has as many buckets as rows, or up to twice as many: 16 to 20 bytes a row.
#[derive(Drop)]
pub struct RowStack {
    // The rows of the stack have the first ones.
    keys: Vec<u64>,
    // Of each bucket one more than the place of its last row, or 0.
    buckets: Vec<u32>,
    // Of each place what the bucket of its row had before.
    before: Vec<u32>,
    len: usize,
    // A bucket is what is left of a hash that is moved down by so many bits.
    shift: u32,
}

impl Model for RowStack {
    ghost use Rattle.std.specs.Prelude.{length, map, take};
    ghost use Rattle.cr_rowset.specs.Stacks.{StackParts};
    ghost use Rattle.cr_rowset.specs.Keys.{row_of};
    ghost use Rattle.cr_rowset.specs.Chains.{IsStack};

    ghost Value = { StackParts };

    ghost view = { λ s. record { rows = take s.len (map row_of s.keys.items); room = length s.keys.items } };

    ghost invariant = { λ s. IsStack s.shift s.buckets.items s.before.items s.keys.items s.len };
}

impl RowStack {
    /// The empty stack with this room. All memory that it will need is taken here. Err where no memory
    /// is left, and always for a room of 2^32 rows or more.
    pub fn with_room(alloc: Global, room: u64) -> Result<RowStack, NoMemory>
        ensures is { IfOk result (λ stack. stack ≡ record { rows = []; room = room }) }
        ensures too_large { 2 ^ 32 ≤ room → IsErr result }
    {
        RowStack::with_buckets(alloc, room, room)
    }

    /// The same with eight to sixteen buckets for each row, 44 to 76 bytes: a push of a new row then mostly finds an empty
    /// bucket, which takes half the time.
    pub fn with_many_buckets(alloc: Global, room: u64) -> Result<RowStack, NoMemory>
        ensures is { IfOk result (λ stack. stack ≡ record { rows = []; room = room }) }
        ensures too_large { 2 ^ 32 ≤ room → IsErr result }
    {
        RowStack::with_buckets(alloc, room, room.saturating_mul(8))
    }

    // The empty stack with this room and about so many buckets.
    fn with_buckets(alloc: Global, room: u64, buckets: u64) -> Result<RowStack, NoMemory>
        ensures is { IfOk result (λ stack. stack ≡ record { rows = []; room = room }) }
        ensures too_large { 2 ^ 32 ≤ room → IsErr result }
    {
        if room > MOST_ROWS {
            return Err(NoMemory);
        }
        let shift = shift_for(buckets);
        let places = room as usize;
        let buckets = Vec::from_elem(alloc, 0, bucket_number(shift))?;
        let before = Vec::from_elem(alloc, 0, places)?;
        let keys = Vec::from_elem(alloc, 0, places)?;
        Ok(RowStack {
            keys,
            buckets,
            before,
            len: 0,
            shift,
        })
    }

    /// How many rows there are.
    pub fn len(&self) -> u64
        ensures is { result ≡ length self.now.rows }
        ensures within { length self.now.rows ≤ self.now.room }
        ensures different { AllDiffer self.now.rows }
    {
        self.len as u64
    }

    /// The row at a place, counted from 0.
    pub fn row_at(&self, place: u64) -> Row
        requires { place < length self.now.rows }
        ensures { result ≡ get_or self.now.rows place [] }
    {
        row_of(self.keys[place as usize])
    }

    /// The place of a row, counted from 0. None where it stands nowhere in the stack.
    pub fn place_of(&self, row: &Row) -> Option<u64>
        ensures some { IfSome result (λ place. StandsAt self.now.rows row.now place) }
        ensures none { IsNone result → Contains self.now.rows row.now → ⊥ }
    {
        let key = key_of(row);
        let last = self.buckets[bucket_of(key, self.shift)];
        place_of(&self.keys, &self.before, self.len, last, key)
    }

    /// Puts a row last, unless it stands in the stack already or there is no room for it.
    pub fn push(&mut self, row: Row) -> Pushed
        ensures { Pushes self.old row result self.new }
    {
        let len = self.len;
        let key = key_of(&row);
        let bucket = bucket_of(key, self.shift);
        let last = self.buckets[bucket];
        if let Some(place) = place_of(&self.keys, &self.before, len, last, key) {
            return Pushed::Again(place);
        }
        if len == self.keys.len() {
            return Pushed::Full;
        }
        self.keys[len] = key;
        self.before[len] = last;
        self.buckets[bucket] = len as u32 + 1;
        self.len = len + 1;
        Pushed::Fresh
    }

    /// Removes the rows above the first ones, of which so many stay.
    #[tactic(auto, using(crate::proofs::Held::kept_less, crate::proofs::Held::cut))]
    pub fn cut_to(&mut self, len: u64)
        requires { len ≤ length self.old.rows }
        ensures { self.new ≡ record { rows = take len self.old.rows; room = self.old.room } }
    {
        let left = len as usize;
        unlink(
            &mut self.buckets,
            &self.before,
            &self.keys,
            self.shift,
            self.len,
            left,
        );
        self.len = left;
    }
}

// By how many bits a hash is moved down: so that there are so many buckets, or more, but 16 or fewer than twice as many.
fn shift_for(buckets: u64) -> u32
    ensures { (1 ≤ result) × (result < 64) }
{
    let mut shift = 60;
    while shift > 30 && (1u64 << (64 - shift)) < buckets {
        shift -= 1;
    }
    shift
}

// How many buckets there are.
#[tactic(auto, unfolding(crate::specs::Chains::bucket_count))]
fn bucket_number(shift: u32) -> usize
    requires { (1 ≤ shift) × (shift < 64) }
    ensures { result ≡ bucket_count shift }
{
    1 << (64 - shift)
}

// The bucket of a key.
#[inline(always)]
#[tactic(auto, using(crate::proofs::Linked::hash_below), unfolding(crate::specs::Chains::bucket, crate::specs::Chains::bucket_count))]
fn bucket_of(key: u64, shift: u32) -> usize
    requires { shift < 64 }
    ensures is { result ≡ bucket shift key }
    ensures within { result < bucket_count shift }
{
    (key.wrapping_mul(SPREAD) >> shift) as usize
}

// The place of a key among the first ones, by the chain that begins at the place before the mark.
fn place_of(keys: &[u64], before: &[u32], len: usize, mark: u32, key: u64) -> Option<u64>
    requires chain { Seeks keys.now before.now len mark key }
    requires keys { len ≤ length keys.now }
    requires before { len ≤ length before.now }
    ensures within { IfSome result (λ place. place < len) }
    ensures is { IfSome result (λ place. get_or keys.now place 0 ≡ key) }
    ensures none { IsNone result → (i : ℕ) → i < len → get_or keys.now i 0 ≢ key }
{
    let mut mark = mark;
    while mark > 0 {
        let place = (mark - 1) as usize;
        if keys[place] == key {
            return Some(place as u64);
        }
        mark = before[place];
    }
    None
}

// Gives the buckets back what they had before the keys from this place on.
fn unlink(buckets: &mut [u32], before: &[u32], keys: &[u64], shift: u32, len: usize, left: usize)
    requires bits { shift < 64 }
    requires chained { IsChained shift buckets.old before.now keys.now len }
    requires buckets { length buckets.old ≡ bucket_count shift }
    requires keys { len ≤ length keys.now }
    requires before { len ≤ length before.now }
    requires left { left ≤ len }
    ensures chained { IsChained shift buckets.new before.now keys.now left }
    ensures same_length { length buckets.new ≡ length buckets.old }
{
    let mut place = len;
    while place > left {
        place -= 1;
        buckets[bucket_of(keys[place], shift)] = before[place];
    }
}
