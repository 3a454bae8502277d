//! Whether shards overlap.

ghost use Rattle.std.specs.Prelude.{◌≡◌, ◌+◌, ◌<◌, ◌≤◌, ◌↔◌, ◌++◌, length, take, drop, IsTrue, IfOk};
ghost use Rattle.cr_shard.specs.Reads.{items_of, all_items, NoneMeet, NoneClashNext, FrontMeets, FrontMeetsOne, TellsOverlap, CanMeet};

use crate::words::{Word, add_words};
use cr_model::Problem;
use cr_row::NoMemory;
use cr_store::Checkpoint;
use std::alloc::Global;

/// The first two of shards of one problem that overlap: the least number that overlaps one before it comes second, and
/// before it the least number that it overlaps. None where no two overlap.
///
/// Of n found touches and nodes in all it takes n log n comparisons to answer None, and for a pair as many again for
/// each halving of the number of shards, twice. Err where no memory is left.
pub fn first_overlap(
    alloc: Global,
    problem: &Problem,
    shards: &[Checkpoint],
) -> Result<Option<(u64, u64)>, NoMemory>
    requires { CanMeet problem.now shards.now }
    ensures { IfOk result (TellsOverlap problem.now shards.now) }
{
    if are_apart(alloc, problem, shards, &[])? {
        return Ok(None);
    }
    let later = first_to_overlap(alloc, problem, shards)?;
    let earlier = least_overlapped(alloc, problem, shards, later)?;
    Ok(Some((earlier as u64, later as u64)))
}

// Whether no two items of some shards and of some more meet.
fn are_apart(
    alloc: Global,
    problem: &Problem,
    shards: &[Checkpoint],
    more: &[Checkpoint],
) -> Result<bool, NoMemory>
    ensures { IfOk result (λ apart. IsTrue apart ↔ NoneMeet (all_items problem.now (shards.now ++ more.now))) }
{
    let mut words = Vec::new(alloc);
    add_words(&mut words, problem, shards)?;
    add_words(&mut words, problem, more)?;
    Ok(sorted_apart(words))
}

// Whether no two of the words meet.
fn sorted_apart(mut words: Vec<Word>) -> bool
    ensures { IsTrue result ↔ NoneMeet (items_of words.entry.items) }
{
    words.sort_unstable();
    none_clashes_next(&words)
}

// Whether no word clashes with the word after it. In sorted words one that meets any other clashes with the next one.
fn none_clashes_next(words: &[Word]) -> bool
    ensures { IsTrue result ↔ NoneClashNext (items_of words.now) }
{
    for index in 1..words.len() {
        if words[index - 1].clashes(&words[index]) {
            return false;
        }
    }
    true
}

// The least shard that overlaps one before it, found by halving.
fn first_to_overlap(
    alloc: Global,
    problem: &Problem,
    shards: &[Checkpoint],
) -> Result<usize, NoMemory>
    requires { FrontMeets problem.now shards.now (length shards.now) }
    ensures inside { IfOk result (λ at. at < length shards.now) }
    ensures apart { IfOk result (λ at. NoneMeet (all_items problem.now (take at shards.now))) }
    ensures meets { IfOk result (λ at. FrontMeets problem.now shards.now (at + 1)) }
{
    let mut low = 0;
    let mut high = shards.len();
    while high - low > 1 {
        let middle = low + (high - low) / 2;
        if are_apart(alloc, problem, front_of(shards, middle), &[])? {
            low = middle;
        } else {
            high = middle;
        }
    }
    Ok(low)
}

// The first shards.
fn front_of(shards: &[Checkpoint], number: usize) -> &[Checkpoint]
    requires { number ≤ length shards.now }
    ensures { result.now ≡ take number shards.now }
{
    &shards[..number]
}

// A shard by itself.
fn one_of(shards: &[Checkpoint], number: usize) -> &[Checkpoint]
    requires { number < length shards.now }
    ensures { result.now ≡ take 1 (drop number shards.now) }
{
    &shards[number..number + 1]
}

// The least shard that overlaps a later one, found by halving.
fn least_overlapped(
    alloc: Global,
    problem: &Problem,
    shards: &[Checkpoint],
    later: usize,
) -> Result<usize, NoMemory>
    requires inside { later < length shards.now }
    requires meets { FrontMeetsOne problem.now shards.now later later }
    requires none { FrontMeetsOne problem.now shards.now later 0 → ⊥ }
    ensures below { IfOk result (λ at. at < later) }
    ensures apart { IfOk result (λ at. FrontMeetsOne problem.now shards.now later at → ⊥) }
    ensures meets { IfOk result (λ at. FrontMeetsOne problem.now shards.now later (at + 1)) }
{
    let mut low = 0;
    let mut high = later;
    while high - low > 1 {
        let middle = low + (high - low) / 2;
        if are_apart(
            alloc,
            problem,
            front_of(shards, middle),
            one_of(shards, later),
        )? {
            low = middle;
        } else {
            high = middle;
        }
    }
    Ok(low)
}
