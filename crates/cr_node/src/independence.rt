//! Whether found touches and nodes are independent.

ghost use Rattle.std.specs.Prelude.{◌≡◌, ℕ, ◌+◌, ◌<◌, ◌≤◌, ◌↔◌, length, IsTrue, IfOk};
ghost use Rattle.cr_node.specs.Overlaps.{item_at, items, items_of, ApartBelow, IsFirstOverlap, NoneBeginsNext, TellsLeast, TellsOverlap};

use crate::node::Node;
use crate::words::{Word, words_of};
use cr_model::{Calling, Problem};
use cr_row::NoMemory;
use std::alloc::Global;

/// Whether no node is a prefix of another one or of a found touch's part. All are numbered together from 0, first the
/// found touches and then the nodes. None where all are independent. Else the least number whose item overlaps an
/// earlier one comes second, and before it the earlier item that it overlaps and that has the lexicographically least
/// word; of equal words the least number.
///
/// Of n items it takes n log n comparisons to answer None, and log n times as many for a pair. Err where no memory is
/// left.
pub fn independent(
    alloc: Global,
    problem: &Problem,
    found: &[Calling],
    nodes: &[Node],
) -> Result<Option<(u64, u64)>, NoMemory>
    ensures { IfOk result (TellsOverlap problem.now found.now nodes.now) }
{
    let words = words_of(alloc, problem, found, nodes)?;
    if are_apart(words) {
        return Ok(None);
    }
    let pair = first_overlap(alloc, problem, found, nodes)?;
    Ok(Some(pair))
}

// The first pair that overlaps, of words that are made anew.
fn first_overlap(
    alloc: Global,
    problem: &Problem,
    found: &[Calling],
    nodes: &[Node],
) -> Result<(u64, u64), NoMemory>
    requires { ApartBelow (items problem.now found.now nodes.now) (length (items problem.now found.now nodes.now)) → ⊥ }
    ensures { IfOk result (λ pair. IsFirstOverlap (items problem.now found.now nodes.now) pair.0 pair.1) }
{
    let words = words_of(alloc, problem, found, nodes)?;
    let later = first_to_overlap(alloc, &words)?;
    match least_overlapped(&words, later) {
        Some(earlier) => Ok((earlier as u64, later as u64)),
        None => unreachable!(),
    }
}

// Whether no two of the words overlap. They are sorted as they stand, and not copied.
fn are_apart(mut words: Vec<Word>) -> bool
    ensures { IsTrue result ↔ ApartBelow (items_of words.entry.items) (length (items_of words.entry.items)) }
{
    words.sort_unstable();
    none_begins_next(&words)
}

// Whether no two of the first words overlap.
fn first_are_apart(alloc: Global, words: &[Word], number: usize) -> Result<bool, NoMemory>
    requires { number ≤ length words.now }
    ensures { IfOk result (λ apart. IsTrue apart ↔ ApartBelow (items_of words.now) number) }
{
    let front = words[..number].to_vec(alloc)?;
    Ok(are_apart(front))
}

// Whether no word of a node begins the word after it. In sorted words a node that begins any begins the next one.
fn none_begins_next(words: &[Word]) -> bool
    ensures { IsTrue result ↔ NoneBeginsNext (items_of words.now) }
{
    for index in 1..words.len() {
        if words[index - 1].begins(&words[index]) {
            return false;
        }
    }
    true
}

// The least number whose word overlaps an earlier one, found by halving.
fn first_to_overlap(alloc: Global, words: &[Word]) -> Result<usize, NoMemory>
    requires { ApartBelow (items_of words.now) (length words.now) → ⊥ }
    ensures inside { IfOk result (λ at. at < length words.now) }
    ensures apart { IfOk result (λ at. ApartBelow (items_of words.now) at) }
    ensures overlaps { IfOk result (λ at. ApartBelow (items_of words.now) (at + 1) → ⊥) }
{
    let mut low = 0;
    let mut high = words.len();
    while high - low > 1 {
        let middle = low + (high - low) / 2;
        if first_are_apart(alloc, words, middle)? {
            low = middle;
        } else {
            high = middle;
        }
    }
    Ok(low)
}

// Of the words before one, the first by word and then by number that overlaps it.
fn least_overlapped(words: &[Word], later: usize) -> Option<usize>
    requires { later < length words.now }
    ensures { TellsLeast (items_of words.now) (item_at (items_of words.now) later) later result }
{
    let mut least = None;
    for earlier in 0..later {
        least = lesser(words, later, least, earlier);
    }
    least
}

// The same, where the answer for the words before the earlier one is known.
fn lesser(words: &[Word], later: usize, least: Option<usize>, earlier: usize) -> Option<usize>
    requires inside { later < length words.now }
    requires before { earlier < later }
    requires so_far { TellsLeast (items_of words.now) (item_at (items_of words.now) later) earlier least }
    ensures { TellsLeast (items_of words.now) (item_at (items_of words.now) later) (earlier + 1) result }
{
    if !words[earlier].overlaps(&words[later]) {
        return least;
    }
    let Some(best) = least else {
        return Some(earlier);
    };
    if words[earlier].is_less(&words[best]) {
        Some(earlier)
    } else {
        least
    }
}
