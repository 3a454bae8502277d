//! The pairs of steps, by many threads.

ghost use Rattle.std.specs.Prelude.{◌≡◌, ◌<◌, ◌≤◌, length, slice_index, sum, IfOk};
ghost use Rattle.std.specs.List.{AllZip};
ghost use Rattle.cr_false.specs.Sets.{IsFalsePair, IsSetOf, HasNumber, pairs};

use crate::sets::{most_of, set_of};
use cr_leads::LeadTable;
use cr_model::limits::MOST_STEPS;
use cr_row::NoMemory;
use cr_rowset::RowStack;
use rayon::prelude::*;
use std::alloc::Global;
use std::thread::Threads;

/// Of each pair of steps how many false rows it has.
pub fn numbers_of(
    rt: &(impl Threads + Sync),
    alloc: Global,
    leads: &LeadTable,
) -> Result<Vec<u32>, NoMemory>
    ensures { IfOk result (λ numbers. AllZip (λ pair number. HasNumber (IsFalsePair leads.now pair) number) (pairs leads.now) numbers.items) }
{
    let end = MOST_STEPS * usize::from(leads.count());
    (0..end)
        .into_par_iter()
        .with_min_len(MOST_STEPS)
        .map(
            |pair: usize| -> Result<u32, NoMemory>
                ensures { IfOk result (λ number. HasNumber (IsFalsePair leads.entry.now pair) number) }
            { number_of(alloc, leads, pair) },
        )
        .collect::<Result<Vec<u32>, NoMemory>>(rt, alloc)?
}

/// Of each pair of steps the false rows, in a stack with room for so many as there are.
pub fn sets_of(
    rt: &(impl Threads + Sync),
    alloc: Global,
    leads: &LeadTable,
    numbers: &[u32],
) -> Result<Vec<RowStack>, NoMemory>
    requires { AllZip (λ pair number. HasNumber (IsFalsePair leads.now pair) number) (pairs leads.now) numbers.now }
    ensures { IfOk result (λ sets. AllZip (λ pair set. IsSetOf (IsFalsePair leads.now pair) set.rows) (pairs leads.now) sets.items) }
{
    let end = MOST_STEPS * usize::from(leads.count());
    (0..end)
        .into_par_iter()
        .with_min_len(MOST_STEPS)
        .map(
            |pair: usize| -> Result<RowStack, NoMemory>
                requires number { HasNumber (IsFalsePair leads.now pair) (slice_index numbers.now pair) }
                requires within { pair < length numbers.now }
                ensures { IfOk result (λ set. IsSetOf (IsFalsePair leads.entry.now pair) set.rows) }
            { set_with(alloc, leads, pair, numbers[pair]) },
        )
        .collect::<Result<Vec<RowStack>, NoMemory>>(rt, alloc)?
}

/// The sum of some numbers.
pub fn total(numbers: &[u32]) -> u64
    requires { length numbers.now ≤ 4294967295 }
    ensures { result ≡ sum numbers.now }
{
    let mut total = 0;
    for number in numbers {
        total += u64::from(*number);
    }
    total
}

// The false rows of a pair of steps, in a stack with room for so many.
fn set_with(
    alloc: Global,
    leads: &LeadTable,
    pair: usize,
    number: u32,
) -> Result<RowStack, NoMemory>
    requires { HasNumber (IsFalsePair leads.now pair) number }
    ensures { IfOk result (λ set. IsSetOf (IsFalsePair leads.now pair) set.rows) }
{
    set_of(alloc, leads, pair, u64::from(number))
}

// How many false rows a pair of steps has.
fn number_of(alloc: Global, leads: &LeadTable, pair: usize) -> Result<u32, NoMemory>
    ensures { IfOk result (λ number. HasNumber (IsFalsePair leads.now pair) number) }
{
    let set = set_of(alloc, leads, pair, most_of(leads, pair))?;
    Ok(set.len() as u32)
}
