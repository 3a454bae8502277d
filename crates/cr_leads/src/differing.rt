//! Rows that all differ.

ghost use Rattle.std.specs.Prelude.{◌≡◌, ◌↔◌, map, IsTrue, IfOk};
ghost use Rattle.std.specs.List.Sorted.{IsPermutation, IsSorted, IsStrictlyIncreasing};
ghost use Rattle.std.specs.Ordering.{nat_cmp};
ghost use Rattle.cr_row.specs.Packed.{key_of};
ghost use Rattle.cr_model.specs.Callings.{AllDiffer};
ghost use Rattle.cr_leads.specs.Tables.{HaveOneStage};

use cr_row::{NoMemory, Row, keys_tell_rows_apart};
use std::alloc::Global;

/// Whether no row stands twice. It sorts the keys of the rows.
pub fn rows_differ(alloc: Global, rows: &[Row]) -> Result<bool, NoMemory>
    requires { HaveOneStage rows.now }
    ensures { IfOk result (λ differ. IsTrue differ ↔ AllDiffer rows.now) }
{
    keys_tell_rows_apart();
    let keys = sorted(keys_of(alloc, rows)?);
    Ok(ascend(&keys))
}

// The numbers in their order.
fn sorted(numbers: Vec<u64>) -> Vec<u64>
    ensures moved { IsPermutation numbers.items result.items }
    ensures ordered { IsSorted nat_cmp result.items }
{
    let mut sorted = numbers;
    sorted.sort_unstable();
    sorted
}

fn keys_of(alloc: Global, rows: &[Row]) -> Result<Vec<u64>, NoMemory>
    ensures { IfOk result (λ keys. keys.items ≡ map key_of rows.now) }
{
    let mut keys = Vec::with_capacity(alloc, rows.len())?;
    for row in rows {
        keys.push(row.key())?;
    }
    Ok(keys)
}

// Whether each number is less than the next.
fn ascend(numbers: &[u64]) -> bool
    ensures { IsTrue result ↔ IsStrictlyIncreasing numbers.now }
{
    for index in 1..numbers.len() {
        if numbers[index] <= numbers[index - 1] {
            return false;
        }
    }
    true
}
