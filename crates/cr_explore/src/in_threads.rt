//! Touches that were found before, looked at by several threads.

ghost use Rattle.std.specs.Prelude.{◌≡◌, ◌≤◌, [], length, get_or, All, IfOk};
ghost use Rattle.cr_model.specs.Callings.{HasSteps};
ghost use Rattle.cr_model.specs.Checks.{TellsFirst};
ghost use Rattle.cr_model.specs.Touches.{Kept};
ghost use Rattle.cr_explore.specs.Slices.{IsSlice, RightFrom, first_told};

use crate::slices::{Slice, slices_of};
use crate::tables::Tables;
use crate::unkept::{MANY, first_unkept};
use cr_book::each_in_a_thread;
use cr_model::{Calling, Problem};
use cr_row::NoMemory;
use std::alloc::Global;
use std::thread::Threads;

/// The same as [`first_unkept`], by so many threads where touches are many. Each looks at a slice of them. Err where no
/// memory is left.
pub fn first_unkept_by<R: Threads + Sync>(
    rt: &R,
    alloc: Global,
    problem: &Problem,
    touches: &[Calling],
    threads: usize,
) -> Result<Option<usize>, NoMemory>
    requires { All (HasSteps problem.now) touches.now }
    ensures { IfOk result (TellsFirst (λ i. Kept problem.now (get_or touches.now i [])) (length touches.now)) }
{
    if threads < 2 || touches.len() < MANY {
        return first_unkept(alloc, problem, touches);
    }
    let tables = Tables::new(alloc, problem)?;
    first_in_threads(rt, alloc, &tables, touches, threads)
}

// The same with tables, by so many threads, however many touches there are.
fn first_in_threads<R: Threads + Sync>(
    rt: &R,
    alloc: Global,
    tables: &Tables,
    touches: &[Calling],
    threads: usize,
) -> Result<Option<usize>, NoMemory>
    requires threads { 2 ≤ threads }
    requires steps { All (HasSteps tables.now) touches.now }
    ensures { IfOk result (TellsFirst (λ i. Kept tables.now (get_or touches.now i [])) (length touches.now)) }
{
    let slices = slices_of(alloc, touches.len(), touches.len() / threads + 1)?;
    let told = each_in_a_thread(
        rt,
        slices,
        &|slice: Slice| -> Result<Option<usize>, NoMemory>
            requires { All (HasSteps tables.now) touches.now × IsSlice (length touches.now) slice }
            ensures { IfOk result (TellsFirst
                (RightFrom (λ i. Kept tables.entry.now (get_or touches.entry.now i [])) slice.start) slice.end) }
        { first_in_slice(alloc, tables, touches, slice) },
    )?;
    first_of(&told)
}

// The first touch of a slice that is not kept, by its place among all. Err where no memory is left.
fn first_in_slice(
    alloc: Global,
    tables: &Tables,
    touches: &[Calling],
    slice: Slice,
) -> Result<Option<usize>, NoMemory>
    requires steps { All (HasSteps tables.now) touches.now }
    requires slice { IsSlice (length touches.now) slice }
    ensures { IfOk result (TellsFirst (RightFrom (λ i. Kept tables.now (get_or touches.now i [])) slice.start) slice.end) }
{
    match tables.first_unkept(alloc, &touches[slice.start..slice.end])? {
        Some(index) => Ok(Some(slice.start + index)),
        None => Ok(None),
    }
}

// The first index that is told of slices one after another. Err where a slice before it had no memory.
fn first_of(told: &[Result<Option<usize>, NoMemory>]) -> Result<Option<usize>, NoMemory>
    ensures { result ≡ first_told told.now }
{
    for first in told {
        match first {
            Ok(Some(index)) => return Ok(Some(*index)),
            Ok(None) => (),
            Err(NoMemory) => return Err(NoMemory),
        }
    }
    Ok(None)
}
