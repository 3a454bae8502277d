//! Lists cut into slices.

ghost use Rattle.std.specs.Prelude.{◌<◌, All, IfOk};
ghost use Rattle.cr_explore.specs.Slices.{IsSlice, Adjoin};

use cr_row::NoMemory;
use std::alloc::Global;

/// A slice of a list, from a place up to another.
#[derive(Clone, Copy)]
pub struct Slice {
    pub start: usize,
    pub end: usize,
}

/// Slices of a list of this length, one after another, none of which has more than so many. Err where no memory is left.
pub fn slices_of(alloc: Global, long: usize, most: usize) -> Result<Vec<Slice>, NoMemory>
    requires { 0 < most }
    ensures adjoin { IfOk result (λ slices. Adjoin 0 slices.items long) }
    ensures inside { IfOk result (λ slices. All (IsSlice long) slices.items) }
{
    let mut slices = Vec::new(alloc);
    let mut start: usize = 0;
    while start < long {
        let end = long.min(start.saturating_add(most));
        slices.push(Slice { start, end })?;
        start = end;
    }
    Ok(slices)
}
