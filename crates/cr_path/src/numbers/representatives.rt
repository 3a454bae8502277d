//! The representative rows: those that cover themselves.

ghost use Rattle.std.specs.Prelude.{◌≡◌, ◌++◌, ◌∷◌, [], cond, length, IfOk};
ghost use Rattle.cr_path.specs.Representatives.{AreRepresentatives};

use crate::numbers::growing::narrow;
use crate::numbers::stopped::Stopped;
use cr_row::Row;
use cr_rowset::RowStack;
use std::alloc::Global;

/// The representative rows in the order of their numbers, and of each row the place that it has or would have among them.
#[derive(Drop)]
pub struct Representatives {
    pub rows: Vec<Row>,
    pub places: Vec<u32>,
}

impl Representatives {
    /// Those of some rows by a cover of them.
    pub fn of(alloc: Global, stack: &RowStack, cover: &[u32]) -> Result<Representatives, Stopped>
        requires { length cover.now ≡ length stack.now.rows }
        ensures { IfOk result (λ representatives. AreRepresentatives stack.now.rows cover.now representatives.rows.items representatives.places.items (length stack.now.rows)) }
    {
        let mut rows = Vec::new(alloc);
        let mut places = Vec::with_capacity(alloc, cover.len())?;
        for number in 0..cover.len() {
            places.push(narrow(rows.len())?)?;
            let row = stack.row_at(number as u64);
            add_if(&mut rows, row, cover[number] as usize == number)?;
        }
        Ok(Representatives { rows, places })
    }
}

// Adds a row if it is representative.
fn add_if(rows: &mut Vec<Row>, row: Row, is_representative: bool) -> Result<(), Stopped>
    ensures { IfOk result (λ _. rows.new.items ≡ rows.old.items ++ cond is_representative (row ∷ []) []) }
{
    if is_representative {
        rows.push(row)?;
    }
    Ok(())
}
