//! Tables of what can still come.

ghost use Rattle.std.specs.Prelude.{◌≡◌, ℕ, ◌<◌, IfOk};
ghost use Rattle.cr_ahead.specs.Moves.{MovesParts};
ghost use Rattle.cr_ahead.specs.Ways.{IsAnswer};
ghost use Rattle.cr_ahead.specs.Tables.{answer_at, IsAhead};

use crate::gains::{Gains, told_by};
use crate::moves::Moves;
use crate::rows::push_row;
use cr_row::NoMemory;
use std::alloc::Global;
use std::marker::Model;

/// What can still come: for each place and each length that a part has there, whether there is a way to the end of
/// a part, and of all ways the least and the greatest gain.
///
/// It is seen as the number of its places, the greatest length of a part, and its cells. It has 8 bytes
/// for each place and each length from 0 to the greatest.
#[derive(Drop)]
pub struct Ahead {
    // A row for each length, from the greatest down, with a cell for each place.
    cells: Vec<Gains>,
    places: usize,
    greatest: u16,
}

impl Model for Ahead {
    ghost use Rattle.cr_ahead.specs.Tables.{AheadParts, IsTable};

    ghost Value = { AheadParts };

    ghost view = { λ t. record { places = t.places; greatest = t.greatest; cells = t.cells.items } };

    ghost invariant = { λ t. IsTable t.places t.greatest t.cells.items };
}

impl Ahead {
    /// The table of these moves, for parts that are at least and at most so long. All memory is taken here. Err where
    /// no memory is left.
    pub fn new(alloc: Global, moves: &Moves, least: u16, greatest: u16) -> Result<Ahead, NoMemory>
        ensures { IfOk result (λ table. IsAhead moves.now least greatest table) }
    {
        let places = moves.places();
        let rows = usize::from(greatest) + 1;
        let mut cells = Vec::with_capacity(alloc, rows * places)?;
        for left in 0..rows {
            push_row(&mut cells, moves, least, greatest, left)?;
        }
        Ok(Ahead {
            cells,
            places,
            greatest,
        })
    }

    /// How many places there are.
    pub fn places(&self) -> usize
        ensures { result ≡ self.now.places }
    {
        self.places
    }

    /// The least and the greatest gain of all ways from a place at which a part is so long. None exactly where there
    /// is none. It takes constant time.
    #[inline(always)]
    pub fn at(&self, place: u32, length: u32) -> Option<Gains>
        requires { place < self.now.places }
        ensures is { result ≡ answer_at self.now place length }
        ensures of_moves { (m : MovesParts) (least greatest : ℕ) → IsAhead m least greatest self.now
            → IsAnswer m least greatest place length result }
    {
        let greatest = u32::from(self.greatest);
        if length > greatest {
            return None;
        }
        let row = (greatest - length) as usize * self.places;
        told_by(self.cells[row + place as usize])
    }
}
