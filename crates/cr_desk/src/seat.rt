//! Seats at a desk, each with its share of the ledger.

ghost use Rattle.std.specs.Prelude.{◌≡◌, ◌+◌, ◌<◌, map, sum_by, vec_len, All, IfOk};
ghost use Rattle.std.specs.List.{range_with_len};

use cr_row::NoMemory;
use std::alloc::Global;
use std::sync::ledger::{Ledger, Share};

/// A worker's place at a desk: its number, and its share of the desk's ledger, in which the journal's entries that it
/// made are counted. The share has at least one part, which the ledger needs to count an entry.
#[derive(Drop)]
pub struct Seat<L: Ledger> {
    pub worker: u32,
    pub share: Share<L>,
    pub ghost has_part: { 0 < share.parts },
}

/// A seat for each worker, in order, with one part each of a share that has as many and counts nothing. Err where no
/// memory is left.
pub fn seats_of<L: Ledger>(
    alloc: Global,
    workers: u32,
    all: Share<L>,
) -> Result<Vec<Seat<L>>, NoMemory>
    requires parts { all.parts ≡ workers }
    requires nothing { all.amount ≡ 0 }
    ensures count { IfOk result (λ seats. vec_len seats ≡ workers) }
    ensures workers { IfOk result (λ seats. map (λ s. s.worker) seats.items ≡ range_with_len 0 workers) }
    ensures parts { IfOk result (λ seats. All (λ s. s.share.parts ≡ 1) seats.items) }
    ensures nothing { IfOk result (λ seats. All (λ s. s.share.amount ≡ 0) seats.items) }
{
    let mut all = all;
    let mut seats = Vec::with_capacity(alloc, workers as usize)?;
    for worker in 0..workers {
        let share = all.split_off(1, 0);
        seats.push(Seat { worker, share })?;
    }
    Ok(seats)
}

/// All the shares of some seats, and one that has none, as one.
pub fn merged<L: Ledger>(nothing: Share<L>, seats: Vec<Seat<L>>) -> Share<L>
    requires none { nothing.parts ≡ 0 }
    requires nothing { nothing.amount ≡ 0 }
    ensures parts { result.parts ≡ sum_by (λ s. s.share.parts) seats.items }
    ensures amount { result.amount ≡ sum_by (λ s. s.share.amount) seats.items }
{
    let mut all = nothing;
    let mut seats = seats;
    while let Some(seat) = seats.pop() {
        let Seat { worker: _, share } = seat;
        all.merge(share);
    }
    all
}
