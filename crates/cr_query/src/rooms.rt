//! How many leads a part has room for, by its length.

ghost use Rattle.std.specs.Prelude.{◌≡◌, ◌≤◌, IfOk};
ghost use Rattle.cr_query.specs.declared.numbers.Numbers.{Numbers};
ghost use Rattle.cr_query.specs.Gauges.{room_left, AreRooms};

use crate::numbers::Numbers;
use cr_row::NoMemory;
use std::alloc::Global;

/// How many leads a part has room for at most, for each length from none to the greatest of a part. Err where no
/// memory is left.
pub fn rooms_of(alloc: Global, numbers: Numbers) -> Result<Vec<u16>, NoMemory>
    requires some { 1 ≤ numbers.shortest }
    requires few { numbers.part_most ≤ 12000 }
    ensures { IfOk result (λ rooms. AreRooms numbers rooms.items) }
{
    let lengths = numbers.part_most as usize + 1;
    let mut rooms = Vec::with_capacity(alloc, lengths)?;
    for length in 0..lengths {
        rooms.push(room_left(numbers, length as u64))?;
    }
    Ok(rooms)
}

/// How many leads a part of this length has room for at most. One that is longer than the table has room for none.
pub fn room_at(rooms: &[u16], length: u64) -> u64
    ensures is { (numbers : Numbers) → AreRooms numbers rooms.now → result ≡ room_left numbers length }
    ensures few { result ≤ 65535 }
{
    match rooms.get(length as usize) {
        Some(room) => u64::from(*room),
        None => 0,
    }
}

// How many of the shortest leads are no longer than what is left of a part.
fn room_left(numbers: Numbers, length: u64) -> u16
    requires some { 1 ≤ numbers.shortest }
    requires few { numbers.part_most ≤ 12000 }
    ensures { result ≡ room_left numbers length }
{
    (numbers.part_most.saturating_sub(length) / numbers.shortest) as u16
}
