//! The keys of rows, and rows from their keys.

ghost use Rattle.std.specs.Prelude.{◌≡◌, max};
ghost use Rattle.cr_row.specs.Packed.{key_of};
ghost use Rattle.cr_rowset.specs.Keys.{row_of, stage_of, IsKey};

use cr_row::{Row, Stage};

/// The key of a row.
#[inline(always)]
pub fn key_of(row: &Row) -> u64
    ensures is { result ≡ key_of row.now }
    ensures row { row_of result ≡ row.now }
    ensures is_key { IsKey result }
{
    // It tells that the bells are those of a row.
    let _ = row.stage();
    row.key()
}

/// The row with this key.
pub fn row_of(key: u64) -> Row
    requires { IsKey key }
    ensures { result ≡ row_of key }
{
    match Stage::new(greatest_bell(key)) {
        Some(stage) => Row::with_key(stage, key),
        None => unreachable!(),
    }
}

// The greatest bell of a key.
fn greatest_bell(key: u64) -> u8
    ensures { result ≡ stage_of key }
{
    let mut most = 0;
    let mut rest = key;
    for _place in 0..16_u32 {
        most = greater(most, (rest % 16) as u8 + 1);
        rest /= 16;
    }
    most
}

fn greater(one: u8, other: u8) -> u8
    ensures { result ≡ max one other }
{
    if one < other { other } else { one }
}
