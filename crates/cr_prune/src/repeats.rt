//! Rows that stand twice.

ghost use Rattle.std.specs.Prelude.{◌≡◌, not};
ghost use Rattle.cr_model.specs.Decided.{rows_differ};

use cr_row::Row;

/// Whether a row stands twice. It takes no memory, and a time that grows with the square of their number.
pub fn repeats(rows: &[Row]) -> bool
    ensures { result ≡ not (rows_differ rows.now) }
{
    for index in 0..rows.len() {
        if rows[index + 1..].contains(&rows[index]) {
            return true;
        }
    }
    false
}
