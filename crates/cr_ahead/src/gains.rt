//! The least and the greatest gain of some ways.

ghost use Rattle.std.specs.Prelude.{◌≡◌, ◌+◌, ◌≤◌, ◌<◌, ◌^◌, IfSome};
ghost use Rattle.cr_ahead.specs.Cells.{told_by, IsCell, joined, raised};

/// The least and the greatest gain of some ways. Each is the gain of one of them.
#[derive(Debug, Drop, Clone, Copy, PartialEq, Eq)]
pub struct Gains {
    pub least: u32,
    pub greatest: u32,
}

// What a cell tells: no ways where the least gain is above the greatest.
#[inline(always)]
pub(crate) fn told_by(cell: Gains) -> Option<Gains>
    ensures { result ≡ told_by cell }
{
    if cell.least <= cell.greatest {
        Some(cell)
    } else {
        None
    }
}

// The cell that tells that there are no ways: joined with another, it leaves that as it is.
pub(crate) const NO_WAYS: Gains = Gains {
    least: u32::MAX,
    greatest: 0,
};

// The cell of two sets of ways together. Nothing is asked of either, so that nothing has to be foreseen.
#[inline(always)]
pub(crate) fn joined(one: Gains, other: Gains) -> Gains
    requires one { IsCell one }
    requires other { IsCell other }
    ensures told { told_by result ≡ joined (told_by one) (told_by other) }
    ensures cell { IsCell result }
{
    Gains {
        least: one.least.min(other.least),
        greatest: one.greatest.max(other.greatest),
    }
}

// The cell where each way gains so much more.
#[inline(always)]
pub(crate) fn raised(by: u32, cell: Gains) -> Gains
    requires { IfSome (told_by cell) (λ g. (g.least + by < 2 ^ 32) × (g.greatest + by < 2 ^ 32)) }
    ensures told { told_by result ≡ raised by (told_by cell) }
    ensures cell { IsCell result }
{
    if cell.least <= cell.greatest {
        Gains {
            least: cell.least + by,
            greatest: cell.greatest + by,
        }
    } else {
        NO_WAYS
    }
}
