//! Queries that all rotations of a calling meet, or none.

ghost use Rattle.std.specs.Prelude.{◌≡◌};
ghost use Rattle.cr_model.specs.Dead.{turn_free};

use cr_model::Query;

/// Whether the query has neither patterns nor limits on changes of method. It takes no memory.
pub fn turn_free(query: &Query) -> bool
    ensures { result ≡ turn_free query.now }
{
    query.patterns.is_empty() && query.com.is_none()
}
