//! The parts of a problem, before they are checked.

use crate::lead::Lead;
use crate::query::Query;
use cr_row::Stage;

/// The parts of a problem, borrowed for its checks.
#[derive(Clone, Copy)]
pub struct Parts<'a> {
    pub stage: Stage,
    pub letters: &'a [u8],
    pub leads: &'a [Lead],
    pub query: &'a Query,
}
