//! What changes on a board.

use crate::entry::Entry;
use crate::held::Held;
use crate::job::LaneJob;
use cr_model::Calling;

/// The lanes, what each worker holds, who resigned, what was found, the turns spent, the next number and the journal.
#[derive(Drop)]
pub struct State {
    pub lanes: Vec<Vec<LaneJob>>,
    pub held: Vec<Option<Held>>,
    pub resigned: Vec<bool>,
    pub found: Vec<Calling>,
    pub spent: u128,
    pub next: u64,
    pub journal: Vec<Entry>,
}
