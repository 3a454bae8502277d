//! What is to be written.

use cr_model::Calling;

/// The text that belongs to an input, in pieces that follow one another: its book, or a checkpoint where the search stopped
/// after so many turns. The touches that a book was made of stand beside it, so that nobody waits until they are let go.
#[derive(Drop)]
pub struct Outcome {
    pub pieces: Vec<Vec<u8>>,
    pub stopped: Option<u64>,
    pub spent: Vec<Calling>,
}
