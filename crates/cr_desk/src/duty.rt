//! What a worker that asked for a job is to do.

use cr_board::Ticket;

/// What a worker that asked for a job is to do.
#[derive(Drop)]
pub enum Duty {
    /// To explore a job that it holds now.
    Explore(Ticket),
    /// To resign: it found no memory, or holds a job already.
    Resign,
    /// To leave: there is nothing for it to do any more.
    Leave,
}
