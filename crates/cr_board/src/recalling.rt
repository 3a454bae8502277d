//! Resigning and recalling.

ghost use Rattle.std.specs.Prelude.{◌≡◌, ℕ, ◌<◌, ◌≤◌, false, replicate, vec_len};
ghost use Rattle.cr_board.specs.Jobs.{OpeningParts};
ghost use Rattle.cr_board.specs.Moves.{given_back, after_resigning, back_below, after_recall};
ghost use Rattle.cr_board.specs.Rooms.{parts_of, HasRooms};

use crate::board::Board;
use crate::entry::Entry;
use crate::lanes::{let_go, push_job, put};
use crate::state::State;

impl Board {
    /// A worker resigns: it gets no job from now on. A job that it holds goes back to the end of its own lane, its grant
    /// comes back, and the journal has one Back more. It takes no memory. To resign again changes nothing.
    pub fn resign(&mut self, worker: u32)
        requires { worker < self.old.opening.workers }
        ensures { self.new ≡ after_resigning self.old worker }
    {
        give_back(&mut self.state, worker);
        self.state.resigned[worker as usize] = true;
    }

    /// Each held job goes back to the end of its worker's lane, in the order of the workers, with one Back in the journal
    /// for each, and nobody has resigned. It takes no memory.
    pub fn recall_all(&mut self)
        ensures { self.new ≡ after_recall self.old }
    {
        let workers = self.opening.workers();
        give_all_back(&mut self.state, workers);
        clear(&mut self.state.resigned);
    }
}

// What a worker holds goes back to the end of its lane.
fn give_back(state: &mut State, worker: u32)
    requires held { worker < vec_len state.old.held }
    requires lane { worker < vec_len state.old.lanes }
    requires rooms { HasRooms state.old }
    ensures is { (o : OpeningParts) → parts_of o state.new ≡ given_back (parts_of o state.old) worker }
    ensures rooms { HasRooms state.new }
    ensures held { vec_len state.new.held ≡ vec_len state.old.held }
    ensures lanes { vec_len state.new.lanes ≡ vec_len state.old.lanes }
    ensures resigned { state.new.resigned ≡ state.old.resigned }
{
    if let Some(held) = let_go(&mut state.held, worker as usize) {
        let entry = Entry::Back {
            worker,
            job: held.job.number,
        };
        push_job(&mut state.lanes, worker as usize, held.job);
        put(&mut state.journal, entry);
    }
}

// What the workers below a number hold goes back, in their order.
fn give_all_back(state: &mut State, workers: u32)
    requires held { workers ≤ vec_len state.old.held }
    requires lane { workers ≤ vec_len state.old.lanes }
    requires rooms { HasRooms state.old }
    ensures is { (o : OpeningParts) → parts_of o state.new ≡ back_below (parts_of o state.old) workers }
    ensures rooms { HasRooms state.new }
    ensures resigned { state.new.resigned ≡ state.old.resigned }
{
    for worker in 0..workers {
        give_back(state, worker);
    }
}

// Nobody has resigned.
fn clear(flags: &mut Vec<bool>)
    ensures { flags.new.items ≡ replicate (vec_len flags.old) false }
{
    flags.fill(false);
}
