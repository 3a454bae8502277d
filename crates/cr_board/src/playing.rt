//! Events, one after another.

ghost use Rattle.std.specs.Prelude.{◌≡◌, ℕ, ◌<◌, cond, nat_lt, length, take, OnOk, OnErr};
ghost use Rattle.cr_board.specs.Moves.{after_resigning};
ghost use Rattle.cr_board.specs.Boards.{held_at};
ghost use Rattle.cr_board.specs.Steps.{WorkStep, EventStep, Ran};

use crate::board::Board;
use crate::event::Event;
use crate::handed::Handed;
use cr_node::Explorer;
use cr_row::NoMemory;
use std::alloc::Global;

impl Board {
    /// Plays events in order. Err where no memory is left at one of them, and then the board is as it was before that
    /// one.
    pub fn play<E: Explorer>(
        &mut self,
        alloc: Global,
        events: &[Event],
        explorer: &E,
    ) -> Result<(), NoMemory>
        requires { E.explores explorer.now ≡ self.old.opening.problem }
        ensures ran { OnOk result (Ran self.old events.now self.new) }
        ensures begun { OnErr result ((played : ℕ) × (played < length events.now) × Ran self.old (take played events.now) self.new) }
    {
        for event in events {
            self.play_one(alloc, *event, explorer)?;
        }
        Ok(())
    }

    // Plays one event.
    fn play_one<E: Explorer>(
        &mut self,
        alloc: Global,
        event: Event,
        explorer: &E,
    ) -> Result<(), NoMemory>
        requires { E.explores explorer.now ≡ self.old.opening.problem }
        ensures step { OnOk result (EventStep self.old event self.new) }
        ensures err { OnErr result (self.new ≡ self.old) }
    {
        match event {
            Event::Next(worker) => {
                self.next_job(alloc, worker)?;
            }
            Event::Claim(worker, number) => {
                self.claim(alloc, worker, number)?;
            }
            Event::Work(worker) => self.work(alloc, worker, explorer)?,
            Event::Resign(worker) => self.resign_if(worker),
            Event::Recall => self.recall_all(),
        }
        Ok(())
    }

    // A worker resigns, if there is one of this number.
    fn resign_if(&mut self, worker: u32)
        ensures { self.new ≡ cond (nat_lt worker self.old.opening.workers) (after_resigning self.old worker) self.old }
    {
        if worker < self.opening.workers() {
            self.resign(worker);
        }
    }

    // A worker explores what it holds, and hands it in.
    fn work<E: Explorer>(
        &mut self,
        alloc: Global,
        worker: u32,
        explorer: &E,
    ) -> Result<(), NoMemory>
        requires { E.explores explorer.now ≡ self.old.opening.problem }
        ensures step { OnOk result (WorkStep self.old worker (held_at self.old.held worker) self.new) }
        ensures err { OnErr result (self.new ≡ self.old) }
    {
        let Some(held) = self.held_by(worker) else {
            return Ok(());
        };
        let job = &held.job;
        let number = job.number;
        let done = explorer.explore(alloc, &job.nodes, held.grant)?;
        match self.hand_in(worker, number, done) {
            Handed::In => Ok(()),
            Handed::NoMemory(_) => Err(NoMemory),
            _ => unreachable!(),
        }
    }
}
