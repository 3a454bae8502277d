//! The board.

ghost use Rattle.std.specs.Prelude.{◌≡◌, ◌↔◌, ◌<◌, ℕ, [], map, option_map, IsTrue, IfOk};
ghost use Rattle.cr_board.specs.Boards.{opened, lane_at, held_at, jobs_of};
ghost use Rattle.cr_board.specs.Partitions.{IsKept};

use crate::copies::{copy_callings, number_jobs};
use crate::entry::Entry;
use crate::job::LaneJob;
use crate::lanes::{lanes_from, no_holdings};
use crate::opening::Opening;
use crate::places::{first_busy, first_holding};
use crate::same::same_openings;
use crate::state::State;
use cr_model::Calling;
use cr_row::NoMemory;
use std::alloc::Global;
use std::marker::Model;

/// The scheduler of one search: for each worker a lane of numbered jobs and the job that it holds, what was found, how
/// many turns were spent, and a journal of what happened.
///
/// Found touches and the nodes of all jobs are a partition of what the opening covers, and the journal replayed from
/// the opening tells lanes, held jobs, grants, the next number and the turns spent.
#[derive(Drop)]
pub struct Board {
    pub(crate) opening: Opening,
    pub(crate) state: State,
}

impl Model for Board {
    ghost use Rattle.cr_board.specs.Boards.{BoardParts};
    ghost use Rattle.cr_board.specs.Rooms.{parts_of, IsBoard};

    ghost Value = { BoardParts };

    ghost view = { λ b. parts_of b.opening b.state };

    ghost invariant = { λ b. IsBoard b.opening b.state };
}

impl Board {
    /// A board with the opening's jobs, numbered from 0, in lane 0 in their order. Nothing is spent, and the journal is
    /// empty. Err where no memory is left.
    pub fn open(alloc: Global, opening: Opening) -> Result<Board, NoMemory>
        ensures { IfOk result (λ b. b ≡ opened opening) }
    {
        let workers = opening.workers() as usize;
        let first = number_jobs(alloc, opening.jobs())?;
        let next = first.len() as u64;
        let lanes = lanes_from(alloc, workers, first)?;
        let held = no_holdings(alloc, workers)?;
        let resigned = Vec::from_elem(alloc, false, workers)?;
        let found = copy_callings(alloc, opening.found())?;
        let state = State {
            lanes,
            held,
            resigned,
            found,
            spent: 0,
            next,
            journal: Vec::new(alloc),
        };
        Ok(Board { opening, state })
    }

    /// From what it was opened.
    pub fn opening(&self) -> &Opening
        ensures is { result.now ≡ self.now.opening }
        ensures kept { IsKept self.now }
    {
        &self.opening
    }

    /// The touches that were found.
    pub fn found(&self) -> &[Calling]
        ensures is { result.now ≡ self.now.found }
        ensures kept { IsKept self.now }
    {
        self.state.found.as_slice()
    }

    /// How many turns were spent.
    pub fn spent(&self) -> u128
        ensures is { result ≡ self.now.spent }
        ensures kept { IsKept self.now }
    {
        self.state.spent
    }

    /// What happened, in order.
    pub fn journal(&self) -> &[Entry]
        ensures is { result.now ≡ self.now.journal }
        ensures kept { IsKept self.now }
    {
        self.state.journal.as_slice()
    }

    /// A worker's lane, the first job first.
    pub fn lane(&self, worker: u32) -> &[LaneJob]
        requires { worker < self.now.opening.workers }
        ensures is { result.now ≡ lane_at self.now.lanes worker }
        ensures kept { IsKept self.now }
    {
        self.state.lanes[worker as usize].as_slice()
    }

    /// The job that a worker holds, if any.
    pub fn held(&self, worker: u32) -> Option<&LaneJob>
        requires { worker < self.now.opening.workers }
        ensures is { option_map (λ job. job.now) result ≡ option_map (λ held. held.job) (held_at self.now.held worker) }
        ensures kept { IsKept self.now }
    {
        match &self.state.held[worker as usize] {
            Some(held) => Some(&held.job),
            None => None,
        }
    }

    /// Whether no lane has a job and no worker holds one.
    pub fn is_done(&self) -> bool
        ensures is { IsTrue result ↔ (jobs_of self.now ≡ []) }
        ensures kept { IsKept self.now }
    {
        let lanes = &self.state.lanes;
        first_busy(lanes, 0, lanes.len()).is_none() && first_holding(&self.state.held).is_none()
    }

    /// Whether it was opened from this, in all parts.
    pub fn same_opening(&self, opening: &Opening) -> bool
        ensures is { IsTrue result ↔ (self.now.opening ≡ opening.now) }
        ensures kept { IsKept self.now }
    {
        same_openings(&self.opening, opening)
    }
}
