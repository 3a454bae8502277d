//! From what a board is opened.

ghost use Rattle.std.specs.Prelude.{◌≡◌, ◌≤◌, [], ◌∷◌, map, IfOk};
ghost use Rattle.cr_board.specs.Jobs.{IsOpening, opening_from};

use crate::copies::{copy_callings, copy_jobs, root_job};
use cr_model::{Calling, Problem};
use cr_node::Node;
use cr_node::laws::work_goes_on;
use cr_row::NoMemory;
use std::alloc::Global;
use std::marker::Model;

/// What a search begins with: a problem, the touches that were found, the jobs that are left, how many turns may be
/// spent, and how many workers there are.
///
/// The found touches are kept and strictly ascending by length and then by calling. Every job is a list of valid nodes
/// that is not empty. All nodes and found touches are independent. There are 1 to 64 workers.
#[derive(Drop)]
pub struct Opening {
    problem: Problem,
    found: Vec<Calling>,
    jobs: Vec<Vec<Node>>,
    budget: Option<u64>,
    workers: u32,
}

impl Model for Opening {
    ghost use Rattle.std.specs.Prelude.{map};
    ghost use Rattle.cr_board.specs.Jobs.{OpeningParts, IsOpening, opening_from};

    ghost Value = { OpeningParts };

    ghost view = { λ o. opening_from o.problem o.found.items (map (λ job. job.items) o.jobs.items) o.budget o.workers };

    ghost invariant = { λ o. IsOpening (opening_from o.problem o.found.items (map (λ job. job.items) o.jobs.items) o.budget o.workers) };
}

impl Opening {
    /// The opening of these parts, whose facts the caller has shown. It takes no memory.
    pub fn new(
        problem: Problem,
        found: Vec<Calling>,
        jobs: Vec<Vec<Node>>,
        budget: Option<u64>,
        workers: u32,
    ) -> Opening
        requires { IsOpening (opening_from problem found.items (map (λ job. job.items) jobs.items) budget workers) }
        ensures { result ≡ opening_from problem found.items (map (λ job. job.items) jobs.items) budget workers }
    {
        Opening {
            problem,
            found,
            jobs,
            budget,
            workers,
        }
    }

    /// The opening of a search that has not begun: no found touch, and one job of the root. Err where no memory is
    /// left.
    pub fn fresh(
        alloc: Global,
        problem: Problem,
        budget: Option<u64>,
        workers: u32,
    ) -> Result<Opening, NoMemory>
        requires some { 1 ≤ workers }
        requires few { workers ≤ 64 }
        ensures { IfOk result (λ o. o ≡ opening_from problem [] (([] ∷ []) ∷ []) budget workers) }
    {
        work_goes_on();
        let jobs = root_job(alloc)?;
        Ok(Opening {
            problem,
            found: Vec::new(alloc),
            jobs,
            budget,
            workers,
        })
    }

    /// The same opening again. Err where no memory is left.
    pub fn copy(&self, alloc: Global) -> Result<Opening, NoMemory>
        ensures { IfOk result (λ o. o ≡ self.now) }
    {
        let problem = self.problem.copy(alloc)?;
        let found = copy_callings(alloc, &self.found)?;
        let jobs = copy_jobs(alloc, &self.jobs)?;
        Ok(Opening {
            problem,
            found,
            jobs,
            budget: self.budget,
            workers: self.workers,
        })
    }

    /// What is searched.
    pub fn problem(&self) -> &Problem
        ensures is { result.now ≡ self.now.problem }
        ensures opening { IsOpening self.now }
    {
        &self.problem
    }

    /// The touches that were found.
    pub fn found(&self) -> &[Calling]
        ensures is { result.now ≡ self.now.found }
        ensures opening { IsOpening self.now }
    {
        self.found.as_slice()
    }

    /// The jobs that are left, each a list of nodes.
    pub fn jobs(&self) -> &[Vec<Node>]
        ensures is { map (λ job. job.items) result.now ≡ self.now.jobs }
        ensures opening { IsOpening self.now }
    {
        self.jobs.as_slice()
    }

    /// How many turns may be spent, if not any number.
    pub fn budget(&self) -> Option<u64>
        ensures is { result ≡ self.now.budget }
        ensures opening { IsOpening self.now }
    {
        self.budget
    }

    /// The number of workers.
    pub fn workers(&self) -> u32
        ensures is { result ≡ self.now.workers }
        ensures opening { IsOpening self.now }
    {
        self.workers
    }
}
