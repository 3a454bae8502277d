//! Finished work on a job.

ghost use Rattle.std.specs.Prelude.{◌≡◌};
ghost use Rattle.cr_node.specs.Work.{IsDone};

use crate::node::Node;
use cr_model::{Calling, Problem};
use std::marker::Model;

/// Finished work on a job: the touches that were found, the nodes that are left, and the turns that were used.
///
/// The job is a list of independent valid nodes that is not empty, and it is split into what was found and what is
/// left: nothing is lost, nothing is there twice, and nothing is new. The size of what is left and the turns used
/// are the size of the job.
#[derive(Drop)]
pub struct Done {
    problem: Problem,
    job: Vec<Node>,
    found: Vec<Calling>,
    rest: Vec<Node>,
    used: u64,
}

impl Model for Done {
    ghost use Rattle.cr_node.specs.Work.{Work, IsDone};

    ghost Value = { Work };

    ghost view = { λ d. record { problem = d.problem; job = d.job.items; found = d.found.items; rest = d.rest.items; used = d.used } };

    ghost invariant = { λ d. IsDone d.problem d.job.items d.found.items d.rest.items d.used };
}

/// The parts of finished work.
#[derive(Drop)]
pub struct DoneParts {
    /// What was explored.
    pub problem: Problem,
    /// The nodes that were to be explored.
    pub job: Vec<Node>,
    /// The kept touches that were found.
    pub found: Vec<Calling>,
    /// The nodes that are left.
    pub rest: Vec<Node>,
    /// The turns that were used.
    pub used: u64,
}

impl Done {
    /// Finished work, whose facts the caller has shown. It takes no memory.
    pub fn new(
        problem: Problem,
        job: Vec<Node>,
        found: Vec<Calling>,
        rest: Vec<Node>,
        used: u64,
    ) -> Done
        requires { IsDone problem job.items found.items rest.items used }
        ensures { result ≡ record { problem = problem; job = job.items; found = found.items; rest = rest.items; used = used } }
    {
        Done {
            problem,
            job,
            found,
            rest,
            used,
        }
    }

    /// The problem that was explored.
    pub fn problem(&self) -> &Problem
        ensures is { result.now ≡ self.now.problem }
        ensures done { IsDone self.now.problem self.now.job self.now.found self.now.rest self.now.used }
    {
        &self.problem
    }

    /// The nodes that were to be explored.
    pub fn job(&self) -> &[Node]
        ensures is { result.now ≡ self.now.job }
        ensures done { IsDone self.now.problem self.now.job self.now.found self.now.rest self.now.used }
    {
        self.job.as_slice()
    }

    /// The kept touches that were found.
    pub fn found(&self) -> &[Calling]
        ensures is { result.now ≡ self.now.found }
        ensures done { IsDone self.now.problem self.now.job self.now.found self.now.rest self.now.used }
    {
        self.found.as_slice()
    }

    /// The nodes that are left.
    pub fn rest(&self) -> &[Node]
        ensures is { result.now ≡ self.now.rest }
        ensures done { IsDone self.now.problem self.now.job self.now.found self.now.rest self.now.used }
    {
        self.rest.as_slice()
    }

    /// The turns that were used.
    pub fn used(&self) -> u64
        ensures is { result ≡ self.now.used }
        ensures done { IsDone self.now.problem self.now.job self.now.found self.now.rest self.now.used }
    {
        self.used
    }

    /// Its parts. It takes no memory.
    pub fn into_parts(self) -> DoneParts
        ensures problem { result.problem ≡ self.problem }
        ensures job { result.job.items ≡ self.job }
        ensures found { result.found.items ≡ self.found }
        ensures rest { result.rest.items ≡ self.rest }
        ensures used { result.used ≡ self.used }
        ensures done { IsDone self.problem self.job self.found self.rest self.used }
    {
        let Done {
            problem,
            job,
            found,
            rest,
            used,
        } = self;
        DoneParts {
            problem,
            job,
            found,
            rest,
            used,
        }
    }
}
