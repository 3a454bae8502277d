//! Problems: what to search.

ghost use Rattle.std.specs.Prelude.{◌≡◌, ℕ, ◌/◌, ◌<◌, ◌≤◌, ◌↔◌, length, All, IsTrue, IsOk, IfOk, IfErr};
ghost use Rattle.cr_model.specs.Problems.{parts_from};
ghost use Rattle.cr_model.specs.Callings.{shortest, length_of, HasSteps};
ghost use Rattle.cr_model.specs.Queries.{cap, part_cap};
ghost use Rattle.cr_model.specs.Sound.{IsSound};
ghost use Rattle.cr_model.specs.Faults.{IsPartFault};
ghost use Rattle.cr_model.specs.Dead.{parts_of};

use crate::calling::Calling;
use crate::checks::check_all;
use crate::copies::{copy_leads, copy_query, same_leads, same_query};
use crate::fault::PartFault;
use crate::lead::Lead;
use crate::lengths::{greatest_length, shortest_length, total_length};
use crate::query::Query;
use cr_row::{NoMemory, Stage};
use std::alloc::Global;
use std::marker::Model;

/// A stage, methods' letters, leads and a query, of which all checks of `new` hold.
#[derive(Drop)]
pub struct Problem {
    stage: Stage,
    letters: Vec<u8>,
    leads: Vec<Lead>,
    query: Query,
}

impl Model for Problem {
    ghost use Rattle.cr_model.specs.Problems.{ProblemParts, parts_from};
    ghost use Rattle.cr_model.specs.Sound.{IsSound};

    ghost Value = { ProblemParts };

    ghost view = { λ p. parts_from p.stage p.letters.items p.leads.items p.query };

    ghost invariant = { λ p. IsSound (parts_from p.stage p.letters.items p.leads.items p.query) };
}

impl Problem {
    /// The problem of these parts, or the first check that does not hold. It takes no memory.
    pub fn new(
        stage: Stage,
        letters: Vec<u8>,
        leads: Vec<Lead>,
        query: Query,
    ) -> Result<Problem, PartFault>
        ensures is { IfOk result (λ p. p ≡ parts_from stage letters.items leads.items query) }
        ensures accepts { IsOk result ↔ IsSound (parts_from stage letters.items leads.items query) }
        ensures fault { IfErr result (IsPartFault (parts_from stage letters.items leads.items query)) }
    {
        match check_all(stage, &letters, &leads, &query) {
            Ok(()) => Ok(Problem {
                stage,
                letters,
                leads,
                query,
            }),
            Err(fault) => Err(fault),
        }
    }

    /// The same problem again.
    pub fn copy(&self, alloc: Global) -> Result<Problem, NoMemory>
        ensures { IfOk result (λ p. p ≡ self.now) }
    {
        let letters = self.letters.as_slice().to_vec(alloc)?;
        let leads = copy_leads(alloc, &self.leads)?;
        let query = copy_query(alloc, &self.query)?;
        Ok(Problem {
            stage: self.stage,
            letters,
            leads,
            query,
        })
    }

    /// Whether both are the same in all parts.
    pub fn same(&self, other: &Problem) -> bool
        ensures { IsTrue result ↔ (self.now ≡ other.now) }
    {
        self.stage == other.stage
            && self.letters.as_slice() == other.letters.as_slice()
            && same_leads(&self.leads, &other.leads)
            && same_query(&self.query, &other.query)
    }

    /// The number of bells.
    pub fn stage(&self) -> Stage
        ensures is { result ≡ self.now.stage }
        ensures sound { IsSound self.now }
    {
        self.stage
    }

    /// The methods' letters, in the order of the methods.
    pub fn letters(&self) -> &[u8]
        ensures is { result.now ≡ self.now.letters }
        ensures sound { IsSound self.now }
    {
        self.letters.as_slice()
    }

    /// The leads, by step number.
    pub fn leads(&self) -> &[Lead]
        ensures is { result.now ≡ self.now.leads }
        ensures sound { IsSound self.now }
    {
        self.leads.as_slice()
    }

    /// What is asked of a touch.
    pub fn query(&self) -> &Query
        ensures is { result.now ≡ self.now.query }
        ensures sound { IsSound self.now }
    {
        &self.query
    }

    /// The number of parts of a touch: what the query asks for without its sign, from 1 to 64.
    pub fn parts(&self) -> u64
        ensures is { result ≡ parts_of self.now }
        ensures some { 1 ≤ result }
        ensures few { result ≤ 64 }
        ensures sound { IsSound self.now }
    {
        self.query.parts.unsigned_abs()
    }

    /// The greatest length of a touch, in changes: the query's `max`, and no more than the extent.
    pub fn cap(&self) -> u64
        ensures { result ≡ cap self.now }
    {
        greatest_length(self.stage, self.query.max)
    }

    /// The greatest length of a part, in changes: `cap` over the number of parts, rounded down.
    pub fn part_cap(&self) -> u64
        ensures { result ≡ part_cap self.now }
    {
        self.cap() / self.parts()
    }

    /// The number of changes of the shortest lead.
    pub fn shortest(&self) -> u64
        ensures is { result ≡ shortest self.now }
        ensures some { 1 ≤ result }
    {
        shortest_length(&self.leads)
    }

    /// Whether each number is that of a step.
    pub fn has_steps(&self, steps: &[u8]) -> bool
        ensures { IsTrue result ↔ HasSteps self.now steps.now }
    {
        steps
            .iter()
            .all(|step| usize::from(*step) < self.leads.len())
    }

    /// The number of changes of a calling.
    pub fn length_of(&self, calling: &Calling) -> u64
        requires { HasSteps self.now calling.now }
        ensures { result ≡ length_of self.now calling.now }
    {
        total_length(&self.leads, calling.steps())
    }
}
