//! What is found of a problem once, for all heads.

ghost use Rattle.std.specs.Prelude.{◌≡◌, ℕ, ◌<◌, nat_abs, nat_lt, length, IfOk};
ghost use Rattle.cr_model.specs.Problems.{ProblemParts};
ghost use Rattle.cr_leads.specs.Tables.{lead_table};
ghost use Rattle.cr_path.specs.PathLimits.{has_row_twice, false_leads, ArePathLimits};

use cr_leads::LeadTable;
use cr_model::laws::a_test_decides_what_is_true;
use cr_model::{Calling, Problem, Query};
use cr_row::NoMemory;
use std::alloc::Global;

/// Numbers of a problem, and which of its leads are false in themselves.
#[derive(Drop)]
pub struct PathLimits {
    pub cap: u64,
    pub part_cap: u64,
    pub shortest: u64,
    // Whether there are several parts.
    pub several: bool,
    // By step number, whether the lead has a row twice.
    pub twice: Vec<bool>,
}

impl PathLimits {
    /// The facts of a problem. Err where no memory is left.
    pub fn of(alloc: Global, problem: &Problem, leads: &LeadTable) -> Result<PathLimits, NoMemory>
        requires { leads.now ≡ lead_table problem.now }
        ensures { IfOk result (λ path_limits. ArePathLimits problem.now path_limits) }
    {
        let twice = which_are_false(alloc, leads)?;
        Ok(PathLimits {
            cap: problem.cap(),
            part_cap: problem.part_cap(),
            shortest: problem.shortest(),
            several: has_several_parts(problem.query()),
            twice,
        })
    }
}

// Whether a query asks for several parts.
fn has_several_parts(query: &Query) -> bool
    ensures { result ≡ nat_lt 1 (nat_abs query.now.parts) }
{
    query.parts.unsigned_abs() > 1
}

// Of each lead whether it has a row twice.
fn which_are_false(alloc: Global, leads: &LeadTable) -> Result<Vec<bool>, NoMemory>
    ensures { IfOk result (λ twice. (p : ProblemParts) → leads.now ≡ lead_table p → twice.items ≡ false_leads p (length p.leads)) }
{
    let mut twice = Vec::with_capacity(alloc, usize::from(leads.count()))?;
    for step in 0..leads.count() {
        twice.push(is_false(alloc, leads, step)?)?;
    }
    Ok(twice)
}

// Whether the lead of a step has a row twice.
fn is_false(alloc: Global, leads: &LeadTable, step: u8) -> Result<bool, NoMemory>
    requires { step < length leads.now.leads }
    ensures { IfOk result (λ twice. (p : ProblemParts) → leads.now ≡ lead_table p → twice ≡ has_row_twice p step) }
{
    a_test_decides_what_is_true();
    let mut steps = Vec::new(alloc);
    steps.push(step)?;
    match Calling::new(steps) {
        Ok(calling) => Ok(!leads.ring(alloc, &calling)?.distinct),
        Err(_) => unreachable!(),
    }
}
