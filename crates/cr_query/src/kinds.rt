//! What a query counts a step by.

ghost use Rattle.std.specs.Prelude.{◌≡◌, ◌<◌, ◌≤◌, cond, nat_eq, length};
ghost use Rattle.cr_model.specs.Callings.{step_at, changes_at, lead_length};
ghost use Rattle.cr_query.specs.Kinds.{kind_of};

use cr_model::{Lead, Problem, Step};

/// The method of a step, its mark, the method's letter, and the number of changes.
#[derive(Clone, Copy)]
pub struct Kind {
    pub method: u8,
    pub mark: u8,
    pub letter: u8,
    pub length: u8,
}

/// The kind of a step.
pub fn kind_of(problem: &Problem, step: u8) -> Kind
    requires { step < length problem.now.leads }
    ensures { result ≡ kind_of problem.now step }
{
    let Step { method, mark } = step_at(problem.leads(), usize::from(step));
    let letter = problem.letters()[usize::from(method)];
    let length = length_of(problem, step);
    Kind {
        method,
        mark,
        letter,
        length,
    }
}

/// One where the kind is of another method.
pub fn differs(kind: Kind, method: u8) -> u64
    ensures is { result ≡ cond (nat_eq kind.method method) 0 1 }
    ensures few { result ≤ 1 }
{
    if kind.method == method { 0 } else { 1 }
}

// The step of the lead at an index.
#[tactic(auto, using(cr_model::specs::Callings::step_at_is))]
fn step_at(leads: &[Lead], index: usize) -> Step
    requires { index < length leads.now }
    ensures { result ≡ step_at leads.now index }
{
    let lead = &leads[index];
    lead.step
}

// The number of changes of a step, which are no more than 128.
fn length_of(problem: &Problem, step: u8) -> u8
    requires { step < length problem.now.leads }
    ensures { result ≡ lead_length problem.now step }
{
    length_at(problem.leads(), usize::from(step)) as u8
}

// The number of changes of the lead at an index.
#[tactic(auto, using(cr_model::specs::Callings::changes_at_is))]
fn length_at(leads: &[Lead], index: usize) -> u64
    requires { index < length leads.now }
    ensures { result ≡ length (changes_at leads.now index) }
{
    let lead = &leads[index];
    lead.changes.len() as u64
}
