//! Leads of a calling that a query counts.

ghost use Rattle.std.specs.Prelude.{◌≡◌, ◌<◌, ◌≤◌, cond, nat_eq, length};
ghost use Rattle.cr_model.specs.Callings.{method_of, HasSteps};
ghost use Rattle.cr_model.specs.Queries.{leads_marked, leads_lettered, changes_of_method};

use crate::kinds::{differs, kind_of};
use cr_model::Problem;

/// How many leads have the mark.
pub fn leads_marked(problem: &Problem, steps: &[u8], mark: u8) -> u64
    requires { HasSteps problem.now steps.now }
    ensures { result ≡ leads_marked problem.now mark steps.now }
{
    let mut number = 0;
    for step in steps {
        if kind_of(problem, *step).mark == mark {
            number += 1;
        }
    }
    number
}

/// How many leads are of the method with the letter.
pub fn leads_lettered(problem: &Problem, steps: &[u8], letter: u8) -> u64
    requires { HasSteps problem.now steps.now }
    ensures { result ≡ leads_lettered problem.now letter steps.now }
{
    let mut number = 0;
    for step in steps {
        if kind_of(problem, *step).letter == letter {
            number += 1;
        }
    }
    number
}

/// How often the method changes from one lead to the next.
pub fn changes_of_method(problem: &Problem, steps: &[u8]) -> u64
    requires { HasSteps problem.now steps.now }
    ensures { result ≡ changes_of_method problem.now steps.now }
{
    let mut number = 0;
    for index in 1..steps.len() {
        number += changes(problem, steps[index - 1], steps[index]);
    }
    number
}

// One where two steps are of different methods, and else none.
fn changes(problem: &Problem, before: u8, step: u8) -> u64
    requires before { before < length problem.now.leads }
    requires step { step < length problem.now.leads }
    ensures is { result ≡ cond (nat_eq (method_of problem.now before) (method_of problem.now step)) 0 1 }
    ensures few { result ≤ 1 }
{
    differs(kind_of(problem, before), kind_of(problem, step).method)
}
