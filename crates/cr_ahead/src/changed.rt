//! Changes of method of a node, lead by lead.

ghost use Rattle.std.specs.Prelude.{◌≡◌, ◌<◌, ◌≤◌, length, IfSome};
ghost use Rattle.cr_model.specs.Callings.{HasSteps};
ghost use Rattle.cr_model.specs.Queries.{changes_of_method};
ghost use Rattle.cr_ahead.specs.LeadMoves.{last_method, changing_gain};

use crate::problem_steps::{changing_gain, method_of};
use cr_model::Problem;

/// The method of the last lead, if there is one.
pub fn last_method(problem: &Problem, steps: &[u8]) -> Option<u8>
    requires { HasSteps problem.now steps.now }
    ensures is { result ≡ last_method problem.now steps.now }
    ensures known { IfSome result (λ method. method < length problem.now.letters) }
{
    if steps.len() < 1 {
        return None;
    }
    let last = steps.len() - 1;
    Some(method_of(problem, steps[last]))
}

/// One where a lead changes the method behind a last method, and else none.
pub fn change_after(problem: &Problem, last: Option<u8>, step: u8) -> u32
    requires { step < length problem.now.leads }
    ensures is { result ≡ changing_gain problem.now last step }
    ensures few { result ≤ 1 }
{
    u32::from(changing_gain(problem, last, step))
}

/// How often the method changes from one lead to the next.
pub fn changes_of_method(problem: &Problem, steps: &[u8]) -> u32
    requires known { HasSteps problem.now steps.now }
    requires few { length steps.now ≤ 1024 }
    ensures { result ≡ changes_of_method problem.now steps.now }
{
    let mut last = None;
    let mut changed = 0;
    for index in 0..steps.len() {
        let step = steps[index];
        changed += change_after(problem, last, step);
        last = Some(method_of(problem, step));
    }
    changed
}
