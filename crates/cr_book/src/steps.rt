//! Steps by letter and mark.

ghost use Rattle.std.specs.Prelude.{◌≡◌, ◌≢◌, ℕ, ◌<◌, None, length, get_or, IfSome};
ghost use Rattle.cr_model.specs.Callings.{step_of as step_numbered};
ghost use Rattle.cr_book.specs.Leads.{IsStepWith};

use cr_model::{Problem, Step};

/// The step of a number.
#[tactic(auto, using(cr_model::specs::Callings::step_at_is))]
pub fn step_of(problem: &Problem, step: u8) -> Step
    requires { step < length problem.now.leads }
    ensures is { result ≡ step_numbered problem.now step }
    ensures known { result.method < length problem.now.letters }
{
    let lead = &problem.leads()[usize::from(step)];
    lead.step
}

/// The step with a method and a mark, if there is one.
pub fn step_with(problem: &Problem, method: u8, mark: u8) -> Option<u8>
    ensures is { IfSome result (IsStepWith problem.now method mark) }
    ensures none { result ≡ None → (step : ℕ) → IsStepWith problem.now method mark step → ⊥ }
{
    for step in 0..problem.leads().len() as u8 {
        let found = step_of(problem, step);
        if found.method == method && found.mark == mark {
            return Some(step);
        }
    }
    None
}

/// The method with a letter, if there is one.
pub fn method_of(problem: &Problem, letter: u8) -> Option<u8>
    ensures known { IfSome result (λ method. method < length problem.now.letters) }
    ensures is { IfSome result (λ method. get_or problem.now.letters method 0 ≡ letter) }
    ensures none { result ≡ None → (method : ℕ) → method < length problem.now.letters → get_or problem.now.letters method 0 ≢ letter }
{
    let letters = problem.letters();
    for method in 0..letters.len() as u8 {
        if letters[usize::from(method)] == letter {
            return Some(method);
        }
    }
    None
}
