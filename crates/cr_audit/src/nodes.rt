//! Which texts are those of nodes.

ghost use Rattle.std.specs.Prelude.{◌≡◌, ◌<◌, ◌↔◌, ℕ, List, ◌++◌, length, IsTrue, IfSome, IfNone, codes};
ghost use Rattle.cr_model.specs.Books.{lead_text};
ghost use Rattle.cr_audit.specs.Nodes.{IsCallingText, IsNodeText, BeginsWithLead};

use crate::reading::after_word;
use crate::writing::step_of;
use cr_model::Problem;

/// Whether a text is that of a node of the problem's steps.
pub fn is_node_text(problem: &Problem, text: &[u8]) -> bool
    ensures { IsTrue result ↔ IsNodeText problem.now text.now }
{
    is_root(text) || (!text.is_empty() && is_calling_text(problem, text))
}

fn is_root(text: &[u8]) -> bool
    ensures { IsTrue result ↔ (text.now ≡ codes "-") }
{
    text == b"-".as_slice()
}

// Whether a text is one lead's text after another's.
fn is_calling_text(problem: &Problem, text: &[u8]) -> bool
    ensures { IsTrue result ↔ IsCallingText problem.now text.now }
{
    let mut rest = text;
    while !rest.is_empty() {
        match after_lead(problem, rest) {
            Some(others) => rest = others,
            None => return false,
        }
    }
    true
}

// What comes after the text of a lead.
fn after_lead<'a>(problem: &Problem, text: &'a [u8]) -> Option<&'a [u8]>
    ensures some { IfSome result (λ rest. BeginsWithLead problem.now text.now rest.now) }
    ensures none { IfNone result ((rest : List ℕ) → BeginsWithLead problem.now text.now rest → ⊥) }
{
    for step in 0..problem.leads().len() {
        if let Some(rest) = after_step(problem, text, step as u8) {
            return Some(rest);
        }
    }
    None
}

// What comes after the text of the lead of a step.
fn after_step<'a>(problem: &Problem, text: &'a [u8], step: u8) -> Option<&'a [u8]>
    requires { step < length problem.now.leads }
    ensures some { IfSome result (λ rest. text.now ≡ lead_text problem.now step ++ rest.now) }
    ensures none { IfNone result ((rest : List ℕ) → text.now ≡ lead_text problem.now step ++ rest → ⊥) }
{
    let lead = step_of(problem, step);
    let letters = problem.letters();
    if letters.len() > 1 {
        after_word(text, &[letters[usize::from(lead.method)], lead.mark])
    } else {
        after_word(text, &[lead.mark])
    }
}
