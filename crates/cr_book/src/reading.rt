//! Callings read from their texts.

ghost use Rattle.std.specs.Prelude.{◌≡◌, ◌<◌, ◌≤◌, ◌⊎◌, ℕ, List, length, Ok, Err};
ghost use Rattle.cr_book.specs.declared.fault.CallingFault.TheVariants as fault;
ghost use Rattle.cr_model.specs.Limits.{most_leads};
ghost use Rattle.cr_model.specs.Sound.{IsSound};
ghost use Rattle.cr_book.specs.Readings.{IsCallingText};
ghost use Rattle.cr_book.specs.Reads.{Reads};
ghost use Rattle.cr_book.specs.Leads.{lead_width, LeadReads};

use crate::fault::CallingFault;
use crate::steps::{method_of, step_with};
use cr_model::limits::MOST_LEADS;
use cr_model::{Calling, Problem};
use std::alloc::Global;

/// The calling of 1 to 1,024 steps whose text this is, looking at each byte once. Err of the place of the first
/// byte that cannot be, or of the text's end, exactly where it is the text of none; and where no memory is left.
pub fn read_calling(alloc: Global, problem: &Problem, text: &[u8]) -> Result<Calling, CallingFault>
    ensures reads { Reads problem.now text.now result }
    ensures accepts { (calling : List ℕ) → IsCallingText problem.now text.now calling
        → (result ≡ Ok calling) ⊎ (result ≡ Err fault.NoMemory) }
{
    let width = width_of(problem);
    calling_of(alloc, problem, width, text)
}

// The same, lead by lead, each of so many bytes.
fn calling_of(
    alloc: Global,
    problem: &Problem,
    width: usize,
    text: &[u8],
) -> Result<Calling, CallingFault>
    requires sound { IsSound problem.now }
    requires width { width ≡ lead_width problem.now }
    ensures { Reads problem.now text.now result }
{
    let mut steps = Vec::new(alloc);
    let mut place = 0;
    while place < text.len() {
        if steps.len() == MOST_LEADS {
            return Err(CallingFault::At(place as u64));
        }
        match first_lead(problem, &text[place..]) {
            Ok(step) => steps.push(step)?,
            Err(wrong) => return Err(CallingFault::At(place as u64 + wrong)),
        }
        place += width;
    }
    whole(steps)
}

// The steps of a whole text as a calling, if there are some.
fn whole(steps: Vec<u8>) -> Result<Calling, CallingFault>
    requires { length steps.items ≤ most_leads }
    ensures none { length steps.items ≡ 0 → result ≡ Err (fault.At 0) }
    ensures some { 0 < length steps.items → result ≡ Ok steps.items }
{
    if steps.is_empty() {
        return Err(CallingFault::At(0));
    }
    match Calling::new(steps) {
        Ok(calling) => Ok(calling),
        Err(_) => unreachable!(),
    }
}

// The number of bytes of a lead.
fn width_of(problem: &Problem) -> usize
    ensures is { result ≡ lead_width problem.now }
    ensures sound { IsSound problem.now }
{
    if problem.letters().len() > 1 { 2 } else { 1 }
}

// The step whose lead the text begins with, or the place of the text's first byte that cannot be.
fn first_lead(problem: &Problem, text: &[u8]) -> Result<u8, u64>
    requires { 0 < length text.now }
    ensures { LeadReads problem.now text.now result }
{
    if problem.letters().len() > 1 {
        lettered_lead(problem, text)
    } else {
        marked_lead(problem, text)
    }
}

// Of several methods, by letter and mark.
fn lettered_lead(problem: &Problem, text: &[u8]) -> Result<u8, u64>
    requires some { 0 < length text.now }
    requires several { 1 < length problem.now.letters }
    requires sound { IsSound problem.now }
    ensures { LeadReads problem.now text.now result }
{
    let method = match method_of(problem, text[0]) {
        Some(method) => method,
        None => return Err(0),
    };
    if text.len() == 1 {
        return Err(1);
    }
    match step_with(problem, method, text[1]) {
        Some(step) => Ok(step),
        None => Err(1),
    }
}

// Of one method, by the mark.
fn marked_lead(problem: &Problem, text: &[u8]) -> Result<u8, u64>
    requires some { 0 < length text.now }
    requires one { length problem.now.letters ≤ 1 }
    requires sound { IsSound problem.now }
    ensures { LeadReads problem.now text.now result }
{
    match step_with(problem, 0, text[0]) {
        Some(step) => Ok(step),
        None => Err(0),
    }
}
