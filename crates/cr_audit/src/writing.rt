//! Logs written as text.

ghost use Rattle.std.specs.Prelude.{◌≡◌, ◌<◌, ◌++◌, length, All, IfOk, codes, decimal};
ghost use Rattle.cr_model.specs.Callings.{HasSteps};
ghost use Rattle.cr_model.specs.Callings.{step_of as step_numbered};
ghost use Rattle.cr_model.specs.Books.{lead_text, calling_text};
ghost use Rattle.cr_model.specs.Checkpoints.{steps_text};
ghost use Rattle.cr_audit.specs.Logs.{item_text, verdict_text, line_text};
ghost use Rattle.cr_audit.specs.Logs.{log_text as text_of_log};

use crate::line::LogLine;
use crate::verdict::{Item, Verdict};
use cr_model::{Problem, Step};
use cr_row::NoMemory;
use itoa::Buffer;
use std::alloc::Global;

/// A log as it is written: a line after another, each with its node's calling, or `-` for the root, and its verdict. The
/// steps of the nodes exist. Err where no memory is left.
pub fn log_text(alloc: Global, problem: &Problem, lines: &[LogLine]) -> Result<Vec<u8>, NoMemory>
    requires { All (λ line. HasSteps problem.now line.node) lines.now }
    ensures { IfOk result (λ text. text.items ≡ text_of_log problem.now lines.now) }
{
    let mut text = Vec::new(alloc);
    for line in lines {
        write_line(&mut text, problem, line)?;
    }
    Ok(text)
}

fn write_line(text: &mut Vec<u8>, problem: &Problem, line: &LogLine) -> Result<(), NoMemory>
    requires { HasSteps problem.now line.now.node }
    ensures { IfOk result (λ _. text.new.items ≡ text.old.items ++ line_text problem.now line.now) }
{
    write_node(text, problem, &line.node)?;
    text.push(b' ')?;
    write_verdict(text, line.verdict)?;
    text.push(b'\n')?;
    Ok(())
}

// The node's calling, or `-` for the root.
fn write_node(text: &mut Vec<u8>, problem: &Problem, node: &[u8]) -> Result<(), NoMemory>
    requires { HasSteps problem.now node.now }
    ensures { IfOk result (λ _. text.new.items ≡ text.old.items ++ steps_text problem.now node.now) }
{
    if node.is_empty() {
        text.push(b'-')?;
        return Ok(());
    }
    write_leads(text, problem, node)
}

pub fn write_leads(text: &mut Vec<u8>, problem: &Problem, steps: &[u8]) -> Result<(), NoMemory>
    requires { HasSteps problem.now steps.now }
    ensures { IfOk result (λ _. text.new.items ≡ text.old.items ++ calling_text problem.now steps.now) }
{
    for step in steps {
        write_lead(text, problem, *step)?;
    }
    Ok(())
}

/// The letter of its method, if there are several methods, and its mark.
pub fn write_lead(text: &mut Vec<u8>, problem: &Problem, step: u8) -> Result<(), NoMemory>
    requires { step < length problem.now.leads }
    ensures { IfOk result (λ _. text.new.items ≡ text.old.items ++ lead_text problem.now step) }
{
    let lead = step_of(problem, step);
    let letters = problem.letters();
    if letters.len() > 1 {
        text.push(letters[usize::from(lead.method)])?;
    }
    text.push(lead.mark)?;
    Ok(())
}

/// The step of a number.
#[tactic(auto, using(cr_model::specs::Callings::step_at_is))]
pub fn step_of(problem: &Problem, step: u8) -> Step
    requires { step < length problem.now.leads }
    ensures is { result ≡ step_numbered problem.now step }
    ensures known { result.method < length problem.now.letters }
{
    let lead = &problem.leads()[usize::from(step)];
    lead.step
}

fn write_verdict(text: &mut Vec<u8>, verdict: Verdict) -> Result<(), NoMemory>
    ensures { IfOk result (λ _. text.new.items ≡ text.old.items ++ verdict_text verdict) }
{
    match verdict {
        Verdict::Open => write_word(text, b"open"),
        Verdict::Long => write_word(text, b"long"),
        Verdict::Again(first, again) => {
            write_numbered(text, b"again ", first)?;
            write_numbered(text, b" ", again)
        }
        Verdict::Home(place) => write_numbered(text, b"home ", place),
        Verdict::Many(item) => {
            write_word(text, b"many ")?;
            write_item(text, item)
        }
        Verdict::Few(item) => {
            write_word(text, b"few ")?;
            write_item(text, item)
        }
        Verdict::Back(step) => write_numbered(text, b"back ", step),
    }
}

fn write_item(text: &mut Vec<u8>, item: Item) -> Result<(), NoMemory>
    ensures { IfOk result (λ _. text.new.items ≡ text.old.items ++ item_text item) }
{
    match item {
        Item::Count(index) => write_numbered(text, b"count ", index),
        Item::Leads(index) => write_numbered(text, b"leads ", index),
        Item::Rows(index) => write_numbered(text, b"rows ", index),
        Item::Com => write_word(text, b"com"),
    }
}

fn write_word(text: &mut Vec<u8>, word: &[u8]) -> Result<(), NoMemory>
    ensures { IfOk result (λ _. text.new.items ≡ text.old.items ++ word.now) }
{
    text.extend_from_slice(word)?;
    Ok(())
}

/// Appends a word and a number behind it.
pub fn write_numbered(text: &mut Vec<u8>, word: &[u8], number: u64) -> Result<(), NoMemory>
    ensures { IfOk result (λ _. text.new.items ≡ text.old.items ++ (word.now ++ decimal number)) }
{
    text.extend_from_slice(word)?;
    text.extend_from_slice(Buffer::new().format(number).as_bytes())?;
    Ok(())
}
