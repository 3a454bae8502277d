//! The book of what a log proves, and the one that is given.

ghost use Rattle.std.specs.Prelude.{◌≡◌, ◌++◌, length, flat_map, IfOk, MatchOption};
ghost use Rattle.std.specs.List.Sorted.{IsStrictlySortedBy};
ghost use Rattle.cr_model.specs.Books.{book_line, book_order, book_text};
ghost use Rattle.cr_audit.specs.Audits.{DifferFirst};
ghost use Rattle.cr_audit.specs.Touched.{AreTouches, IsBookAnswer, IsMeasured, callings};

use crate::fault::AuditFault;
use crate::touches::{Touch, count};
use crate::writing::{write_leads, write_numbered};
use cr_model::{Problem, common_front};
use cr_row::NoMemory;
use std::alloc::Global;
use std::collections::BTreeSet;

/// The number of touches, where the book is that of these touches, and else the first byte that differs.
pub fn judge_book(
    alloc: Global,
    problem: &Problem,
    book: &[u8],
    touches: &BTreeSet<Touch>,
) -> Result<u64, AuditFault>
    requires { AreTouches problem.now touches.now.keys }
    ensures is { IsBookAnswer problem.now book.now (callings touches.now.keys) result }
    ensures ascending { IsStrictlySortedBy (book_order problem.now) (callings touches.now.keys) }
{
    let number = count(touches);
    let text = book_of(alloc, problem, touches, number)?;
    match first_difference(book, &text) {
        Some(place) => Err(AuditFault::Book(place)),
        None => Ok(number),
    }
}

// The book of so many touches.
fn book_of(
    alloc: Global,
    problem: &Problem,
    touches: &BTreeSet<Touch>,
    number: u64,
) -> Result<Vec<u8>, NoMemory>
    requires are { AreTouches problem.now touches.now.keys }
    requires number { number ≡ length touches.now.keys }
    ensures { IfOk result (λ text. text.items ≡ book_text problem.now (callings touches.now.keys)) }
{
    let mut text = Vec::new(alloc);
    write_touches(&mut text, problem, touches)?;
    write_numbered(&mut text, b"touches ", number)?;
    text.push(b'\n')?;
    Ok(text)
}

fn write_touches(
    text: &mut Vec<u8>,
    problem: &Problem,
    touches: &BTreeSet<Touch>,
) -> Result<(), NoMemory>
    requires { AreTouches problem.now touches.now.keys }
    ensures { IfOk result (λ _. text.new.items ≡ text.old.items ++ flat_map (book_line problem.now) (callings touches.now.keys)) }
{
    for touch in touches {
        write_touch(text, problem, touch)?;
    }
    Ok(())
}

fn write_touch(text: &mut Vec<u8>, problem: &Problem, touch: &Touch) -> Result<(), NoMemory>
    requires { IsMeasured problem.now touch.now }
    ensures { IfOk result (λ _. text.new.items ≡ text.old.items ++ book_line problem.now touch.now.steps.items) }
{
    write_numbered(text, b"", touch.length)?;
    text.push(b' ')?;
    write_leads(text, problem, &touch.steps)?;
    text.push(b'\n')?;
    Ok(())
}

// The first place at which two texts differ, or the shorter one's length where the other goes on.
fn first_difference(text: &[u8], other: &[u8]) -> Option<u64>
    ensures { MatchOption result (text.now ≡ other.now) (λ place. DifferFirst text.now other.now place) }
{
    let front = common_front(text, other);
    if front == text.len() && front == other.len() {
        None
    } else {
        Some(front as u64)
    }
}
