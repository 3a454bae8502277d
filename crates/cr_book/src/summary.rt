//! The summary of a book.

ghost use Rattle.std.specs.Prelude.{◌≡◌, ◌+◌, ◌++◌, ℕ, List, length, map, max, All, IfOk, get_or, flat_map, codes, decimal};
ghost use Rattle.std.specs.List.{range_with_len};
ghost use Rattle.std.specs.Fmt.{signed_decimal};
ghost use Rattle.cr_model.specs.Callings.{HasSteps, length_of};
ghost use Rattle.cr_model.specs.Summaries.{longest, touches_as_long, length_line, length_lines, summary_text as text_of_summary};

use crate::texts::write_number;
use cr_model::{Calling, Problem};
use cr_row::NoMemory;
use std::alloc::Global;

/// The summary of a book: the query's `max`, the number of touches, the greatest length (0 where there is
/// none), and for each length that occurs, ascending, the number of its touches. Err where no memory is left.
pub fn summary_text(alloc: Global, problem: &Problem, book: &[Calling]) -> Result<Vec<u8>, NoMemory>
    requires { All (HasSteps problem.now) book.now }
    ensures { IfOk result (λ text. text.items ≡ text_of_summary problem.now book.now) }
{
    let numbers = count_lengths(alloc, problem, book)?;
    let mut text = Vec::new(alloc);
    let longest = numbers.len() as u64 - 1;
    write_head(&mut text, most_of(problem), book.len() as u64, longest)?;
    write_lengths(&mut text, &numbers)?;
    Ok(text)
}

// The greatest length that was asked for, which is above 0.
#[tactic(auto, using(crate::proofs::Tallies::asked_is))]
fn most_of(problem: &Problem) -> u64
    ensures { decimal result ≡ signed_decimal problem.now.query.max }
{
    problem.query().max.unsigned_abs()
}

// The first three lines.
fn write_head(text: &mut Vec<u8>, most: u64, touches: u64, longest: u64) -> Result<(), NoMemory>
    ensures { IfOk result (λ _. text.new.items ≡ text.old.items
        ++ ((codes "plain bob minor 1 to " ++ decimal most ++ codes "\n")
        ++ (codes "touches " ++ decimal touches ++ codes "\n")
        ++ (codes "longest " ++ decimal longest ++ codes "\n"))) }
{
    write_counted(text, b"plain bob minor 1 to ", most)?;
    write_counted(text, b"touches ", touches)?;
    write_counted(text, b"longest ", longest)?;
    Ok(())
}

// A line of a name and a number.
fn write_counted(text: &mut Vec<u8>, name: &[u8], number: u64) -> Result<(), NoMemory>
    ensures { IfOk result (λ _. text.new.items ≡ text.old.items ++ (name.now ++ decimal number ++ codes "\n")) }
{
    text.extend_from_slice(name)?;
    write_number(text, number)?;
    text.push(b'\n')?;
    Ok(())
}

// How many touches have each length, from 0 to the greatest.
fn count_lengths(alloc: Global, problem: &Problem, book: &[Calling]) -> Result<Vec<u64>, NoMemory>
    requires { All (HasSteps problem.now) book.now }
    ensures size { IfOk result (λ numbers. length numbers.items ≡ longest (map (length_of problem.now) book.now) + 1) }
    ensures each { IfOk result (λ numbers. (long : ℕ) → get_or numbers.items long 0
        ≡ touches_as_long (map (length_of problem.now) book.now) long) }
{
    let mut numbers = Vec::new(alloc);
    numbers.push(0)?;
    for touch in book {
        let length = problem.length_of(touch) as usize;
        grow(&mut numbers, length)?;
        numbers[length] += 1;
    }
    Ok(numbers)
}

/// Appends zeros, until there is a number for a length.
pub fn grow(numbers: &mut Vec<u64>, long: usize) -> Result<(), NoMemory>
    ensures size { IfOk result (λ _. length numbers.new.items ≡ max (length numbers.old.items) (long + 1)) }
    ensures each { IfOk result (λ _. (k : ℕ) → get_or numbers.new.items k 0 ≡ get_or numbers.old.items k 0) }
{
    while numbers.len() <= long {
        numbers.push(0)?;
    }
    Ok(())
}

// The line of each length that occurs.
fn write_lengths(text: &mut Vec<u8>, numbers: &[u64]) -> Result<(), NoMemory>
    ensures { IfOk result (λ _. text.new.items ≡ text.old.items
        ++ flat_map (λ long. length_line long (get_or numbers.now long 0)) (range_with_len 0 (length numbers.now))) }
{
    for long in 0..numbers.len() {
        write_length(text, long as u64, numbers[long])?;
    }
    Ok(())
}

// A length and the number of its touches; nothing where there are none.
fn write_length(text: &mut Vec<u8>, long: u64, number: u64) -> Result<(), NoMemory>
    ensures { IfOk result (λ _. text.new.items ≡ text.old.items ++ length_line long number) }
{
    if number == 0 {
        return Ok(());
    }
    write_number(text, long)?;
    text.push(b' ')?;
    write_number(text, number)?;
    text.push(b'\n')?;
    Ok(())
}
