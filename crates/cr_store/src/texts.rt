//! The lines of a checkpoint, as they are written.

ghost use Rattle.std.specs.Prelude.{◌≡◌, ◌≤◌, [], ◌++◌, length, map, All, IfOk, decimal, codes, flat_map};
ghost use Rattle.cr_model.specs.Callings.{HasSteps};
ghost use Rattle.cr_model.specs.Checkpoints.{number_line, steps_text, steps_shared, node_line, node_lines, job_lines, last_node, nodes_of_jobs};

use crate::job::Job;
use cr_book::calling_text;
use cr_model::Problem;
use cr_node::Node;
use cr_row::NoMemory;
use itoa::Buffer;
use std::alloc::Global;

/// Appends a number in decimal digits.
pub fn write_number(text: &mut Vec<u8>, number: u64) -> Result<(), NoMemory>
    ensures { IfOk result (λ _. text.new.items ≡ text.old.items ++ decimal number) }
{
    text.extend_from_slice(Buffer::new().format(number).as_bytes())?;
    Ok(())
}

/// Appends a line of a name and a number.
pub fn write_count(text: &mut Vec<u8>, name: &[u8], number: u64) -> Result<(), NoMemory>
    ensures { IfOk result (λ _. text.new.items ≡ text.old.items ++ number_line name.now number) }
{
    text.extend_from_slice(name)?;
    text.push(b' ')?;
    write_number(text, number)?;
    text.push(b'\n')?;
    Ok(())
}

/// Appends steps as a calling, or `-` where there are none.
pub fn write_steps(
    alloc: Global,
    text: &mut Vec<u8>,
    problem: &Problem,
    steps: &[u8],
) -> Result<(), NoMemory>
    requires { HasSteps problem.now steps.now }
    ensures { IfOk result (λ _. text.new.items ≡ text.old.items ++ steps_text problem.now steps.now) }
{
    if steps.is_empty() {
        text.push(b'-')?;
        return Ok(());
    }
    let calling = calling_text(alloc, problem, steps)?;
    text.extend_from_slice(&calling)?;
    Ok(())
}

/// With how many steps both begin alike.
pub fn shared_steps(before: &[u8], node: &[u8]) -> usize
    ensures is { result ≡ steps_shared before.now node.now }
    ensures few { result ≤ length node.now }
{
    let most = before.len().min(node.len());
    for index in 0..most {
        if before[index] != node[index] {
            return index;
        }
    }
    most
}

/// Appends the line of a node after another: how many steps it shares with that one, and the others.
pub fn write_node(
    alloc: Global,
    text: &mut Vec<u8>,
    problem: &Problem,
    before: &[u8],
    node: &[u8],
) -> Result<(), NoMemory>
    requires { HasSteps problem.now node.now }
    ensures { IfOk result (λ _. text.new.items ≡ text.old.items ++ node_line problem.now 2 before.now node.now) }
{
    let shared = shared_steps(before, node);
    write_number(text, shared as u64)?;
    text.push(b' ')?;
    write_steps(alloc, text, problem, &node[shared..])?;
    text.push(b'\n')?;
    Ok(())
}

/// Appends a job that comes after a node: its number of nodes, and their lines. What comes back is the last of its nodes,
/// or the one before them where it has none.
pub fn write_job<'a, J: Job>(
    alloc: Global,
    text: &mut Vec<u8>,
    problem: &Problem,
    before: &'a [u8],
    job: &'a J,
) -> Result<&'a [u8], NoMemory>
    requires { All (HasSteps problem.now) (J.nodes job.now) }
    ensures text { IfOk result (λ _. text.new.items ≡ text.old.items ++ number_line (codes "job") (length (J.nodes job.now)) ++ node_lines problem.now 2 before.now (J.nodes job.now)) }
    ensures last { IfOk result (λ last. last.now ≡ last_node before.now (J.nodes job.now)) }
{
    write_count(text, b"job", job.size() as u64)?;
    let mut last = before;
    for index in 0..job.size() {
        let node = job.steps(index);
        write_node(alloc, text, problem, last, node)?;
        last = node;
    }
    Ok(last)
}

/// The last of some nodes, or the one before them where there are none.
pub fn last_of<'a>(before: &'a [u8], job: &'a [Node]) -> &'a [u8]
    ensures { result.now ≡ last_node before.now job.now }
{
    match job.last() {
        Some(node) => node.steps(),
        None => before,
    }
}

/// Appends jobs, of which the first comes at the beginning.
pub fn write_jobs<J: Job>(
    alloc: Global,
    text: &mut Vec<u8>,
    problem: &Problem,
    jobs: &[J],
) -> Result<(), NoMemory>
    requires { All (HasSteps problem.now) (nodes_of_jobs (map J.nodes jobs.now)) }
    ensures { IfOk result (λ _. text.new.items ≡ text.old.items ++ job_lines problem.now 2 [] (map J.nodes jobs.now)) }
{
    let mut last: &[u8] = &[];
    for job in jobs {
        last = write_job(alloc, text, problem, last, job)?;
    }
    Ok(())
}
