//! The shape of a checkpoint's text.

ghost use Rattle.std.specs.Prelude.{◌≡◌, ℕ, ◌+◌, ◌-◌, ◌≤◌, ◌↔◌, suc, ◌++◌, length, take, map, codes, IsTrue, IfOk, IfErr, IfSome, IfNone};
ghost use Rattle.cr_model.specs.Checkpoints.{number_line};
ghost use Rattle.cr_model.specs.Texts.{IsNumber};
ghost use Rattle.cr_store.specs.Shapes.{IsFoundLine, IsNodeLine, IsJobLines, HasShape, found_text, node_text, job_text, line_feeds, found_line};
ghost use Rattle.cr_store.specs.ShapeReads.{found_parts, node_parts, job_parts, shape_parts, IsShapeFault};
ghost use Rattle.cr_store.specs.ShapeStages.{IsVersion, IsCount, AtEnd, AtNodes, AtJobs, AtJobCount, AtFound, AtFoundCount};
ghost use Rattle.cr_store.specs.ShapeSteps.{NoneBegins, AreRead, IsHead, IsFoundPart, IsJobsPart, Stops, StopsAtProblem, StopsAtAll};

use crate::fault::CheckFault;
use crate::shape_lines::{after_word, take_found, take_node, take_number};
use crate::shape_stop::Stop;
use std::alloc::Global;

/// What stands on the line of a found touch.
#[derive(Clone, Copy)]
pub struct FoundLine<'a> {
    pub length: u64,
    pub calling: &'a [u8],
}

/// What stands on the line of a node: in version 1 `shared` is 0. `steps` is `-` where there are none.
#[derive(Clone, Copy)]
pub struct NodeLine<'a> {
    pub shared: u64,
    pub steps: &'a [u8],
}

/// What stands on the lines of a checkpoint, and the number of the line `found`, from 1.
#[derive(Drop)]
pub struct Shape<'a> {
    pub version: u64,
    pub problem: &'a [u8],
    pub found_at: u64,
    pub found: Vec<FoundLine<'a>>,
    pub jobs: Vec<Vec<NodeLine<'a>>>,
}

/// The shape of a text, looking at each byte a few times at most. Err of the line on which it goes wrong first, from 1,
/// exactly where it has none; and where no memory is left.
pub fn read_shape<'a>(alloc: Global, bytes: &'a [u8]) -> Result<Shape<'a>, CheckFault>
    ensures shape { IfOk result (λ s. HasShape bytes.now (shape_parts s)) }
    ensures found_at { IfOk result (λ s. s.found_at ≡ found_line (shape_parts s)) }
    ensures fault { IfErr result (λ why. IsShapeFault bytes.now why) }
{
    match shape_of(alloc, bytes) {
        Ok(shape) => Ok(shape),
        Err(Stop::Wrong(left)) => Err(CheckFault::Form(line_at(bytes, left))),
        Err(Stop::Short) => Err(CheckFault::Form(2)),
        Err(Stop::NoMemory) => Err(CheckFault::NoMemory),
    }
}

// The number of the line, from 1, on which that byte stands that has so many bytes from it to the end.
fn line_at(bytes: &[u8], left: usize) -> u64
    requires { left ≤ length bytes.now }
    ensures { result ≡ 1 + line_feeds (take (length bytes.now - left) bytes.now) }
{
    1 + count_feeds(&bytes[..bytes.len() - left])
}

fn count_feeds(bytes: &[u8]) -> u64
    ensures { result ≡ line_feeds bytes.now }
{
    bytes.iter().filter(|byte| **byte == b'\n').count() as u64
}

fn shape_of<'a>(alloc: Global, text: &'a [u8]) -> Result<Shape<'a>, Stop>
    ensures shape { IfOk result (λ s. HasShape text.now (shape_parts s)) }
    ensures found_at { IfOk result (λ s. s.found_at ≡ found_line (shape_parts s)) }
    ensures stops { IfErr result (λ why. StopsAtAll text.now why) }
{
    let (version, problem, rest) = head_of(text)?;
    let (found, rest) = found_part(alloc, rest)?;
    let (jobs, rest) = jobs_part(alloc, version, rest)?;
    end_part(rest)?;
    Ok(Shape {
        version,
        problem,
        found_at: 4 + count_feeds(problem),
        found,
        jobs,
    })
}

// The version, the problem's bytes, and what comes after them.
fn head_of<'a>(text: &'a [u8]) -> Result<(u64, &'a [u8], &'a [u8]), Stop>
    ensures head { IfOk result (λ x. IsHead text.now x.0 x.1.now x.2.now) }
    ensures stops { IfErr result (λ why. StopsAtAll text.now why) }
{
    let Some((version, rest)) = version_line(text) else {
        return Err(Stop::Wrong(text.len()));
    };
    let (problem, rest) = problem_part(rest)?;
    Ok((version, problem, rest))
}

// The version of a first line, which is 1 or 2, and what comes after that line.
fn version_line<'a>(text: &'a [u8]) -> Option<(u64, &'a [u8])>
    ensures some { IfSome result (λ x. IsVersion x.0 × (text.now ≡ number_line (codes "ringsearch checkpoint") x.0 ++ x.1.now)) }
    ensures none { IfNone result (NoneBegins (number_line (codes "ringsearch checkpoint")) IsVersion text.now) }
{
    let (version, rest) = take_number(text, b"ringsearch checkpoint ")?;
    if is_version(version) {
        Some((version, rest))
    } else {
        None
    }
}

fn is_version(version: u64) -> bool
    ensures { IsTrue result ↔ IsVersion version }
{
    version == 1 || version == 2
}

// The bytes of a problem after the line that tells their number, and what comes after their line feed.
fn problem_part<'a>(text: &'a [u8]) -> Result<(&'a [u8], &'a [u8]), Stop>
    ensures problem { IfOk result (λ x. IsNumber (length x.0.now)
        × (text.now ≡ number_line (codes "problem") (length x.0.now) ++ (x.0.now ++ codes "\n" ++ x.1.now))) }
    ensures stops { IfErr result (λ why. StopsAtProblem text.now why) }
{
    let Some((size, rest)) = take_number(text, b"problem ") else {
        return Err(Stop::Wrong(text.len()));
    };
    if (rest.len() as u64) < size {
        return Err(Stop::Short);
    }
    let (problem, rest) = rest.split_at(size as usize);
    match after_word(rest, b"\n") {
        Some(after) => Ok((problem, after)),
        None => Err(Stop::Wrong(rest.len())),
    }
}

// The lines of the found touches after the line that tells their number, and what comes after them.
fn found_part<'a>(alloc: Global, text: &'a [u8]) -> Result<(Vec<FoundLine<'a>>, &'a [u8]), Stop>
    ensures found { IfOk result (λ x. IsFoundPart text.now (map found_parts x.0.items) x.1.now) }
    ensures stops { IfErr result (λ why. (version : ℕ) → Stops (AtFoundCount version) text.now why) }
{
    match take_number(text, b"found ") {
        Some((count, rest)) => found_lines(alloc, count, rest),
        None => Err(Stop::Wrong(text.len())),
    }
}

// Room for so many lines, where the text may have them: each has two bytes at least.
fn room_for(count: u64, text: &[u8]) -> usize {
    count.min(text.len() as u64 / 2) as usize
}

fn found_lines<'a>(
    alloc: Global,
    count: u64,
    text: &'a [u8],
) -> Result<(Vec<FoundLine<'a>>, &'a [u8]), Stop>
    ensures found { IfOk result (λ x. AreRead found_text IsFoundLine count text.now (map found_parts x.0.items) x.1.now) }
    ensures stops { IfErr result (λ why. (version : ℕ) → Stops (AtFound version count) text.now why) }
{
    let mut found = Vec::with_capacity(alloc, room_for(count, text))?;
    let mut rest = text;
    for _done in 0..count {
        let Some((line, after)) = take_found(rest) else {
            return Err(Stop::Wrong(rest.len()));
        };
        found.push(line)?;
        rest = after;
    }
    Ok((found, rest))
}

// The jobs after the line that tells their number, and what comes after them.
fn jobs_part<'a>(
    alloc: Global,
    version: u64,
    text: &'a [u8],
) -> Result<(Vec<Vec<NodeLine<'a>>>, &'a [u8]), Stop>
    ensures jobs { IfOk result (λ x. IsJobsPart version text.now (map job_parts x.0.items) x.1.now) }
    ensures stops { IfErr result (λ why. Stops (AtJobCount version) text.now why) }
{
    match take_number(text, b"jobs ") {
        Some((count, rest)) => jobs_of(alloc, version, count, rest),
        None => Err(Stop::Wrong(text.len())),
    }
}

fn jobs_of<'a>(
    alloc: Global,
    version: u64,
    count: u64,
    text: &'a [u8],
) -> Result<(Vec<Vec<NodeLine<'a>>>, &'a [u8]), Stop>
    ensures jobs { IfOk result (λ x. AreRead (job_text version) (IsJobLines version) count text.now (map job_parts x.0.items) x.1.now) }
    ensures stops { IfErr result (λ why. Stops (AtJobs version count) text.now why) }
{
    let mut jobs = Vec::new(alloc);
    let mut rest = text;
    for _done in 0..count {
        let (job, after) = job_of(alloc, version, rest)?;
        jobs.push(job)?;
        rest = after;
    }
    Ok((jobs, rest))
}

// The nodes of a job after the line that tells their number, which is not 0, and what comes after them.
fn job_of<'a>(
    alloc: Global,
    version: u64,
    text: &'a [u8],
) -> Result<(Vec<NodeLine<'a>>, &'a [u8]), Stop>
    ensures job { IfOk result (λ x. IsJobLines version (job_parts x.0) × (text.now ≡ job_text version (job_parts x.0) ++ x.1.now)) }
    ensures stops { IfErr result (λ why. (n : ℕ) → Stops (AtJobs version (suc n)) text.now why) }
{
    match job_line(text) {
        Some((count, rest)) => node_lines(alloc, version, count, rest),
        None => Err(Stop::Wrong(text.len())),
    }
}

/// The number of nodes on the first line of a job, which is not 0, and what comes after that line.
pub fn job_line<'a>(text: &'a [u8]) -> Option<(u64, &'a [u8])>
    ensures some { IfSome result (λ x. IsCount x.0 × (text.now ≡ number_line (codes "job") x.0 ++ x.1.now)) }
    ensures none { IfNone result (NoneBegins (number_line (codes "job")) IsCount text.now) }
{
    let (count, rest) = take_number(text, b"job ")?;
    if count > 0 { Some((count, rest)) } else { None }
}

fn node_lines<'a>(
    alloc: Global,
    version: u64,
    count: u64,
    text: &'a [u8],
) -> Result<(Vec<NodeLine<'a>>, &'a [u8]), Stop>
    ensures nodes { IfOk result (λ x. AreRead (node_text version) (IsNodeLine version) count text.now (job_parts x.0) x.1.now) }
    ensures stops { IfErr result (λ why. (n : ℕ) → Stops (AtNodes version (AtJobs version n) count) text.now why) }
{
    let mut nodes = Vec::with_capacity(alloc, room_for(count, text))?;
    let mut rest = text;
    for _done in 0..count {
        let Some((line, after)) = take_node(version, rest) else {
            return Err(Stop::Wrong(rest.len()));
        };
        nodes.push(line)?;
        rest = after;
    }
    Ok((nodes, rest))
}

// The last line, and nothing after it.
fn end_part(text: &[u8]) -> Result<(), Stop>
    ensures end { IfOk result (λ _. text.now ≡ codes "end\n") }
    ensures stops { IfErr result (λ why. Stops AtEnd text.now why) }
{
    match after_word(text, b"end\n") {
        Some(rest) if rest.is_empty() => Ok(()),
        Some(rest) => Err(Stop::Wrong(rest.len())),
        None => Err(Stop::Wrong(text.len())),
    }
}
