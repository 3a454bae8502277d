//! The node that is due, with its text and the rows before its last lead. From line to line only what changes of them is
//! made anew, and a lead is rung only where its line opens its node.

ghost use Rattle.std.specs.Prelude.{◌≡◌, ◌<◌, ◌≤◌, ◌-◌, ℕ, List, [], ◌++◌, length, take, All, MatchOption, IfOk};
ghost use Rattle.cr_row.specs.Rows.{rounds};
ghost use Rattle.cr_model.specs.Problems.{ProblemParts};
ghost use Rattle.cr_model.specs.Callings.{HasSteps, changes_at, changes_of, changes_of_all, rows_from, rows_of, last_of, length_of};
ghost use Rattle.cr_model.specs.Checkpoints.{steps_text};
ghost use Rattle.cr_model.specs.Sizes.{child};
ghost use Rattle.cr_audit.specs.Dues.{dues, later};
ghost use Rattle.cr_audit.specs.Paths.{IsAt, IsOpen, IsRung, last_lead};
ghost use Rattle.cr_audit.specs.Nodes.{width};

use crate::counting::{add_step, change_at_end, remove_step};
use crate::fitting::{Fitting, count_rung};
use crate::writing::write_lead;
use cr_model::{Lead, Problem};
use cr_row::{Change, NoMemory, Row, Stage, change_of_a_row, rounds_is_neutral};
use std::alloc::Global;

/// A node, its calling's text, how often each step stands in it, its changes of method, how many rows of each open node
/// above it fit each pattern, and rows.
#[derive(Drop)]
pub struct Path {
    pub node: Vec<u8>,
    pub text: Vec<u8>,
    pub taken: Vec<u64>,
    pub changes: u64,
    pub fitting: Vec<Fitting>,
    pub rows: Vec<Row>,
}

/// The root.
pub fn root(alloc: Global, problem: &Problem) -> Result<Path, NoMemory>
    ensures at { IfOk result (λ path. IsAt problem.now path) }
    ensures root { IfOk result (λ path. path.node.items ≡ []) }
{
    let taken = Vec::from_elem(alloc, 0, problem.leads().len())?;
    Ok(Path {
        node: Vec::new(alloc),
        text: Vec::new(alloc),
        taken,
        changes: 0,
        fitting: Vec::new(alloc),
        rows: Vec::new(alloc),
    })
}

/// The node's text in a line.
pub fn node_text(path: &Path) -> &[u8]
    ensures { (p : ProblemParts) → IsAt p path.now → result.now ≡ steps_text p path.now.node.items }
{
    if path.node.is_empty() {
        b"-"
    } else {
        &path.text
    }
}

/// The changes of the last lead. The root has none.
pub fn last_changes<'a>(problem: &'a Problem, path: &Path) -> &'a [Change]
    requires { HasSteps problem.now path.now.node.items }
    ensures { result.now ≡ changes_of_all problem.now (last_lead path.now.node.items) }
{
    let _ = problem.stage();
    match path.node.last() {
        Some(step) => changes_at(problem.leads(), usize::from(*step)),
        None => &[],
    }
}

/// Rings the last lead. Err where no memory is left.
pub fn open(alloc: Global, path: &mut Path, problem: &Problem) -> Result<(), NoMemory>
    requires { IsAt problem.now path.old }
    ensures open { IfOk result (λ _. IsOpen problem.now path.new) }
    ensures same { IfOk result (λ _. path.new.node.items ≡ path.old.node.items) }
{
    let before = path.rows.len();
    ring_last(path, problem)?;
    let fitting = count_rung(alloc, problem, path, before)?;
    path.fitting.push(fitting)?;
    Ok(())
}

fn ring_last(path: &mut Path, problem: &Problem) -> Result<(), NoMemory>
    requires { IsAt problem.now path.old }
    ensures { IfOk result (λ _. IsRung problem.now path.old path.new) }
{
    change_of_a_row();
    rounds_is_neutral();
    let changes = last_changes(problem, path);
    let from = last_row(&path.rows, problem.stage());
    ring(&mut path.rows, from, changes)
}

/// Goes to a child.
pub fn go_down(path: &mut Path, problem: &Problem, step: u8) -> Result<(), NoMemory>
    requires open { IsOpen problem.now path.old }
    requires step { step < length problem.now.leads }
    ensures at { IfOk result (λ _. IsAt problem.now path.new) }
    ensures node { IfOk result (λ _. path.new.node.items ≡ child path.old.node.items step) }
{
    write_lead(&mut path.text, problem, step)?;
    path.node.push(step)?;
    add_step(&mut path.taken, step);
    path.changes += change_at_end(problem, &path.node);
    Ok(())
}

/// Goes to the node that is due next beside the node or beside a node above it, if one is.
pub fn go_beside(path: &mut Path, problem: &Problem) -> Result<bool, NoMemory>
    requires { IsAt problem.now path.old }
    ensures at { IfOk result (λ more. IsAt problem.now path.new) }
    ensures due { IfOk result (λ more. dues problem.now more path.new.node.items ≡ later problem.now path.old.node.items) }
{
    let steps = problem.leads().len();
    while let Some(step) = go_up(path, problem) {
        if usize::from(step) + 1 < steps {
            go_down(path, problem, step + 1)?;
            return Ok(true);
        }
        close(path, problem);
    }
    Ok(false)
}

// Goes to the node above, which is open, and gives the step that led down. None at the root.
fn go_up(path: &mut Path, problem: &Problem) -> Option<u8>
    requires { IsAt problem.now path.old }
    ensures at { MatchOption result (IsAt problem.now path.new) (λ _. IsOpen problem.now path.new) }
    ensures node { MatchOption result ((path.old.node.items ≡ []) × (path.new.node.items ≡ []))
        (λ step. (step < length problem.now.leads) × (path.old.node.items ≡ child path.new.node.items step)) }
{
    path.changes -= change_at_end(problem, &path.node);
    let step = path.node.pop()?;
    remove_step(&mut path.taken, step);
    cut_text(&mut path.text, lead_width(problem));
    Some(step)
}

// Removes the rows of the last lead.
fn close(path: &mut Path, problem: &Problem)
    requires { IsOpen problem.now path.old }
    ensures at { IsAt problem.now path.new }
    ensures same { path.new.node.items ≡ path.old.node.items }
{
    let number = last_changes(problem, path).len();
    cut_rows(&mut path.rows, number);
    cut_last(&mut path.fitting);
}

fn cut_text(text: &mut Vec<u8>, number: usize)
    ensures { text.new.items ≡ take (length text.old.items - number) text.old.items }
{
    text.truncate(text.len().saturating_sub(number));
}

fn cut_rows(rows: &mut Vec<Row>, number: usize)
    ensures { rows.new.items ≡ take (length rows.old.items - number) rows.old.items }
{
    rows.truncate(rows.len().saturating_sub(number));
}

fn cut_last(fitting: &mut Vec<Fitting>)
    ensures { fitting.new.items ≡ take (length fitting.old.items - 1) fitting.old.items }
{
    fitting.truncate(fitting.len().saturating_sub(1));
}

// How many bytes the text of a lead has.
fn lead_width(problem: &Problem) -> usize
    ensures { result ≡ width problem.now }
{
    if problem.letters().len() > 1 { 2 } else { 1 }
}

#[tactic(auto, using(cr_model::specs::Callings::changes_at_is))]
fn changes_at(leads: &[Lead], step: usize) -> &[Change]
    requires { step < length leads.now }
    ensures { result.now ≡ changes_at leads.now step }
{
    let lead = &leads[step];
    &lead.changes
}

/// Rings the steps from a place on, where the rows are those of the steps before it.
pub fn ring_rest(
    rows: &mut Vec<Row>,
    problem: &Problem,
    steps: &[u8],
    from: usize,
) -> Result<(), NoMemory>
    requires known { HasSteps problem.now steps.now }
    requires from { from ≤ length steps.now }
    requires rows { rows.old.items ≡ rows_of problem.now (take from steps.now) }
    ensures { IfOk result (λ _. rows.new.items ≡ rows_of problem.now steps.now) }
{
    for index in from..steps.len() {
        ring_step(rows, problem, steps[index])?;
    }
    Ok(())
}

// Rings a lead from the last row, or from rounds.
fn ring_step(rows: &mut Vec<Row>, problem: &Problem, step: u8) -> Result<(), NoMemory>
    requires step { step < length problem.now.leads }
    requires rows { (calling : List ℕ) × (rows.old.items ≡ rows_of problem.now calling) }
    ensures { IfOk result (λ _. rows.new.items
        ≡ rows.old.items ++ rows_from (last_of (rounds problem.now.stage) rows.old.items) (changes_of problem.now step)) }
{
    change_of_a_row();
    rounds_is_neutral();
    let from = last_row(rows, problem.stage());
    ring(rows, from, changes_at(problem.leads(), usize::from(step)))
}

// Rings the changes from a row.
fn ring(rows: &mut Vec<Row>, from: Row, changes: &[Change]) -> Result<(), NoMemory>
    requires { All (λ change. change.stage ≡ length from) changes.now }
    ensures { IfOk result (λ _. rows.new.items ≡ rows.old.items ++ rows_from from changes.now) }
{
    let mut row = from;
    for change in changes {
        row = row.then(change);
        rows.push(row)?;
    }
    Ok(())
}

/// The last row, or rounds where there is none.
#[tactic(auto, using(crate::proofs::LastRows::last_at))]
pub fn last_row(rows: &[Row], stage: Stage) -> Row
    ensures { result ≡ last_of (rounds stage) rows.now }
{
    if rows.is_empty() {
        Row::rounds(stage)
    } else {
        rows[rows.len() - 1]
    }
}
