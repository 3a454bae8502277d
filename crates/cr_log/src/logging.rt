//! The lines of a whole search, and its book.

ghost use Rattle.std.specs.Prelude.{◌≡◌, ◌<◌, ◌≤◌, ℕ, true, cond, List, [], ◌∷◌, ◌++◌, length, take, All, IfOk};
ghost use Rattle.cr_leads.specs.Tables.{lead_table};
ghost use Rattle.cr_model.specs.Callings.{HasSteps};
ghost use Rattle.cr_model.specs.Sizes.{child, children};
ghost use Rattle.cr_audit.specs.Logs.{log_text, opened_by, Proves};
ghost use Rattle.cr_log.specs.FirstVerdicts.{IsFirstVerdict, IsFirstLog};
ghost use Rattle.cr_log.specs.Logging.{AreShapes, opens, IsLogged, IsAt, IsVisited, IsGone};

use crate::finding::find;
use crate::judging::judge;
use crate::ringing::ring_on;
use crate::shapes::shapes_of;
use cr_audit::{LogLine, Verdict};
use cr_book::laws::what_is_sorted_is_the_book;
use cr_book::sort_found;
use cr_leads::LeadTable;
use cr_model::laws::{
    a_test_decides_what_is_kept, a_test_decides_what_is_wanted, nothing_is_kept_below_a_dead_node,
    one_turn_splits_a_node,
};
use cr_model::{Calling, Problem};
use cr_query::Shape;
use cr_row::NoMemory;
use cr_rowset::RowStack;
use std::alloc::Global;

/// The log of a whole search, and the book that it proves.
#[derive(Drop)]
pub struct Logged {
    /// The touches, ascending by length and then by their steps.
    pub book: Vec<Calling>,
    /// The lines, the root's first, and below an open node those of its children.
    pub lines: Vec<LogLine>,
}

// A node by its steps, and the rows of it that are rung.
#[derive(Drop)]
struct Place {
    steps: Vec<u8>,
    rows: RowStack,
}

/// The log of a problem, with the first verdict that holds of each node, and the book, which the text of the log proves.
/// Err where no memory is left.
pub fn log_run(alloc: Global, problem: &Problem) -> Result<Logged, NoMemory>
    ensures proves { IfOk result (λ run. Proves problem.now (log_text problem.now run.lines.items) run.book.items) }
    ensures steps { IfOk result (λ run. All (λ line. HasSteps problem.now line.node) run.lines.items) }
    ensures first { IfOk result (λ run. IsFirstLog problem.now run.lines.items) }
{
    a_test_decides_what_is_kept();
    nothing_is_kept_below_a_dead_node();
    one_turn_splits_a_node();
    what_is_sorted_is_the_book();
    // It tells that the problem keeps all of its checks.
    let _ = problem.stage();
    let run = log_all(alloc, problem)?;
    let book = sort_found(alloc, problem, run.book)?;
    Ok(Logged {
        book,
        lines: run.lines,
    })
}

// The lines of the root and of all below it, and the touches in the order of the lines.
fn log_all(alloc: Global, problem: &Problem) -> Result<Logged, NoMemory>
    ensures { IfOk result (λ run. IsLogged problem.now run.lines.items run.book.items []) }
{
    let leads = LeadTable::new(alloc, problem)?;
    let shapes = shapes_of(alloc, problem)?;
    let mut place = root(alloc, problem)?;
    let mut run = Logged {
        book: Vec::new(alloc),
        lines: Vec::new(alloc),
    };
    log_from(alloc, problem, &leads, &shapes, &mut place, &mut run)?;
    Ok(run)
}

// Adds the lines of a node and of all below it, and their touches.
fn log_from(
    alloc: Global,
    problem: &Problem,
    leads: &LeadTable,
    shapes: &[Shape],
    place: &mut Place,
    run: &mut Logged,
) -> Result<(), NoMemory>
    requires table { leads.now ≡ lead_table problem.now }
    requires shapes { AreShapes problem.now shapes.now }
    requires at { IsAt problem.now place.old.steps.items place.old.rows }
    ensures { IfOk result (λ _. (due : List (List ℕ))
        → IsLogged problem.now run.old.lines.items run.old.book.items (place.old.steps.items ∷ due)
        → IsLogged problem.now run.new.lines.items run.new.book.items due) }
{
    let verdict = judge(problem, shapes, &place.steps, &place.rows);
    add(alloc, problem, leads, place, verdict, run)?;
    if !is_open(verdict) {
        return Ok(());
    }
    log_below(alloc, problem, leads, shapes, place, run)?;
    Ok(())
}

// The node of no steps.
fn root(alloc: Global, problem: &Problem) -> Result<Place, NoMemory>
    ensures steps { IfOk result (λ place. place.steps.items ≡ []) }
    ensures at { IfOk result (λ place. IsAt problem.now [] place.rows) }
{
    // It tells that the problem keeps all of its checks.
    let _ = problem.stage();
    let rows = RowStack::with_room(alloc, problem.part_cap())?;
    let steps = Vec::new(alloc);
    Ok(Place { steps, rows })
}

// Adds the lines of all below an open node, and their touches.
fn log_below(
    alloc: Global,
    problem: &Problem,
    leads: &LeadTable,
    shapes: &[Shape],
    place: &mut Place,
    run: &mut Logged,
) -> Result<(), NoMemory>
    requires table { leads.now ≡ lead_table problem.now }
    requires shapes { AreShapes problem.now shapes.now }
    requires at { IsAt problem.now place.old.steps.items place.old.rows }
    ensures steps { IfOk result (λ _. place.new.steps.items ≡ place.old.steps.items) }
    ensures rows { IfOk result (λ _. place.new.rows ≡ place.old.rows) }
    ensures logged { IfOk result (λ _. (due : List (List ℕ))
        → IsLogged problem.now run.old.lines.items run.old.book.items (children problem.now place.old.steps.items ++ due)
        → IsLogged problem.now run.new.lines.items run.new.book.items due) }
{
    let rung = place.rows.len();
    for step in 0..leads.count() {
        if go(alloc, problem, leads, shapes, place, run, step)? {
            log_below(alloc, problem, leads, shapes, place, run)?;
        }
        go_back(place, rung);
    }
    Ok(())
}

// Goes to the child by a step, and adds its line. Whether it is open.
fn go(
    alloc: Global,
    problem: &Problem,
    leads: &LeadTable,
    shapes: &[Shape],
    place: &mut Place,
    run: &mut Logged,
    step: u8,
) -> Result<bool, NoMemory>
    requires table { leads.now ≡ lead_table problem.now }
    requires shapes { AreShapes problem.now shapes.now }
    requires at { IsAt problem.now place.old.steps.items place.old.rows }
    requires step { step < length problem.now.leads }
    ensures gone { IfOk result (λ is_open. IsGone problem.now (child place.old.steps.items step) place.old.rows is_open place.new.steps.items place.new.rows) }
    ensures logged { IfOk result (λ is_open. (due : List (List ℕ))
        → IsLogged problem.now run.old.lines.items run.old.book.items (child place.old.steps.items step ∷ due)
        → IsLogged problem.now run.new.lines.items run.new.book.items (cond is_open (children problem.now (child place.old.steps.items step)) [] ++ due)) }
{
    let verdict = visit(problem, leads, shapes, place, step)?;
    add(alloc, problem, leads, place, verdict, run)?;
    Ok(is_open(verdict))
}

// Goes to the child by a step, and gives the first verdict that holds of it.
fn visit(
    problem: &Problem,
    leads: &LeadTable,
    shapes: &[Shape],
    place: &mut Place,
    step: u8,
) -> Result<Verdict, NoMemory>
    requires table { leads.now ≡ lead_table problem.now }
    requires shapes { AreShapes problem.now shapes.now }
    requires at { IsAt problem.now place.old.steps.items place.old.rows }
    requires step { step < length problem.now.leads }
    ensures { IfOk result (λ verdict. IsVisited problem.now (child place.old.steps.items step) place.old.rows verdict place.new.steps.items place.new.rows) }
{
    let cut = ring_on(problem, leads, &place.steps, &mut place.rows, step);
    place.steps.push(step)?;
    match cut {
        Some(verdict) => Ok(verdict),
        None => Ok(judge(problem, shapes, &place.steps, &place.rows)),
    }
}

// Goes back to the node without the last step, which has so many rows.
fn go_back(place: &mut Place, rung: u64)
    requires { rung ≤ length place.old.rows.rows }
    ensures steps { (node : List ℕ) (step : ℕ) → place.old.steps.items ≡ child node step → place.new.steps.items ≡ node }
    ensures rows { place.new.rows ≡ record { rows = take rung place.old.rows.rows; room = place.old.rows.room } }
{
    place.rows.cut_to(rung);
    let _ = place.steps.pop();
}

// Adds the line of a node, and its touch, if it is open and the touch is kept.
fn add(
    alloc: Global,
    problem: &Problem,
    leads: &LeadTable,
    place: &Place,
    verdict: Verdict,
    run: &mut Logged,
) -> Result<(), NoMemory>
    requires table { leads.now ≡ lead_table problem.now }
    requires steps { HasSteps problem.now place.now.steps.items }
    requires first { IsFirstVerdict problem.now place.now.steps.items verdict }
    requires at { opens verdict ≡ true → IsAt problem.now place.now.steps.items place.now.rows }
    ensures { IfOk result (λ _. (due : List (List ℕ))
        → IsLogged problem.now run.old.lines.items run.old.book.items (place.now.steps.items ∷ due)
        → IsLogged problem.now run.new.lines.items run.new.book.items (opened_by problem.now place.now.steps.items verdict ++ due)) }
{
    // It tells that the problem keeps all of its checks.
    let _ = problem.stage();
    let node = place.steps.as_slice();
    add_line(alloc, node, verdict, &mut run.lines)?;
    if is_open(verdict) {
        find(alloc, problem, leads, node, &place.rows, &mut run.book)?;
    }
    Ok(())
}

// Appends the line of a node.
fn add_line(
    alloc: Global,
    node: &[u8],
    verdict: Verdict,
    lines: &mut Vec<LogLine>,
) -> Result<(), NoMemory>
    ensures { IfOk result (λ _. lines.new.items ≡ lines.old.items ++ record { node = node.now; verdict = verdict } ∷ []) }
{
    let node = node.to_vec(alloc)?;
    lines.push(LogLine { node, verdict })?;
    Ok(())
}

// Whether a verdict opens its node.
fn is_open(verdict: Verdict) -> bool
    ensures { result ≡ opens verdict }
{
    match verdict {
        Verdict::Open => true,
        Verdict::Long
        | Verdict::Again(_, _)
        | Verdict::Home(_)
        | Verdict::Many(_)
        | Verdict::Few(_)
        | Verdict::Back(_) => false,
    }
}
