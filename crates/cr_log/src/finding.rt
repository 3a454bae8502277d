//! The kept touches of open nodes.

ghost use Rattle.std.specs.Prelude.{◌≡◌, ◌≤◌, ◌*◌, ◌↔◌, ℕ, List, ◌++◌, length, IsTrue, IfOk};
ghost use Rattle.cr_row.specs.Rows.{rounds};
ghost use Rattle.cr_leads.specs.Tables.{lead_table};
ghost use Rattle.cr_model.specs.Problems.{ProblemParts};
ghost use Rattle.cr_model.specs.Callings.{head_of};
ghost use Rattle.cr_model.specs.Dead.{parts_of};
ghost use Rattle.cr_model.specs.OneTurn.{touch_of, touch_found};
ghost use Rattle.cr_model.specs.Queries.{repeated};
ghost use Rattle.cr_log.specs.Logging.{IsAt};

use crate::ringing::head_of;
use cr_leads::LeadTable;
use cr_model::laws::{a_test_decides_what_is_kept, joined_callings_multiply};
use cr_model::{Calling, Problem};
use cr_query::is_kept;
use cr_row::{NoMemory, Row, Stage};
use cr_rowset::RowStack;
use std::alloc::Global;

/// Appends the touch of a valid node whose rows stand on a stack, if it is kept. Err where no memory is left.
pub fn find(
    alloc: Global,
    problem: &Problem,
    leads: &LeadTable,
    node: &[u8],
    rows: &RowStack,
    book: &mut Vec<Calling>,
) -> Result<(), NoMemory>
    requires table { leads.now ≡ lead_table problem.now }
    requires at { IsAt problem.now node.now rows.now }
    ensures { IfOk result (λ _. book.new.items ≡ book.old.items ++ touch_found problem.now node.now) }
{
    a_test_decides_what_is_kept();
    // Few nodes come round, which is at hand.
    if !comes_round(problem, node, rows) {
        return Ok(());
    }
    let touch = touch_of(alloc, problem, node)?;
    if is_kept(alloc, problem, leads, &touch)? {
        book.push(touch)?;
    }
    Ok(())
}

// The touch of a node.
fn touch_of(alloc: Global, problem: &Problem, node: &[u8]) -> Result<Calling, NoMemory>
    requires { parts_of problem.now * length node.now ≤ 1024 }
    ensures { IfOk result (λ touch. touch ≡ touch_of problem.now node.now) }
{
    Calling::repeated(alloc, node, problem.parts() as usize)
}

// Whether the touch of a node ends in rounds. It takes a product for each part.
fn comes_round(problem: &Problem, node: &[u8], rows: &RowStack) -> bool
    requires { IsAt problem.now node.now rows.now }
    ensures { IsTrue result ↔ (head_of problem.now (touch_of problem.now node.now) ≡ rounds problem.now.stage) }
{
    let head = head_of(rows, problem.stage());
    is_rounds(power(head, problem.parts()), problem.stage())
}

// The head of so many nodes, one after another.
fn power(head: Row, parts: u64) -> Row
    requires { 1 ≤ parts }
    ensures is { (p : ProblemParts) (node : List ℕ) → head ≡ head_of p node → result ≡ head_of p (repeated parts node) }
    ensures same_stage { length result ≡ length head }
{
    joined_callings_multiply();
    let mut row = head;
    for _part in 1..parts {
        row = row.times(&head);
    }
    row
}

#[tactic(auto, using(cr_leads::proofs::LastRows::same_rows))]
fn is_rounds(row: Row, stage: Stage) -> bool
    ensures { IsTrue result ↔ (row ≡ rounds stage) }
{
    row == Row::rounds(stage)
}
