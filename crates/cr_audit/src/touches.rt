//! The touches that a log proves, found node by node.

ghost use Rattle.std.specs.Prelude.{◌≡◌, ◌⊎◌, ◌↔◌, ◌≤◌, true, false, ℕ, List, length, Contains, IsTrue, IfOk};
ghost use Rattle.std.specs.List.Sorted.{IsStrictlySortedBy};
ghost use Rattle.cr_row.specs.Rows.{rounds};
ghost use Rattle.cr_model.specs.Problems.{ProblemParts};
ghost use Rattle.cr_model.specs.Callings.{HasSteps, head_of};
ghost use Rattle.cr_model.specs.Books.{book_order};
ghost use Rattle.cr_model.specs.Nodes.{IsValid};
ghost use Rattle.cr_model.specs.OneTurn.{touch_of};
ghost use Rattle.cr_model.specs.Queries.{repeated};
ghost use Rattle.cr_model.specs.Touches.{Kept};
ghost use Rattle.cr_audit.specs.Dues.{is_open};
ghost use Rattle.cr_audit.specs.Paths.{IsOpen};
ghost use Rattle.cr_audit.specs.Touched.{AreTouches, callings};

use crate::differing::Marks;
use crate::judging::is_too_short;
use crate::keeping::is_kept;
use crate::limits::in_parts;
use crate::path::{Path, last_row};
use crate::verdict::Verdict;
use cr_model::laws::joined_callings_multiply;
use cr_model::{Calling, Problem};
use cr_row::{NoMemory, Row, change_of_a_row, rounds_is_neutral};
use std::alloc::Global;
use std::collections::BTreeSet;

/// A touch: its steps, and how many changes they have. Touches stand in the order of the book.
#[derive(PartialEq, Eq, PartialOrd, Ord, Drop)]
pub struct Touch {
    pub length: u64,
    pub steps: Vec<u8>,
}

/// How many touches there are.
pub fn count(touches: &BTreeSet<Touch>) -> u64
    ensures is { result ≡ length touches.now.keys }
    ensures ascending { (p : ProblemParts) → AreTouches p touches.now.keys → IsStrictlySortedBy (book_order p) (callings touches.now.keys) }
{
    touches.len() as u64
}

/// Whether a verdict opens its node.
pub fn opens(why: Verdict) -> bool
    ensures { result ≡ is_open why }
{
    why == Verdict::Open
}

/// Adds the touch of an open path's node where it is kept. Err where no memory is left.
pub fn keep(
    alloc: Global,
    problem: &Problem,
    marks: &mut Marks,
    path: &Path,
    touches: &mut BTreeSet<Touch>,
) -> Result<(), NoMemory>
    requires open { IsOpen problem.now path.now }
    requires touches { AreTouches problem.now touches.old.keys }
    requires valid { IsValid problem.now path.now.node.items }
    ensures touches { IfOk result (λ _. AreTouches problem.now touches.new.keys) }
    ensures found { IfOk result (λ _. (calling : List ℕ) → Contains (callings touches.new.keys) calling
        ↔ (Contains (callings touches.old.keys) calling ⊎ ((calling ≡ touch_of problem.now path.now.node.items) × Kept problem.now calling))) }
{
    if !may_be_kept(problem, path) {
        return Ok(());
    }
    let touch = touch_of(alloc, problem, &path.node)?;
    if is_kept(alloc, problem, marks, path, &touch)? {
        add(alloc, problem, &touch, touches)
    } else {
        Ok(())
    }
}

// Whether the touch of the path's node is long enough and ends in rounds.
fn may_be_kept(problem: &Problem, path: &Path) -> bool
    requires { IsOpen problem.now path.now }
    ensures round { result ≡ true → head_of problem.now (touch_of problem.now path.now.node.items) ≡ rounds problem.now.stage }
    ensures never { result ≡ false → Kept problem.now (touch_of problem.now path.now.node.items) → ⊥ }
{
    is_long_enough(problem, path) && comes_round(problem, path)
}

fn is_long_enough(problem: &Problem, path: &Path) -> bool
    requires { IsOpen problem.now path.now }
    ensures { result ≡ false → Kept problem.now (touch_of problem.now path.now.node.items) → ⊥ }
{
    let length = in_parts(problem.parts(), u128::from(path.rows.len() as u64));
    !is_too_short(problem.query(), length)
}

fn comes_round(problem: &Problem, path: &Path) -> bool
    requires { IsOpen problem.now path.now }
    ensures { IsTrue result ↔ (head_of problem.now (touch_of problem.now path.now.node.items) ≡ rounds problem.now.stage) }
{
    change_of_a_row();
    rounds_is_neutral();
    let stage = problem.stage();
    let head = last_row(&path.rows, stage);
    is_row(touch_head(head, problem.parts()), Row::rounds(stage))
}

// The head of so many parts, each with this head.
fn touch_head(part: Row, parts: u64) -> Row
    requires { 1 ≤ parts }
    ensures { (p : ProblemParts) (node : List ℕ) → part ≡ head_of p node → result ≡ head_of p (repeated parts node) }
{
    joined_callings_multiply();
    let mut head = part;
    for _more in 1..parts {
        head = head.times(&part);
    }
    head
}

#[tactic(auto, using(crate::proofs::Powers::same_rows))]
fn is_row(row: Row, other: Row) -> bool
    ensures { IsTrue result ↔ (row ≡ other) }
{
    row == other
}

// The touch of a node: its steps as often as the query has parts.
fn touch_of(alloc: Global, problem: &Problem, node: &[u8]) -> Result<Calling, NoMemory>
    requires { IsValid problem.now node.now }
    ensures is { IfOk result (λ calling. calling ≡ touch_of problem.now node.now) }
    ensures known { HasSteps problem.now (touch_of problem.now node.now) }
{
    Calling::repeated(alloc, node, problem.parts() as usize)
}

// Adds a touch.
fn add(
    alloc: Global,
    problem: &Problem,
    touch: &Calling,
    touches: &mut BTreeSet<Touch>,
) -> Result<(), NoMemory>
    requires steps { HasSteps problem.now touch.now }
    requires touches { AreTouches problem.now touches.old.keys }
    ensures touches { IfOk result (λ _. AreTouches problem.now touches.new.keys) }
    ensures found { IfOk result (λ _. (calling : List ℕ) → Contains (callings touches.new.keys) calling
        ↔ (Contains (callings touches.old.keys) calling ⊎ (calling ≡ touch.now))) }
{
    let length = problem.length_of(touch);
    let steps = touch.steps().to_vec(alloc)?;
    touches.insert(Touch { length, steps })?;
    Ok(())
}
