//! A log, line by line.

ghost use Rattle.std.specs.Prelude.{◌≡◌, ◌⊎◌, ◌↔◌, ◌+◌, ◌<◌, ◌^◌, true, false, ℕ, List, [], ◌++◌, Contains, IfOk, IfErr, MatchResult};
ghost use Rattle.cr_model.specs.Nodes.{IsValid};
ghost use Rattle.cr_model.specs.OneTurn.{touch_of};
ghost use Rattle.cr_model.specs.Sizes.{children};
ghost use Rattle.cr_model.specs.Touches.{Kept};
ghost use Rattle.cr_audit.specs.declared.fault.AuditFault.TheVariants as fault;
ghost use Rattle.cr_audit.specs.Dues.{dues, later};
ghost use Rattle.cr_audit.specs.Examples.{line_of};
ghost use Rattle.cr_audit.specs.Logs.{opened_by};
ghost use Rattle.cr_audit.specs.Stops.{IsStop, IsFound, IsLogFault};
ghost use Rattle.cr_audit.specs.Touched.{callings, IsProved, IsWalk, HasMoved};
ghost use Rattle.cr_audit.specs.Verdicts.{HoldsVerdict};

use crate::differing::Marks;
use crate::fault::AuditFault;
use crate::lines::take_right;
use crate::path::{Path, go_beside, go_down, open, root};
use crate::touches::{Touch, keep, opens};
use crate::verdict::Verdict;
use cr_model::Problem;
use cr_model::laws::a_test_decides_what_is_wanted;
use cr_row::NoMemory;
use std::alloc::Global;
use std::collections::BTreeSet;

/// The node whose line is due, if any is, and the touches that the lines before it prove.
#[derive(Drop)]
pub struct Walk {
    pub path: Path,
    pub due: bool,
    pub touches: BTreeSet<Touch>,
}

/// The touches that a log proves, or its first fault.
pub fn walk_log(alloc: Global, problem: &Problem, log: &[u8]) -> Result<BTreeSet<Touch>, AuditFault>
    ensures proved { IfOk result (λ touches. IsProved problem.now log.now touches.keys) }
    ensures fault { IfErr result (IsLogFault problem.now log.now) }
{
    let mut marks = Marks::new(alloc)?;
    walk_lines(alloc, problem, &mut marks, log)
}

fn walk_lines(
    alloc: Global,
    problem: &Problem,
    marks: &mut Marks,
    log: &[u8],
) -> Result<BTreeSet<Touch>, AuditFault>
    ensures proved { IfOk result (λ touches. IsProved problem.now log.now touches.keys) }
    ensures fault { IfErr result (IsLogFault problem.now log.now) }
{
    let mut walk = start(alloc, problem)?;
    let mut rest = log;
    let mut number = 0;
    while !rest.is_empty() {
        match pass_line(alloc, problem, marks, &mut walk, rest, number + 1) {
            Ok(others) => rest = others,
            Err(fault) => return Err(fault),
        }
        number += 1;
    }
    finish(walk, number)
}

// Before the first line.
fn start(alloc: Global, problem: &Problem) -> Result<Walk, NoMemory>
    ensures walk { IfOk result (IsWalk problem.now) }
    ensures due { IfOk result (λ walk. walk.due ≡ true) }
    ensures root { IfOk result (λ walk. walk.path.node.items ≡ []) }
    ensures none { IfOk result (λ walk. walk.touches.keys ≡ []) }
{
    let path = root(alloc, problem)?;
    Ok(Walk {
        path,
        due: true,
        touches: BTreeSet::new(alloc),
    })
}

// After the last line, where so many were right.
fn finish(walk: Walk, lines: u64) -> Result<BTreeSet<Touch>, AuditFault>
    requires { lines + 1 < 2 ^ 64 }
    ensures { MatchResult result (λ touches. (walk.due ≡ false) × (touches.keys ≡ walk.touches.keys))
        (λ why. (walk.due ≡ true) × (why ≡ fault.Node (lines + 1))) }
{
    let Walk {
        path: _path,
        due,
        touches,
    } = walk;
    if due {
        Err(AuditFault::Node(lines + 1))
    } else {
        Ok(touches)
    }
}

// Goes past a line of this number, where it is right, and gives what comes after it.
fn pass_line<'a>(
    alloc: Global,
    problem: &Problem,
    marks: &mut Marks,
    walk: &mut Walk,
    text: &'a [u8],
    number: u64,
) -> Result<&'a [u8], AuditFault>
    requires { IsWalk problem.now walk.old }
    ensures walk { IfOk result (λ rest. IsWalk problem.now walk.new) }
    ensures moved { IfOk result (λ rest. HasMoved problem.now walk.old text.now walk.new rest.now) }
    ensures stop { IfErr result (IsStop problem.now (dues problem.now walk.old.due walk.old.path.node.items) text.now number) }
{
    let (why, rest) = take_right(problem, &walk.path, walk.due, text, number)?;
    pass(alloc, problem, marks, walk, why)?;
    Ok(rest)
}

// Goes on from the node that is due, with this verdict on it.
fn pass(
    alloc: Global,
    problem: &Problem,
    marks: &mut Marks,
    walk: &mut Walk,
    why: Verdict,
) -> Result<(), NoMemory>
    requires walk { IsWalk problem.now walk.old }
    requires holds { HoldsVerdict problem.now walk.old.path.node.items why }
    ensures walk { IfOk result (λ _. IsWalk problem.now walk.new) }
    ensures left { IfOk result (λ _. dues problem.now walk.new.due walk.new.path.node.items
        ≡ opened_by problem.now walk.old.path.node.items why ++ later problem.now walk.old.path.node.items) }
    ensures found { IfOk result (λ _. (calling : List ℕ) → Contains (callings walk.new.touches.keys) calling
        ↔ (Contains (callings walk.old.touches.keys) calling ⊎ IsFound problem.now (line_of walk.old.path.node.items why) calling)) }
{
    a_test_decides_what_is_wanted();
    if opens(why) {
        pass_open(alloc, problem, marks, walk)
    } else {
        pass_cut(problem, walk)
    }
}

// Goes to the first child of the node that is due, which is open, and keeps its touch.
fn pass_open(
    alloc: Global,
    problem: &Problem,
    marks: &mut Marks,
    walk: &mut Walk,
) -> Result<(), NoMemory>
    requires walk { IsWalk problem.now walk.old }
    requires valid { IsValid problem.now walk.old.path.node.items }
    ensures walk { IfOk result (λ _. IsWalk problem.now walk.new) }
    ensures left { IfOk result (λ _. dues problem.now walk.new.due walk.new.path.node.items
        ≡ children problem.now walk.old.path.node.items ++ later problem.now walk.old.path.node.items) }
    ensures found { IfOk result (λ _. (calling : List ℕ) → Contains (callings walk.new.touches.keys) calling
        ↔ (Contains (callings walk.old.touches.keys) calling ⊎ ((calling ≡ touch_of problem.now walk.old.path.node.items) × Kept problem.now calling))) }
{
    let _ = problem.stage();
    open(alloc, &mut walk.path, problem)?;
    keep(alloc, problem, marks, &walk.path, &mut walk.touches)?;
    go_down(&mut walk.path, problem, 0)?;
    walk.due = true;
    Ok(())
}

// Goes past the node that is due and all below it.
fn pass_cut(problem: &Problem, walk: &mut Walk) -> Result<(), NoMemory>
    requires { IsWalk problem.now walk.old }
    ensures walk { IfOk result (λ _. IsWalk problem.now walk.new) }
    ensures left { IfOk result (λ _. dues problem.now walk.new.due walk.new.path.node.items ≡ later problem.now walk.old.path.node.items) }
    ensures same { IfOk result (λ _. walk.new.touches.keys ≡ walk.old.touches.keys) }
{
    walk.due = go_beside(&mut walk.path, problem)?;
    Ok(())
}
