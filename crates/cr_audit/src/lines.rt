//! The line that comes next in a log, and whether it is right.

ghost use Rattle.std.specs.Prelude.{◌≡◌, ◌↔◌, true, IsTrue, IfOk, IfErr};
ghost use Rattle.cr_model.specs.Problems.{ProblemParts};
ghost use Rattle.cr_audit.specs.Dues.{dues};
ghost use Rattle.cr_model.specs.Checkpoints.{steps_text};
ghost use Rattle.cr_audit.specs.Examples.{line_of};
ghost use Rattle.cr_audit.specs.Paths.{IsAt};
ghost use Rattle.cr_audit.specs.Audits.{Begins};
ghost use Rattle.cr_audit.specs.Stops.{IsStop, IsRightLine};

use crate::fault::AuditFault;
use crate::judging::holds;
use crate::nodes::is_node_text;
use crate::path::{Path, node_text};
use crate::reading::{take_line, take_verdict};
use crate::verdict::Verdict;
use cr_model::Problem;

/// The verdict of the line that comes next, and what comes after it, where the line is right: it is that of the path's node,
/// if that is due, and its verdict holds. Else why it is not, where it has this number.
pub fn take_right<'a>(
    problem: &Problem,
    path: &Path,
    due: bool,
    text: &'a [u8],
    number: u64,
) -> Result<(Verdict, &'a [u8]), AuditFault>
    requires { IsAt problem.now path.now }
    ensures right { IfOk result (λ x. IsRightLine problem.now (dues problem.now due path.now.node.items) text.now
        (line_of path.now.node.items x.0) x.1.now) }
    ensures due { IfOk result (λ x. due ≡ true) }
    ensures stop { IfErr result (IsStop problem.now (dues problem.now due path.now.node.items) text.now number) }
{
    let (why, rest) = take_due(problem, path, due, text, number)?;
    if holds(problem, path, why) {
        Ok((why, rest))
    } else {
        Err(AuditFault::Verdict(number))
    }
}

// The verdict of the line that comes next, and what comes after it, where it is that of the path's node and this is due.
fn take_due<'a>(
    problem: &Problem,
    path: &Path,
    due: bool,
    text: &'a [u8],
    number: u64,
) -> Result<(Verdict, &'a [u8]), AuditFault>
    requires { IsAt problem.now path.now }
    ensures begins { IfOk result (λ x. Begins problem.now text.now (line_of path.now.node.items x.0) x.1.now) }
    ensures due { IfOk result (λ x. due ≡ true) }
    ensures stop { IfErr result (IsStop problem.now (dues problem.now due path.now.node.items) text.now number) }
{
    let _ = problem.stage();
    if due {
        if let Some((why, rest)) = take_verdict(text, node_text(path)) {
            return Ok((why, rest));
        }
    }
    let Some(((node, why), rest)) = take_line(text) else {
        return Err(AuditFault::Line(number));
    };
    if is_due(path, due, node) {
        return Ok((why, rest));
    }
    if is_node_text(problem, node) {
        Err(AuditFault::Node(number))
    } else {
        Err(AuditFault::Line(number))
    }
}

// Whether the path's node is due, and a text is its.
fn is_due(path: &Path, due: bool, text: &[u8]) -> bool
    ensures { (p : ProblemParts) → IsAt p path.now → IsTrue result ↔ ((due ≡ true) × (text.now ≡ steps_text p path.now.node.items)) }
{
    due && text == node_text(path)
}
