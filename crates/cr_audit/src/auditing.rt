//! The audit of a book by a log.

ghost use Rattle.cr_audit.specs.Audits.{Audits};

use crate::booking::judge_book;
use crate::fault::AuditFault;
use crate::walk::walk_log;
use cr_model::Problem;
use std::alloc::Global;

/// How many touches the book has, where it is the text of what the log proves. Else the first line with a fault, and, where
/// the log passes, the first byte at which the book differs; or want of memory.
///
/// The log is gone through once. Each line is judged by the rows of its node, which are kept from line to line, so that a
/// line costs its lead. Whether a touch is kept is asked of open nodes that come home alone.
pub fn audit(alloc: Global, problem: &Problem, book: &[u8], log: &[u8]) -> Result<u64, AuditFault>
    ensures { Audits problem.now book.now log.now result }
{
    match walk_log(alloc, problem, log) {
        Ok(touches) => judge_book(alloc, problem, book, &touches),
        Err(fault) => Err(fault),
    }
}
