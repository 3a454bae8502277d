//! The first verdict that holds of a node.

ghost use Rattle.std.specs.Prelude.{◌≡◌, ◌-◌, ◌<◌, ◌≤◌, ◌||◌, nat_lt, ◌+◌, length, take, drop, true, IfOk};
ghost use Rattle.std.specs.Cmp.Lexicographic.{slice_cmp};
ghost use Rattle.std.specs.Ordering.{nat_cmp, is_lt};
ghost use Rattle.cr_leads.specs.Tables.{lead_table};
ghost use Rattle.cr_model.specs.Callings.{HasSteps};
ghost use Rattle.cr_model.specs.Dead.{parts_of};
ghost use Rattle.cr_model.specs.Sizes.{child};
ghost use Rattle.cr_audit.specs.Verdicts.{is_round_at, turns_back_at};
ghost use Rattle.cr_log.specs.FirstVerdicts.{IsFirstVerdict, IsLeast};
ghost use Rattle.cr_log.specs.Logging.{AreShapes, IsAt};

use crate::items::first_missed;
use cr_audit::Verdict;
use cr_model::Problem;
use cr_query::{Shape, turn_free};
use cr_row::Row;
use cr_rowset::RowStack;

/// The first verdict that holds of a valid node whose rows differ and stand on a stack.
pub fn judge(problem: &Problem, shapes: &[Shape], node: &[u8], rows: &RowStack) -> Verdict
    requires shapes { AreShapes problem.now shapes.now }
    requires at { IsAt problem.now node.now rows.now }
    ensures { IsFirstVerdict problem.now node.now result }
{
    // It tells that the rows on the stack differ.
    let _ = rows.len();
    if let Some(place) = first_home(problem, node, rows) {
        return Verdict::Home(place);
    }
    if let Some(item) = first_missed(problem, shapes, node, rows, false) {
        return Verdict::Many(item);
    }
    if let Some(item) = first_missed(problem, shapes, node, rows, true) {
        return Verdict::Few(item);
    }
    match first_back(problem, node) {
        Some(step) => Verdict::Back(step),
        None => Verdict::Open,
    }
}

// The first place at which rounds comes too early.
fn first_home(problem: &Problem, node: &[u8], rows: &RowStack) -> Option<u64>
    requires at { IsAt problem.now node.now rows.now }
    ensures { IsLeast (is_round_at problem.now node.now) result }
{
    let length = rows.len();
    match rows.place_of(&Row::rounds(problem.stage())) {
        Some(place) => {
            if is_early(problem, place, length) {
                Some(place)
            } else {
                None
            }
        }
        None => None,
    }
}

// Whether a place is before the last of so many, or there are several parts.
fn is_early(problem: &Problem, place: u64, length: u64) -> bool
    requires { place < length }
    ensures { result ≡ (nat_lt (place + 1) length || nat_lt 1 (parts_of problem.now)) }
{
    place + 1 < length || problem.parts() > 1
}

// The first step from which on a node is less than its beginning, where all rotations of a touch meet the query or none.
fn first_back(problem: &Problem, node: &[u8]) -> Option<u64>
    ensures { IsLeast (turns_back_at problem.now node.now) result }
{
    if !turn_free(problem.query()) {
        return None;
    }
    for step in 1..node.len() {
        if is_less_from(node, step) {
            return Some(step as u64);
        }
    }
    None
}

// Whether the steps from one on are less than as many at the beginning.
fn is_less_from(node: &[u8], step: usize) -> bool
    requires { step ≤ length node.now }
    ensures { result ≡ is_lt (slice_cmp nat_cmp (drop step node.now) (take (length node.now - step) node.now)) }
{
    node[step..].cmp(&node[..node.len() - step]).is_lt()
}
