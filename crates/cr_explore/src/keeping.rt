//! Whether the touch of a walk's node is kept.

ghost use Rattle.std.specs.Prelude.{◌≡◌, ◌≢◌, ◌↔◌, true, [], IsTrue, IfOk};
ghost use Rattle.cr_row.specs.Rows.{rounds};
ghost use Rattle.cr_leads.specs.Tables.{lead_table};
ghost use Rattle.cr_model.specs.Callings.{rows_of, head_of, AllDiffer};
ghost use Rattle.cr_model.specs.Dead.{turn_free};
ghost use Rattle.cr_model.specs.Nodes.{IsValid};
ghost use Rattle.cr_model.specs.OneTurn.{touch_of};
ghost use Rattle.cr_model.specs.Sound.{IsSound};
ghost use Rattle.cr_model.specs.Touches.{Kept};
ghost use Rattle.cr_model.specs.LeastRotations.{IsLeastRotation};
ghost use Rattle.cr_query.specs.Meeting.{MeetsCounts, MeetsMethodCounts};
ghost use Rattle.cr_path.specs.Numbers.{IsNumbered};
ghost use Rattle.cr_explore.specs.Keeping.{MayBeKept, IsToldByPatterns};

use crate::coming_round::is_long_enough;
use crate::standing::Standing;
use crate::touches::touch_of;
use cr_leads::LeadTable;
use cr_model::Problem;
use cr_model::laws::a_rotation_of_a_true_touch_is_one;
use cr_path::{NumberTable, NumberWalk};
use cr_query::laws::a_wanted_calling_is_kept_where_its_part_is_least;
use cr_query::{is_kept, turn_free};
use cr_row::NoMemory;
use std::alloc::Global;

/// Whether the touch of a walk's node is kept. Where the node does not come round, or its touch is too short, misses a
/// count or is not the least of its rotations, nothing is rung. Where a row of the touch stands twice, or all rotations
/// of a touch meet the query or none, half of the further parts are rung at most, and no memory is taken. Err where no
/// memory is left.
#[inline(always)]
pub fn is_touch_kept<W: Standing>(
    alloc: Global,
    problem: &Problem,
    leads: &LeadTable,
    walk: &W,
) -> Result<bool, NoMemory>
    requires same { W.problem_of walk.now ≡ problem.now }
    requires table { leads.now ≡ lead_table problem.now }
    requires valid { IsValid problem.now (W.node_of walk.now) }
    ensures { IfOk result (λ kept. IsTrue kept ↔ Kept problem.now (touch_of problem.now (W.node_of walk.now))) }
{
    a_wanted_calling_is_kept_where_its_part_is_least();
    let query = problem.query();
    if !may_be_kept(problem, walk) {
        return Ok(false);
    }
    if !has_different_rows(walk) {
        return Ok(false);
    }
    if turn_free(query) {
        return Ok(true);
    }
    let touch = touch_of(alloc, problem, walk.steps())?;
    is_kept(alloc, problem, leads, &touch)
}

/// The same of a walk by numbers. Where patterns are all that tells the rotations of a touch apart, and there is one part,
/// nothing is rung, and no memory is taken.
#[inline(always)]
pub fn is_numbered_touch_kept<const WIDTH: usize, const COUNTS: usize, const STEPS: usize>(
    alloc: Global,
    problem: &Problem,
    leads: &LeadTable,
    numbers: &NumberTable,
    walk: &NumberWalk<WIDTH, COUNTS, STEPS>,
) -> Result<bool, NoMemory>
    requires same { walk.now.problem ≡ problem.now }
    requires table { leads.now ≡ lead_table problem.now }
    requires numbered { IsNumbered problem.now numbers.now }
    requires valid { IsValid problem.now walk.now.node }
    ensures { IfOk result (λ kept. IsTrue kept ↔ Kept problem.now (touch_of problem.now walk.now.node)) }
{
    // Few nodes come round, which is at hand.
    if !walk.comes_round() {
        return Ok(false);
    }
    if is_told_by_patterns(problem) {
        Ok(is_best_touch(problem, numbers, walk))
    } else {
        is_touch_kept(alloc, problem, leads, walk)
    }
}

// Whether there are patterns and one part, and no limits on changes of method.
fn is_told_by_patterns(problem: &Problem) -> bool
    ensures { result ≡ true → IsToldByPatterns problem.now }
{
    let query = problem.query();
    query.parts == 1 && query.com.is_none() && !query.patterns.is_empty()
}

// Whether the touch of a walk's node is kept, where patterns tell its rotations apart.
#[inline(always)]
fn is_best_touch<const WIDTH: usize, const COUNTS: usize, const STEPS: usize>(
    problem: &Problem,
    numbers: &NumberTable,
    walk: &NumberWalk<WIDTH, COUNTS, STEPS>,
) -> bool
    requires same { walk.now.problem ≡ problem.now }
    requires numbered { IsNumbered problem.now numbers.now }
    requires valid { IsValid problem.now walk.now.node }
    requires told { IsToldByPatterns problem.now }
    ensures { IsTrue result ↔ Kept problem.now (touch_of problem.now walk.now.node) }
{
    a_rotation_of_a_true_touch_is_one();
    a_wanted_calling_is_kept_where_its_part_is_least();
    let _ = problem.stage();
    if !may_be_kept(problem, walk) {
        return false;
    }
    if !has_different_rows(walk) {
        return false;
    }
    numbers.is_best(problem, walk.steps())
}

// Whether what the walk tells of its node allows that the touch is kept.
#[inline(always)]
fn may_be_kept<W: Standing>(problem: &Problem, walk: &W) -> bool
    requires { W.problem_of walk.now ≡ problem.now }
    ensures { IsTrue result ↔ MayBeKept problem.now (W.node_of walk.now) }
{
    // Its length is at hand, and whether a node comes round takes a walk that rings a product for each part.
    is_long_enough(problem, walk.length())
        && comes_round(problem, walk)
        && meets_counts(problem, walk)
        && is_least_if_asked(problem, walk)
}

// Whether the node has steps, and its touch ends in rounds.
#[inline(always)]
fn comes_round<W: Standing>(problem: &Problem, walk: &W) -> bool
    requires { W.problem_of walk.now ≡ problem.now }
    ensures { IsTrue result ↔ ((W.node_of walk.now ≢ []) × (head_of problem.now (touch_of problem.now (W.node_of walk.now)) ≡ rounds problem.now.stage)) }
{
    walk.comes_round(problem) && has_steps(walk.steps())
}

#[inline(always)]
fn has_steps(node: &[u8]) -> bool
    ensures { IsTrue result ↔ (node.now ≢ []) }
{
    !node.is_empty()
}

// Whether the counts of marks and those of methods are met.
#[inline(always)]
fn meets_counts<W: Standing>(problem: &Problem, walk: &W) -> bool
    requires { W.problem_of walk.now ≡ problem.now }
    ensures { IsTrue result ↔ (MeetsCounts problem.now (touch_of problem.now (W.node_of walk.now))
        × MeetsMethodCounts problem.now (touch_of problem.now (W.node_of walk.now))) }
{
    walk.meets_counts()
}

// Whether no rotation of the node is less than it, if all rotations of a touch meet the query or none.
#[inline(always)]
fn is_least_if_asked<W: Standing>(problem: &Problem, walk: &W) -> bool
    ensures { IsTrue result ↔ (turn_free problem.now.query ≡ true → IsLeastRotation (W.node_of walk.now)) }
{
    !turn_free(problem.query()) || walk.is_least()
}

// Whether the rows of the touch, which comes round, differ.
#[inline(always)]
fn has_different_rows<W: Standing>(walk: &W) -> bool
    requires sound { IsSound (W.problem_of walk.now) }
    requires round { head_of (W.problem_of walk.now) (touch_of (W.problem_of walk.now) (W.node_of walk.now)) ≡ rounds (W.problem_of walk.now).stage }
    ensures { IsTrue result ↔ AllDiffer (rows_of (W.problem_of walk.now) (touch_of (W.problem_of walk.now) (W.node_of walk.now))) }
{
    !walk.has_repeat() && walk.parts_differ()
}
