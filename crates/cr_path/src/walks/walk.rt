//! A walk through the nodes of a problem, by numbers.

ghost use Rattle.std.specs.Prelude.{◌≡◌, ◌+◌, ◌-◌, ◌<◌, ◌≤◌, ◌↔◌, true, not, [], length, get_or, find, is_none, IsTrue, IfOk, IfNone, IfSome};
ghost use Rattle.std.specs.List.{range_with_len};
ghost use Rattle.cr_row.specs.Rows.{rounds};
ghost use Rattle.cr_model.specs.Callings.{rows_of, length_of, head_of, HasSteps};
ghost use Rattle.cr_model.specs.Dead.{dead};
ghost use Rattle.cr_model.specs.Decided.{rows_differ};
ghost use Rattle.cr_model.specs.Nodes.{IsValid};
ghost use Rattle.cr_model.specs.OneTurn.{touch_of};
ghost use Rattle.cr_model.specs.Sizes.{most_rows, child};
ghost use Rattle.cr_model.specs.LeastRotations.{IsLeastRotation};
ghost use Rattle.cr_leads.specs.Tables.{lead_table};
ghost use Rattle.cr_query.specs.Meeting.{MeetsCounts, MeetsMethodCounts};
ghost use Rattle.cr_query.specs.Meters.{item_numbers};
ghost use Rattle.cr_path.specs.Counted.{AsksNothing};
ghost use Rattle.cr_path.specs.Numbers.{IsNumbered};
ghost use Rattle.cr_path.specs.Walks.{walk_from, room_of};
ghost use Rattle.cr_model.specs.Limits.{most_leads};

use crate::numbers::table::NumberTable;
use crate::walks::path::Path;
use cr_leads::LeadTable;
use cr_model::Problem;
use cr_row::{NoMemory, Row};
use std::alloc::Global;
use std::marker::Model;

/// A walk from node to node of a problem whose lead heads and rows are numbered. Each lead has `WIDTH` representative rows,
/// `COUNTS` is 0 only where the query counts nothing, which `is_counted` tells, and `STEPS` is the number of steps, or 0.
///
/// It is seen as the problem, the node and the step from which on the node's children are not tried yet. All memory is
/// taken in `new`, and nothing is rung. What it tells of its node takes a time that does not grow with the node, but for
/// `parts_differ`.
#[derive(Drop)]
pub struct NumberWalk<'a, const WIDTH: usize, const COUNTS: usize, const STEPS: usize> {
    path: Path<'a, WIDTH, COUNTS, STEPS>,
}

impl<'a, const WIDTH: usize, const COUNTS: usize, const STEPS: usize> Model
    for NumberWalk<'a, WIDTH, COUNTS, STEPS> {
    ghost use Rattle.cr_path.specs.Walks.{WalkParts, walk_from};

    ghost Value = { WalkParts };

    ghost view = { λ w. walk_from w.path.problem w.path.node w.path.next };
}

impl<'a, const WIDTH: usize, const COUNTS: usize, const STEPS: usize> NumberWalk<
    'a,
    WIDTH,
    COUNTS,
    STEPS,
> {
    /// The walk at the node of no steps, whose children are all tried. Err where no memory is left.
    pub fn new(
        alloc: Global,
        problem: &'a Problem,
        leads: &'a LeadTable,
        numbers: &'a NumberTable,
    ) -> Result<NumberWalk<'a, WIDTH, COUNTS, STEPS>, NoMemory>
        requires leads { leads.now ≡ lead_table problem.now }
        requires numbers { IsNumbered problem.now numbers.now }
        requires width { numbers.now.width ≡ WIDTH }
        requires counted { COUNTS ≡ 0 → AsksNothing problem.now.query }
        requires steps { 0 < STEPS → STEPS ≡ length problem.now.leads }
        ensures { IfOk result (λ walk. walk ≡ record { problem = problem.now; node = []; next = length problem.now.leads }) }
    {
        let path = Path::new(alloc, problem, leads, numbers)?;
        Ok(NumberWalk { path })
    }

    /// Goes to the child with the least step that is not tried yet and not dead, and gives the step. None where there
    /// is no such child: the walk stays then, with all children tried. It takes no memory.
    #[inline(always)]
    pub fn go_down(&mut self) -> Option<u8>
        requires valid { IsValid self.old.problem self.old.node }
        ensures step { result ≡ find (λ step. is_none (dead self.old.problem most_rows (child self.old.node step)))
            (range_with_len self.old.next (length self.old.problem.leads - self.old.next)) }
        ensures stays { IfNone result (self.new ≡ walk_from self.old.problem self.old.node (length self.old.problem.leads)) }
        ensures goes { IfSome result (λ step. self.new ≡ walk_from self.old.problem (child self.old.node step) 0) }
    {
        self.path.go_down()
    }

    /// Goes back to the node without the last step, whose children after that step are not tried yet, and gives the
    /// step. It takes no memory.
    #[inline(always)]
    pub fn go_up(&mut self) -> u8
        requires { 0 < length self.old.node }
        ensures problem { self.new.problem ≡ self.old.problem }
        ensures node { self.old.node ≡ child self.new.node result }
        ensures next { self.new.next ≡ result + 1 }
    {
        self.path.go_up()
    }

    /// Goes to a node, of which no child is tried yet. It does not leave the steps with which both begin, and takes no
    /// memory.
    pub fn go_to(&mut self, node: &[u8])
        requires valid { IsValid self.old.problem node.now }
        ensures { self.new ≡ walk_from self.old.problem node.now 0 }
    {
        self.path.go_to(node)
    }

    /// Takes all children of the node as tried.
    pub fn pass(&mut self)
        ensures { self.new ≡ walk_from self.old.problem self.old.node (length self.old.problem.leads) }
    {
        self.path.pass();
    }

    /// The steps of the node.
    #[inline(always)]
    pub fn steps(&self) -> &[u8]
        ensures is { result.now ≡ self.now.node }
        ensures few { length self.now.node ≤ most_leads }
        ensures known { HasSteps self.now.problem self.now.node }
        ensures valid { IsValid self.now.problem self.now.node }
    {
        self.path.steps()
    }

    /// The last row of the node, or rounds where it has no steps.
    pub fn head(&self) -> Row
        ensures is { result ≡ head_of self.now.problem self.now.node }
        ensures same_stage { length result ≡ self.now.problem.stage }
    {
        self.path.head()
    }

    /// The number of the node's last row among the heads of a table, where it stands there at the number that the walk
    /// has for it, as it does in the walk's own table. It takes no memory.
    #[inline(always)]
    pub fn head_number(&self, numbers: &NumberTable) -> Option<u32>
        ensures { IfSome result (λ number. (number < length numbers.now.heads) × (get_or numbers.now.heads number [] ≡ head_of self.now.problem self.now.node)) }
    {
        self.path.head_number(numbers)
    }

    /// The number of rows of the node.
    #[inline(always)]
    pub fn length(&self) -> u64
        ensures is { result ≡ length_of self.now.problem self.now.node }
        ensures within { result ≤ room_of self.now.problem }
        ensures few { result ≤ 12128 }
    {
        self.path.length()
    }

    /// Whether the node's touch, which is so many times the node as the query has parts, ends in rounds.
    #[inline(always)]
    pub fn comes_round(&self) -> bool
        ensures { IsTrue result ↔ (head_of self.now.problem (touch_of self.now.problem self.now.node) ≡ rounds self.now.problem.stage) }
    {
        self.path.comes_round()
    }

    /// Whether a row of the node stands twice.
    #[inline(always)]
    pub fn has_repeat(&self) -> bool
        ensures { result ≡ not (rows_differ (rows_of self.now.problem self.now.node)) }
    {
        self.path.has_repeat()
    }

    /// Whether all rows of the node's touch differ, where those of the node do and the touch comes round. It takes no
    /// memory, looks at half of the parts, and stops at the first lead that brings a row of the node again.
    #[inline(always)]
    pub fn parts_differ(&self) -> bool
        requires fresh { rows_differ (rows_of self.now.problem self.now.node) ≡ true }
        requires round { head_of self.now.problem (touch_of self.now.problem self.now.node) ≡ rounds self.now.problem.stage }
        ensures { result ≡ rows_differ (rows_of self.now.problem (touch_of self.now.problem self.now.node)) }
    {
        self.path.parts_differ()
    }

    /// Whether no rotation of the node is less than it.
    #[inline(always)]
    pub fn is_least(&self) -> bool
        ensures { IsTrue result ↔ IsLeastRotation self.now.node }
    {
        self.path.is_least()
    }

    /// Whether the node's touch, which is so many times the node as the query has parts, meets each count of marks
    /// and of methods.
    #[inline(always)]
    pub fn meets_counts(&self) -> bool
        ensures { IsTrue result ↔ (MeetsCounts self.now.problem (touch_of self.now.problem self.now.node)
            × MeetsMethodCounts self.now.problem (touch_of self.now.problem self.now.node)) }
    {
        self.path.meets_counts()
    }

    /// How much the node has of the item at an index, as a meter says.
    #[inline(always)]
    pub fn item_number(&self, item: usize) -> u32
        requires { item < length (item_numbers self.now.problem self.now.node) }
        ensures { result ≡ get_or (item_numbers self.now.problem self.now.node) item 0 }
    {
        self.path.item_number(item)
    }
}
