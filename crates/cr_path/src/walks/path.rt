//! The path of a walk: what is kept of a node of a problem whose lead heads and rows are numbered.

ghost use Rattle.std.specs.Prelude.{◌≡◌, ◌+◌, ◌-◌, ◌<◌, ◌≤◌, ◌↔◌, ℕ, true, false, not, [], ◌∷◌, length, get_or, find, take, is_none, All, MatchBool, IsTrue, IfOk, IfNone, IsSome, IfSome};
ghost use Rattle.std.specs.List.{range_with_len};
ghost use Rattle.cr_row.specs.Rows.{rounds};
ghost use Rattle.cr_model.specs.Callings.{rows_of, length_of, head_of, HasSteps};
ghost use Rattle.cr_model.specs.Dead.{dead, is_turned_back};
ghost use Rattle.cr_model.specs.Decided.{rows_differ};
ghost use Rattle.cr_model.specs.Nodes.{IsValid};
ghost use Rattle.cr_model.specs.OneTurn.{touch_of};
ghost use Rattle.cr_model.specs.Sizes.{most_rows, child};
ghost use Rattle.cr_model.specs.LeastRotations.{IsLeastRotation};
ghost use Rattle.cr_leads.specs.Tables.{lead_table};
ghost use Rattle.cr_query.specs.Meeting.{MeetsCounts, MeetsMethodCounts};
ghost use Rattle.cr_query.specs.Meters.{item_numbers, is_hopeless_by_leads};
ghost use Rattle.cr_path.specs.Counted.{AsksNothing, AreHopeless};
ghost use Rattle.cr_path.specs.Ends.{final_step, IsEnd};
ghost use Rattle.cr_path.specs.Living.{is_clean, is_cut, is_hopeless, is_live, IsFirst, IsFirstUncut};
ghost use Rattle.cr_path.specs.Marks.{IsLead};
ghost use Rattle.cr_path.specs.Numbers.{numbers_of, IsNumbered};
ghost use Rattle.cr_path.specs.Sets.{AreUncut};
ghost use Rattle.cr_path.specs.Walks.{path_from, parent, room_of};
ghost use Rattle.cr_model.specs.Limits.{most_leads};

use crate::numbers::table::{LeadRecord, NumberTable};
use crate::walks::borrowed_lists::BorrowedNumbers;
use crate::walks::ends::{Ends, LeadEnd};
use crate::walks::marks::Marks;
use crate::walks::node_counts::Counting;
use crate::walks::repeats::{bring_new_rows, parts_to_try};
use cr_leads::LeadTable;
use cr_model::{Problem, common_front};
use cr_query::laws::what_is_hopeless_by_leads_is_hopeless;
use cr_query::step_sets::{has_step, least, no_steps, with_step, without_below, without_step};
use cr_query::turn_free;
use cr_rotate::Period;
use cr_row::{NoMemory, Row};
use std::alloc::Global;
use std::marker::Model;

/// The node of a walk, with what is known of it. Each lead has `WIDTH` representative rows, `COUNTS` is 0 only where the query
/// counts nothing, and `STEPS` is the number of steps, or 0.
///
/// It is seen as the problem, the numbers, the node and the step from which on the node's children are not tried yet.
#[derive(Drop)]
pub struct Path<'a, const WIDTH: usize, const COUNTS: usize, const STEPS: usize> {
    problem: &'a Problem,
    leads: &'a LeadTable,
    numbers: BorrowedNumbers<'a>,
    // The node.
    steps: Period,
    // The step from which on its children are not tried yet.
    next: u8,
    // Where its leads end, and of each of its fronts which children are left.
    ends: Ends,
    // The representative rows of the first leads, of as many as bring no row again.
    marks: Marks,
    // On its own, so that what is lent to a meter's calls is no part of the path.
    counting: Box<Counting>,
    // Whether all rotations of a calling meet the query, or none.
    turn_free: bool,
}

impl<'a, const WIDTH: usize, const COUNTS: usize, const STEPS: usize> Model
    for Path<'a, WIDTH, COUNTS, STEPS> {
    ghost use Rattle.std.specs.Prelude.{◌≡◌, ◌<◌, length};
    ghost use Rattle.cr_path.specs.Counted.{IsIdle};
    ghost use Rattle.cr_path.specs.Walks.{PathParts, path_from, IsWalk};

    ghost Value = { PathParts };

    ghost view = { λ w. path_from w.problem.now w.numbers w.steps w.next };

    ghost invariant = { λ w. IsWalk w.problem.now w.leads.now w.numbers w.steps w.next w.ends w.marks.marks w.marks.unmarked w.counting.value w.turn_free × (w.numbers.width ≡ WIDTH) × (COUNTS ≡ 0 → IsIdle w.counting.value)
        × (0 < STEPS → STEPS ≡ length w.problem.now.leads) };
}

impl<'a, const WIDTH: usize, const COUNTS: usize, const STEPS: usize> Path<
    'a,
    WIDTH,
    COUNTS,
    STEPS,
> {
    /// The path at the node of no steps, whose children are all tried. All memory is taken here. Err where no memory is
    /// left.
    pub fn new(
        alloc: Global,
        problem: &'a Problem,
        leads: &'a LeadTable,
        numbers: &'a NumberTable,
    ) -> Result<Path<'a, WIDTH, COUNTS, STEPS>, NoMemory>
        requires leads { leads.now ≡ lead_table problem.now }
        requires numbers { IsNumbered problem.now numbers.now }
        requires width { numbers.now.width ≡ WIDTH }
        requires counted { COUNTS ≡ 0 → AsksNothing problem.now.query }
        requires steps { 0 < STEPS → STEPS ≡ length problem.now.leads }
        ensures { IfOk result (λ path. path ≡ path_from problem.now numbers.now [] (length problem.now.leads)) }
    {
        let steps = Period::new(alloc)?;
        let ends = Ends::new(alloc)?;
        let marks = Marks::new(alloc, numbers.row_count())?;
        let counts = Counting::new(alloc, problem)?;
        let counting = Box::new(alloc, counts)?;
        Ok(Path {
            problem,
            leads,
            numbers: BorrowedNumbers::of(numbers),
            steps,
            next: leads.count(),
            ends,
            marks,
            counting,
            turn_free: turn_free(problem.query()),
        })
    }

    /// Goes to the child with the least step that is not tried yet and not dead, and gives the step. None where there
    /// is no such child: the walk stays then, with all children tried. It takes no memory.
    #[inline(always)]
    pub fn go_down(&mut self) -> Option<u8>
        requires valid { IsValid self.old.problem self.old.node }
        ensures step { result ≡ find (λ step. is_none (dead self.old.problem most_rows (child self.old.node step)))
            (range_with_len self.old.next (length self.old.problem.leads - self.old.next)) }
        ensures stays { IfNone result (self.new ≡ path_from self.old.problem self.old.numbers self.old.node (length self.old.problem.leads)) }
        ensures goes { IfSome result (λ step. self.new ≡ path_from self.old.problem self.old.numbers (child self.old.node step) 0) }
    {
        what_is_hopeless_by_leads_is_hopeless();
        // A problem keeps all of its checks, so that there are few steps.
        let _ = self.problem.stage();
        while let Some(step) = self.first_uncut() {
            if self.goes_live(step) {
                return Some(step);
            }
        }
        self.pass();
        None
    }

    /// Goes back to the node without the last step, whose children after that step are not tried yet, and gives the
    /// step. It takes no memory.
    #[inline(always)]
    pub fn go_up(&mut self) -> u8
        requires { 0 < length self.old.node }
        ensures problem { self.new.problem ≡ self.old.problem }
        ensures node { self.old.node ≡ child self.new.node result }
        ensures next { self.new.next ≡ result + 1 }
    {
        let steps = self.steps.steps();
        let step = steps[steps.len() - 1];
        self.back();
        step
    }

    /// Goes to a node, of which no child is tried yet. It does not leave the steps with which both begin, and takes no
    /// memory.
    pub fn go_to(&mut self, node: &[u8])
        requires valid { IsValid self.old.problem node.now }
        ensures { self.new ≡ path_from self.old.problem self.old.numbers node.now 0 }
    {
        let front = common_front(self.steps.steps(), node);
        self.go_back_to(front);
        self.begin();
        for index in front..node.len() {
            self.go_on(node[index]);
        }
    }

    /// The steps of the node.
    #[inline(always)]
    pub fn steps(&self) -> &[u8]
        ensures is { result.now ≡ self.now.node }
        ensures few { length self.now.node ≤ most_leads }
        ensures known { HasSteps self.now.problem self.now.node }
        ensures valid { IsValid self.now.problem self.now.node }
    {
        self.steps.steps()
    }

    /// The last row of the node, or rounds where it has no steps.
    pub fn head(&self) -> Row
        ensures is { result ≡ head_of self.now.problem self.now.node }
        ensures same_stage { length result ≡ self.now.problem.stage }
    {
        self.numbers.head_at(self.ends.last().base)
    }

    /// The number of the node's last row among the heads of a table, where it stands there at the number that the path
    /// has for it, as it does in the path's own table. It takes no memory.
    #[inline(always)]
    pub fn head_number(&self, numbers: &NumberTable) -> Option<u32>
        ensures is { IfSome result (λ number. (number < length numbers.now.heads) × (get_or numbers.now.heads number [] ≡ head_of self.now.problem self.now.node)) }
        ensures own { numbers.now ≡ self.now.numbers → IsSome result }
    {
        let number = self.numbers.number_of(self.ends.last().base);
        if numbers.has_head(number, &self.head()) {
            Some(number)
        } else {
            None
        }
    }

    /// The number of rows of the node.
    #[inline(always)]
    pub fn length(&self) -> u64
        ensures is { result ≡ length_of self.now.problem self.now.node }
        ensures within { result ≤ room_of self.now.problem }
        ensures few { result ≤ 12128 }
    {
        u64::from(self.ends.last().rung)
    }

    /// Whether the node's touch, which is so many times the node as the query has parts, ends in rounds.
    #[inline(always)]
    pub fn comes_round(&self) -> bool
        ensures { IsTrue result ↔ (head_of self.now.problem (touch_of self.now.problem self.now.node) ≡ rounds self.now.problem.stage) }
    {
        self.ends.last().round == 1
    }

    /// Whether a row of the node stands twice.
    #[inline(always)]
    pub fn has_repeat(&self) -> bool
        ensures { result ≡ not (rows_differ (rows_of self.now.problem self.now.node)) }
    {
        !self.marks.are_all()
    }

    /// Whether all rows of the node's touch differ, where those of the node do and the touch comes round. It takes no
    /// memory, looks at half of the parts, and stops at the first lead that brings a row of the node again.
    #[inline(always)]
    pub fn parts_differ(&self) -> bool
        requires fresh { rows_differ (rows_of self.now.problem self.now.node) ≡ true }
        requires round { head_of self.now.problem (touch_of self.now.problem self.now.node) ≡ rounds self.now.problem.stage }
        ensures { result ≡ rows_differ (rows_of self.now.problem (touch_of self.now.problem self.now.node)) }
    {
        let base = self.ends.last().base;
        let parts = parts_to_try(self.problem);
        bring_new_rows::<WIDTH>(
            self.problem,
            self.numbers.table(),
            self.marks.marks(),
            self.steps.steps(),
            base,
            parts,
        )
    }

    /// Whether no rotation of the node is less than it.
    #[inline(always)]
    pub fn is_least(&self) -> bool
        ensures { IsTrue result ↔ IsLeastRotation self.now.node }
    {
        self.steps.is_least()
    }

    /// Whether the node's touch, which is so many times the node as the query has parts, meets each count of marks
    /// and of methods.
    #[inline(always)]
    pub fn meets_counts(&self) -> bool
        ensures { IsTrue result ↔ (MeetsCounts self.now.problem (touch_of self.now.problem self.now.node)
            × MeetsMethodCounts self.now.problem (touch_of self.now.problem self.now.node)) }
    {
        self.counting.meets_counts()
    }

    /// How much the node has of the item at an index, as a meter says.
    #[inline(always)]
    pub fn item_number(&self, item: usize) -> u32
        requires { item < length (item_numbers self.now.problem self.now.node) }
        ensures { result ≡ get_or (item_numbers self.now.problem self.now.node) item 0 }
    {
        self.counting.item_number(item)
    }

    // Whether no row of the node stands twice, and none is rounds.
    #[inline(always)]
    fn is_clean(&self) -> bool
        ensures { result ≡ is_clean self.now.problem self.now.node }
    {
        !self.has_repeat() && !self.marks.has_first()
    }

    // The least step that is not tried yet by which the node's child is not cut.
    #[inline(always)]
    fn first_uncut(&self) -> Option<u8>
        ensures { IsFirstUncut self.now.problem most_rows self.now.node self.now.next result }
    {
        // A problem keeps all of its checks, so that there are few steps.
        let _ = self.problem.stage();
        least(self.ends.last().left)
    }

    // Begins with the node's children, of which none is tried then.
    #[inline(always)]
    fn begin(&mut self)
        ensures { self.new ≡ path_from self.old.problem self.old.numbers self.old.node 0 }
    {
        let uncut = self.find_uncut(self.last_end());
        self.ends.keep_left(uncut);
        self.next = 0;
    }

    /// Takes all children of the node as tried.
    #[inline(always)]
    pub fn pass(&mut self)
        ensures { self.new ≡ path_from self.old.problem self.old.numbers self.old.node (length self.old.problem.leads) }
    {
        self.next = self.step_count();
        self.ends.keep_left(no_steps());
    }

    // The steps by which the children of the node are not cut. All children of a node that is not clean are cut.
    #[inline(always)]
    fn find_uncut(&self, end: LeadEnd) -> u32
        requires end { IsEnd self.now.problem self.now.numbers self.now.node end }
        ensures { AreUncut self.now.problem self.now.node 0 result }
    {
        // A problem keeps all of its checks, so that there are few steps.
        let _ = self.problem.stage();
        if !self.is_clean() {
            return no_steps();
        }
        self.judge_children(end)
    }

    // The same of a clean node, found by looking at each child.
    #[inline(always)]
    fn judge_children(&self, end: LeadEnd) -> u32
        requires clean { is_clean self.now.problem self.now.node ≡ true }
        requires end { IsEnd self.now.problem self.now.numbers self.now.node end }
        ensures { AreUncut self.now.problem self.now.node 0 result }
    {
        // Also those that turn back are looked at, which takes less time than a loop whose length is not foreseen.
        let hopeless = self.hopeless_steps();
        let mut uncut = no_steps();
        for step in 0..self.step_count() {
            uncut = with_step(uncut, step, !self.is_cut(end, step, hopeless));
        }
        without_below(uncut, self.first_straight())
    }

    // The least step by which the child does not turn back, or the number of steps. Where the query is the same for all
    // rotations, the children by all lesser steps turn back, and those by greater ones do not.
    #[inline(always)]
    fn first_straight(&self) -> u8
        ensures few { result ≤ length self.now.problem.leads }
        ensures turned { (step : ℕ) → step < result → is_turned_back self.now.problem (child self.now.node step) ≡ true }
        ensures straight { (step : ℕ) → result ≤ step → step < length self.now.problem.leads
            → is_turned_back self.now.problem (child self.now.node step) ≡ false }
    {
        if !self.turn_free {
            return 0;
        }
        let count = self.step_count();
        match self.steps.first_straight() {
            Some(step) => step.min(count),
            None => count,
        }
    }

    // The number of steps of the problem.
    #[inline(always)]
    fn step_count(&self) -> u8
        ensures is { result ≡ length self.now.problem.leads }
        ensures few { result ≤ 24 }
    {
        // A problem keeps all of its checks.
        let _ = self.problem.stage();
        if STEPS == 0 {
            self.leads.count()
        } else {
            STEPS as u8
        }
    }

    // Where the node ends.
    #[inline(always)]
    fn last_end(&self) -> LeadEnd
        ensures { IsEnd self.now.problem self.now.numbers self.now.node result }
    {
        self.ends.last()
    }

    // The record of a step that is rung where the node ends.
    #[inline(always)]
    fn lead_after(&self, end: LeadEnd, step: u8) -> LeadRecord
        requires end { IsEnd self.now.problem self.now.numbers self.now.node end }
        requires step { step < length self.now.problem.leads }
        ensures { IsLead self.now.problem self.now.numbers self.now.node step (end.base + step) result }
    {
        self.numbers.lead_at(self.numbers.place(end.base, step))
    }

    // The numbers of its representative rows.
    #[inline(always)]
    fn numbers_after(&self, end: LeadEnd, step: u8) -> &[u32]
        requires end { IsEnd self.now.problem self.now.numbers self.now.node end }
        requires step { step < length self.now.problem.leads }
        ensures are { result.now ≡ numbers_of self.now.numbers (end.base + step) }
        ensures within { All (λ number. number < self.now.numbers.rows) result.now }
    {
        self.numbers
            .numbers_at::<WIDTH>(self.numbers.place(end.base, step))
    }

    // The steps with which the node has too many or too few leads for the query.
    #[inline(always)]
    fn hopeless_steps(&self) -> u32
        ensures { AreHopeless self.now.problem self.now.node result }
    {
        self.counting.hopeless_steps::<COUNTS>()
    }

    // Whether the child of a clean node by a step is dead, if it does not turn back, but for rows that fit patterns. The
    // steps with which it has too many or too few leads are known.
    #[inline(always)]
    fn is_cut(&self, end: LeadEnd, step: u8, hopeless: u32) -> bool
        requires clean { is_clean self.now.problem self.now.node ≡ true }
        requires end { IsEnd self.now.problem self.now.numbers self.now.node end }
        requires step { step < length self.now.problem.leads }
        requires hopeless { AreHopeless self.now.problem self.now.node hopeless }
        ensures { is_turned_back self.now.problem (child self.now.node step) ≡ false
            → result ≡ is_cut self.now.problem most_rows (child self.now.node step) }
    {
        // All of it is asked, which takes less time than to leave early.
        let lead = self.lead_after(end, step);
        let is_late = end.rung >= u32::from(lead.limit);
        let is_again = self.marks.has_some(self.numbers_after(end, step));
        is_late | is_again | has_step(hopeless, step)
    }

    // Goes to the child by a step, the first one that is not cut, if it is not dead, and says so. The step is tried then.
    #[inline(always)]
    fn goes_live(&mut self, step: u8) -> bool
        requires { IsFirst self.old.problem most_rows self.old.node self.old.next step }
        ensures live { result ≡ is_live self.old.problem most_rows self.old.node step }
        ensures path { MatchBool result (self.new ≡ path_from self.old.problem self.old.numbers (child self.old.node step) 0)
            (self.new ≡ path_from self.old.problem self.old.numbers self.old.node (step + 1)) }
    {
        what_is_hopeless_by_leads_is_hopeless();
        // A problem keeps all of its checks.
        let _ = self.problem.stage();
        let left = without_step(self.ends.last().left, step);
        self.go(step, true, left);
        if self.is_hopeless() {
            self.back();
            return false;
        }
        self.begin();
        true
    }

    // Whether the node, which is not hopeless by its leads, has too many or too few rows that fit a pattern.
    #[inline(always)]
    fn is_hopeless(&self) -> bool
        requires { is_hopeless_by_leads self.now.problem self.now.node ≡ false }
        ensures { result ≡ is_hopeless self.now.problem self.now.node }
    {
        self.counting.is_hopeless::<COUNTS>()
    }

    // Goes to the child by a step, where that may have a row twice.
    fn go_on(&mut self, step: u8)
        requires few { length self.old.node < most_leads }
        requires valid { IsValid self.old.problem (child self.old.node step) }
        requires begun { self.old.next ≡ 0 }
        ensures { self.new ≡ path_from self.old.problem self.old.numbers (child self.old.node step) 0 }
    {
        // A problem keeps all of its checks, so that there are few steps.
        let _ = self.problem.stage();
        let is_new = self.brings_new_rows(step);
        let left = without_below(self.ends.last().left, step + 1);
        self.go(step, is_new, left);
        self.begin();
    }

    // Whether the rows of the child by a step differ.
    fn brings_new_rows(&self, step: u8) -> bool
        requires { step < length self.now.problem.leads }
        ensures { result ≡ rows_differ (rows_of self.now.problem (child self.now.node step)) }
    {
        if self.has_repeat() {
            return false;
        }
        let end = self.last_end();
        !self.numbers.has_row_twice(step) && !self.marks.has_some(self.numbers_after(end, step))
    }

    // Goes to the child by a step, of whose rows it is known whether they differ, and keeps which children are left of
    // the node. Those of the child are not begun with.
    #[inline(always)]
    fn go(&mut self, step: u8, is_new: bool, left: u32)
        requires few { length self.old.node < most_leads }
        requires valid { IsValid self.old.problem (child self.old.node step) }
        requires new { is_new ≡ rows_differ (rows_of self.old.problem (child self.old.node step)) }
        requires left { AreUncut self.old.problem self.old.node (step + 1) left }
        ensures { self.new ≡ path_from self.old.problem self.old.numbers (child self.old.node step) (length self.old.problem.leads) }
    {
        let end = self.ends.last();
        let place = self.numbers.place(end.base, step);
        let lead = self.numbers.lead_at(place);
        self.marks
            .add(self.numbers.numbers_at::<WIDTH>(place), is_new);
        self.ends.push(
            self.steps.steps().len(),
            left,
            LeadEnd {
                base: lead.next,
                rung: end.rung + u32::from(lead.length),
                left: no_steps(),
                round: u32::from(lead.round),
            },
        );
        self.steps.push(step);
        self.next = self.leads.count();
        let table = self.numbers.table();
        self.counting.add_lead::<COUNTS>(table, place, step);
    }

    // Goes back to the node without the last step, whose children after that step are not tried yet.
    #[inline(always)]
    fn back(&mut self)
        requires { 0 < length self.old.node }
        ensures { self.new ≡ path_from self.old.problem self.old.numbers (parent self.old.node) (final_step self.old.node + 1) }
    {
        let number = self.steps.steps().len();
        let step = self.steps.steps()[number - 1];
        self.ends.pop(number - 1);
        let base = self.ends.last().base;
        let place = self.numbers.place(base, step);
        self.marks
            .take_back(self.numbers.numbers_at::<WIDTH>(place));
        self.steps.pop();
        self.next = step + 1;
        self.counting.take_back::<COUNTS>();
    }

    // Goes back to so many steps.
    fn go_back_to(&mut self, number: usize)
        requires { number ≤ length self.old.node }
        ensures problem { self.new.problem ≡ self.old.problem }
        ensures numbers { self.new.numbers ≡ self.old.numbers }
        ensures node { self.new.node ≡ take number self.old.node }
    {
        while self.steps().len() > number {
            self.back();
        }
    }
}
