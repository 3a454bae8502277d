//! A path by numbers that knows what can still come.

ghost use Rattle.std.specs.Prelude.{◌≡◌, ◌/◌, ◌<◌, ◌≤◌, true, [], length, IfOk};
ghost use Rattle.cr_ahead.specs.LeadMoves.{IsPlaceOf};
ghost use Rattle.cr_ahead.specs.Outlooks.{IsOutlook};
ghost use Rattle.cr_leads.specs.Tables.{lead_table};
ghost use Rattle.cr_model.specs.Callings.{HasSteps, length_of};
ghost use Rattle.cr_model.specs.Dead.{HasNoneBelow};
ghost use Rattle.cr_model.specs.Limits.{most_leads};
ghost use Rattle.cr_model.specs.Queries.{changes_of_method};
ghost use Rattle.cr_path.specs.Counted.{AsksNothing};
ghost use Rattle.cr_path.specs.Numbers.{IsNumbered};

use crate::number_path::NumberPath;
use crate::path::Path;
use cr_ahead::laws::exact::{
    heads_tell_what_changes_of_method_do_not,
    nothing_is_kept_below_a_node_that_cannot_come_by_exact_items,
};
use cr_ahead::{Outlook, last_method};
use cr_leads::LeadTable;
use cr_model::Problem;
use cr_path::{NumberTable, NumberWalk};
use cr_row::NoMemory;
use std::alloc::Global;
use std::marker::Model;

/// A [`NumberPath`] that asks an outlook whether its node can still come to what the query asks: below one that cannot
/// nothing is kept. It does not ask of changes of method.
///
/// It is seen as the problem, the node and the step from which on the node's children are not tried yet.
#[derive(Drop)]
pub struct NarrowPath<'a, const WIDTH: usize, const COUNTS: usize, const STEPS: usize> {
    path: NumberPath<'a, WIDTH, COUNTS, STEPS>,
    numbers: &'a NumberTable,
    outlook: &'a Outlook,
}

impl<'a, const WIDTH: usize, const COUNTS: usize, const STEPS: usize> Model
    for NarrowPath<'a, WIDTH, COUNTS, STEPS> {
    ghost use Rattle.cr_ahead.specs.Outlooks.{IsOutlook};
    ghost use Rattle.cr_path.specs.Walks.{WalkParts};

    ghost Value = { WalkParts };

    ghost view = { λ w. w.path };

    ghost invariant = { λ w. IsOutlook w.path.problem w.numbers.now.heads w.outlook.now };
}

impl<'a, const WIDTH: usize, const COUNTS: usize, const STEPS: usize> NarrowPath<
    'a,
    WIDTH,
    COUNTS,
    STEPS,
> {
    /// The path at the node without steps, whose children are all tried, with the outlook from the heads of its numbers. Err
    /// where no memory is left.
    pub fn new(
        alloc: Global,
        problem: &'a Problem,
        leads: &'a LeadTable,
        numbers: &'a NumberTable,
        outlook: &'a Outlook,
    ) -> Result<NarrowPath<'a, WIDTH, COUNTS, STEPS>, NoMemory>
        requires leads { leads.now ≡ lead_table problem.now }
        requires numbers { IsNumbered problem.now numbers.now }
        requires width { numbers.now.width ≡ WIDTH }
        requires counted { COUNTS ≡ 0 → AsksNothing problem.now.query }
        requires steps { 0 < STEPS → STEPS ≡ length problem.now.leads }
        requires outlook { IsOutlook problem.now numbers.now.heads outlook.now }
        ensures { IfOk result (λ path. path ≡ record { problem = problem.now; node = []; next = length problem.now.leads }) }
    {
        let path = NumberPath::new(alloc, problem, leads, numbers)?;
        Ok(NarrowPath {
            path,
            numbers,
            outlook,
        })
    }

    /// The steps of the node.
    #[inline(always)]
    pub(crate) fn steps(&self) -> &[u8]
        ensures is { result.now ≡ self.now.node }
        ensures few { length self.now.node ≤ most_leads }
        ensures known { HasSteps self.now.problem self.now.node }
    {
        self.path.walk().steps()
    }

    /// Whether it is known that no kept touch is below the node, which changes method so often, since none there meets the
    /// limit on that.
    #[inline(always)]
    pub(crate) fn cannot_change(&self, changed: u32) -> bool
        requires { changed ≡ changes_of_method self.now.problem self.now.node }
        ensures { result ≡ true → HasNoneBelow self.now.problem self.now.node }
    {
        cannot_change(
            self.outlook,
            self.numbers,
            self.path.problem(),
            self.path.walk(),
            changed,
        )
    }
}

impl<'a, const WIDTH: usize, const COUNTS: usize, const STEPS: usize> Path
    for NarrowPath<'a, WIDTH, COUNTS, STEPS> {
    ghost problem_of = { λ w. w.problem };

    ghost node_of = { λ w. w.node };

    ghost next_of = { λ w. w.next };

    #[inline(always)]
    fn problem(&self) -> &Problem {
        self.path.problem()
    }

    #[inline(always)]
    fn node(&self) -> &[u8] {
        self.path.node()
    }

    fn gone_to(self, steps: &[u8]) -> NarrowPath<'a, WIDTH, COUNTS, STEPS> {
        let NarrowPath {
            path,
            numbers,
            outlook,
        } = self;
        NarrowPath {
            path: path.gone_to(steps),
            numbers,
            outlook,
        }
    }

    #[inline(always)]
    fn down(&mut self) -> Option<u8> {
        self.path.down()
    }

    #[inline(always)]
    fn up(&mut self) -> u8 {
        self.path.up()
    }

    fn pass(&mut self) {
        self.path.pass();
    }

    #[inline(always)]
    fn has_none_below(&mut self) -> bool {
        cannot_come(self.outlook, self.numbers, self.path.walk())
    }

    #[inline(always)]
    fn is_kept(&self, alloc: Global) -> Result<bool, NoMemory> {
        self.path.is_kept(alloc)
    }
}

// Whether an outlook from the heads of a table of numbers tells that a walk's node cannot come to what is asked, changes of
// method left aside. It is given up at the first item that cannot be met.
#[inline(always)]
fn cannot_come<const WIDTH: usize, const COUNTS: usize, const STEPS: usize>(
    outlook: &Outlook,
    numbers: &NumberTable,
    walk: &NumberWalk<WIDTH, COUNTS, STEPS>,
) -> bool
    requires { IsOutlook walk.now.problem numbers.now.heads outlook.now }
    ensures { result ≡ true → HasNoneBelow walk.now.problem walk.now.node }
{
    let Some(place) = walk.head_number(numbers) else {
        return false;
    };
    if outlook.items() == 0 {
        return cannot_come_home(outlook, numbers, walk, place);
    }
    let units = outlook.in_units(walk.length() as u32);
    for item in 0..outlook.items() {
        if cannot_meet(outlook, numbers, walk, place, units, item) {
            return true;
        }
    }
    false
}

// Whether a walk's node, whose head has this number, has no way home, where an outlook has no items.
#[inline(always)]
fn cannot_come_home<const WIDTH: usize, const COUNTS: usize, const STEPS: usize>(
    outlook: &Outlook,
    numbers: &NumberTable,
    walk: &NumberWalk<WIDTH, COUNTS, STEPS>,
    place: u32,
) -> bool
    requires outlook { IsOutlook walk.now.problem numbers.now.heads outlook.now }
    requires place { IsPlaceOf walk.now.problem numbers.now.heads place walk.now.node }
    requires none { length outlook.now.items ≡ 0 }
    ensures { result ≡ true → HasNoneBelow walk.now.problem walk.now.node }
{
    nothing_is_kept_below_a_node_that_cannot_come_by_exact_items();
    heads_tell_what_changes_of_method_do_not();
    outlook.cannot_come_by_heads(place, walk.length() as u32, &[])
}

// Whether a walk's node, whose head has this number and which has so many units of length, cannot meet the limits of the item at
// an index.
#[inline(always)]
fn cannot_meet<const WIDTH: usize, const COUNTS: usize, const STEPS: usize>(
    outlook: &Outlook,
    numbers: &NumberTable,
    walk: &NumberWalk<WIDTH, COUNTS, STEPS>,
    place: u32,
    units: u32,
    item: usize,
) -> bool
    requires outlook { IsOutlook walk.now.problem numbers.now.heads outlook.now }
    requires place { IsPlaceOf walk.now.problem numbers.now.heads place walk.now.node }
    requires units { units ≡ length_of walk.now.problem walk.now.node / outlook.now.unit }
    requires item { item < length outlook.now.items }
    ensures { result ≡ true → HasNoneBelow walk.now.problem walk.now.node }
{
    nothing_is_kept_below_a_node_that_cannot_come_by_exact_items();
    heads_tell_what_changes_of_method_do_not();
    outlook.cannot_meet(item, place, units, walk.item_number(item))
}

// The same of changes of method, which are so many of the node.
#[inline(always)]
fn cannot_change<const WIDTH: usize, const COUNTS: usize, const STEPS: usize>(
    outlook: &Outlook,
    numbers: &NumberTable,
    problem: &Problem,
    walk: &NumberWalk<WIDTH, COUNTS, STEPS>,
    changed: u32,
) -> bool
    requires outlook { IsOutlook walk.now.problem numbers.now.heads outlook.now }
    requires problem { problem.now ≡ walk.now.problem }
    requires changed { changed ≡ changes_of_method walk.now.problem walk.now.node }
    ensures { result ≡ true → HasNoneBelow walk.now.problem walk.now.node }
{
    nothing_is_kept_below_a_node_that_cannot_come_by_exact_items();
    heads_tell_what_changes_of_method_do_not();
    let Some(place) = walk.head_number(numbers) else {
        return false;
    };
    let last = last_method(problem, walk.steps());
    outlook.cannot_change(place, walk.length() as u32, last, changed)
}
