//! A path by numbers.

ghost use Rattle.std.specs.Prelude.{◌≡◌, ◌<◌, [], length, IfOk};
ghost use Rattle.cr_leads.specs.Tables.{lead_table};
ghost use Rattle.cr_path.specs.Counted.{AsksNothing};
ghost use Rattle.cr_path.specs.Numbers.{IsNumbered};

use crate::keeping::is_numbered_touch_kept;
use crate::path::Path;
use cr_leads::LeadTable;
use cr_model::Problem;
use cr_model::laws::a_test_decides_what_is_kept;
use cr_path::{NumberTable, NumberWalk};
use cr_row::NoMemory;
use std::alloc::Global;
use std::marker::Model;

/// A path that looks up the rows of its leads by their numbers, of which each lead has `WIDTH`. `COUNTS` is 0 only where
/// the query counts nothing, and `STEPS` is the number of steps, or 0.
///
/// It is seen as the problem, the node and the step from which on the node's children are not tried yet.
#[derive(Drop)]
pub struct NumberPath<'a, const WIDTH: usize, const COUNTS: usize, const STEPS: usize> {
    problem: &'a Problem,
    leads: &'a LeadTable,
    numbers: &'a NumberTable,
    walk: NumberWalk<'a, WIDTH, COUNTS, STEPS>,
}

impl<'a, const WIDTH: usize, const COUNTS: usize, const STEPS: usize> Model
    for NumberPath<'a, WIDTH, COUNTS, STEPS> {
    ghost use Rattle.cr_path.specs.Walks.{WalkParts};
    ghost use Rattle.cr_explore.specs.Searches.{IsNumberPath};

    ghost Value = { WalkParts };

    ghost view = { λ w. w.walk };

    ghost invariant = { λ w. IsNumberPath w.problem.now w.leads.now w.numbers.now w.walk };
}

impl<'a, const WIDTH: usize, const COUNTS: usize, const STEPS: usize> NumberPath<
    'a,
    WIDTH,
    COUNTS,
    STEPS,
> {
    /// The path at the node without steps, whose children are all tried. Err where no memory is left.
    pub fn new(
        alloc: Global,
        problem: &'a Problem,
        leads: &'a LeadTable,
        numbers: &'a NumberTable,
    ) -> Result<NumberPath<'a, WIDTH, COUNTS, STEPS>, NoMemory>
        requires leads { leads.now ≡ lead_table problem.now }
        requires numbers { IsNumbered problem.now numbers.now }
        requires width { numbers.now.width ≡ WIDTH }
        requires counted { COUNTS ≡ 0 → AsksNothing problem.now.query }
        requires steps { 0 < STEPS → STEPS ≡ length problem.now.leads }
        ensures { IfOk result (λ path. path ≡ record { problem = problem.now; node = []; next = length problem.now.leads }) }
    {
        let walk = NumberWalk::new(alloc, problem, leads, numbers)?;
        Ok(NumberPath {
            problem,
            leads,
            numbers,
            walk,
        })
    }

    /// The walk, which stands at the path's node.
    #[inline(always)]
    pub(crate) fn walk(&self) -> &NumberWalk<'a, WIDTH, COUNTS, STEPS>
        ensures { result.now ≡ self.now }
    {
        &self.walk
    }
}

impl<'a, const WIDTH: usize, const COUNTS: usize, const STEPS: usize> Path
    for NumberPath<'a, WIDTH, COUNTS, STEPS> {
    ghost problem_of = { λ w. w.problem };

    ghost node_of = { λ w. w.node };

    ghost next_of = { λ w. w.next };

    #[inline(always)]
    fn problem(&self) -> &Problem {
        self.problem
    }

    #[inline(always)]
    fn node(&self) -> &[u8] {
        self.walk.steps()
    }

    #[inline(never)]
    fn gone_to(self, steps: &[u8]) -> NumberPath<'a, WIDTH, COUNTS, STEPS> {
        let mut path = self;
        path.walk.go_to(steps);
        path
    }

    #[tactic(auto, unfolding(crate::specs::Stacks::first_live))]
    #[inline(always)]
    fn down(&mut self) -> Option<u8> {
        self.walk.go_down()
    }

    #[inline(always)]
    fn up(&mut self) -> u8 {
        self.walk.go_up()
    }

    fn pass(&mut self) {
        self.walk.pass();
    }

    // Nothing is known but what makes a node dead.
    #[inline(always)]
    fn has_none_below(&mut self) -> bool {
        false
    }

    #[inline(always)]
    fn is_kept(&self, alloc: Global) -> Result<bool, NoMemory> {
        a_test_decides_what_is_kept();
        is_numbered_touch_kept(alloc, self.problem, self.leads, self.numbers, &self.walk)
    }
}
