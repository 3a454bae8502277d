//! A path by a walk and a pruner.

ghost use Rattle.std.specs.Prelude.{◌≡◌, [], length, IfOk, IfSome};
ghost use Rattle.cr_model.specs.Sizes.{most_rows};
ghost use Rattle.cr_false.specs.Sets.{IsFalseTable};
ghost use Rattle.cr_leads.specs.Tables.{lead_table};
ghost use Rattle.cr_reach.specs.Tables.{reach_table};

use crate::keeping::is_touch_kept;
use crate::path::Path;
use crate::walking::{go_down, go_to, go_up};
use cr_false::FalseTable;
use cr_leads::LeadTable;
use cr_model::Problem;
use cr_model::laws::a_test_decides_what_is_kept;
use cr_prune::{Pruner, Walk};
use cr_reach::ReachTable;
use cr_row::NoMemory;
use std::alloc::Global;
use std::marker::Model;

/// A path that rings the leads of its node.
///
/// It is seen as the problem, the node and the step from which on the node's children are not tried yet.
#[derive(Drop)]
pub struct WalkPath<'a> {
    problem: &'a Problem,
    leads: &'a LeadTable,
    walk: Walk<'a>,
    pruner: Pruner<'a>,
    next: u8,
}

impl<'a> Model for WalkPath<'a> {
    ghost use Rattle.cr_path.specs.Walks.{WalkParts, walk_from};
    ghost use Rattle.cr_explore.specs.Searches.{IsWalkPath};

    ghost Value = { WalkParts };

    ghost view = { λ w. walk_from w.walk.problem w.walk.node w.next };

    ghost invariant = { λ w. IsWalkPath w.problem.now w.leads.now w.walk w.pruner w.next };
}

impl<'a> WalkPath<'a> {
    /// The path at the node without steps, whose children are all tried. Its walk asks a falseness table, if there is
    /// one, and else keeps the rows. Err where no memory is left.
    pub fn new(
        alloc: Global,
        problem: &'a Problem,
        leads: &'a LeadTable,
        reach: &'a ReachTable,
        table: Option<&'a FalseTable>,
    ) -> Result<WalkPath<'a>, NoMemory>
        requires leads { leads.now ≡ lead_table problem.now }
        requires table { IfSome table (λ t. IsFalseTable leads.now t.now) }
        requires reach { reach.now ≡ reach_table problem.now most_rows }
        ensures { IfOk result (λ path. path ≡ record { problem = problem.now; node = []; next = length problem.now.leads }) }
    {
        let walk = Walk::new(alloc, problem, leads, table)?;
        let pruner = Pruner::new(leads, reach, problem);
        Ok(WalkPath {
            problem,
            leads,
            walk,
            pruner,
            next: leads.count(),
        })
    }
}

impl<'a> Path for WalkPath<'a> {
    ghost problem_of = { λ w. w.problem };

    ghost node_of = { λ w. w.node };

    ghost next_of = { λ w. w.next };

    fn problem(&self) -> &Problem {
        self.problem
    }

    fn node(&self) -> &[u8] {
        self.walk.steps()
    }

    fn gone_to(self, steps: &[u8]) -> WalkPath<'a> {
        let _ = self.problem.stage();
        let mut path = self;
        go_to(&mut path.walk, steps);
        path.next = 0;
        path
    }

    fn down(&mut self) -> Option<u8> {
        let _ = self.problem.stage();
        let count = self.leads.count();
        let step = go_down(&mut self.walk, &self.pruner, self.next, count);
        self.next = if step.is_none() { count } else { 0 };
        step
    }

    fn up(&mut self) -> u8 {
        // A problem keeps all of its checks, so that there are few steps.
        let _ = self.problem.stage();
        let step = go_up(&mut self.walk);
        self.next = step + 1;
        step
    }

    fn pass(&mut self) {
        self.next = self.leads.count();
    }

    // Nothing is known but what makes a node dead.
    fn has_none_below(&mut self) -> bool {
        false
    }

    fn is_kept(&self, alloc: Global) -> Result<bool, NoMemory> {
        a_test_decides_what_is_kept();
        is_touch_kept(alloc, self.problem, self.leads, &self.walk)
    }
}
