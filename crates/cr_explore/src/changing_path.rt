//! A path by numbers that knows what can still come, of changes of method too.

ghost use Rattle.std.specs.Prelude.{◌≡◌, ◌+◌, ◌<◌, ◌≤◌, [], length, IfOk};
ghost use Rattle.cr_ahead.specs.LeadMoves.{changing_gain};
ghost use Rattle.cr_ahead.specs.Outlooks.{IsOutlook};
ghost use Rattle.cr_leads.specs.Tables.{lead_table};
ghost use Rattle.cr_path.specs.Numbers.{IsNumbered};

use crate::narrow_path::NarrowPath;
use crate::path::Path;
use cr_ahead::laws::lead_moves::changes_of_method_lead_by_lead;
use cr_ahead::{Outlook, change_after, changes_of_method, last_method};
use cr_leads::LeadTable;
use cr_model::Problem;
use cr_path::NumberTable;
use cr_row::NoMemory;
use std::alloc::Global;
use std::marker::Model;

/// A [`NarrowPath`] that keeps how often its node changes method, and asks whether it can still meet the limit on that.
///
/// It is seen as the problem, the node and the step from which on the node's children are not tried yet.
#[derive(Drop)]
pub struct ChangingPath<'a, const WIDTH: usize> {
    path: NarrowPath<'a, WIDTH, 1, 0>,
    // How often the node changes method.
    changed: u32,
}

impl<'a, const WIDTH: usize> Model for ChangingPath<'a, WIDTH> {
    ghost use Rattle.std.specs.Prelude.{◌≡◌};
    ghost use Rattle.cr_model.specs.Queries.{changes_of_method};
    ghost use Rattle.cr_path.specs.Walks.{WalkParts};

    ghost Value = { WalkParts };

    ghost view = { λ w. w.path };

    ghost invariant = { λ w. w.changed ≡ changes_of_method w.path.problem w.path.node };
}

impl<'a, const WIDTH: usize> ChangingPath<'a, WIDTH> {
    /// The path at the node without steps, whose children are all tried, with the outlook from the heads of its numbers. Err
    /// where no memory is left.
    pub fn new(
        alloc: Global,
        problem: &'a Problem,
        leads: &'a LeadTable,
        numbers: &'a NumberTable,
        outlook: &'a Outlook,
    ) -> Result<ChangingPath<'a, WIDTH>, NoMemory>
        requires leads { leads.now ≡ lead_table problem.now }
        requires numbers { IsNumbered problem.now numbers.now }
        requires width { numbers.now.width ≡ WIDTH }
        requires outlook { IsOutlook problem.now numbers.now.heads outlook.now }
        ensures { IfOk result (λ path. path ≡ record { problem = problem.now; node = []; next = length problem.now.leads }) }
    {
        let path = NarrowPath::new(alloc, problem, leads, numbers, outlook)?;
        Ok(ChangingPath { path, changed: 0 })
    }
}

impl<'a, const WIDTH: usize> Path for ChangingPath<'a, WIDTH> {
    ghost problem_of = { λ w. w.problem };

    ghost node_of = { λ w. w.node };

    ghost next_of = { λ w. w.next };

    #[inline(always)]
    fn problem(&self) -> &Problem {
        self.path.problem()
    }

    #[inline(always)]
    fn node(&self) -> &[u8] {
        self.path.node()
    }

    fn gone_to(self, steps: &[u8]) -> ChangingPath<'a, WIDTH> {
        let ChangingPath { path, changed: _ } = self;
        let path = path.gone_to(steps);
        let changed = changes_of_method(path.problem(), path.steps());
        ChangingPath { path, changed }
    }

    #[inline(always)]
    fn down(&mut self) -> Option<u8> {
        changes_of_method_lead_by_lead();
        let last = last_method(self.path.problem(), self.path.steps());
        let next = self.path.down();
        if let Some(step) = next {
            let _ = self.path.steps();
            self.changed = with_lead(self.path.problem(), self.changed, last, step);
        }
        next
    }

    #[inline(always)]
    fn up(&mut self) -> u8 {
        changes_of_method_lead_by_lead();
        let _ = self.path.steps();
        let step = self.path.up();
        let last = last_method(self.path.problem(), self.path.steps());
        self.changed = without_lead(self.path.problem(), self.changed, last, step);
        step
    }

    fn pass(&mut self) {
        self.path.pass();
    }

    #[inline(always)]
    fn has_none_below(&mut self) -> bool {
        self.path.has_none_below() || self.path.cannot_change(self.changed)
    }

    #[inline(always)]
    fn is_kept(&self, alloc: Global) -> Result<bool, NoMemory> {
        self.path.is_kept(alloc)
    }
}

// The changes of method with a lead more behind a last method.
#[inline(always)]
fn with_lead(problem: &Problem, changed: u32, last: Option<u8>, step: u8) -> u32
    requires step { step < length problem.now.leads }
    requires few { changed ≤ 1024 }
    ensures { result ≡ changed + changing_gain problem.now last step }
{
    changed + change_after(problem, last, step)
}

// The changes of method without that lead.
#[inline(always)]
fn without_lead(problem: &Problem, changed: u32, last: Option<u8>, step: u8) -> u32
    requires step { step < length problem.now.leads }
    requires some { changing_gain problem.now last step ≤ changed }
    ensures { result + changing_gain problem.now last step ≡ changed }
{
    changed - change_after(problem, last, step)
}
