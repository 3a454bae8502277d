//! A walk that goes to live children, back, and to a given node.

ghost use Rattle.std.specs.Prelude.{◌≡◌, ◌<◌, ◌≤◌, ◌-◌, ℕ, List, [], length, take, MatchBool, IfNone, IfSome, false};
ghost use Rattle.cr_model.specs.Nodes.{IsValid};
ghost use Rattle.cr_model.specs.Sizes.{most_rows, child};
ghost use Rattle.cr_model.specs.Sound.{IsSound};
ghost use Rattle.cr_prune.specs.Pruners.{dies_unrung};
ghost use Rattle.cr_prune.specs.Walks.{walk_from};
ghost use Rattle.cr_explore.specs.Searches.{IsReady};
ghost use Rattle.cr_explore.specs.Stacks.{first_live, is_live};

use cr_model::common_front;
use cr_prune::laws::{the_longest_nodes_have_long_children, what_dies_unrung_is_dead};
use cr_prune::{Pruner, Walk};

/// Goes to the child with the least step from this one on that is not dead, and gives the step. None where there is
/// no such child: the walk stays then. Each child is rung at most once.
pub fn go_down(walk: &mut Walk, pruner: &Pruner, from: u8, count: u8) -> Option<u8>
    requires ready { IsReady walk.old pruner.now }
    requires from { from ≤ length walk.old.problem.leads }
    requires count { count ≡ length walk.old.problem.leads }
    ensures step { result ≡ first_live walk.old.problem most_rows walk.old.node from }
    ensures stays { IfNone result (walk.new ≡ walk.old) }
    ensures goes { IfSome result (λ step. walk.new ≡ walk_from walk.old.problem (child walk.old.node step)) }
{
    for step in from..count {
        if goes_live(walk, pruner, step) {
            return Some(step);
        }
    }
    None
}

// Goes to the child by a step, if it is not dead, and says so.
fn goes_live(walk: &mut Walk, pruner: &Pruner, step: u8) -> bool
    requires ready { IsReady walk.old pruner.now }
    requires step { step < length walk.old.problem.leads }
    ensures live { result ≡ is_live walk.old.problem most_rows (child walk.old.node step) }
    ensures walk { MatchBool result (walk.new ≡ walk_from walk.old.problem (child walk.old.node step)) (walk.new ≡ walk.old) }
{
    the_longest_nodes_have_long_children();
    what_dies_unrung_is_dead();
    if pruner.dies_unrung(walk, step) {
        return false;
    }
    walk.go(step);
    if lives(walk, pruner) {
        return true;
    }
    walk.back();
    false
}

// Whether the node, which did not die unrung, is not dead.
fn lives(walk: &Walk, pruner: &Pruner) -> bool
    requires same { walk.now.problem ≡ pruner.now.problem }
    requires some { 0 < length walk.now.node }
    requires unrung { dies_unrung walk.now.problem most_rows walk.now.node ≡ false }
    ensures { result ≡ is_live walk.now.problem most_rows walk.now.node }
{
    !pruner.dies_rung(walk)
}

/// Goes back, and gives the last step, which is one of the problem's.
pub fn go_up(walk: &mut Walk) -> u8
    requires { 0 < length walk.old.node }
    ensures problem { walk.new.problem ≡ walk.old.problem }
    ensures node { walk.old.node ≡ child walk.new.node result }
    ensures inside { result < length walk.old.problem.leads }
{
    let steps = walk.steps();
    let step = steps[steps.len() - 1];
    walk.back();
    step
}

/// Goes to a node. It does not leave the steps with which both begin.
pub fn go_to(walk: &mut Walk, node: &[u8])
    requires sound { IsSound walk.old.problem }
    requires valid { IsValid walk.old.problem node.now }
    ensures { walk.new ≡ walk_from walk.old.problem node.now }
{
    let front = common_front(walk.steps(), node);
    go_back_to(walk, front);
    for index in front..node.len() {
        walk.go(node[index]);
    }
}

// Goes back to so many steps.
fn go_back_to(walk: &mut Walk, number: usize)
    requires { number ≤ length walk.old.node }
    ensures { walk.new ≡ walk_from walk.old.problem (take number walk.old.node) }
{
    while walk.steps().len() > number {
        walk.back();
    }
}
