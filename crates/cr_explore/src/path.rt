//! Paths through the tree of nodes.

ghost use Rattle.std.specs.Prelude.{◌≡◌, ℕ, ◌+◌, ◌<◌, ◌≤◌, true, List, length, IfOk, IfNone, IfSome};
ghost use Rattle.cr_model.specs.Problems.{ProblemParts};
ghost use Rattle.cr_model.specs.Nodes.{IsValid};
ghost use Rattle.cr_model.specs.Dead.{HasNoneBelow};
ghost use Rattle.cr_model.specs.Decided.{is_kept};
ghost use Rattle.cr_model.specs.OneTurn.{touch_of};
ghost use Rattle.cr_model.specs.Sizes.{most_rows, child};
ghost use Rattle.cr_explore.specs.Stacks.{first_live};

use cr_model::Problem;
use cr_row::NoMemory;
use std::alloc::Global;

/// A place in the tree of a problem's nodes, which goes from a node to its children and back.
pub trait Path: Drop {
    /// The problem.
    ghost problem_of: { Self → ProblemParts };

    /// The node where it stands.
    ghost node_of: { Self → List ℕ };

    /// The step from which on the node's children are not tried yet.
    ghost next_of: { Self → ℕ };

    /// The problem.
    fn problem(&self) -> &Problem
        ensures { result.now ≡ problem_of self.now };

    /// The steps of the node where it stands.
    fn node(&self) -> &[u8]
        ensures { result.now ≡ node_of self.now };

    /// The path at a node, of which no child is tried yet.
    fn gone_to(self, steps: &[u8]) -> Self
        requires { IsValid (problem_of self) steps.now }
        ensures problem { problem_of result ≡ problem_of self }
        ensures node { node_of result ≡ steps.now }
        ensures next { next_of result ≡ 0 };

    /// Goes to the child with the least step that is not tried yet and not dead, and says which step. None where there is
    /// no such child: all are tried then.
    fn down(&mut self) -> Option<u8>
        requires valid { IsValid (problem_of self.old) (node_of self.old) }
        requires next { next_of self.old ≤ length (problem_of self.old).leads }
        ensures problem { problem_of self.new ≡ problem_of self.old }
        ensures step { result ≡ first_live (problem_of self.old) most_rows (node_of self.old) (next_of self.old) }
        ensures stays { IfNone result ((node_of self.new ≡ node_of self.old) × (next_of self.new ≡ length (problem_of self.old).leads)) }
        ensures goes { IfSome result (λ step. (node_of self.new ≡ child (node_of self.old) step) × (next_of self.new ≡ 0)) };

    /// Goes back from a child to its node, whose children after it are not tried yet, and gives the child's last step.
    fn up(&mut self) -> u8
        requires { 0 < length (node_of self.old) }
        ensures problem { problem_of self.new ≡ problem_of self.old }
        ensures node { node_of self.old ≡ child (node_of self.new) result }
        ensures next { next_of self.new ≡ result + 1 };

    /// Takes all children of the node as tried.
    fn pass(&mut self)
        ensures problem { problem_of self.new ≡ problem_of self.old }
        ensures node { node_of self.new ≡ node_of self.old }
        ensures next { next_of self.new ≡ length (problem_of self.old).leads };

    /// Whether it is known that no kept touch is below the node. Where nothing is known it is false.
    fn has_none_below(&mut self) -> bool
        ensures problem { problem_of self.new ≡ problem_of self.old }
        ensures node { node_of self.new ≡ node_of self.old }
        ensures next { next_of self.new ≡ next_of self.old }
        ensures none { result ≡ true → HasNoneBelow (problem_of self.old) (node_of self.old) };

    /// Whether the touch of the node, which is the node as often as the query has parts, is kept. Err where no memory
    /// is left.
    fn is_kept(&self, alloc: Global) -> Result<bool, NoMemory>
        requires { IsValid (problem_of self.now) (node_of self.now) }
        ensures { IfOk result (λ kept. kept ≡ is_kept (problem_of self.now) (touch_of (problem_of self.now) (node_of self.now))) };
}
