//! Laws of cutting. Each is the contract of a function that does nothing but call other laws.

ghost use Rattle.std.specs.Prelude.{◌≡◌, ◌≢◌, ◌<◌, ◌≤◌, ℕ, true, List, length, None};
ghost use Rattle.cr_model.specs.Problems.{ProblemParts};
ghost use Rattle.cr_model.specs.Nodes.{IsValid};
ghost use Rattle.cr_model.specs.Sound.{IsSound};
ghost use Rattle.cr_model.specs.Dead.{is_long, dead};
ghost use Rattle.cr_model.specs.Sizes.{child};
ghost use Rattle.cr_prune.specs.Pruners.{dies_unrung};

use cr_model::laws::a_node_is_dead_for_its_first_reason;
use cr_query::laws::what_is_hopeless_by_leads_is_hopeless;

/// A node that dies unrung is dead.
pub fn what_dies_unrung_is_dead()
    ensures { (p : ProblemParts) (most : ℕ) (node : List ℕ) → dies_unrung p most node ≡ true → dead p most node ≢ None }
{
    a_node_is_dead_for_its_first_reason();
    what_is_hopeless_by_leads_is_hopeless();
}

/// A valid node of 1,024 steps has only children that are too long, and that die unrung.
pub fn the_longest_nodes_have_long_children()
    ensures long { (p : ProblemParts) (node : List ℕ) (step : ℕ) → IsSound p → IsValid p node → 1024 ≤ length node
        → step < length p.leads → is_long p (child node step) ≡ true }
    ensures dies { (p : ProblemParts) (most : ℕ) (node : List ℕ) (step : ℕ) → IsSound p → IsValid p node → 1024 ≤ length node
        → step < length p.leads → dies_unrung p most (child node step) ≡ true }
{}
