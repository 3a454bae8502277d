//! Whether two lists or openings are the same.

ghost use Rattle.std.specs.Prelude.{◌≡◌, ℕ, ◌↔◌, map, IsTrue};

use crate::opening::Opening;
use cr_model::Calling;
use cr_node::Node;

// Whether two lists of steps are the same.
fn same_steps(a: &[u8], b: &[u8]) -> bool
    ensures { IsTrue result ↔ (a.now ≡ b.now) }
{
    a == b
}

/// Whether two lists of nodes are the same.
pub fn same_nodes(a: &[Node], b: &[Node]) -> bool
    ensures { IsTrue result ↔ (a.now ≡ b.now) }
{
    if a.len() != b.len() {
        return false;
    }
    for index in 0..a.len() {
        if !same_steps(a[index].steps(), b[index].steps()) {
            return false;
        }
    }
    true
}

// Whether two lists of callings are the same.
fn same_callings(a: &[Calling], b: &[Calling]) -> bool
    ensures { IsTrue result ↔ (a.now ≡ b.now) }
{
    if a.len() != b.len() {
        return false;
    }
    for index in 0..a.len() {
        if !same_steps(a[index].steps(), b[index].steps()) {
            return false;
        }
    }
    true
}

// Whether two lists of jobs are the same.
fn same_jobs(a: &[Vec<Node>], b: &[Vec<Node>]) -> bool
    ensures { IsTrue result ↔ (map (λ job. job.items) a.now ≡ map (λ job. job.items) b.now) }
{
    if a.len() != b.len() {
        return false;
    }
    for index in 0..a.len() {
        if !same_nodes(&a[index], &b[index]) {
            return false;
        }
    }
    true
}

/// Whether two openings are the same in all parts.
pub fn same_openings(a: &Opening, b: &Opening) -> bool
    ensures { IsTrue result ↔ (a.now ≡ b.now) }
{
    a.problem().same(b.problem())
        && same_callings(a.found(), b.found())
        && same_jobs(a.jobs(), b.jobs())
        && a.budget() == b.budget()
        && a.workers() == b.workers()
}
