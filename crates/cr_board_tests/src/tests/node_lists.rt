//! Whether two lists of nodes are the same.

ghost use Rattle.std.specs.Prelude.{◌≡◌, ◌↔◌, IsTrue};

use cr_node::Node;

/// Whether two lists of nodes are the same.
pub fn same_nodes(a: &[Node], b: &[Node]) -> bool
    ensures { IsTrue result ↔ (a.now ≡ b.now) }
{
    if a.len() != b.len() {
        return false;
    }
    for index in 0..a.len() {
        if !same_steps(a[index].steps(), b[index].steps()) {
            return false;
        }
    }
    true
}

// Whether two lists of steps are the same.
fn same_steps(a: &[u8], b: &[u8]) -> bool
    ensures { IsTrue result ↔ (a.now ≡ b.now) }
{
    a == b
}
