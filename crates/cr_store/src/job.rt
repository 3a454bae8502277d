//! Jobs that are written, wherever their nodes lie.

ghost use Rattle.std.specs.Prelude.{◌≡◌, ◌<◌, ℕ, List, [], length, get_or, map};

use cr_node::Node;

/// A job that is written: a list of nodes that are read where they lie. It may have its nodes, or refer to them.
pub trait Job {
    /// Its nodes.
    ghost nodes: { Self → List (List ℕ) };

    /// How many nodes it has.
    fn size(&self) -> usize
        ensures { result ≡ length (nodes self.now) };

    /// The steps of one of its nodes, which are counted from 0.
    fn steps(&self, node: usize) -> &[u8]
        requires { node < length (nodes self.now) }
        ensures { result.now ≡ get_or (nodes self.now) node [] };
}

impl Job for Vec<Node> {
    ghost nodes = { λ job. job.items };

    fn size(&self) -> usize {
        self.len()
    }

    fn steps(&self, node: usize) -> &[u8] {
        self[node].steps()
    }
}

/// Nodes that lie together.
impl<'a> Job for &'a [Node] {
    ghost nodes = { λ job. job.now };

    fn size(&self) -> usize {
        self.len()
    }

    fn steps(&self, node: usize) -> &[u8] {
        self[node].steps()
    }
}

/// Nodes that lie apart.
impl<'a> Job for Vec<&'a Node> {
    ghost nodes = { λ job. map (λ node. node.now) job.items };

    fn size(&self) -> usize {
        self.len()
    }

    fn steps(&self, node: usize) -> &[u8] {
        self[node].steps()
    }
}
