//! On which line of a checkpoint a found touch or a node stands.

ghost use Rattle.std.specs.Prelude.{◌≡◌, ◌+◌, ◌^◌, ◌<◌, get_or};
ghost use Rattle.cr_store.specs.Lines.{in_all, last_after, last_in, line_at, node_numbers};
ghost use Rattle.cr_store.specs.Reading.{outline_parts};

use crate::outline::Outline;

/// The number of the line of a touch or node, where found touches and then nodes are numbered from 0.
pub fn line_of(outline: &Outline, item: usize) -> u64
    requires few { last_in (outline_parts outline.now) < 2 ^ 64 }
    requires inside { item < (outline_parts outline.now).touches + in_all (outline_parts outline.now).sizes }
    ensures { result ≡ line_at (outline_parts outline.now) item }
{
    if item < outline.touches {
        return outline.found_at + 1 + item as u64;
    }
    let first = outline.found_at + outline.touches as u64 + 2;
    line_of_node(&outline.sizes, first, item - outline.touches)
}

// The number of the line of a node, where the first job's line has this number.
fn line_of_node(sizes: &[usize], first: u64, node: usize) -> u64
    requires few { last_after first sizes.now < 2 ^ 64 }
    requires inside { node < in_all sizes.now }
    ensures { result ≡ get_or (node_numbers first sizes.now) node 0 }
{
    let mut line = first;
    let mut left = node;
    for index in 0..sizes.len() {
        let size = sizes[index];
        if left < size {
            return line + 1 + left as u64;
        }
        left -= size;
        line += 1 + size as u64;
    }
    unreachable!()
}
