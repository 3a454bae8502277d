//! What two nodes have in common.

ghost use Rattle.std.specs.Prelude.{◌≡◌, ◌≢◌, ◌<◌, ◌≤◌, length, take, get_or};

/// With how many equal steps both begin, where the one that goes on differs, or either is over.
pub fn common_front(node: &[u8], other: &[u8]) -> usize
    ensures within { result ≤ length node.now }
    ensures inside { result ≤ length other.now }
    ensures same { take result node.now ≡ take result other.now }
    ensures differ { result < length node.now → result < length other.now → get_or node.now result 0 ≢ get_or other.now result 0 }
{
    let number = node.len().min(other.len());
    for index in 0..number {
        if node[index] != other[index] {
            return index;
        }
    }
    number
}
