//! Places in lanes.

/// A lane, and a place in it, both counted from 0.
#[derive(Clone, Copy)]
pub struct Place {
    pub lane: usize,
    pub place: usize,
}
