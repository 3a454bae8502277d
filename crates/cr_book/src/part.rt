//! Parts of lists, by their first place and their end.

/// A part of a list, from a place up to another.
#[derive(Clone, Copy)]
pub struct Part {
    pub start: usize,
    pub end: usize,
}
