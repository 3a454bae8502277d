//! Nodes, as lists of steps that grow and shrink at their end.

ghost use Rattle.std.specs.Prelude.{◌≡◌, ◌-◌, ◌<◌, ◌≤◌, cond, nat_eq, [], ◌∷◌, ◌++◌, length, take, All, vec_len, vec_capacity};
ghost use Rattle.cr_model.specs.Problems.{ProblemParts};
ghost use Rattle.cr_query.specs.Kinds.{kind_of};
ghost use Rattle.cr_query.specs.Meters.{kinds_of, change_between};

use crate::kinds::{Kind, differs};

/// The kind of a step, among those of all steps.
pub fn kind_at(kinds: &[Kind], step: u8) -> Kind
    requires { step < length kinds.now }
    ensures { (p : ProblemParts) → kinds.now ≡ kinds_of p → result ≡ kind_of p step }
{
    kinds[usize::from(step)]
}

/// One where a step of this method changes the method after the node, and else none. The kinds are those of
/// all steps.
pub fn change_to(kinds: &[Kind], node: &[u8], method: u8) -> u64
    requires { All (λ step. step < length kinds.now) node.now }
    ensures is { result ≡ change_between kinds.now node.now method }
    ensures few { result ≤ 1 }
{
    match node.last() {
        Some(last) => differs(kinds[usize::from(*last)], method),
        None => 0,
    }
}

/// Appends a step to a node that has room for it.
pub fn put(node: &mut Vec<u8>, step: u8)
    requires { vec_len node.old < vec_capacity node.old }
    ensures items { node.new.items ≡ node.old.items ++ step ∷ [] }
    ensures room { vec_capacity node.old ≤ vec_capacity node.new }
{
    match node.push(step) {
        Ok(()) => (),
        Err(_) => unreachable!(),
    }
}

/// Removes the last step of a node. No room is given back.
pub fn cut(node: &mut Vec<u8>)
    requires { 0 < vec_len node.old }
    ensures items { node.new.items ≡ take (length node.old.items - 1) node.old.items }
    ensures room { vec_capacity node.old ≤ vec_capacity node.new }
{
    let left = node.len() - 1;
    node.truncate(left);
}
