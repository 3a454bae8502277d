//! Steps and leads.

use cr_row::Change;
use std::marker::Model;

/// The mark of a plain lead.
pub const PLAIN: u8 = b'p';

/// A step: a method, by its index, and a mark, `p` for a plain lead and else a call's.
#[derive(Clone, Copy, Debug, PartialEq, Eq)]
pub struct Step {
    pub method: u8,
    pub mark: u8,
}

/// A lead: its step, and its changes in the order in which they are rung.
#[derive(Drop)]
pub struct Lead {
    pub step: Step,
    pub changes: Vec<Change>,
}

impl Model for Lead {
    ghost use Rattle.cr_model.specs.Problems.{LeadParts};

    ghost Value = { LeadParts };

    ghost view = { λ lead. record { step = lead.step; changes = lead.changes.items } };
}
