//! The first changes of a list: as many as a text may spell, and one more, which tells that there are too many.

ghost use Rattle.std.specs.Prelude.{◌≡◌, ◌++◌, [], ◌∷◌, OnOk};
ghost use Rattle.cr_model.specs.Notation.{mirrored};
ghost use Rattle.cr_notation.specs.Reading.{kept};

use cr_model::limits::MOST_LEAD_CHANGES;
use cr_row::Change;
use std::alloc::{AllocError, Global};
use std::marker::Model;

/// The changes of a list, up to the first that is too many. Contracts see their list.
#[derive(Drop)]
pub struct Kept {
    changes: Vec<Change>,
}

impl Model for Kept {
    ghost use Rattle.std.specs.Prelude.{List, ◌+◌, ◌≤◌, length};
    ghost use Rattle.cr_model.specs.Limits.{most_lead_changes};
    ghost use Rattle.cr_row.specs.Rows.{Places};

    ghost Value = { List Places };

    ghost view = { λ k. k.changes.items };

    ghost invariant = { λ k. length k.changes.items ≤ most_lead_changes + 1 };
}

#[tactic(auto, using(crate::proofs::Keeping::all_kept, crate::proofs::Keeping::full_kept))]
impl Kept {
    pub fn new(alloc: Global) -> Kept
        ensures { result ≡ [] }
    {
        Kept {
            changes: Vec::new(alloc),
        }
    }

    /// Adds a change, unless there are too many already.
    pub fn add(&mut self, change: Change) -> Result<(), AllocError>
        ensures { OnOk result (kept self.new ≡ kept (self.old ++ change ∷ [])) }
    {
        if self.changes.len() <= MOST_LEAD_CHANGES {
            self.changes.push(change)?;
        }
        Ok(())
    }

    /// Adds changes in their order.
    #[tactic(auto, using(crate::proofs::Keeping::none_forth, crate::proofs::Keeping::all_forth))]
    pub fn add_all(&mut self, block: &[Change]) -> Result<(), AllocError>
        ensures { OnOk result (kept self.new ≡ kept (self.old ++ block.now)) }
    {
        for change in block {
            self.add(*change)?;
        }
        Ok(())
    }

    /// Adds changes to the last one and back to the first.
    #[tactic(auto, using(crate::proofs::Keeping::none_back))]
    pub fn add_mirrored(&mut self, block: &[Change]) -> Result<(), AllocError>
        ensures { OnOk result (kept self.new ≡ kept (self.old ++ mirrored block.now)) }
    {
        self.add_all(block)?;
        for back in 1..block.len() {
            self.add(block[block.len() - 1 - back])?;
        }
        Ok(())
    }

    /// The changes, as far as they are kept.
    pub fn changes(&self) -> &[Change]
        ensures { result.now ≡ self.now }
    {
        self.changes.as_slice()
    }

    pub fn clear(&mut self)
        ensures { self.new ≡ [] }
    {
        self.changes.clear();
    }

    /// The changes, of which the last is too many where there are more than the most.
    pub fn into_changes(self) -> Vec<Change>
        ensures { result.items ≡ kept self }
    {
        self.changes
    }
}
