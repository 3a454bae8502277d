//! The last whole block of a text.

ghost use Rattle.std.specs.Prelude.{◌≡◌, ℕ, ◌≤◌, length};
ghost use Rattle.cr_trail.specs.Lasts.{IsLast};

use cr_store::{Next, next_block};
use thiserror::Error;

/// Why a text has no last block.
#[derive(Debug, Drop, Clone, Copy, PartialEq, Eq, Error)]
pub enum TrailFault {
    /// The text is not of blocks: the first byte that cannot be.
    #[error("byte {0} is not that of a block")]
    Form(u64),
    /// No whole block stands in the text.
    #[error("no whole block stands there")]
    Nothing,
}

/// The place and the number of bytes of the last whole body in a text of blocks, which may be over within a block.
/// `Form` tells the first byte that cannot be, and `Nothing` that the text is over before a whole block. It takes no
/// memory.
pub fn last_block(text: &[u8]) -> Result<(u64, u64), TrailFault>
    ensures { IsLast text.now result }
{
    let mut at = 0;
    let mut last = None;
    loop {
        match next_block(text, at) {
            Next::Block(place, size) => {
                last = Some((place, size));
                at = place + size;
            }
            Next::End | Next::Torn => return last.ok_or(TrailFault::Nothing),
            Next::Form(place) => return Err(TrailFault::Form(place)),
        }
    }
}
