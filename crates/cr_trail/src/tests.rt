//! Fronts of a text of blocks, and what their last block is.

use crate::{TrailFault, last_block};
use std::test::Fail;

// Two blocks, and the last whole body of so many of their bytes.
const TEXT: &str = "block 2\nabblock 10\n0123456789";

const FRONTS: [(usize, Result<(u64, u64), TrailFault>); 8] = [
    (0, Err(TrailFault::Nothing)),
    (7, Err(TrailFault::Nothing)),
    (9, Err(TrailFault::Nothing)),
    (10, Ok((8, 2))),
    (11, Ok((8, 2))),
    (19, Ok((8, 2))),
    (28, Ok((8, 2))),
    (29, Ok((19, 10))),
];

#[test]
fn fronts_have_their_last_blocks() -> Result<(), Fail> {
    for (length, last) in FRONTS {
        let front = TEXT.as_bytes().get(..length).unwrap_or_default();
        if last_block(front) != last {
            return Err(Fail::from("front"));
        }
    }
    Ok(())
}

#[test]
fn what_is_no_block_has_its_place() -> Result<(), Fail> {
    for (text, last) in [
        ("block 0", Err(TrailFault::Form(6))),
        ("block 2\nabx", Err(TrailFault::Form(10))),
        ("24 ppp\ntouches 1\n", Err(TrailFault::Form(0))),
    ] {
        if last_block(text.as_bytes()) != last {
            return Err(Fail::from(text));
        }
    }
    Ok(())
}
