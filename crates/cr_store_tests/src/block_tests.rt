//! Texts of blocks, place by place.

use cr_store::{Next, next_block, put_block};
use std::test::Fail;

// A text, a place, and what stands there.
const PLACES: [(&str, u64, Next); 24] = [
    ("", 0, Next::End),
    ("block 2\nab", 0, Next::Block(8, 2)),
    ("block 2\nab", 10, Next::End),
    ("block 2\nabblock 1\nc", 0, Next::Block(8, 2)),
    ("block 2\nabblock 1\nc", 10, Next::Block(18, 1)),
    ("block 2\nabblock 1\nc", 19, Next::End),
    ("block 2\nabx", 0, Next::Block(8, 2)),
    ("block 2\nabx", 10, Next::Form(10)),
    ("block 12\nblock 1\nabcd", 0, Next::Block(9, 12)),
    ("b", 0, Next::Torn),
    ("block ", 0, Next::Torn),
    ("block 12", 0, Next::Torn),
    ("block 2\n", 0, Next::Torn),
    ("block 2\na", 0, Next::Torn),
    ("block 9223372036854775807\na", 0, Next::Torn),
    ("block 9223372036854775808\na", 0, Next::Form(24)),
    ("block 10000000000000000000", 0, Next::Form(25)),
    ("block 0", 0, Next::Form(6)),
    ("block 01\na", 0, Next::Form(6)),
    ("block \n", 0, Next::Form(6)),
    ("block 1 \na", 0, Next::Form(7)),
    ("block\n1\na", 0, Next::Form(5)),
    ("Block 1\na", 0, Next::Form(0)),
    ("block 2\nabblocks", 10, Next::Form(15)),
];

#[test]
fn each_place_tells_what_stands_there() -> Result<(), Fail> {
    for (text, at, next) in PLACES {
        if at > text.len() as u64 || next_block(text.as_bytes(), at) != next {
            return Err(Fail::from(text));
        }
    }
    Ok(())
}

#[test]
fn bodies_are_put_one_after_another(rt: HostRuntime) -> Result<(), Fail> {
    let mut text = b"block 1\nx".to_vec(rt.alloc())?;
    put_block(&mut text, b"ab")?;
    put_block(&mut text, b"0123456789")?;
    if text.as_slice() == b"block 1\nxblock 2\nabblock 10\n0123456789".as_slice() {
        Ok(())
    } else {
        Err(Fail::from("blocks"))
    }
}
