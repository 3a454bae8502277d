//! Byte strings written as blocks, one after another, and read back from block to block.

ghost use Rattle.std.specs.Prelude.{◌≡◌, ◌≢◌, ◌+◌, ◌<◌, ◌≤◌, ◌++◌, ℕ, List, length, get_or, take, drop, codes, decimal, OnOk, OnErr, IfSome, IfNone, vec_len, vec_capacity};
ghost use Rattle.cr_model.specs.Texts.{NoneTells};
ghost use Rattle.cr_store.specs.Blocks.{block, IsSize, IsNext, IsHead};

use crate::shape_numbers::number_of;
use cr_row::NoMemory;
use itoa::Buffer;

// The word before a block's size.
const WORD: &[u8] = b"block ";

/// What stands at a place of a text of blocks.
#[derive(Clone, Copy, Debug, PartialEq, Eq, Drop)]
pub enum Next {
    /// A whole block: the place where its body begins, and how many bytes it has.
    Block(u64, u64),
    /// Nothing: the text is over.
    End,
    /// The front of a block, at which the text is over.
    Torn,
    /// No block: the first byte that cannot be.
    Form(u64),
}

// The line before a block's body.
#[derive(Clone, Copy, Drop)]
enum Head {
    // The place behind it, and the size that it tells.
    Whole(usize, u64),
    // The text is over before its end.
    Torn,
    // The first byte that cannot be.
    Wrong(usize),
}

/// What stands at a place of a text of blocks, which may be its end. It takes no memory.
pub fn next_block(bytes: &[u8], at: u64) -> Next
    requires { at ≤ length bytes.now }
    ensures { IsNext bytes.now at result }
{
    let text = behind(bytes, at as usize);
    if text.is_empty() {
        return Next::End;
    }
    match head_of(text) {
        Head::Whole(start, size) => {
            if size <= (text.len() - start) as u64 {
                Next::Block(at + start as u64, size)
            } else {
                Next::Torn
            }
        }
        Head::Torn => Next::Torn,
        Head::Wrong(place) => Next::Form(at + place as u64),
    }
}

// The bytes from a place on.
fn behind(bytes: &[u8], at: usize) -> &[u8]
    requires { at ≤ length bytes.now }
    ensures { result.now ≡ drop at bytes.now }
{
    &bytes[at..]
}

// The line before a block's body, with which a text begins.
fn head_of(text: &[u8]) -> Head
    ensures { IsHead text.now result }
{
    let known = word_front(text);
    if known < WORD.len() {
        return if known == text.len() {
            Head::Torn
        } else {
            Head::Wrong(known)
        };
    }
    size_line(text)
}

// How many of the first bytes are those of the word.
fn word_front(text: &[u8]) -> usize
    ensures most { result ≤ 6 }
    ensures inside { result ≤ length text.now }
    ensures same { take result text.now ≡ take result (codes "block ") }
    ensures next { result < 6 → result < length text.now → get_or text.now result 0 ≢ get_or (codes "block ") result 0 }
{
    let mut known = 0;
    while known < WORD.len() && known < text.len() && text[known] == WORD[known] {
        known += 1;
    }
    known
}

// The line of a text that begins with the word.
fn size_line(text: &[u8]) -> Head
    requires inside { 6 ≤ length text.now }
    requires word { take 6 text.now ≡ codes "block " }
    ensures { IsHead text.now result }
{
    let mut size = 0;
    let mut place = 6;
    while place < text.len() {
        if text[place] == b'\n' && size > 0 {
            return Head::Whole(place + 1, size);
        }
        match size_of(&text[6..place + 1]) {
            Some(more) => size = more,
            None => return Head::Wrong(place),
        }
        place += 1;
    }
    Head::Torn
}

// The size whose digits these are: 1 to 2^63 - 1, with no leading zero.
fn size_of(digits: &[u8]) -> Option<u64>
    ensures some { IfSome result (λ n. IsSize n × (digits.now ≡ decimal n)) }
    ensures none { IfNone result (NoneTells decimal IsSize digits.now) }
{
    match number_of(digits) {
        Some(0) => None,
        Some(number) => Some(number),
        None => None,
    }
}

/// Appends a body as a block. Err where no memory is left, and then the text is as it was.
pub fn put_block(out: &mut Vec<u8>, body: &[u8]) -> Result<(), NoMemory>
    requires { 0 < length body.now }
    ensures whole { OnOk result (out.new.items ≡ out.old.items ++ block body.now) }
    ensures same { OnErr result (out.new.items ≡ out.old.items) }
{
    let mut buffer = Buffer::new();
    let digits = buffer.format(body.len() as u64).as_bytes();
    out.reserve(WORD.len() + digits.len() + 1 + body.len())?;
    append(out, WORD);
    append(out, digits);
    append(out, b"\n");
    append(out, body);
    Ok(())
}

// Appends bytes for which there is room.
fn append(out: &mut Vec<u8>, bytes: &[u8])
    requires { vec_len out.old + length bytes.now ≤ vec_capacity out.old }
    ensures is { out.new.items ≡ out.old.items ++ bytes.now }
    ensures len { vec_len out.new ≡ vec_len out.old + length bytes.now }
    ensures room { vec_capacity out.old ≤ vec_capacity out.new }
{
    match out.extend_from_slice(bytes) {
        Ok(()) => (),
        Err(_) => unreachable!(),
    }
}
