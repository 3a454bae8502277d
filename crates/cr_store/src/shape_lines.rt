//! The lines of a checkpoint, as its shape is read.

ghost use Rattle.std.specs.Prelude.{◌≡◌, ℕ, ◌↔◌, List, ◌∷◌, ◌++◌, codes, decimal, IsTrue, IfSome, IfNone};
ghost use Rattle.std.specs.List.{list_all};
ghost use Rattle.cr_model.specs.Texts.{IsNumber, Lacks, NoneTells, named};
ghost use Rattle.cr_store.specs.Shapes.{AreSteps, AreLetters, IsFoundLine, IsNodeLine, found_text, node_text};
ghost use Rattle.cr_store.specs.Shapes.{is_letter as letter_test};
ghost use Rattle.cr_store.specs.ShapeReads.{found_parts, node_parts};
ghost use Rattle.cr_store.specs.ShapeSteps.{NoneBegins, found_body, node_body};

use crate::shape::{FoundLine, NodeLine};
use crate::shape_numbers::number_of;

/// What stands before the first such byte, and what comes after it; None where it does not stand there.
pub fn split_at_byte(text: &[u8], byte: u8) -> Option<(&[u8], &[u8])>
    ensures some { IfSome result (λ x. Lacks byte x.0.now × (text.now ≡ x.0.now ++ byte ∷ x.1.now)) }
    ensures none { IfNone result (Lacks byte text.now) }
{
    for place in 0..text.len() {
        if text[place] == byte {
            return Some((&text[..place], &text[place + 1..]));
        }
    }
    None
}

/// What comes after a word that the text begins with.
pub fn after_word<'a>(text: &'a [u8], word: &[u8]) -> Option<&'a [u8]>
    ensures some { IfSome result (λ rest. text.now ≡ word.now ++ rest.now) }
    ensures none { IfNone result ((rest : List ℕ) → text.now ≡ word.now ++ rest → ⊥) }
{
    text.strip_prefix(word)
}

/// The number of a line that has a word and a number, and what comes after that line.
pub fn take_number<'a>(text: &'a [u8], word: &[u8]) -> Option<(u64, &'a [u8])>
    requires { Lacks 10 word.now }
    ensures some { IfSome result (λ x. IsNumber x.0 × (text.now ≡ (named word.now x.0 ++ codes "\n") ++ x.1.now)) }
    ensures none { IfNone result (NoneBegins (λ n. named word.now n ++ codes "\n") IsNumber text.now) }
{
    let (line, rest) = split_at_byte(text, b'\n')?;
    let number = named_number(line, word)?;
    Some((number, rest))
}

// The number that stands after a word, and nothing else.
fn named_number(line: &[u8], word: &[u8]) -> Option<u64>
    ensures some { IfSome result (λ n. IsNumber n × (line.now ≡ named word.now n)) }
    ensures none { IfNone result (NoneTells (named word.now) IsNumber line.now) }
{
    let digits = after_word(line, word)?;
    number_of(digits)
}

fn is_letter(byte: u8) -> bool
    ensures { result ≡ letter_test byte }
{
    byte.is_ascii_alphabetic()
}

fn are_letters(text: &[u8]) -> bool
    ensures { IsTrue result ↔ AreLetters text.now }
{
    !text.is_empty() && all_letters(text)
}

fn all_letters(text: &[u8]) -> bool
    ensures { result ≡ list_all letter_test text.now }
{
    text.iter().all(|byte| is_letter(*byte))
}

fn are_steps(text: &[u8]) -> bool
    ensures { IsTrue result ↔ AreSteps text.now }
{
    text == b"-".as_slice() || are_letters(text)
}

/// What the text's first line says of a found touch, and what comes after that line.
pub fn take_found<'a>(text: &'a [u8]) -> Option<(FoundLine<'a>, &'a [u8])>
    ensures some { IfSome result (λ x. IsFoundLine (found_parts x.0) × (text.now ≡ found_text (found_parts x.0) ++ x.1.now)) }
    ensures none { IfNone result (NoneBegins found_text IsFoundLine text.now) }
{
    let (line, rest) = split_at_byte(text, b'\n')?;
    let found = found_of(line)?;
    Some((found, rest))
}

// A number, a space and letters.
fn found_of<'a>(line: &'a [u8]) -> Option<FoundLine<'a>>
    ensures some { IfSome result (λ found. IsFoundLine (found_parts found) × (line.now ≡ found_body (found_parts found))) }
    ensures none { IfNone result (NoneTells found_body IsFoundLine line.now) }
{
    let (digits, calling) = split_at_byte(line, b' ')?;
    let length = number_of(digits)?;
    if are_letters(calling) {
        Some(FoundLine { length, calling })
    } else {
        None
    }
}

/// What the text's first line says of a node, and what comes after that line.
pub fn take_node<'a>(version: u64, text: &'a [u8]) -> Option<(NodeLine<'a>, &'a [u8])>
    ensures some { IfSome result (λ x. IsNodeLine version (node_parts x.0) × (text.now ≡ node_text version (node_parts x.0) ++ x.1.now)) }
    ensures none { IfNone result (NoneBegins (node_text version) (IsNodeLine version) text.now) }
{
    let (line, rest) = split_at_byte(text, b'\n')?;
    let node = node_of(version, line)?;
    Some((node, rest))
}

// Steps alone in version 1, else a number, a space and steps.
fn node_of<'a>(version: u64, line: &'a [u8]) -> Option<NodeLine<'a>>
    ensures some { IfSome result (λ node. IsNodeLine version (node_parts node) × (line.now ≡ node_body version (node_parts node))) }
    ensures none { IfNone result (NoneTells (node_body version) (IsNodeLine version) line.now) }
{
    if version == 1 {
        whole_node(line)
    } else {
        shared_node(line)
    }
}

fn whole_node<'a>(line: &'a [u8]) -> Option<NodeLine<'a>>
    ensures some { IfSome result (λ node. IsNodeLine 1 (node_parts node) × (line.now ≡ node_body 1 (node_parts node))) }
    ensures none { IfNone result (NoneTells (node_body 1) (IsNodeLine 1) line.now) }
{
    if are_steps(line) {
        Some(NodeLine {
            shared: 0,
            steps: line,
        })
    } else {
        None
    }
}

fn shared_node<'a>(line: &'a [u8]) -> Option<NodeLine<'a>>
    ensures some { IfSome result (λ node. IsNodeLine 2 (node_parts node) × (line.now ≡ node_body 2 (node_parts node))) }
    ensures none { IfNone result (NoneTells (node_body 2) (IsNodeLine 2) line.now) }
{
    let (digits, steps) = split_at_byte(line, b' ')?;
    let shared = number_of(digits)?;
    if are_steps(steps) {
        Some(NodeLine { shared, steps })
    } else {
        None
    }
}
