//! Lines of a log as they are read, before their nodes are.

ghost use Rattle.std.specs.Prelude.{◌≡◌, ℕ, List, ◌∷◌, ◌++◌, codes, IfSome, IfNone};
ghost use Rattle.cr_model.specs.Texts.{IsNumber, Lacks, NoneTells, named};
ghost use Rattle.cr_audit.specs.declared.verdict.Verdict.{Verdict};
ghost use Rattle.cr_audit.specs.Logs.{item_text, verdict_text, ItemIsSmall, IsSmall};
ghost use Rattle.cr_audit.specs.Reads.{item_after, raw_text, IsRaw};
ghost use Rattle.cr_audit.specs.Texts.{two, two_named, NeverTwo};

use crate::digits::number_of;
use crate::verdict::{Item, Verdict};

/// The node's text and the verdict of the text's first line, and what comes after that line.
pub fn take_line(text: &[u8]) -> Option<((&[u8], Verdict), &[u8])>
    ensures some { IfSome result (λ x. IsRaw x.0.0.now x.0.1 × (text.now ≡ raw_text x.0.0.now x.0.1 ++ 10 ∷ x.1.now)) }
    ensures none { IfNone result ((node : List ℕ) (why : Verdict) (more : List ℕ) → IsRaw node why → text.now ≡ raw_text node why ++ 10 ∷ more → ⊥) }
{
    let (line, rest) = split_at_byte(text, b'\n')?;
    let raw = raw_of(line)?;
    Some((raw, rest))
}

/// The verdict of the text's first line, and what comes after that line, where the line is this node's. None else, or where
/// it is no line.
pub fn take_verdict<'a>(text: &'a [u8], node: &[u8]) -> Option<(Verdict, &'a [u8])>
    ensures { IfSome result (λ x. IsSmall x.0 × (text.now ≡ raw_text node.now x.0 ++ 10 ∷ x.1.now)) }
{
    let behind = after_word(text, node)?;
    let words = after_word(behind, b" ")?;
    let (verdict, rest) = split_at_byte(words, b'\n')?;
    let why = verdict_of(verdict)?;
    Some((why, rest))
}

// The node's text and the verdict of a line without its line feed.
fn raw_of(line: &[u8]) -> Option<(&[u8], Verdict)>
    ensures some { IfSome result (λ x. (Lacks 32 x.0.now × IsSmall x.1) × (line.now ≡ raw_text x.0.now x.1)) }
    ensures none { IfNone result ((node : List ℕ) (why : Verdict) → IsRaw node why → line.now ≡ raw_text node why → ⊥) }
{
    let (node, text) = split_at_byte(line, b' ')?;
    let why = verdict_of(text)?;
    Some((node, why))
}

// The verdict of this text.
fn verdict_of(text: &[u8]) -> Option<Verdict>
    ensures some { IfSome result (λ why. IsSmall why × (text.now ≡ verdict_text why)) }
    ensures none { IfNone result (NoneTells verdict_text IsSmall text.now) }
{
    if let Some(why) = plain_verdict(text) {
        return Some(why);
    }
    if let Some(why) = placed_verdict(text) {
        return Some(why);
    }
    item_verdict(text)
}

// The verdict without numbers.
fn plain_verdict(text: &[u8]) -> Option<Verdict>
    ensures some { IfSome result (λ why. IsSmall why × (text.now ≡ verdict_text why)) }
    ensures none { IfNone result ((text.now ≡ codes "open" → ⊥) × (text.now ≡ codes "long" → ⊥)) }
{
    if text == b"open".as_slice() {
        return Some(Verdict::Open);
    }
    if text == b"long".as_slice() {
        return Some(Verdict::Long);
    }
    None
}

// The verdict with places of rows or steps.
fn placed_verdict(text: &[u8]) -> Option<Verdict>
    ensures some { IfSome result (λ why. IsSmall why × (text.now ≡ verdict_text why)) }
    ensures none { IfNone result (NeverTwo (codes "again ") text.now
        × (NoneTells (named (codes "home ")) IsNumber text.now × NoneTells (named (codes "back ")) IsNumber text.now)) }
{
    if let Some((first, again)) = two_after(text, b"again ") {
        return Some(Verdict::Again(first, again));
    }
    if let Some(place) = number_after(text, b"home ") {
        return Some(Verdict::Home(place));
    }
    let step = number_after(text, b"back ")?;
    Some(Verdict::Back(step))
}

// The verdict with an item of the query.
fn item_verdict(text: &[u8]) -> Option<Verdict>
    ensures some { IfSome result (λ why. IsSmall why × (text.now ≡ verdict_text why)) }
    ensures none { IfNone result (NoneTells (item_after (codes "many ")) ItemIsSmall text.now
        × NoneTells (item_after (codes "few ")) ItemIsSmall text.now) }
{
    if let Some(item) = item_behind(text, b"many ") {
        return Some(Verdict::Many(item));
    }
    let item = item_behind(text, b"few ")?;
    Some(Verdict::Few(item))
}

// The item after a word.
fn item_behind(text: &[u8], word: &[u8]) -> Option<Item>
    ensures some { IfSome result (λ of. ItemIsSmall of × (text.now ≡ item_after word.now of)) }
    ensures none { IfNone result (NoneTells (item_after word.now) ItemIsSmall text.now) }
{
    let rest = after_word(text, word)?;
    item_of(rest)
}

// The item of this text.
fn item_of(text: &[u8]) -> Option<Item>
    ensures some { IfSome result (λ of. ItemIsSmall of × (text.now ≡ item_text of)) }
    ensures none { IfNone result (NoneTells item_text ItemIsSmall text.now) }
{
    if text == b"com".as_slice() {
        return Some(Item::Com);
    }
    if let Some(index) = number_after(text, b"count ") {
        return Some(Item::Count(index));
    }
    if let Some(index) = number_after(text, b"leads ") {
        return Some(Item::Leads(index));
    }
    let index = number_after(text, b"rows ")?;
    Some(Item::Rows(index))
}

// Two numbers with a space between them, after a word.
fn two_after(text: &[u8], word: &[u8]) -> Option<(u64, u64)>
    ensures some { IfSome result (λ x. (IsNumber x.0 × IsNumber x.1) × (text.now ≡ two_named word.now x.0 x.1)) }
    ensures none { IfNone result (NeverTwo word.now text.now) }
{
    let numbers = after_word(text, word)?;
    two_of(numbers)
}

// Two numbers with a space between them.
fn two_of(numbers: &[u8]) -> Option<(u64, u64)>
    ensures some { IfSome result (λ x. (IsNumber x.0 × IsNumber x.1) × (numbers.now ≡ two x.0 x.1)) }
    ensures none { IfNone result ((m n : ℕ) → IsNumber m → IsNumber n → numbers.now ≡ two m n → ⊥) }
{
    let (first, second) = split_at_byte(numbers, b' ')?;
    let one = number_of(first)?;
    let other = number_of(second)?;
    Some((one, other))
}

// The number after a word.
fn number_after(text: &[u8], word: &[u8]) -> Option<u64>
    ensures some { IfSome result (λ n. IsNumber n × (text.now ≡ named word.now n)) }
    ensures none { IfNone result (NoneTells (named word.now) IsNumber text.now) }
{
    let digits = after_word(text, word)?;
    number_of(digits)
}

// What stands before the first such byte, and what comes after it; None where it does not stand there.
fn split_at_byte(text: &[u8], byte: u8) -> Option<(&[u8], &[u8])>
    ensures some { IfSome result (λ x. Lacks byte x.0.now × (text.now ≡ x.0.now ++ byte ∷ x.1.now)) }
    ensures none { IfNone result (Lacks byte text.now) }
{
    for place in 0..text.len() {
        if text[place] == byte {
            return Some((&text[..place], &text[place + 1..]));
        }
    }
    None
}

/// What comes after a word that the text begins with.
pub fn after_word<'a>(text: &'a [u8], word: &[u8]) -> Option<&'a [u8]>
    ensures some { IfSome result (λ rest. text.now ≡ word.now ++ rest.now) }
    ensures none { IfNone result ((rest : List ℕ) → text.now ≡ word.now ++ rest → ⊥) }
{
    text.strip_prefix(word)
}
