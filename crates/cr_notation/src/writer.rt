//! The one spelling that is written.

ghost use Rattle.std.specs.Prelude.{◌≡◌, ◌≤◌, ◌++◌, [], ◌∷◌, length, IfOk, OnOk, All, string_bytes, ◌&&◌, map};
ghost use Rattle.cr_row.specs.Rows.{IsChange};
ghost use Rattle.cr_row.specs.Symbols.{symbol_of};
ghost use Rattle.cr_notation.specs.Writing.{has_places, dot_if};
ghost use Rattle.cr_model.specs.Notation.{Spells};
ghost use Rattle.cr_model.specs.Limits.{most_lead_changes};
ghost use Rattle.cr_model.specs.NotationTexts.{places_text, canonical_text};

use cr_row::{Change, NoMemory, Stage, symbol};
use std::alloc::Global;

/// The text of 1 to 128 changes, all of one stage. It has no comma. A change without places is `x`,
/// every other names all its places, and one dot stands between two changes with places and nowhere else.
pub fn write_notation(alloc: Global, stage: Stage, changes: &[Change]) -> Result<String, NoMemory>
    requires at_least { 1 ≤ length changes.now }
    requires at_most { length changes.now ≤ most_lead_changes }
    requires stages { All (λ change. change.stage ≡ stage) changes.now }
    ensures text { IfOk result (λ text. string_bytes text ≡ canonical_text changes.now) }
    ensures spells { IfOk result (λ text. Spells stage (string_bytes text) changes.now) }
{
    let last = stage.number();
    let mut text = String::new(alloc);
    let mut after_places = false;
    for change in changes {
        after_places = push_change(&mut text, after_places, change, last)?;
    }
    Ok(text)
}

// Appends the text of one change, behind a dot where it and the one before make places. Says whether it makes places.
#[tactic(auto, using(crate::proofs::Written::with_places, crate::proofs::Written::without_places))]
fn push_change(
    text: &mut String,
    after_places: bool,
    change: &Change,
    last: u8,
) -> Result<bool, NoMemory>
    requires last { last ≡ change.now.stage }
    requires few { last ≤ 16 }
    ensures some { IfOk result (λ some. some ≡ has_places change.now.made) }
    ensures text { OnOk result (string_bytes text.new ≡
        (string_bytes text.old ++ dot_if (after_places && has_places change.now.made)) ++ places_text change.now.made) }
    ensures is_change { OnOk result (IsChange change.now) }
{
    if !makes_some(change) {
        text.push('x')?;
        return Ok(false);
    }
    push_dot(text, after_places)?;
    push_places(text, change, last)?;
    Ok(true)
}

// Whether a change makes a place.
fn makes_some(change: &Change) -> bool
    ensures is { result ≡ has_places change.now.made }
    ensures is_change { IsChange change.now }
{
    for place in 1..change.stage().number() + 1 {
        if change.makes(place) {
            return true;
        }
    }
    false
}

// Appends a dot where one is needed.
fn push_dot(text: &mut String, needed: bool) -> Result<(), NoMemory>
    ensures { OnOk result (string_bytes text.new ≡ string_bytes text.old ++ dot_if needed) }
{
    if needed {
        text.push('.')?;
    }
    Ok(())
}

// Appends the symbols of the places that a change makes, from 1 to the last place.
fn push_places(text: &mut String, change: &Change, last: u8) -> Result<(), NoMemory>
    requires last { last ≡ change.now.stage }
    requires few { last ≤ 16 }
    requires is_change { IsChange change.now }
    ensures { OnOk result (string_bytes text.new ≡ string_bytes text.old ++ map symbol_of change.now.made) }
{
    for place in 1..last + 1 {
        if change.makes(place) {
            push_symbol(text, place)?;
        }
    }
    Ok(())
}

// Appends the symbol of a place.
#[tactic(auto, using(crate::proofs::Signs::symbol_low, std::proofs::lemmas::Str::encode_ascii))]
fn push_symbol(text: &mut String, place: u8) -> Result<(), NoMemory>
    requires from { 1 ≤ place }
    requires to { place ≤ 16 }
    ensures { OnOk result (string_bytes text.new ≡ string_bytes text.old ++ symbol_of place ∷ []) }
{
    text.push(char::from(symbol(place)))?;
    Ok(())
}
