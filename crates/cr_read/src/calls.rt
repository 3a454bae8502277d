//! The checks of the calls: what they replace, their marks, their lengths, and that no two clash.

ghost use Rattle.std.specs.Prelude.{◌≡◌, ◌≢◌, ℕ, ◌<◌, ◌≤◌, ◌↔◌, ◌+◌, ◌-◌, true, length, get_or, IsTrue, IfSome};
ghost use Rattle.std.specs.Prelude.{MatchOption, MatchResult, unwrap_or};
ghost use Rattle.cr_model.specs.Checks.{IsFirstWrong, TellsFirst};
ghost use Rattle.cr_model.specs.ProblemFiles.{letters_of, call_at, mark_at, is_named, is_for, spelling_at, over_at};
ghost use Rattle.cr_model.specs.ProblemFiles.{called_spelling, OverIsRight, MarkIsRight, Fits, FitsAll, AreApart};
ghost use Rattle.cr_model.specs.ProblemFiles.{Suits, ShareNoMethod, IsApart};
ghost use Rattle.cr_model.specs.ProblemFiles.{CallsSpell, CallsPass, IsFileFault};
ghost use Rattle.cr_read.specs.Reading.{HasSpellings};

use crate::file_parts::{CallText, File};
use crate::keys::stands_in;
use crate::letters::byte_of;
use crate::spellings::{Spelling, Spellings};
use cr_model::ProblemFault;
use cr_model::limits::MOST_LEAD_CHANGES;
use cr_row::Change;

// A call, by its index.
#[tactic(auto, using(crate::proofs::CallFacts::call_is))]
fn call_at<'a, 'b>(file: &'b File<'a>, call: usize) -> &'b CallText<'a>
    requires { call < length file.now.calls }
    ensures { result.now ≡ call_at file.now call }
{
    &file.calls[call]
}

/// A call's mark.
pub fn mark_of(file: &File, call: usize) -> u8
    requires { call < length file.now.calls }
    ensures { result ≡ mark_at file.now call }
{
    let text = call_at(file, call);
    byte_of(text.mark)
}

// How many changes a call replaces, if it says so.
fn over_of(file: &File, call: usize) -> Option<i64>
    requires { call < length file.now.calls }
    ensures { result ≡ (call_at file.now call).over }
{
    let text = call_at(file, call);
    text.over
}

// Whether a call is for the method with the letter.
fn is_named(call: &CallText, letter: u8) -> bool
    ensures { result ≡ is_named call.now.methods letter }
{
    match call.methods {
        Some(letters) => stands_in(letters.as_bytes(), letter),
        None => true,
    }
}

/// Whether a call is for a method.
pub fn is_for(file: &File, letters: &[u8], call: usize, method: usize) -> bool
    requires is { letters.now ≡ letters_of file.now }
    requires known { call < length file.now.calls }
    requires there { method < length letters.now }
    ensures { result ≡ is_for file.now call method }
{
    is_named(call_at(file, call), letters[method])
}

fn over_is_right(file: &File, call: usize) -> bool
    requires { call < length file.now.calls }
    ensures { IsTrue result ↔ OverIsRight file.now call }
{
    match over_of(file, call) {
        Some(over) => 0 <= over && over <= MOST_LEAD_CHANGES as i64,
        None => true,
    }
}

// The first call whose `over` is wrong.
fn wrong_over(file: &File) -> Option<u64>
    ensures { TellsFirst (OverIsRight file.now) (length file.now.calls) result }
{
    for call in 0..file.call_count() {
        if !over_is_right(file, call) {
            return Some(call as u64);
        }
    }
    None
}

fn mark_is_right(mark: u8) -> bool
    ensures { IsTrue result ↔ MarkIsRight mark }
{
    b'a' <= mark && mark <= b'z' && mark != b'p'
}

// The first call whose mark is wrong.
fn wrong_mark(file: &File) -> Option<u64>
    ensures { TellsFirst (λ i. MarkIsRight (mark_at file.now i)) (length file.now.calls) result }
{
    for call in 0..file.call_count() {
        if !mark_is_right(mark_of(file, call)) {
            return Some(call as u64);
        }
    }
    None
}

/// The changes of a spelling, by its index.
#[tactic(auto, using(crate::proofs::CallFacts::spelling_is))]
pub fn changes_spelled(spellings: &[Spelling], index: usize) -> &[Change]
    requires { index < length spellings.now }
    ensures { result.now ≡ spelling_at spellings.now index }
{
    let spelling = &spellings[index];
    spelling.changes.as_slice()
}

/// How many changes a call replaces.
pub fn replaced(file: &File, spellings: &Spellings, call: usize) -> u64
    requires known { call < length file.now.calls }
    requires has_spellings { HasSpellings file.now spellings.now }
    ensures { result ≡ unwrap_or (over_at file.now call) (length (spelling_at spellings.now.calls call)) }
{
    match over_of(file, call) {
        Some(over) => over.unsigned_abs(),
        None => changes_spelled(&spellings.calls, call).len() as u64,
    }
}

// Whether a call replaces no more changes than a method has, and gives a lead of at most 128.
#[tactic(auto, using(crate::proofs::CallFacts::called_length))]
fn fits(file: &File, spellings: &Spellings, call: usize, method: usize) -> bool
    requires known { call < length file.now.calls }
    requires there { method < length file.now.methods }
    requires has_spellings { HasSpellings file.now spellings.now }
    ensures { IsTrue result ↔ Fits file.now spellings.now call method }
{
    let over = replaced(file, spellings, call);
    let rung = changes_spelled(&spellings.methods, method).len() as u64;
    let added = changes_spelled(&spellings.calls, call).len() as u64;
    let most = MOST_LEAD_CHANGES as u64;
    over <= rung && added <= most && rung - over <= most - added
}

// Whether a call fits a method, if it is for it.
fn suits(file: &File, letters: &[u8], spellings: &Spellings, call: usize, method: usize) -> bool
    requires is { letters.now ≡ letters_of file.now }
    requires known { call < length file.now.calls }
    requires there { method < length file.now.methods }
    requires has_spellings { HasSpellings file.now spellings.now }
    ensures { IsTrue result ↔ Suits file.now spellings.now call method }
{
    if is_for(file, letters, call, method) {
        fits(file, spellings, call, method)
    } else {
        true
    }
}

// The first method that a call is for and does not fit.
fn wrong_method(file: &File, letters: &[u8], spellings: &Spellings, call: usize) -> Option<u64>
    requires is { letters.now ≡ letters_of file.now }
    requires known { call < length file.now.calls }
    requires has_spellings { HasSpellings file.now spellings.now }
    ensures { TellsFirst (Suits file.now spellings.now call) (length file.now.methods) result }
{
    for method in 0..file.method_count() {
        if !suits(file, letters, spellings, call, method) {
            return Some(method as u64);
        }
    }
    None
}

// The first call that does not fit, and the first method that it does not fit.
fn wrong_length(file: &File, letters: &[u8], spellings: &Spellings) -> Option<(u64, u64)>
    requires is { letters.now ≡ letters_of file.now }
    requires has_spellings { HasSpellings file.now spellings.now }
    ensures { MatchOption result ((call : ℕ) → call < length file.now.calls → FitsAll file.now spellings.now call)
        (λ p. IsFirstWrong (FitsAll file.now spellings.now) (length file.now.calls) p.0
        × IsFirstWrong (Suits file.now spellings.now p.0) (length file.now.methods) p.1) }
{
    for call in 0..file.call_count() {
        if let Some(method) = wrong_method(file, letters, spellings, call) {
            return Some((call as u64, method));
        }
    }
    None
}

// Whether two calls are for no method in common.
fn share_no_method(file: &File, letters: &[u8], first: usize, second: usize) -> bool
    requires is { letters.now ≡ letters_of file.now }
    requires one { first < length file.now.calls }
    requires other { second < length file.now.calls }
    ensures { IsTrue result ↔ ShareNoMethod file.now first second }
{
    for method in 0..file.method_count() {
        if is_for(file, letters, first, method) && is_for(file, letters, second, method) {
            return false;
        }
    }
    true
}

// Whether two calls have no mark and method in common.
fn are_apart(file: &File, letters: &[u8], first: usize, second: usize) -> bool
    requires is { letters.now ≡ letters_of file.now }
    requires one { first < length file.now.calls }
    requires other { second < length file.now.calls }
    ensures { IsTrue result ↔ AreApart file.now first second }
{
    if mark_of(file, first) == mark_of(file, second) {
        share_no_method(file, letters, first, second)
    } else {
        true
    }
}

// The first earlier call that a call clashes with.
fn clashing(file: &File, letters: &[u8], second: usize) -> Option<u64>
    requires is { letters.now ≡ letters_of file.now }
    requires known { second < length file.now.calls }
    ensures { TellsFirst (λ i. AreApart file.now i second) second result }
{
    for first in 0..second {
        if !are_apart(file, letters, first, second) {
            return Some(first as u64);
        }
    }
    None
}

// The first clash: the earlier call, and the later.
fn clash(file: &File, letters: &[u8]) -> Option<(u64, u64)>
    requires is { letters.now ≡ letters_of file.now }
    ensures { MatchOption result ((second : ℕ) → second < length file.now.calls → IsApart file.now second)
        (λ p. IsFirstWrong (IsApart file.now) (length file.now.calls) p.1
        × IsFirstWrong (λ i. AreApart file.now i p.1) p.1 p.0) }
{
    for second in 0..file.call_count() {
        if let Some(first) = clashing(file, letters, second) {
            return Some((first, second as u64));
        }
    }
    None
}

/// Checks what the calls replace, then their marks, then their lengths, then that no two clash.
pub fn check_calls(file: &File, letters: &[u8], spellings: &Spellings) -> Result<(), ProblemFault>
    requires is { letters.now ≡ letters_of file.now }
    requires has_spellings { HasSpellings file.now spellings.now }
    ensures { (n : ℕ) → CallsSpell file.now n spellings.now →
        MatchResult result (λ _. CallsPass file.now n spellings.now) (IsFileFault file.now) }
{
    if let Some(call) = wrong_over(file) {
        return Err(ProblemFault::Over(call));
    }
    if let Some(call) = wrong_mark(file) {
        return Err(ProblemFault::Mark(call));
    }
    if let Some((call, method)) = wrong_length(file, letters, spellings) {
        return Err(ProblemFault::CallLength(call, method));
    }
    if let Some((first, second)) = clash(file, letters) {
        return Err(ProblemFault::Clash(first, second));
    }
    Ok(())
}
