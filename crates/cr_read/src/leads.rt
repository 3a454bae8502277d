//! The leads of a problem file, in the order of the steps.

ghost use Rattle.std.specs.Prelude.{◌≡◌, ◌<◌, ◌≤◌, ◌++◌, nat_eq, ◌&&◌, length, IfOk, IfSome};
ghost use Rattle.cr_model.specs.ProblemFiles.{letters_of, mark_at, is_for, call_with, called_spelling, called_lead};
ghost use Rattle.cr_model.specs.ProblemFiles.{leads_of_method, leads_of, lead_from, spelling_at};
ghost use Rattle.cr_model.specs.Right.{plain};
ghost use Rattle.cr_read.specs.Reading.{HasSpellings};

use crate::calls::{changes_spelled, is_for, mark_of, replaced};
use crate::file_parts::File;
use crate::spellings::Spellings;
use cr_model::{Lead, PLAIN, Step};
use cr_row::{Change, NoMemory};
use std::alloc::{AllocError, Global};

// Whether a call has the mark and is for the method.
fn is_called(file: &File, letters: &[u8], method: usize, mark: u8, call: usize) -> bool
    requires is { letters.now ≡ letters_of file.now }
    requires known { call < length file.now.calls }
    requires there { method < length file.now.methods }
    ensures { result ≡ (nat_eq (mark_at file.now call) mark && is_for file.now call method) }
{
    if mark_of(file, call) == mark {
        is_for(file, letters, call, method)
    } else {
        false
    }
}

// The call for a method with a mark.
fn call_with(file: &File, letters: &[u8], method: usize, mark: u8) -> Option<usize>
    requires is { letters.now ≡ letters_of file.now }
    requires there { method < length file.now.methods }
    ensures is { result ≡ call_with file.now method mark }
    ensures known { IfSome result (λ call. call < length file.now.calls) }
{
    for call in 0..file.call_count() {
        if is_called(file, letters, method, mark, call) {
            return Some(call);
        }
    }
    None
}

// The changes of a call on a method.
fn called_changes(
    alloc: Global,
    file: &File,
    spellings: &Spellings,
    call: usize,
    method: usize,
) -> Result<Vec<Change>, AllocError>
    requires known { call < length file.now.calls }
    requires there { method < length file.now.methods }
    requires has_spellings { HasSpellings file.now spellings.now }
    ensures { IfOk result (λ changes. changes.items ≡ called_spelling file.now spellings.now call method) }
{
    let rung = changes_spelled(&spellings.methods, method);
    let over = replaced(file, spellings, call).min(rung.len() as u64) as usize;
    let mut changes = rung[..rung.len() - over].to_vec(alloc)?;
    changes.extend_from_slice(changes_spelled(&spellings.calls, call))?;
    Ok(changes)
}

fn plain_lead(alloc: Global, spellings: &Spellings, method: usize) -> Result<Lead, AllocError>
    requires few { method < 256 }
    requires there { method < length spellings.now.methods }
    ensures { IfOk result (λ lead. lead ≡ lead_from method plain (spelling_at spellings.now.methods method)) }
{
    let changes = changes_spelled(&spellings.methods, method).to_vec(alloc)?;
    Ok(Lead {
        step: Step {
            method: method as u8,
            mark: PLAIN,
        },
        changes,
    })
}

fn called_lead(
    alloc: Global,
    file: &File,
    spellings: &Spellings,
    call: usize,
    method: usize,
    mark: u8,
) -> Result<Lead, AllocError>
    requires few { method < 256 }
    requires known { call < length file.now.calls }
    requires there { method < length file.now.methods }
    requires has_spellings { HasSpellings file.now spellings.now }
    ensures { IfOk result (λ lead. lead ≡ lead_from method mark (called_spelling file.now spellings.now call method)) }
{
    let changes = called_changes(alloc, file, spellings, call, method)?;
    Ok(Lead {
        step: Step {
            method: method as u8,
            mark,
        },
        changes,
    })
}

// Adds the lead of a method with a mark, if there is a call for it.
fn add_called(
    alloc: Global,
    file: &File,
    letters: &[u8],
    spellings: &Spellings,
    method: usize,
    mark: u8,
    leads: &mut Vec<Lead>,
) -> Result<(), NoMemory>
    requires is { letters.now ≡ letters_of file.now }
    requires few { method < 256 }
    requires there { method < length file.now.methods }
    requires has_spellings { HasSpellings file.now spellings.now }
    ensures { IfOk result (λ _. leads.new.items ≡ leads.old.items
        ++ called_lead file.now spellings.now method mark (call_with file.now method mark)) }
{
    if let Some(call) = call_with(file, letters, method, mark) {
        leads.push(called_lead(alloc, file, spellings, call, method, mark)?)?;
    }
    Ok(())
}

// Adds the leads of a method.
fn add_method(
    alloc: Global,
    file: &File,
    letters: &[u8],
    spellings: &Spellings,
    method: usize,
    leads: &mut Vec<Lead>,
) -> Result<(), NoMemory>
    requires is { letters.now ≡ letters_of file.now }
    requires few { method < 256 }
    requires there { method < length file.now.methods }
    requires has_spellings { HasSpellings file.now spellings.now }
    ensures { IfOk result (λ _. leads.new.items ≡ leads.old.items ++ leads_of_method file.now spellings.now method) }
{
    leads.push(plain_lead(alloc, spellings, method)?)?;
    for mark in b'a'..b'z' + 1 {
        add_called(alloc, file, letters, spellings, method, mark, leads)?;
    }
    Ok(())
}

/// The leads of all methods.
pub fn leads_of(
    alloc: Global,
    file: &File,
    letters: &[u8],
    spellings: &Spellings,
) -> Result<Vec<Lead>, NoMemory>
    requires is { letters.now ≡ letters_of file.now }
    requires few { length file.now.methods ≤ 256 }
    requires has_spellings { HasSpellings file.now spellings.now }
    ensures { IfOk result (λ leads. leads.items ≡ leads_of file.now spellings.now) }
{
    let mut leads = Vec::new(alloc);
    for method in 0..file.method_count() {
        add_method(alloc, file, letters, spellings, method, &mut leads)?;
    }
    Ok(leads)
}
