//! The changes that notations spell.

ghost use Rattle.std.specs.Prelude.{◌≡◌, ◌<◌, ◌⊎◌, List, [], length, get_or, MatchResult};
ghost use Rattle.std.specs.List.{AllZip};
ghost use Rattle.cr_model.specs.Notation.{Spells};
ghost use Rattle.cr_model.specs.NotationFaults.{FirstFault};
ghost use Rattle.cr_model.specs.declared.notation.NotationFault.{NotationFault};
ghost use Rattle.cr_model.specs.declared.file_fault.ProblemFault.TheVariants as fault;
ghost use Rattle.cr_model.specs.ProblemFiles.{method_texts, call_texts, MethodsSpell, CallsSpell, LettersPass};
ghost use Rattle.cr_read.specs.Reading.{Refused, HasSpellings};

use crate::file_parts::File;
use cr_model::{NotationFault, ProblemFault, Whose};
use cr_notation::read_notation;
use cr_row::{Change, Stage};
use std::alloc::Global;
use std::marker::Model;

/// The changes that a notation spells. Contracts see their list.
#[derive(Drop)]
pub struct Spelling {
    pub changes: Vec<Change>,
}

impl Model for Spelling {
    ghost use Rattle.std.specs.Prelude.{List};
    ghost use Rattle.cr_row.specs.Rows.{Places};

    ghost Value = { List Places };

    ghost view = { λ spelling. spelling.changes.items };
}

/// The changes of the methods and of the calls.
#[derive(Drop)]
pub struct Spellings {
    pub methods: Vec<Spelling>,
    pub calls: Vec<Spelling>,
}

impl Model for Spellings {
    ghost use Rattle.cr_model.specs.ProblemFiles.{Spellings as Parts};

    ghost Value = { Parts };

    ghost view = { λ spellings. record { methods = spellings.methods.items; calls = spellings.calls.items } };
}

// The changes of a notation.
fn spelling_of(
    alloc: Global,
    stage: Stage,
    text: &str,
    whose: Whose,
) -> Result<Spelling, ProblemFault>
    ensures { MatchResult result (Spells stage text.now) (λ why. (why ≡ fault.NoMemory)
        ⊎ ((first : NotationFault) × (why ≡ fault.Notation whose first) × FirstFault stage text.now first)) }
{
    match read_notation(alloc, stage, text) {
        Ok(changes) => Ok(Spelling { changes }),
        Err(NotationFault::NoMemory) => Err(ProblemFault::NoMemory),
        Err(why) => Err(ProblemFault::Notation(whose, why)),
    }
}

// The notation of a method.
#[tactic(auto, using(crate::proofs::Spelled::method_text_is))]
fn method_notation<'a>(file: &File<'a>, index: usize) -> &'a str
    requires { index < length file.now.methods }
    ensures { result.now ≡ get_or (method_texts file.now) index [] }
{
    let method = &file.methods[index];
    method.notation
}

// The notation of a call.
#[tactic(auto, using(crate::proofs::Spelled::call_text_is))]
fn call_notation<'a>(file: &File<'a>, index: usize) -> &'a str
    requires { index < length file.now.calls }
    ensures { result.now ≡ get_or (call_texts file.now) index [] }
{
    let call = &file.calls[index];
    call.notation
}

fn spellings_of_methods(
    alloc: Global,
    stage: Stage,
    file: &File,
) -> Result<Vec<Spelling>, ProblemFault>
    requires { LettersPass file.now stage }
    ensures { MatchResult result (λ spellings. MethodsSpell file.now stage spellings.items) (Refused file.now) }
{
    let mut spellings = Vec::new(alloc);
    for index in 0..file.method_count() {
        let text = method_notation(file, index);
        spellings.push(spelling_of(alloc, stage, text, Whose::Method(index as u64))?)?;
    }
    Ok(spellings)
}

fn spellings_of_calls(
    alloc: Global,
    stage: Stage,
    file: &File,
    methods: Vec<Spelling>,
) -> Result<Spellings, ProblemFault>
    requires { MethodsSpell file.now stage methods.items }
    ensures { MatchResult result (CallsSpell file.now stage) (Refused file.now) }
{
    let mut calls = Vec::new(alloc);
    for index in 0..file.call_count() {
        let text = call_notation(file, index);
        calls.push(spelling_of(alloc, stage, text, Whose::Call(index as u64))?)?;
    }
    Ok(Spellings { methods, calls })
}

/// The changes of the methods, then of the calls.
pub fn read_spellings(alloc: Global, stage: Stage, file: &File) -> Result<Spellings, ProblemFault>
    requires { LettersPass file.now stage }
    ensures { MatchResult result (CallsSpell file.now stage) (Refused file.now) }
{
    let methods = spellings_of_methods(alloc, stage, file)?;
    spellings_of_calls(alloc, stage, file, methods)
}
