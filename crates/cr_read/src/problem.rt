//! The problem that the values of a file make.

ghost use Rattle.std.specs.Prelude.{◌≡◌, ◌≤◌, length, MatchResult};
ghost use Rattle.cr_model.specs.Sound.{IsSound};
ghost use Rattle.cr_model.specs.ProblemFiles.{Makes, CallsPass, letters_of};
ghost use Rattle.cr_read.specs.Reading.{Refused, IsLater, file_fault};

use crate::calls::check_calls;
use crate::file_parts::File;
use crate::leads::leads_of;
use crate::letters::{check_letters, letters_of};
use crate::query::query_of;
use crate::spellings::{Spellings, read_spellings};
use cr_model::{PartFault, Problem, ProblemFault};
use cr_row::Stage;
use std::alloc::Global;

// The fault of a file whose values make parts with this fault.
fn fault_of(why: PartFault) -> ProblemFault
    requires { IsLater why }
    ensures { result ≡ file_fault why }
{
    match why {
        PartFault::Letters(_) | PartFault::Leads(_) => unreachable!(),
        PartFault::Steps(number) => ProblemFault::Steps(number),
        PartFault::Range(low, high) => ProblemFault::Range(low, high),
        PartFault::Deep(depth) => ProblemFault::Deep(depth),
        PartFault::Parts(parts) => ProblemFault::Parts(parts),
        PartFault::Count(at) => ProblemFault::Count(at),
        PartFault::Pattern(index) => ProblemFault::Pattern(index),
        PartFault::Com => ProblemFault::Com,
    }
}

// The parts of the problem, made into it.
fn made(
    alloc: Global,
    file: &File,
    letters: Vec<u8>,
    stage: Stage,
    spellings: &Spellings,
) -> Result<Problem, ProblemFault>
    requires some { 1 ≤ length file.now.methods }
    requires letters { letters.items ≡ letters_of file.now }
    requires passes { CallsPass file.now stage spellings.now }
    ensures { MatchResult result (λ p. Makes file.now p × IsSound p) (Refused file.now) }
{
    let leads = leads_of(alloc, file, &letters, spellings)?;
    let query = query_of(alloc, file)?;
    match Problem::new(stage, letters, leads, query) {
        Ok(problem) => Ok(problem),
        Err(why) => Err(fault_of(why)),
    }
}

/// The problem that the values of a file make, or the first check that does not hold.
pub fn problem_of(alloc: Global, file: &File) -> Result<Problem, ProblemFault>
    requires { 1 ≤ length file.now.methods }
    ensures { MatchResult result (λ p. Makes file.now p × IsSound p) (Refused file.now) }
{
    let letters = letters_of(alloc, file)?;
    let stage = check_letters(file, &letters)?;
    let spellings = read_spellings(alloc, stage, file)?;
    check_calls(file, &letters, &spellings)?;
    made(alloc, file, letters, stage, &spellings)
}
