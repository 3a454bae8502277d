//! Problem files, from their bytes.

ghost use Rattle.std.specs.Prelude.{◌≡◌, ◌≢◌, ◌⊎◌, [], Ok, Err, MatchResult, IfOk, IfErr};
ghost use Rattle.toml.specs.View.{view};
ghost use Rattle.cr_model.specs.Keys.{key_faults, members_in};
ghost use Rattle.cr_model.specs.Files.{Reads};
ghost use Rattle.cr_model.specs.declared.file_fault.ProblemFault.{ProblemFault};
ghost use Rattle.cr_model.specs.declared.file_fault.ProblemFault.TheVariants as fault;
ghost use Rattle.cr_model.specs.Problems.{ProblemParts};
ghost use Rattle.cr_model.specs.ProblemFiles.{ProblemFile, FirstProblemFault};
ghost use Rattle.cr_read.specs.Reading.{NotRead, NotFile, NotProblem};

use crate::file::file_of;
use crate::key_fault::KeyFault;
use crate::keys::check_keys;
use crate::laws::bytes_have_one_answer;
use crate::problem::problem_of;
use cr_model::{Problem, ProblemFault};
use std::alloc::Global;
use toml::Value;

// The table that the bytes are.
fn table_of(alloc: Global, bytes: &[u8]) -> Result<Value, ProblemFault>
    ensures { MatchResult result (λ root. Reads bytes.now (members_in (view root))) (NotRead bytes.now) }
{
    match toml::table_from_slice(alloc, bytes) {
        Ok(table) => Ok(Value::Table(table)),
        Err(error) => {
            if error.is_memory() {
                Err(ProblemFault::NoMemory)
            } else {
                Err(ProblemFault::NotToml)
            }
        }
    }
}

// The table, if each of its keys is right.
fn checked(alloc: Global, bytes: &[u8]) -> Result<Value, ProblemFault>
    ensures { MatchResult result (λ root. Reads bytes.now (members_in (view root))
        × (key_faults (members_in (view root)) ≡ [])) (NotFile bytes.now) }
{
    let root = table_of(alloc, bytes)?;
    match check_keys(alloc, &root) {
        Ok(()) => Ok(root),
        Err(KeyFault::At(path)) => Err(ProblemFault::Key(path)),
        Err(KeyFault::NoMemory) => Err(ProblemFault::NoMemory),
    }
}

// The problem of a file, or the first check that does not hold.
fn read_bytes(alloc: Global, bytes: &[u8]) -> Result<Problem, ProblemFault>
    ensures { MatchResult result (ProblemFile bytes.now) (NotProblem bytes.now) }
{
    let root = checked(alloc, bytes)?;
    let file = file_of(alloc, &root)?;
    problem_of(alloc, &file)
}

/// The problem of a file of these bytes.
///
/// The bytes are accepted exactly where they are a problem file, with its one problem. Each fault comes exactly where
/// it is that of the first check that does not hold, but for `NoMemory`, which comes where no memory is left and says
/// nothing of the bytes.
pub fn read_problem(alloc: Global, bytes: &[u8]) -> Result<Problem, ProblemFault>
    ensures problem { IfOk result (λ p. ProblemFile bytes.now p) }
    ensures fault { IfErr result (λ why. why ≢ fault.NoMemory → FirstProblemFault bytes.now why) }
    ensures accepts { (p : ProblemParts) → ProblemFile bytes.now p → (result ≡ Ok p) ⊎ (result ≡ Err fault.NoMemory) }
    ensures refuses { (why : ProblemFault) → FirstProblemFault bytes.now why →
        (result ≡ Err why) ⊎ (result ≡ Err fault.NoMemory) }
{
    // By this law nothing else is right of bytes that the reader has answered.
    bytes_have_one_answer();
    read_bytes(alloc, bytes)
}
