//! The checks of the stage and of the letters.

ghost use Rattle.std.specs.Prelude.{◌≡◌, ◌≢◌, ℕ, ◌<◌, ◌↔◌, length, get_or, map, IsTrue, IfOk, MatchOption, MatchResult};
ghost use Rattle.cr_model.specs.ProblemFiles.{byte_of, letters_of, StagePasses, LettersPass, IsFileFault};

use crate::file_parts::File;
use cr_model::{ProblemFault, first_wrong_letter};
use cr_row::Stage;
use std::alloc::{AllocError, Global};

/// The one byte of a text, or 0 where it has not one.
pub fn byte_of(text: &str) -> u8
    ensures { result ≡ byte_of text.now }
{
    match text.as_bytes() {
        [byte] => *byte,
        _ => 0,
    }
}

/// The methods' letters.
pub fn letters_of(alloc: Global, file: &File) -> Result<Vec<u8>, AllocError>
    ensures { IfOk result (λ letters. letters.items ≡ letters_of file.now) }
{
    let mut letters = Vec::new(alloc);
    for method in &file.methods {
        letters.push(byte_of(method.letter))?;
    }
    Ok(letters)
}

// The stage, 3 to 16.
fn stage_of(file: &File) -> Result<Stage, ProblemFault>
    ensures { MatchResult result (StagePasses file.now) (IsFileFault file.now) }
{
    if 3 <= file.stage && file.stage <= 16 {
        if let Some(stage) = Stage::new(file.stage as u8) {
            return Ok(stage);
        }
    }
    Err(ProblemFault::Stage(file.stage))
}

/// The stage, where it is right and so are the letters.
pub fn check_letters(file: &File, letters: &[u8]) -> Result<Stage, ProblemFault>
    requires { letters.now ≡ letters_of file.now }
    ensures { MatchResult result (LettersPass file.now) (IsFileFault file.now) }
{
    let stage = stage_of(file)?;
    match first_wrong_letter(letters) {
        Some(index) => Err(ProblemFault::Letter(index)),
        None => Ok(stage),
    }
}
