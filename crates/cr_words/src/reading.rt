//! Reading the words.

ghost use Rattle.std.specs.Prelude.{◌≡◌, ◌⊎◌, IfOk, IfErr, Ok, Err};
ghost use Rattle.cr_words.specs.Commands.{texts_of};
ghost use Rattle.cr_words.specs.Readings.{IsAccepted, IsWordsFaultOf, MayFail};
ghost use Rattle.cr_words.specs.declared.fault.WordsFault.TheVariants.{NoMemory};

use crate::command::matches_in;
use crate::values::Values;
use crate::{Wish, WordsFault};
use std::alloc::Global;

// The wish or the fault.
fn wish_in(alloc: Global, words: &[String]) -> Result<Wish, WordsFault>
    ensures ok { IfOk result (IsAccepted (texts_of words.now)) }
    ensures fails { IfErr result (MayFail (texts_of words.now)) }
{
    let matches = matches_in(alloc, words)?;
    Values::of(&matches).wish()
}

/// The wish that the words after the program's name read as, by clap's parse of the six options. Words that clap's
/// definition does not take give `Line`, and words that it takes the first fault of what they assign: a value outside
/// its range (`Workers`, `Turns`, `Number`, `Mode`, `Every`, `Into`), or an option that has no use in what is to be done,
/// or both `--turns` and `--every` (`Mixed`). `NoMemory` comes where there was not enough memory.
pub fn read_words(alloc: Global, words: &[String]) -> Result<Wish, WordsFault>
    ensures ok { IfOk result (IsAccepted (texts_of words.now)) }
    ensures fails { IfErr result (MayFail (texts_of words.now)) }
    ensures accepted { (wish : Wish) → IsAccepted (texts_of words.now) wish
        → (result ≡ Ok wish) ⊎ (result ≡ Err NoMemory) }
    ensures refused { (fault : WordsFault) → IsWordsFaultOf (texts_of words.now) fault
        → (result ≡ Err fault) ⊎ (result ≡ Err NoMemory) }
{
    wish_in(alloc, words)
}
