//! Why words are no wish.

use thiserror::Error;

/// Why words are no wish: the first that is wrong, in the order in which it is looked for.
#[derive(Clone, Copy, Debug, PartialEq, Eq, Drop, Error)]
pub enum WordsFault {
    /// The words are not those of the command line: an unknown option, one given twice or without its value, a word
    /// that belongs to no option, or a request for help or the version.
    #[error("the words are not --workers, --turns, --every, --do, --number and --into, each once at most and with its value")]
    Line,
    /// The workers are not a number from 1 to 64.
    #[error("--workers is not a number from 1 to 64")]
    Workers,
    /// The turns are not a number from 0 to 2^63 - 1.
    #[error("--turns is not a number from 0 to 9223372036854775807")]
    Turns,
    /// The number of a made problem is not a number from 0 to 2^32 - 1.
    #[error("--number is not a number from 0 to 4294967295")]
    Number,
    /// What is to be done is none of `search`, `make`, `last`, `cut`, `join`, `log` and `audit`.
    #[error("--do is none of search, make, last, cut, join, log and audit")]
    Mode,
    /// An option was given that has no use in what is to be done, or both `--turns` and `--every` were.
    #[error("an option has no use in what --do names, or --turns and --every are both given")]
    Mixed,
    /// There was not enough memory.
    #[error("there is no memory")]
    NoMemory,
    /// The turns from one checkpoint to the next are not a number from 1 to 2^63 - 1.
    #[error("--every is not a number from 1 to 9223372036854775807")]
    Every,
    /// The number of checkpoints that an input is cut into is not a number from 1 to 1024.
    #[error("--into is not a number from 1 to 1024")]
    Into,
}
