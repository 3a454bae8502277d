//! The command line: what the words after the program's name wish for.
//!
//! There are six options: `--do`, which names `search`, `make`, `last`, `cut`, `join`, `log` or `audit`, `--workers`,
//! `--turns`, `--every`, `--number` and `--into`. No words at all are a search by one worker to its end. `clap` takes the
//! words apart; the values are read here.
//!
//! - [`read_words`]: what the words wish for, or the first that is wrong.
//! - [`Wish`]: the number of workers, after how many turns to stop, and the mode.
//! - [`Mode`]: to search the input, with a trail or without, to search the problem that is made of a number, to take the
//!   last checkpoint out of a trail, to cut an input into checkpoints, to join checkpoints, to log a whole search, or to
//!   audit a book by such a log.
//! - [`WordsFault`]: why words are no wish. `NoMemory` is among them.
//!
//! ```rust
//! let mut words = Vec::new(alloc);
//! words.push(String::from_str(alloc, "--turns=5")?)?;
//! let wish = Wish {
//!     workers: 1,
//!     turns: Some(5),
//!     mode: Mode::Search,
//! };
//! assert!(rt; read_words(alloc, &words) == Ok(wish));
//! ```
#![tactic(auto)]

mod command;
mod fault;
pub mod laws;
mod numbers;
mod reading;
mod table;
mod values;
mod wish;

pub use fault::WordsFault;
pub use reading::read_words;
pub use wish::{Mode, Wish};

#[cfg(test)]
mod tests;
