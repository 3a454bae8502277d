//! The top call: from the words of the command line and the bytes of the input to the bytes of the book, of a
//! checkpoint or of a trail of checkpoints.
//!
//! [`ringsearch`] does all that the program does, over any source and sinks. It reads a problem file or a
//! checkpoint, searches it by one worker or by several, and writes the book; or, where it was to stop after so many
//! turns and something is left, a checkpoint to go on from. The words may also ask for a trail, a checkpoint after
//! each so many turns; for the last whole checkpoint of what is left of one; for an input cut into shards, checkpoints
//! that can be searched apart, and for these joined; for a log of a whole search, with its problem and its book, and for
//! the audit of such a book by its log; or for the summary of a problem that is made of a number. Its contract is the
//! theorem that docs/theorem.md tells. Nothing is written before the whole text is made, but a trail is written checkpoint
//! by checkpoint.
//!
//! - [`ringsearch`]: the whole program but its streams. Each status but `Finished` writes its line to the notes.
//! - [`search_alone`], [`trail_alone`]: the search and the trail by one worker, who waits for nobody; they are proved to
//!   return.
//! - [`Status`], [`Status::code`]: how the call ended, and the number that the program ends with.
//! - [`write_note`]: the line of a status. It takes no memory.
//! - [`Gate`], [`OpenGate`]: what each exploration enters first. A program gives [`OpenGate`]; a test sees there
//!   which explorations are under way at once.
//!
//! Want of memory is a status like any other.
//!
//! ```rust
//! // `input` is the problem file of Plain Bob Minimus.
//! let words: Vec<String> = Vec::new(alloc);
//! let mut source = SureSource::new(input.to_vec(alloc)?);
//! let mut sink = SureSink::new(alloc);
//! let mut notes = SureSink::new(alloc);
//!
//! let status = ringsearch(&rt, &words, &mut source, &mut sink, &mut notes, &OpenGate);
//! assert_eq!(rt; status.code(), 0);
//! assert_eq!(rt; sink.bytes(), Some("24 ppp\ntouches 1\n".as_bytes()));
//! ```
#![tactic(auto)]

mod answers;
pub mod audit_laws;
mod auditing;
mod boards;
mod gate;
mod last;
pub mod laws;
mod logging;
mod making;
mod narrow;
mod notes;
mod outcome;
mod piece;
mod preparing;
mod refusal;
mod search;
mod searching;
pub mod shard_laws;
mod sharding;
mod start;
mod status;
mod top;
pub mod trail_laws;
mod trailing;
mod writing;

pub use gate::{Gate, OpenGate};
pub use notes::write_note;
pub use search::search_alone;
pub use status::Status;
pub use top::ringsearch;
pub use trailing::trail_alone;
