//! The printed book: callings and books as texts, the summary of a book, found touches in the book's order, and
//! callings read back.
//!
//! The book of a problem is the list of its kept touches, by length and then by their steps. It is printed one
//! touch a line, with the length first, and ends with the number of touches. A lead is printed as its method's
//! letter, if there are several methods, and the letter of its call, `p` for none.
//!
//! - [`sort_found`]: found touches in the order of the book.
//! - [`book_text`], [`calling_text`]: the text of a book, and of one calling.
//! - [`book_pieces`]: the text of the book of touches in any order, sorted and written by several threads.
//! - [`line_pieces`], [`write_lines`]: the same without the book's last line, and the lines of touches as they stand.
//! - [`summary_text`]: the numbers of touches by length.
//! - [`read_calling`]: the calling whose text this is, or the first byte that cannot be ([`CallingFault`]).
//!
//! Each takes memory for what it gives, and fails only where there is none; `read_calling` also where the text is
//! no calling.
//!
//! ```rust
//! // `problem` is Plain Bob Minimus.
//! let mut found = Vec::new(alloc);
//! found.push(read_calling(alloc, &problem, b"ppp")?)?;
//!
//! let sorted = sort_found(alloc, &problem, found)?;
//! let text = book_text(alloc, &problem, &sorted)?;
//! assert_eq!(rt; text.as_slice(), "24 ppp\ntouches 1\n".as_bytes());
//! ```
#![tactic(auto)]

mod fault;
mod keyed;
pub mod laws;
mod lengths;
mod made;
mod order;
mod part;
mod pieces;
mod reading;
mod slices;
mod steps;
mod summary;
mod texts;

pub use fault::CallingFault;
pub use made::each_in_a_thread;
pub use order::sort_found;
pub use pieces::{BookPieces, book_pieces, line_pieces};
pub use reading::read_calling;
pub use summary::summary_text;
pub use texts::{book_text, calling_text, write_lines};
