//! The leads of a problem, rung from rounds, and callings rung by them.
//!
//! A lead from any other row has the rows of the lead from rounds, each by a product. So a table of the leads from
//! rounds is enough to ring everything.
//!
//! - [`LeadTable::new`]: rings each lead of a problem once.
//! - [`LeadTable::rows_of`], [`LeadTable::head_of`]: the rows of a lead, and its last row.
//! - [`LeadTable::rows`], [`LeadTable::head_after`]: the rows of a calling, and its last row.
//! - [`LeadTable::ring`]: the rows of a calling, whether it comes round, and whether its rows differ ([`Rung`]).
//!
//! The function of [`laws`] does nothing; its contract says when a calling is a true touch.
//!
//! ```rust
//! let leads = LeadTable::new(alloc, &problem)?;
//! let rung = leads.ring(alloc, &calling)?;
//! let is_true = rung.round && rung.distinct;
//! ```
#![tactic(auto)]

mod differing;
pub mod laws;
mod ringing;
mod rung;
mod table;

pub use rung::Rung;
pub use table::LeadTable;
