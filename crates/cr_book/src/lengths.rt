//! Lengths of leads, by step number, and of callings by these.

ghost use Rattle.std.specs.Prelude.{◌≡◌, ◌<◌, ◌≤◌, length, get_or, All};
ghost use Rattle.cr_model.specs.Callings.{lead_length as changes_in};
ghost use Rattle.cr_book.specs.Measures.{HasLengths, IsCommon, added as added_up};

use cr_model::{Calling, Problem};
use std::marker::Model;

/// How many changes each lead has. It is seen as a table of 256 numbers, by step number.
#[derive(Drop)]
pub struct LeadLengths {
    lengths: [u8; 256],
    // The length that all leads have, if that is one.
    common: Option<u8>,
}

impl Model for LeadLengths {
    ghost use Rattle.std.specs.Prelude.{ℕ, ◌≡◌, List, length};
    ghost use Rattle.cr_book.specs.Measures.{IsCommon};

    ghost Value = { List ℕ };

    ghost view = { λ l. l.lengths };

    ghost invariant = { λ l. (length l.lengths ≡ 256) × IsCommon l.lengths l.common };
}

impl LeadLengths {
    /// The lengths of a problem's leads.
    pub fn of(problem: &Problem) -> LeadLengths
        ensures { HasLengths problem.now result }
    {
        let lengths = lead_lengths(problem);
        LeadLengths {
            lengths,
            common: common_length(&lengths),
        }
    }

    /// The lengths of a calling's leads, added up. Where all leads have one length, it is one product.
    pub fn added(&self, calling: &Calling) -> u64
        ensures { result ≡ added_up self.now calling.now }
    {
        match self.common {
            Some(common) => self.added_alike(common, calling),
            None => self.added_one_by_one(calling),
        }
    }

    fn added_one_by_one(&self, calling: &Calling) -> u64
        ensures { result ≡ added_up self.now calling.now }
    {
        let mut sum = 0;
        for step in calling.steps() {
            sum += u64::from(self.lengths[usize::from(*step)]);
        }
        sum
    }

    // The same, where all lengths are this one: the compiler makes a product of the loop.
    fn added_alike(&self, common: u8, calling: &Calling) -> u64
        requires size { length self.now ≡ 256 }
        requires alike { All (λ l. l ≡ common) self.now }
        ensures { result ≡ added_up self.now calling.now }
    {
        let mut sum = 0;
        for step in calling.steps() {
            sum += self.length_of(common, *step);
        }
        sum
    }

    // How many changes the lead of a step has, where all have so many.
    fn length_of(&self, common: u8, _step: u8) -> u64
        requires size { length self.now ≡ 256 }
        requires alike { All (λ l. l ≡ common) self.now }
        ensures is { result ≡ get_or self.now _step 0 }
        ensures few { result ≤ 255 }
    {
        u64::from(common)
    }
}

// How many changes each lead has, by step number, and past the last as many as the first.
fn lead_lengths(problem: &Problem) -> [u8; 256]
    ensures size { length result ≡ 256 }
    ensures each { HasLengths problem.now result }
{
    let mut lengths = [first_length(problem); 256];
    for step in 0..problem.leads().len() as u8 {
        lengths[usize::from(step)] = lead_length(problem, step);
    }
    lengths
}

// How many changes a lead has.
#[tactic(auto, using(cr_model::specs::Callings::changes_at_is, crate::proofs::Sorting::lead_few))]
fn lead_length(problem: &Problem, step: u8) -> u8
    requires { step < length problem.now.leads }
    ensures { result ≡ changes_in problem.now step }
{
    let lead = &problem.leads()[usize::from(step)];
    lead.changes.len() as u8
}

// How many changes the first lead has. What it is has no clause: it stands where no lead is.
fn first_length(problem: &Problem) -> u8 {
    match problem.leads().first() {
        Some(lead) => lead.changes.len() as u8,
        None => 0,
    }
}

// The number that stands in all places, if there is one.
fn common_length(lengths: &[u8; 256]) -> Option<u8>
    ensures { IsCommon lengths.now result }
{
    let first = lengths[0];
    if lengths.iter().all(|length| *length == first) {
        Some(first)
    } else {
        None
    }
}
