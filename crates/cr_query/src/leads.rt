//! What limits on leads count of a node.

ghost use Rattle.std.specs.Prelude.{◌≡◌, ◌+◌, ◌-◌, ◌<◌, ◌≤◌, ◌||◌, ℕ, List, [], length, take, All, vec_len, vec_capacity, IfOk};
ghost use Rattle.cr_model.specs.Problems.{ProblemParts};
ghost use Rattle.cr_model.specs.Dead.{parts_of};
ghost use Rattle.cr_model.specs.Sizes.{child};
ghost use Rattle.std.specs.List.{list_any};
ghost use Rattle.cr_query.specs.Gauges.{raised, is_out, too_many_leads, too_few_leads, hopeless_with, is_com_out, AreOf};
ghost use Rattle.cr_query.specs.Sets.{has_step};
ghost use Rattle.cr_query.specs.Meters.{kinds_of, parent, change_between, marks_now, letters_now, length_now, changes_now, AreSmall, AreCounted};

use crate::compiling::{letters_of, marks_of};
use crate::fronts::Fronts;
use crate::hits::Hits;
use crate::kinds::Kind;
use crate::limits::{exceeds, falls_short, is_above_com, is_below_com};
use crate::meeting::{counts_of, method_counts_of};
use crate::nodes::{change_to, cut, kind_at, put};
use crate::numbers::{Numbers, in_parts, with_joins};
use crate::step_sets::joined;
use crate::tallies::{Tally, out_steps, raise, some_above, some_below, some_out};
use cr_model::Problem;
use cr_model::laws::ringing_on;
use cr_row::NoMemory;
use std::alloc::Global;

// The most steps that a node has.
const ROOM: usize = 1024;

/// The steps of a node, and what is counted of the leads of each of its fronts: how many have each mark and each letter
/// that has limits, how many changes they have, and how often the method changes between them.
#[derive(Drop)]
pub struct LeadCounts {
    pub steps: Vec<u8>,
    pub marks: Vec<Tally>,
    pub letters: Vec<Tally>,
    pub lengths: Fronts,
    pub changes: Fronts,
}

impl LeadCounts {
    /// What is counted of the node of no steps, in so many parts. It has room for all steps of a node. Err where no
    /// memory is left.
    pub fn new(alloc: Global, problem: &Problem, parts: u64) -> Result<LeadCounts, NoMemory>
        requires { parts ≡ parts_of problem.now }
        ensures is { IfOk result (λ counts. AreCounted problem.now [] counts) }
        ensures room { IfOk result (λ counts. 1024 ≤ vec_capacity counts.steps) }
    {
        let query = problem.query();
        let steps = Vec::with_capacity(alloc, ROOM)?;
        let marks = marks_of(alloc, counts_of(query), parts)?;
        let letters = letters_of(alloc, method_counts_of(query), parts)?;
        let lengths = Fronts::new(alloc)?;
        let changes = Fronts::new(alloc)?;
        Ok(LeadCounts {
            steps,
            marks,
            letters,
            lengths,
            changes,
        })
    }

    /// How many steps the node has: it is the front of so many.
    #[inline(always)]
    pub fn front(&self) -> usize
        ensures { result ≡ length self.now.steps.items }
    {
        self.steps.len()
    }

    /// How many changes the node has.
    #[inline(always)]
    pub fn length(&self) -> u64
        requires { AreSmall self.now }
        ensures { result ≡ length_now self.now }
    {
        self.lengths.at(self.front())
    }

    /// Counts one lead more, of this step.
    #[inline(always)]
    pub fn add(&mut self, kinds: &[Kind], step: u8)
        requires step { step < length kinds.now }
        requires steps { All (λ step. step < length kinds.now) self.old.steps.items }
        requires few { length self.old.steps.items < 1024 }
        requires room { vec_len self.old.steps < vec_capacity self.old.steps }
        requires small { AreSmall self.old }
        ensures is { (p : ProblemParts) (node : List ℕ) → kinds.now ≡ kinds_of p → AreCounted p node self.old
            → AreCounted p (child node step) self.new }
        ensures room { vec_capacity self.old.steps ≤ vec_capacity self.new.steps }
    {
        ringing_on();
        let front = self.steps.len();
        let kind = kind_at(kinds, step);
        let change = change_to(kinds, &self.steps, kind.method);
        self.changes.count(front, change);
        self.lengths.count(front, u64::from(kind.length));
        raise(&mut self.marks, front, kind.mark);
        raise(&mut self.letters, front, kind.letter);
        put(&mut self.steps, step);
    }

    /// Takes the last lead back: what is counted of the front before it is there still.
    #[inline(always)]
    pub fn take_last(&mut self)
        requires { 0 < vec_len self.old.steps }
        ensures is { (p : ProblemParts) (node : List ℕ) → AreCounted p node self.old → AreCounted p (parent node) self.new }
        ensures steps { self.new.steps.items ≡ parent self.old.steps.items }
        ensures room { vec_capacity self.old.steps ≤ vec_capacity self.new.steps }
    {
        cut(&mut self.steps);
    }

    /// Whether in all parts there are more leads than a count allows, or more changes of method than the query does.
    pub fn has_too_many(&self, numbers: Numbers) -> bool
        requires parts { numbers.parts ≤ 64 }
        requires small { AreSmall self.now }
        ensures { result ≡ too_many_leads numbers (marks_now self.now) (letters_now self.now) (changes_now self.now) }
    {
        let front = self.front();
        some_above(&self.marks, front)
            || some_above(&self.letters, front)
            || is_above_com(numbers.com, in_parts(numbers.parts, self.changes.at(front)))
    }

    /// Whether with so many leads more in each part there are still too few.
    pub fn has_too_few(&self, numbers: Numbers, left: u64) -> bool
        requires some { 1 ≤ numbers.parts }
        requires parts { numbers.parts ≤ 64 }
        requires small { AreSmall self.now }
        requires left { left ≤ 65535 }
        ensures { result ≡ too_few_leads numbers (marks_now self.now) (letters_now self.now) (changes_now self.now) left }
    {
        let front = self.front();
        some_below(&self.marks, front, left)
            || some_below(&self.letters, front, left)
            || is_below_com(
                numbers.com,
                with_joins(numbers.parts, self.changes.at(front) + left),
            )
    }

    /// Whether with one lead more, of this kind, there are too many, or too few with so many more after it.
    pub fn is_hopeless_with(&self, numbers: Numbers, kinds: &[Kind], kind: Kind, left: u64) -> bool
        requires some { 1 ≤ numbers.parts }
        requires parts { numbers.parts ≤ 64 }
        requires steps { All (λ step. step < length kinds.now) self.now.steps.items }
        requires small { AreSmall self.now }
        requires left { left ≤ 65535 }
        ensures { result ≡ hopeless_with numbers (marks_now self.now) (letters_now self.now) kind
            (changes_now self.now + change_between kinds.now self.now.steps.items kind.method) left }
    {
        let front = self.front();
        some_out(&self.marks, front, kind.mark, left)
            || some_out(&self.letters, front, kind.letter, left)
            || self.is_com_out_with(numbers, kinds, kind.method, left)
    }

    /// The steps with one lead of which there are too many or, with so many more after it, too few, where changes of
    /// method have no limits.
    #[inline(always)]
    pub fn out_steps(&self, hits: &Hits, left: u64) -> u32
        requires marks { length hits.now.marks.items ≡ length self.now.marks.items }
        requires letters { length hits.now.letters.items ≡ length self.now.letters.items }
        requires small { AreSmall self.now }
        requires left { left ≤ 65535 }
        ensures { (step mark letter : ℕ) → step < 32 → AreOf step mark (marks_now self.now) hits.now.marks.items
            → AreOf step letter (letters_now self.now) hits.now.letters.items
            → has_step result step ≡ (list_any (λ gauge. is_out left (raised mark gauge)) (marks_now self.now)
            || list_any (λ gauge. is_out left (raised letter gauge)) (letters_now self.now)) }
    {
        let front = self.front();
        joined(
            out_steps(&self.marks, &hits.marks, front, left),
            out_steps(&self.letters, &hits.letters, front, left),
        )
    }

    // Whether with one lead more, of this method, there are too many changes of method, or too few.
    fn is_com_out_with(&self, numbers: Numbers, kinds: &[Kind], method: u8, left: u64) -> bool
        requires some { 1 ≤ numbers.parts }
        requires parts { numbers.parts ≤ 64 }
        requires steps { All (λ step. step < length kinds.now) self.now.steps.items }
        requires small { AreSmall self.now }
        requires left { left ≤ 65535 }
        ensures { result ≡ is_com_out numbers.com numbers.parts (changes_now self.now + change_between kinds.now self.now.steps.items method) left }
    {
        let Some(limits) = numbers.com else {
            return false;
        };
        let changes = self.changes.at(self.front()) + change_to(kinds, &self.steps, method);
        exceeds(in_parts(numbers.parts, changes), limits.max)
            || falls_short(with_joins(numbers.parts, changes + left), limits.min)
    }
}
