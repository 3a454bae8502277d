//! The period of a word that grows and shrinks at its end.

ghost use Rattle.std.specs.Prelude.{◌≡◌, ◌+◌, ◌-◌, ◌<◌, ◌≤◌, ℕ, ◌↔◌, List, [], ◌∷◌, ◌++◌, length, take, IsTrue, IfOk, IfSome};
ghost use Rattle.cr_model.specs.LeastRotations.{TurnsBack, IsLeastRotation};
ghost use Rattle.cr_rotate.specs.Fronts.{FrontRepeats, IsKept, Tells};

use cr_row::NoMemory;
use std::alloc::Global;
use std::marker::Model;

// The most steps that a word has.
const ROOM: usize = 1024;

/// A word of at most 1,024 steps, with the period of each of its fronts.
///
/// It is seen as its list of steps. It tells in constant time whether the word turns back, and whether
/// it is the least of its rotations.
#[derive(Drop)]
pub struct Period {
    // As many as a word may have: those after the word's are of no word.
    steps: Vec<u8>,
    // Of each front that does not turn back its period, and of the others 0.
    periods: Vec<u16>,
    // How many steps the word has.
    count: usize,
}

impl Model for Period {
    ghost use Rattle.std.specs.Prelude.{◌≡◌, ℕ, ◌≤◌, List, length, take};
    ghost use Rattle.cr_rotate.specs.Fronts.{IsKept};

    ghost Value = { List ℕ };

    ghost view = { λ p. take p.count p.steps.items };

    ghost invariant = { λ p. IsKept (take p.count p.steps.items) (take p.count p.periods.items)
        × (length p.steps.items ≡ 1024) × (length p.periods.items ≡ 1024) × (p.count ≤ 1024) };
}

impl Period {
    /// The empty word. All memory that a longer one needs is taken here.
    #[tactic(auto, using(crate::proofs::Kept::none_kept))]
    pub fn new(alloc: Global) -> Result<Period, NoMemory>
        ensures { IfOk result (λ period. period ≡ []) }
    {
        let steps = Vec::from_elem(alloc, 0, ROOM)?;
        let periods = Vec::from_elem(alloc, 0, ROOM)?;
        Ok(Period {
            steps,
            periods,
            count: 0,
        })
    }

    /// The steps of the word.
    #[inline(always)]
    pub fn steps(&self) -> &[u8]
        ensures is { result.now ≡ self.now }
        ensures few { length self.now ≤ 1024 }
    {
        &self.steps[..self.count]
    }

    // What is kept of each of its fronts.
    #[inline(always)]
    fn periods(&self) -> &[u16]
        ensures { IsKept self.now result.now }
    {
        &self.periods[..self.count]
    }

    /// Appends a step.
    #[inline(always)]
    pub fn push(&mut self, step: u8)
        requires { length self.old < 1024 }
        ensures { self.new ≡ self.old ++ step ∷ [] }
    {
        let period = next_period(self.steps(), self.periods(), step);
        self.steps[self.count] = step;
        self.periods[self.count] = period;
        self.count += 1;
    }

    /// Removes the last step.
    #[inline(always)]
    pub fn pop(&mut self)
        requires { 0 < length self.old }
        ensures { self.new ≡ take (length self.old - 1) self.old }
    {
        self.count -= 1;
    }

    /// Whether some proper suffix of the word, not empty, is less than the prefix of the same length.
    pub fn turns_back(&self) -> bool
        ensures { IsTrue result ↔ TurnsBack self.now }
    {
        turns(self.steps(), self.periods())
    }

    /// Whether the word with this step more turns back.
    #[tactic(auto, using(crate::proofs::Kept::told_turned_with))]
    pub fn turns_back_with(&self, step: u8) -> bool
        ensures { IsTrue result ↔ TurnsBack (self.now ++ step ∷ []) }
    {
        next_period(self.steps(), self.periods(), step) == 0
    }

    /// The least step with which the word does not turn back, or None where it turns back with each step.
    #[inline(always)]
    pub fn first_straight(&self) -> Option<u8>
        ensures { (step : ℕ) → TurnsBack (self.now ++ step ∷ []) ↔ IfSome result (λ first. step < first) }
    {
        first_straight(self.steps(), self.periods())
    }

    /// Whether no rotation of the word is less than it.
    #[inline(always)]
    pub fn is_least(&self) -> bool
        ensures { IsTrue result ↔ IsLeastRotation self.now }
    {
        is_least_rotation(self.steps(), self.periods())
    }
}

#[tactic(auto, using(crate::proofs::Kept::told_turned, crate::proofs::Kept::empty_turns))]
fn turns(steps: &[u8], periods: &[u16]) -> bool
    requires { IsKept steps.now periods.now }
    ensures { IsTrue result ↔ TurnsBack steps.now }
{
    if steps.is_empty() {
        return false;
    }
    last_period(steps, periods) == 0
}

#[tactic(auto, using(crate::proofs::LeastRotations::told_least, crate::proofs::LeastRotations::told_not_least, crate::proofs::LeastRotations::empty_least))]
#[inline(always)]
fn is_least_rotation(steps: &[u8], periods: &[u16]) -> bool
    requires { IsKept steps.now periods.now }
    ensures { IsTrue result ↔ IsLeastRotation steps.now }
{
    if steps.is_empty() {
        return true;
    }
    match usize::from(last_period(steps, periods)) {
        0 => false,
        period => steps.len() % period == 0,
    }
}

// What is kept for the whole word.
#[tactic(auto, using(crate::proofs::Kept::whole))]
#[inline(always)]
fn last_period(steps: &[u8], periods: &[u16]) -> u16
    requires kept { IsKept steps.now periods.now }
    requires some { 0 < length steps.now }
    ensures { Tells steps.now (length steps.now) result }
{
    periods[periods.len() - 1]
}

// What is kept for a word with one step more.
#[tactic(auto, using(crate::proofs::Kept::of_one, crate::proofs::Kept::of_turned, crate::proofs::Kept::of_period))]
#[inline(always)]
fn next_period(steps: &[u8], periods: &[u16], step: u8) -> u16
    requires { IsKept steps.now periods.now }
    ensures { Tells (steps.now ++ step ∷ []) (length steps.now + 1) result }
{
    let length = steps.len();
    if length == 0 {
        return 1;
    }
    let period = periods[length - 1];
    if period == 0 {
        return 0;
    }
    longer(steps, period, step)
}

// The same, of a word that does not turn back and has this period.
#[tactic(auto, using(crate::proofs::Kept::of_same))]
#[inline(always)]
fn longer(steps: &[u8], period: u16, step: u8) -> u16
    requires front { FrontRepeats steps.now (length steps.now) period }
    requires few { length steps.now ≤ 1024 }
    ensures { Tells (steps.now ++ step ∷ []) (length steps.now + 1) result }
{
    let before = steps[steps.len() - usize::from(period)];
    // It is at hand before it is asked for, which spares a jump.
    let whole = (steps.len() + 1) as u16;
    if step < before {
        0
    } else if step == before {
        period
    } else {
        whole
    }
}

// The least step with which the word does not turn back. None where it turns back with each.
#[inline(always)]
fn first_straight(steps: &[u8], periods: &[u16]) -> Option<u8>
    requires { IsKept steps.now periods.now }
    ensures { (step : ℕ) → TurnsBack (steps.now ++ step ∷ []) ↔ IfSome result (λ first. step < first) }
{
    if steps.is_empty() {
        return Some(0);
    }
    match usize::from(last_period(steps, periods)) {
        0 => None,
        // The word repeats its first steps so far.
        period => Some(steps[steps.len() - period]),
    }
}
