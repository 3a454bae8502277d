//! Thieves of lanes.

ghost use Rattle.std.specs.Prelude.{◌≡◌, ◌<◌, ℕ, [], ◌∷◌, ◌++◌, length, map, replicate, slice_index_or, slice_set, vec_len, All, IfOk, IfNone, IfSome, OnOk, MatchOption};
ghost use Rattle.cr_lanes.specs.Ends.{LaneName, EndParts, lent_more, taken_back};
ghost use Rattle.crossbeam_deque.specs.Handles.{view, IsPassOf, SamePass, stealer_deque};
ghost use Rattle.cr_lanes.specs.Lane.{IsThiefs};
ghost use Rattle.cr_lanes.specs.Steps.{HadAtMost, HeldAtMost, Stole, ThiefKnows};

use crate::end::{Front, LaneEnd};
use crate::known::Known;
use crate::rule::Steals;
use cr_row::NoMemory;
use crossbeam_deque::{Pass, Steal};
use std::alloc::Global;
use std::marker::Model;
use std::sync::Wait;

/// Takes the first number of a lane, and tries again while others take.
pub(crate) fn steal_from<R: Wait>(rt: &R, lane: &Front, pass: &mut Pass<u64, Known>) -> Option<u64>
    requires table { IsPassOf (stealer_deque lane.now) pass.old }
    requires thief { IsThiefs (view pass.old) }
    ensures same { SamePass pass.old pass.new }
    ensures rule { MatchOption result ((view pass.new ≡ view pass.old) × HadAtMost 1 (view pass.old)) (λ x. Stole (view pass.old) (x ∷ []) (view pass.new)) }
{
    for _ in rt.forever() {
        match lane.steal_as::<Steals>(pass) {
            Steal::Success(number) => return Some(number),
            Steal::Empty => return None,
            Steal::Retry => {}
        }
    }
    unreachable!()
}

/// One who takes the first numbers of lanes.
#[derive(Drop)]
pub struct Thief {
    passes: Vec<Pass<u64, Known>>,
}

impl Model for Thief {
    ghost use Rattle.std.specs.Prelude.{All};
    ghost use Rattle.cr_lanes.specs.Thieves.{ThiefParts, thief_parts, IsThiefsPass};

    ghost Value = { ThiefParts };

    ghost view = { λ t. thief_parts t.passes.items };

    ghost invariant = { λ t. All IsThiefsPass t.passes.items };
}

impl Thief {
    /// A thief of the lanes of these ends, each of which lends it a pass. Err where no memory is left.
    pub(crate) fn new(alloc: Global, ends: &mut Vec<LaneEnd>) -> Result<Thief, NoMemory>
        ensures names { IfOk result (λ t. t.names ≡ map (λ e. e.name) ends.old.items) }
        ensures nothing { IfOk result (λ t. t.stolen ≡ replicate (vec_len ends.old) []) }
        ensures len { OnOk result (vec_len ends.new ≡ vec_len ends.old) }
        ensures same { OnOk result (map (λ e. e.name) ends.new.items ≡ map (λ e. e.name) ends.old.items) }
        ensures each { OnOk result ((k : ℕ) (d : EndParts) → k < vec_len ends.old → slice_index_or ends.new.items k d ≡ lent_more (slice_index_or ends.old.items k d)) }
    {
        let mut passes = Vec::new(alloc);
        for k in 0..ends.len() {
            let pass = ends[k].lend();
            passes.push(pass)?;
        }
        Ok(Thief { passes })
    }

    /// Takes the first number of a lane, and tries again while others take.
    pub(crate) fn steal<R: Wait>(&mut self, rt: &R, front: &Front, lane: usize) -> Option<u64>
        requires lane { lane < length self.old.names }
        requires front { (d : LaneName) → slice_index_or self.old.names lane d ≡ stealer_deque front.now }
        ensures names { self.new.names ≡ self.old.names }
        ensures stolen { MatchOption result (self.new.stolen ≡ self.old.stolen) (λ x. self.new.stolen ≡ slice_set self.old.stolen lane (slice_index_or self.old.stolen lane [] ++ x ∷ [])) }
        ensures above { IfSome result (λ x. All (λ y. y < x) (slice_index_or self.old.stolen lane [])) }
        ensures none { IfNone result (HeldAtMost 1 (ThiefKnows (slice_index_or self.old.stolen lane []))) }
    {
        let pass = &mut self.passes[lane];
        steal_from(rt, front, pass)
    }

    /// Gives each pass back to its end.
    pub(crate) fn give_back(self, ends: &mut Vec<LaneEnd>)
        requires { self.names ≡ map (λ e. e.name) ends.old.items }
        ensures len { vec_len ends.new ≡ vec_len ends.old }
        ensures same { map (λ e. e.name) ends.new.items ≡ map (λ e. e.name) ends.old.items }
        ensures each { (k : ℕ) (d : EndParts) → k < vec_len ends.old → slice_index_or ends.new.items k d ≡ taken_back (slice_index_or ends.old.items k d) (slice_index_or self.stolen k []) }
    {
        let Thief { passes } = self;
        let mut k = 0;
        for pass in passes {
            ends[k].take_back(pass);
            k += 1;
        }
    }
}
