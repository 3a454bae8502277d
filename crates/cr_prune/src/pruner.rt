//! Why a node is dead.

ghost use Rattle.std.specs.Prelude.{◌≡◌, ◌+◌, ◌*◌, ◌<◌, ◌≤◌, ◌||◌, ℕ, not, nat_lt, [], ◌∷◌, length, find, IfSome, is_some, false};
ghost use Rattle.cr_model.specs.declared.reason.Reason.TheVariants.{Long, SelfFalse, Again, Home, Far, TooMany, TooFew, TurnsBack};
ghost use Rattle.cr_model.specs.Callings.{shortest, length_of, rows_of};
ghost use Rattle.cr_model.specs.Levels.{at_least};
ghost use Rattle.cr_model.specs.Queries.{cap, part_cap};
ghost use Rattle.cr_model.specs.Decided.{rows_differ};
ghost use Rattle.cr_model.specs.Dead.{HasNoneBelow, is_again, is_round, is_too_many, is_too_few, is_self_false, is_far, is_turned_back, holds, dead};
ghost use Rattle.cr_model.specs.Sizes.{child};
ghost use Rattle.cr_leads.specs.Tables.{lead_table};
ghost use Rattle.cr_reach.specs.Tables.{reach_table};
ghost use Rattle.cr_query.specs.Meters.{is_hopeless_by_leads};
ghost use Rattle.cr_prune.specs.Pruners.{dies_unrung};

use crate::prune_limits::PruneLimits;
use crate::walk::{Walk, changes_of, head_after};
use cr_leads::LeadTable;
use cr_model::laws::nothing_is_kept_below_a_dead_node;
use cr_model::{Problem, Reason};
use cr_query::Hopeless;
use cr_reach::ReachTable;
use cr_row::Row;
use std::marker::Model;

/// Tells why a node has no kept touch below it.
///
/// It is seen as the problem and the reach table. What it tells takes no memory, and a time that does not grow
/// with the node.
#[derive(Drop)]
pub struct Pruner<'a> {
    problem: &'a Problem,
    leads: &'a LeadTable,
    reach: &'a ReachTable,
    prune_limits: PruneLimits,
}

impl<'a> Model for Pruner<'a> {
    ghost use Rattle.std.specs.Prelude.{◌≡◌};
    ghost use Rattle.cr_leads.specs.Tables.{lead_table};
    ghost use Rattle.cr_prune.specs.PruneLimits.{ArePruneLimits};
    ghost use Rattle.cr_prune.specs.Pruners.{PrunerParts, pruner_from};

    ghost Value = { PrunerParts };

    ghost view = { λ p. pruner_from p.problem.now p.reach.now };

    ghost invariant = { λ p. (p.leads.now ≡ lead_table p.problem.now) × ArePruneLimits p.problem.now p.prune_limits };
}

impl<'a> Pruner<'a> {
    /// The pruner of a problem. It takes no memory.
    pub fn new(leads: &'a LeadTable, reach: &'a ReachTable, problem: &'a Problem) -> Pruner<'a>
        requires { leads.now ≡ lead_table problem.now }
        ensures { result ≡ record { problem = problem.now; reach = reach.now } }
    {
        let prune_limits = PruneLimits::of(problem, leads);
        Pruner {
            problem,
            leads,
            reach,
            prune_limits,
        }
    }

    /// The first reason that holds of the walk's node, with the reach table of the problem for any number of
    /// rows. Where there is one, no kept touch has the node above it.
    pub fn dead(&self, walk: &Walk) -> Option<Reason>
        requires same { walk.now.problem ≡ self.now.problem }
        requires some { 0 < length walk.now.node }
        ensures is { (most : ℕ) → self.now.reach ≡ reach_table self.now.problem most
            → result ≡ dead self.now.problem most walk.now.node }
        ensures sound { (most : ℕ) → self.now.reach ≡ reach_table self.now.problem most
            → IfSome result (λ _. HasNoneBelow self.now.problem walk.now.node) }
    {
        nothing_is_kept_below_a_dead_node();
        // A problem keeps all of its checks.
        let _ = self.problem.stage();
        match self.dead_by_rows(walk) {
            Some(reason) => Some(reason),
            None => self.dead_by_query(walk),
        }
    }

    /// Whether the child by a step is dead for a reason that needs no row of its last lead but the head: Long,
    /// SelfFalse, Far, too many or too few leads, or TurnsBack.
    pub fn dies_unrung(&self, walk: &Walk, step: u8) -> bool
        requires same { walk.now.problem ≡ self.now.problem }
        requires step { step < length self.now.problem.leads }
        ensures { (most : ℕ) → self.now.reach ≡ reach_table self.now.problem most
            → result ≡ dies_unrung self.now.problem most (child walk.now.node step) }
    {
        let rung = self.length_with(walk, step);
        self.is_long(rung)
            || self.is_false(step)
            || walk.is_hopeless_with(step)
            || self.is_cut(walk, step, rung)
    }

    /// Whether the walk's node, which did not die unrung, is dead: by its rows, or by the rows that fit a pattern.
    pub fn dies_rung(&self, walk: &Walk) -> bool
        requires same { walk.now.problem ≡ self.now.problem }
        requires some { 0 < length walk.now.node }
        ensures { (most : ℕ) → dies_unrung self.now.problem most walk.now.node ≡ false
            → result ≡ is_some (dead self.now.problem most walk.now.node) }
    {
        self.is_cut_by_rows(walk) || is_hopeless(walk)
    }

    // The first reason that the rows tell.
    fn dead_by_rows(&self, walk: &Walk) -> Option<Reason>
        requires same { walk.now.problem ≡ self.now.problem }
        requires some { 0 < length walk.now.node }
        ensures { (most : ℕ) → result ≡ find (holds self.now.problem most walk.now.node) (Long ∷ SelfFalse ∷ Again ∷ Home ∷ []) }
    {
        if self.is_long(walk.length()) {
            Some(Reason::Long)
        } else if self.is_self_false(walk) {
            Some(Reason::SelfFalse)
        } else if walk.has_repeat() {
            Some(Reason::Again)
        } else if walk.is_round(self.prune_limits.several) {
            Some(Reason::Home)
        } else {
            None
        }
    }

    // The first reason that the reach table, the meter and the rotations tell.
    fn dead_by_query(&self, walk: &Walk) -> Option<Reason>
        requires same { walk.now.problem ≡ self.now.problem }
        ensures { (most : ℕ) → self.now.reach ≡ reach_table self.now.problem most
            → result ≡ find (holds self.now.problem most walk.now.node) (Far ∷ TooMany ∷ TooFew ∷ TurnsBack ∷ []) }
    {
        if self.is_far(walk.length(), &walk.head()) {
            return Some(Reason::Far);
        }
        match walk.hopeless() {
            Some(Hopeless::TooMany) => Some(Reason::TooMany),
            Some(Hopeless::TooFew) => Some(Reason::TooFew),
            None if self.is_turned_back(walk) => Some(Reason::TurnsBack),
            None => None,
        }
    }

    // Whether so many rows are more than a part may have.
    fn is_long(&self, rung: u64) -> bool
        ensures { result ≡ nat_lt (part_cap self.now.problem) rung }
    {
        rung > self.prune_limits.part_cap
    }

    // Whether the lead of a step has a row twice.
    fn is_false(&self, step: u8) -> bool
        requires { step < length self.now.problem.leads }
        ensures { result ≡ not (rows_differ (rows_of self.now.problem (step ∷ []))) }
    {
        // There are no more of them than facts.
        let _ = self.problem.leads();
        self.prune_limits.false_leads[usize::from(step)]
    }

    // Whether the last lead of the node has a row twice.
    fn is_self_false(&self, walk: &Walk) -> bool
        requires same { walk.now.problem ≡ self.now.problem }
        requires some { 0 < length walk.now.node }
        ensures { result ≡ is_self_false self.now.problem walk.now.node }
    {
        let steps = walk.steps();
        self.is_false(steps[steps.len() - 1])
    }

    // Whether rounds is too far from this head, after so many rows.
    fn is_far(&self, rung: u64, head: &Row) -> bool
        requires { rung ≤ 13000 }
        ensures { (most : ℕ) → self.now.reach ≡ reach_table self.now.problem most
            → result ≡ nat_lt (cap self.now.problem) (rung + shortest self.now.problem * at_least self.now.problem most head.now) }
    {
        let least = u64::from(self.reach.at_least(head));
        rung + self.prune_limits.shortest * least > self.prune_limits.cap
    }

    // The number of rows of the child by a step.
    fn length_with(&self, walk: &Walk, step: u8) -> u64
        requires same { walk.now.problem ≡ self.now.problem }
        requires step { step < length self.now.problem.leads }
        ensures is { result ≡ length_of self.now.problem (child walk.now.node step) }
        ensures few { result ≤ 13000 }
    {
        walk.length() + changes_of(self.problem, step).len() as u64
    }

    // Whether rounds is too far from the child by a step, which has so many rows.
    fn is_far_with(&self, walk: &Walk, step: u8, rung: u64) -> bool
        requires same { walk.now.problem ≡ self.now.problem }
        requires step { step < length self.now.problem.leads }
        requires is { rung ≡ length_of self.now.problem (child walk.now.node step) }
        requires few { rung ≤ 13000 }
        ensures { (most : ℕ) → self.now.reach ≡ reach_table self.now.problem most
            → result ≡ is_far self.now.problem most (child walk.now.node step) }
    {
        self.is_far(rung, &head_after(self.leads, walk.head(), step))
    }

    // Whether a row of the node stands twice, or rounds comes too early.
    fn is_cut_by_rows(&self, walk: &Walk) -> bool
        requires same { walk.now.problem ≡ self.now.problem }
        requires some { 0 < length walk.now.node }
        ensures { result ≡ (is_again self.now.problem walk.now.node || is_round self.now.problem walk.now.node) }
    {
        walk.has_repeat() || walk.is_round(self.prune_limits.several)
    }

    // Whether the child by a step turns back, or rounds is too far from its head, after so many rows.
    fn is_cut(&self, walk: &Walk, step: u8, rung: u64) -> bool
        requires same { walk.now.problem ≡ self.now.problem }
        requires step { step < length self.now.problem.leads }
        requires is { rung ≡ length_of self.now.problem (child walk.now.node step) }
        requires few { rung ≤ 13000 }
        ensures { (most : ℕ) → self.now.reach ≡ reach_table self.now.problem most
            → result ≡ (is_turned_back self.now.problem (child walk.now.node step) || is_far self.now.problem most (child walk.now.node step)) }
    {
        self.is_turned_back_with(walk, step) || self.is_far_with(walk, step, rung)
    }

    // TurnsBack, if the query is the same for all rotations and the node turns back.
    fn is_turned_back(&self, walk: &Walk) -> bool
        requires same { walk.now.problem ≡ self.now.problem }
        ensures { result ≡ is_turned_back self.now.problem walk.now.node }
    {
        self.prune_limits.turn_free && walk.turns_back()
    }

    // The same of the child by a step.
    fn is_turned_back_with(&self, walk: &Walk, step: u8) -> bool
        requires same { walk.now.problem ≡ self.now.problem }
        ensures { result ≡ is_turned_back self.now.problem (child walk.now.node step) }
    {
        self.prune_limits.turn_free && walk.turns_back_with(step)
    }
}

// Whether the node has too many or too few of what the query counts.
fn is_hopeless(walk: &Walk) -> bool
    ensures { result ≡ (is_too_many walk.now.problem walk.now.node || is_too_few walk.now.problem walk.now.node) }
{
    walk.hopeless().is_some()
}
