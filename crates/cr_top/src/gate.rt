//! The gate before each exploration.

use cr_model::Problem;
use cr_node::{Done, Explorer, Node};
use cr_row::NoMemory;
use cr_shifts::{Finder, Findings};
use std::alloc::Global;

/// What each exploration of a search enters first, outside any lock. It promises nothing, and no clause speaks of it:
/// with it a test sees which explorations are under way at once.
pub trait Gate {
    /// Enters the gate. It returns.
    fn enter(&self);
}

/// A gate that stands open: it returns at once.
#[derive(Clone, Copy, Debug)]
pub struct OpenGate;

impl Gate for OpenGate {
    fn enter(&self) {}
}

/// An explorer, or a finder, that enters a gate before each exploration.
#[derive(Drop)]
pub struct Gated<'a, E, G> {
    pub explorer: &'a E,
    pub gate: &'a G,
}

impl<'a, E: Explorer, G: Gate> Explorer for Gated<'a, E, G> {
    ghost explores = { λ gated. E.explores gated.explorer.now };

    ghost gives = { λ gated. E.gives gated.explorer.now };

    fn problem(&self) -> &Problem {
        self.explorer.problem()
    }

    fn explore(&self, alloc: Global, job: &[Node], turns: u64) -> Result<Done, NoMemory> {
        self.gate.enter();
        self.explorer.explore(alloc, job, turns)
    }
}

impl<'a, F: Finder, G: Gate> Finder for Gated<'a, F, G> {
    ghost finds = { λ gated. F.finds gated.explorer.now };

    fn find(&self, alloc: Global, job: &[Node], turns: u64) -> Result<Findings, NoMemory> {
        self.gate.enter();
        self.explorer.find(alloc, job, turns)
    }
}
