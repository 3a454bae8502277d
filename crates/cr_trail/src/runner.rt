//! What runs a board to its end.

ghost use Rattle.std.specs.Prelude.{◌≡◌};

use cr_board::{Board, Opening};
use cr_model::Problem;
use cr_row::NoMemory;

/// What runs the boards of one problem.
pub trait Runner {
    ghost use Rattle.std.specs.Prelude.{Result};
    ghost use Rattle.cr_row.specs.declared.NoMemory.{NoMemory};
    ghost use Rattle.cr_model.specs.Problems.{ProblemParts};
    ghost use Rattle.cr_board.specs.Jobs.{OpeningParts};
    ghost use Rattle.cr_board.specs.Boards.{BoardParts};

    /// The problem.
    ghost searches: { Self → ProblemParts };

    /// Which openings it may be given.
    ghost takes: { Self → OpeningParts → Type 0 };

    /// What it answers to an opening.
    ghost gives: { Self → OpeningParts → Result BoardParts NoMemory → Type 0 };

    /// The problem whose boards it runs.
    fn problem(&self) -> &Problem
        ensures { result.now ≡ searches self.now };

    /// Opens a board and runs it to its end. Err where no memory is left.
    fn run(&self, opening: Opening) -> Result<Board, NoMemory>
        requires { takes self.now opening }
        ensures { gives self.now opening result };
}

/// A runner that calls a closure.
#[derive(Drop)]
pub struct ByCall<'a, F> {
    /// The problem whose boards it runs.
    pub problem: &'a Problem,
    /// What runs a board.
    pub call: F,
}

impl<'a, F: Fn(Opening) -> Result<Board, NoMemory>> Runner for ByCall<'a, F> {
    ghost searches = { λ runner. runner.problem.now };

    ghost takes = { λ runner. F.pre runner.call };

    ghost gives = { λ runner. F.post runner.call };

    fn problem(&self) -> &Problem {
        self.problem
    }

    fn run(&self, opening: Opening) -> Result<Board, NoMemory> {
        (self.call)(opening)
    }
}
