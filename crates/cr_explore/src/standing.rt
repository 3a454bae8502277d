//! Walks that stand at a node.

ghost use Rattle.std.specs.Prelude.{◌≡◌, ℕ, ◌≤◌, ◌↔◌, true, not, List, IsTrue};
ghost use Rattle.cr_row.specs.Rows.{rounds};
ghost use Rattle.cr_model.specs.Problems.{ProblemParts};
ghost use Rattle.cr_model.specs.Callings.{rows_of, length_of, head_of};
ghost use Rattle.cr_model.specs.OneTurn.{touch_of};
ghost use Rattle.cr_model.specs.Decided.{rows_differ};
ghost use Rattle.cr_model.specs.LeastRotations.{IsLeastRotation};
ghost use Rattle.cr_query.specs.Meeting.{MeetsCounts, MeetsMethodCounts};

use crate::coming_round::comes_round;
use cr_model::Problem;
use cr_path::NumberWalk;
use cr_prune::Walk;

/// A walk at a node, asked for what tells whether the node's touch is kept. Nothing that it tells takes memory.
pub trait Standing {
    /// The problem.
    ghost problem_of: { Self → ProblemParts };

    /// The node.
    ghost node_of: { Self → List ℕ };

    /// The steps of the node.
    fn steps(&self) -> &[u8]
        ensures { result.now ≡ node_of self.now };

    /// Whether the node's touch ends in rounds, where this is the problem.
    fn comes_round(&self, problem: &Problem) -> bool
        requires { problem_of self.now ≡ problem.now }
        ensures { IsTrue result ↔ (head_of problem.now (touch_of problem.now (node_of self.now)) ≡ rounds problem.now.stage) };

    /// The number of rows of the node.
    fn length(&self) -> u64
        ensures is { result ≡ length_of (problem_of self.now) (node_of self.now) }
        ensures few { result ≤ 12128 };

    /// Whether a row of the node stands twice.
    fn has_repeat(&self) -> bool
        ensures { result ≡ not (rows_differ (rows_of (problem_of self.now) (node_of self.now))) };

    /// Whether all rows of the node's touch differ, where those of the node do and the touch comes round.
    fn parts_differ(&self) -> bool
        requires fresh { rows_differ (rows_of (problem_of self.now) (node_of self.now)) ≡ true }
        requires round { head_of (problem_of self.now) (touch_of (problem_of self.now) (node_of self.now)) ≡ rounds (problem_of self.now).stage }
        ensures { result ≡ rows_differ (rows_of (problem_of self.now) (touch_of (problem_of self.now) (node_of self.now))) };

    /// Whether no rotation of the node is less than it.
    fn is_least(&self) -> bool
        ensures { IsTrue result ↔ IsLeastRotation (node_of self.now) };

    /// Whether the node's touch meets each count of marks and of methods.
    fn meets_counts(&self) -> bool
        ensures { IsTrue result ↔ (MeetsCounts (problem_of self.now) (touch_of (problem_of self.now) (node_of self.now))
            × MeetsMethodCounts (problem_of self.now) (touch_of (problem_of self.now) (node_of self.now))) };
}

impl<'a> Standing for Walk<'a> {
    ghost problem_of = { λ w. w.problem };

    ghost node_of = { λ w. w.node };

    fn steps(&self) -> &[u8] {
        self.steps()
    }

    fn comes_round(&self, problem: &Problem) -> bool {
        comes_round(problem, self.head())
    }

    fn length(&self) -> u64 {
        self.length()
    }

    fn has_repeat(&self) -> bool {
        self.has_repeat()
    }

    fn parts_differ(&self) -> bool {
        self.parts_differ()
    }

    fn is_least(&self) -> bool {
        self.is_least()
    }

    fn meets_counts(&self) -> bool {
        self.meets_counts()
    }
}

impl<'a, const WIDTH: usize, const COUNTS: usize, const STEPS: usize> Standing
    for NumberWalk<'a, WIDTH, COUNTS, STEPS> {
    ghost problem_of = { λ w. w.problem };

    ghost node_of = { λ w. w.node };

    #[inline(always)]
    fn steps(&self) -> &[u8] {
        self.steps()
    }

    #[inline(always)]
    fn comes_round(&self, _problem: &Problem) -> bool {
        self.comes_round()
    }

    #[inline(always)]
    fn length(&self) -> u64 {
        self.length()
    }

    #[inline(always)]
    fn has_repeat(&self) -> bool {
        self.has_repeat()
    }

    #[inline(always)]
    fn parts_differ(&self) -> bool {
        self.parts_differ()
    }

    #[inline(always)]
    fn is_least(&self) -> bool {
        self.is_least()
    }

    #[inline(always)]
    fn meets_counts(&self) -> bool {
        self.meets_counts()
    }
}
