//! What explores jobs.

ghost use Rattle.std.specs.Prelude.{◌≡◌, ℕ, ◌≤◌, ◌⊎◌, List, [], IfOk};
ghost use Rattle.cr_model.specs.Problems.{ProblemParts};
ghost use Rattle.cr_node.specs.Work.{Work, IsJob};

use crate::done::Done;
use crate::node::Node;
use cr_model::Problem;
use cr_row::NoMemory;
use std::alloc::Global;

/// Explores jobs of one problem.
pub trait Explorer {
    /// The problem.
    ghost explores: { Self → ProblemParts };

    /// What else this explorer promises of a job, the turns allowed, and the finished work.
    ghost gives: { Self → List (List ℕ) → ℕ → Work → Type 0 };

    /// The problem that it explores.
    fn problem(&self) -> &Problem
        ensures { result.now ≡ explores self.now };

    /// Explores a job in at most so many turns: less where nothing of the job is left then. Err where no memory is
    /// left.
    fn explore(&self, alloc: Global, job: &[Node], turns: u64) -> Result<Done, NoMemory>
        requires { IsJob (explores self.now) job.now }
        ensures problem { IfOk result (λ done. done.problem ≡ explores self.now) }
        ensures job { IfOk result (λ done. done.job ≡ job.now) }
        ensures turns { IfOk result (λ done. done.used ≤ turns) }
        ensures ends { IfOk result (λ done. (done.rest ≡ []) ⊎ (done.used ≡ turns)) }
        ensures own { IfOk result (λ done. gives self.now job.now turns done) };
}
