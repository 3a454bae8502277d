//! What takes turns on a job.

ghost use Rattle.std.specs.Prelude.{◌<◌, IfOk};
ghost use Rattle.cr_model.specs.Nodes.{Splits};
ghost use Rattle.cr_model.specs.Sizes.{most_rows, size_of_all};
ghost use Rattle.cr_node.specs.Work.{IsJob};

use cr_model::Calling;
use cr_node::Node;
use cr_row::NoMemory;
use std::alloc::Global;

/// What some turns on a job found and left.
#[derive(Drop)]
pub struct Findings {
    /// The kept touches that were found.
    pub found: Vec<Calling>,
    /// The nodes that are left.
    pub rest: Vec<Node>,
}

/// What finds the kept touches below nodes of one problem. How many nodes it looks at is its own affair.
pub trait Finder {
    ghost use Rattle.cr_model.specs.Problems.{ProblemParts};

    /// The problem.
    ghost finds: { Self → ProblemParts };

    /// Takes some turns on a job, about so many, and leaves less than the job. Err where no memory is left.
    fn find(&self, alloc: Global, job: &[Node], turns: u64) -> Result<Findings, NoMemory>
        requires job { IsJob (finds self.now) job.now }
        requires some { 0 < turns }
        ensures splits { IfOk result (λ done. Splits (finds self.now) job.now done.found.items done.rest.items) }
        ensures smaller { IfOk result (λ done. size_of_all (finds self.now) most_rows done.rest.items < size_of_all (finds self.now) most_rows job.now) };
}
