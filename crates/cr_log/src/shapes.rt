//! The shapes of a query's patterns.

ghost use Rattle.std.specs.Prelude.{◌≡◌, ◌<◌, ℕ, length, map, IfOk};
ghost use Rattle.cr_model.specs.Right.{FitsStage, pattern_at};
ghost use Rattle.cr_query.specs.Shapes.{shape_of};
ghost use Rattle.cr_log.specs.Logging.{AreShapes};

use cr_model::{Pattern, Problem, Query};
use cr_query::Shape;
use cr_row::{NoMemory, Stage};
use std::alloc::Global;

/// The shape of each pattern, in their order. Err where no memory is left.
pub fn shapes_of(alloc: Global, problem: &Problem) -> Result<Vec<Shape>, NoMemory>
    ensures { IfOk result (λ shapes. AreShapes problem.now shapes.items) }
{
    compiled(alloc, problem.stage(), patterns_of(problem.query()))
}

// The patterns of a query.
pub fn patterns_of(query: &Query) -> &[Pattern]
    ensures { result.now ≡ query.now.patterns }
{
    query.patterns.as_slice()
}

fn compiled(alloc: Global, stage: Stage, patterns: &[Pattern]) -> Result<Vec<Shape>, NoMemory>
    requires { (i : ℕ) → i < length patterns.now → FitsStage stage (pattern_at patterns.now i).cells }
    ensures { IfOk result (λ shapes. shapes.items ≡ map (λ pattern. shape_of stage pattern.cells) patterns.now) }
{
    let mut shapes = Vec::with_capacity(alloc, patterns.len())?;
    for pattern in patterns {
        shapes.push(Shape::new(alloc, stage, &pattern.cells)?)?;
    }
    Ok(shapes)
}
