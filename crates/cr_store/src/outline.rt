//! What stays of the lines of a checkpoint once found touches and nodes were read from them.

ghost use Rattle.std.specs.Prelude.{◌≡◌, length, map, IfOk};
ghost use Rattle.cr_store.specs.Shapes.{found_line};
ghost use Rattle.cr_store.specs.ShapeReads.{shape_parts};
ghost use Rattle.cr_store.specs.Lines.{outline_of};
ghost use Rattle.cr_store.specs.Reading.{lines_of_jobs, outline_parts};

use crate::shape::{NodeLine, Shape};
use cr_row::NoMemory;
use std::alloc::Global;

/// Of the lines of a checkpoint, how many there are.
#[derive(Drop)]
pub struct Outline {
    /// The number of the line `found`, from 1.
    pub found_at: u64,
    /// How many found touches there are.
    pub touches: usize,
    /// How many nodes each job has.
    pub sizes: Vec<usize>,
}

impl Outline {
    /// The outline of a shape. Err where no memory is left.
    pub fn of(alloc: Global, shape: &Shape) -> Result<Outline, NoMemory>
        requires { shape.now.found_at ≡ found_line (shape_parts shape.now) }
        ensures { IfOk result (λ outline. outline_parts outline ≡ outline_of (shape_parts shape.now)) }
    {
        let sizes = sizes_of(alloc, &shape.jobs)?;
        Ok(Outline {
            found_at: shape.found_at,
            touches: shape.found.len(),
            sizes,
        })
    }
}

// How many nodes each job has.
fn sizes_of(alloc: Global, jobs: &[Vec<NodeLine>]) -> Result<Vec<usize>, NoMemory>
    ensures { IfOk result (λ sizes. sizes.items ≡ map length (lines_of_jobs jobs.now)) }
{
    let mut sizes = Vec::with_capacity(alloc, jobs.len())?;
    for job in jobs {
        sizes.push(job.len())?;
    }
    Ok(sizes)
}
