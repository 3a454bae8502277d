//! What a problem file asks of a touch.

ghost use Rattle.std.specs.Prelude.{◌≡◌, map, IfOk};
ghost use Rattle.std.specs.List.{range_with_len};
ghost use Rattle.cr_model.specs.ProblemFiles.{count_of, method_count_of, bell_cell, cell_of, pattern_of, query_of};

use crate::file_parts::{File, Limited};
use crate::letters::byte_of;
use cr_model::{Cell, Count, MethodCount, Pattern, Query};
use cr_row::symbol;
use std::alloc::{AllocError, Global};

fn counts_of(alloc: Global, limits: &[Limited]) -> Result<Vec<Count>, AllocError>
    ensures { IfOk result (λ counts. counts.items ≡ map count_of limits.now) }
{
    let mut counts = Vec::new(alloc);
    for limited in limits {
        counts.push(Count {
            mark: byte_of(limited.text),
            min: limited.min,
            max: limited.max,
        })?;
    }
    Ok(counts)
}

fn method_counts_of(alloc: Global, limits: &[Limited]) -> Result<Vec<MethodCount>, AllocError>
    ensures { IfOk result (λ counts. counts.items ≡ map method_count_of limits.now) }
{
    let mut counts = Vec::new(alloc);
    for limited in limits {
        counts.push(MethodCount {
            letter: byte_of(limited.text),
            min: limited.min,
            max: limited.max,
        })?;
    }
    Ok(counts)
}

// The cell of a bell's symbol. Another byte names bell 17, which no stage has.
fn bell_cell(byte: u8) -> Cell
    ensures { result ≡ bell_cell (range_with_len 1 16) byte }
{
    for bell in 1..17 {
        if byte == symbol(bell) {
            return Cell::Bell(bell);
        }
    }
    Cell::Bell(17)
}

fn cell_of(byte: u8) -> Cell
    ensures { result ≡ cell_of byte }
{
    match byte {
        b'?' => Cell::Any,
        b'*' => Cell::Run,
        _ => bell_cell(byte),
    }
}

fn cells_of(alloc: Global, text: &[u8]) -> Result<Vec<Cell>, AllocError>
    ensures { IfOk result (λ cells. cells.items ≡ map cell_of text.now) }
{
    let mut cells = Vec::new(alloc);
    for byte in text {
        cells.push(cell_of(*byte))?;
    }
    Ok(cells)
}

fn pattern_of(alloc: Global, limited: &Limited) -> Result<Pattern, AllocError>
    ensures { IfOk result (λ pattern. pattern ≡ pattern_of limited.now) }
{
    let cells = cells_of(alloc, limited.text.as_bytes())?;
    Ok(Pattern {
        cells,
        min: limited.min,
        max: limited.max,
    })
}

fn patterns_of(alloc: Global, limits: &[Limited]) -> Result<Vec<Pattern>, AllocError>
    ensures { IfOk result (λ patterns. patterns.items ≡ map pattern_of limits.now) }
{
    let mut patterns = Vec::new(alloc);
    for limited in limits {
        patterns.push(pattern_of(alloc, limited)?)?;
    }
    Ok(patterns)
}

/// The query of a file.
pub fn query_of(alloc: Global, file: &File) -> Result<Query, AllocError>
    ensures { IfOk result (λ query. query ≡ query_of file.now) }
{
    let counts = counts_of(alloc, &file.counts)?;
    let method_counts = method_counts_of(alloc, &file.leads)?;
    let patterns = patterns_of(alloc, &file.patterns)?;
    Ok(Query {
        min: file.min,
        max: file.max,
        parts: file.parts,
        counts,
        method_counts,
        patterns,
        com: file.com,
    })
}
