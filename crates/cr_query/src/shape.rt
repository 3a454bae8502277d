//! Compiled patterns.

ghost use Rattle.std.specs.Prelude.{◌≡◌, ◌<◌, ◌≤◌, List, length, map, count_by, All, IfOk};
ghost use Rattle.cr_row.specs.Rows.{product};
ghost use Rattle.cr_model.specs.declared.query.Cell.{Cell};
ghost use Rattle.cr_model.specs.Right.{FitsStage};
ghost use Rattle.cr_model.specs.Queries.{fits, rows_fitting};
ghost use Rattle.std.specs.List.{list_all};
ghost use Rattle.cr_query.specs.Fixing.{is_at};
ghost use Rattle.cr_query.specs.Shapes.{shape_of, has_shape};

use crate::fixing::{Fixed, fixed_places};
use cr_model::Cell;
use cr_row::{NoMemory, Row, Stage};
use std::alloc::Global;
use std::marker::Model;

/// The cells of a pattern, compiled to the bells that they fix at places of a stage.
///
/// It is seen as the stage and what the cells fix.
#[derive(Drop)]
pub struct Shape {
    stage: Stage,
    fixed: Vec<Fixed>,
}

impl Model for Shape {
    ghost use Rattle.std.specs.Prelude.{◌≤◌};
    ghost use Rattle.cr_query.specs.Shapes.{ShapeParts, shape_from, IsShape};

    ghost Value = { ShapeParts };

    ghost view = { λ s. shape_from s.stage s.fixed.items };

    ghost invariant = { λ s. IsShape (shape_from s.stage s.fixed.items) × (s.stage ≤ 16) };
}

impl Shape {
    /// The shape of the cells of a pattern of this stage. Err where no memory is left.
    pub fn new(alloc: Global, stage: Stage, cells: &[Cell]) -> Result<Shape, NoMemory>
        requires { FitsStage stage cells.now }
        ensures { IfOk result (λ shape. shape ≡ shape_of stage cells.now) }
    {
        let fixed = fixed_places(alloc, stage, cells)?;
        Ok(Shape { stage, fixed })
    }

    /// Whether a row fits the cells. It is given up at the first place that misses.
    pub fn fits(&self, row: &Row) -> bool
        requires { length row.now ≡ self.now.stage }
        ensures is { result ≡ has_shape self.now row.now }
        ensures of_cells { (cells : List Cell) → FitsStage self.now.stage cells → self.now ≡ shape_of self.now.stage cells
            → result ≡ fits cells row.now }
    {
        has_all(&self.fixed, row)
    }

    /// How many of the rows fit the cells.
    pub fn count_rows(&self, rows: &[Row]) -> u64
        requires { All (λ row. length row ≡ self.now.stage) rows.now }
        ensures is { result ≡ count_by (has_shape self.now) rows.now }
        ensures of_cells { (cells : List Cell) → FitsStage self.now.stage cells → self.now ≡ shape_of self.now.stage cells
            → result ≡ rows_fitting cells rows.now }
        ensures few { result ≤ length rows.now }
    {
        let mut number = 0;
        for row in rows {
            if self.fits(row) {
                number += 1;
            }
        }
        number
    }

    /// How many of the products of a head with the rows of a lead fit the cells. No product is made.
    pub fn count_lead(&self, head: &Row, lead: &[Row]) -> u64
        requires head { length head.now ≡ self.now.stage }
        requires lead { All (λ row. length row ≡ self.now.stage) lead.now }
        ensures is { result ≡ count_by (has_shape self.now) (map (product head.now) lead.now) }
        ensures of_cells { (cells : List Cell) → FitsStage self.now.stage cells → self.now ≡ shape_of self.now.stage cells
            → result ≡ rows_fitting cells (map (product head.now) lead.now) }
        ensures few { result ≤ length lead.now }
    {
        let mut number = 0;
        for row in lead {
            if product_has_all(&self.fixed, head, row) {
                number += 1;
            }
        }
        number
    }
}

// Whether a row has each bell at its place.
fn has_all(fixed: &[Fixed], row: &Row) -> bool
    requires few { length row.now ≤ 16 }
    requires within { All (λ fixed. fixed.place < length row.now) fixed.now }
    ensures { result ≡ list_all (is_at row.now) fixed.now }
{
    for one in fixed {
        if one.bell != row.bell_at(one.place + 1) {
            return false;
        }
    }
    true
}

// Whether the product of a head with a row has each bell at its place.
#[tactic(auto, using(crate::proofs::Fitting::product_at))]
fn product_has_all(fixed: &[Fixed], head: &Row, row: &Row) -> bool
    requires few { length row.now ≤ 16 }
    requires within { All (λ fixed. fixed.place < length row.now) fixed.now }
    requires same_stage { length row.now ≡ length head.now }
    ensures { result ≡ list_all (is_at (product head.now row.now)) fixed.now }
{
    for one in fixed {
        if one.bell != head.bell_at(row.bell_at(one.place + 1)) {
            return false;
        }
    }
    true
}
