//! What is asked of a touch.

use std::marker::Model;

/// Limits on the leads with a mark, over the whole touch.
#[derive(Clone, Copy, Debug, PartialEq, Eq)]
pub struct Count {
    pub mark: u8,
    pub min: i64,
    pub max: i64,
}

/// Limits on the leads of a method, over the whole touch.
#[derive(Clone, Copy, Debug, PartialEq, Eq)]
pub struct MethodCount {
    pub letter: u8,
    pub min: i64,
    pub max: i64,
}

/// A cell of a pattern: one bell, any one bell, or any number of bells.
#[derive(Clone, Copy, Debug, PartialEq, Eq)]
pub enum Cell {
    Bell(u8),
    Any,
    Run,
}

/// Limits on the rows that fit some cells.
#[derive(Drop)]
pub struct Pattern {
    pub cells: Vec<Cell>,
    pub min: i64,
    pub max: i64,
}

impl Model for Pattern {
    ghost use Rattle.cr_model.specs.Problems.{PatternParts};

    ghost Value = { PatternParts };

    ghost view = { λ p. record { cells = p.cells.items; min = p.min; max = p.max } };
}

/// Limits on the changes of method.
#[derive(Clone, Copy, Debug, PartialEq, Eq)]
pub struct Com {
    pub min: i64,
    pub max: i64,
}

/// What is asked of a touch.
#[derive(Drop)]
pub struct Query {
    pub min: i64,
    pub max: i64,
    pub parts: i64,
    pub counts: Vec<Count>,
    pub method_counts: Vec<MethodCount>,
    pub patterns: Vec<Pattern>,
    pub com: Option<Com>,
}

impl Model for Query {
    ghost use Rattle.cr_model.specs.Problems.{QueryParts};

    ghost Value = { QueryParts };

    ghost view = { λ q. record {
      min = q.min;
      max = q.max;
      parts = q.parts;
      counts = q.counts.items;
      method_counts = q.method_counts.items;
      patterns = q.patterns.items;
      «com» = q.com;
    } };
}
