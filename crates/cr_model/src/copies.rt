//! Copies of leads and queries, and whether two are the same.

ghost use Rattle.std.specs.Prelude.{◌≡◌, ◌↔◌, List, IsTrue, IfOk};

use crate::lead::Lead;
use crate::query::{Pattern, Query};
use cr_row::NoMemory;
use std::alloc::Global;

fn copy_lead(alloc: Global, lead: &Lead) -> Result<Lead, NoMemory>
    ensures { IfOk result (λ copy. copy ≡ lead.now) }
{
    let changes = lead.changes.as_slice().to_vec(alloc)?;
    Ok(Lead {
        step: lead.step,
        changes,
    })
}

/// The same leads again.
pub fn copy_leads(alloc: Global, leads: &[Lead]) -> Result<Vec<Lead>, NoMemory>
    ensures { IfOk result (λ copies. copies.items ≡ leads.now) }
{
    let mut copies = Vec::new(alloc);
    for lead in leads {
        copies.push(copy_lead(alloc, lead)?)?;
    }
    Ok(copies)
}

fn copy_pattern(alloc: Global, pattern: &Pattern) -> Result<Pattern, NoMemory>
    ensures { IfOk result (λ copy. copy ≡ pattern.now) }
{
    let cells = pattern.cells.as_slice().to_vec(alloc)?;
    Ok(Pattern {
        cells,
        min: pattern.min,
        max: pattern.max,
    })
}

fn copy_patterns(alloc: Global, patterns: &[Pattern]) -> Result<Vec<Pattern>, NoMemory>
    ensures { IfOk result (λ copies. copies.items ≡ patterns.now) }
{
    let mut copies = Vec::new(alloc);
    for pattern in patterns {
        copies.push(copy_pattern(alloc, pattern)?)?;
    }
    Ok(copies)
}

/// The same query again.
pub fn copy_query(alloc: Global, query: &Query) -> Result<Query, NoMemory>
    ensures { IfOk result (λ copy. copy ≡ query.now) }
{
    let counts = query.counts.as_slice().to_vec(alloc)?;
    let method_counts = query.method_counts.as_slice().to_vec(alloc)?;
    let patterns = copy_patterns(alloc, &query.patterns)?;
    Ok(Query {
        min: query.min,
        max: query.max,
        parts: query.parts,
        counts,
        method_counts,
        patterns,
        com: query.com,
    })
}

fn same_step(lead: &Lead, other: &Lead) -> bool
    ensures { IsTrue result ↔ (lead.now.step ≡ other.now.step) }
{
    lead.step == other.step
}

fn same_changes(lead: &Lead, other: &Lead) -> bool
    ensures { IsTrue result ↔ (lead.now.changes ≡ other.now.changes) }
{
    lead.changes.as_slice() == other.changes.as_slice()
}

#[tactic(auto, using(crate::specs::Problems::same_lead_parts))]
fn same_lead(lead: &Lead, other: &Lead) -> bool
    ensures { IsTrue result ↔ (lead.now ≡ other.now) }
{
    same_step(lead, other) && same_changes(lead, other)
}

/// Whether the leads are the same, one by one.
pub fn same_leads(leads: &[Lead], others: &[Lead]) -> bool
    ensures { IsTrue result ↔ (leads.now ≡ others.now) }
{
    if leads.len() != others.len() {
        return false;
    }
    for index in 0..leads.len() {
        if !same_lead(&leads[index], &others[index]) {
            return false;
        }
    }
    true
}

/// The patterns of a query.
pub fn patterns_of(query: &Query) -> &[Pattern]
    ensures { result.now ≡ query.now.patterns }
{
    query.patterns.as_slice()
}

fn same_limits(pattern: &Pattern, other: &Pattern) -> bool
    ensures { IsTrue result ↔ ((pattern.now.min ≡ other.now.min) × (pattern.now.max ≡ other.now.max)) }
{
    pattern.min == other.min && pattern.max == other.max
}

fn same_cells(pattern: &Pattern, other: &Pattern) -> bool
    ensures { IsTrue result ↔ (pattern.now.cells ≡ other.now.cells) }
{
    pattern.cells.as_slice() == other.cells.as_slice()
}

#[tactic(auto, using(crate::specs::Problems::same_pattern_parts))]
fn same_pattern(pattern: &Pattern, other: &Pattern) -> bool
    ensures { IsTrue result ↔ (pattern.now ≡ other.now) }
{
    same_cells(pattern, other) && same_limits(pattern, other)
}

fn same_patterns(patterns: &[Pattern], others: &[Pattern]) -> bool
    ensures { IsTrue result ↔ (patterns.now ≡ others.now) }
{
    if patterns.len() != others.len() {
        return false;
    }
    for index in 0..patterns.len() {
        if !same_pattern(&patterns[index], &others[index]) {
            return false;
        }
    }
    true
}

fn same_numbers(query: &Query, other: &Query) -> bool
    ensures { IsTrue result ↔
        ((query.now.min ≡ other.now.min) × (query.now.max ≡ other.now.max) × (query.now.parts ≡ other.now.parts)) }
{
    query.min == other.min && query.max == other.max && query.parts == other.parts
}

fn same_counts(query: &Query, other: &Query) -> bool
    ensures { IsTrue result ↔ (query.now.counts ≡ other.now.counts) }
{
    query.counts.as_slice() == other.counts.as_slice()
}

fn same_method_counts(query: &Query, other: &Query) -> bool
    ensures { IsTrue result ↔ (query.now.method_counts ≡ other.now.method_counts) }
{
    query.method_counts.as_slice() == other.method_counts.as_slice()
}

fn same_others(query: &Query, other: &Query) -> bool
    ensures { IsTrue result ↔ ((query.now.patterns ≡ other.now.patterns) × (query.now.com ≡ other.now.com)) }
{
    same_patterns(patterns_of(query), patterns_of(other)) && query.com == other.com
}

/// Whether the queries are the same.
#[tactic(auto, using(crate::specs::Problems::same_query_parts))]
pub fn same_query(query: &Query, other: &Query) -> bool
    ensures { IsTrue result ↔ (query.now ≡ other.now) }
{
    same_numbers(query, other)
        && same_counts(query, other)
        && same_method_counts(query, other)
        && same_others(query, other)
}
