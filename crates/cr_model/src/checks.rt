//! The checks of the parts of a problem, in their order.

ghost use Rattle.std.specs.Prelude.{◌≡◌, ◌<◌, ◌≤◌, length, OnOk};
ghost use Rattle.cr_model.specs.Checks.{Answers, AnswersAll};
ghost use Rattle.cr_model.specs.Right.{LettersAreRight, LeadsAreRight};
ghost use Rattle.cr_model.specs.Faults.{checks, lead_checks, length_checks, query_checks, letters_check, leads_check, steps_check, range_check, depth_check, parts_check, counts_check, method_counts_check, patterns_check, com_check};
ghost use Rattle.cr_model.specs.GivenParts.{parts_in};
ghost use Rattle.cr_model.specs.Problems.{parts_from};
ghost use Rattle.cr_model.specs.Sound.{IsChecked};

use crate::copies::patterns_of;
use crate::count_checks::{com_is_right, limits_are_right, wrong_count, wrong_method_count};
use crate::fault::{CountAt, PartFault};
use crate::given::Parts;
use crate::lead::Lead;
use crate::lead_checks::wrong_lead;
use crate::lengths::{greatest_length, shortest_length};
use crate::letter_checks::wrong_letter;
use crate::limits::{MOST_LEADS, MOST_PARTS, MOST_STEPS};
use crate::pattern_checks::wrong_pattern;
use crate::query::{Count, MethodCount, Query};
use cr_row::Stage;

fn check_letters(parts: &Parts) -> Result<(), PartFault>
    ensures { Answers (letters_check (parts_in parts.now)) result }
{
    match wrong_letter(parts.letters) {
        Some(index) => Err(PartFault::Letters(index)),
        None => Ok(()),
    }
}

fn check_leads(parts: &Parts) -> Result<(), PartFault>
    requires { LettersAreRight parts.now.letters.now }
    ensures { Answers (leads_check (parts_in parts.now)) result }
{
    match wrong_lead(parts.stage, parts.letters.len(), parts.leads) {
        Some(index) => Err(PartFault::Leads(index)),
        None => Ok(()),
    }
}

fn check_steps(parts: &Parts) -> Result<(), PartFault>
    ensures { Answers (steps_check (parts_in parts.now)) result }
{
    if parts.leads.len() <= MOST_STEPS {
        Ok(())
    } else {
        Err(PartFault::Steps(parts.leads.len() as u64))
    }
}

fn check_range(parts: &Parts) -> Result<(), PartFault>
    ensures { Answers (range_check (parts_in parts.now)) result }
{
    let query = parts.query;
    if limits_are_right(1, query.min, query.max) {
        Ok(())
    } else {
        Err(PartFault::Range(query.min, query.max))
    }
}

fn check_depth(parts: &Parts) -> Result<(), PartFault>
    requires { LeadsAreRight parts.now.stage (length parts.now.letters.now) parts.now.leads.now }
    ensures is { Answers (depth_check (parts_in parts.now)) result }
    ensures stage { (3 ≤ parts.now.stage) × (parts.now.stage ≤ 16) }
{
    let query = parts.query;
    let depth = greatest_length(parts.stage, query.max) / shortest_length(parts.leads);
    if depth <= MOST_LEADS as u64 {
        Ok(())
    } else {
        Err(PartFault::Deep(depth))
    }
}

fn check_parts(parts: &Parts) -> Result<(), PartFault>
    ensures { Answers (parts_check (parts_in parts.now)) result }
{
    let query = parts.query;
    if 1 <= query.parts && query.parts <= MOST_PARTS {
        Ok(())
    } else {
        Err(PartFault::Parts(query.parts))
    }
}

fn counts_of(query: &Query) -> &[Count]
    ensures { result.now ≡ query.now.counts }
{
    query.counts.as_slice()
}

fn method_counts_of(query: &Query) -> &[MethodCount]
    ensures { result.now ≡ query.now.method_counts }
{
    query.method_counts.as_slice()
}

fn check_counts(parts: &Parts) -> Result<(), PartFault>
    ensures { Answers (counts_check (parts_in parts.now)) result }
{
    match wrong_count(parts.leads, counts_of(parts.query)) {
        Some(index) => Err(PartFault::Count(CountAt::Mark(index))),
        None => Ok(()),
    }
}

fn check_method_counts(parts: &Parts) -> Result<(), PartFault>
    ensures { Answers (method_counts_check (parts_in parts.now)) result }
{
    match wrong_method_count(parts.letters, method_counts_of(parts.query)) {
        Some(index) => Err(PartFault::Count(CountAt::Method(index))),
        None => Ok(()),
    }
}

fn check_patterns(parts: &Parts) -> Result<(), PartFault>
    ensures { Answers (patterns_check (parts_in parts.now)) result }
{
    match wrong_pattern(parts.stage, patterns_of(parts.query)) {
        Some(index) => Err(PartFault::Pattern(index)),
        None => Ok(()),
    }
}

fn check_com(parts: &Parts) -> Result<(), PartFault>
    ensures { Answers (com_check (parts_in parts.now)) result }
{
    let query = parts.query;
    if com_is_right(query.com) {
        Ok(())
    } else {
        Err(PartFault::Com)
    }
}

// The checks of what is rung.
fn check_rung(parts: &Parts) -> Result<(), PartFault>
    ensures { AnswersAll (lead_checks (parts_in parts.now)) result }
{
    check_letters(parts)?;
    check_leads(parts)?;
    check_steps(parts)
}

// The checks of how long it is.
fn check_lengths(parts: &Parts) -> Result<(), PartFault>
    requires { LeadsAreRight parts.now.stage (length parts.now.letters.now) parts.now.leads.now }
    ensures is { AnswersAll (length_checks (parts_in parts.now)) result }
    ensures stage { OnOk result ((3 ≤ parts.now.stage) × (parts.now.stage ≤ 16)) }
{
    check_range(parts)?;
    check_depth(parts)?;
    check_parts(parts)
}

// The checks of what it has.
fn check_query(parts: &Parts) -> Result<(), PartFault>
    ensures { AnswersAll (query_checks (parts_in parts.now)) result }
{
    check_counts(parts)?;
    check_method_counts(parts)?;
    check_patterns(parts)?;
    check_com(parts)
}

// All of them.
fn check_parts_of(parts: &Parts) -> Result<(), PartFault>
    ensures is { AnswersAll (checks (parts_in parts.now)) result }
    ensures stage { OnOk result ((3 ≤ parts.now.stage) × (parts.now.stage ≤ 16)) }
{
    check_rung(parts)?;
    check_lengths(parts)?;
    check_query(parts)
}

/// All checks, in their order: the fault is that of the first that does not hold.
pub fn check_all(
    stage: Stage,
    letters: &[u8],
    leads: &[Lead],
    query: &Query,
) -> Result<(), PartFault>
    ensures { IsChecked (parts_from stage letters.now leads.now query.now) result }
{
    let parts = Parts {
        stage,
        letters,
        leads,
        query,
    };
    check_parts_of(&parts)
}
