//! The reasons to cut, read line by line for a node that is rung afresh.

ghost use Rattle.std.specs.Prelude.{◌<◌};

use cr_leads::{LeadTable, Rung};
use cr_model::{Calling, Problem, Reason, Step};
use cr_reach::ReachTable;
use cr_row::Row;
use std::alloc::Global;
use std::test::*;

/// The reasons, in their order.
pub const REASONS: [Reason; 8] = [
    Reason::Long,
    Reason::SelfFalse,
    Reason::Again,
    Reason::Home,
    Reason::Far,
    Reason::TooMany,
    Reason::TooFew,
    Reason::TurnsBack,
];

/// Which of them hold of a node.
pub fn reasons(
    alloc: Global,
    problem: &Problem,
    leads: &LeadTable,
    reach: &ReachTable,
    node: &[u8],
) -> Result<[bool; 8], Fail> {
    let rung = ring(alloc, leads, node)?;
    let last = ring(alloc, leads, &node[node.len().saturating_sub(1)..])?;
    let length = rung.rows.len() as u64;
    let left = problem.part_cap().saturating_sub(length) / problem.shortest();
    Ok([
        length > problem.part_cap(),
        !last.distinct,
        !rung.distinct,
        is_round(problem, &rung),
        is_far(problem, reach, &rung.rows),
        has_too_many(problem, node),
        has_too_few(problem, node, left),
        problem.query().com.is_none() && turns_back(node),
    ])
}

/// Whether all rows of a node's touch differ.
pub fn touch_differs(
    alloc: Global,
    problem: &Problem,
    leads: &LeadTable,
    node: &[u8],
) -> Result<bool, Fail> {
    let mut touch = Vec::new(alloc);
    for _part in 0..problem.query().parts.unsigned_abs() {
        touch.extend_from_slice(node)?;
    }
    Ok(ring(alloc, leads, &touch)?.distinct)
}

fn ring(alloc: Global, leads: &LeadTable, steps: &[u8]) -> Result<Rung, Fail> {
    let Ok(calling) = Calling::new(steps.to_vec(alloc)?) else {
        return Err(Fail::from("the calling is short"));
    };
    if !calling.steps().iter().all(|step| *step < leads.count()) {
        return Err(Fail::from("a step does not exist"));
    }
    match leads.ring(alloc, &calling) {
        Ok(rung) => Ok(rung),
        Err(_) => Err(Fail::from("there is memory")),
    }
}

fn is_round(problem: &Problem, rung: &Rung) -> bool {
    let before = &rung.rows[..rung.rows.len().saturating_sub(1)];
    before.contains(&Row::rounds(problem.stage())) || rung.round && problem.query().parts > 1
}

fn is_far(problem: &Problem, reach: &ReachTable, rows: &[Row]) -> bool {
    match rows.last() {
        Some(head) => {
            let least = problem
                .shortest()
                .saturating_mul(u64::from(reach.at_least(head)));
            least.saturating_add(rows.len() as u64) > problem.cap()
        }
        None => false,
    }
}

fn has_too_many(problem: &Problem, node: &[u8]) -> bool {
    let query = problem.query();
    let parts = query.parts.unsigned_abs();
    for count in &query.counts {
        let number = marked(problem, node, count.mark).saturating_mul(parts);
        if number > count.max.unsigned_abs() {
            return true;
        }
    }
    match query.com {
        Some(com) => changes(problem, node).saturating_mul(parts) > com.max.unsigned_abs(),
        None => false,
    }
}

fn has_too_few(problem: &Problem, node: &[u8], left: u64) -> bool {
    let query = problem.query();
    let parts = query.parts.unsigned_abs();
    for count in &query.counts {
        let number = marked(problem, node, count.mark).saturating_add(left);
        if number.saturating_mul(parts) < count.min.unsigned_abs() {
            return true;
        }
    }
    match query.com {
        Some(com) => {
            let number = changes(problem, node)
                .saturating_add(left)
                .saturating_mul(parts);
            number.saturating_add(parts).saturating_sub(1) < com.min.unsigned_abs()
        }
        None => false,
    }
}

// How many leads have the mark.
fn marked(problem: &Problem, node: &[u8], mark: u8) -> u64 {
    let mut number: u64 = 0;
    for step in node {
        if step_of(problem, *step).mark == mark {
            number = number.saturating_add(1);
        }
    }
    number
}

// How often the method changes from a lead to the next.
fn changes(problem: &Problem, node: &[u8]) -> u64 {
    let mut number: u64 = 0;
    for index in 1..node.len() {
        let before = step_of(problem, node[index - 1]);
        if step_of(problem, node[index]).method != before.method {
            number = number.saturating_add(1);
        }
    }
    number
}

fn step_of(problem: &Problem, step: u8) -> Step {
    match problem.leads().get(usize::from(step)) {
        Some(lead) => lead.step,
        None => Step { method: 0, mark: 0 },
    }
}

// Whether some end of the word is less than its beginning.
fn turns_back(word: &[u8]) -> bool {
    for start in 1..word.len() {
        if word[start..] < word[..word.len() - start] {
            return true;
        }
    }
    false
}
