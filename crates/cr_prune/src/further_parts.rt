//! Whether further parts of a touch bring a row of its node again.

ghost use Rattle.std.specs.Prelude.{◌≡◌, ◌+◌, ◌*◌, ◌<◌, ◌≤◌, ◌↔◌, List, length, take, IsTrue, IfSome};
ghost use Rattle.cr_model.specs.Callings.{changes_of_all, rows_from, rows_of, HasSteps};
ghost use Rattle.cr_model.specs.Dead.{parts_of};
ghost use Rattle.cr_model.specs.Queries.{repeated};
ghost use Rattle.cr_leads.specs.Tables.{lead_table};
ghost use Rattle.cr_prune.specs.Holding.{AreFirst};
ghost use Rattle.cr_prune.specs.Parts.{AreNew, RingsPast};

use crate::first::FirstLeads;
use cr_leads::LeadTable;
use cr_model::Problem;
use cr_row::Row;

/// How many parts after the first have to be rung where the touch comes round: if a row of the node comes again later,
/// one comes again as many parts before the end.
pub fn parts_to_ring(problem: &Problem) -> usize
    ensures within { result < parts_of problem.now }
    ensures enough { parts_of problem.now ≤ 2 * result + 1 }
{
    problem.query().parts.unsigned_abs() as usize / 2
}

/// Whether so many parts, rung on from the head of the node, bring no row that its first leads have. It stops at the
/// first lead that does.
pub fn bring_new_rows(
    first: &FirstLeads,
    problem: &Problem,
    leads: &LeadTable,
    node: &[u8],
    head: Row,
    parts: usize,
) -> bool
    requires table { leads.now ≡ lead_table problem.now }
    requires first { AreFirst problem.now node.now first.now.held first.now.fresh }
    requires steps { HasSteps problem.now node.now }
    requires same_stage { length head ≡ problem.now.stage }
    ensures { IsTrue result ↔ AreNew (rows_of problem.now (take first.now.fresh node.now)) (rows_from head (changes_of_all problem.now (repeated parts node.now))) }
{
    let mut row = head;
    for _part in 0..parts {
        match ring_part(first, problem, leads, node, row) {
            Some(last) => row = last,
            None => return false,
        }
    }
    true
}

// Rings a part from a row, as long as no row comes that the first leads have, and gives the last row.
fn ring_part(
    first: &FirstLeads,
    problem: &Problem,
    leads: &LeadTable,
    node: &[u8],
    from: Row,
) -> Option<Row>
    requires table { leads.now ≡ lead_table problem.now }
    requires first { AreFirst problem.now node.now first.now.held first.now.fresh }
    requires steps { HasSteps problem.now node.now }
    requires same_stage { length from ≡ problem.now.stage }
    ensures past { RingsPast (rows_of problem.now (take first.now.fresh node.now)) from (changes_of_all problem.now node.now) result }
    ensures same_stage { IfSome result (λ last. length last ≡ problem.now.stage) }
{
    let mut row = from;
    for step in node {
        row = first.ring_past(problem, leads, row, *step)?;
    }
    Some(row)
}
