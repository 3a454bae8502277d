//! Lead tables.

ghost use Rattle.std.specs.Prelude.{◌≡◌, ℕ, ◌<◌, ◌≤◌, List, [], ◌∷◌, ◌++◌, length, get_or, All, IfOk};
ghost use Rattle.cr_row.specs.Rows.{IsRow, rounds, product};
ghost use Rattle.cr_model.specs.Problems.{ProblemParts};
ghost use Rattle.cr_model.specs.Callings.{rows_from, rows_of, head_of};
ghost use Rattle.cr_leads.specs.Tables.{lead_table, lead_rows, lead_head, HasLeads, AreRows, IsLead, IsTable};
ghost use Rattle.cr_leads.specs.Spans.{leads_in, AreInside};
ghost use Rattle.cr_leads.specs.Rungs.{IsRung};

use crate::differing::rows_differ;
use crate::ringing::{ends_in_rounds, last_row, ring_changes, ring_lead};
use crate::rung::Rung;
use cr_model::laws::joined_callings_multiply;
use cr_model::{Calling, Problem};
use cr_row::{Change, NoMemory, Row, Stage, change_of_a_row, product_of_rows, rounds_is_neutral};
use std::alloc::Global;
use std::marker::Model;

// Where the rows of a lead begin and end among all rows.
#[derive(Clone, Copy)]
struct Span {
    start: usize,
    end: usize,
}

/// The rows of each lead of a problem, rung from rounds.
///
/// It is seen as the stage and the lists of rows, by step number.
#[derive(Drop)]
pub struct LeadTable {
    stage: Stage,
    // The rows of all leads, one lead's after another's.
    rows: Vec<Row>,
    spans: Vec<Span>,
}

impl Model for LeadTable {
    ghost use Rattle.cr_leads.specs.Tables.{TableParts, table_from};

    ghost Value = { TableParts };

    ghost use Rattle.cr_leads.specs.Spans.{leads_in, AreKept};

    ghost view = { λ t. table_from t.stage (leads_in t.rows.items t.spans.items) };

    ghost invariant = { λ t. AreKept t.stage t.rows.items t.spans.items };
}

impl LeadTable {
    /// The table of a problem. Err where no memory is left.
    pub fn new(alloc: Global, problem: &Problem) -> Result<LeadTable, NoMemory>
        ensures { IfOk result (λ table. table ≡ lead_table problem.now) }
    {
        change_of_a_row();
        rounds_is_neutral();
        let stage = problem.stage();
        let leads = problem.leads();
        let mut rows = Vec::new(alloc);
        let mut spans = Vec::with_capacity(alloc, leads.len())?;
        for lead in leads {
            lay(&mut rows, &mut spans, stage, &lead.changes)?;
        }
        Ok(LeadTable { stage, rows, spans })
    }

    /// The number of bells.
    pub fn stage(&self) -> Stage
        ensures is { result ≡ self.now.stage }
        ensures sound { IsTable self.now }
    {
        self.stage
    }

    /// The number of steps: a step exists exactly where it is below this.
    pub fn count(&self) -> u8
        ensures is { result ≡ length self.now.leads }
        ensures of_problem { (p : ProblemParts) → self.now ≡ lead_table p → result ≡ length p.leads }
        ensures sound { IsTable self.now }
    {
        self.spans.len() as u8
    }

    /// The rows of a step that is rung from rounds, in their order.
    pub fn rows_of(&self, step: u8) -> &[Row]
        requires { step < length self.now.leads }
        ensures is { result.now ≡ lead_rows self.now step }
        ensures of_problem { (p : ProblemParts) → self.now ≡ lead_table p → result.now ≡ rows_of p (step ∷ []) }
        ensures lead { IsLead self.now.stage result.now }
    {
        lead_at(&self.rows, &self.spans, step)
    }

    /// The last row of a step that is rung from rounds.
    pub fn head_of(&self, step: u8) -> Row
        requires { step < length self.now.leads }
        ensures is { result ≡ lead_head self.now step }
        ensures of_problem { (p : ProblemParts) → self.now ≡ lead_table p → result ≡ head_of p (step ∷ []) }
        ensures row { IsRow result × (length result ≡ self.now.stage) }
    {
        last_row(self.rows_of(step))
    }

    /// The last row of a calling, or rounds where it is empty. It takes no memory.
    pub fn head_after(&self, calling: &Calling) -> Row
        requires { HasLeads self.now calling.now }
        ensures is { (p : ProblemParts) → self.now ≡ lead_table p → result ≡ head_of p calling.now }
        ensures row { IsRow result × (length result ≡ self.now.stage) }
    {
        head_of_all(self, calling.steps())
    }

    /// The rows of a calling, in their order. Err where no memory is left.
    pub fn rows(&self, alloc: Global, calling: &Calling) -> Result<Vec<Row>, NoMemory>
        requires { HasLeads self.now calling.now }
        ensures is { IfOk result (λ rows. (p : ProblemParts) → self.now ≡ lead_table p → rows.items ≡ rows_of p calling.now) }
        ensures rows { IfOk result (λ rows. AreRows self.now.stage rows.items) }
    {
        rows_of_all(alloc, self, calling.steps())
    }

    /// The rows of a calling, whether it comes round and whether they differ. Err where no memory is left.
    pub fn ring(&self, alloc: Global, calling: &Calling) -> Result<Rung, NoMemory>
        requires { HasLeads self.now calling.now }
        ensures is { IfOk result (λ rung. (p : ProblemParts) → self.now ≡ lead_table p → IsRung p calling.now rung) }
        ensures rows { IfOk result (λ rung. AreRows self.now.stage rung.rows.items) }
    {
        let rows = rows_of_all(alloc, self, calling.steps())?;
        let round = ends_in_rounds(&rows, self.stage());
        let distinct = rows_differ(alloc, &rows)?;
        Ok(Rung {
            rows,
            round,
            distinct,
        })
    }
}

// Rings a lead from rounds, and appends its rows and its span.
fn lay(
    rows: &mut Vec<Row>,
    spans: &mut Vec<Span>,
    stage: Stage,
    changes: &[Change],
) -> Result<(), NoMemory>
    requires staged { All (λ change. change.stage ≡ stage) changes.now }
    requires within { AreInside rows.old.items spans.old.items }
    ensures within { IfOk result (λ _. AreInside rows.new.items spans.new.items) }
    ensures leads { IfOk result (λ _. leads_in rows.new.items spans.new.items
        ≡ leads_in rows.old.items spans.old.items ++ rows_from (rounds stage) changes.now ∷ []) }
{
    let start = rows.len();
    ring_changes(rows, Row::rounds(stage), changes)?;
    let end = rows.len();
    spans.push(Span { start, end })?;
    Ok(())
}

// The rows of the lead with this number.
fn lead_at<'a>(rows: &'a [Row], spans: &[Span], step: u8) -> &'a [Row]
    requires step { step < length spans.now }
    requires within { AreInside rows.now spans.now }
    ensures { result.now ≡ get_or (leads_in rows.now spans.now) step [] }
{
    let span = spans[usize::from(step)];
    &rows[span.start..span.end]
}

// The head of some steps, rung one after another.
fn head_of_all(table: &LeadTable, steps: &[u8]) -> Row
    requires { HasLeads table.now steps.now }
    ensures is { (p : ProblemParts) → table.now ≡ lead_table p → result ≡ head_of p steps.now }
    ensures row { IsRow result × (length result ≡ table.now.stage) }
{
    joined_callings_multiply();
    rounds_is_neutral();
    let mut head = Row::rounds(table.stage());
    for step in steps {
        head = next_head(table, head, *step);
    }
    head
}

// The head after one more lead, which is rung from this row.
fn next_head(table: &LeadTable, head: Row, step: u8) -> Row
    requires step { step < length table.now.leads }
    requires row { IsRow head × (length head ≡ table.now.stage) }
    ensures is { (p : ProblemParts) → table.now ≡ lead_table p → result ≡ product head (head_of p (step ∷ [])) }
    ensures row { IsRow result × (length result ≡ table.now.stage) }
{
    product_of_rows();
    head.times(&table.head_of(step))
}

// The rows of some steps, rung one after another.
fn rows_of_all(alloc: Global, table: &LeadTable, steps: &[u8]) -> Result<Vec<Row>, NoMemory>
    requires { HasLeads table.now steps.now }
    ensures is { IfOk result (λ rows.
        (p : ProblemParts) → table.now ≡ lead_table p → rows.items ≡ rows_of p steps.now) }
    ensures rows { IfOk result (λ rows. AreRows table.now.stage rows.items) }
{
    joined_callings_multiply();
    product_of_rows();
    rounds_is_neutral();
    let mut head = Row::rounds(table.stage());
    let mut rows = Vec::new(alloc);
    for step in steps {
        head = ring_lead(&mut rows, head, table.rows_of(*step))?;
    }
    Ok(rows)
}
