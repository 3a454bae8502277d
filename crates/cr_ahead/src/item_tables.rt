//! The tables of a problem's items.

ghost use Rattle.std.specs.Prelude.{◌≡◌, ℕ, ◌*◌, ◌<◌, ◌≤◌, List, [], ◌++◌, length, map, All, replicate, IfOk};
ghost use Rattle.cr_leads.specs.Tables.{lead_table};
ghost use Rattle.cr_model.specs.Problems.{ProblemParts};
ghost use Rattle.cr_model.specs.Dead.{parts_of};
ghost use Rattle.cr_model.specs.Right.{FitsStage};
ghost use Rattle.cr_model.specs.Sound.{IsSound};
ghost use Rattle.cr_ahead.specs.Moves.{places_of, steps_of};
ghost use Rattle.cr_ahead.specs.Tables.{IsAhead};
ghost use Rattle.cr_ahead.specs.Items.{Item, count_item, method_item, pattern_item};
ghost use Rattle.cr_ahead.specs.Exact.{head_items, exact_patterns};
ghost use Rattle.cr_ahead.specs.Units.{IsRange};
ghost use Rattle.cr_ahead.specs.Outlooks.{AreGround, GainItem, IsTableOf, IsItemTable, AreItemTables, IsHomeTable};

use crate::ahead::Ahead;
use crate::item_gains::{fitting_gains, lettered_gains, marked_gains};
use crate::moves::Moves;
use crate::outlook::ItemTable;
use crate::units::Range;
use cr_leads::LeadTable;
use cr_model::{Count, MethodCount, Pattern, Problem, Query};
use cr_row::{NoMemory, Row};
use std::alloc::Global;

/// How many items there are of which the lead head tells all.
pub fn table_count(problem: &Problem) -> u64
    ensures is { result ≡ length (head_items problem.now) }
    ensures few { result ≤ 64 }
{
    let query = problem.query();
    let counts = counts_of(query).len() + method_counts_of(query).len();
    (counts + patterns_of(problem).len()) as u64
}

/// The table that tells whether there is a way home, where there are no such items. Err where no memory is left.
pub fn home_table(
    alloc: Global,
    problem: &Problem,
    heads: &[Row],
    range: Range,
    moves: &Moves,
) -> Result<Option<Ahead>, NoMemory>
    requires ground { AreGround problem.now heads.now range moves.now }
    requires gains { moves.now.gains ≡ replicate (length heads.now * length problem.now.leads) 0 }
    ensures { IfOk result (λ home. IsHomeTable problem.now heads.now range.unit home) }
{
    if table_count(problem) > 0 {
        return Ok(None);
    }
    let table = Ahead::new(alloc, moves, range.least, range.greatest)?;
    Ok(Some(table))
}

/// The tables of all items of which the lead head tells all. Err where no memory is left.
pub fn item_tables(
    alloc: Global,
    problem: &Problem,
    heads: &[Row],
    range: Range,
    moves: &mut Moves,
) -> Result<Vec<ItemTable>, NoMemory>
    requires ground { AreGround problem.now heads.now range moves.old }
    ensures { IfOk result (λ tables. AreItemTables problem.now heads.now range.unit (head_items problem.now) tables.items) }
{
    let mut tables = Vec::with_capacity(alloc, table_count(problem) as usize)?;
    add_counts(alloc, problem, heads, range, moves, &mut tables)?;
    add_method_counts(alloc, problem, heads, range, moves, &mut tables)?;
    add_patterns(alloc, problem, heads, range, moves, &mut tables)?;
    Ok(tables)
}

// Appends the tables of the counts of marks.
fn add_counts(
    alloc: Global,
    problem: &Problem,
    heads: &[Row],
    range: Range,
    moves: &mut Moves,
    tables: &mut Vec<ItemTable>,
) -> Result<(), NoMemory>
    requires { AreGround problem.now heads.now range moves.old }
    ensures ground { IfOk result (λ _. AreGround problem.now heads.now range moves.new) }
    ensures tables { IfOk result (λ _. (items : List Item) → AreItemTables problem.now heads.now range.unit items tables.old.items
        → AreItemTables problem.now heads.now range.unit (items ++ map (count_item problem.now) problem.now.query.counts) tables.new.items) }
{
    let counts = counts_of(problem.query());
    for index in 0..counts.len() {
        tables.push(count_table(alloc, problem, heads, range, moves, counts[index])?)?;
    }
    Ok(())
}

// The table of a count of a mark.
fn count_table(
    alloc: Global,
    problem: &Problem,
    heads: &[Row],
    range: Range,
    moves: &mut Moves,
    count: Count,
) -> Result<ItemTable, NoMemory>
    requires { AreGround problem.now heads.now range moves.old }
    ensures ground { IfOk result (λ _. AreGround problem.now heads.now range moves.new) }
    ensures table { IfOk result (λ of_item. IsItemTable problem.now heads.now range.unit (count_item problem.now count) of_item) }
{
    let gains = marked_gains(alloc, problem, heads.len(), count.mark)?;
    let table = table_by(alloc, range, moves, gains)?;
    Ok(ItemTable {
        min: count.min,
        max: count.max,
        table,
    })
}

// Appends the tables of the counts of methods.
fn add_method_counts(
    alloc: Global,
    problem: &Problem,
    heads: &[Row],
    range: Range,
    moves: &mut Moves,
    tables: &mut Vec<ItemTable>,
) -> Result<(), NoMemory>
    requires { AreGround problem.now heads.now range moves.old }
    ensures ground { IfOk result (λ _. AreGround problem.now heads.now range moves.new) }
    ensures tables { IfOk result (λ _. (items : List Item) → AreItemTables problem.now heads.now range.unit items tables.old.items
        → AreItemTables problem.now heads.now range.unit (items ++ map (method_item problem.now) problem.now.query.method_counts) tables.new.items) }
{
    let counts = method_counts_of(problem.query());
    for index in 0..counts.len() {
        tables.push(method_table(alloc, problem, heads, range, moves, counts[index])?)?;
    }
    Ok(())
}

// The table of a count of a method.
fn method_table(
    alloc: Global,
    problem: &Problem,
    heads: &[Row],
    range: Range,
    moves: &mut Moves,
    count: MethodCount,
) -> Result<ItemTable, NoMemory>
    requires { AreGround problem.now heads.now range moves.old }
    ensures ground { IfOk result (λ _. AreGround problem.now heads.now range moves.new) }
    ensures table { IfOk result (λ of_item. IsItemTable problem.now heads.now range.unit (method_item problem.now count) of_item) }
{
    let gains = lettered_gains(alloc, problem, heads.len(), count.letter)?;
    let table = table_by(alloc, range, moves, gains)?;
    Ok(ItemTable {
        min: count.min,
        max: count.max,
        table,
    })
}

// Appends the tables of the patterns, where there is one part.
fn add_patterns(
    alloc: Global,
    problem: &Problem,
    heads: &[Row],
    range: Range,
    moves: &mut Moves,
    tables: &mut Vec<ItemTable>,
) -> Result<(), NoMemory>
    requires { AreGround problem.now heads.now range moves.old }
    ensures { IfOk result (λ _. (items : List Item) → AreItemTables problem.now heads.now range.unit items tables.old.items
        → AreItemTables problem.now heads.now range.unit (items ++ map (pattern_item problem.now) (exact_patterns problem.now)) tables.new.items) }
{
    let leads = LeadTable::new(alloc, problem)?;
    let patterns = patterns_of(problem);
    for index in 0..patterns.len() {
        tables.push(pattern_table(
            alloc,
            problem,
            &leads,
            heads,
            range,
            moves,
            &patterns[index],
        )?)?;
    }
    Ok(())
}

// The table of a pattern.
fn pattern_table(
    alloc: Global,
    problem: &Problem,
    leads: &LeadTable,
    heads: &[Row],
    range: Range,
    moves: &mut Moves,
    pattern: &Pattern,
) -> Result<ItemTable, NoMemory>
    requires ground { AreGround problem.now heads.now range moves.old }
    requires leads { leads.now ≡ lead_table problem.now }
    requires one { parts_of problem.now ≡ 1 }
    requires cells { FitsStage problem.now.stage pattern.now.cells }
    ensures ground { IfOk result (λ _. AreGround problem.now heads.now range moves.new) }
    ensures table { IfOk result (λ of_item. IsItemTable problem.now heads.now range.unit (pattern_item problem.now pattern.now) of_item) }
{
    let gains = fitting_gains(alloc, problem, leads, heads, &pattern.cells)?;
    let table = table_by(alloc, range, moves, gains)?;
    Ok(ItemTable {
        min: pattern.min,
        max: pattern.max,
        table,
    })
}

/// The table of the moves with other gains. Err where no memory is left.
pub fn table_by(
    alloc: Global,
    range: Range,
    moves: &mut Moves,
    gains: Vec<u16>,
) -> Result<Ahead, NoMemory>
    requires { length gains.items ≡ places_of moves.old * steps_of moves.old }
    ensures moves { moves.new ≡ record moves.old { gains = gains.items } }
    ensures table { IfOk result (λ table. IsAhead (record moves.old { gains = gains.items }) range.least range.greatest table) }
{
    moves.set_gains(gains);
    Ahead::new(alloc, moves, range.least, range.greatest)
}

// The counts of marks of a query.
fn counts_of(query: &Query) -> &[Count]
    ensures { result.now ≡ query.now.counts }
{
    query.counts.as_slice()
}

// The counts of methods of a query.
fn method_counts_of(query: &Query) -> &[MethodCount]
    ensures { result.now ≡ query.now.method_counts }
{
    query.method_counts.as_slice()
}

// The patterns of a query in one part, and none in several.
fn patterns_of(problem: &Problem) -> &[Pattern]
    ensures is { result.now ≡ exact_patterns problem.now }
    ensures right { All (λ pattern. FitsStage problem.now.stage pattern.cells) result.now }
    ensures few { length result.now ≤ 32 }
{
    if problem.parts() == 1 {
        all_patterns(problem.query())
    } else {
        &[]
    }
}

// The patterns of a query.
fn all_patterns(query: &Query) -> &[Pattern]
    ensures { result.now ≡ query.now.patterns }
{
    query.patterns.as_slice()
}
