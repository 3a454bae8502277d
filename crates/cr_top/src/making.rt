//! The problem that is made of a number, and its summary.

ghost use Rattle.std.specs.Prelude.{◌≡◌, ◌≤◌, [], ◌∷◌, None, IfOk};
ghost use Rattle.cr_row.specs.Rows.{IsChange};
ghost use Rattle.cr_model.specs.Problems.{parts_from};
ghost use Rattle.cr_model.specs.Sound.{IsSound};
ghost use Rattle.cr_model.specs.Books.{IsBook};
ghost use Rattle.cr_model.specs.Examples.{asks, on_six, minor_lead};
ghost use Rattle.cr_model.specs.Checkpoints.{CanGoOn};
ghost use Rattle.cr_explore.specs.Searches.{searched};
ghost use Rattle.cr_store.specs.Written.{lists};
ghost use Rattle.cr_trail.specs.Runs.{RunsTo};
ghost use Rattle.cr_top.specs.Made.{made_length, made_problem as problem_made_of, IsSummaryOf};

use crate::boards::run_by;
use crate::start::all_of;
use cr_book::laws::what_was_found_whole_is_the_book;
use cr_book::{sort_found, summary_text};
use cr_explore::{Search, make_search};
use cr_model::{Calling, Lead, Problem, Query, Step};
use cr_row::{Change, NoMemory, Stage};
use cr_store::Remaining;
use cr_store::laws::each_touch_is_covered_once;
use cr_trail::RunProgress;
use cr_trail::laws::runs_follow_one_another;
use std::alloc::Global;
use std::sync::Wait;
use std::thread::Threads;

/// The summary of the problem that is made of a number: Plain Bob Minor, with the bob 14 and the single 1234, up to 72,
/// 84, 96, 108, 120, 132 or 144 changes. Err where no memory is left.
pub fn summary_for<R: AllocGlobal + Threads + Wait + Sync>(
    rt: &R,
    workers: u32,
    number: u32,
) -> Result<Vec<u8>, NoMemory>
    requires some_workers { 1 ≤ workers }
    requires few_workers { workers ≤ 64 }
    ensures { IfOk result (λ text. IsSummaryOf number text.items) }
{
    let alloc = rt.alloc();
    let problem = made_problem(alloc, number)?;
    let book = book_of(rt, workers, &problem)?;
    let text = summary_text(alloc, &problem, &book)?;
    Ok(text)
}

// The book of all that a problem wants.
fn book_of<R: AllocGlobal + Threads + Wait + Sync>(
    rt: &R,
    workers: u32,
    problem: &Problem,
) -> Result<Vec<Calling>, NoMemory>
    requires some_workers { 1 ≤ workers }
    requires few_workers { workers ≤ 64 }
    ensures { IfOk result (λ book. IsBook problem.now [] ([] ∷ []) book.items) }
{
    each_touch_is_covered_once();
    what_was_found_whole_is_the_book();
    let left = search_all(rt, workers, problem)?;
    let book = sort_found(rt.alloc(), problem, left.found)?;
    Ok(book)
}

// What is left of a search of all that a problem wants, which is no job. What it found is not sorted.
fn search_all<R: AllocGlobal + Threads + Wait + Sync>(
    rt: &R,
    workers: u32,
    problem: &Problem,
) -> Result<Remaining, NoMemory>
    requires some_workers { 1 ≤ workers }
    requires few_workers { workers ≤ 64 }
    ensures { IfOk result (λ left. RunsTo problem.now [] (([] ∷ []) ∷ []) None left.found.items (lists left.jobs.items)) }
{
    let alloc = rt.alloc();
    let all = all_of(alloc, problem)?;
    let search = make_search(rt, alloc, problem)?;
    left_by(rt, workers, &search, all)
}

// What a search leaves of nodes, which is no job.
fn left_by<R: AllocGlobal + Threads + Wait + Sync>(
    rt: &R,
    workers: u32,
    search: &Search,
    left: Remaining,
) -> Result<Remaining, NoMemory>
    requires goes_on { CanGoOn (searched search.now) left.found.items (lists left.jobs.items) }
    requires some_workers { 1 ≤ workers }
    requires few_workers { workers ≤ 64 }
    ensures { IfOk result (λ now. RunsTo (searched search.now) left.found.items (lists left.jobs.items) None now.found.items (lists now.jobs.items)) }
{
    runs_follow_one_another();
    let before = RunProgress::begun(rt.alloc(), left)?;
    let went = run_by(rt, workers, search, before, None)?;
    Ok(went.left)
}

// Plain Bob Minor, with the bob 14 and the single 1234, from 1 to so many changes as the number says.
fn made_problem(alloc: Global, number: u32) -> Result<Problem, NoMemory>
    ensures { IfOk result (λ p. p ≡ problem_made_of number) }
{
    let mut letters = Vec::with_capacity(alloc, 1)?;
    letters.push(b'A')?;
    let mut leads = Vec::with_capacity(alloc, 3)?;
    leads.push(lead(alloc, b'p', &[1, 2])?)?;
    leads.push(lead(alloc, b'b', &[1, 4])?)?;
    leads.push(lead(alloc, b's', &[1, 2, 3, 4])?)?;
    Ok(problem_of(letters, leads, query(alloc, number)))
}

// The problem of these parts, which pass all checks.
fn problem_of(letters: Vec<u8>, leads: Vec<Lead>, query: Query) -> Problem
    requires { IsSound (parts_from 6 letters.items leads.items query) }
    ensures { result ≡ parts_from 6 letters.items leads.items query }
{
    match Problem::new(six(), letters, leads, query) {
        Ok(problem) => problem,
        Err(_) => unreachable!(),
    }
}

// Six bells.
fn six() -> Stage
    ensures { result ≡ 6 }
{
    match Stage::new(6) {
        Some(stage) => stage,
        None => unreachable!(),
    }
}

// The change on six bells that makes these places.
fn change(places: &[u8]) -> Change
    requires { IsChange (on_six places.now) }
    ensures { result ≡ on_six places.now }
{
    match Change::from_places(six(), places) {
        Ok(change) => change,
        Err(_) => unreachable!(),
    }
}

// A lead of Plain Bob Minor with this mark, which ends with these places.
fn lead(alloc: Global, mark: u8, places: &[u8]) -> Result<Lead, NoMemory>
    requires { IsChange (on_six places.now) }
    ensures { IfOk result (λ lead. lead ≡ minor_lead mark places.now) }
{
    let cross = change(&[]);
    let ends = change(&[1, 6]);
    let changes = Vec::from_slice(
        alloc,
        &[
            cross,
            ends,
            cross,
            ends,
            cross,
            ends,
            cross,
            ends,
            cross,
            ends,
            cross,
            change(places),
        ],
    )?;
    Ok(Lead {
        step: Step { method: 0, mark },
        changes,
    })
}

// The lengths that a number asks for, and nothing else.
fn query(alloc: Global, number: u32) -> Query
    ensures { result ≡ asks 1 (made_length number) 1 }
{
    Query {
        min: 1,
        max: 12 * (6 + i64::from(number % 7)),
        parts: 1,
        counts: Vec::new(alloc),
        method_counts: Vec::new(alloc),
        patterns: Vec::new(alloc),
        com: None,
    }
}
