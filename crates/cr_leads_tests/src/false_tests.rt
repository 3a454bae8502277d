//! Rows and clashes of a falseness table.

use cr_false::{Built, FalseTable};
use cr_leads::LeadTable;
use cr_row::Row;
use cr_samples::{DOUBLES, Draft, MINIMUS, MINIMUS_WITH_SINGLES, problem_of};
use std::alloc::Global;
use std::test::*;
use std::thread::Threads;

fn built(
    rt: &(impl Threads + Sync),
    alloc: Global,
    draft: &Draft,
    most: u64,
) -> Result<Built, Fail> {
    let problem = problem_of(alloc, draft)?;
    match LeadTable::new(alloc, &problem) {
        Ok(leads) => match FalseTable::new(rt, alloc, &leads, most) {
            Ok(built) => Ok(built),
            Err(_) => Err(Fail::from("there is memory")),
        },
        Err(_) => Err(Fail::from("there is memory")),
    }
}

// The most rows, and the number of rows where it is more than that.
const NUMBERS: &[(u64, Option<u64>)] = &[
    (18, None),
    (17, Some(18)),
    (0, Some(18)),
    (4_000_000, None),
];

#[test]
fn rows_of_minimus(rt: HostRuntime) -> Result<(), Fail> {
    for &(most, wanted) in NUMBERS {
        let number = match built(&rt, rt.alloc(), &MINIMUS, most)? {
            Built::Wide(number) => Some(number),
            Built::Table(_) => None,
        };
        if number != wanted {
            return Err(Fail::from("another number of rows"));
        }
    }
    Ok(())
}

// Two steps, the bells of a row between their heads, and whether they clash.
const CLASHES: &[(u8, u8, &[u8], bool)] = &[
    (0, 1, &[1, 2, 3, 4, 5], true),
    (0, 0, &[1, 3, 2, 5, 4], true),
    (0, 0, &[1, 2, 3, 4, 5], true),
    (0, 0, &[1, 3, 5, 2, 4], false),
];

#[test]
fn clashes_of_doubles(rt: HostRuntime) -> Result<(), Fail> {
    let Built::Table(table) = built(&rt, rt.alloc(), &DOUBLES, 4_000_000)? else {
        return Err(Fail::from("the table is small"));
    };
    for &(a, b, bells, wanted) in CLASHES {
        let between = Row::of(bells).ok_or("the bells are a row")?;
        if a >= table.count() || b >= table.count() || table.clash(a, b, &between) != wanted {
            return Err(Fail::from("another answer"));
        }
    }
    Ok(())
}

#[test]
fn leads_with_a_row_twice(rt: HostRuntime) -> Result<(), Fail> {
    let Built::Table(table) = built(&rt, rt.alloc(), &MINIMUS_WITH_SINGLES, 4_000_000)? else {
        return Err(Fail::from("the table is small"));
    };
    if table.count() != 2 || table.self_false(0) || !table.self_false(1) {
        return Err(Fail::from("another answer"));
    }
    Ok(())
}
