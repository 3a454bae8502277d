//! How far rows are from rounds.

use cr_leads::LeadTable;
use cr_reach::ReachTable;
use cr_row::Row;
use cr_samples::{DOUBLES, problem_of};
use std::alloc::Global;
use std::test::*;

fn reach(alloc: Global, most_rows: u64) -> Result<ReachTable, Fail> {
    let problem = problem_of(alloc, &DOUBLES)?;
    if most_rows < 1 || most_rows >= 1 << 32 {
        return Err(Fail::from("the number of rows"));
    }
    match LeadTable::new(alloc, &problem) {
        Ok(leads) => match ReachTable::new(alloc, &leads, most_rows) {
            Ok(reach) => Ok(reach),
            Err(_) => Err(Fail::from("there is memory")),
        },
        Err(_) => Err(Fail::from("there is memory")),
    }
}

// The most rows, the depth, and how far the rows below are from rounds.
type Wanted = (&'static str, u64, u32, [u32; 7]);

const ROWS: &[&[u8]] = &[
    &[1, 2, 3, 4, 5],
    &[1, 2, 3, 5, 4],
    &[1, 4, 2, 5, 3],
    &[1, 5, 4, 3, 2],
    &[1, 3, 5, 2, 4],
    &[2, 1, 3, 4, 5],
    &[1, 2, 3, 4],
];

const TABLES: &[Wanted] = &[
    ("1 row", 1, 0, [0, 1, 1, 1, 1, 1, 1]),
    ("2 rows", 2, 0, [0, 1, 1, 1, 1, 1, 1]),
    ("3 rows", 3, 1, [0, 1, 1, 2, 2, 2, 2]),
    ("5 rows", 5, 1, [0, 1, 1, 2, 2, 2, 2]),
    ("6 rows", 6, 2, [0, 1, 1, 2, 3, 3, 3]),
    ("all 24 rows", 1_000, 6, [0, 1, 1, 2, 3, 7, 7]),
];

#[test]
fn rows_and_how_far_they_are(rt: HostRuntime) -> Result<(), Fail> {
    for &(name, most_rows, depth, wanted) in TABLES {
        let reach = reach(rt.alloc(), most_rows)?;
        if reach.depth() != depth {
            return Err(Fail::from(name));
        }
        for index in 0..7 {
            let head = Row::of(ROWS[index]).ok_or("the bells are a row")?;
            if reach.at_least(&head) != wanted[index] {
                return Err(Fail::from(name));
            }
        }
    }
    Ok(())
}
