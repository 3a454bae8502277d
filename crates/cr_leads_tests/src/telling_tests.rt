//! How many rows tell leads apart.

ghost use Rattle.cr_false.specs.Telling.{AreTelling};

use cr_false::TellingRows;
use cr_leads::LeadTable;
use cr_samples::{DOUBLES, Draft, MINIMUS, MINIMUS_WITH_SINGLES, problem_of};
use std::alloc::Global;
use std::test::*;

// How many telling rows all leads have.
fn number_of(leads: &LeadTable, told: &TellingRows) -> u64
    requires { AreTelling leads.now told.now }
{
    let mut number: u64 = 0;
    for step in 0..leads.count() {
        number = number.wrapping_add(told.rows_of(step).len() as u64);
    }
    number
}

fn number_told(alloc: Global, draft: &Draft) -> Result<u64, Fail> {
    let problem = problem_of(alloc, draft)?;
    let Ok(leads) = LeadTable::new(alloc, &problem) else {
        return Err(Fail::from("there is memory"));
    };
    match TellingRows::new(alloc, &leads) {
        Ok(told) => Ok(number_of(&leads, &told)),
        Err(_) => Err(Fail::from("there is memory")),
    }
}

// Of Minimus no two rows of a lead have the treble at one place and are both even or both odd, so one row tells it. Of
// Doubles one of the pairs of rows between which 13254 lies is enough, and the two in which the treble leads. Of Minimus
// with singles the same, and all rows of the lead that has a row twice.
const NUMBERS: &[(&str, Draft, u64)] = &[
    ("Minimus", MINIMUS, 1),
    ("Doubles", DOUBLES, 4 + 4),
    ("Minimus with singles", MINIMUS_WITH_SINGLES, 4 + 8),
];

#[test]
fn telling_rows(rt: HostRuntime) -> Result<(), Fail> {
    for &(name, draft, wanted) in NUMBERS {
        if number_told(rt.alloc(), &draft)? != wanted {
            return Err(Fail::from(name));
        }
    }
    Ok(())
}
