mod changing;
mod lead_heads;
mod outlooks;

use super::*;
use std::alloc::Global;
use std::test::*;

// The lists of some moves: next places, gains, lengths and ends.
type Lists = (
    &'static [u32],
    &'static [u16],
    &'static [u16],
    &'static [bool],
);

fn moves(alloc: Global, lists: &Lists) -> Result<Option<Moves>, Fail> {
    Ok(Moves::new(
        Vec::from_slice(alloc, lists.0)?,
        Vec::from_slice(alloc, lists.1)?,
        Vec::from_slice(alloc, lists.2)?,
        Vec::from_slice(alloc, lists.3)?,
    ))
}

fn table(alloc: Global, lists: &Lists, least: u16, greatest: u16) -> Result<Ahead, Fail> {
    match moves(alloc, lists)? {
        Some(moves) => Ok(Ahead::new(alloc, &moves, least, greatest)?),
        None => Err(Fail::from("the lists hang together")),
    }
}

// A place, the length of a part there, and what the table is to answer: the least and the greatest gain.
type Wanted = (u32, u32, Option<(u32, u32)>);

fn is_answered(ahead: &Ahead, wanted: &[Wanted]) -> Result<(), Fail> {
    for &(place, length, gains) in wanted {
        if place as usize >= ahead.places() || pair_of(ahead.at(place, length)) != gains {
            return Err(Fail::from("the table answers as wanted"));
        }
    }
    Ok(())
}

fn pair_of(gains: Option<Gains>) -> Option<(u32, u32)> {
    match gains {
        Some(gains) => Some((gains.least, gains.greatest)),
        None => None,
    }
}

// Three leads in a ring, a part ends at the first. A plain lead has two changes and leads to the next place, a bob has
// three and leads to the one after that. A plain lead home gains 5 and a bob home 4.
const RING: Lists = (
    &[1, 2, 2, 0, 0, 1],
    &[0, 0, 0, 4, 5, 0],
    &[2, 3],
    &[true, false, false],
);

// For parts of 10 to 12 changes. From the start ppbb gains 4, and bpbp and six plain leads gain 10.
const OF_THE_RING: &[Wanted] = &[
    (0, 0, Some((4, 10))),
    (0, 1, Some((4, 10))),
    (0, 3, Some((4, 4))),
    (0, 4, Some((5, 5))),
    (0, 5, Some((4, 5))),
    (0, 6, Some((4, 5))),
    (0, 7, Some((4, 5))),
    (0, 8, None),
    (0, 9, None),
    (0, 10, Some((0, 0))),
    (0, 12, Some((0, 0))),
    (0, 13, None),
    (0, 4_294_967_295, None),
    (1, 9, Some((4, 4))),
    (1, 10, None),
    (2, 9, Some((5, 5))),
    (2, 10, Some((5, 5))),
    (2, 11, None),
];

#[test]
fn a_ring_of_three_leads(rt: HostRuntime) -> Result<(), Fail> {
    is_answered(&table(rt.alloc(), &RING, 10, 12)?, OF_THE_RING)
}

// Lists that do not hang together: their name and themselves.
const TORN: &[(&str, Lists)] = &[
    ("a next place too few", (&[0], &[0, 0], &[1, 1], &[true])),
    (
        "a next place too many",
        (&[0, 0, 0], &[0, 0], &[1, 1], &[true]),
    ),
    (
        "a next place that is not there",
        (&[0, 1], &[0, 0], &[1, 1], &[true]),
    ),
    ("a gain too few", (&[0, 0], &[0], &[1, 1], &[true])),
    ("a gain too many", (&[0, 0], &[0, 0, 0], &[1, 1], &[true])),
    ("a step of length 0", (&[0, 0], &[0, 0], &[1, 0], &[true])),
];

#[test]
fn lists_that_do_not_hang_together(rt: HostRuntime) -> Result<(), Fail> {
    for (name, lists) in TORN {
        if moves(rt.alloc(), lists)?.is_some() {
            return Err(Fail::from(*name));
        }
    }
    assert!(rt; moves(rt.alloc(), &(&[], &[], &[], &[]))?.is_some());
    Ok(())
}

// The 24 lead heads of Plain Bob Doubles, rounds first, with plain leads and bobs. A lead has length 1, and a bob gains 1.
const DOUBLES: Lists = (
    &[
        1, 2, 3, 4, 5, 0, 6, 7, 8, 1, 9, 10, 0, 11, 12, 3, 13, 14, 14, 15, 11, 5, 16, 6, 17, 18,
        18, 19, 2, 8, 20, 9, 21, 22, 22, 23, 4, 12, 15, 13, 23, 21, 10, 20, 7, 16, 19, 17,
    ],
    &[
        0, 1, 0, 1, 0, 1, 0, 1, 0, 1, 0, 1, 0, 1, 0, 1, 0, 1, 0, 1, 0, 1, 0, 1, 0, 1, 0, 1, 0, 1,
        0, 1, 0, 1, 0, 1, 0, 1, 0, 1, 0, 1, 0, 1, 0, 1, 0, 1,
    ],
    &[1, 1],
    &[
        true, false, false, false, false, false, false, false, false, false, false, false, false,
        false, false, false, false, false, false, false, false, false, false, false,
    ],
);

// For touches of 12 leads. With so many leads left: four plain leads, or four bobs; six leads with two bobs, or with six.
const OF_DOUBLES: &[Wanted] = &[
    (0, 12, Some((0, 0))),
    (0, 11, None),
    (0, 10, Some((2, 2))),
    (0, 9, None),
    (0, 8, Some((0, 4))),
    (0, 7, None),
    (0, 6, Some((2, 6))),
    (0, 4, Some((0, 8))),
    (0, 2, Some((2, 10))),
    (0, 0, Some((0, 12))),
];

// For touches of 7 to 9 leads.
const OF_A_RANGE: &[Wanted] = &[
    (1, 0, Some((0, 7))),
    (1, 1, Some((0, 5))),
    (1, 3, Some((2, 3))),
    (1, 6, Some((0, 0))),
    (1, 7, None),
    (13, 3, Some((1, 3))),
    (13, 4, None),
    (23, 0, Some((2, 4))),
    (23, 2, Some((2, 2))),
];

#[test]
fn plain_bob_doubles(rt: HostRuntime) -> Result<(), Fail> {
    is_answered(&table(rt.alloc(), &DOUBLES, 12, 12)?, OF_DOUBLES)?;
    is_answered(&table(rt.alloc(), &DOUBLES, 7, 9)?, OF_A_RANGE)
}
