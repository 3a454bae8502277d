use super::*;
use cr_model::NotationFault;
use cr_model::limits::MOST_LEAD_CHANGES;
use cr_row::{Change, Row, Stage, symbol};
use std::alloc::{AllocError, Global};
use std::test::*;

// The places of each change, or x, with a space behind each change.
fn shown(alloc: Global, changes: &[Change]) -> Result<String, AllocError> {
    let mut text = String::new(alloc);
    for change in changes {
        let start = text.len();
        for place in 1..change.stage().number() + 1 {
            if change.makes(place) {
                text.push(char::from(symbol(place)))?;
            }
        }
        text.push_str(if text.len() == start { "x " } else { " " })?;
    }
    Ok(text)
}

// The last row of the changes, rung from rounds, as its bells.
fn rung(alloc: Global, stage: Stage, changes: &[Change]) -> Result<String, AllocError> {
    let mut row = Row::rounds(stage);
    for change in changes {
        if change.stage() == row.stage() {
            row = row.then(change);
        }
    }
    let mut text = String::new(alloc);
    for place in 1..row.stage().number() + 1 {
        text.push(char::from(symbol(row.bell_at(place))))?;
    }
    Ok(text)
}

// So many crosses, and what stands behind them.
fn crosses(alloc: Global, number: u32, rest: &str) -> Result<String, AllocError> {
    let mut text = String::new(alloc);
    for _ in 0..number {
        text.push('x')?;
    }
    text.push_str(rest)?;
    Ok(text)
}

// What a text spells, and the row that it brings: or else its fault.
fn answer(alloc: Global, stage: u8, text: &str) -> Result<(String, String), Option<NotationFault>> {
    let stage = Stage::new(stage).ok_or(None)?;
    match read_notation(alloc, stage, text) {
        Ok(changes) => {
            let spelled = shown(alloc, &changes).ok().ok_or(None)?;
            let row = rung(alloc, stage, &changes).ok().ok_or(None)?;
            Ok((spelled, row))
        }
        Err(fault) => Err(Some(fault)),
    }
}

const CAMBRIDGE: &str = "x 36 x 14 x 12 x 36 x 14 x 56 x 14 x 36 x 12 x 14 x 36 x 12 ";

const TEXTS: &[(u8, &str, &str, &str)] = &[
    (4, "x14x14,12", "x 14 x 14 x 14 x 12 ", "1342"),
    (4, "x14x14x14x14", "x 14 x 14 x 14 x 14 ", "1234"),
    (5, "5.1.5.1.5,125", "5 1 5 1 5 1 5 1 5 125 ", "13524"),
    (
        5,
        "5.1.5.1.5.1.5.1.5.145",
        "5 1 5 1 5 1 5 1 5 145 ",
        "12354",
    ),
    (5, "3,1.5.1.5.1", "3 1 5 1 5 1 5 1 5 1 ", "12534"),
    (
        6,
        "x16x16x16,12",
        "x 16 x 16 x 16 x 16 x 16 x 12 ",
        "135264",
    ),
    (6, "x36x14x12x36x14x56,12", CAMBRIDGE, "156342"),
    (
        8,
        "x18x18x18x18,12",
        "x 18 x 18 x 18 x 18 x 18 x 18 x 18 x 12 ",
        "13527486",
    ),
    (6, "4", "14 ", "132465"),
    (6, " X\t1 6.-. 2 ,\t1\t", "x 16 x 12 x 16 x 16 ", "652341"),
    (10, "0", "10 ", "1325476980"),
    (11, "E", "E ", "2143658709E"),
    (12, "T", "1T ", "132547698E0T"),
    (13, "A", "A ", "2143658709TEA"),
    (14, "B", "1B ", "132547698E0ATB"),
    (15, "C", "C ", "2143658709TEBAC"),
    (16, "D", "1D ", "132547698E0ATCBD"),
    (
        16,
        "1234567890ETABCD",
        "1234567890ETABCD ",
        "1234567890ETABCD",
    ),
];

#[test]
fn texts_stand_for_changes(rt: HostRuntime) -> Result<(), Fail> {
    for (stage, text, changes, row) in TEXTS {
        let found = answer(rt.alloc(), *stage, text).ok().ok_or("a text")?;
        assert_eq!(rt; found.0.as_str(), *changes, "at {text}");
        assert_eq!(rt; found.1.as_str(), *row, "at {text}");
    }
    Ok(())
}

const FAULTS: &[(u8, &str, NotationFault)] = &[
    (5, "+5.1", NotationFault::Symbol(0)),
    (16, "1.F", NotationFault::Symbol(2)),
    (16, "x e", NotationFault::Symbol(2)),
    (4, "1 5", NotationFault::Above(2)),
    (4, "35", NotationFault::Above(1)),
    (11, "TE", NotationFault::Above(0)),
    (6, "4 61 8", NotationFault::Gap(2)),
    (4, "21", NotationFault::Order(1)),
    (4, "2 2", NotationFault::Order(2)),
    (4, "13", NotationFault::Gap(1)),
    (6, "12x1\t5", NotationFault::Gap(5)),
    (5, "x36x14x12x36x14x56,12", NotationFault::CrossOnOdd(0)),
    (5, "5.-", NotationFault::CrossOnOdd(2)),
    (4, "x..x", NotationFault::Dot(2)),
    (4, " .x", NotationFault::Dot(1)),
    (4, "x,.x", NotationFault::Dot(2)),
    (4, "x. ,12", NotationFault::Dot(1)),
    (4, "x. ", NotationFault::Dot(1)),
    (4, "x,1.,", NotationFault::Dot(3)),
    (4, "", NotationFault::EmptyBlock(0)),
    (4, " \t", NotationFault::EmptyBlock(2)),
    (4, ",x", NotationFault::EmptyBlock(0)),
    (4, "x, ", NotationFault::EmptyBlock(3)),
    (4, "x,1,2", NotationFault::SecondComma(3)),
    (4, "x,,", NotationFault::SecondComma(2)),
];

#[test]
fn faults_come_at_their_bytes(rt: HostRuntime) -> Result<(), Fail> {
    for (stage, text, fault) in FAULTS {
        let found = answer(rt.alloc(), *stage, text).err().ok_or("a fault")?;
        assert!(rt; found == Some(*fault), "at {text}");
    }
    Ok(())
}

// How many changes so many crosses spell, with what stands behind them.
fn number_of(alloc: Global, crosses_before: u32, rest: &str) -> Result<usize, NotationFault> {
    let stage = Stage::new(4).ok_or(NotationFault::NoMemory)?;
    let text = crosses(alloc, crosses_before, rest)?;
    let changes = read_notation(alloc, stage, &text)?;
    Ok(changes.len())
}

// With a comma each block is mirrored: 64 and 1 changes make 127 and 1, 65 and 1 make 129 and 1.
const LENGTHS: &[(u32, &str, Result<usize, NotationFault>)] = &[
    (128, "", Ok(128)),
    (129, "", Err(NotationFault::Long(129))),
    (130, " ", Err(NotationFault::Long(131))),
    (64, ",x", Ok(128)),
    (65, ",x", Err(NotationFault::Long(67))),
    (64, ",x14", Err(NotationFault::Long(68))),
    (2, ",x14x14", Ok(10)),
    (5000, "", Err(NotationFault::Long(5000))),
    (5000, ",14", Err(NotationFault::Long(5003))),
    (5000, "5", Err(NotationFault::Above(5000))),
];

#[test]
fn at_most_128_changes(rt: HostRuntime) {
    for (number, rest, want) in LENGTHS {
        let found = number_of(rt.alloc(), *number, *rest);
        assert!(rt; found == *want, "at {number} crosses and {rest}");
    }
}

// The text that is written for what a text spells.
fn rewritten(alloc: Global, stage: u8, text: &str) -> Result<String, &'static str> {
    let stage = Stage::new(stage).ok_or("no stage")?;
    let changes = read_notation(alloc, stage, text).ok().ok_or("no text")?;
    if changes.is_empty() || changes.len() > MOST_LEAD_CHANGES {
        return Err("no number of changes");
    }
    if changes.iter().any(|change| change.stage() != stage) {
        return Err("another stage");
    }
    write_notation(alloc, stage, &changes)
        .ok()
        .ok_or("no memory")
}

const REWRITTEN: &[(u8, &str, &str)] = &[
    (4, "x14x14,12", "x14x14x14x12"),
    (5, "3,1.5.1.5.1", "3.1.5.1.5.1.5.1.5.1"),
    (6, "-.4. X 2.3456", "x14x12.3456"),
    (16, "x.T.D", "x1T.1D"),
];

#[test]
fn canonical_texts(rt: HostRuntime) -> Result<(), Fail> {
    for (stage, text, want) in REWRITTEN {
        let written = rewritten(rt.alloc(), *stage, text)?;
        assert_eq!(rt; written.as_str(), *want, "at {text}");
    }
    Ok(())
}
