use super::*;
use cr_row::{Change, Row, Stage};
use std::alloc::Global;
use std::test::*;

fn row(bells: &[u8]) -> Result<Row, Fail> {
    Ok(Row::of(bells).ok_or("the bells are a row")?)
}

fn stack(alloc: Global, room: u64) -> Result<RowStack, Fail> {
    match RowStack::with_room(alloc, room) {
        Ok(stack) => Ok(stack),
        Err(_) => Err(Fail::from("there is memory")),
    }
}

fn cut(stack: &mut RowStack, len: u64) -> Result<(), Fail> {
    if len > stack.len() {
        return Err(Fail::from("so many rows stand in the stack"));
    }
    stack.cut_to(len);
    Ok(())
}

// A push: its name, the row, the answer that is wanted, and how many rows there are then.
type Push = (&'static str, &'static [u8], Pushed, u64);

fn push_all(stack: &mut RowStack, pushes: &[Push]) -> Result<(), Fail> {
    for (name, bells, wanted, len) in pushes {
        if stack.push(row(bells)?) != *wanted || stack.len() != *len {
            return Err(Fail::from(*name));
        }
    }
    Ok(())
}

const TWO_ROWS: &[Push] = &[
    ("12345", &[1, 2, 3, 4, 5], Pushed::Fresh, 1),
    ("12345 again", &[1, 2, 3, 4, 5], Pushed::Again(0), 1),
    ("21435", &[2, 1, 4, 3, 5], Pushed::Fresh, 2),
    ("24153", &[2, 4, 1, 5, 3], Pushed::Full, 2),
    ("21435 again", &[2, 1, 4, 3, 5], Pushed::Again(1), 2),
];

const AFTER_A_CUT_TO_1: [Push; 3] = [
    ("24153 after the cut", &[2, 4, 1, 5, 3], Pushed::Fresh, 2),
    ("21435 after the cut", &[2, 1, 4, 3, 5], Pushed::Full, 2),
    ("12345 after the cut", &[1, 2, 3, 4, 5], Pushed::Again(0), 2),
];

const OF_TWO_STAGES: &[Push] = &[
    ("123", &[1, 2, 3], Pushed::Fresh, 1),
    ("1234", &[1, 2, 3, 4], Pushed::Fresh, 2),
    ("123 again", &[1, 2, 3], Pushed::Again(0), 2),
    ("1234 again", &[1, 2, 3, 4], Pushed::Again(1), 2),
];

#[test]
fn a_stack_of_room_2(rt: HostRuntime) -> Result<(), Fail> {
    let mut stack = stack(rt.alloc(), 2)?;
    push_all(&mut stack, TWO_ROWS)?;
    cut(&mut stack, 1)?;
    push_all(&mut stack, &AFTER_A_CUT_TO_1)?;
    cut(&mut stack, 0)?;
    push_all(&mut stack, OF_TWO_STAGES)
}

#[test]
fn a_stack_without_room(rt: HostRuntime) -> Result<(), Fail> {
    let mut stack = stack(rt.alloc(), 0)?;
    push_all(
        &mut stack,
        &[("123 without room", &[1, 2, 3], Pushed::Full, 0)],
    )?;
    cut(&mut stack, 0)?;
    assert!(rt; RowStack::with_room(rt.alloc(), u64::MAX).is_err());
    Ok(())
}

// A stack, and a plain list of the rows that it should hold.
#[derive(Drop)]
struct Ringing {
    stack: RowStack,
    list: Vec<Row>,
    row: Row,
    seed: u64,
}

const ROOM: u64 = 12_000;

// Of a linear generator.
const SPREAD: u64 = 6_364_136_223_846_793_005;

// The places made at every other change, of which one is drawn by lot; at the others all pairs cross.
const PLACES: [&[u8]; 3] = [&[1, 12], &[1, 4], &[3, 6]];

// The row after the change with these places.
fn rung(row: &Row, places: &[u8]) -> Result<Row, Fail> {
    match Change::from_places(row.stage(), places) {
        Ok(change) => Ok(row.then(&change)),
        Err(_) => Err(Fail::from("the places are those of a change")),
    }
}

// What a stack with this list is to answer to a row.
fn wanted(list: &[Row], row: &Row) -> Pushed {
    for place in 0..list.len() {
        if list[place] == *row {
            return Pushed::Again(place as u64);
        }
    }
    if (list.len() as u64) < ROOM {
        Pushed::Fresh
    } else {
        Pushed::Full
    }
}

// Pushes a row, and says whether the stack answers as the list and is as long.
fn agrees(ringing: &mut Ringing, row: Row) -> Result<bool, Fail> {
    let wanted = wanted(&ringing.list, &row);
    if wanted == Pushed::Fresh {
        ringing.list.push(row)?;
    }
    Ok(ringing.stack.push(row) == wanted && ringing.stack.len() == ringing.list.len() as u64)
}

// Rings two changes.
fn lead_on(ringing: &mut Ringing) -> Result<bool, Fail> {
    ringing.seed = ringing.seed.wrapping_mul(SPREAD).wrapping_add(1);
    let cross = rung(&ringing.row, &[])?;
    let row = rung(&cross, PLACES[(ringing.seed >> 33) as usize % 3])?;
    ringing.row = row;
    Ok(agrees(ringing, cross)? && agrees(ringing, row)?)
}

// Rings until the stack is full. Then each of its rows stands where the list has it.
fn fill(ringing: &mut Ringing) -> Result<(), Fail> {
    for _ in 0..ROOM {
        if !lead_on(ringing)? {
            return Err(Fail::from("the stack answers as the list"));
        }
        if ringing.stack.len() == ROOM {
            break;
        }
    }
    for place in 0..ringing.list.len() {
        if ringing.stack.push(ringing.list[place]) != Pushed::Again(place as u64) {
            return Err(Fail::from("each row stands at its place"));
        }
    }
    Ok(())
}

#[test]
fn as_a_plain_list(rt: HostRuntime) -> Result<(), Fail> {
    let stage = Stage::new(12).ok_or("there are 12 bells")?;
    let mut ringing = Ringing {
        stack: stack(rt.alloc(), ROOM)?,
        list: Vec::new(rt.alloc()),
        row: Row::rounds(stage),
        seed: 12,
    };
    fill(&mut ringing)?;
    cut(&mut ringing.stack, ROOM / 2)?;
    ringing.list.truncate(ROOM as usize / 2);
    fill(&mut ringing)?;
    assert!(rt; ringing.stack.len() == ROOM && lead_on(&mut ringing)?);
    Ok(())
}
