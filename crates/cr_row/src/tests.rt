use super::*;
use std::alloc::Global;
use std::fmt::Write;
use std::test::*;

// The row of these bells.
fn row(bells: &[u8]) -> Result<Row, Fail> {
    Ok(Row::of(bells).ok_or("the bells are a row")?)
}

#[test]
fn only_rows_are_rows(rt: HostRuntime) {
    for (number, want) in [(2, false), (3, true), (16, true), (17, false)] {
        assert_eq!(rt; Stage::new(number).is_some(), want, "stage {number}");
    }
    let refused: [&[u8]; 6] = [
        &[1, 2],
        &[1, 1, 2],
        &[0, 1, 2],
        &[2, 3, 4],
        &[1, 2, 4],
        &[1, 2, 3, 4, 5, 6, 7, 8, 9, 10, 11, 12, 13, 14, 15, 16, 17],
    ];
    for bells in refused {
        assert!(rt; Row::of(bells).is_none(), "{bells:?}");
    }
}

#[test]
fn places_are_checked_in_order(rt: HostRuntime) -> Result<(), Fail> {
    let table: [(u8, &[u8], Option<PlaceFault>); 14] = [
        (4, &[], None),
        (4, &[1, 4], None),
        (5, &[3], None),
        (16, &[1, 16], None),
        (4, &[5], Some(PlaceFault::Above(5))),
        (4, &[5, 5], Some(PlaceFault::Above(5))),
        (16, &[17], Some(PlaceFault::Above(17))),
        (4, &[1, 1], Some(PlaceFault::Order(1))),
        (4, &[0], Some(PlaceFault::Order(0))),
        (4, &[3, 2, 9], Some(PlaceFault::Order(2))),
        (4, &[2], Some(PlaceFault::Gap(2))),
        (4, &[1, 3], Some(PlaceFault::Gap(3))),
        (4, &[1], Some(PlaceFault::Gap(5))),
        (5, &[], Some(PlaceFault::Gap(6))),
    ];
    for (number, places, want) in table {
        let stage = Stage::new(number).ok_or("the stage is from 3 to 16")?;
        assert_eq!(rt;
            Change::from_places(stage, places).err(),
            want,
            "{number}: {places:?}"
        );
    }
    Ok(())
}

#[test]
fn places_made(rt: HostRuntime) -> Result<(), Fail> {
    let stage = Stage::new(5).ok_or("the stage is from 3 to 16")?;
    let change = Change::from_places(stage, &[1, 4, 5])
        .ok()
        .ok_or("the places are those of a change")?;
    for (place, want) in [(1, true), (2, false), (3, false), (4, true), (5, true)] {
        assert_eq!(rt; change.makes(place), want, "{place}");
    }
    Ok(())
}

#[test]
fn rows_after_a_change(rt: HostRuntime) -> Result<(), Fail> {
    let table: [(&[u8], &[u8], &[u8]); 7] = [
        (&[1, 2, 3, 4], &[], &[2, 1, 4, 3]),
        (&[2, 1, 4, 3], &[1, 4], &[2, 4, 1, 3]),
        (&[4, 3, 2, 1], &[3, 4], &[3, 4, 2, 1]),
        (&[1, 2, 3, 4, 5], &[3], &[2, 1, 3, 5, 4]),
        (&[2, 3, 4, 5, 1], &[1, 2, 3], &[2, 3, 4, 1, 5]),
        (
            &[1, 2, 3, 4, 5, 6, 7, 8, 9, 10, 11, 12, 13, 14, 15, 16],
            &[],
            &[2, 1, 4, 3, 6, 5, 8, 7, 10, 9, 12, 11, 14, 13, 16, 15],
        ),
        (
            &[2, 1, 4, 3, 6, 5, 8, 7, 10, 9, 12, 11, 14, 13, 16, 15],
            &[1, 16],
            &[2, 4, 1, 6, 3, 8, 5, 10, 7, 12, 9, 14, 11, 16, 13, 15],
        ),
    ];
    for (from, places, to) in table {
        let from = row(from)?;
        let stage = from.stage();
        let change = Change::from_places(stage, places)
            .ok()
            .ok_or("the places are those of a change")?;
        assert_eq!(rt; from.then(&change), row(to)?, "{from:?} by {change:?}");
    }
    Ok(())
}

#[test]
fn products_and_inverses(rt: HostRuntime) -> Result<(), Fail> {
    let turned = row(&[1, 3, 4, 2])?;
    let crossed = row(&[2, 1, 4, 3])?;
    let back = row(&[1, 4, 2, 3])?;
    assert!(rt; turned.stage() == crossed.stage());
    assert_eq!(rt; turned.times(&turned), back);
    assert_eq!(rt; turned.times(&crossed), row(&[3, 1, 2, 4])?);
    assert_eq!(rt; crossed.times(&turned), row(&[2, 4, 3, 1])?);
    assert_eq!(rt; back.inverse(), turned);
    assert_eq!(rt; Row::rounds(turned.stage()), row(&[1, 2, 3, 4])?);
    assert!(rt; turned < back && row(&[3, 2, 1])? < turned);
    Ok(())
}

#[test]
fn what_is_shown(rt: HostRuntime) -> Result<(), Fail> {
    let stage = Stage::new(12).ok_or("the stage is from 3 to 16")?;
    let change = Change::from_places(stage, &[1, 12])
        .ok()
        .ok_or("the places are those of a change")?;
    let mut text = String::new(rt.alloc());
    write!(
        text,
        "{:?} {change:?} {}",
        Row::rounds(stage),
        PlaceFault::Gap(5)
    )?;
    assert_eq!(rt;
        text.as_str(),
        "1234567890ET 12: 1T an odd number of places stands before place 5"
    );
    Ok(())
}

#[test]
fn keys_of_rows(rt: HostRuntime) -> Result<(), Fail> {
    assert_eq!(rt; row(&[2, 1, 3])?.key(), 0x201);
    assert_eq!(rt; row(&[1, 4, 2, 3])?.key(), 0x2130);
    Ok(())
}

#[test]
fn symbols_both_ways(rt: HostRuntime) {
    let mut bell = 1;
    for byte in b"1234567890ETABCD" {
        assert_eq!(rt; bell_of(*byte), Some(bell));
        assert_eq!(rt; symbol(bell), *byte);
        bell += 1;
    }
    for byte in b" /:@Fae\0" {
        assert_eq!(rt; bell_of(*byte), None, "{byte}");
    }
}

// Want of memory converts by `?`.
fn one_row(alloc: Global, row: Row) -> Result<Vec<Row>, NoMemory> {
    let mut rows = Vec::with_capacity(alloc, 1)?;
    rows.push(row)?;
    Ok(rows)
}

#[test]
fn rows_in_a_list(rt: HostRuntime) -> Result<(), Fail> {
    let turned = row(&[1, 3, 4, 2])?;
    let rows = one_row(rt.alloc(), turned).ok().ok_or("there is memory")?;
    assert!(rt; rows.contains(&turned));
    Ok(())
}
