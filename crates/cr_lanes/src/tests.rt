ghost use Rattle.std.specs.Prelude.{◌≡◌, ◌<◌, [], length};

use super::*;
use std::process::Abort;
use std::sync::Wait;
use std::test::*;

// Puts four numbers and a fifth, steals, takes and steals again.
fn work_at_room_4<R: Abort + Wait>(
    rt: &R,
    lanes: &Lanes,
    end: &mut LaneEnd,
    thief: &mut Thief,
) -> Result<(), Fail>
    requires new { end.old.put ≡ [] }
    requires thief { thief.old.names ≡ lanes.now }
    requires lane { 0 < length lanes.now }
    ensures end { (end.new.name ≡ end.old.name) × (end.new.lent ≡ end.old.lent) × (end.new.gone ≡ end.old.gone) }
    ensures thief { thief.new.names ≡ thief.old.names }
{
    for number in 1..5u64 {
        assert_eq!(rt; end.put(number), Ok(()));
    }
    assert_eq!(rt; end.put(5), Err(Full(5)));
    assert_eq!(rt; lanes.steal(rt, thief, 0), Some(1));
    assert_eq!(rt; end.take(), Some(4));
    assert_eq!(rt; lanes.steal(rt, thief, 0), Some(2));
    Ok(())
}

#[test]
fn owners_take_the_last_and_thieves_the_first(rt: HostRuntime) -> Result<(), Fail> {
    let (lanes, mut ends, mut thieves) = match Lanes::new(rt.alloc(), 1, 4) {
        Ok(made) => made,
        Err(_) => return Err(Fail::from("there is memory")),
    };
    work_at_room_4(&rt, &lanes, &mut ends[0], &mut thieves[0])?;
    assert_eq!(rt; lanes.close(ends, thieves), 1);
    Ok(())
}

// Finds the lane empty, puts a number and another, and steals the first. Then the lane is empty, and still full.
fn work_at_room_1<R: Abort + Wait>(
    rt: &R,
    lanes: &Lanes,
    end: &mut LaneEnd,
    thief: &mut Thief,
) -> Result<(), Fail>
    requires new { end.old.put ≡ [] }
    requires thief { thief.old.names ≡ lanes.now }
    requires lane { 1 < length lanes.now }
    ensures end { (end.new.name ≡ end.old.name) × (end.new.lent ≡ end.old.lent) × (end.new.gone ≡ end.old.gone) }
    ensures thief { thief.new.names ≡ thief.old.names }
{
    assert_eq!(rt; end.take(), None);
    assert_eq!(rt; lanes.steal(rt, thief, 1), None);
    assert_eq!(rt; end.put(7), Ok(()));
    assert_eq!(rt; end.put(8), Err(Full(8)));
    assert_eq!(rt; lanes.steal(rt, thief, 0), None);
    assert_eq!(rt; lanes.steal(rt, thief, 1), Some(7));
    assert_eq!(rt; end.take(), None);
    assert_eq!(rt; end.put(8), Err(Full(8)));
    Ok(())
}

#[test]
fn lanes_of_room_1(rt: HostRuntime) -> Result<(), Fail> {
    let (lanes, mut ends, mut thieves) = match Lanes::new(rt.alloc(), 2, 1) {
        Ok(made) => made,
        Err(_) => return Err(Fail::from("there is memory")),
    };
    work_at_room_1(&rt, &lanes, &mut ends[1], &mut thieves[0])?;
    assert_eq!(rt; ends[0].put(3), Ok(()));
    assert_eq!(rt; lanes.close(ends, thieves), 1);
    Ok(())
}
