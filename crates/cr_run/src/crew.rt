//! Workers at a desk, each at a seat with hints from lanes.

ghost use Rattle.std.specs.Prelude.{◌≡◌, ◌+◌, ◌<◌, ◌≤◌, [], length, map, vec_len, vec_capacity, All, IfOk};
ghost use Rattle.cr_run.specs.HintsKey.{hints_key, end_key, end_part, key_part};

use crate::hints::LaneHints;
use crate::places::{Place, PlaceWork, work_at_all};
use cr_desk::{Desk, Seat};
use cr_lanes::{LaneEnd, Lanes, Thief};
use cr_node::Explorer;
use cr_row::NoMemory;
use std::alloc::Global;
use std::sync::Wait;
use std::sync::ledger::Ledger;
use std::thread::Threads;

/// A worker's seat, and its hints beside it.
#[derive(Drop)]
pub struct HintedSeat<'a, L: Ledger> {
    seat: Seat<L>,
    hints: LaneHints<'a>,
    ghost one: { seat.share.parts ≡ 1 },
}

impl<'a, L: Ledger> Place for HintedSeat<'a, L> {
    ghost use Rattle.cr_run.specs.Keys.{LaneKey, lane_key};

    ghost Key = { LaneKey };

    ghost key = { λ p. lane_key p.hints.lanes.now p.hints.end p.hints.thief };
}

/// The hints of each worker, over an end and a thief of these lanes. Err where no memory is left.
pub fn hints_of<'a>(
    alloc: Global,
    lanes: &'a Lanes,
    ends: Vec<LaneEnd>,
    thieves: Vec<Thief>,
) -> Result<Vec<LaneHints<'a>>, NoMemory>
    requires count { vec_len thieves ≡ vec_len ends }
    requires theirs { All (λ t. t.names ≡ lanes.now) thieves.items }
    requires lanes { All (λ e. e.lane < length lanes.now) ends.items }
    requires nothing { All (λ e. e.put ≡ []) ends.items }
    ensures { IfOk result (λ hints. map hints_key hints.items ≡ map (end_key lanes.now) ends.items) }
{
    let mut hints = Vec::new(alloc);
    let mut thieves = thieves;
    for end in ends {
        match thieves.pop() {
            Some(thief) => hints.push(LaneHints::new(lanes, end, thief))?,
            None => unreachable!(),
        }
    }
    Ok(hints)
}

/// Each seat with its hints. Err where no memory is left.
pub fn hinted<'a, L: Ledger>(
    alloc: Global,
    seats: Vec<Seat<L>>,
    hints: Vec<LaneHints<'a>>,
) -> Result<Vec<HintedSeat<'a, L>>, NoMemory>
    requires count { length seats.items ≡ length hints.items }
    requires one { All (λ s. s.share.parts ≡ 1) seats.items }
    ensures len { IfOk result (λ places. vec_len places ≡ vec_len seats) }
    ensures keys { IfOk result (λ places. map (λ p. hints_key p.hints) places.items ≡ map hints_key hints.entry.items) }
{
    let mut seats = seats;
    seats.reverse();
    let mut places = Vec::new(alloc);
    for own in hints {
        match seats.pop() {
            Some(seat) => places.push(HintedSeat { seat, hints: own })?,
            None => unreachable!(),
        }
    }
    Ok(places)
}

/// The seats, the ends and the thieves after the worker of each seat has worked at the desk. Err where no memory is left, and
/// then nobody has worked: behind the work none is taken.
pub fn all_worked<L: Ledger + Send + Sync, R: Threads + Wait + Sync, E: Explorer + Sync>(
    rt: &R,
    alloc: Global,
    desk: &Desk<L>,
    explorer: &E,
    places: Vec<HintedSeat<'_, L>>,
) -> Result<(Vec<Seat<L>>, Vec<LaneEnd>, Vec<Thief>), NoMemory>
    ensures one { IfOk result (λ parts. All (λ s. s.share.parts ≡ 1) parts.0.items) }
    ensures len { IfOk result (λ parts. vec_len parts.0 ≡ vec_len places.entry) }
    ensures ends { IfOk result (λ parts. map end_part parts.1.items ≡ map key_part (map (λ p. hints_key p.hints) places.entry.items)) }
    ensures thieves { IfOk result (λ parts. map (λ t. t.names) parts.2.items ≡ map (λ k. k.thief) (map (λ p. hints_key p.hints) places.entry.items)) }
{
    let mut places = places;
    let seats = Vec::with_capacity(alloc, places.len())?;
    let ends = Vec::with_capacity(alloc, places.len())?;
    let thieves = Vec::with_capacity(alloc, places.len())?;
    work_all(rt, alloc, desk, explorer, &mut places);
    Ok(taken_apart(places, seats, ends, thieves))
}

// The seats, the ends and the thieves of places, in empty lists with room for them.
fn taken_apart<L: Ledger>(
    places: Vec<HintedSeat<'_, L>>,
    seats: Vec<Seat<L>>,
    ends: Vec<LaneEnd>,
    thieves: Vec<Thief>,
) -> (Vec<Seat<L>>, Vec<LaneEnd>, Vec<Thief>)
    requires seats { (seats.items ≡ []) × (vec_len seats + vec_len places ≤ vec_capacity seats) }
    requires ends { (ends.items ≡ []) × (vec_len ends + vec_len places ≤ vec_capacity ends) }
    requires thieves { (thieves.items ≡ []) × (vec_len thieves + vec_len places ≤ vec_capacity thieves) }
    ensures one { All (λ s. s.share.parts ≡ 1) result.0.items }
    ensures len { vec_len result.0 ≡ vec_len places.entry }
    ensures ends { map end_part result.1.items ≡ map key_part (map (λ p. hints_key p.hints) places.entry.items) }
    ensures thieves { map (λ t. t.names) result.2.items ≡ map (λ k. k.thief) (map (λ p. hints_key p.hints) places.entry.items) }
{
    let (mut seats, mut ends, mut thieves) = (seats, ends, thieves);
    for place in places {
        let HintedSeat { seat, hints } = place;
        let (end, thief) = hints.into_parts();
        seats.push_reserved(seat);
        ends.push_reserved(end);
        thieves.push_reserved(thief);
    }
    (seats, ends, thieves)
}

// The worker of each seat works at the desk.
fn work_all<L: Ledger + Send + Sync, R: Threads + Wait + Sync, E: Explorer + Sync>(
    rt: &R,
    alloc: Global,
    desk: &Desk<L>,
    explorer: &E,
    places: &mut Vec<HintedSeat<'_, L>>,
)
    ensures len { vec_len places.new ≡ vec_len places.old }
    ensures keys { map (λ p. hints_key p.hints) places.new.items ≡ map (λ p. hints_key p.hints) places.old.items }
{
    let work = DeskWork {
        rt,
        alloc,
        desk,
        explorer,
    };
    work_at_all(rt, &work, places.as_mut_slice());
}

// A desk, and what its workers explore with.
#[derive(Drop)]
struct DeskWork<'d, L: Ledger, R, E> {
    rt: &'d R,
    alloc: Global,
    desk: &'d Desk<L>,
    explorer: &'d E,
}

impl<'a, 'd, L: Ledger, R: Wait, E: Explorer> PlaceWork<HintedSeat<'a, L>>
    for DeskWork<'d, L, R, E> {
    fn work_at(&self, place: &mut HintedSeat<'a, L>) {
        self.desk.work_by(
            self.rt,
            self.alloc,
            self.explorer,
            &mut place.seat,
            &mut place.hints,
        );
    }
}
