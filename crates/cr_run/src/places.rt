//! Work at many places, side by side.

ghost use Rattle.std.specs.Prelude.{◌≡◌, map, length};
ghost use denote.Param.Send.{IsSync, IsSend};

use std::thread::{Threads, join_mut};

/// A place of work. What tells one from another is its key.
pub trait Place {
    ghost Key: { Type 0 };

    ghost key: { Self → Key };
}

/// What is done at each place.
pub trait PlaceWork<P: Place> {
    /// Works at a place until there is nothing to do any more.
    fn work_at(&self, place: &mut P)
        ensures { P.key place.new ≡ P.key place.old };
}

/// Works at each place, in a thread of its own where one can be started, and waits for all of them.
///
/// This thread starts the others and does none of their work. `for_each_mut` of std halves the places, so that a thread which
/// has only just begun starts the next: that one is often put on its parent's processor, though another one is idle.
#[cycle(places)]
pub fn work_at_all<P: Place + Send, R: Threads + Sync, W: PlaceWork<P> + Sync>(
    rt: &R,
    work: &W,
    places: &mut [P],
)
    ensures { map P.key places.new ≡ map P.key places.old }
{
    if let Some((place, others)) = places.split_first_mut() {
        work_beside(rt, work, place, others);
    }
}

// Works at a place in a new thread, and meanwhile at the others.
#[cycle(places)]
fn work_beside<P: Place + Send, R: Threads + Sync, W: PlaceWork<P> + Sync>(
    rt: &R,
    work: &W,
    place: &mut P,
    others: &mut [P],
)
    ensures place { P.key place.new ≡ P.key place.old }
    ensures others { map P.key others.new ≡ map P.key others.old }
{
    let mut front = ||
        ensures { P.key place.exit.now ≡ P.key place.entry.now }
    { work.work_at(place) };
    let mut back = ||
        requires { IsSync R.row × IsSync W.row × IsSend P.row }
        ensures { map P.key others.exit.now ≡ map P.key others.entry.now }
    { work_at_all(rt, work, others) };
    join_mut(rt, &mut front, &mut back);
}
