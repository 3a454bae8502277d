//! Changes: which bells stay, and which pairs of neighbours swap.

ghost use Rattle.std.specs.Prelude.{◌≡◌, ◌≢◌, ◌⊎◌, ℕ, ◌+◌, ◌-◌, ◌<◌, ◌≤◌, ◌^◌, ◌↔◌, true, false, nat_eq, IsOk, IfOk, IfErr};
ghost use Rattle.std.specs.List.{list_any};
ghost use Rattle.cr_row.specs.Rows.{Places, IsChange, changed, is_made};
ghost use Rattle.cr_row.specs.Packed.{bells_of};
ghost use Rattle.cr_row.specs.Masks.{stay_of, first_of};
ghost use Rattle.cr_row.specs.PlaceFaults.{IsPlaceFault};

use crate::faults::PlaceFault;
use crate::stages::Stage;
use crate::symbols::symbol;
use std::fmt;
use std::fmt::Write;
use std::marker::Model;

/// A change on 3 to 16 bells. Contracts see its stage and the ascending list of the places made.
#[derive(Clone, Copy)]
pub struct Change {
    // Four bits a place, the first place lowest: all set where the bell stays.
    stay: u64,
    // All set at the first place of each pair that swaps.
    first: u64,
    stage: u8,
}

impl Model for Change {
    ghost use Rattle.cr_row.specs.Rows.{Places};
    ghost use Rattle.cr_row.specs.Masks.{stay_of, first_of, made_of, IsMasked};

    ghost Value = { Places };

    ghost view = { λ c. record { stage = c.stage; made = made_of c.stage 1 c.stay } };

    ghost invariant = { λ c. IsMasked c.stage c.stay c.first };

    ghost inverse = { λ v. record { stay = stay_of v.stage 1 v.made; first = first_of v.stage 1 v.made; stage = v.stage } };

    ghost inverse_ok = { λ a h i. record { stay = h.stays i; first = h.firsts i; stage = a.stage } };
}

impl Change {
    /// The change that makes these places and no others. Of places that are no change's, the first
    /// fault: each is checked against the one before it, and the stage's next number after the last.
    pub fn from_places(stage: Stage, places: &[u8]) -> Result<Change, PlaceFault>
        ensures ok { IfOk result (λ c. c ≡ record { stage = stage; made = places.now }) }
        ensures accepts { IsOk result ↔ IsChange (record { stage = stage; made = places.now }) }
        ensures fault { IfErr result (λ f. IsPlaceFault stage places.now f) }
    {
        let stage = stage.number();
        check(stage, places)?;
        let (stay, first) = masks(1, stage, places);
        Ok(Change { stay, first, stage })
    }

    /// The stage.
    pub fn stage(&self) -> Stage
        ensures is { result ≡ self.now.stage }
        ensures at_least { 3 ≤ result }
        ensures at_most { result ≤ 16 }
        ensures is_change { IsChange self.now }
    {
        Stage::of(self.stage)
    }

    /// Whether the bell at a place, from 1 to the stage, stays.
    pub fn makes(&self, place: u8) -> bool
        requires from { 1 ≤ place }
        requires to { place ≤ self.now.stage }
        ensures { result ≡ is_made self.now place }
    {
        (self.stay >> (4 * (place - 1))) & 15 == 15
    }

    // The packed row after the change: the bells that stay, and those that swap. They share no bit.
    pub(crate) fn moved(&self, bits: u64) -> u64
        requires { bits < 16 ^ self.now.stage }
        ensures bells { bells_of self.now.stage result ≡ changed self.now.made 1 (bells_of self.now.stage bits) }
        ensures fits { result < 16 ^ self.now.stage }
    {
        (bits & self.stay) + ((bits & self.first) << 4) + ((bits >> 4) & self.first)
    }
}

/// Its stage, and the symbols of the places made, as `4: 14`.
impl fmt::Debug for Change {
    fn fmt<W: fmt::Write>(&self, f: &mut fmt::Formatter<W>) -> fmt::Result {
        let stage = self.stage().number();
        write!(f, "{stage}: ")?;
        for place in 1..stage + 1 {
            if self.makes(place) {
                write!(f, "{}", char::from(symbol(place)))?;
            }
        }
        Ok(())
    }
}

impl PartialEq for Change {
    ghost use Rattle.std.specs.Cmp.{partial_equiv_from_equiv};
    ghost use Rattle.cr_row.specs.Order.{places_eq, places_eq_equiv};

    ghost eq = { places_eq };

    ghost laws = { partial_equiv_from_equiv places_eq_equiv };

    fn eq(&self, other: &Change) -> bool {
        self.stage == other.stage && self.stay == other.stay
    }
}

impl Eq for Change {
    ghost use Rattle.cr_row.specs.Order.{places_eq_equiv};

    ghost laws = { places_eq_equiv };
}

// Whether the places are those of a change, and else the first fault.
fn check(stage: u8, places: &[u8]) -> Result<(), PlaceFault>
    requires { stage ≤ 16 }
    ensures accepts { IsOk result ↔ IsChange (record { stage = stage; made = places.now }) }
    ensures fault { IfErr result (λ f. IsPlaceFault stage places.now f) }
{
    let mut before = 0;
    for place in places {
        let place = *place;
        if place > stage {
            return Err(PlaceFault::Above(place));
        }
        if place <= before {
            return Err(PlaceFault::Order(place));
        }
        if (place - before) % 2 == 0 {
            return Err(PlaceFault::Gap(place));
        }
        before = place;
    }
    if (stage + 1 - before) % 2 == 0 {
        return Err(PlaceFault::Gap(stage + 1));
    }
    Ok(())
}

// The masks of the places from this one on: where the bell stays, and where a pair begins.
fn masks(place: u8, stage: u8, places: &[u8]) -> (u64, u64)
    requires few { stage ≤ 16 }
    requires place { (1 ≤ place) × (place ≤ stage + 1) }
    ensures stay { result.0 ≡ stay_of (stage + 1 - place) place places.now }
    ensures first { result.1 ≡ first_of (stage + 1 - place) place places.now }
{
    if stage < place {
        return (0, 0);
    }
    if stays(place, stage, places) {
        let (stay, first) = masks(place + 1, stage, places);
        (16 * stay + 15, 16 * first)
    } else {
        let (stay, first) = masks(place + 2, stage, places);
        (256 * stay, 256 * first + 15)
    }
}

// Whether a place is made, or the last one left.
fn stays(place: u8, stage: u8, places: &[u8]) -> bool
    ensures yes { result ≡ true → (place ≡ stage) ⊎ (list_any (nat_eq place) places.now ≡ true) }
    ensures no { result ≡ false → (place ≢ stage) × (list_any (nat_eq place) places.now ≡ false) }
{
    place == stage || is_one_of(place, places)
}

// Whether a place is one of those made.
fn is_one_of(place: u8, places: &[u8]) -> bool
    ensures { result ≡ list_any (nat_eq place) places.now }
{
    places.iter().any(|made| *made == place)
}
