//! Moves from place to place.

ghost use Rattle.std.specs.Prelude.{◌≡◌, ℕ, ◌+◌, ◌*◌, ◌<◌, ◌≤◌, ◌↔◌, IsTrue, IsSome, IfSome, All, length};
ghost use Rattle.cr_ahead.specs.Moves.{places_of, steps_of, next_place, step_length, step_gain, is_end, IsSound};

use std::marker::Model;

// The greatest number of places: their numbers have 32 bits.
const MOST_PLACES: usize = 0x1_0000_0000;

/// Where each step leads from each place, how long it is, and what it gains; and at which places a part ends.
///
/// It is seen as the lists that it was made of. They hang together.
#[derive(Drop)]
pub struct Moves {
    next: Vec<u32>,
    lengths: Vec<u16>,
    gains: Vec<u16>,
    ends: Vec<bool>,
}

impl Model for Moves {
    ghost use Rattle.cr_ahead.specs.Moves.{MovesParts, IsSound};

    ghost Value = { MovesParts };

    ghost view = { λ m. record { next = m.next.items; lengths = m.lengths.items; gains = m.gains.items; ends = m.ends.items } };

    ghost invariant = { λ m. IsSound (record { next = m.next.items; lengths = m.lengths.items; gains = m.gains.items; ends = m.ends.items }) };
}

impl Moves {
    /// The moves of these lists: where each step leads to and what it gains, by place and step, place after place;
    /// how long each step is; and whether a part ends, for each place. None exactly where they do not hang together:
    /// where a place or step has no next place or gain, or one too many, a next place is not there, a step has
    /// length 0, or there are more than 2^32 places.
    pub fn new(next: Vec<u32>, gains: Vec<u16>, lengths: Vec<u16>, ends: Vec<bool>) -> Option<Moves>
        ensures is { IfSome result (λ moves.
            moves ≡ record { next = next.items; lengths = lengths.items; gains = gains.items; ends = ends.items }) }
        ensures some { IsSome result ↔
            IsSound (record { next = next.items; lengths = lengths.items; gains = gains.items; ends = ends.items }) }
    {
        if !are_sound(&next, &gains, &lengths, &ends) {
            return None;
        }
        Some(Moves {
            next,
            lengths,
            gains,
            ends,
        })
    }

    // Replaces what the steps gain.
    pub(crate) fn set_gains(&mut self, gains: Vec<u16>)
        requires { length gains.items ≡ places_of self.old * steps_of self.old }
        ensures { self.new ≡ record self.old { gains = gains.items } }
    {
        self.gains = gains;
    }

    /// How many places there are.
    #[inline(always)]
    pub fn places(&self) -> usize
        ensures is { result ≡ places_of self.now }
        ensures few { result ≤ 4294967296 }
    {
        self.ends.len()
    }

    /// How many steps there are.
    #[inline(always)]
    pub fn steps(&self) -> usize
        ensures { result ≡ steps_of self.now }
    {
        self.lengths.len()
    }

    // The place that a step leads to from a place.
    #[inline(always)]
    pub(crate) fn next(&self, place: usize, step: usize) -> usize
        requires place { place < places_of self.now }
        requires step { step < steps_of self.now }
        ensures is { result ≡ next_place self.now place step }
        ensures there { result < places_of self.now }
    {
        self.next[place * self.lengths.len() + step] as usize
    }

    // What a step gains from a place.
    #[inline(always)]
    pub(crate) fn gain(&self, place: usize, step: usize) -> u16
        requires place { place < places_of self.now }
        requires step { step < steps_of self.now }
        ensures { result ≡ step_gain self.now place step }
    {
        self.gains[place * self.lengths.len() + step]
    }

    // How long a step is.
    #[inline(always)]
    pub(crate) fn length(&self, step: usize) -> u16
        requires { step < steps_of self.now }
        ensures is { result ≡ step_length self.now step }
        ensures some { 0 < result }
    {
        self.lengths[step]
    }

    // Whether a part ends at a place.
    #[inline(always)]
    pub(crate) fn is_end(&self, place: usize) -> bool
        requires { place < places_of self.now }
        ensures { result ≡ is_end self.now place }
    {
        self.ends[place]
    }
}

// Whether the lists hang together.
fn are_sound(next: &[u32], gains: &[u16], lengths: &[u16], ends: &[bool]) -> bool
    ensures { IsTrue result ↔
        IsSound (record { next = next.now; lengths = lengths.now; gains = gains.now; ends = ends.now }) }
{
    let places = ends.len();
    let steps = lengths.len();
    places <= MOST_PLACES
        && is_counted(next.len(), places, steps)
        && is_counted(gains.len(), places, steps)
        && are_there(next, places)
        && are_long(lengths)
}

// Whether there are so many entries: one for each place and step.
fn is_counted(entries: usize, places: usize, steps: usize) -> bool
    requires { places ≤ 4294967296 }
    ensures { IsTrue result ↔ (entries ≡ places * steps) }
{
    entries as u128 == places as u128 * steps as u128
}

// Whether all next places are there.
pub(crate) fn are_there(next: &[u32], places: usize) -> bool
    ensures { IsTrue result ↔ All (λ place. place < places) next.now }
{
    next.iter().all(|place| is_there(*place, places))
}

fn is_there(place: u32, places: usize) -> bool
    ensures { IsTrue result ↔ (place < places) }
{
    (place as usize) < places
}

// Whether no step has length 0.
fn are_long(lengths: &[u16]) -> bool
    ensures { IsTrue result ↔ All (λ long. 0 < long) lengths.now }
{
    lengths.iter().all(|long| *long > 0)
}
