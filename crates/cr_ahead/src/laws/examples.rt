//! Worked examples: literals at the edges of the definitions. Each function does nothing: its contract is the law.

ghost use Rattle.std.specs.Prelude.{true, false, [], ◌∷◌};
ghost use Rattle.cr_ahead.specs.Moves.{IsSound};
ghost use Rattle.cr_ahead.specs.Ways.{IsWay, HasNoWay, IsLeastGain, IsGreatestGain};
ghost use Rattle.cr_ahead.specs.Examples.{ring};

/// The ring hangs together. It does not without its last next place, with one gain more, with a next place that is not
/// there, or with a step of length 0.
pub fn lists_hang_together()
    ensures sound { IsSound ring }
    ensures too_few { IsSound (record ring { next = 1 ∷ 2 ∷ 2 ∷ 0 ∷ 0 ∷ [] }) → ⊥ }
    ensures too_many { IsSound (record ring { gains = 0 ∷ 0 ∷ 0 ∷ 4 ∷ 5 ∷ 0 ∷ 0 ∷ [] }) → ⊥ }
    ensures not_there { IsSound (record ring { next = 1 ∷ 2 ∷ 2 ∷ 0 ∷ 0 ∷ 3 ∷ [] }) → ⊥ }
    ensures no_length { IsSound (record ring { lengths = 2 ∷ 0 ∷ [] }) → ⊥ }
{}

/// At an end the empty list is a way where the length is in range: it gains nothing. Where the length is just too
/// little it is none.
pub fn an_end_at_the_start()
    ensures way { IsWay ring 0 0 0 0 [] }
    ensures least { IsLeastGain ring 0 0 0 0 0 }
    ensures greatest { IsGreatestGain ring 0 4 0 0 0 }
    ensures too_short { IsWay ring 1 4 0 0 [] → ⊥ }
    ensures none { HasNoWay ring 1 4 0 0 }
{}

/// At a place that is no end the empty list is no way. From the second place no way has two changes, and one has three.
pub fn a_place_that_is_no_end()
    ensures no_way { IsWay ring 0 2 1 0 [] → ⊥ }
    ensures none { HasNoWay ring 0 2 1 0 }
    ensures least { IsLeastGain ring 0 3 1 0 4 }
{}

/// After four changes a plain lead home makes six: in range from six to six, and out of it from seven on and up to five.
/// A step that is not there is no way, even if the lists have something at its place.
pub fn lengths_at_the_edges()
    ensures way { IsWay ring 6 6 2 4 (0 ∷ []) }
    ensures too_short { IsWay ring 7 7 2 4 (0 ∷ []) → ⊥ }
    ensures too_long { IsWay ring 5 5 2 4 (0 ∷ []) → ⊥ }
    ensures none { HasNoWay ring 7 8 0 0 }
    ensures no_step { IsWay ring 2 2 1 0 (2 ∷ []) → ⊥ }
{}

/// Of five changes are a plain lead and a bob, which gain 4, and a bob and a plain lead, which gain 5. Of six are
/// three plain leads alone, of which the last gains 5. A length out of range counts for nothing.
pub fn two_ways_gain_differently()
    ensures least { IsLeastGain ring 5 5 0 0 4 }
    ensures greatest { IsGreatestGain ring 5 5 0 0 5 }
    ensures last_lead { IsLeastGain ring 6 6 0 0 5 }
    ensures no_more { IsGreatestGain ring 6 6 0 0 5 }
    ensures both { IsLeastGain ring 5 6 0 0 4 }
{}

/// Six plain leads come to the end twice and gain 5 each time.
pub fn a_way_that_comes_to_the_end_twice()
    ensures way { IsWay ring 12 12 0 0 (0 ∷ 0 ∷ 0 ∷ 0 ∷ 0 ∷ 0 ∷ []) }
    ensures least { IsLeastGain ring 12 12 0 0 10 }
    ensures least_of_many { IsLeastGain ring 10 12 0 0 4 }
    ensures greatest_of_many { IsGreatestGain ring 10 12 0 0 10 }
{}
