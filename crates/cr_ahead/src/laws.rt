//! Laws of ways. Each function does nothing: its contract is the law.

ghost use Rattle.std.specs.Prelude.{◌≡◌, ℕ, ◌+◌, ◌<◌, ◌≤◌, ◌↔◌, List, ◌++◌, All, Option, IsNone, IfSome};
ghost use Rattle.cr_ahead.specs.declared.gains.Gains.{Gains};
ghost use Rattle.cr_ahead.specs.Moves.{MovesParts, steps_of};
ghost use Rattle.cr_ahead.specs.Ways.{place_after, length_of, gain_of, IsWay, HasNoWay, IsLeastGain, IsGreatestGain, IsAnswer};

pub mod exact;
pub mod examples;
pub mod home;
pub mod home_examples;
pub mod lead_moves;

/// For a place and a length there is one right answer. It is None exactly where there is no way, and its least gain is
/// no greater than its greatest.
pub fn answers_are_exact()
    ensures one { (m : MovesParts) (least greatest place long : ℕ) (one other : Option Gains)
        → IsAnswer m least greatest place long one → IsAnswer m least greatest place long other → one ≡ other }
    ensures none { (m : MovesParts) (least greatest place long : ℕ) (gains : Option Gains)
        → IsAnswer m least greatest place long gains → IsNone gains ↔ HasNoWay m least greatest place long }
    ensures in_order { (m : MovesParts) (least greatest place long : ℕ) (gains : Option Gains)
        → IsAnswer m least greatest place long gains → IfSome gains (λ g. g.least ≤ g.greatest) }
{}

/// A node and the rest are a way exactly where the node has steps of the moves, and the rest is a way from its last place,
/// at the length that the part has there. Together they gain what the node gains and what the rest gains from there.
pub fn ways_go_through_nodes()
    ensures way { (m : MovesParts) (least greatest place long : ℕ) (node rest : List ℕ)
        → IsWay m least greatest place long (node ++ rest)
        ↔ (All (λ step. step < steps_of m) node × IsWay m least greatest (place_after m place node) (long + length_of m node) rest) }
    ensures gain { (m : MovesParts) (place : ℕ) (node rest : List ℕ)
        → gain_of m place (node ++ rest) ≡ gain_of m place node + gain_of m (place_after m place node) rest }
{}

/// What can still come from a node's last place bounds what each way through the node gains. So where there is no way
/// from there, none goes through the node; where the node's gain with the least is more than a number, each of them
/// gains more; and where its gain with the greatest is less than a number, each of them gains less.
pub fn what_can_come_bounds_the_gain()
    ensures no_way { (m : MovesParts) (least greatest place long : ℕ) (node : List ℕ)
        → HasNoWay m least greatest (place_after m place node) (long + length_of m node)
        → (rest : List ℕ) → IsWay m least greatest place long (node ++ rest) → ⊥ }
    ensures too_much { (m : MovesParts) (least greatest place long low most : ℕ) (node : List ℕ)
        → IsLeastGain m least greatest (place_after m place node) (long + length_of m node) low
        → most < gain_of m place node + low
        → (rest : List ℕ) → IsWay m least greatest place long (node ++ rest) → most < gain_of m place (node ++ rest) }
    ensures too_little { (m : MovesParts) (least greatest place long high fewest : ℕ) (node : List ℕ)
        → IsGreatestGain m least greatest (place_after m place node) (long + length_of m node) high
        → gain_of m place node + high < fewest
        → (rest : List ℕ) → IsWay m least greatest place long (node ++ rest) → gain_of m place (node ++ rest) < fewest }
{}
