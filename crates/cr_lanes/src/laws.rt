//! Laws of lanes. Each function does nothing: its contract is the law.

ghost use Rattle.std.specs.Prelude.{◌≡◌, ℕ, ◌+◌, ◌≤◌, ◌∷◌, ◌↔◌, List, [], map};
ghost use Rattle.cr_lanes.specs.declared.known.Known.{Known};
ghost use Rattle.cr_lanes.specs.Lane.{times, Ascends, untaken, IsSuffix, IsGreatest, end, thief, spent, total, LaneRule};
ghost use Rattle.cr_lanes.specs.Steps.{HeldAtMost};
ghost use Rattle.cr_lanes.specs.Ends.{LaneName, EndParts, EndKnows};
ghost use Rattle.cr_lanes.specs.Lanes.{AreAll};
ghost use Rattle.cr_lanes.specs.Examples.{end_of_four, back_with, end_that, two_ends, thief_with};

/// A list that ascends has no number twice. So of a lane each number that was put is in one place: it is in the lane, or
/// was taken, or is gone, or one thief has it.
pub fn each_number_is_in_one_place()
    ensures ascends { (xs : List ℕ) (x : ℕ) → Ascends xs → times x xs ≤ 1 }
    ensures lane { (items : List ℕ) (e : Known) (others : List Known) (x : ℕ) → LaneRule items (e ∷ others)
        → times x items + times x e.taken + times x e.gone + total (λ v. times x v.stolen) others ≤ 1 }
{}

/// A lane whose end has put nothing holds nothing.
pub fn a_new_lane_is_empty()
    ensures { (items : List ℕ) → LaneRule items (end [] [] [] 0 ∷ []) ↔ (items ≡ []) }
{}

/// An end of which no pass is out, and whose lane held nothing, has taken all that it put and that is not gone.
pub fn an_end_alone_takes_all()
    ensures { (e : EndParts) (x : ℕ) → HeldAtMost 0 (EndKnows e) → e.lent ≡ 0 → times x e.put ≡ times x e.taken + times x e.gone }
{}

/// How often numbers stand in a list; what is left of 1 to 4; lists that ascend, and that don't by one number; last parts;
/// the greatest number, one that is less and one that is not there.
pub fn lists_by_example()
    ensures times { map (λ x. times x (3 ∷ 1 ∷ 3 ∷ [])) (1 ∷ 2 ∷ 3 ∷ []) ≡ 1 ∷ 0 ∷ 2 ∷ [] }
    ensures untaken { map (untaken (1 ∷ 2 ∷ 3 ∷ 4 ∷ [])) ([] ∷ (4 ∷ []) ∷ (4 ∷ 2 ∷ []) ∷ (4 ∷ 1 ∷ 3 ∷ 2 ∷ []) ∷ [])
        ≡ (1 ∷ 2 ∷ 3 ∷ 4 ∷ []) ∷ (1 ∷ 2 ∷ 3 ∷ []) ∷ (1 ∷ 3 ∷ []) ∷ [] ∷ [] }
    ensures ascends { Ascends (1 ∷ 2 ∷ 4 ∷ []) }
    ensures stands { Ascends (1 ∷ 2 ∷ 2 ∷ []) → ⊥ }
    ensures falls { Ascends (2 ∷ 3 ∷ 1 ∷ []) → ⊥ }
    ensures last { IsSuffix (3 ∷ []) (1 ∷ 3 ∷ []) × IsSuffix [] (1 ∷ 3 ∷ []) × IsSuffix (1 ∷ 3 ∷ []) (1 ∷ 3 ∷ []) }
    ensures not_last { IsSuffix (1 ∷ []) (1 ∷ 3 ∷ []) → ⊥ }
    ensures greatest { IsGreatest 3 (1 ∷ 3 ∷ []) }
    ensures less { IsGreatest 1 (1 ∷ 3 ∷ []) → ⊥ }
    ensures absent { IsGreatest 4 (1 ∷ 3 ∷ []) → ⊥ }
{}

/// An end put 1 to 4 and took 4, and a thief stole 1 and 2, so 3 is left, before the thief is back and after. By the rule 3
/// may neither be lost nor be there twice, and the thief found 1 before 2; the end knows how many passes are out, and one
/// that is back has no list; what an end puts ascends, and what is left is the last of it; a lane has one end and no more.
pub fn rules_by_example()
    ensures out { LaneRule (3 ∷ []) (end_of_four [] 1 ∷ thief (1 ∷ 2 ∷ []) ∷ []) }
    ensures back { LaneRule (3 ∷ []) (end_of_four (1 ∷ 2 ∷ []) 0 ∷ spent ∷ []) }
    ensures lost { LaneRule [] (end_of_four [] 1 ∷ thief (1 ∷ 2 ∷ []) ∷ []) → ⊥ }
    ensures twice { LaneRule (3 ∷ []) (end_of_four [] 1 ∷ thief (1 ∷ 2 ∷ 3 ∷ []) ∷ []) → ⊥ }
    ensures turned { LaneRule (3 ∷ []) (end_of_four [] 1 ∷ thief (2 ∷ 1 ∷ []) ∷ []) → ⊥ }
    ensures none_out { LaneRule (3 ∷ []) (end_of_four [] 0 ∷ thief (1 ∷ 2 ∷ []) ∷ []) → ⊥ }
    ensures two_out { LaneRule (3 ∷ []) (end_of_four [] 2 ∷ thief (1 ∷ 2 ∷ []) ∷ []) → ⊥ }
    ensures back_with_a_list { LaneRule (3 ∷ []) (end_of_four [] 0 ∷ back_with (1 ∷ 2 ∷ []) ∷ []) → ⊥ }
    ensures falls { LaneRule (2 ∷ 1 ∷ []) (end (2 ∷ 1 ∷ []) [] [] 0 ∷ []) → ⊥ }
    ensures from_behind { LaneRule (1 ∷ []) (end (1 ∷ 2 ∷ []) [] [] 1 ∷ thief (2 ∷ []) ∷ []) → ⊥ }
    ensures no_end { LaneRule [] [] → ⊥ }
    ensures thief_alone { LaneRule [] (thief [] ∷ []) → ⊥ }
    ensures two_ends { LaneRule [] (end [] [] [] 0 ∷ end [] [] [] 0 ∷ []) → ⊥ }
{}

/// Two lanes and two thieves, of which one stole 1 and 2 from different lanes and the other 3: nothing is left. Without the
/// other 3 is left, in its own lane; no lane may be left out, and nothing be left that was stolen.
pub fn closes_by_example()
    ensures none { (name : LaneName) → AreAll (two_ends name) (thief_with ((1 ∷ []) ∷ (2 ∷ []) ∷ []) ∷ thief_with ([] ∷ (3 ∷ []) ∷ []) ∷ []) ([] ∷ [] ∷ []) }
    ensures one { (name : LaneName) → AreAll (two_ends name) (thief_with ((1 ∷ []) ∷ (2 ∷ []) ∷ []) ∷ thief_with ([] ∷ [] ∷ []) ∷ []) ([] ∷ (3 ∷ []) ∷ []) }
    ensures left_out { (name : LaneName) → AreAll (two_ends name) (thief_with ((1 ∷ []) ∷ (2 ∷ []) ∷ []) ∷ []) ([] ∷ [] ∷ []) → ⊥ }
    ensures lane_beside { (name : LaneName) → AreAll (two_ends name) (thief_with ((1 ∷ []) ∷ (2 ∷ []) ∷ []) ∷ []) ((3 ∷ []) ∷ [] ∷ []) → ⊥ }
    ensures too_few { (name : LaneName) → AreAll (two_ends name) (thief_with ((1 ∷ []) ∷ (2 ∷ 3 ∷ []) ∷ []) ∷ []) ([] ∷ []) → ⊥ }
    ensures twice { (name : LaneName) → AreAll (two_ends name) (thief_with ((1 ∷ []) ∷ (2 ∷ 3 ∷ []) ∷ []) ∷ []) ([] ∷ (3 ∷ []) ∷ []) → ⊥ }
    ensures put_twice { (name : LaneName) → AreAll (end_that name (1 ∷ 1 ∷ []) (1 ∷ []) ∷ []) [] ((1 ∷ []) ∷ []) → ⊥ }
{}
