//! Worked examples of ways home, on Plain Bob Minimus: `pair` has its plain lead as step 0, the same with a call that
//! comes round at once as step 1, and the plain lead of another method with the same changes as step 2. Each function does
//! nothing: its contract is the law.

ghost use Rattle.std.specs.Prelude.{◌≡◌, true, false, [], ◌∷◌, map, Some, None};
ghost use Rattle.cr_row.specs.Rows.{rounds};
ghost use Rattle.cr_model.specs.Examples.{pair, asks, marked, lettered, fours, com_from};
ghost use Rattle.cr_ahead.specs.Home.{power, is_part_end, is_way_home};
ghost use Rattle.cr_ahead.specs.Items.{cannot_come};
ghost use Rattle.cr_ahead.specs.ByMethod.{place_by, last_at};
ghost use Rattle.cr_ahead.specs.Exact.{cannot_come_by, cannot_come_by_heads};
ghost use Rattle.cr_ahead.specs.LeadMoves.{part_least, AreMovesOf, IsPlaceOf, HaveGains, marked_gain};
ghost use Rattle.cr_ahead.specs.Examples.{minimus_heads, minimus_moves};

/// The head of a plain lead is rounds after three times, and not before. So a part of three ends there, and no part of one, two
/// or six; and only a part of one ends at rounds.
pub fn parts_end_where_they_come_round_first()
    ensures powers { map (power 4 (1 ∷ 3 ∷ 4 ∷ 2 ∷ [])) (0 ∷ 1 ∷ 2 ∷ 3 ∷ [])
        ≡ rounds 4 ∷ (1 ∷ 3 ∷ 4 ∷ 2 ∷ []) ∷ (1 ∷ 4 ∷ 2 ∷ 3 ∷ []) ∷ rounds 4 ∷ [] }
    ensures head { map (λ parts. is_part_end (pair (asks 1 24 parts)) (1 ∷ 3 ∷ 4 ∷ 2 ∷ [])) (1 ∷ 2 ∷ 3 ∷ 6 ∷ []) ≡ false ∷ false ∷ true ∷ false ∷ [] }
    ensures rounds { map (λ parts. is_part_end (pair (asks 1 24 parts)) (rounds 4)) (1 ∷ 2 ∷ 3 ∷ []) ≡ true ∷ false ∷ false ∷ [] }
{}

/// After one plain lead two more are a way home, of 24 changes. They are none where 23 may be, or 25 must be, and neither
/// is one more, nor are they with a step that is not there. In three parts the empty way is one, of 24 changes in all.
pub fn ways_home_at_the_edges()
    ensures ways { map (is_way_home (pair (asks 24 24 1)) (0 ∷ [])) ((0 ∷ 0 ∷ []) ∷ (2 ∷ 0 ∷ []) ∷ (0 ∷ []) ∷ (0 ∷ 1 ∷ []) ∷ (0 ∷ 3 ∷ []) ∷ [])
        ≡ true ∷ true ∷ false ∷ false ∷ false ∷ [] }
    ensures too_long { is_way_home (pair (asks 1 23 1)) (0 ∷ []) (0 ∷ 0 ∷ []) ≡ false }
    ensures too_short { is_way_home (pair (asks 25 30 1)) (0 ∷ []) (0 ∷ 0 ∷ []) ≡ false }
    ensures in_parts { map (λ least. is_way_home (pair (asks least 24 3)) (0 ∷ []) []) (24 ∷ 25 ∷ []) ≡ true ∷ false ∷ [] }
    ensures length_of_a_part { map (λ least. part_least (pair (asks least 24 3))) (22 ∷ 24 ∷ 25 ∷ []) ≡ 8 ∷ 8 ∷ 9 ∷ [] }
{}

/// Nodes without a way home within the length, and with one that just fits. From 9 to 15 changes there is none at all.
pub fn nodes_without_a_way_home()
    ensures long { map (λ high. cannot_come (pair (asks 1 high 1)) (0 ∷ [])) (23 ∷ 24 ∷ []) ≡ true ∷ false ∷ [] }
    ensures short { map (λ low. cannot_come (pair (asks low 15 1)) []) (8 ∷ 9 ∷ []) ≡ false ∷ true ∷ [] }
    ensures parts { map (λ parts. cannot_come (pair (asks 1 24 parts)) (0 ∷ [])) (1 ∷ 2 ∷ 3 ∷ []) ≡ false ∷ true ∷ false ∷ [] }
{}

/// After one plain lead each way home has two more, of either method. So there are three plain leads, one to three of them of the
/// first method, six rows that begin with 4, and up to two changes of method; and one more, or one fewer, cannot be.
pub fn ways_that_have_just_enough()
    ensures marks { map (λ most. cannot_come (pair (record (asks 1 24 1) { counts = marked 112 0 most ∷ [] })) (0 ∷ [])) (2 ∷ 3 ∷ []) ≡ true ∷ false ∷ [] }
    ensures more_marks { map (λ least. cannot_come (pair (record (asks 1 24 1) { counts = marked 112 least 9 ∷ [] })) (0 ∷ [])) (3 ∷ 4 ∷ []) ≡ false ∷ true ∷ [] }
    ensures methods { map (λ most. cannot_come (pair (record (asks 1 24 1) { method_counts = lettered 65 0 most ∷ [] })) (0 ∷ [])) (0 ∷ 1 ∷ []) ≡ true ∷ false ∷ [] }
    ensures more_methods { map (λ least. cannot_come (pair (record (asks 1 24 1) { method_counts = lettered 65 least 9 ∷ [] })) (0 ∷ [])) (3 ∷ 4 ∷ []) ≡ false ∷ true ∷ [] }
    ensures rows { map (λ most. cannot_come (pair (record (asks 1 24 1) { patterns = fours 0 most ∷ [] })) (0 ∷ [])) (5 ∷ 6 ∷ []) ≡ true ∷ false ∷ [] }
    ensures more_rows { map (λ least. cannot_come (pair (record (asks 1 24 1) { patterns = fours least 24 ∷ [] })) (0 ∷ [])) (6 ∷ 7 ∷ []) ≡ false ∷ true ∷ [] }
    ensures changes { map (λ most. cannot_come (pair (record (asks 1 24 1) { «com» = Some (com_from 0 most) })) (0 ∷ 2 ∷ [])) (0 ∷ 1 ∷ []) ≡ true ∷ false ∷ [] }
    ensures more_changes { map (λ least. cannot_come (pair (record (asks 1 24 1) { «com» = Some (com_from least 9) })) (0 ∷ [])) (2 ∷ 3 ∷ []) ≡ false ∷ true ∷ [] }
{}

/// Limits are looked at one at a time. Two leads of each method cannot be, but each of the two limits can be met.
pub fn one_limit_at_a_time()
    ensures both { cannot_come (pair (record (asks 1 24 1) { method_counts = lettered 65 2 9 ∷ lettered 67 2 9 ∷ [] })) (0 ∷ []) ≡ false }
{}

/// In three parts of one lead each a touch has three times what its part has: three plain leads, and six rows that begin with 4.
pub fn a_touch_has_what_its_parts_have()
    ensures marks { map (λ most. cannot_come (pair (record (asks 1 24 3) { counts = marked 112 0 most ∷ [] })) []) (2 ∷ 3 ∷ []) ≡ true ∷ false ∷ [] }
    ensures more_marks { map (λ least. cannot_come (pair (record (asks 1 24 3) { counts = marked 112 least 9 ∷ [] })) []) (3 ∷ 4 ∷ []) ≡ false ∷ true ∷ [] }
    ensures rows { map (λ most. cannot_come (pair (record (asks 1 24 3) { patterns = fours 0 most ∷ [] })) []) (5 ∷ 6 ∷ []) ≡ true ∷ false ∷ [] }
{}

/// The moves of Plain Bob Minimus by hand are moves of `pair`, for one part, and gain what its plain leads add to a count. For three
/// parts they are none, since a part of three ends elsewhere; and with two next places exchanged they are none.
pub fn moves_of_plain_bob_minimus()
    ensures moves { AreMovesOf (pair (asks 1 24 1)) minimus_heads minimus_moves }
    ensures gains { HaveGains (pair (asks 1 24 1)) minimus_heads minimus_moves (λ place step. marked_gain (pair (asks 1 24 1)) 112 step) }
    ensures place { IsPlaceOf (pair (asks 1 24 1)) minimus_heads 2 (0 ∷ 2 ∷ []) }
    ensures three_parts { AreMovesOf (pair (asks 1 24 3)) minimus_heads minimus_moves → ⊥ }
    ensures exchanged { AreMovesOf (pair (asks 1 24 1)) minimus_heads (record minimus_moves { next = 0 ∷ 1 ∷ 1 ∷ 2 ∷ 1 ∷ 2 ∷ 0 ∷ 2 ∷ 0 ∷ [] }) → ⊥ }
{}

/// In one part changes of method are looked at, from the first lead on: a lead of each method is one change, and a course of three
/// leads has two at most. In three parts they are not, and by lead heads alone they are not.
pub fn changes_of_method_in_one_part()
    ensures one { map (λ most. cannot_come_by (pair (record (asks 1 24 1) { «com» = Some (com_from 0 most) })) (0 ∷ 2 ∷ [])) (0 ∷ 1 ∷ []) ≡ true ∷ false ∷ [] }
    ensures root { map (λ least. cannot_come_by (pair (record (asks 24 24 1) { «com» = Some (com_from least 9) })) []) (2 ∷ 3 ∷ []) ≡ false ∷ true ∷ [] }
    ensures heads { cannot_come_by_heads (pair (record (asks 24 24 1) { «com» = Some (com_from 3 9) })) [] ≡ false }
    ensures parts { cannot_come_by (pair (record (asks 24 24 3) { «com» = Some (com_from 9 9) })) [] ≡ false }
{}

/// With two methods each head has three places: that of no last method, then those of the methods.
pub fn places_of_two_methods()
    ensures places { map (place_by 3 2) (None ∷ Some 0 ∷ Some 1 ∷ []) ≡ 6 ∷ 7 ∷ 8 ∷ [] }
    ensures last { map (last_at 3) (5 ∷ 6 ∷ 7 ∷ 8 ∷ 9 ∷ []) ≡ Some 1 ∷ None ∷ Some 0 ∷ Some 1 ∷ None ∷ [] }
{}
