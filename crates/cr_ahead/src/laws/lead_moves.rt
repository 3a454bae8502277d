//! Moves from lead head to lead head of a problem: what a table of them answers says of whole touches.

ghost use Rattle.std.specs.Prelude.{◌≡◌, ℕ, ◌+◌, ◌-◌, ◌*◌, ◌≤◌, ◌↔◌, List, [], length, get_or, Option, None, Some, IsNone};
ghost use Rattle.cr_model.specs.declared.query.Cell.{Cell};
ghost use Rattle.cr_model.specs.declared.query.Com.{Com};
ghost use Rattle.cr_model.specs.declared.query.Count.{Count};
ghost use Rattle.cr_model.specs.declared.query.MethodCount.{MethodCount};
ghost use Rattle.cr_model.specs.Problems.{PatternParts, ProblemParts};
ghost use Rattle.cr_model.specs.Callings.{rows_of, length_of, method_of};
ghost use Rattle.cr_model.specs.Queries.{part_cap, leads_marked, leads_lettered, rows_fitting, changes_of_method};
ghost use Rattle.cr_model.specs.Sizes.{child};
ghost use Rattle.cr_model.specs.Sound.{IsSound};
ghost use Rattle.cr_model.specs.Dead.{parts_of};
ghost use Rattle.cr_ahead.specs.declared.gains.Gains.{Gains};
ghost use Rattle.cr_ahead.specs.Moves.{MovesParts};
ghost use Rattle.cr_ahead.specs.Ways.{gain_of, IsWay, Tells, IsAnswer};
ghost use Rattle.cr_ahead.specs.Home.{touch_with, IsWayHome, HasNoWayHome};
ghost use Rattle.cr_ahead.specs.Items.{Item, number_with, cannot_meet};
ghost use Rattle.cr_ahead.specs.Items.{count_item, method_item, pattern_item, com_item};
ghost use Rattle.cr_ahead.specs.LeadMoves.{part_least, AreMovesOf, IsPlaceOf, HaveGains, HaveMethods, last_method};
ghost use Rattle.cr_ahead.specs.LeadMoves.{marked_gain, lettered_gain, fitting_gain, changing_gain, of_touches, refuses};

/// From the place of a node's head, at the node's length, the ways of a problem's moves are the ways home of the node.
pub fn moves_go_the_ways_home()
    ensures { (p : ProblemParts) (heads : List (List ℕ)) (m : MovesParts) (place : ℕ) (node way : List ℕ)
        → IsSound p → AreMovesOf p heads m → IsPlaceOf p heads place node
        → IsWay m (part_least p) (part_cap p) place (length_of p node) way ↔ IsWayHome p node way }
{}

/// What the moves answer from the place of a node's head, at the node's length, says of whole touches: None that the node has
/// no way home, and Some the least and the greatest number that the touch of a way home has, of leads with a mark and of
/// leads of a method; and in one part, of rows that fit a pattern and of changes of method.
pub fn answers_tell_of_touches()
    ensures marks { (p : ProblemParts) (heads : List (List ℕ)) (m : MovesParts) (place : ℕ) (node : List ℕ) (gains : Option Gains) (mark : ℕ)
        → IsSound p → AreMovesOf p heads m → IsPlaceOf p heads place node → HaveGains p heads m (λ place step. marked_gain p mark step)
        → IsAnswer m (part_least p) (part_cap p) place (length_of p node) gains
        → Tells (IsWayHome p node) (λ way. leads_marked p mark (touch_with p node way))
        (of_touches (parts_of p) (leads_marked p mark node) gains) }
    ensures methods { (p : ProblemParts) (heads : List (List ℕ)) (m : MovesParts) (place : ℕ) (node : List ℕ) (gains : Option Gains) (letter : ℕ)
        → IsSound p → AreMovesOf p heads m → IsPlaceOf p heads place node → HaveGains p heads m (λ place step. lettered_gain p letter step)
        → IsAnswer m (part_least p) (part_cap p) place (length_of p node) gains
        → Tells (IsWayHome p node) (λ way. leads_lettered p letter (touch_with p node way))
        (of_touches (parts_of p) (leads_lettered p letter node) gains) }
    ensures rows { (p : ProblemParts) (heads : List (List ℕ)) (m : MovesParts) (place : ℕ) (node : List ℕ) (gains : Option Gains) (cells : List Cell)
        → IsSound p → parts_of p ≡ 1 → AreMovesOf p heads m → IsPlaceOf p heads place node
        → HaveGains p heads m (λ place step. fitting_gain p cells (get_or heads place []) step)
        → IsAnswer m (part_least p) (part_cap p) place (length_of p node) gains
        → Tells (IsWayHome p node) (λ way. rows_fitting cells (rows_of p (touch_with p node way)))
        (of_touches 1 (rows_fitting cells (rows_of p node)) gains) }
    ensures changes { (p : ProblemParts) (heads : List (List ℕ)) (m : MovesParts) (place : ℕ) (node : List ℕ) (gains : Option Gains)
        (methods : List (Option ℕ)) → IsSound p → parts_of p ≡ 1 → AreMovesOf p heads m → IsPlaceOf p heads place node
        → HaveMethods p heads m methods → get_or methods place None ≡ last_method p node
        → HaveGains p heads m (λ place step. changing_gain p (get_or methods place None) step)
        → IsAnswer m (part_least p) (part_cap p) place (length_of p node) gains
        → Tells (IsWayHome p node) (λ way. changes_of_method p (touch_with p node way))
        (of_touches 1 (changes_of_method p node) gains) }
{}

/// Where an answer tells of touches, a node has no way home exactly where it is None, and cannot meet an item exactly where
/// the item's limits refuse it.
pub fn answers_tell_what_cannot_come()
    ensures no_way { (p : ProblemParts) (node : List ℕ) (number_of : List ℕ → ℕ) (gains : Option Gains)
        → Tells (IsWayHome p node) number_of gains → IsNone gains ↔ HasNoWayHome p node }
    ensures item { (p : ProblemParts) (node : List ℕ) (item : Item) (gains : Option Gains) → IsSound p
        → Tells (IsWayHome p node) (number_with p node item) gains
        → cannot_meet p node item ≡ refuses item.min item.max gains }
{}

/// So a node cannot meet an item of a query exactly where the item's limits refuse what the moves answer: for a count of a mark
/// and a count of a method, and in one part for a pattern and the limit on changes of method.
pub fn answers_refuse_items()
    ensures marks { (p : ProblemParts) (heads : List (List ℕ)) (m : MovesParts) (place : ℕ) (node : List ℕ) (gains : Option Gains) (count : Count)
        → IsSound p → AreMovesOf p heads m → IsPlaceOf p heads place node → HaveGains p heads m (λ place step. marked_gain p count.mark step)
        → IsAnswer m (part_least p) (part_cap p) place (length_of p node) gains
        → cannot_meet p node (count_item p count)
        ≡ refuses count.min count.max (of_touches (parts_of p) (leads_marked p count.mark node) gains) }
    ensures methods { (p : ProblemParts) (heads : List (List ℕ)) (m : MovesParts) (place : ℕ) (node : List ℕ) (gains : Option Gains) (count : MethodCount)
        → IsSound p → AreMovesOf p heads m → IsPlaceOf p heads place node → HaveGains p heads m (λ place step. lettered_gain p count.letter step)
        → IsAnswer m (part_least p) (part_cap p) place (length_of p node) gains
        → cannot_meet p node (method_item p count)
        ≡ refuses count.min count.max (of_touches (parts_of p) (leads_lettered p count.letter node) gains) }
    ensures rows { (p : ProblemParts) (heads : List (List ℕ)) (m : MovesParts) (place : ℕ) (node : List ℕ) (gains : Option Gains) (pattern : PatternParts)
        → IsSound p → parts_of p ≡ 1 → AreMovesOf p heads m → IsPlaceOf p heads place node
        → HaveGains p heads m (λ place step. fitting_gain p pattern.cells (get_or heads place []) step)
        → IsAnswer m (part_least p) (part_cap p) place (length_of p node) gains
        → cannot_meet p node (pattern_item p pattern)
        ≡ refuses pattern.min pattern.max (of_touches 1 (rows_fitting pattern.cells (rows_of p node)) gains) }
    ensures changes { (p : ProblemParts) (heads : List (List ℕ)) (m : MovesParts) (place : ℕ) (node : List ℕ) (gains : Option Gains)
        (methods : List (Option ℕ)) (limits : Com) → IsSound p → parts_of p ≡ 1 → AreMovesOf p heads m → IsPlaceOf p heads place node
        → HaveMethods p heads m methods → get_or methods place None ≡ last_method p node
        → HaveGains p heads m (λ place step. changing_gain p (get_or methods place None) step)
        → IsAnswer m (part_least p) (part_cap p) place (length_of p node) gains
        → cannot_meet p node (com_item p limits)
        ≡ refuses limits.min limits.max (of_touches 1 (changes_of_method p node) gains) }
{}

/// In several parts the changes of method at the joins of parts come to those that a way gains: up to one for each part but one.
pub fn changes_of_method_in_parts()
    ensures { (p : ProblemParts) (heads : List (List ℕ)) (m : MovesParts) (place : ℕ) (node way : List ℕ)
        (methods : List (Option ℕ)) → IsSound p → AreMovesOf p heads m → IsPlaceOf p heads place node
        → HaveMethods p heads m methods → get_or methods place None ≡ last_method p node
        → HaveGains p heads m (λ place step. changing_gain p (get_or methods place None) step)
        → IsWayHome p node way
        → (parts_of p * (changes_of_method p node + gain_of m place way) ≤ changes_of_method p (touch_with p node way))
        × (changes_of_method p (touch_with p node way) ≤ parts_of p * (changes_of_method p node + gain_of m place way) + parts_of p - 1) }
{}

/// A lead more changes the method, behind the last lead, or it does not. So a node has no more changes of method than leads.
pub fn changes_of_method_lead_by_lead()
    ensures more { (p : ProblemParts) (node : List ℕ) (step : ℕ)
        → changes_of_method p (child node step) ≡ changes_of_method p node + changing_gain p (last_method p node) step }
    ensures last { (p : ProblemParts) (node : List ℕ) (step : ℕ) → last_method p (child node step) ≡ Some (method_of p step) }
    ensures few { (p : ProblemParts) (node : List ℕ) → changes_of_method p node ≤ length node }
{}
