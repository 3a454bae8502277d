//! Worked examples: literals at the edges of the definitions.

ghost use Rattle.std.specs.Prelude.{◌≡◌, true, false, List, [], ◌∷◌, map, codes, All};
ghost use Rattle.cr_model.specs.declared.query.Cell.TheVariants as cell;
ghost use Rattle.cr_model.specs.Callings.{TrueTouch};
ghost use Rattle.cr_model.specs.Queries.{cap, part_cap, repeated, leads_marked, leads_lettered, fits, changes_of_method, Meets};
ghost use Rattle.cr_model.specs.Touches.{Wanted, IsRotation, Kept};
ghost use Rattle.cr_model.specs.Nodes.{part_of, is_above, IsValid};
ghost use Rattle.cr_model.specs.Books.{IsBook, book_text};
ghost use Rattle.cr_model.specs.Examples.{minimus, plain_course, pair, asks, exact, near_misses, com_from};

/// Of Plain Bob Minimus three plain leads are a kept touch, its book holds them alone, and is one line and
/// the number of touches.
pub fn plain_bob_minimus_has_its_touch()
    ensures kept { Kept minimus plain_course }
    ensures book { IsBook minimus [] ([] ∷ []) (plain_course ∷ []) }
    ensures text { book_text minimus (plain_course ∷ []) ≡ codes "24 ppp\ntouches 1\n" }
{}

/// The letters of a calling's methods decide its changes of method: A A C has one, A C A two, and a call none.
/// The join of last and first lead is not counted.
pub fn changes_of_method_are_counted()
    ensures once { changes_of_method (pair exact) (0 ∷ 0 ∷ 2 ∷ []) ≡ 1 }
    ensures twice { changes_of_method (pair exact) (0 ∷ 2 ∷ 0 ∷ []) ≡ 2 }
    ensures not_at_a_call { changes_of_method (pair exact) (0 ∷ 1 ∷ 0 ∷ []) ≡ 0 }
    ensures not_at_the_join { changes_of_method (pair exact) (0 ∷ 2 ∷ []) ≡ 1 }
    ensures none { map (changes_of_method (pair exact)) ([] ∷ (2 ∷ []) ∷ []) ≡ 0 ∷ 0 ∷ [] }
{}

/// A p, A b, C p, A p: three plain leads and a call, three leads of A and one of C.
pub fn calls_and_methods_are_counted()
    ensures marks { map (λ mark. leads_marked (pair exact) mark (0 ∷ 1 ∷ 2 ∷ 0 ∷ [])) (112 ∷ 98 ∷ 97 ∷ []) ≡ 3 ∷ 1 ∷ 0 ∷ [] }
    ensures methods { map (λ letter. leads_lettered (pair exact) letter (0 ∷ 1 ∷ 2 ∷ 0 ∷ [])) (65 ∷ 67 ∷ 66 ∷ 0 ∷ 1 ∷ [])
        ≡ 3 ∷ 1 ∷ 0 ∷ 0 ∷ 0 ∷ [] }
{}

/// Cells on rows that fit them and on rows that just miss.
pub fn cells_fit_rows()
    ensures in_front { map (fits (cell.Run ∷ cell.Bell 2 ∷ cell.Bell 1 ∷ []))
        ((4 ∷ 3 ∷ 2 ∷ 1 ∷ []) ∷ (2 ∷ 1 ∷ []) ∷ (4 ∷ 3 ∷ 1 ∷ 2 ∷ []) ∷ (2 ∷ 1 ∷ 4 ∷ 3 ∷ []) ∷ [])
        ≡ true ∷ true ∷ false ∷ false ∷ [] }
    ensures in_the_middle { map (fits (cell.Bell 4 ∷ cell.Run ∷ cell.Bell 1 ∷ []))
        ((4 ∷ 3 ∷ 2 ∷ 1 ∷ []) ∷ (4 ∷ 1 ∷ []) ∷ (4 ∷ 3 ∷ 1 ∷ 2 ∷ []) ∷ (3 ∷ 4 ∷ 2 ∷ 1 ∷ []) ∷ (4 ∷ []) ∷ [])
        ≡ true ∷ true ∷ false ∷ false ∷ false ∷ [] }
    ensures at_the_end { map (fits (cell.Bell 4 ∷ cell.Bell 3 ∷ cell.Run ∷ []))
        ((4 ∷ 3 ∷ 2 ∷ 1 ∷ []) ∷ (4 ∷ 3 ∷ []) ∷ (4 ∷ 2 ∷ 3 ∷ 1 ∷ []) ∷ (1 ∷ 2 ∷ 4 ∷ 3 ∷ []) ∷ [])
        ≡ true ∷ true ∷ false ∷ false ∷ [] }
    ensures alone { map (fits (cell.Run ∷ [])) ((4 ∷ 3 ∷ 2 ∷ 1 ∷ []) ∷ [] ∷ []) ≡ true ∷ true ∷ [] }
    ensures of_no_bell { map (fits (cell.Bell 1 ∷ cell.Bell 2 ∷ cell.Run ∷ cell.Bell 3 ∷ cell.Bell 4 ∷ []))
        ((1 ∷ 2 ∷ 3 ∷ 4 ∷ []) ∷ (1 ∷ 2 ∷ 4 ∷ 3 ∷ []) ∷ [])
        ≡ true ∷ false ∷ [] }
    ensures of_any_bell { map (fits (cell.Any ∷ cell.Bell 3 ∷ cell.Any ∷ []))
        ((1 ∷ 3 ∷ 2 ∷ []) ∷ (1 ∷ 2 ∷ 3 ∷ []) ∷ (1 ∷ 3 ∷ []) ∷ (1 ∷ 3 ∷ 2 ∷ 4 ∷ []) ∷ [])
        ≡ true ∷ false ∷ false ∷ false ∷ [] }
    ensures without_a_cell { map (fits []) ([] ∷ (1 ∷ []) ∷ []) ≡ true ∷ false ∷ [] }
{}

/// A calling that has exactly what each limit of a query says meets it, and meets no query with one limit past that.
pub fn the_query_has_its_edges()
    ensures met { Meets (pair exact) (0 ∷ 0 ∷ 2 ∷ []) }
    ensures missed { All (λ query. Meets (pair query) (0 ∷ 0 ∷ 2 ∷ []) → ⊥) near_misses }
    ensures to_the_extent { map (λ high. cap (pair (asks 1 high 1))) (23 ∷ 24 ∷ 25 ∷ []) ≡ 23 ∷ 24 ∷ 24 ∷ [] }
{}

/// A plain course and a call alone are true touches. Nothing is none; a lead that ends elsewhere than in
/// rounds is none; and neither is a calling that comes round twice.
pub fn true_touches_come_round_once()
    ensures touches { All (TrueTouch (pair exact)) ((0 ∷ 0 ∷ 0 ∷ []) ∷ (1 ∷ []) ∷ []) }
    ensures others { All (λ calling. TrueTouch (pair exact) calling → ⊥)
        ([] ∷ (0 ∷ []) ∷ (1 ∷ 1 ∷ []) ∷ (0 ∷ 1 ∷ 0 ∷ 0 ∷ []) ∷ []) }
{}

/// A node may be as long as a part, and not one change longer; and it has steps of the problem alone.
pub fn nodes_end_at_the_cap()
    ensures rounded_down { map (λ high. part_cap (pair (asks 1 high 3))) (24 ∷ 23 ∷ []) ≡ 8 ∷ 7 ∷ [] }
    ensures at_the_cap { IsValid (pair (asks 1 24 3)) (0 ∷ []) }
    ensures above_the_cap { IsValid (pair (asks 1 23 3)) (0 ∷ []) → ⊥ }
    ensures of_known_steps { IsValid (pair (asks 1 24 1)) (2 ∷ 1 ∷ []) }
    ensures no_other_step { IsValid (pair (asks 1 24 1)) (2 ∷ 3 ∷ []) → ⊥ }
{}

/// A calling of two equal words has the first as its part, and nodes that begin that are above it.
pub fn parts_begin_a_calling()
    ensures words { repeated 2 (0 ∷ 2 ∷ []) ≡ 0 ∷ 2 ∷ 0 ∷ 2 ∷ [] }
    ensures part { part_of (pair (asks 1 24 2)) (0 ∷ 2 ∷ 0 ∷ 2 ∷ []) ≡ 0 ∷ 2 ∷ [] }
    ensures whole { part_of (pair (asks 1 24 1)) (0 ∷ 2 ∷ 0 ∷ 2 ∷ []) ≡ 0 ∷ 2 ∷ 0 ∷ 2 ∷ [] }
    ensures above { map (λ node. is_above (pair (asks 1 24 2)) node (0 ∷ 2 ∷ 0 ∷ 2 ∷ []))
        ([] ∷ (0 ∷ []) ∷ (0 ∷ 2 ∷ []) ∷ (0 ∷ 2 ∷ 0 ∷ []) ∷ (2 ∷ []) ∷ [])
        ≡ true ∷ true ∷ true ∷ false ∷ false ∷ [] }
{}

/// Of A p C p A p and A p A p C p, which are rotations, only the second is kept; and the first alone, where
/// two changes of method are asked for.
pub fn the_least_rotation_is_kept()
    ensures rotation { IsRotation (0 ∷ 2 ∷ 0 ∷ []) (0 ∷ 0 ∷ 2 ∷ []) }
    ensures wanted { Wanted (pair (asks 24 24 1)) (0 ∷ 2 ∷ 0 ∷ []) }
    ensures not_kept { Kept (pair (asks 24 24 1)) (0 ∷ 2 ∷ 0 ∷ []) → ⊥ }
    ensures kept { Kept (pair (asks 24 24 1)) (0 ∷ 0 ∷ 2 ∷ []) }
    ensures kept_under_a_limit { Kept (pair (record (asks 24 24 1) { «com» = Some (com_from 2 2) })) (0 ∷ 2 ∷ 0 ∷ []) }
{}
