//! The book.

ghost use Rattle.std.specs.Prelude.{◌≡◌, ℕ, ◌↔◌, List, [], ◌∷◌};
ghost use Rattle.cr_model.specs.Problems.{ProblemParts};
ghost use Rattle.cr_model.specs.Touches.{Kept};
ghost use Rattle.cr_model.specs.Nodes.{Covers};
ghost use Rattle.cr_model.specs.Books.{IsBook};
ghost use Rattle.cr_model.specs.Sound.{IsSound};

/// What was found and some nodes have one book alone.
pub fn book_is_unique()
    ensures { (p : ProblemParts) (found nodes book other : List (List ℕ)) → IsBook p found nodes book
        → IsBook p found nodes other → book ≡ other }
{}

/// The empty node alone, with nothing found, covers all kept touches, and nothing else.
pub fn fresh_problem_covers_its_kept()
    ensures { (p : ProblemParts) (calling : List ℕ) → Covers p [] ([] ∷ []) calling ↔ Kept p calling }
{}

/// What was found and some nodes have a book, where the problem passes all checks. Of other parts this is
/// not true: where a lead has no changes, callings of any number of leads can be kept.
pub fn the_book_exists()
    ensures { (p : ProblemParts) (found nodes : List (List ℕ)) → IsSound p
        → (book : List (List ℕ)) × IsBook p found nodes book }
{}
