//! Laws of the shape of a checkpoint's text, about its definitions alone. Each is the contract of a function that does
//! nothing.

ghost use Rattle.std.specs.Prelude.{◌≡◌, ℕ, ◌+◌, ◌⊎◌, List, [], ◌∷◌, ◌++◌, length, take, codes};
ghost use Rattle.cr_model.specs.Checkpoints.{number_line};
ghost use Rattle.cr_store.specs.Shapes.{ShapeParts, HasShape, line_feeds, found_line};
ghost use Rattle.cr_store.specs.ShapeFaults.{IsFormFault, IsFirstWrongLine, IsFirstWrongPlace};

/// A text has one shape at most.
pub fn a_text_has_one_shape()
    ensures { (text : List ℕ) (one other : ShapeParts) → HasShape text one → HasShape text other → one ≡ other }
{}

/// A text has a shape, or it goes wrong first on some line.
pub fn a_text_has_a_shape_or_a_fault()
    ensures { (text : List ℕ) → ((s : ShapeParts) × HasShape text s) ⊎ ((line : ℕ) × IsFormFault text line) }
{}

/// A text that has a shape goes wrong nowhere.
pub fn no_text_has_shape_and_fault()
    ensures { (text : List ℕ) (s : ShapeParts) (line : ℕ) → HasShape text s → IsFormFault text line → ⊥ }
{}

/// A text goes wrong first on one line at most.
pub fn one_line_is_first_wrong()
    ensures { (text : List ℕ) (one other : ℕ) → IsFormFault text one → IsFormFault text other → one ≡ other }
{}

/// The line that is first wrong is that of the first wrong byte, or, where the text ends too early, that of its end.
pub fn the_first_wrong_byte_is_on_the_first_wrong_line()
    ensures { (text : List ℕ) (place : ℕ) → IsFirstWrongPlace text place → IsFirstWrongLine text (1 + line_feeds (take place text)) }
{}

/// The line `found` has the number that `found_line` tells.
pub fn found_stands_on_its_line()
    ensures { (text : List ℕ) (s : ShapeParts) → HasShape text s
        → (front : List ℕ) × (rest : List ℕ) × (text ≡ front ++ (number_line (codes "found") (length s.found) ++ rest)) × (found_line s ≡ 1 + line_feeds front) }
{}

/// Two texts with their shapes, one of each version.
pub fn shapes_by_example()
    ensures first { HasShape (codes "ringsearch checkpoint 1\nproblem 1\nx\nfound 0\njobs 1\njob 1\n-\nend\n")
        (record { version = 1; problem = codes "x"; found = []; jobs = (record { shared = 0; steps = codes "-" } ∷ []) ∷ [] }) }
    ensures second { HasShape (codes "ringsearch checkpoint 2\nproblem 0\n\nfound 1\n20 bb\njobs 1\njob 2\n0 pb\n1 p\nend\n")
        (record {
          version = 2;
          problem = [];
          found = record { length = 20; calling = codes "bb" } ∷ [];
          jobs = (record { shared = 0; steps = codes "pb" } ∷ record { shared = 1; steps = codes "p" } ∷ []) ∷ [];
        }) }
{}
