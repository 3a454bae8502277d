//! Laws of pushes. Each function does nothing: its contract is the law.

ghost use Rattle.std.specs.Prelude.{◌≡◌, ℕ, ◌≤◌, List, length};
ghost use Rattle.cr_rowset.specs.Stacks.{StackParts, AllDiffer};
ghost use Rattle.cr_rowset.specs.Pushing.{Pushes};
ghost use Rattle.cr_rowset.specs.declared.pushed.Pushed.{Pushed};

/// A push of one row to one stack has one answer, and leaves one stack.
pub fn a_push_has_one_answer()
    ensures { (old new other : StackParts) (row : List ℕ) (a b : Pushed) → AllDiffer old.rows →
        Pushes old row a new → Pushes old row b other → (a ≡ b) × (new ≡ other) }
{}

/// After a push the rows still differ, and are no more than the room, which has not changed.
pub fn rows_stay_different()
    ensures differ { (old new : StackParts) (row : List ℕ) (a : Pushed) → AllDiffer old.rows →
        Pushes old row a new → AllDiffer new.rows }
    ensures few { (old new : StackParts) (row : List ℕ) (a : Pushed) → length old.rows ≤ old.room →
        Pushes old row a new → length new.rows ≤ new.room }
    ensures same_room { (old new : StackParts) (row : List ℕ) (a : Pushed) → Pushes old row a new → new.room ≡ old.room }
{}
