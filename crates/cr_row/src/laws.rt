//! Laws of rows and changes. Each function does nothing: its contract is the law.

ghost use Rattle.std.specs.Prelude.{◌≡◌, ◌⊎◌, ℕ, ◌+◌, ◌-◌, ◌<◌, ◌≤◌, true, false, List, length, get_or, nat_eq};
ghost use Rattle.std.specs.List.{list_any};
ghost use Rattle.cr_row.specs.Rows.{IsRow, rounds, product, IsInverse};
ghost use Rattle.cr_row.specs.Rows.{Places, IsChange, after, is_made, HaveSwapped, HasMoved};
ghost use Rattle.cr_row.specs.Packed.{key_of};
ghost use Rattle.cr_row.specs.PlaceFaults.{IsPlaceFault};
ghost use Rattle.cr_row.specs.declared.faults.PlaceFault.{PlaceFault};

/// A change of a product is the product with the changed row.
pub fn change_after_product()
    ensures { (c : Places) (h r : List ℕ) → after c (product h r) ≡ product h (after c r) }
{}

/// A change makes a row of a row, of the same length.
pub fn change_of_a_row()
    ensures row { (c : Places) (r : List ℕ) → IsRow r → IsRow (after c r) }
    ensures same_length { (c : Places) (r : List ℕ) → length (after c r) ≡ length r }
{}

/// A change undoes itself.
pub fn change_twice()
    ensures { (c : Places) (r : List ℕ) → after c (after c r) ≡ r }
{}

/// After a change the bell at each place made stays, and each other bell swaps with a neighbour at a
/// place that is not made either. So each bell stands at most one place from where it stood.
pub fn change_swaps_neighbours()
    ensures stays { (c : Places) (r : List ℕ) (p : ℕ) → IsChange c → length r ≡ c.stage →
        is_made c p ≡ true → get_or (after c r) (p - 1) 0 ≡ get_or r (p - 1) 0 }
    ensures swaps { (c : Places) (r : List ℕ) (i : ℕ) → IsChange c → length r ≡ c.stage → i < c.stage →
        is_made c (i + 1) ≡ false → (j : ℕ) × HaveSwapped c r i j }
    ensures near { (c : Places) (r : List ℕ) (i : ℕ) → i < length r → (j : ℕ) × HasMoved c r i j }
{}

/// The product of two rows of one length is a row of that length.
pub fn product_of_rows()
    ensures row { (h r : List ℕ) → IsRow h → IsRow r → length h ≡ length r → IsRow (product h r) }
    ensures same_length { (h r : List ℕ) → length (product h r) ≡ length r }
{}

/// The product of rows of one length associates.
pub fn product_associates()
    ensures { (g h r : List ℕ) → IsRow r → length h ≡ length r → product (product g h) r ≡ product g (product h r) }
{}

/// Rows cancel in a product, on both sides.
pub fn rows_cancel()
    ensures left { (h r s : List ℕ) → IsRow h → IsRow r → IsRow s → length r ≡ length h → length s ≡ length h →
        product h r ≡ product h s → r ≡ s }
    ensures right { (g h r : List ℕ) → IsRow r → length g ≡ length r → length h ≡ length r →
        product g r ≡ product h r → g ≡ h }
{}

/// Rounds is neutral on both sides.
pub fn rounds_is_neutral()
    ensures row { (n : ℕ) → IsRow (rounds n) }
    ensures length { (n : ℕ) → length (rounds n) ≡ n }
    ensures right { (h : List ℕ) → product h (rounds (length h)) ≡ h }
    ensures left { (r : List ℕ) → IsRow r → product (rounds (length r)) r ≡ r }
{}

/// A row has at most one inverse, which is a row.
pub fn inverse_is_unique()
    ensures row { (h r : List ℕ) → IsRow h → IsInverse h r → IsRow r }
    ensures one { (h r s : List ℕ) → IsRow h → IsInverse h r → IsInverse h s → r ≡ s }
{}

/// Of two rows of one length, one is the inverse of the other as soon as it undoes it on one side.
pub fn inverse_on_one_side()
    ensures right { (h r : List ℕ) → IsRow h → IsRow r → length h ≡ length r →
        product h r ≡ rounds (length h) → IsInverse h r }
    ensures left { (h r : List ℕ) → IsRow h → IsRow r → length h ≡ length r →
        product r h ≡ rounds (length h) → IsInverse h r }
{}

/// Rows of at most 16 bells that have one length and one key are one.
pub fn keys_tell_rows_apart()
    ensures { (r s : List ℕ) → IsRow r → IsRow s → length r ≤ 16 → length r ≡ length s → key_of r ≡ key_of s → r ≡ s }
{}

/// Of the places given there is at most one fault, and none where they are those of a change.
pub fn place_fault_is_unique()
    ensures one { (stage : ℕ) (places : List ℕ) (f g : PlaceFault) →
        IsPlaceFault stage places f → IsPlaceFault stage places g → f ≡ g }
    ensures none { (stage : ℕ) (places : List ℕ) (f : PlaceFault) →
        IsPlaceFault stage places f → IsChange (record { stage = stage; made = places }) → ⊥ }
{}
