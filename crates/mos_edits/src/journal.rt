//! Laws of the journal: which entries it takes, and what they do.

ghost use Rattle.std.specs.Prelude.{◌≡◌, ℕ, ◌+◌, ◌<◌, List, [], ◌∷◌, ◌++◌, false, Option, Some, None};
ghost use Rattle.mos_edits.specs.Texts.{Text, same_id};
ghost use Rattle.mos_edits.specs.KeyedLists.{ActFault, Applied};
ghost use Rattle.mos_edits.specs.Orders.{Order, edit_ro, apply};
ghost use Rattle.mos_edits.specs.Entries.{Entry, Refusal, entry_count, edit_at, order_at, order_now, over_limit, acceptance, IsAccepted, AreEntries, IsNamed};

/// An entry is refused for the fault that its edit has on the order that is there, else for the limit that the result
/// would pass, and else it is accepted.
pub fn refusals_have_their_cause()
    ensures faulty { (journal : List Entry) (e : Entry) (f : ActFault) → apply e.ro (order_now journal e.ro) e.edit ≡ Applied.Fault f → acceptance journal e ≡ Some (Refusal.Faulty f) }
    ensures full { (journal : List Entry) (e : Entry) (p : Option Order) (units : ℕ) → apply e.ro (order_now journal e.ro) e.edit ≡ Applied.Done p → over_limit (journal ++ e ∷ []) e ≡ Some units → acceptance journal e ≡ Some (Refusal.Full units) }
    ensures accepted { (journal : List Entry) (e : Entry) (p : Option Order) → apply e.ro (order_now journal e.ro) e.edit ≡ Applied.Done p → over_limit (journal ++ e ∷ []) e ≡ None → acceptance journal e ≡ None }
{}

/// An accepted entry makes its order the result of its edit, and is the next of that order's entries. It leaves every other
/// order as it is.
pub fn accepted_entries_apply()
    ensures applies { (journal : List Entry) (e : Entry) → acceptance journal e ≡ None → apply e.ro (order_now journal e.ro) e.edit ≡ Applied.Done (order_now (journal ++ e ∷ []) e.ro) }
    ensures counts { (journal : List Entry) (e : Entry) → entry_count (journal ++ e ∷ []) e.ro ≡ entry_count journal e.ro + 1 }
    ensures others { (journal : List Entry) (e : Entry) (r : Text) → same_id r e.ro ≡ false → order_now (journal ++ e ∷ []) r ≡ order_now journal r }
    ensures other_counts { (journal : List Entry) (e : Entry) (r : Text) → same_id r e.ro ≡ false → entry_count (journal ++ e ∷ []) r ≡ entry_count journal r }
{}

/// In a journal whose entries were all accepted, each entry of an order makes the order after it of the order before it.
pub fn each_entry_applies_to_the_order_before_it()
    ensures { (journal : List Entry) → IsAccepted [] journal → (r : Text) (k : ℕ) → k < entry_count journal r → apply r (order_at journal r k) (edit_at journal r k) ≡ Applied.Done (order_at journal r (k + 1)) }
{}

/// An order that is there has the roID of its entries, where each entry has the roID of its edit.
pub fn orders_have_the_roid_of_their_entries()
    ensures orders { (journal : List Entry) (r : Text) (m : ℕ) → AreEntries journal → IsNamed r (order_at journal r m) }
    ensures edits { (journal : List Entry) (r : Text) (k : ℕ) → AreEntries journal → k < entry_count journal r → edit_ro (edit_at journal r k) ≡ r }
{}
